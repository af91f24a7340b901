//! Calls and batches that are refused memory, and are made a second time. Each test passes whichever single allocation is refused,
//! and also if none is; it prints a line if one was, for the check that refuses each allocation in turn.

use crate::asking::{ask, ask_all, item};
use flat_combining::examples::{
    BoundedQueue, MapCall, MapReply, OrderedMap, QueueCall, QueueReply,
};
use flat_combining::{Shared, shared};
use sequential::{NO_BOUND, Sequential, Trimming};
use std::alloc::Global;
use std::process::Abort;
use std::test::Fail;

/// Makes a queue of one session, for 8 items. Its first call is made a second time if memory is refused.
fn new_queue(rt: &impl Abort, alloc: Global) -> Shared<BoundedQueue> {
    let mut queue = shared(alloc, BoundedQueue::new(alloc), 1);
    queue.keep_at_most(NO_BOUND);
    if ask(&mut queue, 1, QueueCall::Limit(8)).is_none() {
        assert!(rt; ask(&mut queue, 1, QueueCall::Limit(8)).is_some());
    }
    queue
}

/// Puts an item into the queue, a second time if memory is refused; the history must then be unchanged. Returns whether memory was
/// refused.
fn want_pushed(rt: &impl Abort, queue: &mut Shared<BoundedQueue>) -> bool {
    let before = queue.served();
    let told = ask(queue, 1, QueueCall::Push(7));
    if told.is_some() {
        assert_eq!(rt; told, Some(QueueReply::Pushed));
        return false;
    }
    assert_eq!(rt; queue.served(), before);
    assert_eq!(rt; ask(queue, 1, QueueCall::Push(7)), Some(QueueReply::Pushed));
    true
}

/// A call that is refused memory is made by the second try.
#[test]
fn a_refused_call_of_an_object_is_made_at_the_second_try(rt: HostRuntime) -> Result<(), Fail> {
    let mut queue = new_queue(&rt, rt.alloc());
    if want_pushed(&rt, &mut queue) {
        println!(&rt; "refused call")?;
    }
    Ok(())
}

/// Serves a batch of six calls. If it ends early, the items behind are unchanged, and are served by a second batch. Returns whether
/// it did.
fn want_batch(rt: &impl Abort, queue: &mut Shared<BoundedQueue>) -> bool {
    let mut items = [
        item(1, QueueCall::Push(1)),
        item(1, QueueCall::Push(2)),
        item(1, QueueCall::Push(3)),
        item(1, QueueCall::Push(4)),
        item(1, QueueCall::Push(5)),
        item(1, QueueCall::Push(6)),
    ];
    let Some(served) = ask_all(queue, &mut items) else {
        panic!(rt; "the batch is the object's");
    };
    assert_eq!(rt; queue.served().checked_sub(1), Some(served as u64));
    let Some((done, left)) = items.split_at_mut_checked(served) else {
        panic!(rt; "a batch has no more calls than items");
    };
    for item in done {
        assert_eq!(rt; item.reply, Some(QueueReply::Pushed));
    }
    for item in left.iter() {
        assert_eq!(rt; item.reply, None);
    }
    assert_eq!(rt; ask_all(queue, left), Some(left.len()));
    served < 6
}

/// A batch ends early only if memory is refused for a call of it.
#[test]
fn a_refused_batch_goes_on_at_the_second_try(rt: HostRuntime) -> Result<(), Fail> {
    let mut queue = new_queue(&rt, rt.alloc());
    if want_batch(&rt, &mut queue) {
        println!(&rt; "ended early")?;
    }
    assert_eq!(rt;
        queue.kept().last().map(|entry| entry.call),
        Some(QueueCall::Push(6))
    );
    Ok(())
}

/// Adds a key, a second time if memory is refused; the key must not be there then. Returns whether memory was refused.
fn want_added(rt: &impl Abort, map: &mut Shared<OrderedMap>, key: u32) -> bool {
    let told = ask(map, 1, MapCall::Add(key, 7));
    if told.is_some() {
        assert_eq!(rt; told, Some(MapReply::Added));
        return false;
    }
    assert_eq!(rt; ask(map, 1, MapCall::Get(key)), Some(MapReply::Absent));
    assert_eq!(rt; ask(map, 1, MapCall::Add(key, 7)), Some(MapReply::Added));
    true
}

/// A key for which memory is refused is added by the second try.
#[test]
fn a_refused_key_is_added_at_the_second_try(rt: HostRuntime) -> Result<(), Fail> {
    let map = OrderedMap::new(rt.alloc());
    let mut recorded = shared(rt.alloc(), map, 1);
    let mut was_refused = false;
    for key in 0..12 {
        was_refused |= want_added(&rt, &mut recorded, key);
    }
    if was_refused {
        println!(&rt; "refused key")?;
    }
    Ok(())
}
