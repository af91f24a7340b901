//! Each call of the traits, with success.

use crate::asking::{ask, ask_all, item};
use flat_combining::examples::{
    BoundedQueue, Counter, MapCall, MapReply, OrderedMap, QueueCall, QueueReply,
};
use flat_combining::{Shared, machine_of, shared};
use lock_desk::{Book, Call, Mode, Reply, Resource};
use sequential::{Entry, Fresh, NO_BOUND, Sequential, Serving, Telling, Trimming, are_within};
use std::alloc::Global;
use std::process::Abort;
use std::test::Fail;

/// An entry of a history.
fn entry<C: Copy, R: Copy>(session: u16, call: C, reply: R) -> Entry<C, R> {
    Entry {
        session,
        call,
        reply,
    }
}

/// A counter of two sessions serves two calls and a batch of two: each reply is the sum before.
fn want_counted(rt: &impl Abort, counter: &mut Shared<Counter>) {
    assert_eq!(rt; counter.sessions(), 2);
    assert_eq!(rt; ask(counter, 1, 5), Some(0));
    assert_eq!(rt; ask(counter, 2, 7), Some(5));
    let mut items = [item(2, 1), item(1, 4)];
    assert_eq!(rt; ask_all(counter, &mut items), Some(2));
    let [first, second] = items;
    assert_eq!(rt; first.reply, Some(12));
    assert_eq!(rt; second.reply, Some(13));
    assert_eq!(rt; counter.served(), 4);
}

/// A counter replies with the sum before.
#[test]
fn counters_reply_with_the_sum_before(rt: HostRuntime) -> Result<(), Fail> {
    let mut counter = shared(rt.alloc(), Counter::new(), 2);
    want_counted(&rt, &mut counter);
    Ok(())
}

/// A queue of two sessions, with the history of its calls.
fn new_queue(alloc: Global) -> Shared<BoundedQueue> {
    let mut queue = shared(alloc, BoundedQueue::new(alloc), 2);
    queue.keep_at_most(NO_BOUND);
    queue
}

/// Fills the queue: each item has room, up to the number that was said first, and one more hasn't. The first item comes out first.
fn want_queued(rt: &impl Abort, queue: &mut Shared<BoundedQueue>) {
    assert_eq!(rt; ask(queue, 1, QueueCall::Pop), Some(QueueReply::Empty));
    assert_eq!(rt;
        ask(queue, 1, QueueCall::Limit(64)),
        Some(QueueReply::Limited)
    );
    assert_eq!(rt;
        ask(queue, 2, QueueCall::Limit(99)),
        Some(QueueReply::Limited)
    );
    for number in 0..64 {
        assert_eq!(rt;
            ask(queue, 2, QueueCall::Push(number)),
            Some(QueueReply::Pushed)
        );
    }
    assert_eq!(rt; ask(queue, 1, QueueCall::Push(64)), Some(QueueReply::Full));
    let mut items = [item(1, QueueCall::Pop), item(2, QueueCall::Pop)];
    assert_eq!(rt; ask_all(queue, &mut items), Some(2));
    let [first, second] = items;
    assert_eq!(rt; first.reply, Some(QueueReply::Popped(0)));
    assert_eq!(rt; second.reply, Some(QueueReply::Popped(1)));
}

/// The queue has served 70 calls. Its history is kept, let go and handed out.
fn want_kept(rt: &impl Abort, alloc: Global, queue: &mut Shared<BoundedQueue>) {
    assert_eq!(rt; queue.sessions(), 2);
    assert_eq!(rt; queue.served(), 70);
    assert_eq!(rt; queue.kept_from(), 0);
    assert_eq!(rt; queue.kept().len(), 70);
    queue.keep_at_most(69);
    assert_eq!(rt; queue.kept_from(), 1);
    assert_eq!(rt; queue.let_go(67), 67);
    assert_eq!(rt; queue.kept_from(), 68);
    let last = entry(2, QueueCall::Pop, QueueReply::Popped(1));
    assert_eq!(rt; queue.kept().last().copied(), Some(last));
    let kept = queue.take_kept(alloc);
    assert_eq!(rt; kept.len(), 2);
    assert_eq!(rt; queue.kept_from(), 70);
    assert!(rt; !Shared::<BoundedQueue>::goes_first(&QueueCall::Pop));
}

/// An object that is given by one function keeps the history of its calls.
#[test]
fn queues_keep_the_history_of_their_calls(rt: HostRuntime) -> Result<(), Fail> {
    let mut queue = new_queue(rt.alloc());
    want_queued(&rt, &mut queue);
    want_kept(&rt, rt.alloc(), &mut queue);
    let _behind: &BoundedQueue = machine_of(&queue);
    Ok(())
}

/// Adds two keys, the greater one first, and takes the least one out. A key that is there isn't added, one that isn't there isn't
/// taken.
fn want_mapped(rt: &impl Abort, map: &mut Shared<OrderedMap>) {
    assert_eq!(rt; ask(map, 1, MapCall::First), Some(MapReply::Absent));
    assert_eq!(rt; ask(map, 1, MapCall::Add(5, 50)), Some(MapReply::Added));
    assert_eq!(rt;
        ask(map, 2, MapCall::Add(5, 51)),
        Some(MapReply::Present(50))
    );
    assert_eq!(rt; ask(map, 2, MapCall::Add(2, 20)), Some(MapReply::Added));
    assert_eq!(rt; ask(map, 1, MapCall::First), Some(MapReply::Found(2, 20)));
    assert_eq!(rt; ask(map, 1, MapCall::Get(5)), Some(MapReply::Found(5, 50)));
    assert_eq!(rt; ask(map, 1, MapCall::Get(3)), Some(MapReply::Absent));
    assert_eq!(rt; ask(map, 2, MapCall::Take(2)), Some(MapReply::Taken(20)));
    assert_eq!(rt; ask(map, 2, MapCall::Take(2)), Some(MapReply::Absent));
    assert_eq!(rt; ask(map, 1, MapCall::First), Some(MapReply::Found(5, 50)));
}

/// A map has each key once, and tells the least one.
#[test]
fn maps_keep_their_keys_in_order(rt: HostRuntime) -> Result<(), Fail> {
    let mut map = shared(rt.alloc(), OrderedMap::new(rt.alloc()), 2);
    want_mapped(&rt, &mut map);
    Ok(())
}

/// A book of two sessions serves a lock, one that waits behind it, and the commit that grants that one, of which it tells.
fn want_told(rt: &impl Abort, book: &mut Book, database: Resource) {
    let again = database;
    assert_eq!(rt; ask(book, 1, Call::Begin), Some(Reply::Began(1)));
    assert_eq!(rt; ask(book, 2, Call::Begin), Some(Reply::Began(2)));
    let mut items = [
        item(1, Call::Lock(database, Mode::X)),
        item(2, Call::Lock(again, Mode::X)),
    ];
    assert!(rt; are_within(&items, book.sessions()));
    assert_eq!(rt; ask_all(book, &mut items), Some(2));
    assert!(rt; Telling::ended(book).is_empty());
    let [held, waiting] = items;
    assert_eq!(rt; held.reply, Some(Reply::Granted(Mode::X)));
    assert_eq!(rt; waiting.reply, Some(Reply::Waiting));
    assert_eq!(rt; ask(book, 1, Call::Commit), Some(Reply::Committed(1)));
    assert_eq!(rt; Telling::ended(book).len(), 1);
    assert_eq!(rt; Telling::ended(book).first().copied(), Some(2));
    let mut polls = [item(2, Call::Poll)];
    assert_eq!(rt; ask_all(book, &mut polls), Some(1));
    let [poll] = polls;
    assert_eq!(rt; poll.reply, Some(Reply::Clear));
}

/// The book has served six calls. Its history is kept, let go and handed out.
fn want_kept_of_book(rt: &impl Abort, alloc: Global, book: &mut Book) {
    assert_eq!(rt; Sequential::sessions(book), 2);
    assert_eq!(rt; Sequential::served(book), 6);
    assert_eq!(rt; Trimming::let_go(book, 4), 4);
    assert_eq!(rt; book.kept_from(), 4);
    let last = entry(2, Call::Poll, Reply::Clear);
    assert_eq!(rt; book.kept().last().copied(), Some(last));
    let kept = book.take_kept(alloc);
    assert_eq!(rt; kept.len(), 2);
    assert!(rt; Book::goes_first(&Call::Commit) && Book::goes_first(&Call::Restart));
    assert!(rt; !Book::goes_first(&Call::Begin));
}

/// A book is a sequential object.
#[test]
fn books_are_sequential_objects(rt: HostRuntime) -> Result<(), Fail> {
    let database = Resource::from_numbers(&[1]).ok_or("no resource")?;
    let mut book = Book::fresh(rt.alloc(), 2)?;
    want_told(&rt, &mut book, database);
    want_kept_of_book(&rt, rt.alloc(), &mut book);
    Ok(())
}
