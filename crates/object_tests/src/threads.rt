//! One history has the calls of all threads that share a machine.

ghost use Rattle.std.specs.Prelude.{◌≡◌};

use crate::asking::ask;
use crate::choices::Chosen;
use flat_combining::examples::{
    BoundedQueue, Counter, MapCall, MapReply, OrderedMap, QueueCall, QueueReply,
};
use flat_combining::{Caller, Machine, Office, Shared, begin, run, shared};
use sequential::{Entry, NO_BOUND, Sequential, Serving, Trimming};
use std::alloc::{AllocError, Global};
use std::process::Abort;
use std::test::Fail;
use std::thread::Threads;

/// How many threads make calls.
const CALLERS: u16 = 8;

/// How many calls each of them makes.
const CALLS: u64 = 2000;

/// Makes `CALLS` calls of a session, chosen by pseudorandom numbers, and notes them with their replies. Stops early if memory is refused
/// for a note.
#[derive(Drop)]
struct Noting<C, Y> {
    /// The session's number.
    number: u16,
    /// How many calls it has made.
    made: u64,
    /// The last pseudorandom number, of which the upper half is used.
    state: u64,
    /// Its calls, in order.
    calls: Vec<C>,
    /// Their replies.
    replies: Vec<Y>,
}

/// Empty notes of a session.
fn no_notes<C: Copy, Y: Copy>(alloc: Global, number: u16) -> Noting<C, Y> {
    Noting {
        number,
        made: 0,
        state: u64::from(number),
        calls: Vec::new(alloc),
        replies: Vec::new(alloc),
    }
}

impl<M: Machine> Caller<M> for Noting<M::Call, M::Reply>
where
    M::Call: Chosen,
{
    fn next(&mut self, last: Option<M::Reply>) -> Option<M::Call> {
        if let Some(reply) = last {
            self.replies.push(reply).ok()?;
        }
        if self.made >= CALLS {
            return None;
        }
        self.state = self
            .state
            .wrapping_mul(6_364_136_223_846_793_005)
            .wrapping_add(1_442_695_040_888_963_407);
        let call = M::Call::choose(self.made / (CALLS / 4), self.state >> 33);
        self.made += 1;
        self.calls.push(call).ok()?;
        Some(call)
    }
}

/// The session's entries of the history are the calls that it noted, in order, with their replies.
fn want_noted<C: Copy + PartialEq, Y: Copy + PartialEq>(
    rt: &impl Abort,
    history: &[Entry<C, Y>],
    noted: &Noting<C, Y>,
) {
    let mut calls = noted.calls.iter();
    let mut replies = noted.replies.iter();
    for entry in history {
        if entry.session == noted.number {
            assert!(rt; calls.next() == Some(&entry.call));
            assert!(rt; replies.next() == Some(&entry.reply));
        }
    }
    assert!(rt; noted.made == CALLS && calls.next().is_none() && replies.next().is_none());
}

/// A fresh object of one thread gives the same replies to the calls of the history, in its order.
fn want_replies<O: Serving>(rt: &impl Abort, fresh: &mut O, history: &[Entry<O::Call, O::Reply>])
where
    O::Reply: PartialEq,
{
    for entry in history {
        let reply = ask(fresh, entry.session, entry.call).expect(rt, "a reply");
        assert!(rt; reply == entry.reply);
    }
}

/// Eight threads share the machine, which keeps the history of their calls, behind this first one. Each finds its calls in it with the
/// replies that it got, and the fresh machine gives the same replies. Returns the object.
fn want_one_history<R: Threads + Sync + Abort, M: Machine + Send>(
    rt: &R,
    alloc: Global,
    machine: M,
    fresh: M,
    first: M::Call,
) -> Result<Shared<M>, AllocError>
where
    M::Call: Chosen + Send + PartialEq,
    M::Reply: Send + PartialEq,
    requires initial { machine ≡ M.initial }
    requires fresh { fresh ≡ M.initial }
{
    let mut object = shared(alloc, machine, CALLERS);
    object.keep_at_most(NO_BOUND);
    let (office, mut sessions) = Office::share(alloc, object)?;
    let Some(own) = sessions.pop() else {
        panic!(rt; "an office has a session");
    };
    let sessions = begin(alloc, &office, own, sessions, first)?;
    let start = |number: u16| no_notes(alloc, number);
    let (object, all) = run(rt, alloc, office, sessions, &start)?;
    assert!(rt; object.served() == u64::from(CALLERS) * CALLS + 1);
    let Some((begun, made)) = object.kept().split_first() else {
        panic!(rt; "a history has its first call");
    };
    assert!(rt; begun.call == first);
    for noted in &all {
        want_noted(rt, made, noted);
    }
    want_replies(rt, &mut shared(alloc, fresh, CALLERS), object.kept());
    Ok(object)
}

/// Whether an entry has this reply.
fn has<C: Copy, Y: Copy + PartialEq>(history: &[Entry<C, Y>], reply: &Y) -> bool {
    for entry in history {
        if entry.reply == *reply {
            return true;
        }
    }
    false
}

/// Eight threads add to one counter.
#[test]
fn eight_threads_add_to_one_counter(rt: HostRuntime) -> Result<(), Fail> {
    let _counter = want_one_history(&rt, rt.alloc(), Counter::new(), Counter::new(), 7)?;
    Ok(())
}

/// Eight threads put items into one queue and take them out. Some calls find the queue full, and some find it empty, however the threads
/// run: in the first quarter of its calls each session puts in more items than the queue holds, and in the last quarter it tries to take
/// out as many.
#[test]
fn eight_threads_fill_and_empty_one_queue(rt: HostRuntime) -> Result<(), Fail> {
    let alloc = rt.alloc();
    let (queue, fresh) = (BoundedQueue::new(alloc), BoundedQueue::new(alloc));
    let queue = want_one_history(&rt, alloc, queue, fresh, QueueCall::Limit(64))?;
    assert!(rt; has(queue.kept(), &QueueReply::Full) && has(queue.kept(), &QueueReply::Empty));
    Ok(())
}

/// Eight threads add, take and look up a few keys of one map. Some calls are refused, since their key isn't there.
#[test]
fn eight_threads_share_one_map(rt: HostRuntime) -> Result<(), Fail> {
    let alloc = rt.alloc();
    let (map, fresh) = (OrderedMap::new(alloc), OrderedMap::new(alloc));
    let map = want_one_history(&rt, alloc, map, fresh, MapCall::First)?;
    assert!(rt; has(map.kept(), &MapReply::Absent));
    Ok(())
}
