//! A queue of bounded length, in the order of arrival.

ghost use Rattle.std.specs.Prelude.{◌≡◌, []};

use crate::lawful::Lawful;
use crate::machine::Machine;
use std::alloc::{AllocError as NoMemory, Global};
use std::collections::VecDeque;
use std::marker::Model;

/// What a session may call.
#[derive(Clone, Copy, Debug, PartialEq, Eq)]
pub enum QueueCall {
    /// Have at most so many items, if nobody has said how many.
    Limit(usize),
    /// Put an item behind the others.
    Push(u64),
    /// Take the first item.
    Pop,
}

/// What it gets back.
#[derive(Clone, Copy, Debug, PartialEq, Eq)]
pub enum QueueReply {
    /// The queue has a capacity.
    Limited,
    /// The item is in the queue.
    Pushed,
    /// The item isn't in the queue, which is full.
    Full,
    /// The item that was the first one.
    Popped(u64),
    /// The queue has no items.
    Empty,
}

/// A queue of a capacity that is known only at run time: the first call sets it.
#[derive(Drop)]
pub struct BoundedQueue {
    /// The greatest number of items, 0 before it is set.
    capacity: usize,
    /// The items, oldest first.
    items: VecDeque<u64, Global>,
}

impl Model for BoundedQueue {
    ghost use Rattle.flat_combining.specs.examples.Queues.{Queue};

    ghost Value = { Queue };

    ghost use Rattle.flat_combining.specs.declared.examples.bounded_queue.BoundedQueue.TheInside.{Inside};

    ghost view = { λ (queue : Inside). record { capacity = queue.capacity; items = queue.items.items } };
}

impl BoundedQueue {
    /// A queue with no items, and no capacity.
    pub fn new(alloc: Global) -> BoundedQueue
        ensures { result ≡ record { capacity = 0; items = [] } }
    {
        let items = VecDeque::new(alloc);
        BoundedQueue { capacity: 0, items }
    }
}

impl Machine for BoundedQueue {
    type Call = QueueCall;

    type Reply = QueueReply;

    ghost use Rattle.flat_combining.specs.examples.Queues.{queue_after, reply_of};
    ghost use Rattle.flat_combining.specs.declared.examples.bounded_queue.QueueCall.TheVariants.{Pop};

    ghost initial = { record { capacity = 0; items = [] } };

    ghost after = { λ queue _ call. queue_after queue.capacity queue.items call };

    ghost reply = { λ queue _ call. reply_of queue.capacity queue.items call };

    ghost any_call = { Pop };

    fn step(&mut self, _session: u16, call: QueueCall) -> Result<QueueReply, NoMemory> {
        match call {
            QueueCall::Limit(most) => {
                if self.capacity == 0 {
                    self.capacity = most;
                }
                Ok(QueueReply::Limited)
            }
            QueueCall::Push(item) => {
                if self.items.len() >= self.capacity {
                    return Ok(QueueReply::Full);
                }
                self.items.push_back(item)?;
                Ok(QueueReply::Pushed)
            }
            QueueCall::Pop => {
                let Some(item) = self.items.pop_front() else {
                    return Ok(QueueReply::Empty);
                };
                Ok(QueueReply::Popped(item))
            }
        }
    }
}

impl Lawful for BoundedQueue {
    ghost use Rattle.std.specs.Prelude.{◌≤◌, length};
    ghost use Rattle.flat_combining.specs.examples.QueueLaws.{empty_is_short, stays_short};

    ghost holds = { λ queue. length queue.items ≤ queue.capacity };

    ghost initially = { empty_is_short };

    ghost kept = { λ queue _ call. stays_short queue.capacity queue.items call };
}
