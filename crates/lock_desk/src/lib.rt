//! The book: a lock table for one thread, with the history of its calls. Each served call is recorded with its reply; counters, the
//! newest deadlocks and whose wait has ended are kept beside it. Nothing here knows of threads or text, nor of cells and queues: those are
//! `lock_table`'s. Callers see the book alone: begin with `book.rt`.
//!
//! - `serving.rt` serves one call in the table and counts it, `recording.rt` adds it to the history; `object.rt` and `tending.rt` make the
//!   book an object that threads can share.
//! - `deadlock_log.rt` is told the deadlocks by the table; `notes.rt` has it with the counters, as each call passes them.
//!
//! Proved: each reply is that of `lock_rules` in the state that the history leads to; a call whose memory is refused changes nothing that
//! callers see. Only tested: that memory follows the resources in use, and that the fast ways are taken. Limits: [`MAX_SESSIONS`]
//! sessions, [`MAX_LOCKS`] locks of a session.
#![tactic(auto)]

mod book;
mod call_counts;
mod counts;
mod deadlock_log;
mod gauges;
mod notes;
mod object;
mod recording;
mod serving;
mod tending;
mod wait_counts;

pub use book::{Book, Item, grants, lock_of_level, pages_tell_each_lock_once};
pub use counts::{Calls, Counts, Refusals};
pub use deadlock_log::{Deadlock, Member};
pub use gauges::Gauges;
pub use lock_modes::Mode;
pub use lock_rules::{
    Call, Claim, ClaimKind, Entry, MAX_LOCKS, MAX_SESSIONS, Reply, Transaction, Why,
};
pub use lock_tree::Resource;
pub use sequential::{MOST_DROPPED, NO_BOUND};
pub use tending::{Reserve, Shrink};

/// The only error of this crate: memory was refused.
pub use std::alloc::AllocError as NoMemory;
