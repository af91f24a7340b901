//! Flat combining over any sequential object (Hendler, Incze, Shavit and Tzafrir 2010): an office shares the object among threads.
//! Each session publishes a call in a record of its own. The session that wins the object is the combiner and serves the published
//! calls of all sessions. An office knows the board of `publication` and the traits of `sequential`, and no locks.
//!
//! A pass seizes the object, in each round opens posted records, serves their calls as one batch and answers them, and gives the object
//! back.
//!
//! Begin with `office.rt`, the calls of sessions, and `calling.rt`, a whole call turn by turn. README.md has the other files.
//!
//! Proved: one legal history with each session's calls in its order, in which each reply is determined by the calls before it
//! ([`laws`]). Every call returns without waiting for another thread. Nothing is claimed of progress, fairness or speed.
#![tactic(auto)]

mod backoff;
mod bounds;
mod calling;
mod clean_up;
pub mod laws;
mod listener;
mod office;
mod own_call;
mod pass;
mod rounds;
mod woken_set;

pub use backoff::{back_off, tries_at};
pub use bounds::{MAX_WEIGHT, PassBound, UNBOUNDED};
pub use calling::{CallOutcome, attempt, call, look, publish_if_idle, resume};
pub use listener::{Listener, Nobody};
pub use office::{Answer, HistoryPiece, Office, OpenFault, TryOutcome, Turn};
pub use publication::{CloseFault, Load, Posted, Ticket as Session};
pub use woken_set::WokenSet;
