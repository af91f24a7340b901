//! The lock office: threads share a lock table by flat combining. It is the office of `combining` with programs of a book of `lock_desk` as
//! its object: what a session publishes is a program, one call of the lock table or several (a commit, an abort or neither, a begin or not,
//! the calls of a path), served one after another up to the first that isn't granted or done. Begin with `session.rt`.
//!
//! - `opening.rt` opens an office that lets go of its history, `dump.rt` copies the
//!   lock table. A session looks at the lock table, and asks there what a book is asked.
//! - `laws.rt` says what holds of locks, `told_laws.rt` what answers to calls tell.
//!
//! Proved, beside what `combining` proves of any object and `programs` of programs: in the history of calls each reply is the one that the
//! sequential lock manager gives at its place, no two transactions ever have incompatible access to a resource, no waits form a circle, and
//! no wake-up is lost ([`laws`]).
#![tactic(auto)]

pub mod dump;
pub mod laws;
mod opening;
mod session;
pub mod told_laws;

pub use combining::{
    CloseFault, Listener, Nobody, OpenFault, PassBound, Posted, Turn, UNBOUNDED, WokenSet, call,
    resume,
};
pub use dump::dump_book;
use lock_desk::{Book, Entry, Reply};
pub use lock_programs::{CALLS, Last, Program, ProgramAnswer, Start, Stop};
pub use opening::open_telling;
use programs::Programs;
pub use session::{Session, WithSeen, last_of};

/// A lock table that threads share by reference, each with sessions of its own, which make programs.
pub type Office = combining::Office<Programs<Book>>;

/// A session as an office is opened and closed with it.
pub type Ticket = publication::Ticket<Programs<Book>>;

/// The answer to a program, with its place among the programs.
pub type Answer = combining::Answer<ProgramAnswer>;

/// The answer to a single call, with its place in the history of calls.
pub type CallAnswer = combining::Answer<Reply>;

/// The outcome of one turn of a program, and of `call` and `resume`.
pub type CallOutcome = combining::CallOutcome<ProgramAnswer>;

/// A piece of the history that a session took: its lines are the calls of the programs with their replies.
pub type HistoryPiece = combining::HistoryPiece<Entry>;
