//! Programs: several calls of a session on a sequential object that are one call.
//!
//! The calls of a program are served one after another, until the first reply behind which the object doesn't go on. So
//! [`Programs`] is a sequential object itself, whose calls are programs, and all that shares a sequential object among threads
//! shares it. Its history, with the programs laid end to end, is the history of the object that serves the calls.
//!
//! `continuing.rt` has the trait of an object that tells of several calls at once, `form.rt` that of one whose calls may be made
//! in programs. `run_calls.rt` runs a program. `programs.rt` has the object whose calls are programs; its folder has what lets go of a
//! history, tells whose waits have ended, and makes an object for a number of sessions, where the object of the calls does.
//! `counted.rt` has the list of its history. `laws.rt` says what follows of histories.
//!
//! Not said by any clause: that memory is refused to a call only if there is none.
#![tactic(auto)]

mod continuing;
mod counted;
mod form;
pub mod laws;
mod programs;
mod run_calls;

pub use continuing::{Continuing, serve_each_on};
pub use form::Programmed;
pub use programs::Programs;
pub use run_calls::run;
