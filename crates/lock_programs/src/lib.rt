//! Programs of the lock table in a compact form: several calls of a session that are made as one. They know calls and replies of
//! `lock_rules` and what `programs` asks of a program, and no lock table.
//!
//! A [`Program`] is a call of any kind; or it ends and begins a transaction, does either or neither, or restarts one, and then locks or
//! tries each ancestor of a resource from a level on, in one mode, and makes a call on the resource. Its calls are performed one after
//! another until the first reply that isn't granted or done. A [`ProgramAnswer`] has what was granted and done, and why the program stopped:
//! all replies follow from the program and its answer.
//!
//! Begin with `program.rt`, then `answer.rt`. README.md has the other files.
//!
//! Proved: which call has each place of a program, which reply each place of an answer, and that an answer tells exactly the replies that
//! it was given. No call takes memory.
#![tactic(auto)]

mod answer;
pub mod laws;
mod notes;
mod noting;
mod path;
mod program;
mod stop;

pub use answer::ProgramAnswer;
pub use noting::goes_on_behind;
pub use program::{CALLS, Last, Program, Start};
pub use stop::Stop;
