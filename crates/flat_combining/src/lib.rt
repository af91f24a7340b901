//! Flat combining for an object of your own: threads share a state machine, and every call has the only reply that the machine gives at
//! its place in one history.
//!
//! Begin with `machine.rt`, the trait of a state machine, and `examples/bounded_queue.rt`, a machine whose meaning is in
//! `specs/examples/Queues.antt`. `of.rt` makes an object of any machine, and `specs/Runs.antt` says what its histories are; `lawful.rt`
//! has what holds of every state. `calling.rt` makes a call of an office of `combining`, `opening.rt` the first, and `threads.rt` the calls of many threads.
#![tactic(auto)]

mod calling;
pub mod examples;
mod lawful;
pub mod laws;
mod machine;
mod of;
mod opening;
mod threads;

pub use calling::{apply, finish};
pub use combining::{Office, Session};
pub use lawful::Lawful;
pub use machine::Machine;
pub use of::{Of, Shared, machine_of, shared};
pub use opening::begin;
pub use threads::{Caller, run};
