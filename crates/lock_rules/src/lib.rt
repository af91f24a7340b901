//! The locking rules: the calls of a session, the replies, the sequential lock manager as definitions, and its laws. The first crate to
//! read. Its only code is that of kinds, numbers and names; `lock_desk` has the lock table that is proved to reply as the rules do.
//!
//! Begin in `specs/`: `State.antt`, `Queue.antt` and `Waits.antt` have the state, the wait queues and the waits, `Step.antt` what each
//! call does, `Legal.antt` the legal histories, `Counts.antt` the counters of a history. A step makes the tests of a call in order. The
//! first that fails is the reason of the refusal, and the state stays; if none fails, the call acts on the state and is answered.
//!
//! In `src/`: `calls.rt` has calls, replies, refusals and limits, `kinds.rt` their kinds with numbers and words, `names.rt` the names of
//! refusals, `listing.rt` the lines of a listing. Laws are in `laws.rt`, `restart_laws.rt`, `update_laws.rt` and `count_laws.rt`.
//!
//! Proved: the laws, for every history; among them that there is no incompatible access and no cycle of waits, and that a session that
//! holds a resource holds its parent, if there is one. No call takes memory.
#![tactic(auto)]

mod calls;
pub mod count_laws;
mod kinds;
pub mod laws;
mod listing;
mod names;
pub mod restart_laws;
pub mod update_laws;

pub use calls::{Call, Entry, MAX_LOCKS, MAX_SESSIONS, Reply, Transaction, Why};
pub use kinds::{OPS, Op, REFUSALS, REPLY_KINDS, ReplyKind};
pub use listing::{Claim, ClaimKind};
