//! The holders of one resource, and lists with an item for each session. It knows nothing of queues.
//!
//! Begin with `holders.rt`: [`Holders`] keeps a single holder by itself, and several in two columns, session numbers beside mode codes,
//! so that one mask tests a request against all of them (`holder_columns.rt`, `session_rank.rt`). [`HolderPlace`] is where a session is
//! among them, [`SessionMode`] a session with a mode: that of a holder, or the target of a request. `positions.rt` has the index of a
//! session in a list with an item for each, `woken_list.rt` the set of the sessions whose wait has ended.
//!
//! Proved: which holders each call leaves, that a test of a request is one against each holder, whom holders block in the waits-for
//! graph, and which sessions are in the set. Only measured: the time. Memory is taken by [`Holders::reserve`] and [`WokenList::new`]
//! alone, beside lists of the caller's.
#![tactic(auto)]

mod holder_columns;
mod holders;
mod positions;
mod session_mode;
mod session_rank;
mod woken_list;

pub use holder_columns::HolderPlace;
pub use holders::Holders;
pub use positions::{position_of, session_at};
pub use session_mode::SessionMode;
pub use std::alloc::AllocError as NoMemory;
pub use woken_list::WokenList;
