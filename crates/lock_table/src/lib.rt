//! The lock table: who holds which resource, who waits for it, and for whom each session waits. It serves each kind of call as one step of
//! `lock_rules`. It knows modes, holders and the waits-for graph, and nothing of histories, batches, threads or text. Begin with `table.rt`.
//!
//! - `table.rt`, `table/`: all cells, all lockers and the waits-for graph. `calls.rt` serves each kind of call; `deadlocks.rt` dooms victims,
//!   and tells each deadlock to the `DeadlockNotes` that come with the call.
//! - A cell has the holders and the queue of a resource (`cells.rt`), a locker the transaction, request and locks of a session
//!   (`lockers.rt`), `wait_graph.rt` keeps the graph; `promotion.rt` and `cell_table.rt` change all three.
//!
//! Proved: each reply is that of the step in the state that the table shows, and the table shows the state after it; a call whose memory
//! is refused changes nothing that contracts see. Only tested: that memory follows the resources in use, and that the fast ways are taken.
#![tactic(auto)]

mod cell_table;
mod cells;
mod deadlock_notes;
mod graph_copy;
mod lockers;
mod promotion;
mod table;
mod wait_graph;

pub use deadlock_notes::DeadlockNotes;
pub use graph_copy::GraphCopy;
pub use table::LockTable;
