//! The board: a lock word for a sequential object, and one publication record a session, through which sessions hand calls to the
//! combiner and get the replies back. This is flat combining (Hendler, Incze, Shavit and Tzafrir 2010), for any object of `sequential`.
//! The board knows threads by their atomic steps. It knows no locks, and not how the object serves a call.
//!
//! A record is a state word, a link word and a slot. A session publishes a call in its slot. The session that wins the lock word is the
//! combiner: it has the object, walks the publication list, opens the records in which calls are posted, and answers them.
//!
//! Begin with `board.rt` and `board/combiner.rt`; of the proof, with `specs/PublicationList.antt` and `specs/PublishedRecords.antt`, then
//! `specs/Rule.antt`. README.md has the other files.
//!
//! Proved: the rule holds between any two atomic steps; the [`laws`] say what follows. Not claimed: that a published call is ever served.
//! No call waits, and [`Board::new`] alone takes memory.
#![tactic(auto)]

mod board;
mod closing;
pub mod laws;
pub mod list_laws;
mod list_steps;
mod new_board;
mod piece;
pub mod piece_laws;
mod roll;
mod slot;
mod step_kinds;
mod steps;
mod view;
mod words;

pub use board::{Board, Posted, Ticket, TicketKnowledge};
pub use closing::CloseFault;
pub use piece::Piece;
pub use roll::Roll;
pub use slot::Load;
