//! The state of a lock table as text: for people, as CSV rows, as graphs for Graphviz; who blocks whom in it; and its rows read back. It
//! knows lists of a state, not the lock table that they come from. The formats are this project's own choice.
//!
//! A report is written from such lists (`snapshot.rt`; the claims are those of a listing), a line or row for each item, in the order
//! given. Begin with `text.rt` (for people, with `jam.rt` and `answer.rt`), `rows.rt`, `dot.rt` (the waits-for graph) or `boxes.rt` (the
//! contended resources, found by `queues.rt`, placed by `rows_of_boxes.rt`). `blocking.rt` finds who blocks whom in the lists, `reading.rt`
//! reads the rows. What all share is in `claims.rt`, `nodes.rt`, `words.rt`, `by_session.rt`; `proofs/Pieces.antt` has the lemmas by which
//! a text that is written piece by piece is that of a list.
//!
//! Proved: each text is exactly that of the lists given, what is found is what the definitions in `specs/` say, and a text is read as a
//! state exactly if it is its rows. That some history leads to the state isn't tested; what texts look like is only tested. The only
//! error of a writer is that memory was refused.
#![tactic(auto)]

mod answer;
mod blocking;
mod boxes;
mod by_session;
mod claims;
mod dot;
mod jam;
mod nodes;
mod queues;
mod reading;
mod rows;
mod rows_of_boxes;
mod snapshot;
mod text;
mod words;

pub use answer::{answer_rows, answer_text};
pub use blocking::{
    Lists, Moment, first_waits, lists_text, requests_among, told_waits, waits_among,
};
pub use boxes::locks_dot;
pub use claims::{is_last, is_lock_kind, is_request_kind, kind_word};
pub use dot::waits_dot;
pub use nodes::{put_edge_with, put_start_of_node};
pub use queues::{begins_queue, claims_on};
pub use reading::{StateFault, StateLists, StateRow, read_state};
pub use rows::state_rows;
pub use snapshot::{Doom, FirstWait, OpenTransaction, Root, WaitFor, WaitLine};
pub use std::alloc::AllocError as NoMemory;
pub use text::state_text;
pub use words::{one_if, put_words};
