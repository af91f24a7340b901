//! Reads the rows of a state back, as `rows.rt` writes them: the open transactions, the locks and waiting requests, and who waits for whom.
//!
//! `row.rt` reads one line, from its fields (`fields.rt`); `state.rt` reads a whole text. A text that isn't the rows of a state is refused
//! with the first line with which it isn't the beginning of the rows of any.

mod fields;
mod row;
mod state;

pub use row::StateRow;
pub use state::{StateFault, StateLists, read_state};
