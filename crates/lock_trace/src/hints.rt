//! Hints behind the line `glm: row R: KIND`: which line of the file the row is, the row with a mark below the field that is
//! wrong, and what is expected there.
//!
//! `kept.rt` is a reader that keeps the last rows of what it reads, `lexing.rt` finds rows and fields in them. `hint.rt` makes
//! the texts of `lines.rt`'s lines, in which `marked_row.rt` shows a row.
//!
//! Proved: a hint has only lines that begin with two blanks or `glm: `, of printable ASCII, whatever the input has; the reader
//! gives what the reader in it gives, also if memory is refused. Only tested: what the hints say. A hint changes nothing else.

mod hint;
mod kept;
mod lexing;
mod lines;
mod marked_row;

pub use hint::{RowForm, expected_text, hint_text};
pub use kept::{KEPT_BYTES, Kept, KeptRows};
