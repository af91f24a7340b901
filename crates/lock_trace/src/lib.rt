//! Traces and histories as text: reads traces, reads and writes histories, skips comments, and hints at what is wrong with a row. It
//! knows the words of the rules, and no lock table: whether a history is legal isn't tested here.
//!
//! To read, begin with `reading.rt` (a whole file, by the `csv` crate) or `history_reader.rt` (row by row). `trace_row.rt` and `entries.rt`
//! read a row (`record.rt`) field by field (`fields.rt`, `fast_path.rt`); the first test that fails is the fault (`faults.rt`), and nothing
//! of the file is returned. To write: `writing.rt`, a line at a time (`line.rt`) out of ready-made words (`tokens.rt`).
//! `comments.rt` is a reader behind which a line that begins with `#` is empty. `hints.rt` shows a bad row with what is expected.
//!
//! Proved: known bytes are read exactly as the rows of which they are the text, else the first bad row is reported with its fault; the
//! text of a history is exactly its rows, and is read back as that history; what is left of every text without comments, however it
//! falls into reads. Only tested: that a failed reader and refused memory are reported as such, and what hints say.
#![tactic(auto)]

mod comments;
mod entries;
mod fast_path;
mod faults;
mod fields;
mod hints;
mod history_reader;
pub mod laws;
mod line;
mod reading;
mod record;
mod spot;
mod tokens;
mod trace_row;
mod writing;

pub use comments::SkipComments;
pub use faults::{TraceFault, TraceKind};
pub use hints::{KEPT_BYTES, Kept, KeptRows, RowForm, expected_text, hint_text};
pub use history_reader::HistoryReader;
pub use reading::{read_history, read_trace};
pub use std::alloc::AllocError as NoMemory;
pub use trace_row::TraceRow;
pub use writing::{history_text, piece_text};
