//! The commands of `glm` that serve a whole file on one lock table: `replay` a trace, `check` and `stats` a history; and how commands
//! read and write files. It knows the lock table and the text formats, and no explanation, report or thread.
//!
//! Begin with `replaying.rt`: a replay reads the whole trace before it serves a row, so a bad row is reported with nothing written, and
//! writes the history at the end; `replaying_in_pieces.rt` writes it on the way, by `pieces.rt`. `checking.rt` compares each reply of a
//! history with a fresh lock table's, `checking_by_row.rt` as rows are read; `finding.rt` has what they find. `counting.rt` checks, and
//! writes the counters (`counters_text.rt`). `tool_fault.rt` has the faults, `writing.rt` says what was written if the output fails, `source.rt`
//! opens the file that is read in place of the standard stream, `new_file.rt` writes a file whole or not at all, under another name first.
//!
//! Proved: the verdict, the counters, and what is written, with the result, for every input, also after a fault; and that without a file
//! to open the standard stream is read. No contract can say what a file has, so the rest of files is only tested.
#![tactic(auto)]

mod checking;
mod checking_by_row;
mod counters_text;
mod counting;
mod finding;
pub mod laws;
mod new_file;
mod pieces;
mod replaying;
mod replaying_in_pieces;
mod source;
mod tool_fault;
mod writing;

pub use checking::{
    Verdict, check, check_whole, finding_behind, finding_by, first_wrong, fresh_book, is_same,
    verdict_line,
};
pub use checking_by_row::check_by_row;
pub use counters_text::stats_text;
pub use counting::stats;
pub use finding::{Finding, WrongReply};
pub use new_file::NewFile;
pub use pieces::{PIECE_ENTRIES, write_piece};
pub use replaying::replay;
pub use replaying_in_pieces::replay_in_pieces;
pub use source::open_source;
pub use tool_fault::ToolFault;
pub use writing::write_text;
