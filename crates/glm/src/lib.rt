//! The tool `glm`: replays, runs and checks traces of lock calls, shows states, explains and counts calls.
//!
//! `commands.rt` is the whole program except its streams, `verdicts.rt` what `check` writes, and `outcomes.rt` has statuses and messages.
//! The command line is `command_line`'s, `replay`, `check` and `stats` are of `replay_commands`, `show`, `explain` and `timeline` of
//! `history_commands`, `run` of `run_commands`, `shell` of `lock_shell`. Comments are skipped by `lock_trace`, files opened and written by
//! `replay_commands`. `hints.rt` writes the hints of `lock_trace`, and `wrong_replies.rt` finds the wrong reply.
//!
//! Proved: what each command wrote, with its result and exit status, for every input, also after a fault; and that the
//! standard streams are read and written, or kept, as the words that name files say. Only tested: what files have, that
//! memory or a device failed when a status says so, the lines on standard error, and when a history is written in pieces.
//! Not claimed: that a run on threads returns.
#![tactic(auto)]

mod commands;
mod hints;
mod outcomes;
mod verdicts;
mod wrong_replies;

pub use command_line::{Form, MAX_PLACE, MAX_STREAMED_SESSIONS, MAX_TURNS, VERSION, VERSION_TEXT};
pub use commands::{program, program_with_hints};
pub use hints::Hints;
pub use history_commands::{
    DumpFault, ShowFault, explain, explain_found, show, show_dump, show_found, timeline,
};
pub use outcomes::{DEVICE, DONE, ILLEGAL, NO_MEMORY, REFUSED, STOPPED, USAGE};
pub use replay_commands::{
    Finding, PIECE_ENTRIES, ToolFault, Verdict, WrongReply, check, check_by_row, check_whole,
    replay, replay_in_pieces, stats,
};
pub use run_commands::{Gate, OpenGate, run, run_in_pieces};
