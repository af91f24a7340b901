//! The hints behind the line of a fault.

use crate::outcomes::Outcome;
use command_line::CommandRequest;
use history_commands::ShowFault;
use lock_trace::{KeptRows, RowForm, TraceFault, expected_text, hint_text};
use replay_commands::{ToolFault, Verdict, WrongReply};
use std::alloc::{AllocError as NoMemory, Global};
use std::io::Write;

/// When hints are written.
#[derive(Clone, Copy, Debug, Drop, PartialEq, Eq)]
pub enum Hints {
    /// If the words have the flag `--hints`.
    AsAsked,
    /// Always, as for someone at a terminal.
    Always,
}

/// The form of the rows that the command of a request reads, and its number of sessions.
fn rows_of(request: CommandRequest) -> (RowForm, u16) {
    match request {
        CommandRequest::Replay(sessions, _)
        | CommandRequest::Shell(sessions)
        | CommandRequest::Run(sessions, _, _) => (RowForm::Trace, sessions),
        CommandRequest::Check(sessions, _)
        | CommandRequest::Show(sessions, _, _)
        | CommandRequest::Dump(sessions, _)
        | CommandRequest::Explain(sessions, _, _)
        | CommandRequest::Timeline(sessions, _, _)
        | CommandRequest::Stats(sessions, _) => (RowForm::History, sessions),
    }
}

/// The fault of a row, if that is the outcome.
fn row_fault(outcome: &Outcome) -> Option<TraceFault> {
    match outcome {
        Outcome::Replay(Err(ToolFault::Trace(fault)))
        | Outcome::ReplayInPieces(Err(ToolFault::Trace(fault))) => Some(*fault),
        Outcome::Run(Err(ToolFault::Trace(fault)))
        | Outcome::RunInPieces(Err(ToolFault::Trace(fault))) => Some(*fault),
        Outcome::Check(Err(ToolFault::Trace(fault)))
        | Outcome::Stats(Err(ToolFault::Trace(fault))) => Some(*fault),
        Outcome::Show(Err(ShowFault::Trace(fault)))
        | Outcome::Explain(Err(ShowFault::Trace(fault)))
        | Outcome::Timeline(Err(ShowFault::Trace(fault))) => Some(*fault),
        _ => None,
    }
}

/// Whether the outcome is that a history isn't legal.
fn is_illegal(outcome: &Outcome) -> bool {
    match outcome {
        Outcome::Check(Ok(Verdict::Illegal(_))) => true,
        Outcome::Show(Ok(Verdict::Illegal(_))) | Outcome::Explain(Ok(Verdict::Illegal(_))) => true,
        _ => false,
    }
}

/// Writes a text in one write. Nothing if memory was refused; a failure of `errors` is ignored.
fn put<E: Write>(text: Result<Vec<u8>, NoMemory>, errors: &mut E) {
    if let Ok(text) = text {
        let _written = errors.write_all(&text);
    }
}

/// Writes what helps with an outcome: for a row that was refused the row and what is expected, for a history with a wrong
/// reply that reply beside the lock table's; else nothing. Nothing too if memory is refused; a failure of `errors` is ignored.
pub(crate) fn write_hints<E: Write>(
    alloc: Global,
    outcome: &Outcome,
    request: CommandRequest,
    rows: &KeptRows,
    wrong: Option<WrongReply>,
    errors: &mut E,
) {
    if let Some(fault) = row_fault(outcome) {
        let (form, sessions) = rows_of(request);
        put(hint_text(alloc, rows, &fault, form, sessions), errors);
    }
    if !is_illegal(outcome) {
        return;
    }
    if let Some(wrong) = wrong {
        let text = expected_text(alloc, wrong.place, &wrong.said, &wrong.given);
        put(text, errors);
    }
}
