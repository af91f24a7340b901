//! The outcome of one execution of the program, with its exit status and its line on standard error.

ghost use Rattle.std.specs.Prelude.{◌≡◌};
ghost use Rattle.glm.specs.Outcomes.{status_of_outcome};
ghost use Rattle.glm.specs.Streams.{IsFileFault};
ghost use Rattle.glm.specs.Statuses.{IsStatus, status_for, status_for_dump, status_for_show, status_of_kind};

use history_commands::{DumpFault, ShowFault};
use lock_trace::{TraceFault, TraceKind};
use replay_commands::{ToolFault, Verdict};
use std::fmt::Display;
use std::io;
use std::io::{ErrorKind, Write};

/// Exit status: the command was done, or help or the version was shown.
pub const DONE: u8 = 0;

/// Exit status: a row of the input was refused.
pub const REFUSED: u8 = 1;

/// Exit status: usage error.
pub const USAGE: u8 = 2;

/// Exit status: the checked history isn't legal.
pub const ILLEGAL: u8 = 3;

/// Exit status: memory was refused.
pub const NO_MEMORY: u8 = 4;

/// Exit status: a reader or a writer failed, or a thread couldn't be started.
pub const DEVICE: u8 = 5;

/// Exit status: a gate stayed shut, or a call ran out of tries.
pub const STOPPED: u8 = 6;

/// The outcome of one execution of the program.
#[derive(Clone, Copy, Debug, Drop, PartialEq, Eq)]
pub(crate) enum Outcome {
    /// The result of the replay that was asked for.
    Replay(Result<u64, ToolFault>),
    /// The result of the replay in pieces that was asked for.
    ReplayInPieces(Result<u64, ToolFault>),
    /// The result of the run on threads that was asked for.
    Run(Result<u64, ToolFault>),
    /// The result of the run on threads in pieces that was asked for.
    RunInPieces(Result<u64, ToolFault>),
    /// The result of the check that was asked for. A verdict was also written to the output.
    Check(Result<Verdict, ToolFault>),
    /// The verdict on the history of which a state was asked for. The state was written, or the verdict if it isn't legal.
    Show(Result<Verdict, ShowFault>),
    /// The result of showing the dump that was asked for. The state was also written to the output.
    Dump(Result<(), DumpFault>),
    /// The verdict on the history of which an explanation was asked for, written in the same way.
    Explain(Result<Verdict, ShowFault>),
    /// The verdict on the history of which a picture was asked for, written in the same way.
    Timeline(Result<Verdict, ShowFault>),
    /// The verdict on the history whose counters were asked for, written in the same way.
    Stats(Result<Verdict, ToolFault>),
    /// The result of the shell that was asked for. Its answers were also written to the output.
    Shell(Result<u64, ToolFault>),
    /// Help was asked for, and written.
    HelpShown,
    /// Help was asked for, and the writer failed.
    HelpFailed,
    /// The version was asked for, and was written.
    VersionShown,
    /// The version was asked for, and the writer failed.
    VersionFailed,
    /// The command line is wrong; the usage error was already written.
    Misused,
    /// Memory was refused to the parser of the command line, or for the name of a file.
    OutOfMemory,
    /// A file that the words name couldn't be opened or written; the lines on standard error were already written.
    FileFailed,
}

/// The exit status of a row's fault.
fn status_of_row(fault: &TraceFault) -> u8
    ensures kind { result ≡ status_of_kind fault.now.kind }
    ensures status { IsStatus result }
{
    match fault.kind {
        TraceKind::Device => DEVICE,
        TraceKind::NoMemory => NO_MEMORY,
        _ => REFUSED,
    }
}

/// The exit status of a fault.
fn status_of_fault(fault: &ToolFault) -> u8
    ensures fault { result ≡ status_for fault.now }
    ensures status { IsStatus result }
{
    match fault {
        ToolFault::Trace(fault) => status_of_row(fault),
        ToolFault::NoMemory => NO_MEMORY,
        ToolFault::Device => DEVICE,
        ToolFault::GateShut | ToolFault::TurnLimit => STOPPED,
    }
}

/// The exit status of a fault of `show`, `explain` or `timeline`.
fn status_of_show_fault(fault: &ShowFault) -> u8
    ensures fault { result ≡ status_for_show fault.now }
    ensures status { IsStatus result }
{
    match fault {
        ShowFault::Trace(fault) => status_of_row(fault),
        ShowFault::NoPlace { .. } => USAGE,
        ShowFault::NoMemory => NO_MEMORY,
        ShowFault::Device => DEVICE,
    }
}

/// The exit status of a fault of `show --state`.
fn status_of_dump_fault(fault: &DumpFault) -> u8
    ensures fault { result ≡ status_for_dump fault.now }
    ensures status { IsStatus result }
{
    match fault {
        DumpFault::Row(_) => REFUSED,
        DumpFault::NoMemory => NO_MEMORY,
        DumpFault::Unread | DumpFault::Device => DEVICE,
    }
}

/// Writes the line of a fault with this exit status. A failure of `errors` is ignored; the exit status still reports the fault.
fn report_line<E: Write, F: Display>(status: u8, fault: &F, errors: &mut E) {
    let _reported = match status {
        NO_MEMORY => writeln!(errors, "glm: out of memory"),
        DEVICE => writeln!(errors, "glm: device"),
        _ => writeln!(errors, "glm: {fault}"),
    };
}

/// Writes the line of a fault.
fn report_fault<E: Write>(fault: &ToolFault, errors: &mut E) {
    report_line(status_of_fault(fault), fault, errors);
}

/// Writes the line of a fault of `show`, `explain` or `timeline`. A place that the history has is `--to`, which is before `--from`.
fn report_show_fault<E: Write>(fault: &ShowFault, errors: &mut E) {
    match fault {
        ShowFault::NoPlace { place, entries } if place < entries => {
            let _reported = writeln!(errors, "glm: --to {place} is before --from");
        }
        _ => report_line(status_of_show_fault(fault), fault, errors),
    }
}

/// Writes the lines of a file that couldn't be opened, read or written. Returns the outcome.
pub(crate) fn file_failed<E: Write>(
    act: &str,
    path: &str,
    error: &io::Error,
    errors: &mut E,
) -> Outcome
    ensures { IsFileFault result }
{
    if error.kind() == ErrorKind::OutOfMemory {
        return Outcome::OutOfMemory;
    }
    report_fault(&ToolFault::Device, errors);
    let _reported = writeln!(errors, "glm: can't {act} {path}: {error}");
    Outcome::FileFailed
}

impl Outcome {
    /// Whether the command was done, so that what it wrote is whole.
    pub(crate) fn is_done(&self) -> bool {
        matches!(self.status(), DONE | ILLEGAL)
    }

    /// The exit status of the outcome.
    pub(crate) fn status(&self) -> u8
        ensures outcome { result ≡ status_of_outcome self.now }
        ensures status { IsStatus result }
    {
        match self {
            Outcome::Replay(Ok(_)) | Outcome::ReplayInPieces(Ok(_)) => DONE,
            Outcome::Run(Ok(_)) | Outcome::RunInPieces(Ok(_)) | Outcome::Shell(Ok(_)) => DONE,
            Outcome::HelpShown | Outcome::VersionShown => DONE,
            Outcome::Check(Ok(Verdict::Legal(_))) => DONE,
            Outcome::Show(Ok(Verdict::Legal(_))) | Outcome::Explain(Ok(Verdict::Legal(_))) => DONE,
            Outcome::Dump(Ok(_)) => DONE,
            Outcome::Check(Ok(Verdict::Illegal(_))) => ILLEGAL,
            Outcome::Show(Ok(Verdict::Illegal(_))) => ILLEGAL,
            Outcome::Explain(Ok(Verdict::Illegal(_))) => ILLEGAL,
            Outcome::Timeline(Ok(Verdict::Legal(_))) => DONE,
            Outcome::Timeline(Ok(Verdict::Illegal(_))) => ILLEGAL,
            Outcome::Stats(Ok(Verdict::Legal(_))) => DONE,
            Outcome::Stats(Ok(Verdict::Illegal(_))) => ILLEGAL,
            Outcome::Replay(Err(fault)) | Outcome::ReplayInPieces(Err(fault)) => {
                status_of_fault(fault)
            }
            Outcome::Run(Err(fault)) | Outcome::RunInPieces(Err(fault)) => status_of_fault(fault),
            Outcome::Check(Err(fault)) | Outcome::Shell(Err(fault)) => status_of_fault(fault),
            Outcome::Show(Err(fault)) | Outcome::Explain(Err(fault)) => status_of_show_fault(fault),
            Outcome::Dump(Err(fault)) => status_of_dump_fault(fault),
            Outcome::Timeline(Err(fault)) => status_of_show_fault(fault),
            Outcome::Stats(Err(fault)) => status_of_fault(fault),
            Outcome::HelpFailed | Outcome::VersionFailed | Outcome::FileFailed => DEVICE,
            Outcome::Misused => USAGE,
            Outcome::OutOfMemory => NO_MEMORY,
        }
    }

    /// Writes one line if the command failed. A usage error was written when the words were parsed.
    pub(crate) fn report<E: Write>(&self, errors: &mut E) {
        match self {
            Outcome::Replay(Err(fault)) | Outcome::ReplayInPieces(Err(fault)) => {
                report_fault(fault, errors)
            }
            Outcome::Run(Err(fault)) | Outcome::RunInPieces(Err(fault)) => {
                report_fault(fault, errors)
            }
            Outcome::Check(Err(fault)) | Outcome::Shell(Err(fault)) => report_fault(fault, errors),
            Outcome::Show(Err(fault)) | Outcome::Explain(Err(fault)) => {
                report_show_fault(fault, errors)
            }
            Outcome::Dump(Err(fault)) => {
                report_line(status_of_dump_fault(fault), fault, errors);
            }
            Outcome::Timeline(Err(fault)) => report_show_fault(fault, errors),
            Outcome::Stats(Err(fault)) => report_fault(fault, errors),
            Outcome::HelpFailed | Outcome::VersionFailed => {
                report_fault(&ToolFault::Device, errors);
            }
            Outcome::OutOfMemory => report_fault(&ToolFault::NoMemory, errors),
            _ => {}
        }
    }
}
