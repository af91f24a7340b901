//! The whole program except its streams: parses the command line and runs the command.

ghost use Rattle.std.specs.Prelude.{◌≡◌, ◌≢◌, ◌⊎◌, ◌<◌, ◌≤◌, ℕ, List, None, Some};
ghost use Rattle.std.specs.Io.KnownBytes.{Keeps};
ghost use Rattle.clap.specs.Values.{kind_of};
ghost use Rattle.clap.specs.Simple.{subcommand_of};
ghost use Rattle.clap.specs.Walk.{Text, texts};
ghost use Rattle.lock_rules.specs.declared.calls.TheConstants.{MAX_SESSIONS};
ghost use Rattle.glm.specs.declared.outcomes.Outcome.{Outcome};
ghost use Rattle.glm.specs.declared.outcomes.TheConstants.{DONE, ILLEGAL, NO_MEMORY, DEVICE, STOPPED};
ghost use Rattle.glm.specs.Programs.{HasRun};
ghost use Rattle.command_line.specs.declared.args.CommandRequest.TheVariants as request;
ghost use Rattle.command_line.specs.CommandLine.{Ask, AskReplayInPieces, AskRunInPieces, AskShell, HasNumbers, glm_command, most_sessions};
ghost use Rattle.command_line.specs.Streams.{HasStreamsOf, SkipComments as AskNoComments, input_file, output_file};
ghost use Rattle.glm.specs.Outcomes.{HasDone, status_of_outcome};
ghost use Rattle.glm.specs.Streams.{HasDoneInFile, HasOutcome, IsFileFault};
ghost use Rattle.glm.specs.ParserErrors.{IsOutcomeOfError};
ghost use Rattle.glm.specs.Statuses.{IsStatus};

use crate::hints::{Hints, write_hints};
use crate::outcomes::{DEVICE, Outcome, file_failed};
use crate::verdicts::write_verdict;
use crate::wrong_replies::{ReportRequest, explained, shown};
use clap::Error;
use clap::error::ErrorKind;
use command_line::{CommandRequest, Delivery, Request, VERSION_TEXT, request_of, usage_text};
use history_commands::{show_dump, timeline};
use lock_shell::shell;
use lock_trace::{Kept, KeptRows, SkipComments};
use replay_commands::{
    NewFile, WrongReply, open_source, replay, replay_in_pieces, stats, write_text,
};
use run_commands::{Gate, run, run_in_pieces};
use std::alloc::Global;
use std::fs::Files;
use std::io::{Error as IoError, ErrorKind as IoErrorKind, Read, Write};
use std::sync::Wait;
use std::thread::Threads;

/// What the program runs on.
#[derive(Clone, Copy)]
struct Host<'a, T, G> {
    /// The runtime's threads and files.
    rt: &'a T,
    /// The allocator.
    alloc: Global,
    /// The gate of a run on threads.
    gate: &'a G,
}

/// Handles an error of the parser: writes help or the version to `output`, or a usage error to `errors`. Returns the outcome.
fn outcome_of_error<W: Write, E: Write>(error: &Error, output: &mut W, errors: &mut E) -> Outcome
    ensures { IsOutcomeOfError (kind_of error.now) (W.contents output.old) (W.contents output.new) result }
{
    match error.kind() {
        ErrorKind::DisplayHelp => match write!(output, "{error}") {
            Ok(()) => Outcome::HelpShown,
            Err(_) => Outcome::HelpFailed,
        },
        ErrorKind::DisplayVersion => match write_text(output, VERSION_TEXT.as_bytes()) {
            Ok(()) => Outcome::VersionShown,
            Err(_) => Outcome::VersionFailed,
        },
        ErrorKind::OutOfMemory => Outcome::OutOfMemory,
        _ => {
            let _reported = write!(errors, "{error}");
            Outcome::Misused
        }
    }
}

/// Replays a trace, and writes its history whole or in pieces.
fn replayed<R: Read + Drop, W: Write>(
    alloc: Global,
    input: R,
    output: &mut W,
    sessions: u16,
    delivery: Delivery,
) -> Outcome
    requires some { 0 < sessions }
    requires few { sessions ≤ MAX_SESSIONS }
    ensures { (words : List Text) → Ask words (request.Replay sessions delivery) → HasDone words (R.remaining input) (W.contents output.old) (W.contents output.new) result }
{
    match delivery {
        Delivery::Whole => Outcome::Replay(replay(alloc, input, output, sessions)),
        Delivery::InPieces => {
            Outcome::ReplayInPieces(replay_in_pieces(alloc, input, output, sessions))
        }
    }
}

/// Runs a trace on threads, with at most `turns` tries for each answer, and writes its history whole or in pieces.
fn run_on_threads<T: Threads + Wait, R: Read + Drop, W: Write, G: Gate>(
    host: &Host<'_, T, G>,
    input: R,
    output: &mut W,
    sessions: u16,
    turns: u32,
    delivery: Delivery,
) -> Outcome
    requires some { 0 < sessions }
    requires few { sessions ≤ most_sessions delivery }
    ensures { (words : List Text) → Ask words (request.Run sessions turns delivery) → HasDone words (R.remaining input) (W.contents output.old) (W.contents output.new) result }
{
    let turns = u64::from(turns);
    match delivery {
        Delivery::Whole => Outcome::Run(run(
            host.rt, host.alloc, input, output, sessions, turns, host.gate,
        )),
        Delivery::InPieces => Outcome::RunInPieces(run_in_pieces(
            host.rt, host.alloc, input, output, sessions, turns, host.gate,
        )),
    }
}

/// Runs a command: reads `input`, and writes to `output`. `check`, `show` and `explain` put the first wrong reply into `wrong`.
fn perform<T: Threads + Wait + Files, R: Read + Drop, W: Write, G: Gate>(
    host: &Host<'_, T, G>,
    command: CommandRequest,
    input: R,
    output: &mut W,
    wrong: &mut Option<WrongReply>,
) -> Outcome
    requires numbers { HasNumbers command }
    ensures { (words : List Text) → Ask words command → HasDone words (R.remaining input) (W.contents output.old) (W.contents output.new) result }
{
    let alloc = host.alloc;
    match command {
        CommandRequest::Replay(sessions, delivery) => {
            replayed(alloc, input, output, sessions, delivery)
        }
        CommandRequest::Run(sessions, turns, delivery) => {
            run_on_threads(host, input, output, sessions, turns, delivery)
        }
        CommandRequest::Check(sessions, delivery) => {
            Outcome::Check(write_verdict(alloc, input, output, sessions, delivery, wrong))
        }
        CommandRequest::Show(sessions, place, form) => {
            let asked = ReportRequest { place, form };
            Outcome::Show(shown(alloc, input, output, sessions, asked, wrong))
        }
        CommandRequest::Dump(sessions, form) => {
            Outcome::Dump(show_dump(alloc, input, output, sessions, form))
        }
        CommandRequest::Explain(sessions, place, form) => {
            let asked = ReportRequest { place, form };
            Outcome::Explain(explained(alloc, input, output, sessions, asked, wrong))
        }
        CommandRequest::Timeline(sessions, from, to) => {
            Outcome::Timeline(timeline(alloc, input, output, sessions, from, to))
        }
        CommandRequest::Stats(sessions, form) => {
            Outcome::Stats(stats(alloc, input, output, sessions, form))
        }
        CommandRequest::Shell(sessions) => {
            Outcome::Shell(shell(host.rt, alloc, input, output, sessions))
        }
    }
}

/// The outcome of a command that wasn't done. If the device refused what was written to the file at `path`, the file is named.
fn unwritten<E: Write>(
    outcome: Outcome,
    refused: Option<IoErrorKind>,
    path: &str,
    errors: &mut E,
) -> Outcome
    ensures { (result ≡ outcome) ⊎ IsFileFault result }
{
    match refused {
        Some(kind) if outcome.status() == DEVICE => {
            file_failed("write", path, &IoError::from(kind), errors)
        }
        _ => outcome,
    }
}

/// Runs a command that writes to the file at `path`, which gets the text only if the command was done.
fn perform_to_file<T: Threads + Wait + Files, R: Read + Drop, E: Write, G: Gate>(
    host: &Host<'_, T, G>,
    command: CommandRequest,
    input: R,
    path: &str,
    errors: &mut E,
    wrong: &mut Option<WrongReply>,
) -> Outcome
    requires numbers { HasNumbers command }
    ensures { (words : List Text) → Ask words command → HasDoneInFile words (R.remaining input) result }
{
    let mut file = match NewFile::create(host.rt, host.alloc, path) {
        Ok(file) => file,
        Err(error) => return file_failed("write", path, &error, errors),
    };
    let outcome = perform(host, command, input, &mut file, wrong);
    if !outcome.is_done() {
        let refused = file.refused();
        file.remove(host.rt);
        return unwritten(outcome, refused, path, errors);
    }
    match file.replace(host.rt) {
        Ok(()) => outcome,
        Err(error) => file_failed("write", path, &error, errors),
    }
}

/// Reports the outcome of a request on `errors`, with hints if they are wanted.
fn report_request<E: Write>(
    alloc: Global,
    outcome: &Outcome,
    request: Request<'_>,
    hints: Hints,
    rows: &KeptRows,
    wrong: Option<WrongReply>,
    errors: &mut E,
) {
    outcome.report(errors);
    if wants_hints(request, hints) {
        write_hints(alloc, outcome, request.command, rows, wrong, errors);
    }
}

/// Whether a request gets hints.
fn wants_hints(request: Request<'_>, hints: Hints) -> bool {
    request.wants_hints || hints == Hints::Always
}

/// Runs the command of a request on the files that it names, and reports its outcome. `input` and `output` are the standard streams.
fn run_request<'a, T: Threads + Wait + Files, R: Read + Drop, W: Write, E: Write, G: Gate>(
    host: &Host<'_, T, G>,
    request: Request<'a>,
    input: R,
    output: &mut W,
    errors: &mut E,
    hints: Hints,
) -> Outcome
    requires numbers { HasNumbers request.command }
    ensures { (words : List Text) → Ask words request.entry.command → HasStreamsOf (subcommand_of glm_command words) request.entry
        → HasOutcome words (R.remaining input) (W.contents output.old) (W.contents output.new) result }
{
    let text = match open_source(host.rt, request.input, input) {
        Ok(source) => SkipComments::new(source, request.skips_comments),
        Err(error) => {
            return file_failed("read", request.input.unwrap_or("-"), &error, errors);
        }
    };
    let alloc = host.alloc;
    let command = request.command;
    let mut kept = Kept::new(alloc, text, wants_hints(request, hints));
    let mut wrong = None;
    match request.output {
        None => {
            let outcome = perform(host, command, &mut kept, output, &mut wrong);
            report_request(alloc, &outcome, request, hints, kept.rows(), wrong, errors);
            outcome
        }
        Some(path) => {
            let outcome = perform_to_file(host, command, &mut kept, path, errors, &mut wrong);
            report_request(alloc, &outcome, request, hints, kept.rows(), wrong, errors);
            outcome
        }
    }
}

/// Parses the words and runs the command that they ask for. Usage errors and the outcome are reported on `errors`.
fn outcome_of<'a, T: Threads + Wait + Files, R: Read + Drop, W: Write, E: Write, G: Gate>(
    words: &'a [&'a str],
    host: &Host<'_, T, G>,
    input: R,
    output: &mut W,
    errors: &mut E,
    hints: Hints,
) -> Outcome
    ensures { HasOutcome (texts words.entry.now) (R.remaining input) (W.contents output.old) (W.contents output.new) result }
{
    match request_of(host.alloc, words) {
        Ok(Some(request)) => run_request(host, request, input, output, errors, hints),
        Ok(None) => {
            let _reported = errors.write_all(usage_text(words).as_bytes());
            Outcome::Misused
        }
        Err(error) => {
            let outcome = outcome_of_error(&error, output, errors);
            outcome.report(errors);
            outcome
        }
    }
}

/// Runs the program as [`program`] does, and writes hints when `hints` says so.
pub fn program_with_hints<
    'a,
    T: Threads + Wait + Files,
    R: Read + Drop,
    W: Write,
    E: Write,
    G: Gate,
>(
    rt: &T,
    alloc: Global,
    words: &'a [&'a str],
    input: R,
    output: &mut W,
    errors: &mut E,
    gate: &G,
    hints: Hints,
) -> u8
    ensures { HasRun (texts words.entry.now) (R.remaining input) (W.contents output.old) (W.contents output.new) result }
{
    let host = Host { rt, alloc, gate };
    outcome_of(words, &host, input, output, errors, hints).status()
}

/// Runs the whole program except its streams. `words` are the command line with the program's own name first, and `gate`
/// is the gate that the threads of a `run` enter. Returns the exit status, from `DONE` to `STOPPED`; `USAGE` is also that of a place that
/// the history doesn't have.
///
/// A fault is reported in one line on `errors`, and a usage error in several; behind that of a file that can't be opened or written
/// one names it, and with `--hints` what would help behind that of a row or a wrong reply. A failure of `errors` changes no status.
///
/// Words that name a file to read or to write have it read or written in place of `input` or `output`. A file is written only with status
/// 0 or 3, whole; what follows is of `output` then. `output` is written only with status 0, 3 (the verdict), 5 if the writer failed on the
/// way, 4 if memory was refused to a shell or to a history in pieces, or 6 if a run in pieces was stopped.
pub fn program<'a, T: Threads + Wait + Files, R: Read + Drop, W: Write, E: Write, G: Gate>(
    rt: &T,
    alloc: Global,
    words: &'a [&'a str],
    input: R,
    output: &mut W,
    errors: &mut E,
    gate: &G,
) -> u8
    // the status of an outcome that says what the words ask for and what was done
    ensures outcome { (outcome : Outcome) × (result ≡ status_of_outcome outcome)
        × HasOutcome (texts words.entry.now) (R.remaining input) (W.contents output.old) (W.contents output.new) outcome }
    // the same for words that name no file, and don't skip comments
    ensures standard { input_file (texts words.entry.now) ≡ None → output_file (texts words.entry.now) ≡ None → ¬ AskNoComments (texts words.entry.now)
        → (outcome : Outcome) × (result ≡ status_of_outcome outcome)
        × HasDone (texts words.entry.now) (R.remaining input) (W.contents output.old) (W.contents output.new) outcome }
    ensures status { IsStatus result }
    ensures silent { ((n : ℕ) → ¬ (AskReplayInPieces (texts words.entry.now) n)) → ((n turns : ℕ) → ¬ (AskRunInPieces (texts words.entry.now) n turns))
        → ((n : ℕ) → ¬ (AskShell (texts words.entry.now) n))
        → result ≢ DONE → result ≢ ILLEGAL → result ≢ DEVICE → Keeps (W.contents output.old) (W.contents output.new) }
    ensures silent_in_pieces { ((n turns : ℕ) → ¬ (AskRunInPieces (texts words.entry.now) n turns))
        → result ≢ DONE → result ≢ ILLEGAL → result ≢ DEVICE → result ≢ NO_MEMORY → Keeps (W.contents output.old) (W.contents output.new) }
    ensures silent_always { result ≢ DONE → result ≢ ILLEGAL → result ≢ DEVICE → result ≢ NO_MEMORY → result ≢ STOPPED
        → Keeps (W.contents output.old) (W.contents output.new) }
{
    let hints = Hints::AsAsked;
    program_with_hints(rt, alloc, words, input, output, errors, gate, hints)
}
