//! The loop of a shell, from line to line.

ghost use Rattle.std.specs.Prelude.{◌≡◌, ◌⊎◌, ◌<◌, ◌≤◌, true, false, [], IfOk, IfErr, IfSome, OnOk, OnErr};
ghost use Rattle.std.specs.Io.KnownBytes.{Appends};
ghost use Rattle.lock_rules.specs.declared.calls.TheConstants.{MAX_SESSIONS};
ghost use Rattle.replay_commands.specs.Written.{AppendsPart};
ghost use Rattle.lock_shell.specs.declared.texts.TheConstants.{GREETING};
ghost use Rattle.lock_shell.specs.Turns.{HasTalked, HasTalkedPart, IsFaultOfShell, Kept};
ghost use Rattle.lock_shell.specs.inner.Answered.{HasAnswered, HasAnsweredPart, HasTurned, HasTurnedPart, IsTurned};
ghost use Rattle.lock_shell.specs.inner.Desks.{AreAlike, kept_in};

use crate::answer::answer;
use crate::desk::{Desk, fresh_desk};
use crate::line::{Asked, asked_by};
use crate::texts::GREETING;
use lock_desk::NoMemory;
use lock_rules::MAX_SESSIONS;
use replay_commands::{ToolFault, write_text};
use std::alloc::Global;
use std::fs::Files;
use std::io::{BufRead, BufReader, ErrorKind, Read, Write};

/// Reads the next line. `None` at the end of the input.
fn next_line<R: BufRead>(alloc: Global, reader: &mut R) -> Result<Option<Vec<u8>>, ToolFault>
    ensures faults { IfErr result IsFaultOfShell }
{
    let mut line = Vec::new(alloc);
    match reader.read_until(b'\n', &mut line) {
        Ok(0) => Ok(None),
        Ok(_) => Ok(Some(line)),
        Err(error) if error.kind() == ErrorKind::OutOfMemory => Err(ToolFault::NoMemory),
        Err(_) => Err(ToolFault::Device),
    }
}

/// Answers a line. Returns the text of the answer, `None` if the line asks to end. Fails if memory is refused; the desk counts no more
/// then.
fn answer_line<T: Files>(
    files: &T,
    alloc: Global,
    desk: &mut Desk,
    marks: &mut Vec<u64>,
    line: &[u8],
) -> Result<Option<Vec<u8>>, NoMemory>
    requires alike { AreAlike desk.old.after.sessions desk.old.before desk.old.after }
    ensures alike { IfOk result (λ answered. IfSome answered (λ text. AreAlike desk.old.after.sessions desk.new.before desk.new.after)) }
    ensures turn { IfOk result (λ answered. IfSome answered (λ text. IsTurned desk.old.after.sessions (kept_in desk.old.after marks.old.items) (kept_in desk.new.after marks.new.items) text.items)) }
{
    let Ok(asked) = asked_by(alloc, line, desk.after.sessions()) else {
        return Err(NoMemory);
    };
    if matches!(asked, Asked::Quit) {
        return Ok(None);
    }
    let text = answer(files, alloc, desk, marks, &asked)?;
    // called for its contract: the history is legal
    let _ = desk.after.history();
    Ok(Some(text))
}

/// Reads a line, answers it, and writes the answer. Returns whether a line was answered: none is at the end of the input, nor is one that
/// asks to end.
fn answer_next<T: Files, R: BufRead, W: Write>(
    files: &T,
    alloc: Global,
    desk: &mut Desk,
    marks: &mut Vec<u64>,
    reader: &mut R,
    output: &mut W,
) -> Result<bool, ToolFault>
    requires alike { AreAlike desk.old.after.sessions desk.old.before desk.old.after }
    ensures alike { IfOk result (λ went. went ≡ true → AreAlike desk.old.after.sessions desk.new.before desk.new.after) }
    ensures turn { IfOk result (λ went. went ≡ true
        → HasTurned desk.old.after.sessions (kept_in desk.old.after marks.old.items) (kept_in desk.new.after marks.new.items) (W.contents output.old) (W.contents output.new)) }
    ensures ended { IfOk result (λ went. went ≡ false → W.contents output.new ≡ W.contents output.old) }
    ensures part { OnErr result ((W.contents output.new ≡ W.contents output.old)
        ⊎ HasTurnedPart desk.old.after.sessions (kept_in desk.old.after marks.old.items) (W.contents output.old) (W.contents output.new)) }
    ensures faults { IfErr result IsFaultOfShell }
{
    let Some(line) = next_line(alloc, reader)? else {
        return Ok(false);
    };
    let Ok(answered) = answer_line(files, alloc, desk, marks, &line) else {
        return Err(ToolFault::NoMemory);
    };
    match answered {
        Some(text) => {
            write_text(output, &text)?;
            Ok(true)
        }
        None => Ok(false),
    }
}

/// Answers line after line, up to the end of the input or a line that asks to end. Returns the number of lines that were answered.
fn answer_lines<T: Files, R: BufRead, W: Write>(
    files: &T,
    alloc: Global,
    desk: &mut Desk,
    marks: &mut Vec<u64>,
    reader: &mut R,
    output: &mut W,
) -> Result<u64, ToolFault>
    requires alike { AreAlike desk.old.after.sessions desk.old.before desk.old.after }
    ensures answered { IfOk result (λ count. (back : Kept) × HasAnswered desk.old.after.sessions count (kept_in desk.old.after marks.old.items) back (W.contents output.old) (W.contents output.new)) }
    ensures part { OnErr result (HasAnsweredPart desk.old.after.sessions (kept_in desk.old.after marks.old.items) (W.contents output.old) (W.contents output.new)) }
    ensures faults { IfErr result IsFaultOfShell }
{
    for count in 0..u64::MAX {
        let went = answer_next(files, alloc, desk, marks, reader, output)?;
        if !went {
            return Ok(count);
        }
    }
    Ok(u64::MAX)
}

/// Writes the first line.
fn greet<W: Write>(output: &mut W) -> Result<(), ToolFault>
    ensures written { OnOk result (Appends (W.contents output.old) (W.contents output.new) GREETING.now) }
    ensures part { OnErr result (AppendsPart (W.contents output.old) (W.contents output.new) GREETING.now) }
    ensures faults { IfErr result IsFaultOfShell }
{
    write_text(output, GREETING.as_bytes())
}

/// Greets, then reads lines of `input` and answers each, on a desk that has served no call. Returns the number of lines that were answered.
// By itself, since proofs of functions that own a desk are dear.
fn converse<T: Files, R: Read + Drop, W: Write>(
    files: &T,
    alloc: Global,
    desk: &mut Desk,
    input: R,
    output: &mut W,
) -> Result<u64, ToolFault>
    requires alike { AreAlike desk.old.after.sessions desk.old.before desk.old.after }
    requires fresh { desk.old.after.history ≡ [] }
    ensures talked { IfOk result (λ count. HasTalked desk.old.after.sessions count (W.contents output.old) (W.contents output.new)) }
    ensures part { OnErr result (HasTalkedPart desk.old.after.sessions (W.contents output.old) (W.contents output.new)) }
    ensures faults { IfErr result IsFaultOfShell }
{
    let Ok(mut reader) = BufReader::new(alloc, input) else {
        return Err(ToolFault::NoMemory);
    };
    let mut marks = Vec::new(alloc);
    match greet(output) {
        Ok(()) => answer_lines(files, alloc, desk, &mut marks, &mut reader, output),
        Err(fault) => Err(fault),
    }
}

/// Reads lines of `input`, and answers each at once on `output`, for sessions 1 to `sessions`, at most `MAX_SESSIONS`: calls in the
/// order in which they are typed, on one lock table, and the words of `help`. Files are saved to and loaded from `files`.
///
/// Ends at the end of the input, or at `quit`, and returns the number of lines that were answered before. The fault `NoMemory` means
/// that memory was refused, `Device` that the reader or the writer failed; the answers to the lines before may have been written then.
pub fn shell<T: Files, R: Read + Drop, W: Write>(
    files: &T,
    alloc: Global,
    input: R,
    output: &mut W,
    sessions: u16,
) -> Result<u64, ToolFault>
    requires some { 0 < sessions }
    requires few { sessions ≤ MAX_SESSIONS }
    ensures talked { IfOk result (λ count. HasTalked sessions count (W.contents output.old) (W.contents output.new)) }
    ensures part { OnErr result (HasTalkedPart sessions (W.contents output.old) (W.contents output.new)) }
    ensures faults { IfErr result IsFaultOfShell }
{
    let Ok(mut desk) = fresh_desk(alloc, sessions) else {
        return Err(ToolFault::NoMemory);
    };
    converse(files, alloc, &mut desk, input, output)
}
