//! The files to which a shell saves its calls, and from which it loads some.

ghost use Rattle.std.specs.Prelude.{◌≡◌, ℕ, List, ◌++◌, length, Some, IfOk, codes, string_bytes};
ghost use Rattle.lock_shell.specs.Texts.{IsSaved, text_of_bad_row, text_of_save};
ghost use Rattle.lock_shell.specs.inner.Asked.{AreLoaded, AreRead, IsFound, IsNotRead};

use crate::texts::{NO_CALLS, kind_name, put_bad_row, put_fault};
use crate::trace_text::trace_text;
use lock_desk::{Entry, NoMemory};
use lock_trace::{TraceFault, TraceKind, TraceRow, read_trace};
use replay_commands::NewFile;
use std::alloc::Global;
use std::fs::{File, Files};
use std::io;
use std::io::{ErrorKind, Read, Write};

/// Writes the text into the file at `path`, whole or not at all.
fn write_file<T: Files>(files: &T, alloc: Global, path: &str, text: &str) -> io::Result<()> {
    let mut file = NewFile::create(files, alloc, path)?;
    match file.write_all(text.as_bytes()) {
        Ok(()) => file.replace(files),
        Err(error) => {
            file.remove(files);
            Err(error)
        }
    }
}

/// The line of a file that failed for this reason, with these words in front.
fn reason_line(alloc: Global, start: &str, reason: &str) -> Result<String, NoMemory>
    ensures { IfOk result (λ line. string_bytes line ≡ start.now ++ reason.now ++ codes "\n") }
{
    format!(in alloc; "{start}{reason}\n")
}

/// The line of a file that failed, with these words in front. Fails if memory is refused, which may be what the error tells.
fn failed_line(alloc: Global, start: &str, error: &io::Error) -> Result<String, NoMemory>
    ensures { IfOk result (λ line. (reason : List ℕ) × (string_bytes line ≡ start.now ++ reason ++ codes "\n")) }
{
    if error.kind() == ErrorKind::OutOfMemory {
        return Err(NoMemory);
    }
    let reason = format!(in alloc; "{error}")?;
    reason_line(alloc, start, reason.as_str())
}

/// The line that says how many calls were saved.
fn saved_line(alloc: Global, count: usize) -> Result<String, NoMemory>
    ensures { IfOk result (λ line. string_bytes line ≡ text_of_save count) }
{
    format!(in alloc; "calls saved: {count}\n")
}

/// Writes the calls of the entries as a trace into the file at `path`, whole or not at all. Returns the line that says so, or what
/// failed. Fails if memory is refused.
pub(crate) fn save<T: Files>(
    files: &T,
    alloc: Global,
    path: &str,
    entries: &[Entry],
) -> Result<String, NoMemory>
    ensures { IfOk result (λ line. IsSaved (length entries.now) (string_bytes line)) }
{
    let text = trace_text(alloc, entries)?;
    match write_file(files, alloc, path, text.as_str()) {
        Ok(()) => saved_line(alloc, entries.len()),
        Err(error) => failed_line(alloc, "can't write this file: ", &error),
    }
}

/// What was read of a file with a trace.
#[derive(Drop)]
pub(crate) enum Loaded {
    /// Its rows, at least one.
    Rows(Vec<TraceRow>),
    /// The line that says why there are none.
    Failed(String),
}

/// The line that names the row of a trace that can't be read, and its fault.
fn bad_row_line(alloc: Global, fault: &TraceFault) -> Result<String, NoMemory>
    ensures { IfOk result (λ line. string_bytes line ≡ text_of_bad_row fault.now) }
{
    let mut line = String::new(alloc);
    put_bad_row(&mut line, fault.row)?;
    put_fault(&mut line, kind_name(fault.kind))?;
    Ok(line)
}

/// What was read, if it is these rows. Fails if memory is refused.
fn found(alloc: Global, rows: Vec<TraceRow>) -> Result<Loaded, NoMemory>
    ensures { IfOk result (IsFound rows.items) }
{
    if rows.is_empty() {
        let line = String::from_str(alloc, NO_CALLS)?;
        return Ok(Loaded::Failed(line));
    }
    Ok(Loaded::Rows(rows))
}

/// What was read, if it can't be read for this fault. Fails if memory is refused.
fn not_read(alloc: Global, fault: &TraceFault) -> Result<Loaded, NoMemory>
    ensures { IfOk result (IsNotRead fault.now) }
{
    if fault.kind == TraceKind::NoMemory {
        return Err(NoMemory);
    }
    let line = bad_row_line(alloc, fault)?;
    Ok(Loaded::Failed(line))
}

/// Reads a trace of sessions 1 to `sessions`. Fails if memory is refused.
fn read_rows<R: Read + Drop>(alloc: Global, input: R, sessions: u16) -> Result<Loaded, NoMemory>
    // Holds whatever the reader gives.
    ensures loaded { IfOk result (AreLoaded sessions) }

    // Holds if the reader states which bytes remain in it.
    ensures read { (bytes : List ℕ) → R.remaining input ≡ Some bytes → IfOk result (AreRead sessions bytes) }
{
    match read_trace(alloc, input, sessions) {
        Ok(rows) => found(alloc, rows),
        Err(fault) => not_read(alloc, &fault),
    }
}

/// Reads the trace in the file at `path`, of sessions 1 to `sessions`. Fails if memory is refused.
pub(crate) fn load<T: Files>(
    files: &T,
    alloc: Global,
    path: &str,
    sessions: u16,
) -> Result<Loaded, NoMemory>
    ensures { IfOk result (AreLoaded sessions) }
{
    match File::open(files, path) {
        Ok(file) => read_rows(alloc, file, sessions),
        Err(error) => {
            let line = failed_line(alloc, "can't read this file: ", &error)?;
            Ok(Loaded::Failed(line))
        }
    }
}
