//! Runs the program in memory, with a writer that takes the bytes as a test wants it, and makes traces.

use glm::{Gate, ToolFault, program};
use std::fmt::Write as WriteText;
use std::fs::Files;
use std::io::{ErrorKind, Read, Write};
use std::sync::Wait;
use std::thread::Threads;
use std::{fmt, io};

/// The greatest number of tries for each answer in these tests.
pub(crate) const TURNS: u64 = 1_000_000_000;

/// A trace of one session.
pub(crate) const TREE: &str = "1,begin,,\n1,lock,1,IX\n1,lock,1/2,IX\n1,lock,1/2/3,X\n1,commit,,\n";

/// The only history of `TREE`.
pub(crate) const TREE_HISTORY: &str =
    "0,1,begin,,,began,1\n1,1,lock,1,IX,granted,IX\n2,1,lock,1/2,IX,granted,IX\n3,1,lock,1/2/3,X,granted,X\n4,1,commit,,,committed,3\n";

/// A writer that takes at most `piece` bytes in each of `calls` calls, and then fails.
#[derive(Drop)]
pub(crate) struct LimitedWriter {
    /// The bytes that were taken.
    pub taken: Vec<u8>,
    /// The number of line feeds that each call took.
    pub lines: Vec<u64>,
    /// The number of calls that are left.
    pub calls: usize,
    /// The number of bytes that a call takes at most.
    pub piece: usize,
    /// Whether the next call is interrupted. Then the call after it isn't, and so on.
    pub halts: bool,
    /// Whether the call after the next one is interrupted.
    pub halts_then: bool,
}

/// Returns a writer that takes at most `piece` bytes in each of `calls` calls.
pub(crate) fn limited(rt: &impl AllocGlobal, calls: usize, piece: usize) -> LimitedWriter {
    LimitedWriter {
        taken: Vec::new(rt.alloc()),
        lines: Vec::new(rt.alloc()),
        calls,
        piece,
        halts: false,
        halts_then: false,
    }
}

impl Write for LimitedWriter {
    /// Takes some bytes, is interrupted, or fails if no call is left.
    fn write(&mut self, bytes: &[u8]) -> io::Result<usize> {
        if self.calls == 0 {
            return Err(io::Error::from(ErrorKind::BrokenPipe));
        }
        self.calls -= 1;
        let halts = self.halts;
        self.halts = self.halts_then;
        self.halts_then = halts;
        if halts {
            return Err(io::Error::from(ErrorKind::Interrupted));
        }
        let count = bytes.len().min(self.piece);
        let part = &bytes[..count];
        let lines = part.iter().filter(|byte| **byte == b'\n').count();
        self.lines.push(lines as u64)?;
        self.taken.write_all(part)?;
        Ok(count)
    }

    /// Does nothing.
    fn flush(&mut self) -> io::Result<()> {
        Ok(())
    }
}

/// Runs the program on these words, the program's name first, and returns the exit status.
pub(crate) fn status_of<R: Read + Drop, W: Write, E: Write, G: Gate>(
    rt: &(impl AllocGlobal + Files + Threads + Wait),
    words: &[&str],
    input: R,
    output: &mut W,
    errors: &mut E,
    gate: &G,
) -> u8 {
    program(rt, rt.alloc(), words, input, output, errors, gate)
}

/// Whether the program ends with this status, no output and this text on standard error.
pub(crate) fn fails_with<R: Read + Drop, G: Gate>(
    rt: &(impl AllocGlobal + Files + Threads + Wait),
    words: &[&str],
    input: R,
    gate: &G,
    wanted: u8,
    text: &str,
) -> bool {
    let mut output = Vec::new(rt.alloc());
    let mut errors = Vec::new(rt.alloc());
    let status = status_of(rt, words, input, &mut output, &mut errors, gate);
    status == wanted && output.is_empty() && errors.as_slice() == text.as_bytes()
}

/// Whether a command of the library has this result and wrote this text.
pub(crate) fn has_result(
    rows: Result<u64, ToolFault>,
    output: &[u8],
    wanted: Result<u64, ToolFault>,
    text: &str,
) -> bool {
    rows == wanted && output == text.as_bytes()
}

/// Appends a begin, and then polls up to a number of rows, to a trace and its history.
pub(crate) fn push_polls(trace: &mut String, history: &mut String, rows: u64) -> fmt::Result {
    trace.write_str("1,begin,,\n")?;
    history.write_str("0,1,begin,,,began,1\n")?;
    for place in 1..rows {
        trace.write_str("1,poll,,\n")?;
        write!(history, "{place},1,poll,,,clear,\n")?;
    }
    Ok(())
}

/// Appends `each` rows of `sessions` sessions, one row of every session in turn. The transactions of all sessions conflict on
/// two databases.
pub(crate) fn push_many_rows(trace: &mut String, sessions: u16, each: u64) -> fmt::Result {
    for number in 0..each {
        let row = match number % 5 {
            0 => ",begin,,\n",
            1 => ",lock,1,S\n",
            2 => ",lock,2,IX\n",
            3 => ",lock,1,X\n",
            _ => ",abort,,\n",
        };
        for session in 1..=sessions {
            write!(trace, "{session}")?;
            trace.write_str(row)?;
        }
    }
    Ok(())
}
