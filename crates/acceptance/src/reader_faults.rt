//! Readers that fail: the fault `Device` of the row that was being read, status 5, and no output.

use crate::call_gates::Counting;
use crate::examples::{DEADLOCK, EXAMPLES};
use crate::harness::{fails_with, has_result, status_of};
use glm::{OpenGate, ToolFault, check, replay, run};
use lock_trace::{TraceFault, TraceKind};
use lock_tree::PathFault;
use std::fs::Files;
use std::io;
use std::io::{ErrorKind, Read};
use std::sync::Wait;
use std::thread::Threads;

/// A reader that gives a text, at most `piece` bytes a call, and then fails.
#[derive(Drop)]
struct Cut<'a> {
    /// The bytes that are still to be given.
    left: &'a [u8],
    /// The number of bytes that a call gives at most.
    piece: usize,
}

impl Read for Cut<'_> {
    /// Gives some bytes, or fails at the end.
    fn read(&mut self, bytes: &mut [u8]) -> io::Result<usize> {
        if bytes.is_empty() {
            return Ok(0);
        }
        if self.left.is_empty() {
            return Err(io::Error::from(ErrorKind::UnexpectedEof));
        }
        let count = bytes.len().min(self.piece).min(self.left.len());
        bytes[..count].copy_from_slice(&self.left[..count]);
        self.left = &self.left[count..];
        Ok(count)
    }
}

/// The number of each fault.
#[test]
fn tool_faults_have_their_numbers(rt: HostRuntime) {
    let bad_row = TraceFault {
        row: 1,
        kind: TraceKind::Op,
    };
    let first = ToolFault::Trace(bad_row).number() == 1 && ToolFault::NoMemory.number() == 2;
    let others = ToolFault::GateShut.number() == 4 && ToolFault::TurnLimit.number() == 5;
    assert!(rt; first && ToolFault::Device.number() == 3 && others);
}

/// A replay returns the number of rows, without blank lines.
#[test]
fn a_replay_counts_its_rows(rt: HostRuntime) {
    let mut output = Vec::new(rt.alloc());
    let trace = b"1,begin,,\n\n1,commit,,".as_slice();
    let rows = replay(rt.alloc(), trace, &mut output, 1);
    assert!(rt; rows == Ok(2));
}

/// Calls a command of the library for 256 sessions. Returns its fault, or `None` if it succeeded.
fn fault_of<R: Read + Drop>(
    rt: &(impl AllocGlobal + Files + Threads + Wait),
    word: &str,
    input: R,
    output: &mut Vec<u8>,
) -> Option<ToolFault> {
    if word == "replay" {
        return replay(rt.alloc(), input, output, 256).err();
    }
    if word == "run" {
        return run(rt, rt.alloc(), input, output, 256, 9, &OpenGate).err();
    }
    check(rt.alloc(), input, 256).err()
}

/// Calls a command of the library with readers that give these bytes, a byte or up to 16 bytes a call, and then fail. Whether it
/// fails with this fault, and writes nothing.
fn has_fault(
    rt: &(impl AllocGlobal + Files + Threads + Wait),
    word: &str,
    left: &[u8],
    row: u64,
    kind: TraceKind,
) -> bool {
    let wanted = Some(ToolFault::Trace(TraceFault { row, kind }));
    let mut output = Vec::new(rt.alloc());
    let bytewise = fault_of(rt, word, Cut { left, piece: 1 }, &mut output);
    let in_parts = fault_of(rt, word, Cut { left, piece: 16 }, &mut output);
    bytewise == wanted && in_parts == wanted && output.is_empty()
}

/// Tries a command with readers that fail at each of their calls, and the program itself at the ends of rows. Whether each fault
/// is `Device` of the row that was being read, or that of row 2 if the latter is faulty and was read to its end.
fn fails_everywhere(
    rt: &(impl AllocGlobal + Files + Threads + Wait),
    word: &str,
    text: &str,
    is_faulty: bool,
) -> bool {
    let words = ["glm", word];
    let bytes = text.as_bytes();
    let mut row = 1u64;
    let mut right = true;
    for length in 0..=bytes.len() {
        let left = &bytes[..length];
        let is_end = left.ends_with(b"\n".as_slice());
        if is_end {
            row = row.saturating_add(1);
        }
        let (place, kind, status, line) = if is_faulty && row > 2 {
            let kind = TraceKind::Path(PathFault::LeadingZero);
            (2, kind, 1, "glm: row 2: Path LeadingZero\n")
        } else {
            (row, TraceKind::Device, 5, "glm: device\n")
        };
        let input = Cut { left, piece: 16 };
        let is_told = !is_end || fails_with(rt, &words, input, &OpenGate, status, line);
        right = right && is_told && has_fault(rt, word, left, place, kind);
    }
    right
}

/// Tries `replay` and `run` with readers of the trace of each case of a text, and `check` with readers of the history.
fn fail_everywhere(
    rt: &(impl AllocGlobal + Files + Threads + Wait),
    cases: &str,
    is_faulty: bool,
) -> bool {
    let mut right = true;
    for case in cases.split("|\n") {
        let (_title, parts) = case.split_once(":\n").unwrap_or(("", ""));
        let (trace, history) = parts.split_once(">\n").unwrap_or(("", ""));
        right = right && !trace.is_empty() && !history.is_empty();
        for (word, text) in [("replay", trace), ("run", trace), ("check", history)] {
            right = right && fails_everywhere(rt, word, text, is_faulty);
        }
    }
    right
}

/// A reader that fails is reported with the row that was being read, wherever it fails in an example trace or history, and
/// nothing is written.
#[test]
fn a_failed_reader_is_reported_with_its_row(rt: HostRuntime) {
    assert!(rt; fail_everywhere(&rt, EXAMPLES, false));
}

/// A trace and a history whose row 2 is faulty.
const FAULTY_CASE: &str = "A zero in front of a number:
1,begin,,
1,lock,01,S
1,commit,,
>
0,1,begin,,,began,1
1,1,lock,01,S,granted,S
2,1,commit,,,committed,1
";

/// A reader that fails behind a faulty row changes nothing: the faulty row is reported.
#[test]
fn a_faulty_row_is_reported_before_a_failed_reader(rt: HostRuntime) {
    assert!(rt; fail_everywhere(&rt, FAULTY_CASE, true));
}

/// Wherever the reader of a history fails that is to be shown, explained, drawn or counted, nothing is written.
#[test]
fn a_failed_reader_shows_explains_draws_and_counts_nothing(rt: HostRuntime) {
    let history = DEADLOCK.as_bytes();
    let mut right = true;
    for word in ["show", "explain", "timeline", "stats"] {
        let words = ["glm", word];
        for length in 0..=history.len() {
            let left = &history[..length];
            let input = Cut { left, piece: 16 };
            right = right && fails_with(&rt, &words, input, &OpenGate, 5, "glm: device\n");
        }
    }
    assert!(rt; right);
}

/// Lines for a shell.
const TYPED: &str = "1 begin\n1 path 1/2 X\n2 begin\n\nwhy 1\n1 commit\n";

/// What a shell answers to the whole lines of a text, and to the text if its reader fails behind it. Whether both are the same, with
/// the fault `Device` of the latter.
fn answers_whole_lines(
    rt: &(impl AllocGlobal + Files + Threads + Wait),
    text: &[u8],
    whole: &[u8],
) -> bool {
    let words = ["glm", "shell"];
    let mut wanted = Vec::new(rt.alloc());
    let mut output = Vec::new(rt.alloc());
    let mut errors = Vec::new(rt.alloc());
    let ended = status_of(rt, &words, whole, &mut wanted, &mut errors, &OpenGate);
    let is_silent = errors.is_empty();
    let input = Cut {
        left: text,
        piece: 16,
    };
    let failed = status_of(rt, &words, input, &mut output, &mut errors, &OpenGate);
    let is_told = failed == 5 && errors.as_slice() == b"glm: device\n".as_slice();
    ended == 0 && is_silent && is_told && output.as_slice() == wanted.as_slice()
}

/// Wherever the reader of a shell fails, the whole lines before are answered, and nothing else.
#[test]
fn a_failed_reader_ends_a_shell_behind_its_whole_lines(rt: HostRuntime) {
    let text = TYPED.as_bytes();
    let mut whole = b"".as_slice();
    let mut right = true;
    for length in 0..=text.len() {
        let left = &text[..length];
        if left.ends_with(b"\n".as_slice()) {
            whole = left;
        }
        right = right && answers_whole_lines(&rt, left, whole);
    }
    assert!(rt; right);
}

/// If the reader of a run fails, no call enters the gate.
#[test]
fn a_run_whose_reader_fails_starts_no_thread(rt: HostRuntime) {
    let gate = Counting::new(0, u64::MAX);
    let mut output = Vec::new(rt.alloc());
    let input = Cut {
        left: b"1,begin,,\n".as_slice(),
        piece: 1,
    };
    let rows = run(&rt, rt.alloc(), input, &mut output, 1, 9, &gate);
    let fault = ToolFault::Trace(TraceFault {
        row: 2,
        kind: TraceKind::Device,
    });
    assert!(rt; has_result(rows, &output, Err(fault), "") && gate.has([0, 0, 0]));
}
