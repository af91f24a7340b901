//! Runs on threads whose history is written in pieces while they go on.

use crate::call_gates::Counting;
use crate::harness::{TREE, TREE_HISTORY, TURNS, has_result, limited, push_many_rows, status_of};
use glm::{Gate, MAX_STREAMED_SESSIONS, OpenGate, ToolFault, Verdict, check, run_in_pieces};
use std::fs::Files;
use std::io::Write;
use std::sync::Wait;
use std::thread::Threads;

/// Runs a trace of up to 16 sessions in pieces.
fn run_rows<W: Write, G: Gate>(
    rt: &(impl AllocGlobal + Files + Threads + Wait),
    trace: &[u8],
    output: &mut W,
    gate: &G,
) -> Result<u64, ToolFault> {
    run_in_pieces(rt, rt.alloc(), trace, output, 16, TURNS, gate)
}

/// Whether a text has whole rows of a legal history alone, fewer than `below`.
fn is_front(rt: &impl AllocGlobal, text: &[u8], below: u64) -> bool {
    let is_whole = text.is_empty() || text.ends_with(b"\n".as_slice());
    match check(rt.alloc(), text, 16) {
        Ok(Verdict::Legal(rows)) => is_whole && rows < below,
        _ => false,
    }
}

/// Returns the whole rows at the beginning of a text.
fn whole_rows(text: &[u8]) -> &[u8] {
    match text.iter().rposition(|byte| *byte == b'\n') {
        Some(end) => &text[..=end],
        None => &text[..0],
    }
}

/// A run of no rows returns 0, and one session's history doesn't depend on how it is written.
#[test]
fn a_run_of_one_session_in_pieces_equals_its_replay(rt: HostRuntime) {
    let mut output = Vec::new(rt.alloc());
    let mut right = true;
    for (trace, rows, text) in [("", 0, ""), (TREE, 5, TREE_HISTORY)] {
        let result = run_rows(&rt, trace.as_bytes(), &mut output, &OpenGate);
        right = right && has_result(result, &output, Ok(rows), text);
    }
    assert!(rt; right);
}

/// A history of several pieces is legal, and isn't written at once. `checks/examples` compares its rows.
#[test]
fn a_long_run_is_written_in_pieces(rt: HostRuntime) {
    let mut trace = String::new(rt.alloc());
    let mut output = limited(&rt, usize::MAX, usize::MAX);
    let is_made = push_many_rows(&mut trace, 8, 3000).is_ok();
    let rows = run_rows(&rt, trace.as_bytes(), &mut output, &OpenGate);
    let is_long = is_made && rows == Ok(24_000) && output.lines.len() > 1;
    let verdict = check(rt.alloc(), output.taken.as_slice(), 8);
    assert!(rt; is_long && verdict == Ok(Verdict::Legal(24_000)));
}

/// Runs a trace of 24,000 rows with a writer that fails after some calls. Whether it ends with the fault, and the beginning of a
/// legal history was written.
fn is_cut(rt: &(impl AllocGlobal + Files + Threads + Wait), trace: &[u8], calls: usize) -> bool {
    let mut output = limited(rt, calls, 10_000);
    let rows = run_rows(rt, trace, &mut output, &OpenGate);
    let length = output.taken.len();
    let is_full = length / 10_000 == calls && length % 10_000 == 0;
    let is_failed = rows == Err(ToolFault::Device);
    is_failed && is_full && is_front(rt, whole_rows(&output.taken), 24_000)
}

/// If the writer fails, the run ends, and the beginning of a legal history was written.
#[test]
fn a_failed_writer_ends_the_run(rt: HostRuntime) {
    let mut trace = String::new(rt.alloc());
    let mut right = push_many_rows(&mut trace, 8, 3000).is_ok();
    for calls in [0, 1, 3] {
        right = right && is_cut(&rt, trace.as_bytes(), calls);
    }
    assert!(rt; right);
}

/// If a gate is shut on the way, the whole rows of a legal history were written, those of the calls that were served. The
/// program ends with status 6.
#[test]
fn a_shut_gate_ends_the_run(rt: HostRuntime) {
    let mut trace = String::new(rt.alloc());
    let mut output = Vec::new(rt.alloc());
    let mut errors = Vec::new(rt.alloc());
    let is_made = push_many_rows(&mut trace, 4, 3000).is_ok();
    let gate = Counting::new(0, 2000);
    let rows = run_rows(&rt, trace.as_bytes(), &mut output, &gate);
    let is_shut = is_made && rows == Err(ToolFault::GateShut) && is_front(&rt, &output, 8001);
    output.clear();
    let words = ["glm", "run", "--stream", "--sessions=16"];
    let input = trace.as_bytes();
    let status = status_of(&rt, &words, input, &mut output, &mut errors, &gate);
    let is_told = status == 6 && errors.as_slice() == b"glm: gate shut\n".as_slice();
    assert!(rt; is_shut && is_told && is_front(&rt, &output, 8001));
}

/// With zero tries no call is answered, and nothing is written.
#[test]
fn zero_tries_end_a_run_in_pieces(rt: HostRuntime) {
    let mut output = Vec::new(rt.alloc());
    let row = b"1,begin,,\n".as_slice();
    let rows = run_in_pieces(&rt, rt.alloc(), row, &mut output, 1, 0, &OpenGate);
    assert!(rt; has_result(rows, &output, Err(ToolFault::TurnLimit), ""));
}

/// If a row is faulty, no call enters the gate, and nothing is written.
#[test]
fn a_faulty_row_starts_no_run_in_pieces(rt: HostRuntime) {
    let mut output = Vec::new(rt.alloc());
    let gate = Counting::new(0, u64::MAX);
    let bad = b"1,begin,,\n1,lock,01,S\n".as_slice();
    let rows = run_rows(&rt, bad, &mut output, &gate);
    let is_refused = matches!(rows, Err(ToolFault::Trace(_))) && output.is_empty();
    assert!(rt; is_refused && gate.has([0, 0, 0]));
}

/// The greatest session number of such a run is one below the greatest of all.
#[test]
fn the_last_session_but_one_takes_part(rt: HostRuntime) {
    let mut output = Vec::new(rt.alloc());
    let row = b"1023,begin,,\n".as_slice();
    let most = MAX_STREAMED_SESSIONS;
    let rows = run_in_pieces(&rt, rt.alloc(), row, &mut output, most, TURNS, &OpenGate);
    assert!(rt; has_result(rows, &output, Ok(1), "0,1023,begin,,,began,1\n"));
}
