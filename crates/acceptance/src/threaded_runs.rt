//! Runs on threads at gates. `checks/examples` compares the rows of runs with those of their traces.

use crate::call_gates::Counting;
use crate::harness::{TREE, TURNS, fails_with};
use glm::{Gate, OpenGate, ToolFault, Verdict, check, run};
use std::fs::Files;
use std::sync::Wait;
use std::thread::Threads;

/// Runs a trace of up to 2 sessions at a gate, with a number of tries for each answer. Whether it has this result, and wrote a
/// legal history of so many calls, or nothing if it failed or there are none.
fn has_run<G: Gate>(
    rt: &(impl AllocGlobal + Files + Threads + Wait),
    trace: &[u8],
    turns: u64,
    gate: &G,
    wanted: Result<u64, ToolFault>,
) -> bool {
    let mut output = Vec::new(rt.alloc());
    let rows = run(rt, rt.alloc(), trace, &mut output, 2, turns, gate);
    let count = wanted.unwrap_or(0);
    let verdict = check(rt.alloc(), output.as_slice(), 2);
    let is_legal = verdict == Ok(Verdict::Legal(count));
    rows == wanted && is_legal && output.is_empty() == (count == 0)
}

/// A run of no rows returns 0. With zero tries no call is answered, and nothing is written.
#[test]
fn a_run_of_nothing_or_without_tries_writes_nothing(rt: HostRuntime) {
    let nothing = b"".as_slice();
    let row = b"1,begin,,\n".as_slice();
    let fault = Err(ToolFault::TurnLimit);
    let is_empty = has_run(&rt, nothing, TURNS, &OpenGate, Ok(0));
    assert!(rt; is_empty && has_run(&rt, row, 0, &OpenGate, fault));
}

/// The first call of each of two sessions waits in the gate until the other session is there too.
#[test]
fn two_sessions_run_on_two_threads_at_once(rt: HostRuntime) {
    let mut gate = Counting::new(0, u64::MAX);
    gate.meets = true;
    let trace = b"1,begin,,\n2,begin,,\n".as_slice();
    assert!(rt; has_run(&rt, trace, TURNS, &gate, Ok(2)));
}

/// A gate that is shut from the third call on ends the run with its own line, and nothing is written.
#[test]
fn a_shut_gate_ends_with_status_6(rt: HostRuntime) {
    let gate = Counting::new(0, 2);
    let words = ["glm", "run"];
    assert!(rt; fails_with(&rt, &words, TREE.as_bytes(), &gate, 6, "glm: gate shut\n"));
}

/// One session's shut gate fails the whole run, though the other session's calls are answered: the second call of session 1
/// finds the gate shut; session 2 has one call, which passes.
#[test]
fn a_gate_shut_to_one_session_fails_the_run(rt: HostRuntime) {
    let gate = Counting::new(0, 1);
    let trace = b"1,poll,,\n1,poll,,\n2,poll,,\n".as_slice();
    assert!(rt; has_run(&rt, trace, TURNS, &gate, Err(ToolFault::GateShut)));
}

/// Of two reasons to stop the run returns the first, whichever session has it. Without tries, one session finds the gate shut
/// and the other runs out of tries.
#[test]
fn a_shut_gate_is_reported_before_the_turn_limit(rt: HostRuntime) {
    let trace = b"1,begin,,\n2,begin,,\n".as_slice();
    let mut right = true;
    for session in [1, 2] {
        let gate = Counting::new(session, 0);
        right = right && has_run(&rt, trace, 0, &gate, Err(ToolFault::GateShut));
    }
    assert!(rt; right);
}

/// Each call enters and leaves the gate once, with its number among the calls of its session.
#[test]
fn the_gate_is_entered_and_left_once_for_each_call(rt: HostRuntime) {
    // session 1 has four calls in the second trace, session 2 three
    let trace = "2,begin,,\n1,begin,,\n2,poll,,\n1,poll,,\n1,poll,,\n2,commit,,\n1,commit,,\n";
    let mut right = true;
    for (trace, rows, steps) in [(TREE, 5, [10, 0, 0]), (trace, 7, [8, 6, 0])] {
        let gate = Counting::new(0, u64::MAX);
        let is_run = has_run(&rt, trace.as_bytes(), TURNS, &gate, Ok(rows));
        right = right && is_run && gate.has(steps);
    }
    assert!(rt; right);
}

/// If a row is faulty, no call enters the gate.
#[test]
fn a_faulty_row_starts_no_thread(rt: HostRuntime) {
    let gate = Counting::new(0, u64::MAX);
    let words = ["glm", "run"];
    let bad = b"1,begin,,\n1,lock,01,S\n".as_slice();
    let line = "glm: row 2: Path LeadingZero\n";
    assert!(rt; fails_with(&rt, &words, bad, &gate, 1, line) && gate.has([0, 0, 0]));
}
