//! `replay --stream`: the history is written in pieces.

use crate::harness::{has_result, limited, push_polls, status_of};
use crate::writer_faults::has_fronts;
use glm::{OpenGate, PIECE_ENTRIES, replay_in_pieces};
use std::fs::Files;
use std::sync::Wait;
use std::thread::Threads;

/// Makes a trace of this many rows with its history. Whether the program writes the history, in pieces of these numbers of rows.
fn has_pieces(
    rt: &(impl AllocGlobal + Files + Threads + Wait),
    trace: &mut String,
    history: &mut String,
    count: u64,
    rows: &[u64],
) -> bool {
    let is_made = push_polls(trace, history, count).is_ok();
    let mut output = limited(rt, usize::MAX, usize::MAX);
    let mut errors = Vec::new(rt.alloc());
    let words = ["glm", "replay", "--stream"];
    let input = trace.as_bytes();
    let status = status_of(rt, &words, input, &mut output, &mut errors, &OpenGate);
    let same = output.taken.as_slice() == history.as_bytes();
    is_made && status == 0 && same && output.lines.as_slice() == rows
}

/// A history of less than one piece, of two whole ones, and of two and a row is written piece by piece.
#[test]
fn each_piece_is_written_once(rt: HostRuntime) {
    for (count, rows) in [
        (PIECE_ENTRIES - 1, [PIECE_ENTRIES - 1].as_slice()),
        (2 * PIECE_ENTRIES, [PIECE_ENTRIES, PIECE_ENTRIES].as_slice()),
        (
            2 * PIECE_ENTRIES + 1,
            [PIECE_ENTRIES, PIECE_ENTRIES, 1].as_slice(),
        ),
    ] {
        let mut trace = String::new(rt.alloc());
        let mut history = String::new(rt.alloc());
        let is_written = has_pieces(&rt, &mut trace, &mut history, count, rows);
        assert!(rt; is_written);
    }
}

/// Wherever the writer fails, between two of three pieces or within one, what was written is the beginning of the history.
#[test]
fn a_history_of_three_pieces_is_that_of_a_replay(rt: HostRuntime) {
    let mut trace = String::new(rt.alloc());
    let mut history = String::new(rt.alloc());
    let mut right = push_polls(&mut trace, &mut history, 2 * PIECE_ENTRIES + 1).is_ok();
    let words = ["glm", "replay", "--stream"];
    for piece in [usize::MAX, 10_000] {
        let input = trace.as_bytes();
        right = right && has_fronts(&rt, &words, input, history.as_bytes(), piece);
    }
    assert!(rt; right);
}

/// A replay in pieces returns the number of rows, without blank lines.
#[test]
fn a_replay_in_pieces_counts_its_rows(rt: HostRuntime) {
    let mut output = Vec::new(rt.alloc());
    let trace = b"1,begin,,\n\n1,commit,,\n".as_slice();
    let rows = replay_in_pieces(rt.alloc(), trace, &mut output, 1);
    let history = "0,1,begin,,,began,1\n1,1,commit,,,committed,0\n";
    assert!(rt; has_result(rows, &output, Ok(2), history));
}
