//! Writers that fail: the fault `Device`, status 5, and what was written before.

use crate::examples::{DEADLOCK, DEADLOCK_TOLD, LINES_AT_7};
use crate::harness::{TREE, TREE_HISTORY, limited, status_of};
use glm::{OpenGate, ToolFault, VERSION, VERSION_TEXT, replay, run};
use std::fs::Files;
use std::sync::Wait;
use std::thread::Threads;

/// The version that the library names is the one that the program writes.
#[test]
fn the_version_is_that_of_the_text(rt: HostRuntime) {
    assert!(rt; VERSION == "0.9.0" && VERSION_TEXT.contains(VERSION));
}

/// A replay or a run whose output takes no bytes ends with the fault `Device`, and a replay with status 5.
#[test]
fn a_failed_writer_ends_with_status_5(rt: HostRuntime) {
    let input = b"1,begin,,\n".as_slice();
    let mut full = limited(&rt, usize::MAX, 0);
    let mut errors = Vec::new(rt.alloc());
    let words = ["glm", "replay"];
    let status = status_of(&rt, &words, input, &mut full, &mut errors, &OpenGate);
    let is_told = status == 5 && errors.as_slice() == b"glm: device\n".as_slice();
    let replayed = replay(rt.alloc(), input, &mut full, 1);
    let ran = run(&rt, rt.alloc(), input, &mut full, 1, 9, &OpenGate);
    let fault = Err(ToolFault::Device);
    assert!(rt; is_told && replayed == fault && ran == fault);
}

/// The exit status is the same if standard error takes no bytes, for a faulty row and for a usage error, and nothing is
/// written.
#[test]
fn a_failed_standard_error_changes_no_status(rt: HostRuntime) {
    let bad = b"x,begin,,\n".as_slice();
    let mut output = Vec::new(rt.alloc());
    let mut full = limited(&rt, usize::MAX, 0);
    let mut right = true;
    for (words, wanted) in [(["glm", "replay"].as_slice(), 1), (["glm"].as_slice(), 2)] {
        let status = status_of(&rt, words, bad, &mut output, &mut full, &OpenGate);
        right = right && status == wanted;
    }
    assert!(rt; right && output.is_empty());
}

/// Whether the beginning of the text `whole` was written, with status 5 and its line, or all of it, with status 0. With a byte a
/// call, each of the calls before the failure counts. Returns whether it is all of it, and `None` if it is neither.
fn front_of(
    status: u8,
    written: &[u8],
    errors: &[u8],
    whole: &[u8],
    bytes: Option<usize>,
) -> Option<bool> {
    if status == 0 && written == whole {
        return Some(true);
    }
    let is_told = status == 5 && errors == b"glm: device\n".as_slice();
    let is_front = bytes.is_none() || bytes == Some(written.len());
    if is_told && is_front && whole.starts_with(written) {
        return Some(false);
    }
    None
}

/// Runs the program with an output that takes `piece` bytes a call and fails after `calls` calls.
fn front_after(
    rt: &(impl AllocGlobal + Files + Threads + Wait),
    words: &[&str],
    input: &[u8],
    whole: &[u8],
    calls: usize,
    piece: usize,
) -> Option<bool> {
    let mut output = limited(rt, calls, piece);
    let mut errors = Vec::new(rt.alloc());
    let status = status_of(rt, words, input, &mut output, &mut errors, &OpenGate);
    let bytes = if piece == 1 { Some(calls) } else { None };
    front_of(status, &output.taken, &errors, whole, bytes)
}

/// Runs the program with outputs that fail at each of their calls, until one takes the whole text. Whether each has taken the
/// beginning of it. The first one takes nothing.
pub(crate) fn has_fronts(
    rt: &(impl AllocGlobal + Files + Threads + Wait),
    words: &[&str],
    input: &[u8],
    whole: &[u8],
    piece: usize,
) -> bool {
    for calls in 0..=whole.len() {
        match front_after(rt, words, input, whole, calls, piece) {
            Some(false) => {}
            Some(true) => return calls > 0,
            None => return false,
        }
    }
    false
}

/// Wherever the writer fails, what was written is the beginning of the text, for each command and the version.
#[test]
fn a_failed_writer_leaves_the_beginning_of_the_text(rt: HostRuntime) {
    for (words, input, whole) in [
        (["glm", "replay"].as_slice(), TREE, TREE_HISTORY),
        (["glm", "replay", "--stream"].as_slice(), TREE, TREE_HISTORY),
        (["glm", "run"].as_slice(), TREE, TREE_HISTORY),
        (["glm", "check"].as_slice(), TREE_HISTORY, "legal 5\n"),
        (["glm", "show", "--at=7"].as_slice(), DEADLOCK, LINES_AT_7),
        (["glm", "explain"].as_slice(), DEADLOCK, DEADLOCK_TOLD),
        (["glm", "--version"].as_slice(), "", VERSION_TEXT),
    ] {
        assert!(rt; has_fronts(&rt, words, input.as_bytes(), whole.as_bytes(), 1));
    }
}

/// Whether outputs that fail leave the beginnings (`has_fronts`) of what the program writes to one that doesn't fail.
fn has_own_fronts(
    rt: &(impl AllocGlobal + Files + Threads + Wait),
    words: &[&str],
    input: &[u8],
    piece: usize,
) -> bool {
    let mut whole = Vec::new(rt.alloc());
    let mut errors = Vec::new(rt.alloc());
    let status = status_of(rt, words, input, &mut whole, &mut errors, &OpenGate);
    status == 0 && errors.is_empty() && has_fronts(rt, words, input, &whole, piece)
}

/// Wherever the writer fails, what was written is the beginning of the help that a writer gets which doesn't fail.
#[test]
fn a_failed_writer_leaves_the_beginning_of_the_help(rt: HostRuntime) {
    assert!(rt; has_own_fronts(&rt, &["glm", "--help"], b"".as_slice(), usize::MAX));
}

/// Wherever the writer fails, what was written is the beginning of the picture that a writer gets which doesn't fail.
#[test]
fn a_failed_writer_leaves_the_beginning_of_a_picture(rt: HostRuntime) {
    assert!(rt; has_own_fronts(&rt, &["glm", "timeline"], DEADLOCK.as_bytes(), 500));
}

/// Wherever the writer fails, what was written is the beginning of the counters that a writer gets which doesn't fail.
#[test]
fn a_failed_writer_leaves_the_beginning_of_the_counters(rt: HostRuntime) {
    assert!(rt; has_own_fronts(&rt, &["glm", "stats"], DEADLOCK.as_bytes(), usize::MAX));
}

/// Wherever the writer of a shell fails, what was written is the beginning of what a writer gets which doesn't fail.
#[test]
fn a_failed_writer_leaves_the_beginning_of_a_shell(rt: HostRuntime) {
    let input = b"1 begin\n1 path 1/2 X\n2 lock 1/2 S\nwhy 2\nundo\n".as_slice();
    assert!(rt; has_own_fronts(&rt, &["glm", "shell"], input, 20));
}

/// A write that is interrupted is repeated.
#[test]
fn an_interrupted_write_is_repeated(rt: HostRuntime) {
    let mut output = limited(&rt, usize::MAX, 1);
    output.halts = true;
    let mut errors = Vec::new(rt.alloc());
    let words = ["glm", "replay"];
    let input = TREE.as_bytes();
    let status = status_of(&rt, &words, input, &mut output, &mut errors, &OpenGate);
    let is_done = status == 0 && errors.is_empty();
    assert!(rt; is_done && output.taken.as_slice() == TREE_HISTORY.as_bytes());
}
