//! Keeps the threads of a run in step with the writing of its history.

use crate::call_gate::Gate;
use replay_commands::PIECE_ENTRIES;
use std::sync::atomic::{AtomicBool, AtomicU64, AtomicUsize, Ordering};
use std::thread;

/// How many calls may have been let in beyond the entries that are written. Further calls wait until more is written.
const MOST_AHEAD: u64 = 4 * PIECE_ENTRIES;

/// How far a run and the writing of its history are.
#[derive(Drop)]
pub(crate) struct Progress {
    /// How many calls were let in.
    entered: AtomicU64,
    /// How many entries of the history are written.
    written: AtomicU64,
    /// Whether no more calls are let in.
    is_stopped: AtomicBool,
    /// How many threads of the run are at work.
    pub at_work: AtomicUsize,
}

impl Progress {
    /// A run that hasn't begun.
    pub(crate) fn new() -> Progress {
        Progress {
            entered: AtomicU64::new(0),
            written: AtomicU64::new(0),
            is_stopped: AtomicBool::new(false),
            at_work: AtomicUsize::new(0),
        }
    }

    /// How many calls were let in beyond the first `written` ones.
    fn ahead_of(&self, written: u64) -> u64 {
        self.entered.load(Ordering::SeqCst).saturating_sub(written)
    }

    /// Whether a piece is worth taking when the first `written` entries are written.
    pub(crate) fn is_due(&self, written: u64) -> bool {
        self.ahead_of(written) >= PIECE_ENTRIES
    }

    /// Whether all threads of the run have ended.
    pub(crate) fn is_over(&self) -> bool {
        self.at_work.load(Ordering::SeqCst) == 0
    }

    /// Notes that the first `written` entries are written.
    pub(crate) fn note_written(&self, written: u64) {
        self.written.store(written, Ordering::SeqCst);
    }

    /// Notes that one more call is let in.
    fn note_entered(&self) {
        self.entered.fetch_add(1, Ordering::SeqCst);
    }

    /// Lets no more calls in. Threads that still have calls to perform stop with `GateShut`.
    pub(crate) fn stop(&self) {
        self.is_stopped.store(true, Ordering::SeqCst);
    }

    /// Waits until the calls are no longer too far ahead. Returns false if no more calls are let in.
    fn wait_for_room(&self) -> bool {
        for _ in 0..u64::MAX {
            if self.is_stopped.load(Ordering::SeqCst) {
                return false;
            }
            if self.ahead_of(self.written.load(Ordering::SeqCst)) < MOST_AHEAD {
                return true;
            }
            thread::yield_now();
        }
        false
    }
}

/// A gate round the gate of a run whose history is written in pieces. It holds calls back while too much of the history is
/// still to be written, so that the lock table keeps no more than `MOST_AHEAD` entries and one for each session.
#[derive(Clone, Copy)]
pub(crate) struct Pace<'g, G> {
    /// The gate of the run.
    pub gate: &'g G,
    /// How far the run is.
    pub progress: &'g Progress,
}

impl<'g, G: Gate> Gate for Pace<'g, G> {
    /// Waits for room, and then enters the gate of the run.
    fn enter(&self, session: u16, call: u64) -> bool {
        if !self.progress.wait_for_room() {
            return false;
        }
        if !self.gate.enter(session, call) {
            return false;
        }
        self.progress.note_entered();
        true
    }

    /// Leaves the gate of the run.
    fn leave(&self, session: u16, call: u64) {
        self.gate.leave(session, call);
    }
}
