//! A gate for runs in tests.

use glm::Gate;
use std::hint;
use std::sync::atomic::AtomicU64;
use std::sync::atomic::Ordering::SeqCst;

/// How often a gate where sessions meet looks for the other session.
const LOOKS: u64 = 100_000_000;

/// A gate for sessions 1 and 2 that counts its steps: each call's enter is a step of its session, and so is its leave. It can
/// stay shut, and make the sessions meet.
#[derive(Drop)]
pub(crate) struct Counting {
    /// The steps of session 1.
    first: AtomicU64,
    /// The steps of session 2.
    second: AtomicU64,
    /// The steps out of turn. In turn, call 0 enters and leaves, then call 1, and so on.
    out_of_turn: AtomicU64,
    /// Whether a call waits until the other session is there, too.
    pub meets: bool,
    /// The session that isn't let through, or 0 for each session.
    pub shut_to: u16,
    /// The number of the first call that isn't let through, counted from 0 in each session.
    pub shut_from: u64,
}

impl Counting {
    /// Returns a gate that nobody has entered, and that is shut to the session `shut_to`, or to each one if it is 0, from the
    /// call `shut_from` on.
    pub(crate) fn new(shut_to: u16, shut_from: u64) -> Counting {
        Counting {
            first: AtomicU64::new(0),
            second: AtomicU64::new(0),
            out_of_turn: AtomicU64::new(0),
            meets: false,
            shut_to,
            shut_from,
        }
    }

    /// Whether these are the steps of session 1, of session 2, and out of turn.
    pub(crate) fn has(&self, steps: [u64; 3]) -> bool {
        let [first, second, out_of_turn] = steps;
        let same = self.first.load(SeqCst) == first && self.second.load(SeqCst) == second;
        same && self.out_of_turn.load(SeqCst) == out_of_turn
    }

    /// Counts a step of a session, which is in turn as step `turn`.
    fn step(&self, session: u16, turn: u64) {
        let steps = if session == 1 {
            &self.first
        } else {
            &self.second
        };
        if steps.fetch_add(1, SeqCst) != turn {
            self.out_of_turn.fetch_add(1, SeqCst);
        }
    }
}

impl Gate for Counting {
    /// Counts the step. Spins until the other session is there if they meet, and stays shut after `LOOKS` looks.
    fn enter(&self, session: u16, call: u64) -> bool {
        self.step(session, call.wrapping_mul(2));
        if !self.meets {
            let is_meant = self.shut_to == 0 || self.shut_to == session;
            return !(is_meant && call >= self.shut_from);
        }
        let other = if session == 1 {
            &self.second
        } else {
            &self.first
        };
        for _look in 0..LOOKS {
            if other.load(SeqCst) != 0 {
                return true;
            }
            hint::spin_loop();
        }
        false
    }

    /// Counts the step.
    fn leave(&self, session: u16, call: u64) {
        self.step(session, call.wrapping_mul(2).wrapping_add(1));
    }
}
