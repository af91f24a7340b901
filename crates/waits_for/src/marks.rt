//! Sets of sessions, a bit for each session.

ghost use Rattle.std.specs.Prelude.{◌≡◌, ℕ, ◌<◌, ◌||◌, not, ◌==◌, false, IfOk, length};
ghost use Rattle.waits_for.specs.Marks.{is_marked};
ghost use Rattle.waits_for.specs.inner.Bits.{has_bit, words_for};

use crate::NoMemory;
use crate::bits::{clear, has, set, words_for};
use std::alloc::Global;
use std::marker::Model;

/// A set of sessions, which are called marked. Contracts see the number of sessions and the marks, by `is_marked`.
///
/// Only [`Marks::new`] allocates memory.
#[derive(Drop)]
pub struct Marks {
    /// The number of sessions.
    sessions: u16,
    /// A bit for each session, in words of 64 bits.
    words: Vec<u64>,
}

impl Model for Marks {
    ghost use Rattle.std.specs.Prelude.{◌≡◌, length};
    ghost use Rattle.waits_for.specs.Marks.{Marking, marked_by};
    ghost use Rattle.waits_for.specs.inner.Bits.{has_bit, words_for};

    ghost Value = { Marking };

    ghost view = { λ m. marked_by m.sessions (has_bit m.words.items) };

    ghost invariant = { λ m. length m.words.items ≡ words_for m.sessions };
}

impl Marks {
    /// An empty set for `sessions` sessions. Fails only with `NoMemory`.
    pub fn new(alloc: Global, sessions: u16) -> Result<Marks, NoMemory>
        ensures sessions { IfOk result (λ marks. marks.sessions ≡ sessions) }
        ensures none { IfOk result (λ marks. (t : ℕ) → is_marked marks t ≡ false) }
    {
        let words = vec![in alloc; 0; words_for(sessions)]?;
        Ok(Marks { sessions, words })
    }

    /// Marks the session at position `t`. Returns whether it was not marked before.
    pub fn mark(&mut self, t: usize) -> bool
        requires { t < self.old.sessions }
        ensures first { result ≡ not (is_marked self.old t) }
        ensures sessions { self.new.sessions ≡ self.old.sessions }
        ensures marks { (a : ℕ) → is_marked self.new a ≡ (is_marked self.old a || (a == t)) }
    {
        let had = has(&self.words, t);
        set(&mut self.words, t);
        !had
    }

    /// Removes all marks.
    pub fn clear(&mut self)
        ensures sessions { self.new.sessions ≡ self.old.sessions }
        ensures none { (t : ℕ) → is_marked self.new t ≡ false }
    {
        clear(&mut self.words, 0, words_for(self.sessions));
    }

    /// The set as bits.
    pub(crate) fn words(&self) -> &[u64]
        ensures room { length result.now ≡ words_for self.now.sessions }
        ensures bits { (t : ℕ) → t < self.now.sessions → has_bit result.now t ≡ is_marked self.now t }
    {
        &self.words
    }
}
