//! The edges of the waits-for graph, as a matrix of bits.

ghost use Rattle.std.specs.Prelude.{◌≡◌, ℕ, ◌+◌, ◌*◌, ◌<◌, ◌≤◌, true, false, ◌&&◌, ◌||◌, not, ◌==◌, IfOk, EachIndex, slice_index, length};
ghost use Rattle.waits_for.specs.inner.Bits.{has_bit, words_for};
ghost use Rattle.waits_for.specs.Pairs.{is_met, pairs_of, seen_by};

use crate::bits::{clear, or_within, set, set_met, unset, words_for};
use std::alloc::{AllocError, Global};
use std::marker::Model;

/// A row of bits for each session: bit u of row t is set if session t waits for session u. Each row is whole
/// words, and the rows are one after another. Bits past the last session stay 0, so that kernels over rows see
/// only sessions.
#[derive(Drop)]
pub struct Matrix {
    /// The number of sessions.
    sessions: u16,
    /// The rows, one after another, in words of 64 bits.
    words: Vec<u64>,
}

impl Model for Matrix {
    ghost use Rattle.std.specs.Prelude.{◌≡◌, ◌*◌, length};
    ghost use Rattle.waits_for.specs.Pairs.{Pairs, seen_by};
    ghost use Rattle.waits_for.specs.inner.Bits.{IsClearPast, marked_in, words_for};

    ghost Value = { Pairs };

    ghost view = { λ m. seen_by m.sessions (marked_in m.sessions m.words.items) };

    ghost invariant = { λ m.
        (length m.words.items ≡ m.sessions * words_for m.sessions)
        × IsClearPast m.sessions m.words.items };
}

impl Matrix {
    /// A matrix for `sessions` sessions without edges. Fails only if memory is refused.
    pub(crate) fn new(alloc: Global, sessions: u16) -> Result<Matrix, AllocError>
        ensures sessions { IfOk result (λ matrix. matrix.sessions ≡ sessions) }
        ensures no_pairs { IfOk result (λ matrix. (t u : ℕ) → pairs_of matrix t u ≡ false) }
    {
        let words = vec![in alloc; 0; sessions as usize * words_for(sessions)]?;
        Ok(Matrix { sessions, words })
    }

    /// The number of sessions.
    pub(crate) fn sessions(&self) -> u16
        ensures sessions { result ≡ self.now.sessions }
        ensures whole { self.now ≡ seen_by self.now.sessions (pairs_of self.now) }
    {
        self.sessions
    }

    /// The row of the session at position `t`: the sessions that it waits for directly.
    pub(crate) fn row(&self, t: usize) -> &[u64]
        requires { t < self.now.sessions }
        ensures room { length result.now ≡ words_for self.now.sessions }
        ensures few { length result.now ≤ 1024 }
        ensures bits { (u : ℕ) → has_bit result.now u ≡ pairs_of self.now t u }
    {
        let width = words_for(self.sessions);
        let from = row_start(self.sessions, t);
        &self.words[from..from + width]
    }

    /// Adds the edge from position `t` to position `u`.
    pub(crate) fn set(&mut self, t: usize, u: usize)
        requires t_below { t < self.old.sessions }
        requires u_below { u < self.old.sessions }
        ensures sessions { self.new.sessions ≡ self.old.sessions }
        ensures pairs { (a b : ℕ) →
            pairs_of self.new a b ≡ (pairs_of self.old a b || ((a == t) && (b == u))) }
    {
        let place = row_start(self.sessions, t) * 64 + u;
        set(&mut self.words, place);
    }

    /// Removes the edge from position `t` to position `u`, if there is one.
    pub(crate) fn unset(&mut self, t: usize, u: usize)
        requires t_below { t < self.old.sessions }
        requires u_below { u < self.old.sessions }
        ensures sessions { self.new.sessions ≡ self.old.sessions }
        ensures pairs { (a b : ℕ) →
            pairs_of self.new a b ≡ (pairs_of self.old a b && not ((a == t) && (b == u))) }
    {
        let place = row_start(self.sessions, t) * 64 + u;
        unset(&mut self.words, place);
    }

    /// Adds an edge from position `t` to each other session in `numbers` whose code has a bit of `mask`.
    /// `codes[k]` belongs to session number `numbers[k]`.
    pub(crate) fn set_met(&mut self, t: usize, numbers: &[u16], codes: &[u8], mask: u8)
        requires t_below { t < self.old.sessions }
        requires a_code_each { length codes.now ≡ length numbers.now }
        requires within { EachIndex numbers.now (λ k.
            (1 ≤ slice_index numbers.now k) × (slice_index numbers.now k ≤ self.old.sessions)) }
        ensures sessions { self.new.sessions ≡ self.old.sessions }
        ensures pairs { (a b : ℕ) → pairs_of self.new a b
            ≡ (pairs_of self.old a b || ((a == t) && (not (b == t) && is_met mask b numbers.now codes.now))) }
    {
        let from = row_start(self.sessions, t) * 64;
        set_met(&mut self.words, from, t, numbers, codes, mask);
    }

    /// Removes all edges from position `t`.
    pub(crate) fn clear_row(&mut self, t: usize)
        requires { t < self.old.sessions }
        ensures sessions { self.new.sessions ≡ self.old.sessions }
        ensures pairs { (a b : ℕ) →
            pairs_of self.new a b ≡ (pairs_of self.old a b && not (a == t)) }
    {
        let from = row_start(self.sessions, t);
        clear(&mut self.words, from, words_for(self.sessions));
    }

    /// Adds an edge from position `t` to each session that the session at position `u` waits for directly.
    pub(crate) fn wait_as(&mut self, t: usize, u: usize)
        requires t_below { t < self.old.sessions }
        requires u_below { u < self.old.sessions }
        ensures sessions { self.new.sessions ≡ self.old.sessions }
        ensures pairs { (a b : ℕ) →
            pairs_of self.new a b ≡ (pairs_of self.old a b || ((a == t) && pairs_of self.old u b)) }
    {
        if t == u {
            return;
        }
        let from = row_start(self.sessions, t);
        let other = row_start(self.sessions, u);
        or_within(&mut self.words, from, other, words_for(self.sessions));
    }
}

/// The index of the first word of row `t`.
fn row_start(sessions: u16, t: usize) -> usize
    requires { t < sessions }
    ensures start { result ≡ t * words_for sessions }
    ensures within { result + words_for sessions ≤ sessions * words_for sessions }
    ensures small { words_for sessions ≤ 1024 }
{
    t * words_for(sessions)
}
