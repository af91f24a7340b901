//! The waits-for graph, its updates and its queries.

ghost use Rattle.std.specs.Prelude.{◌≡◌, ℕ, ◌<◌, ◌≤◌, ◌↔◌, ◌&&◌, ◌||◌, not, ◌==◌, false, true, IfOk, IfNone, IfSome, IsSome, IsTrue, EachIndex, slice_index, length};
ghost use Rattle.waits_for.specs.Pairs.{is_met, pairs_of};
ghost use Rattle.waits_for.specs.Marks.{is_marked};
ghost use Rattle.waits_for.specs.Walks.{Reaches, IsYoungestOnCircle};

use crate::bits::{has, have_common, next_new, set, unset, words_for};
use crate::circle_search::CircleSearch;
use crate::marks::Marks;
use crate::matrix::Matrix;
use crate::search::is_waited_for;
use crate::{MAX_SESSIONS, NoMemory};
use std::alloc::Global;
use std::marker::Model;

/// The waits-for graph: which session waits for which. Contracts see the number of sessions and the edges, by
/// `pairs_of`.
///
/// Only [`Rows::new`] allocates memory. The queries about walks take `&mut self` for their scratch rows, and leave
/// the edges as they are.
#[derive(Drop)]
pub struct Rows {
    /// The edges.
    matrix: Matrix,
    /// The sessions that were given an edge since their row was last cleared. The rows of all others are empty.
    waiting: Vec<u64>,
    /// The search for circles, with the circle that it found last.
    search: CircleSearch,
}

impl Model for Rows {
    ghost use Rattle.std.specs.Prelude.{◌≡◌, length};
    ghost use Rattle.waits_for.specs.Pairs.{Pairs, pairs_of};
    ghost use Rattle.waits_for.specs.inner.Bits.{words_for};
    ghost use Rattle.waits_for.specs.inner.Search.{HasAllWaiting, HasSearched};

    ghost Value = { Pairs };

    ghost view = { λ r. r.matrix };

    ghost invariant = { λ r.
        (length r.waiting.items ≡ words_for r.matrix.sessions)
        × HasAllWaiting (pairs_of r.matrix) r.waiting.items
        × (r.search.sessions ≡ r.matrix.sessions)
        × HasSearched (pairs_of r.matrix) r.search.searched r.search.circle };
}

impl Rows {
    /// A graph of `sessions` sessions without edges. Fails only with `NoMemory`.
    pub fn new(alloc: Global, sessions: u16) -> Result<Rows, NoMemory>
        requires at_least_one { 1 ≤ sessions }
        requires at_most { sessions ≤ MAX_SESSIONS }
        ensures sessions { IfOk result (λ rows. rows.sessions ≡ sessions) }
        ensures no_pairs { IfOk result (λ rows. (t u : ℕ) → pairs_of rows t u ≡ false) }
    {
        let matrix = Matrix::new(alloc, sessions)?;
        let waiting = vec![in alloc; 0; words_for(sessions)]?;
        let search = CircleSearch::new(alloc, sessions)?;
        Ok(Rows {
            matrix,
            waiting,
            search,
        })
    }

    /// The number of sessions. Positions are below it.
    pub fn sessions(&self) -> u16
        ensures sessions { result ≡ self.now.sessions }
        ensures within { (t u : ℕ) → pairs_of self.now t u ≡ true →
            (t < self.now.sessions) × (u < self.now.sessions) }
    {
        self.matrix.sessions()
    }

    /// Adds an edge: the session at position `t` waits for the session at position `u`.
    pub fn set(&mut self, t: usize, u: usize)
        requires t_below { t < self.old.sessions }
        requires u_below { u < self.old.sessions }
        ensures sessions { self.new.sessions ≡ self.old.sessions }
        ensures pairs { (a b : ℕ) →
            pairs_of self.new a b ≡ (pairs_of self.old a b || ((a == t) && (b == u))) }
    {
        self.matrix.set(t, u);
        set(&mut self.waiting, t);
        self.search.forget();
    }

    /// Removes an edge, if there is one: the session at position `t` no longer waits for the session at position `u`.
    pub fn unset(&mut self, t: usize, u: usize)
        requires t_below { t < self.old.sessions }
        requires u_below { u < self.old.sessions }
        ensures sessions { self.new.sessions ≡ self.old.sessions }
        ensures pairs { (a b : ℕ) →
            pairs_of self.new a b ≡ (pairs_of self.old a b && not ((a == t) && (b == u))) }
    {
        self.matrix.unset(t, u);
    }

    /// Adds an edge from the session at position `t` to each other session in `numbers` whose code has a bit of
    /// `mask`. `codes[k]` belongs to session number `numbers[k]`; a session number is a position plus 1.
    pub fn set_met(&mut self, t: usize, numbers: &[u16], codes: &[u8], mask: u8)
        requires t_below { t < self.old.sessions }
        requires a_code_each { length codes.now ≡ length numbers.now }
        requires within { EachIndex numbers.now (λ k.
            (1 ≤ slice_index numbers.now k) × (slice_index numbers.now k ≤ self.old.sessions)) }
        ensures sessions { self.new.sessions ≡ self.old.sessions }
        ensures pairs { (a b : ℕ) → pairs_of self.new a b
            ≡ (pairs_of self.old a b || ((a == t) && (not (b == t) && is_met mask b numbers.now codes.now))) }
    {
        self.matrix.set_met(t, numbers, codes, mask);
        set(&mut self.waiting, t);
        self.search.forget();
    }

    /// Removes all edges from the session at position `t`: it waits for nobody. Edges to it stay.
    pub fn clear_row(&mut self, t: usize)
        requires { t < self.old.sessions }
        ensures sessions { self.new.sessions ≡ self.old.sessions }
        ensures pairs { (a b : ℕ) →
            pairs_of self.new a b ≡ (pairs_of self.old a b && not (a == t)) }
    {
        self.matrix.clear_row(t);
        unset(&mut self.waiting, t);
    }

    /// Adds an edge from the session at position `t` to each session that the session at position `u` waits for
    /// directly.
    pub fn wait_as(&mut self, t: usize, u: usize)
        requires t_below { t < self.old.sessions }
        requires u_below { u < self.old.sessions }
        ensures sessions { self.new.sessions ≡ self.old.sessions }
        ensures pairs { (a b : ℕ) →
            pairs_of self.new a b ≡ (pairs_of self.old a b || ((a == t) && pairs_of self.old u b)) }
    {
        self.matrix.wait_as(t, u);
        set(&mut self.waiting, t);
        self.search.forget();
    }

    /// Whether the session at position `t` waits directly for the session at position `u`.
    pub fn waits(&self, t: usize, u: usize) -> bool
        requires t_below { t < self.now.sessions }
        requires u_below { u < self.now.sessions }
        ensures pairs { result ≡ pairs_of self.now t u }
    {
        has(self.matrix.row(t), u)
    }

    /// The least position, `from` or behind it, of a session that the session at position `t` waits for directly and that isn't
    /// marked. `None` if there is none.
    ///
    /// Reads a word for each 64 sessions from `from` up to the one that is found.
    pub fn first_unmarked(&self, t: usize, from: usize, marks: &Marks) -> Option<usize>
        requires t_below { t < self.now.sessions }
        requires sessions { marks.now.sessions ≡ self.now.sessions }
        ensures some { IfSome result (λ u. (from ≤ u) × (pairs_of self.now t u ≡ true) × (is_marked marks.now u ≡ false)) }
        ensures least { IfSome result (λ u. (j : ℕ) → from ≤ j → j < u → pairs_of self.now t j ≡ true → is_marked marks.now j ≡ true) }
        ensures none { IfNone result ((j : ℕ) → from ≤ j → pairs_of self.now t j ≡ true → is_marked marks.now j ≡ true) }
    {
        let sessions = self.matrix.sessions() as usize;
        if from >= sessions {
            return None;
        }
        let u = next_new(self.matrix.row(t), marks.words(), from, sessions);
        if u < sessions { Some(u) } else { None }
    }

    /// Whether the session at position `t` waits for the session at position `u`, directly or through others. A
    /// session reaches itself only if it is on a cycle.
    pub fn reaches(&mut self, t: usize, u: usize) -> bool
        requires t_below { t < self.old.sessions }
        requires u_below { u < self.old.sessions }
        ensures walk { IsTrue result ↔ Reaches (pairs_of self.old) t u }
        ensures same { self.new ≡ self.old }
    {
        self.search.reaches(&self.matrix, &self.waiting, t, u)
    }

    /// Whether the session at position `t` is on a cycle, so in a deadlock.
    pub fn on_circle(&mut self, t: usize) -> bool
        requires { t < self.old.sessions }
        ensures circle { IsTrue result ↔ Reaches (pairs_of self.old) t t }
        ensures same { self.new ≡ self.old }
    {
        self.reaches(t, t)
    }

    /// The victim for a deadlock of the session at position `t`: the youngest of all sessions on a cycle with it,
    /// and of two sessions of one age the one at the lesser position. `None` if that session is on no cycle.
    ///
    /// `ages[u]` is the number of the transaction of the session at position `u`, and 0 if it has none. The
    /// greatest age is the youngest transaction, the last to begin. That the youngest is the victim is this
    /// project's own choice.
    pub fn youngest_on_circle(&mut self, t: usize, ages: &[u64]) -> Option<usize>
        requires t_below { t < self.old.sessions }
        requires an_age_each { length ages.now ≡ self.old.sessions }
        ensures on_circle { IsSome result ↔ Reaches (pairs_of self.old) t t }
        ensures youngest { IfSome result (IsYoungestOnCircle (pairs_of self.old) ages.now t) }
        ensures same { self.new ≡ self.old }
    {
        // on a cycle, `t` waits directly for a session that waits, and a session for `t`: most waits end here
        if !have_common(self.matrix.row(t), &self.waiting) {
            return None;
        }
        if !self.search.keeps(t) && !is_waited_for(&self.matrix, &self.waiting, t) {
            return None;
        }
        self.search.youngest(&self.matrix, &self.waiting, t, ages)
    }
}

/// Contracts see nothing of a [`Rows`] but its number of sessions and its edges: two graphs that are equal in both
/// are equal.
pub fn rows_are_their_pairs(a: &Rows, b: &Rows)
    requires sessions { a.now.sessions ≡ b.now.sessions }
    requires pairs { (t u : ℕ) → pairs_of a.now t u ≡ pairs_of b.now t u }
    ensures { a.now ≡ b.now }
{
    let _ = a.matrix.sessions();
    let _ = b.matrix.sessions();
}
