//! The search for the circle of a session, with the memory that it needs, and the circle that was found last.

ghost use Rattle.std.specs.Prelude.{◌≡◌, ℕ, ◌+◌, ◌<◌, ◌↔◌, true, ◌==◌, IfOk, IfSome, IsSome, IsTrue, length};
ghost use Rattle.waits_for.specs.Pairs.{pairs_of};
ghost use Rattle.waits_for.specs.Walks.{Reaches, AreOnCircle, IsYoungestOnCircle};
ghost use Rattle.waits_for.specs.inner.Bits.{has_bit, words_for};
ghost use Rattle.waits_for.specs.inner.Search.{HasAllWaiting, HasSearched};

use crate::NoMemory;
use crate::bits::{has, have_common, words_for};
use crate::choice::{youngest_at_hand, youngest_in};
use crate::matrix::Matrix;
use crate::search::{Links, find_reached, keep_on_circle, search_depth_first};
use mode_lanes::and_into;
use std::alloc::Global;
use std::marker::Model;

/// A search for circles of a waits-for graph, with the memory that it needs. It keeps the circle that it found last.
/// Contracts see the number of sessions and what is kept.
///
/// Only [`CircleSearch::new`] allocates memory.
#[derive(Drop)]
pub(crate) struct CircleSearch {
    /// The number of sessions.
    sessions: u16,
    /// Scratch: the sessions that a search has reached.
    reached: Vec<u64>,
    /// Scratch: the sessions whose rows a search has added, or those that wait and that it hasn't met.
    marked: Vec<u64>,
    /// Scratch: the stack of a search.
    stack: Vec<usize>,
    /// The session number of whom `circle` still has all sessions on a circle with it, though it may have more: since
    /// the search for its circle no edge was added. 0 for none.
    searched: usize,
    /// The sessions on a circle, as the last search found them.
    circle: Vec<u64>,
    /// For each session on that circle, the steps by which the search came to it and went on.
    links: Vec<Links>,
}

impl Model for CircleSearch {
    ghost use Rattle.std.specs.Prelude.{◌≡◌, length};
    ghost use Rattle.waits_for.specs.inner.Bits.{words_for};
    ghost use Rattle.waits_for.specs.inner.CircleSearch.{Searched};

    ghost Value = { Searched };

    ghost view = { λ s. record { sessions = s.sessions; searched = s.searched; circle = s.circle.items } };

    ghost invariant = { λ s.
        (length s.reached.items ≡ words_for s.sessions)
        × (length s.marked.items ≡ words_for s.sessions)
        × (length s.stack.items ≡ s.sessions)
        × (length s.circle.items ≡ words_for s.sessions)
        × (length s.links.items ≡ s.sessions) };
}

impl CircleSearch {
    /// A search for graphs of `sessions` sessions, with no circle kept. Fails only with `NoMemory`.
    pub(crate) fn new(alloc: Global, sessions: u16) -> Result<CircleSearch, NoMemory>
        ensures sessions { IfOk result (λ search. search.sessions ≡ sessions) }
        ensures none { IfOk result (λ search. search.searched ≡ 0) }
    {
        let reached = vec![in alloc; 0; words_for(sessions)]?;
        let marked = vec![in alloc; 0; words_for(sessions)]?;
        let stack = vec![in alloc; 0; sessions as usize]?;
        let circle = vec![in alloc; 0; words_for(sessions)]?;
        let links = vec![in alloc; Links { hop: 0, parent: 0 }; sessions as usize]?;
        Ok(CircleSearch {
            sessions,
            reached,
            marked,
            stack,
            searched: 0,
            circle,
            links,
        })
    }

    /// Keeps no circle: an edge was added.
    pub(crate) fn forget(&mut self)
        ensures sessions { self.new.sessions ≡ self.old.sessions }
        ensures none { self.new.searched ≡ 0 }
    {
        self.searched = 0;
    }

    /// Whether the circle that is kept is that of position `t`.
    pub(crate) fn keeps(&self, t: usize) -> bool
        requires { t < self.now.sessions }
        ensures { result ≡ (self.now.searched == t + 1) }
    {
        self.searched == t + 1
    }

    /// Whether position `t` reaches position `u`.
    pub(crate) fn reaches(&mut self, matrix: &Matrix, waiting: &[u64], t: usize, u: usize) -> bool
        requires sessions { self.old.sessions ≡ matrix.now.sessions }
        requires t_below { t < matrix.now.sessions }
        requires u_below { u < matrix.now.sessions }
        requires waiting_room { length waiting.now ≡ words_for matrix.now.sessions }
        requires waiting { HasAllWaiting (pairs_of matrix.now) waiting.now }
        ensures walk { IsTrue result ↔ Reaches (pairs_of matrix.now) t u }
        ensures same { self.new ≡ self.old }
    {
        find_reached(matrix, waiting, t, &mut self.reached, &mut self.marked);
        has(&self.reached, u)
    }

    /// The youngest session on a cycle with position `t`, and of two of one age the one at the lesser position. `None`
    /// if `t` is on no cycle.
    ///
    /// If a circle is kept for a session, it has every session on a cycle with it, before and after.
    #[inline(never)]
    pub(crate) fn youngest(
        &mut self,
        matrix: &Matrix,
        waiting: &[u64],
        t: usize,
        ages: &[u64],
    ) -> Option<usize>
        requires sessions { self.old.sessions ≡ matrix.now.sessions }
        requires t_below { t < matrix.now.sessions }
        requires waiting_room { length waiting.now ≡ words_for matrix.now.sessions }
        requires waiting { HasAllWaiting (pairs_of matrix.now) waiting.now }
        requires an_age_each { length ages.now ≡ matrix.now.sessions }
        requires searched { HasSearched (pairs_of matrix.now) self.old.searched self.old.circle }
        ensures on_circle { IsSome result ↔ Reaches (pairs_of matrix.now) t t }
        ensures youngest { IfSome result (IsYoungestOnCircle (pairs_of matrix.now) ages.now t) }
        ensures searched { HasSearched (pairs_of matrix.now) self.new.searched self.new.circle }
        ensures sessions { self.new.sessions ≡ self.old.sessions }
    {
        if self.searched == t + 1 {
            // who waits no more is on no cycle
            and_into(&mut self.circle, waiting);
            if !have_common(matrix.row(t), &self.circle) {
                return None;
            }
            if let Some(v) = youngest_at_hand(matrix, t, &self.circle, &self.links, ages) {
                return Some(v);
            }
        }
        self.searched = 0;
        if !self.find(matrix, waiting, t) {
            return None;
        }
        self.searched = t + 1;
        youngest_in(&self.circle, ages)
    }

    /// Finds the sessions on a cycle with position `t`, and returns whether there are any. If there are, they are the
    /// bits of `circle`.
    fn find(&mut self, matrix: &Matrix, waiting: &[u64], t: usize) -> bool
        requires sessions { self.old.sessions ≡ matrix.now.sessions }
        requires t_below { t < matrix.now.sessions }
        requires waiting_room { length waiting.now ≡ words_for matrix.now.sessions }
        requires waiting { HasAllWaiting (pairs_of matrix.now) waiting.now }
        ensures found { IsTrue result ↔ Reaches (pairs_of matrix.now) t t }
        ensures circle { result ≡ true →
            (u : ℕ) → IsTrue (has_bit self.new.circle u) ↔ AreOnCircle (pairs_of matrix.now) t u }
        ensures sessions { self.new.sessions ≡ self.old.sessions }
        ensures searched { self.new.searched ≡ self.old.searched }
    {
        self.marked.copy_from_slice(waiting);
        search_depth_first(
            matrix,
            t,
            &mut self.marked,
            &mut self.circle,
            &mut self.stack,
            &mut self.links,
        );
        keep_on_circle(
            matrix,
            waiting,
            t,
            &mut self.reached,
            &self.marked,
            &mut self.circle,
        )
    }
}
