//! The search for a cycle through a session, nearest sessions first, which is written out in order.
//!
//! Proved: a cycle is found exactly if the session is on one, each session of it waits for the next and the last for the first, none is
//! there twice, and no cycle through the session is shorter. Not said by any clause: the time of a search, which reads the row of each
//! session that it meets at most once.

ghost use Rattle.std.specs.Prelude.{◌≡◌, ◌<◌, ◌≤◌, ◌↔◌, ℕ, true, false, List, [], length, slice_index_or, nat_eq, vec_capacity, IfOk, IfNone, IfSome, IsTrue};
ghost use Rattle.std.specs.List.{list_any};
ghost use Rattle.waits_for.specs.Pairs.{pairs_of};
ghost use Rattle.waits_for.specs.Marks.{Marking};
ghost use Rattle.waits_for.specs.Walks.{Reaches};
ghost use Rattle.waits_for.specs.Cycles.{IsCycle};
ghost use Rattle.waits_for.specs.inner.CycleMeeting.{IsMeeting, IsLookedAt, HasKept};

use crate::marks::Marks;
use crate::rows::Rows;
use crate::{MAX_SESSIONS, NoMemory};
use std::alloc::Global;
use std::marker::Model;

/// A search for cycles of a waits-for graph, with the memory that it needs. Contracts see its number of sessions and the
/// cycle that it found last.
///
/// Only [`CycleSearch::new`] allocates memory.
#[derive(Drop)]
pub struct CycleSearch {
    /// The number of sessions.
    sessions: u16,
    /// Scratch: the positions that are met: first the one asked for, then those that it reaches, nearest first.
    met: Vec<usize>,
    /// Scratch: for each of them but the first, the index in `met` of one that waits for it directly.
    parents: Vec<usize>,
    /// Scratch: the positions that are met, as a set.
    marks: Marks,
    /// The positions on the cycle that was found last, in order.
    cycle: Vec<usize>,
}

impl Model for CycleSearch {
    ghost use Rattle.waits_for.specs.CycleView.{CycleView};
    ghost use Rattle.waits_for.specs.inner.CycleRoom.{view_of, HasRoom};

    ghost Value = { CycleView };

    ghost view = { view_of };

    ghost invariant = { HasRoom };
}

/// Adds the positions that `met[at]` waits for directly to those met.
fn meet_waited_for(
    rows: &Rows,
    at: usize,
    met: &mut Vec<usize>,
    parents: &mut Vec<usize>,
    marks: &mut Marks,
)
    requires at_below { at < length met.old.items }
    requires sessions { marks.old.sessions ≡ rows.now.sessions }
    requires met_room { rows.now.sessions ≤ vec_capacity met.old }
    requires parents_room { rows.now.sessions ≤ vec_capacity parents.old }
    requires meeting { IsMeeting rows.now met.old.items parents.old.items marks.old }
    requires behind { (j : ℕ) → j < length met.old.items → slice_index_or parents.old.items j 0 ≤ at }
    ensures meeting { IsMeeting rows.now met.new.items parents.new.items marks.new }
    ensures behind { (j : ℕ) → j < length met.new.items → slice_index_or parents.new.items j 0 ≤ at }
    ensures met { HasKept met.old.items met.new.items }
    ensures parents { HasKept parents.old.items parents.new.items }
    ensures all { (u : ℕ) → pairs_of rows.now (slice_index_or met.old.items at 0) u ≡ true → list_any (nat_eq u) met.new.items ≡ true }
    ensures sessions { marks.new.sessions ≡ marks.old.sessions }
    ensures met_room { vec_capacity met.new ≡ vec_capacity met.old }
    ensures parents_room { vec_capacity parents.new ≡ vec_capacity parents.old }
{
    let position = met[at];
    let mut from = 0;
    while let Some(u) = rows.first_unmarked(position, from, marks) {
        marks.mark(u);
        met.push_reserved(u);
        parents.push_reserved(at);
        from = u + 1;
    }
}

/// Meets the positions that position `t` reaches, nearest first, until one of them waits directly for `t`, and returns the
/// index of this one in `met`. `None` if `t` is on no cycle.
fn search(
    rows: &Rows,
    t: usize,
    met: &mut Vec<usize>,
    parents: &mut Vec<usize>,
    marks: &mut Marks,
) -> Option<usize>
    requires t_below { t < rows.now.sessions }
    requires sessions { marks.old.sessions ≡ rows.now.sessions }
    requires met_room { rows.now.sessions ≤ vec_capacity met.old }
    requires parents_room { rows.now.sessions ≤ vec_capacity parents.old }
    ensures meeting { IsMeeting rows.now met.new.items parents.new.items marks.new }
    ensures first { slice_index_or met.new.items 0 0 ≡ t }
    ensures within { IfSome result (λ at. at < length met.new.items) }
    ensures closed { IfSome result (λ at. pairs_of rows.now (slice_index_or met.new.items at 0) t ≡ true) }
    ensures looked { IfSome result (λ at. IsLookedAt rows.now t met.new.items parents.new.items at) }
    ensures none { IfNone result (Reaches (pairs_of rows.now) t t → ⊥) }
    ensures sessions { marks.new.sessions ≡ marks.old.sessions }
    ensures met_room { vec_capacity met.new ≡ vec_capacity met.old }
    ensures parents_room { vec_capacity parents.new ≡ vec_capacity parents.old }
{
    met.clear();
    parents.clear();
    marks.clear();
    marks.mark(t);
    met.push_reserved(t);
    parents.push_reserved(0);
    let mut at = 0;
    while at < met.len() {
        if rows.waits(met[at], t) {
            return Some(at);
        }
        meet_waited_for(rows, at, met, parents, marks);
        at += 1;
    }
    None
}

/// Replaces the contents of `cycle` by the first position that is met, then those by which the search came to `met[found]`,
/// and this one last.
fn follow(rows: &Rows, found: usize, met: &[usize], parents: &[usize], cycle: &mut Vec<usize>)
    requires found { found < length met.now }
    requires closed { pairs_of rows.now (slice_index_or met.now found 0) (slice_index_or met.now 0 0) ≡ true }
    requires room { rows.now.sessions ≤ vec_capacity cycle.old }
    requires meeting { (marks : Marking) × IsMeeting rows.now met.now parents.now marks }
    requires looked { IsLookedAt rows.now (slice_index_or met.now 0 0) met.now parents.now found }
    ensures cycle { IsCycle (pairs_of rows.now) (slice_index_or met.now 0 0) cycle.new.items }
    ensures shortest { (other : List ℕ) → IsCycle (pairs_of rows.now) (slice_index_or met.now 0 0) other
        → length cycle.new.items ≤ length other }
    ensures room { vec_capacity cycle.new ≡ vec_capacity cycle.old }
{
    cycle.clear();
    let mut at = found;
    while at > 0 {
        cycle.push_reserved(met[at]);
        at = parents[at];
    }
    cycle.push_reserved(met[0]);
    cycle.reverse();
}

impl CycleSearch {
    /// A search for graphs of `sessions` sessions, with no cycle found. Fails only with `NoMemory`.
    pub fn new(alloc: Global, sessions: u16) -> Result<CycleSearch, NoMemory>
        requires few { sessions ≤ MAX_SESSIONS }
        ensures sessions { IfOk result (λ search. search.sessions ≡ sessions) }
        ensures none { IfOk result (λ search. search.cycle ≡ []) }
    {
        let met = Vec::with_capacity(alloc, sessions as usize)?;
        let parents = Vec::with_capacity(alloc, sessions as usize)?;
        let marks = Marks::new(alloc, sessions)?;
        let cycle = Vec::with_capacity(alloc, sessions as usize)?;
        Ok(CycleSearch {
            sessions,
            met,
            parents,
            marks,
            cycle,
        })
    }

    /// Looks for a cycle through the session at position `t`, which `cycle` then has. Returns whether there is one.
    ///
    /// Reads the row of `t`, and of each session that `t` reaches, at most once.
    pub fn find(&mut self, rows: &Rows, t: usize) -> bool
        requires t_below { t < rows.now.sessions }
        requires sessions { rows.now.sessions ≡ self.old.sessions }
        ensures found { IsTrue result ↔ Reaches (pairs_of rows.now) t t }
        ensures cycle { result ≡ true → IsCycle (pairs_of rows.now) t self.new.cycle }
        ensures shortest { result ≡ true → (other : List ℕ) → IsCycle (pairs_of rows.now) t other → length self.new.cycle ≤ length other }
        ensures sessions { self.new.sessions ≡ self.old.sessions }
    {
        let found = search(rows, t, &mut self.met, &mut self.parents, &mut self.marks);
        let Some(at) = found else {
            return false;
        };
        follow(rows, at, &self.met, &self.parents, &mut self.cycle);
        true
    }

    /// The positions on the cycle that was found last: the one that was asked for, then for each the one that it waits for.
    pub fn cycle(&self) -> &[usize]
        ensures { result.now ≡ self.now.cycle }
    {
        &self.cycle
    }
}
