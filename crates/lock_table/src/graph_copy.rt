//! A copy of the waits-for graph, on which a call looks ahead how many victims it makes.

ghost use Rattle.std.specs.Prelude.{◌≡◌, ℕ, ◌<◌, ◌≤◌, ◌==◌, false, if◌then◌else◌, List, length, IfOk};
ghost use Rattle.waits_for.specs.Pairs.{pairs_of};
ghost use Rattle.waits_for.specs.Marks.{is_marked};
ghost use Rattle.lock_table.specs.Noting.{AreChosen, IsCopyFor};

use std::alloc::{AllocError, Global};
use waits_for::{MAX_SESSIONS, Marks, Rows};

/// Memory for a copy of the waits-for graph.
#[derive(Drop)]
pub struct GraphCopy {
    /// The edges of the copy.
    rows: Rows,
    /// No session is marked.
    unmarked: Marks,
}

/// Replaces the edges from the session at position `t` in `copy` by those in `rows`.
fn copy_row(rows: &Rows, t: usize, unmarked: &Marks, copy: &mut Rows)
    requires few { rows.now.sessions ≤ MAX_SESSIONS }
    requires t_below { t < rows.now.sessions }
    requires sessions { copy.old.sessions ≡ rows.now.sessions }
    requires marks { unmarked.now.sessions ≡ rows.now.sessions }
    requires none { (u : ℕ) → is_marked unmarked.now u ≡ false }
    ensures sessions { copy.new.sessions ≡ copy.old.sessions }
    ensures pairs { (a b : ℕ) → pairs_of copy.new a b ≡ (if a == t then pairs_of rows.now t b else pairs_of copy.old a b) }
{
    copy.clear_row(t);
    let mut from = 0;
    while let Some(u) = rows.first_unmarked(t, from, unmarked) {
        copy.set(t, u);
        from = u + 1;
    }
}

/// Replaces all edges of `copy` by those of `rows`.
fn copy_rows(rows: &Rows, unmarked: &Marks, copy: &mut Rows)
    requires few { rows.now.sessions ≤ MAX_SESSIONS }
    requires sessions { copy.old.sessions ≡ rows.now.sessions }
    requires marks { unmarked.now.sessions ≡ rows.now.sessions }
    requires none { (u : ℕ) → is_marked unmarked.now u ≡ false }
    ensures sessions { copy.new.sessions ≡ copy.old.sessions }
    ensures pairs { pairs_of copy.new ≡ pairs_of rows.now }
{
    for t in 0..rows.sessions() as usize {
        copy_row(rows, t, unmarked, copy);
    }
}

/// Chooses victims for the session at position `t`, `most` at most, and removes the edges from each. Returns how many they were.
fn choose(rows: &mut Rows, ages: &[u64], t: usize, most: usize) -> usize
    requires t_below { t < rows.old.sessions }
    requires an_age_each { length ages.now ≡ rows.old.sessions }
    ensures sessions { rows.new.sessions ≡ rows.old.sessions }
    ensures few { result ≤ most }
    ensures chosen { (vs : List ℕ) × AreChosen (pairs_of rows.old) ages.now t vs × (length vs ≡ result) }
{
    for count in 0..most {
        let Some(chosen) = rows.youngest_on_circle(t, ages) else {
            return count;
        };
        rows.clear_row(chosen);
    }
    most
}

impl GraphCopy {
    /// Memory for a graph of `sessions` sessions. Fails if memory is refused.
    pub fn new(alloc: Global, sessions: u16) -> Result<GraphCopy, AllocError>
        requires some { 1 ≤ sessions }
        requires few { sessions ≤ MAX_SESSIONS }
        ensures ready { IfOk result (IsCopyFor sessions) }
    {
        Ok(GraphCopy {
            rows: Rows::new(alloc, sessions)?,
            unmarked: Marks::new(alloc, sessions)?,
        })
    }

    /// Counts the victims that would be chosen for the session at position `t` of this graph, `most` at most, if the end of a victim's
    /// wait changed nothing but the edges from it. A grant that it brings about ends no cycle, so that they are those that will be chosen.
    pub(crate) fn count_victims(
        &mut self,
        rows: &Rows,
        ages: &[u64],
        t: usize,
        most: usize,
    ) -> usize
        requires few { rows.now.sessions ≤ MAX_SESSIONS }
        requires ready { IsCopyFor rows.now.sessions self.old }
        requires t_below { t < rows.now.sessions }
        requires an_age_each { length ages.now ≡ rows.now.sessions }
        ensures ready { IsCopyFor rows.now.sessions self.new }
        ensures few { result ≤ most }
        ensures chosen { (vs : List ℕ) × AreChosen (pairs_of rows.now) ages.now t vs × (length vs ≡ result) }
    {
        copy_rows(rows, &self.unmarked, &mut self.rows);
        choose(&mut self.rows, ages, t, most)
    }
}
