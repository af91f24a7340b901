//! What a lock table tells of the deadlocks that it resolves.

use crate::table::LockTable;

/// Notes of the deadlocks of a lock table. Who serves calls passes them along, and the table tells them each deadlock before its victim
/// is doomed.
pub trait DeadlockNotes {
    ghost use Rattle.std.specs.Prelude.{◌≡◌, ℕ, ◌-◌, ◌≤◌, ◌⊎◌, List, [], ◌∷◌, length, vec_len};
    ghost use Rattle.waits_for.specs.Pairs.{pairs_of};
    ghost use Rattle.waits_for.specs.Walks.{Reaches};
    ghost use Rattle.lock_rules.specs.State.{State};
    ghost use Rattle.lock_rules.specs.Sound.{IsSound};
    ghost use Rattle.lock_rules.specs.Waits.{victim_of};
    ghost use Rattle.lock_table.specs.Deadlocks.{Moment, moments_at};
    ghost use Rattle.lock_table.specs.Noting.{AreChosen, IsNotedAhead};
    ghost use Rattle.lock_table.specs.Changes.{MayServe};
    ghost use Rattle.lock_table.specs.Shows.{Shows};

    // These are notes of a table with so many sessions.
    ghost fits: { ℕ → Self → Type 0 };

    // From the first notes to the second, these deadlocks were noted.
    ghost noted: { List Moment → Self → Self → Type 0 };

    /// At least how many victims the call of `session` makes in the rounds that are left, `rounds` of them, after it `made` some, if `known`
    /// are known to come. Who keeps only the newest deadlocks looks ahead with it.
    fn coming(
        &mut self,
        table: &LockTable,
        session: u16,
        made: usize,
        rounds: usize,
        known: usize,
    ) -> usize
        requires may_serve { MayServe session table.now }
        requires fits { fits (vec_len table.now.lockers) self.old }
        ensures same { self.new ≡ self.old }
        ensures known { known ≤ result }
        ensures chosen { (result ≡ known) ⊎ ((vs : List ℕ) × AreChosen (pairs_of table.now.waits.rows) table.now.waits.numbers.items (session - 1) vs
            × (length vs ≡ result) × (result ≤ rounds)) };

    /// Notes the deadlock of `session`, whose call has the place `place` in the history, before `victim` is doomed. With it, at least
    /// `coming` deadlocks of this call come.
    fn note(&mut self, table: &LockTable, place: u64, session: u16, victim: u16, coming: usize)
        requires may_serve { MayServe victim table.now }
        requires fits { fits (vec_len table.now.lockers) self.old }
        requires cycle { Reaches (pairs_of table.now.waits.rows) (victim - 1) (victim - 1) }
        ensures fits { fits (vec_len table.now.lockers) self.new }
        ensures noted { (st : State) → IsSound st.table → Shows table.now st → victim_of st session ≡ victim
            → IsNotedAhead noted (coming - 1) (moments_at place session (st ∷ [])) self.old self.new };

    // Where nothing was told, nothing was noted.
    ghost none: { (notes : Self) → noted [] notes notes };
}
