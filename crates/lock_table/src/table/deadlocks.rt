//! Deadlocks: dooms a victim on each cycle of the waits-for graph, and lists the sessions whose wait that ends.

ghost use Rattle.std.specs.Prelude.{◌≡◌, ◌+◌, vec_len};
ghost use Rattle.lock_rules.specs.State.{State};
ghost use Rattle.lock_rules.specs.Waits.{after_victims};
ghost use Rattle.lock_rules.specs.Sound.{IsNumbered, IsSound};
ghost use Rattle.lock_table.specs.Deadlocks.{deadlocked_states, moments_at};
ghost use Rattle.lock_table.specs.Changes.{DoesKeep, MayServe, HasCancelled, HasDoomed, HasNotedEnded};
ghost use Rattle.lock_table.specs.Shows.{Shows};

use crate::deadlock_notes::DeadlockNotes;
use crate::table::LockTable;
use crate::wait_graph::victim;
use lock_holders::position_of;

impl LockTable {
    /// Ends the wait of `session`, if it waits, by the call of another: removes its request, and lists the session.
    fn end_wait(&mut self, session: u16)
        requires may_serve { MayServe session self.old }
        ensures cancelled { HasCancelled session self.old self.new }
        ensures waits_ended { HasNotedEnded 0 self.old self.new }
        ensures kept { DoesKeep self.old self.new }
    {
        if self.cancel(session) {
            self.ended.add(session);
        }
    }

    /// Makes the transaction of `session` a deadlock's victim: removes its waiting request, lists it among the ended
    /// waits, and marks it doomed. It keeps its locks.
    fn doom(&mut self, session: u16)
        requires may_serve { MayServe session self.old }
        ensures doomed { HasDoomed session self.old self.new }
        ensures waits_ended { HasNotedEnded 0 self.old self.new }
        ensures kept { DoesKeep self.old self.new }
    {
        self.end_wait(session);
        let locker = &mut self.lockers[position_of(session)];
        locker.doom();
    }

    /// Dooms victims until `session` is on no cycle of the waits-for graph.
    ///
    /// Each victim is the youngest transaction on a cycle with `session`. A victim waited before and doesn't wait
    /// any more, so there are at most as many victims as sessions, and the last round finds no cycle. Notes the deadlock of
    /// each victim in `notes`; `place` is the place of the call in the history.
    fn resolve_deadlocks<N: DeadlockNotes>(&mut self, session: u16, place: u64, notes: &mut N)
        requires may_serve { MayServe session self.old }
        requires fits { N.fits (vec_len self.old.lockers) notes.old }
        ensures settled { (st : State) → IsSound st.table → IsNumbered st → Shows self.old st
            → Shows self.new (after_victims (vec_len self.old.lockers + 1) session st) }
        ensures count { self.new.count ≡ self.old.count }
        ensures kept { DoesKeep self.old self.new }
        ensures waits_ended { HasNotedEnded 0 self.old self.new }
        ensures fits { N.fits (vec_len self.old.lockers) notes.new }
        ensures noted { (st : State) → IsSound st.table → IsNumbered st → Shows self.old st
            → N.noted (moments_at place session (deadlocked_states (vec_len self.old.lockers + 1) session st)) notes.old notes.new }
    {
        let rounds = self.lockers.len() + 1;
        let mut coming = 0;
        for round in 0..rounds {
            let Some(chosen) = victim(&mut self.waits, session) else {
                return;
            };
            coming = notes.coming(self, session, round, rounds - round, coming);
            notes.note(self, place, session, chosen, coming);
            coming = coming.saturating_sub(1);
            self.doom(chosen);
        }
    }

    /// Resolves the deadlocks of `session`, which calls: its own wait isn't noted, if it ends.
    #[inline(never)]
    pub(super) fn resolve_for<N: DeadlockNotes>(&mut self, session: u16, place: u64, notes: &mut N)
        requires may_serve { MayServe session self.old }
        requires fits { N.fits (vec_len self.old.lockers) notes.old }
        ensures settled { (st : State) → IsSound st.table → IsNumbered st → Shows self.old st
            → Shows self.new (after_victims (vec_len self.old.lockers + 1) session st) }
        ensures waits_ended { HasNotedEnded session self.old self.new }
        ensures count { self.new.count ≡ self.old.count }
        ensures kept { DoesKeep self.old self.new }
        ensures fits { N.fits (vec_len self.old.lockers) notes.new }
        ensures noted { (st : State) → IsSound st.table → IsNumbered st → Shows self.old st
            → N.noted (moments_at place session (deadlocked_states (vec_len self.old.lockers + 1) session st)) notes.old notes.new }
    {
        let was_ended = self.ended.has(session);
        self.resolve_deadlocks(session, place, notes);
        if !was_ended {
            self.ended.remove(session);
        }
    }
}
