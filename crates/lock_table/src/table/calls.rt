//! The calls of the lock table, each of them one step of the sequential lock manager: its tests, and its effect if no
//! test fails.

ghost use Rattle.std.specs.Prelude.{◌≡◌, ◌+◌, ◌<◌, ◌≤◌, IfOk, OnErr, vec_len};
ghost use Rattle.lock_rules.specs.declared.calls.Call.TheVariants.{Begin, Lock, Convert, Poll, Release, Commit, Abort, Try, Withdraw, Restart};
ghost use Rattle.lock_rules.specs.State.{State};
ghost use Rattle.lock_rules.specs.Step.{step};
ghost use Rattle.lock_rules.specs.Sound.{IsNumbered, IsSound};
ghost use Rattle.lock_table.specs.Deadlocks.{deadlocks_of, moments_at};
ghost use Rattle.lock_table.specs.inner.Cells.{IsPlace};
ghost use Rattle.lock_table.specs.Changes.{DoesKeep, MayServe, IsSameSeen, HasNotedEnded};
ghost use Rattle.lock_table.specs.Shows.{Shows, DoesAnswer};

use crate::deadlock_notes::DeadlockNotes;
use crate::table::LockTable;
use crate::table::requests::LookedUp;
use lock_holders::position_of;
use lock_modes::Mode;
use lock_rules::{Reply, Why};
use lock_tree::Resource;
use std::alloc::AllocError;

impl LockTable {
    /// The place of the cell of `resource`, if it has one. If not, and without taking memory, enters the resource as
    /// a key that a grant can use without another look-up.
    fn find_or_insert_key(&mut self, resource: Resource) -> Option<usize>
        ensures place { IsPlace resource self.old.cells.entries result }
        ensures same { self.new ≡ self.old }
    {
        self.cells.find_or_insert_key(resource)
    }

    /// The likely place of the cell of `resource`, which `session` converts: a guess, if there is one. Nothing that
    /// contracts see changes.
    fn likely_converted(&mut self, session: u16, resource: Resource) -> Option<usize>
        requires may_serve { MayServe session self.old }
        ensures same { IsSameSeen self.old self.new }
        ensures kept { DoesKeep self.old self.new }
    {
        let locker = &mut self.lockers[position_of(session)];
        locker.likely_converted(resource)
    }

    /// Prepares the locker of `session` for a release: a long list of locks gets an index. Nothing that contracts
    /// see changes.
    fn index(&mut self, session: u16)
        requires may_serve { MayServe session self.old }
        ensures same { IsSameSeen self.old self.new }
        ensures kept { DoesKeep self.old self.new }
    {
        let locker = &mut self.lockers[position_of(session)];
        locker.index();
    }

    /// Begins a transaction. Refused if the session has one.
    pub fn serve_begin(&mut self, session: u16) -> Reply
        requires may_serve { MayServe session self.old }
        requires room { self.old.count < 18446744073709551615 }
        ensures step { (st : State) → IsSound st.table → IsNumbered st → Shows self.old st
            → DoesAnswer (step st session Begin) self.new result }
        ensures waits_ended { HasNotedEnded session self.old self.new }
        ensures count { self.new.count ≤ self.old.count + 1 }
        ensures kept { DoesKeep self.old self.new }
    {
        if self.locker(session).is_open() {
            return Reply::Refused(Why::AlreadyOpen);
        }
        Reply::Began(self.begin(session))
    }

    /// Requests a lock on `resource`, in the least mode at or above `mode` and what the session holds there. If
    /// memory is refused, nothing that contracts see changes.
    pub fn serve_lock<N: DeadlockNotes>(
        &mut self,
        session: u16,
        resource: Resource,
        mode: Mode,
        served: u64,
        notes: &mut N,
    ) -> Result<Reply, AllocError>
        requires may_serve { MayServe session self.old }
        requires fits { N.fits (vec_len self.old.lockers) notes.old }
        ensures step { (st : State) → IsSound st.table → IsNumbered st → Shows self.old st
            → IfOk result (DoesAnswer (step st session (Lock resource mode)) self.new) }
        ensures err { OnErr result (IsSameSeen self.old self.new) }
        ensures waits_ended { HasNotedEnded session self.old self.new }
        ensures count { self.new.count ≤ self.old.count + 1 }
        ensures kept { DoesKeep self.old self.new }
        ensures fits { N.fits (vec_len self.old.lockers) notes.new }
        ensures noted { (st : State) → IsSound st.table → IsNumbered st → Shows self.old st
            → IfOk result (λ _. N.noted (moments_at served session (deadlocks_of st session (Lock resource mode))) notes.old notes.new) }
        ensures unnoted { OnErr result (notes.new ≡ notes.old) }
    {
        if let Some(why) = self.idle_refusal(session) {
            return Ok(Reply::Refused(why));
        }
        let place = self.find_or_insert_key(resource);
        let held = self.cells.mode_at(place, session);
        if let Some(why) = self.lock_refusal(session, held, resource, mode) {
            return Ok(Reply::Refused(why));
        }
        let found = LookedUp {
            resource,
            place,
            held,
        };
        self.ask_lock(session, found, mode, served, notes)
    }

    /// Requests the conversion of a lock on `resource`, to the least mode at or above `mode` and what the session
    /// holds there. If memory is refused, nothing that contracts see changes.
    pub fn serve_convert<N: DeadlockNotes>(
        &mut self,
        session: u16,
        resource: Resource,
        mode: Mode,
        served: u64,
        notes: &mut N,
    ) -> Result<Reply, AllocError>
        requires may_serve { MayServe session self.old }
        requires fits { N.fits (vec_len self.old.lockers) notes.old }
        ensures step { (st : State) → IsSound st.table → IsNumbered st → Shows self.old st
            → IfOk result (DoesAnswer (step st session (Convert resource mode)) self.new) }
        ensures err { OnErr result (IsSameSeen self.old self.new) }
        ensures waits_ended { HasNotedEnded session self.old self.new }
        ensures count { self.new.count ≤ self.old.count + 1 }
        ensures kept { DoesKeep self.old self.new }
        ensures fits { N.fits (vec_len self.old.lockers) notes.new }
        ensures noted { (st : State) → IsSound st.table → IsNumbered st → Shows self.old st
            → IfOk result (λ _. N.noted (moments_at served session (deadlocks_of st session (Convert resource mode))) notes.old notes.new) }
        ensures unnoted { OnErr result (notes.new ≡ notes.old) }
    {
        let likely = self.likely_converted(session, resource);
        if let Some(why) = self.idle_refusal(session) {
            return Ok(Reply::Refused(why));
        }
        let place = match likely {
            Some(likely) => self.cells.place_near(likely, resource),
            None => self.cells.place_of(resource),
        };
        let held = self.cells.mode_at(place, session);
        if let Some(why) = self.convert_refusal(session, held, resource, mode) {
            return Ok(Reply::Refused(why));
        }
        let found = LookedUp {
            resource,
            place,
            held,
        };
        self.ask_lock(session, found, mode, served, notes)
    }

    /// Requests a lock as `serve_lock` does, but is refused if the request would wait. If memory is refused, nothing that
    /// contracts see changes.
    #[inline(never)]
    pub fn serve_try<N: DeadlockNotes>(
        &mut self,
        session: u16,
        resource: Resource,
        mode: Mode,
        served: u64,
        notes: &mut N,
    ) -> Result<Reply, AllocError>
        requires may_serve { MayServe session self.old }
        requires fits { N.fits (vec_len self.old.lockers) notes.old }
        ensures step { (st : State) → IsSound st.table → IsNumbered st → Shows self.old st
            → IfOk result (DoesAnswer (step st session (Try resource mode)) self.new) }
        ensures err { OnErr result (IsSameSeen self.old self.new) }
        ensures waits_ended { HasNotedEnded session self.old self.new }
        ensures count { self.new.count ≤ self.old.count + 1 }
        ensures kept { DoesKeep self.old self.new }
        ensures fits { N.fits (vec_len self.old.lockers) notes.new }
        ensures noted { (st : State) → IsSound st.table → IsNumbered st → Shows self.old st
            → IfOk result (λ _. N.noted (moments_at served session (deadlocks_of st session (Try resource mode))) notes.old notes.new) }
        ensures unnoted { OnErr result (notes.new ≡ notes.old) }
    {
        if let Some(why) = self.idle_refusal(session) {
            return Ok(Reply::Refused(why));
        }
        let place = self.find_or_insert_key(resource);
        let held = self.cells.mode_at(place, session);
        if let Some(why) = self.try_refusal(session, place, held, resource, mode) {
            return Ok(Reply::Refused(why));
        }
        let found = LookedUp {
            resource,
            place,
            held,
        };
        self.ask_lock(session, found, mode, served, notes)
    }

    /// Takes the session's waiting request back.
    pub fn serve_withdraw(&mut self, session: u16) -> Reply
        requires may_serve { MayServe session self.old }
        ensures step { (st : State) → IsSound st.table → IsNumbered st → Shows self.old st
            → DoesAnswer (step st session Withdraw) self.new result }
        ensures waits_ended { HasNotedEnded session self.old self.new }
        ensures count { self.new.count ≤ self.old.count + 1 }
        ensures kept { DoesKeep self.old self.new }
    {
        if let Some(why) = self.withdraw_refusal(session) {
            return Reply::Refused(why);
        }
        self.cancel(session);
        Reply::Withdrawn
    }

    /// Reports whether the session's transaction waits or is a deadlock's victim.
    pub fn serve_poll(&mut self, session: u16) -> Reply
        requires may_serve { MayServe session self.old }
        ensures step { (st : State) → IsSound st.table → IsNumbered st → Shows self.old st
            → DoesAnswer (step st session Poll) self.new result }
        ensures waits_ended { HasNotedEnded session self.old self.new }
        ensures count { self.new.count ≤ self.old.count + 1 }
        ensures kept { DoesKeep self.old self.new }
    {
        if let Some(why) = self.open_refusal(session) {
            return Reply::Refused(why);
        }
        self.standing_reply(session, Reply::Clear)
    }

    /// Releases a lock before the end of the transaction.
    pub fn serve_release(&mut self, session: u16, resource: Resource) -> Reply
        requires may_serve { MayServe session self.old }
        ensures step { (st : State) → IsSound st.table → IsNumbered st → Shows self.old st
            → DoesAnswer (step st session (Release resource)) self.new result }
        ensures waits_ended { HasNotedEnded session self.old self.new }
        ensures count { self.new.count ≤ self.old.count + 1 }
        ensures kept { DoesKeep self.old self.new }
    {
        self.index(session);
        if let Some(why) = self.idle_refusal(session) {
            return Reply::Refused(why);
        }
        let place = self.cells.place_of(resource);
        if let Some(why) = self.release_refusal(session, place, resource) {
            return Reply::Refused(why);
        }
        self.release(session, place, resource);
        Reply::Released
    }

    /// Commits the transaction, and replies how many locks it held.
    pub fn serve_commit(&mut self, session: u16) -> Reply
        requires may_serve { MayServe session self.old }
        ensures step { (st : State) → IsSound st.table → IsNumbered st → Shows self.old st
            → DoesAnswer (step st session Commit) self.new result }
        ensures waits_ended { HasNotedEnded session self.old self.new }
        ensures count { self.new.count ≤ self.old.count + 1 }
        ensures kept { DoesKeep self.old self.new }
    {
        if let Some(why) = self.idle_refusal(session) {
            return Reply::Refused(why);
        }
        Reply::Committed(self.end(session) as u32)
    }

    /// Aborts the transaction, and replies how many locks it held.
    pub fn serve_abort(&mut self, session: u16) -> Reply
        requires may_serve { MayServe session self.old }
        ensures step { (st : State) → IsSound st.table → IsNumbered st → Shows self.old st
            → DoesAnswer (step st session Abort) self.new result }
        ensures waits_ended { HasNotedEnded session self.old self.new }
        ensures count { self.new.count ≤ self.old.count + 1 }
        ensures kept { DoesKeep self.old self.new }
    {
        if let Some(why) = self.open_refusal(session) {
            return Reply::Refused(why);
        }
        Reply::Aborted(self.abort(session) as u32)
    }

    /// Restarts the transaction, and replies how many locks it held.
    pub fn serve_restart(&mut self, session: u16) -> Reply
        requires may_serve { MayServe session self.old }
        ensures step { (st : State) → IsSound st.table → IsNumbered st → Shows self.old st
            → DoesAnswer (step st session Restart) self.new result }
        ensures waits_ended { HasNotedEnded session self.old self.new }
        ensures count { self.new.count ≤ self.old.count + 1 }
        ensures kept { DoesKeep self.old self.new }
    {
        if let Some(why) = self.open_refusal(session) {
            return Reply::Refused(why);
        }
        Reply::Restarted(self.restart(session) as u32)
    }
}
