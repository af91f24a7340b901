//! Requests for a lock or a conversion: granted at once, or queued; a deadlock that the wait closes is resolved.

ghost use Rattle.std.specs.Prelude.{◌≡◌, true, false, IfOk, OnErr, vec_len};
ghost use Rattle.lock_rules.specs.State.{State, held_mode};
ghost use Rattle.lock_rules.specs.Step.{target_of, is_held, ask};
ghost use Rattle.lock_rules.specs.Sound.{IsNumbered, IsSound};
ghost use Rattle.lock_table.specs.Deadlocks.{deadlocks_of_request, moments_at};
ghost use Rattle.lock_table.specs.inner.Cells.{is_granted, IsPlace};
ghost use Rattle.lock_table.specs.Changes.{DoesKeep, MayServe, mode_held, IsSameSeen, CanAsk, MayAsk, CanLock, CanConvert, HasAsked, HasNotedEnded};
ghost use Rattle.lock_table.specs.Shows.{Shows, DoesAnswer};

use crate::cells::RequestStatus;
use crate::deadlock_notes::DeadlockNotes;
use crate::lockers::LockRequest;
use crate::table::LockTable;
use crate::table::refusals::target_of;
use lock_holders::{SessionMode, position_of};
use lock_modes::Mode;
use lock_rules::Reply;
use lock_tree::Resource;
use std::alloc::AllocError;

/// A resource that was looked up for a session.
#[derive(Clone, Copy)]
pub(super) struct LookedUp {
    /// The resource.
    pub(super) resource: Resource,
    /// The place of its cell, if it has one.
    pub(super) place: Option<usize>,
    /// The mode that the session holds on it, if it holds one.
    pub(super) held: Option<Mode>,
}

impl LockTable {
    /// Requests a lock on a resource that the session does not hold. If memory is refused, nothing that contracts
    /// see changes.
    #[inline(always)]
    fn lock(
        &mut self,
        session: u16,
        place: Option<usize>,
        resource: Resource,
        mode: Mode,
    ) -> Result<RequestStatus, AllocError>
        requires may_serve { MayServe session self.old }
        requires place { IsPlace resource self.old.cells.entries place }
        requires can { CanLock session resource self.old }
        ensures asked { IfOk result (λ status. HasAsked session resource mode (is_granted status) self.old self.new) }
        ensures err { OnErr result (IsSameSeen self.old self.new) }
        ensures waits_ended { HasNotedEnded session self.old self.new }
        ensures kept { DoesKeep self.old self.new }
    {
        let position = position_of(session);
        let locker = &mut self.lockers[position];
        locker.make_room()?;
        let status = self.cells.ask_cell(
            place,
            resource,
            SessionMode { session, mode },
            &mut self.waits,
        )?;
        let newest = self.cells.place_or_last(place);
        let locker = &mut self.lockers[position];
        match status {
            RequestStatus::Granted => locker.hold(resource, newest),
            RequestStatus::Waiting => locker.wait_for(LockRequest::Fresh(resource)),
        }
        Ok(status)
    }

    /// Requests a higher mode on a resource that the session holds. If memory is refused, nothing that contracts see
    /// changes.
    #[inline(always)]
    fn convert(
        &mut self,
        session: u16,
        place: Option<usize>,
        resource: Resource,
        mode: Mode,
    ) -> Result<RequestStatus, AllocError>
        requires may_serve { MayServe session self.old }
        requires place { IsPlace resource self.old.cells.entries place }
        requires can { CanConvert session resource self.old }
        ensures asked { IfOk result (λ status. HasAsked session resource mode (is_granted status) self.old self.new) }
        ensures err { OnErr result (IsSameSeen self.old self.new) }
        ensures waits_ended { HasNotedEnded session self.old self.new }
        ensures kept { DoesKeep self.old self.new }
    {
        let status = self.cells.ask_cell(
            place,
            resource,
            SessionMode { session, mode },
            &mut self.waits,
        )?;
        match status {
            RequestStatus::Granted => {}
            RequestStatus::Waiting => {
                let locker = &mut self.lockers[position_of(session)];
                locker.wait_for(LockRequest::Conversion(resource));
            }
        }
        Ok(status)
    }

    /// Requests the mode `target`: nothing to do if `held` covers it, else a conversion or a lock. `held` is what
    /// the session holds on `resource`.
    #[inline(always)]
    fn request(
        &mut self,
        session: u16,
        place: Option<usize>,
        resource: Resource,
        held: Option<Mode>,
        target: Mode,
    ) -> Result<RequestStatus, AllocError>
        requires may_serve { MayServe session self.old }
        requires mode { held ≡ mode_held self.old session resource }
        requires place { IsPlace resource self.old.cells.entries place }
        requires can { CanAsk session resource self.old }
        ensures held { is_held (mode_held self.old session resource) target ≡ true
            → IfOk result (λ status. (is_granted status ≡ true) × IsSameSeen self.old self.new) }
        ensures asked { is_held (mode_held self.old session resource) target ≡ false
            → IfOk result (λ status. HasAsked session resource target (is_granted status) self.old self.new) }
        ensures err { OnErr result (IsSameSeen self.old self.new) }
        ensures waits_ended { HasNotedEnded session self.old self.new }
        ensures kept { DoesKeep self.old self.new }
    {
        match held {
            Some(held) if held.covers(target) => Ok(RequestStatus::Granted),
            Some(_) => self.convert(session, place, resource, target),
            None => self.lock(session, place, resource, target),
        }
    }

    /// Requests the resource that is found in the least mode at or above `mode` and the one held, and returns the reply.
    ///
    /// If the request waits, resolves the deadlocks that it closes, and notes them in `notes`; `served` is the place of the call in the
    /// history. So the reply can be `Deadlock`, or `Granted` if the end of a victim's request has freed the resource.
    #[inline(always)]
    pub(super) fn ask_lock<N: DeadlockNotes>(
        &mut self,
        session: u16,
        found: LookedUp,
        mode: Mode,
        served: u64,
        notes: &mut N,
    ) -> Result<Reply, AllocError>
        requires may_serve { MayServe session self.old }
        requires place { IsPlace found.resource self.old.cells.entries found.place }
        requires held { found.held ≡ mode_held self.old session found.resource }
        requires may { MayAsk session found.resource mode self.old }
        requires fits { N.fits (vec_len self.old.lockers) notes.old }
        ensures ask { (st : State) → IsSound st.table → IsNumbered st → Shows self.old st
            → let held = held_mode st.table session found.resource in
            IfOk result (DoesAnswer (ask st session found.resource (target_of held mode)) self.new) }
        ensures err { OnErr result (IsSameSeen self.old self.new) }
        ensures waits_ended { HasNotedEnded session self.old self.new }
        ensures count { self.new.count ≡ self.old.count }
        ensures kept { DoesKeep self.old self.new }
        ensures fits { N.fits (vec_len self.old.lockers) notes.new }
        ensures noted { (st : State) → IsSound st.table → IsNumbered st → Shows self.old st
            → let held = held_mode st.table session found.resource in
            IfOk result (λ _. N.noted (moments_at served session (deadlocks_of_request st session found.resource (target_of held mode))) notes.old notes.new) }
        ensures unnoted { OnErr result (notes.new ≡ notes.old) }
    {
        let target = target_of(found.held, mode);
        match self.request(session, found.place, found.resource, found.held, target)? {
            RequestStatus::Granted => Ok(Reply::Granted(target)),
            RequestStatus::Waiting => {
                self.resolve_for(session, served, notes);
                Ok(self.standing_reply(session, Reply::Granted(target)))
            }
        }
    }
}
