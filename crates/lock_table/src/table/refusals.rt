//! The tests of each call, in their order: the first that fails gives the refusal.

ghost use Rattle.std.specs.Prelude.{◌≡◌};
ghost use Rattle.lock_rules.specs.declared.calls.Call.TheVariants.{Withdraw};
ghost use Rattle.lock_rules.specs.Step.{is_nothing, target_of, first_failing};
ghost use Rattle.lock_table.specs.inner.Cells.{IsPlace};
ghost use Rattle.lock_table.specs.Changes.{mode_held, lacks_need, would_wait, open_tests, idle_tests, standing_tests, lock_tests, try_tests, convert_tests, release_tests, IsWhole, IsSession};

use crate::table::LockTable;
use lock_holders::SessionMode;
use lock_modes::Mode;
use lock_rules::{MAX_LOCKS, Why};
use lock_tree::Resource;

impl LockTable {
    /// Whether `resource` has a parent that `session` does not hold in a mode that covers the need of `mode`.
    #[inline(always)]
    fn lacks_parent(&self, session: u16, resource: Resource, mode: Mode) -> bool
        requires session { IsSession session self.now }
        ensures { result ≡ lacks_need self.now session resource mode }
    {
        let Some(parent) = resource.parent() else {
            return false;
        };
        let place = self.parent_place(session, resource, parent);
        let held = match self.cells.mode_at(place, session) {
            Some(held) => held,
            None => Mode::NL,
        };
        !held.covers(mode.parent_need())
    }

    /// The refusal of a session without a transaction.
    pub(crate) fn open_refusal(&self, session: u16) -> Option<Why>
        requires session { IsSession session self.now }
        ensures { result ≡ first_failing (open_tests self.now session) }
    {
        if !self.locker(session).is_open() {
            return Some(Why::NoTransaction);
        }
        None
    }

    /// The refusal of a session that has no transaction, waits, or is doomed.
    pub(crate) fn idle_refusal(&self, session: u16) -> Option<Why>
        requires session { IsSession session self.now }
        ensures { result ≡ first_failing (idle_tests self.now session) }
    {
        if let Some(why) = self.open_refusal(session) {
            return Some(why);
        }
        let locker = self.locker(session);
        if locker.is_waiting() {
            return Some(Why::IsWaiting);
        }
        if locker.is_doomed() {
            return Some(Why::IsDoomed);
        }
        None
    }

    /// The refusal of a lock by its resource and its mode. `held` is what the session holds on `resource`.
    #[inline(always)]
    pub(crate) fn lock_refusal(
        &self,
        session: u16,
        held: Option<Mode>,
        resource: Resource,
        mode: Mode,
    ) -> Option<Why>
        requires session { IsSession session self.now }
        requires held { held ≡ mode_held self.now session resource }
        ensures { result ≡ first_failing (lock_tests self.now session resource mode) }
    {
        if is_nothing(mode) {
            return Some(Why::NothingAsked);
        }
        if self.lacks_parent(session, resource, target_of(held, mode)) {
            return Some(Why::ParentNotHeld);
        }
        let locker = self.locker(session);
        if held.is_none() && locker.locks() >= MAX_LOCKS {
            return Some(Why::TooManyLocks);
        }
        None
    }

    /// Whether a request of `session` for the mode `target` would wait: what is held doesn't cover it, and it isn't granted
    /// at once. `place` is the place of the cell of `resource`.
    fn would_wait(
        &self,
        session: u16,
        place: Option<usize>,
        held: Option<Mode>,
        resource: Resource,
        target: Mode,
    ) -> bool
        requires place { IsPlace resource self.now.cells.entries place }
        requires held { held ≡ mode_held self.now session resource }
        ensures { result ≡ would_wait self.now session resource target }
    {
        let asker = SessionMode {
            session,
            mode: target,
        };
        match held {
            Some(held) if held.covers(target) => false,
            _ => !self.cells.would_grant_at(place, asker),
        }
    }

    /// The refusal of a try by its resource and its mode. `held` is what the session holds on `resource`, whose cell is at
    /// `place`.
    pub(crate) fn try_refusal(
        &self,
        session: u16,
        place: Option<usize>,
        held: Option<Mode>,
        resource: Resource,
        mode: Mode,
    ) -> Option<Why>
        requires session { IsSession session self.now }
        requires place { IsPlace resource self.now.cells.entries place }
        requires held { held ≡ mode_held self.now session resource }
        ensures { result ≡ first_failing (try_tests self.now session resource mode) }
    {
        if let Some(why) = self.lock_refusal(session, held, resource, mode) {
            return Some(why);
        }
        if self.would_wait(session, place, held, resource, target_of(held, mode)) {
            return Some(Why::WouldWait);
        }
        None
    }

    /// The refusal of a withdrawal.
    pub(crate) fn withdraw_refusal(&self, session: u16) -> Option<Why>
        requires session { IsSession session self.now }
        ensures { result ≡ first_failing (standing_tests self.now session Withdraw) }
    {
        if let Some(why) = self.open_refusal(session) {
            return Some(why);
        }
        let locker = self.locker(session);
        if locker.is_doomed() {
            Some(Why::IsDoomed)
        } else if locker.is_waiting() {
            None
        } else {
            Some(Why::NotWaiting)
        }
    }

    /// The refusal of a conversion by its resource and its mode. `held` is what the session holds on `resource`.
    pub(crate) fn convert_refusal(
        &self,
        session: u16,
        held: Option<Mode>,
        resource: Resource,
        mode: Mode,
    ) -> Option<Why>
        requires session { IsSession session self.now }
        requires held { held ≡ mode_held self.now session resource }
        ensures { result ≡ first_failing (convert_tests self.now session resource mode) }
    {
        if is_nothing(mode) {
            return Some(Why::NothingAsked);
        }
        if held.is_none() {
            return Some(Why::NotHeld);
        }
        if self.lacks_parent(session, resource, target_of(held, mode)) {
            return Some(Why::ParentNotHeld);
        }
        None
    }

    /// The refusal of a release by its resource, whose cell is at `place`.
    pub(crate) fn release_refusal(
        &self,
        session: u16,
        place: Option<usize>,
        resource: Resource,
    ) -> Option<Why>
        requires session { IsSession session self.now }
        requires whole { IsWhole self.now }
        requires place { IsPlace resource self.now.cells.entries place }
        ensures { result ≡ first_failing (release_tests self.now session resource) }
    {
        if self.cells.mode_at(place, session).is_none() {
            return Some(Why::NotHeld);
        }
        if self.holds_child(session, resource) {
            return Some(Why::ChildHeld);
        }
        None
    }
}

/// Whether the mode is NL, which asks for nothing.
pub(crate) fn is_nothing(mode: Mode) -> bool
    ensures { result ≡ is_nothing mode }
{
    matches!(mode, Mode::NL)
}

/// The target of a request: the least mode at or above `mode` and what is held.
pub(crate) fn target_of(held: Option<Mode>, mode: Mode) -> Mode
    ensures { result ≡ target_of held mode }
{
    match held {
        Some(held) => held.sup(mode),
        None => mode,
    }
}
