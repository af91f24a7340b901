//! What the lock table has: all locks and all waiting requests, and what one session has.

ghost use Rattle.std.specs.Prelude.{◌≡◌, ◌++◌, map, is_some, IfOk, OnOk, OnErr};
ghost use Rattle.std.specs.Option.{option_copied};
ghost use Rattle.lock_rules.specs.declared.listing.ClaimKind.TheVariants as kinds;
ghost use Rattle.lock_table.specs.inner.Cells.{view_of};
ghost use Rattle.lock_table.specs.Changes.{standing};
ghost use Rattle.lock_table.specs.Listing.{kind_beside, line, lines_at, lines_of, request_at, request_line, standing_in, transaction_shown};

use crate::cells::Cell;
use crate::lockers::Locker;
use crate::table::LockTable;
use lock_holders::SessionMode;
use lock_rules::{Claim, ClaimKind, Transaction};
use lock_tree::Resource;
use std::alloc::{AllocError, Global};

/// The kind of a request of `session` in this cell.
fn kind_in(cell: &Cell, session: u16) -> ClaimKind
    ensures { result ≡ kind_beside (view_of cell.now).holders session }
{
    if cell.mode_held(session).is_some() {
        ClaimKind::Conversion
    } else {
        ClaimKind::Fresh
    }
}

impl LockTable {
    /// The locker of `session`, if there is such a session.
    pub(crate) fn locker_if_any(&self, session: u16) -> Option<&Locker>
        ensures { standing_in (option_copied result) ≡ standing session self.now }
    {
        if session == 0 || session as usize > self.lockers.len() {
            return None;
        }
        Some(&self.lockers[session as usize - 1])
    }

    /// The open transaction of `session`, if it has one. `None` if there is no such session.
    pub fn transaction(&self, session: u16) -> Option<Transaction>
        ensures { result ≡ (standing session self.now).transaction }
    {
        match self.locker_if_any(session) {
            Some(locker) => locker.transaction(),
            None => None,
        }
    }

    /// The transaction of `session` as a listing shows it.
    fn transaction_shown(&self, session: u16) -> Transaction
        ensures { result ≡ transaction_shown self.now session }
    {
        match self.transaction(session) {
            Some(transaction) => transaction,
            None => Transaction {
                number: 0,
                doomed: false,
            },
        }
    }

    /// A lock on `resource` or a request for it, as a line of the listing.
    pub(crate) fn line(&self, resource: Resource, kind: ClaimKind, claim: SessionMode) -> Claim
        ensures { result ≡ line self.now resource kind claim }
    {
        Claim {
            resource,
            session: claim.session,
            transaction: self.transaction_shown(claim.session),
            mode: claim.mode,
            kind,
        }
    }

    /// Appends a line for each holder of `resource`, whose cell this is.
    fn push_holders(
        &self,
        resource: Resource,
        cell: &Cell,
        list: &mut Vec<Claim>,
    ) -> Result<(), AllocError>
        ensures { OnOk result (list.new.items ≡ list.old.items ++ map (line self.now resource kinds.Held) (view_of cell.now).holders) }
    {
        for index in 0..cell.holders() {
            let holder = cell.holder_at(index);
            let line = self.line(resource, ClaimKind::Held, holder);
            list.push(line)?;
        }
        Ok(())
    }

    /// Appends a line for each request in the queue of `resource`, whose cell this is.
    fn push_queue(
        &self,
        resource: Resource,
        cell: &Cell,
        list: &mut Vec<Claim>,
    ) -> Result<(), AllocError>
        ensures { let v = view_of cell.now in
            OnOk result (list.new.items ≡ list.old.items ++ map (request_line self.now resource v.holders) v.waiting) }
    {
        let queue = cell.queue();
        for index in 0..queue.len() {
            let request = queue[index];
            let kind = kind_in(cell, request.session);
            let line = self.line(resource, kind, request);
            list.push(line)?;
        }
        Ok(())
    }

    /// Appends the lines of `resource`: its holders by session number, then its queue.
    fn push_lines(&self, resource: Resource, list: &mut Vec<Claim>) -> Result<(), AllocError>
        ensures { OnOk result (list.new.items ≡ list.old.items ++ lines_at self.now resource) }
    {
        let Some(cell) = self.cells.cell_of(resource) else {
            return Ok(());
        };
        self.push_holders(resource, cell, list)?;
        self.push_queue(resource, cell, list)
    }

    /// All locks and all waiting requests, resource by resource in the order of resources.
    fn lines(&self, alloc: Global) -> Result<Vec<Claim>, AllocError>
        ensures { IfOk result (λ list. list.items ≡ lines_of self.now) }
    {
        let resources = self.cells.resources(alloc)?;
        let mut list = Vec::new(alloc);
        for index in 0..resources.len() {
            self.push_lines(resources[index], &mut list)?;
        }
        Ok(list)
    }

    /// Replaces the contents of `list` by all locks and all waiting requests, resource by resource in the order of
    /// resources. Leaves `list` unchanged if memory is refused.
    pub fn locks(&self, alloc: Global, list: &mut Vec<Claim>) -> Result<(), AllocError>
        ensures ok { OnOk result (list.new.items ≡ lines_of self.now) }
        ensures err { OnErr result (list.new.items ≡ list.old.items) }
    {
        *list = self.lines(alloc)?;
        Ok(())
    }

    /// Whether `session` has a waiting request. False if there is no such session.
    pub fn is_waiting(&self, session: u16) -> bool
        ensures { result ≡ is_some (standing session self.now).wanted }
    {
        match self.locker_if_any(session) {
            Some(locker) => locker.is_waiting(),
            None => false,
        }
    }

    /// The waiting request of `session`, if it has one. `None` if there is no such session.
    pub fn waiting_request(&self, session: u16) -> Option<Claim>
        ensures { result ≡ request_at self.now session (standing session self.now).wanted }
    {
        let locker = self.locker_if_any(session)?;
        let resource = locker.resource_wanted()?;
        let cell = self.cells.cell_of(resource)?;
        let mode = cell.mode_wanted(session)?;
        let kind = kind_in(cell, session);
        Some(self.line(resource, kind, SessionMode { session, mode }))
    }
}
