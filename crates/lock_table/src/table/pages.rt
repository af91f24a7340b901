//! The locks of one session: how many they are, and pages of them.

ghost use Rattle.std.specs.Prelude.{◌≡◌, ◌++◌, length, IfOk, OnOk, OnErr};
ghost use Rattle.lock_table.specs.Changes.{standing};
ghost use Rattle.session_locks.specs.Resources.{first_behind};
ghost use Rattle.lock_table.specs.LockPages.{lock_lines_at, page_of};

use crate::table::LockTable;
use lock_holders::SessionMode;
use lock_rules::{Claim, ClaimKind};
use lock_tree::Resource;
use std::alloc::{AllocError, Global};

impl LockTable {
    /// How many locks `session` holds, 0 if there is no such session.
    pub fn locks_held(&self, session: u16) -> usize
        ensures { result ≡ length (standing session self.now).held }
    {
        match self.locker_if_any(session) {
            Some(locker) => locker.locks(),
            None => 0,
        }
    }

    /// The first `most` resources that `session` holds behind `after`, none if there is no such session.
    fn first_held(
        &self,
        alloc: Global,
        session: u16,
        after: Option<Resource>,
        most: usize,
    ) -> Result<Vec<Resource>, AllocError>
        ensures { IfOk result (λ list. list.items ≡ first_behind most after (standing session self.now).held) }
    {
        match self.locker_if_any(session) {
            Some(locker) => locker.first_behind(alloc, after, most),
            None => Ok(Vec::new(alloc)),
        }
    }

    /// Appends the lock of `session` on `resource`, if it has one.
    fn push_lock(
        &self,
        session: u16,
        resource: Resource,
        list: &mut Vec<Claim>,
    ) -> Result<(), AllocError>
        ensures { OnOk result (list.new.items ≡ list.old.items ++ lock_lines_at self.now session resource) }
    {
        let Some(mode) = self.held(session, resource) else {
            return Ok(());
        };
        let line = self.line(resource, ClaimKind::Held, SessionMode { session, mode });
        list.push(line)?;
        Ok(())
    }

    /// The first `most` locks of `session` on resources behind `after`.
    fn page(
        &self,
        alloc: Global,
        session: u16,
        after: Option<Resource>,
        most: usize,
    ) -> Result<Vec<Claim>, AllocError>
        ensures { IfOk result (λ list. list.items ≡ page_of self.now session after most) }
    {
        let resources = self.first_held(alloc, session, after, most)?;
        let mut list = Vec::new(alloc);
        for index in 0..resources.len() {
            self.push_lock(session, resources[index], &mut list)?;
        }
        Ok(list)
    }

    /// Replaces the contents of `list` by the first `most` locks of `session` on resources behind `after`. Leaves `list`
    /// unchanged if memory is refused.
    pub fn locks_of(
        &self,
        alloc: Global,
        session: u16,
        after: Option<Resource>,
        most: usize,
        list: &mut Vec<Claim>,
    ) -> Result<(), AllocError>
        ensures ok { OnOk result (list.new.items ≡ page_of self.now session after most) }
        ensures err { OnErr result (list.new.items ≡ list.old.items) }
    {
        *list = self.page(alloc, session, after, most)?;
        Ok(())
    }
}
