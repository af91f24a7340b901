//! The locks of one session by pages, in the order of resources.

ghost use Rattle.std.specs.Prelude.{◌≡◌, ◌++◌, IfOk, OnOk};
ghost use Rattle.session_locks.specs.Resources.{AreApart, those_behind, first_behind};
ghost use Rattle.session_locks.specs.inner.ChildCounts.{resources_of};

use crate::locks::{HeldLock, Locks};
use crate::resource_order::{is_behind, keep_first};
use lock_tree::Resource;
use std::alloc::{AllocError, Global};

/// Appends those of the resources that come behind `after`.
fn push_indexed(
    list: &mut Vec<Resource>,
    resources: &[Resource],
    after: &Option<Resource>,
) -> Result<(), AllocError>
    ensures { OnOk result (list.new.items ≡ list.old.items ++ those_behind after.now resources.now) }
{
    for index in 0..resources.len() {
        let resource = resources[index];
        if is_behind(after, &resource) {
            list.push(resource)?;
        }
    }
    Ok(())
}

/// Appends those of the resources of these locks that come behind `after`.
fn push_recent(
    list: &mut Vec<Resource>,
    locks: &[HeldLock],
    after: &Option<Resource>,
) -> Result<(), AllocError>
    ensures { OnOk result (list.new.items ≡ list.old.items ++ those_behind after.now (resources_of locks.now)) }
{
    for index in 0..locks.len() {
        let lock = locks[index];
        if is_behind(after, &lock.resource) {
            list.push(lock.resource)?;
        }
    }
    Ok(())
}

impl Locks {
    /// The first `most` of the resources that come behind `after`, in the order of resources. No resource may be among the
    /// locks twice.
    ///
    /// Looks at each lock once, and sorts those behind `after`.
    pub fn first_behind(
        &self,
        alloc: Global,
        after: Option<Resource>,
        most: usize,
    ) -> Result<Vec<Resource>, AllocError>
        requires { AreApart self.now.items }
        ensures { IfOk result (λ list. list.items ≡ first_behind most after self.now.items) }
    {
        let mut list = Vec::new(alloc);
        push_indexed(&mut list, self.indexed.keys().as_slice(), &after)?;
        push_recent(&mut list, &self.recent, &after)?;
        keep_first(&mut list, most);
        Ok(list)
    }
}
