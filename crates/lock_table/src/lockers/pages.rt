//! The locks of one session by pages: the resources of a page.

ghost use Rattle.std.specs.Prelude.{◌≡◌, IfOk};
ghost use Rattle.session_locks.specs.Resources.{first_behind};

use crate::lockers::Locker;
use lock_tree::Resource;
use std::alloc::{AllocError, Global};

impl Locker {
    /// The first `most` resources held behind `after`, in the order of resources.
    pub(crate) fn first_behind(
        &self,
        alloc: Global,
        after: Option<Resource>,
        most: usize,
    ) -> Result<Vec<Resource>, AllocError>
        ensures { IfOk result (λ list. list.items ≡ first_behind most after self.now.held.items) }
    {
        self.held.first_behind(alloc, after, most)
    }
}
