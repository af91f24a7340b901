//! How many sessions wait, and how many requests wait for a resource.

ghost use Rattle.std.specs.Prelude.{◌≡◌, ◌≤◌, is_some, length};
ghost use Rattle.lock_rules.specs.Counts.{count_if, one_if};
ghost use Rattle.lock_table.specs.Changes.{view_at};
ghost use Rattle.lock_table.specs.inner.Lockers.{standing_of};

use crate::table::LockTable;
use lock_tree::Resource;

/// 1 if the test holds, else 0.
fn one_if(test: bool) -> u64
    ensures one { result ≡ one_if test }
    ensures few { result ≤ 1 }
{
    if test { 1 } else { 0 }
}

impl LockTable {
    /// How many sessions wait.
    pub fn waiting(&self) -> u64
        ensures { result ≡ count_if (λ w. is_some (standing_of w).wanted) self.now.lockers.items }
    {
        let mut count: u64 = 0;
        for index in 0..self.lockers.len() {
            let waits = self.lockers[index].is_waiting();
            count = count.saturating_add(one_if(waits));
        }
        count
    }

    /// How many requests wait for `resource`.
    pub fn queue_length(&self, resource: Resource) -> usize
        ensures { result ≡ length (view_at resource self.now).waiting }
    {
        match self.cells.cell_of(resource) {
            Some(cell) => cell.queue().len(),
            None => 0,
        }
    }
}
