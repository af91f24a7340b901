//! Room that is made beforehand, and memory that is given back.

ghost use Rattle.std.specs.Prelude.{◌≡◌, ◌≤◌, vec_len};
ghost use Rattle.lock_table.specs.Changes.{IsSameSeen, IsWhole, DoesKeep, MayServe};
ghost use Rattle.lock_table.specs.Ready.{IsReadyTable};

use crate::table::LockTable;
use lock_holders::position_of;
use std::alloc::AllocError;

impl LockTable {
    /// Makes room for `more` resources beside those in use. If memory is refused, some room may have been made.
    pub fn reserve(&mut self, more: usize) -> Result<(), AllocError>
        ensures same { self.new ≡ self.old }
    {
        self.cells.reserve(more)
    }

    /// Gives back the memory of the list of locks of `session`, if it holds none and doesn't wait.
    fn shrink_locker(&mut self, session: u16)
        requires may_serve { MayServe session self.old }
        ensures same { IsSameSeen self.old self.new }
        ensures kept { DoesKeep self.old self.new }
    {
        let locker = &mut self.lockers[position_of(session)];
        locker.shrink();
    }

    /// Gives back the memory of the lists of locks of the first `sessions` sessions that hold none and don't wait.
    fn shrink_lockers(&mut self, sessions: u16)
        requires within { sessions ≤ vec_len self.old.lockers }
        requires whole { IsWhole self.old }
        requires ready { IsReadyTable self.old }
        ensures same { IsSameSeen self.old self.new }
        ensures kept { DoesKeep self.old self.new }
    {
        for session in 0..sessions {
            self.shrink_locker(session + 1);
        }
    }

    /// Gives back the memory of cells that aren't in use, and of lists of locks of those of the `sessions` sessions that hold
    /// none.
    pub fn shrink(&mut self, sessions: u16)
        requires within { sessions ≤ vec_len self.old.lockers }
        requires whole { IsWhole self.old }
        requires ready { IsReadyTable self.old }
        ensures same { IsSameSeen self.old self.new }
        ensures kept { DoesKeep self.old self.new }
    {
        self.shrink_lockers(sessions);
        self.cells.shrink();
    }

    /// The number of cells that aren't in use, and keep their memory.
    pub fn idle_cells(&self) -> usize {
        self.cells.idle()
    }
}
