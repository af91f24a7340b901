//! Memory of a book: room that is made beforehand, and memory that is given back.

ghost use Rattle.std.specs.Prelude.{◌≡◌};

use crate::book::Book;
use std::alloc::AllocError as NoMemory;

impl Book {
    /// Makes room for `resources` resources beside those that are held or waited for now, and for `entries` entries of the history
    /// beside those that are kept. Until as many have come, no call moves the table or the history: what a call costs then
    /// doesn't grow with them.
    ///
    /// A resource is in the table while it is held or waited for. Nothing that callers see changes. Fails with `NoMemory` if memory is
    /// refused; some of the room may have been made then.
    pub fn reserve(&mut self, resources: usize, entries: usize) -> Result<(), NoMemory>
        ensures { self.new ≡ self.old }
    {
        self.lock_table.reserve(resources)?;
        self.history.reserve(entries)
    }

    /// Gives back memory that isn't in use: that of the cells of resources which nobody holds any more (`idle_cells` tells how many
    /// there are), of the lists of sessions that hold no locks, of entries of the history that were let go, and room for more.
    ///
    /// Nothing that callers see changes. Its cost grows with the cells in use and out of use, with the entries of the history in memory,
    /// and with the sessions. Later calls take memory again as they need it.
    pub fn shrink(&mut self)
        ensures { self.new ≡ self.old }
    {
        self.lock_table.shrink(self.sessions);
        self.history.shrink();
    }

    /// The number of cells that are kept with their memory, and serve no resource at the moment: `shrink` gives it back.
    pub fn idle_cells(&self) -> usize {
        self.lock_table.idle_cells()
    }
}
