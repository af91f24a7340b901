//! The deadlocks that a book tells.

ghost use Rattle.std.specs.Prelude.{◌≡◌, [], length, OnOk, OnErr};
ghost use Rattle.lock_desk.specs.Deadlocks.{AreDeadlocksTold, deadlocks_in, newest};

use crate::book::Book;
use crate::deadlock_log::{Deadlock, DeadlockLog, newest_of};
use std::alloc::{AllocError as NoMemory, Global};

impl Book {
    /// Keeps the newest `most` deadlocks from now on, for `deadlocks` to tell. No call may have been served yet.
    ///
    /// Takes all memory for them at once: for each deadlock that of a cycle of all sessions, some 56 bytes a session, and a bit for each
    /// pair of sessions; none if it keeps so many already. So no call takes memory for a deadlock, and a call that makes none costs the same with and without. A book keeps
    /// none unless it is asked for. Fails with `NoMemory` if memory is refused; the book is unchanged then.
    pub fn keep_deadlocks(&mut self, alloc: Global, most: usize) -> Result<(), NoMemory>
        requires fresh { self.old.history ≡ [] }
        ensures ok { OnOk result (self.new ≡ record self.old { deadlocks = most }) }
        ensures err { OnErr result (self.new ≡ self.old) }
    {
        if most != self.deadlocks_kept() {
            self.notes.log = DeadlockLog::keeping(alloc, self.sessions, most)?;
        }
        Ok(())
    }

    /// How many deadlocks are kept at most, 0 unless `keep_deadlocks` was called.
    pub fn deadlocks_kept(&self) -> usize
        ensures { result ≡ self.now.deadlocks }
    {
        self.notes.log.most()
    }

    /// The newest deadlocks, oldest first, as many as are kept: of each the call that made it, and the cycle as it was before the
    /// victim was doomed, with what each member waited for.
    ///
    /// A call makes a deadlock for each victim that it dooms; those of one call have the same place, and come in the order in which
    /// their victims were doomed. Of several cycles that go through the victim one is told. That a book keeps them is this project's
    /// own.
    pub fn deadlocks(&self) -> &[Deadlock]
        ensures { AreDeadlocksTold (newest self.now.deadlocks (deadlocks_in self.now.history)) result.now }
    {
        self.notes.log.told()
    }

    /// How many deadlocks `deadlocks` tells.
    pub fn deadlock_count(&self) -> usize
        ensures { result ≡ length (newest self.now.deadlocks (deadlocks_in self.now.history)) }
    {
        self.deadlocks().len()
    }

    /// The newest `most` of the deadlocks that `deadlocks` tells, in the same order: all of them if they aren't more.
    pub fn newest_deadlocks(&self, most: usize) -> &[Deadlock]
        ensures { AreDeadlocksTold (newest most (newest self.now.deadlocks (deadlocks_in self.now.history))) result.now }
    {
        newest_of(self.deadlocks(), most)
    }
}
