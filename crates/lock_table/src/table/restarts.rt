//! Restarts: a transaction gives up all that it has, and begins again with its number.

ghost use Rattle.std.specs.Prelude.{◌≡◌, ◌≤◌, None, length};
ghost use Rattle.lock_table.specs.Changes.{standing, DoesKeep, MayServe, HasRestarted, HasNotedEnded};

use crate::table::LockTable;
use lock_holders::position_of;
use lock_rules::MAX_LOCKS;

impl LockTable {
    /// Releases all locks of `session`, begins its transaction again, and returns how many locks they were. The session
    /// must not wait.
    fn begin_again(&mut self, session: u16) -> usize
        requires may_serve { MayServe session self.old }
        requires idle { (standing session self.old).wanted ≡ None }
        ensures locks { result ≡ length (standing session self.old).held }
        ensures few { result ≤ MAX_LOCKS }
        ensures restarted { HasRestarted session self.old self.new }
        ensures waits_ended { HasNotedEnded session self.old self.new }
        ensures kept { DoesKeep self.old self.new }
    {
        let locks = self.give_back_all(session);
        let locker = &mut self.lockers[position_of(session)];
        locker.restart();
        locks
    }

    /// Restarts the transaction of `session`: removes its waiting request, releases all its locks, begins it again with its
    /// number, and returns how many locks they were.
    pub(super) fn restart(&mut self, session: u16) -> usize
        requires may_serve { MayServe session self.old }
        ensures locks { result ≡ length (standing session self.old).held }
        ensures few { result ≤ MAX_LOCKS }
        ensures restarted { HasRestarted session self.old self.new }
        ensures waits_ended { HasNotedEnded session self.old self.new }
        ensures kept { DoesKeep self.old self.new }
    {
        self.cancel(session);
        self.begin_again(session)
    }
}
