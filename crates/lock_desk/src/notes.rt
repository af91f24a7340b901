//! What a book notes of its calls beside their entries.

use crate::call_counts::CallCounts;
use crate::deadlock_log::DeadlockLog;

/// What a book notes of each call that it serves, beside the entry in its history.
///
/// It is passed on as one, so that a call of the lock table has few enough arguments for registers.
#[derive(Drop)]
pub struct BookNotes {
    /// The newest deadlocks, none unless they are asked for, and how waits ended.
    pub(crate) log: DeadlockLog,
    /// How many calls of each kind were served, and how they were answered.
    pub(crate) counts: CallCounts,
}
