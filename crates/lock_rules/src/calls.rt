//! What a session may call, the replies, and the reasons of refusals.

use lock_modes::Mode;
use lock_tree::Resource;

/// The greatest number of sessions of one lock table. Sessions are numbered from 1.
pub const MAX_SESSIONS: u16 = waits_for::MAX_SESSIONS;

/// The greatest number of locks that a transaction may hold at once. A request for one more is refused with
/// `Why::TooManyLocks`.
pub const MAX_LOCKS: usize = 4096;

/// A call of a session on the lock table.
#[derive(Clone, Copy, Debug, PartialEq, Eq, Hash)]
pub enum Call {
    /// Begins a transaction. A session has at most one open transaction.
    Begin,
    /// Requests a lock on the resource in the mode. If the session holds the resource already, requests a conversion to
    /// the least mode at or above both the mode held and this one.
    Lock(Resource, Mode),
    /// Requests a conversion, as `Lock` does for a resource that the session holds. Refused with `Why::NotHeld` if it
    /// doesn't hold it.
    Convert(Resource, Mode),
    /// Asks whether the session waits or its transaction was chosen as a deadlock victim. Changes nothing.
    Poll,
    /// Releases one lock before the transaction ends. Locks are released from leaf to root.
    Release(Resource),
    /// Commits the transaction and releases all its locks.
    Commit,
    /// Aborts the transaction, even if it waits or is doomed: cancels its request and releases all its locks.
    Abort,
    /// Requests a lock as `Lock` does, with the same tests and the same grant, but never waits: if the request would wait,
    /// it is refused with `Why::WouldWait`.
    Try(Resource, Mode),
    /// Takes the session's waiting request back. The transaction stays open and keeps its locks. Refused with
    /// `Why::NotWaiting` if no request of the session waits.
    Withdraw,
    /// Releases all locks of the transaction as `Abort` does, even if it waits or is doomed, and begins it again at once with
    /// its old number, not doomed. So a victim that restarts grows old beside the transactions that begin after it.
    Restart,
}

/// The open transaction of a session.
#[derive(Clone, Copy, Debug, PartialEq, Eq, Hash)]
pub struct Transaction {
    /// Its number. Transactions are numbered 1, 2, .. in the order in which they began; the youngest has the greatest
    /// number.
    pub number: u64,
    /// Whether it was chosen as a deadlock victim. A doomed transaction can only abort or restart.
    pub doomed: bool,
}

/// The reason of a refusal. A call's tests are made in the order of these numbers, and the first that fails gives the
/// reply, as `laws::tests_are_made_by_number` says. Number 10 is retired.
#[derive(Clone, Copy, Debug, PartialEq, Eq, Hash)]
pub enum Why {
    /// The session has an open transaction already.
    AlreadyOpen = 1,
    /// The session has no open transaction.
    NoTransaction = 2,
    /// The session has a waiting request.
    IsWaiting = 3,
    /// The session's transaction was chosen as a deadlock victim and has not aborted or restarted yet.
    IsDoomed = 4,
    /// The requested mode is NL.
    NothingAsked = 5,
    /// The session has no lock of its own on the resource. A lock on an ancestor doesn't count.
    NotHeld = 6,
    /// The session doesn't hold the parent in a mode that covers what the request's target needs of it.
    ParentNotHeld = 7,
    /// The session holds a lock on a descendant of the resource.
    ChildHeld = 8,
    /// The request would be one lock more than `MAX_LOCKS`. A conversion adds no lock.
    TooManyLocks = 9,
    /// The request of a try would wait.
    WouldWait = 11,
    /// The session has no waiting request.
    NotWaiting = 12,
}

/// The reply to a call.
#[derive(Clone, Copy, Debug, PartialEq, Eq, Hash)]
pub enum Reply {
    /// The transaction has begun and has this number.
    Began(u64),
    /// The lock is granted: the session holds the resource in this mode.
    Granted(Mode),
    /// The session's request waits.
    Waiting,
    /// The transaction was chosen as a deadlock victim. Its request is cancelled, it keeps its locks, and it can only
    /// abort or restart. A session that waited when it was chosen learns this by a poll, or from a lock, conversion, try,
    /// withdrawal, release or commit, which is refused with `Why::IsDoomed`.
    Deadlock,
    /// The session has a transaction, no waiting request, and isn't doomed.
    Clear,
    /// The lock is released.
    Released,
    /// The transaction is committed, and this many locks were released.
    Committed(u32),
    /// The transaction is aborted, and this many locks were released.
    Aborted(u32),
    /// The call is refused and changed nothing.
    Refused(Why),
    /// The waiting request is taken back.
    Withdrawn,
    /// The transaction is open again with its old number, not doomed, and this many locks were released.
    Restarted(u32),
}

/// One call of one session, with its reply. A list of entries, oldest first, is a history.
pub type Entry = sequential::Entry<Call, Reply>;
