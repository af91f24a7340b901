//! The counters that a book tells.

/// How many calls of each operation there were, refused ones too.
#[derive(Clone, Copy, Debug, PartialEq, Eq, Hash)]
pub struct Calls {
    /// `Call::Begin`.
    pub begin: u64,
    /// `Call::Lock`.
    pub lock: u64,
    /// `Call::Convert`.
    pub convert: u64,
    /// `Call::Poll`.
    pub poll: u64,
    /// `Call::Release`.
    pub release: u64,
    /// `Call::Commit`.
    pub commit: u64,
    /// `Call::Abort`.
    pub abort: u64,
    /// `Call::Try`.
    pub try_lock: u64,
    /// `Call::Withdraw`.
    pub withdraw: u64,
    /// `Call::Restart`.
    pub restart: u64,
}

/// How many calls were refused for each reason.
#[derive(Clone, Copy, Debug, PartialEq, Eq, Hash)]
pub struct Refusals {
    /// `Why::AlreadyOpen`.
    pub already_open: u64,
    /// `Why::NoTransaction`.
    pub no_transaction: u64,
    /// `Why::IsWaiting`.
    pub is_waiting: u64,
    /// `Why::IsDoomed`.
    pub is_doomed: u64,
    /// `Why::NothingAsked`.
    pub nothing_asked: u64,
    /// `Why::NotHeld`.
    pub not_held: u64,
    /// `Why::ParentNotHeld`.
    pub parent_not_held: u64,
    /// `Why::ChildHeld`.
    pub child_held: u64,
    /// `Why::TooManyLocks`.
    pub too_many_locks: u64,
    /// `Why::WouldWait`.
    pub would_wait: u64,
    /// `Why::NotWaiting`.
    pub not_waiting: u64,
}

/// The counters of a history. All but `waiting` only grow.
///
/// Each request was granted at once, began a wait or was refused: `requests` is the sum of these three. Each wait that began was granted
/// by a call of another session, ended with its session as a victim, was withdrawn, ended with an abort or a restart of its session, or
/// waits still: `waits_begun` is the sum of these six.
#[derive(Clone, Copy, Debug, PartialEq, Eq, Hash)]
pub struct Counts {
    /// The calls of each operation.
    pub calls: Calls,
    /// The refused calls, by reason.
    pub refusals: Refusals,
    /// The requests for locks: locks, conversions and tries.
    pub requests: u64,
    /// The requests that were granted by their own reply, also where a victim of theirs made room.
    pub granted_at_once: u64,
    /// The requests that were refused.
    pub requests_refused: u64,
    /// The requests that began a wait: their reply was that they wait, or that their own session became a victim.
    pub waits_begun: u64,
    /// The waits that were granted by a call of another session.
    pub waits_granted: u64,
    /// The waits that ended with their session as a deadlock victim: the number of victims.
    pub victims: u64,
    /// The waits that were withdrawn.
    pub waits_withdrawn: u64,
    /// The waits that ended with an abort of their own session.
    pub waits_aborted: u64,
    /// The waits that ended with a restart of their own session.
    pub waits_restarted: u64,
    /// The requests that wait now.
    pub waiting: u64,
    /// The calls that closed a cycle of waits, and so made victims.
    pub deadlocks: u64,
}
