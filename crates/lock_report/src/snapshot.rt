//! What a report shows beside the claims of a listing: the open transactions, the waits, and who blocks them.

use lock_rules::Transaction;

/// The open transaction of a session.
#[derive(Clone, Copy, Debug, PartialEq, Eq, Hash)]
pub struct OpenTransaction {
    /// The session, numbered from 1.
    pub session: u16,
    /// Its open transaction.
    pub transaction: Transaction,
}

/// An edge of the waits-for graph: a session waits directly for another.
#[derive(Clone, Copy, Debug, PartialEq, Eq, Hash)]
pub struct WaitFor {
    /// The session that waits.
    pub session: u16,
    /// The session that it waits for.
    pub other: u16,
}

/// The waits of a session as a row tells them.
#[derive(Clone, Copy, Debug, PartialEq, Eq, Hash)]
pub struct FirstWait {
    /// The wait for its first blocker.
    pub wait: WaitFor,
    /// For how many others the session waits.
    pub others: u64,
}

/// A session that waits for none, and for which others wait.
#[derive(Clone, Copy, Debug, PartialEq, Eq, Hash)]
pub struct Root {
    /// The session, with its open transaction.
    pub begun: OpenTransaction,
    /// How many sessions wait for it, directly or through others.
    pub blocks: u64,
    /// How many waiting requests its abort would grant.
    pub grants: u64,
}

/// An edge of the waits-for graph, as the text for people tells it.
#[derive(Clone, Copy, Debug, PartialEq, Eq, Hash)]
pub struct WaitLine {
    /// The wait.
    pub wait: WaitFor,
    /// Whether the other session is the first blocker of the one that waits.
    pub first: bool,
    /// The place of the call since which the session waits, if it is told; of a dump no place is known.
    pub since: Option<u64>,
}

/// The call that made the transaction of a session a deadlock victim.
#[derive(Clone, Copy, Debug, PartialEq, Eq, Hash)]
pub struct Doom {
    /// The place of the call in the history.
    pub place: u64,
    /// The session that made the call.
    pub session: u16,
}
