//! What a listing of the lock table is made of: a line for each lock and for each waiting request.

use crate::calls::Transaction;
use lock_modes::Mode;
use lock_tree::Resource;

/// What a claim on a resource is: a lock, or which kind of waiting request.
#[derive(Clone, Copy, Debug, PartialEq, Eq, Hash)]
pub enum ClaimKind {
    /// A lock that the session holds.
    Held = 1,
    /// A waiting request for more on a resource that the session holds.
    Conversion = 2,
    /// A waiting request for a resource that the session doesn't hold.
    Fresh = 3,
}

/// A lock or a waiting request of a session, as a listing of the lock table shows it.
#[derive(Clone, Copy, Debug, PartialEq, Eq, Hash)]
pub struct Claim {
    /// The resource that is held or requested.
    pub resource: Resource,
    /// The session, numbered from 1.
    pub session: u16,
    /// The open transaction of the session.
    pub transaction: Transaction,
    /// The mode of the lock; of a request its target, the mode that the session holds once the request is granted.
    pub mode: Mode,
    /// Whether it is a lock, and which kind of request otherwise.
    pub kind: ClaimKind,
}
