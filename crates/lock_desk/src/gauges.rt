//! The gauges that a book tells.

/// How much a lock table has at one moment.
#[derive(Clone, Copy, Debug, PartialEq, Eq, Hash)]
pub struct Gauges {
    /// The open transactions.
    pub transactions: u64,
    /// The locks that are held.
    pub locks: u64,
    /// The requests that wait.
    pub waiting: u64,
    /// The most requests that wait for one resource.
    pub longest_queue: u64,
}
