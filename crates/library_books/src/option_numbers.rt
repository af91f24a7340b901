//! What books and offices are opened with, in numbers, as C's struct has them.

/// What a book or an office is opened with. A book reads `sessions`, `keep`, `deadlocks` and `seed`. An office has as many sessions as there
/// are handles.
#[repr(C)]
#[derive(Clone, Copy)]
pub struct OptionNumbers {
    /// The number of sessions.
    pub sessions: u32,
    /// How many calls and programs a round of a pass in a whole call serves at most.
    pub pass_calls: u32,
    /// From how many locks on that are given back such a round ends.
    pub pass_locks: u32,
    /// How many rounds such a pass has at most.
    pub pass_rounds: u32,
    /// How many of the newest entries of the history are kept in memory.
    pub keep: u64,
    /// How many of the newest deadlocks are kept.
    pub deadlocks: u64,
    /// The seed by which resources are hashed.
    pub seed: u64,
    /// The address of what wakes threads, or 0.
    pub waker: u64,
}
