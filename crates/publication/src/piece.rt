//! A piece of the history that a session took.

/// A piece of the history that a session took while the board was open: `count` entries from the place `first` on.
#[derive(Clone, Copy, Debug, PartialEq, Eq, Hash)]
pub struct Piece {
    /// The session that took it.
    pub session: u16,
    /// The place of its first entry in the history.
    pub first: u64,
    /// How many entries it has.
    pub count: u64,
}
