//! What a check finds in a history.

ghost use Rattle.std.specs.Prelude.{◌≡◌};
ghost use Rattle.replay_commands.specs.Verdicts.{verdict_of};

use crate::checking::Verdict;
use lock_desk::{Entry, Reply};

/// An entry of a history whose reply isn't the lock table's.
#[derive(Clone, Copy, Debug, Drop, PartialEq, Eq)]
pub struct WrongReply {
    /// Its place, counted from 0.
    pub place: u64,
    /// The entry, with the reply that the history tells.
    pub said: Entry,
    /// The reply that the lock table gives there.
    pub given: Reply,
}

/// What a check finds: that a history is legal, or its first wrong reply.
#[derive(Clone, Copy, Debug, Drop, PartialEq, Eq)]
pub enum Finding {
    /// Every reply equals the lock table's. Holds the number of entries.
    Legal(u64),
    /// Some reply differs from the lock table's. Holds the first such one.
    Wrong(WrongReply),
}

impl Finding {
    /// The verdict on the history.
    pub fn verdict(&self) -> Verdict
        ensures { result ≡ verdict_of self.now }
    {
        match self {
            Finding::Legal(entries) => Verdict::Legal(*entries),
            Finding::Wrong(wrong) => Verdict::Illegal(wrong.place),
        }
    }
}
