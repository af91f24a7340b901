//! A sequential object whose calls end the waits of other sessions, and which tells whose.

ghost use Rattle.std.specs.Prelude.{◌≤◌, ◌↔◌, ℕ, List, take, drop, Contains};
ghost use Rattle.sequential.specs.declared.entry.Entry.{Entry as EntryValue};
ghost use Rattle.sequential.specs.EndedWaits.{HasEndedIn};

use crate::batching::Batching;

/// An object whose calls may end the waits of other sessions. It tells whose waits a call or a batch has ended, so that whoever
/// served it can wake them.
pub trait Telling: Batching {
    // The entry, behind this front of the history, has ended the wait of this session.
    ghost ends: { List (EntryValue Self.Call Self.Reply) → EntryValue Self.Call Self.Reply → ℕ → Type 0 };

    /// The sessions whose wait the last call or batch has ended, in no particular order.
    fn ended(&self) -> &[u16]
        ensures { (from u : ℕ) → Self.tells_from self.now from → Contains result.now u
            ↔ ((1 ≤ u) × (u ≤ Self.sessions self.now) × HasEndedIn ends (take from (Self.history self.now)) (drop from (Self.history self.now)) u) };
}
