//! A sequential object that keeps what it has answered in memory, hands it out, and lets go of it.

ghost use Rattle.std.specs.Prelude.{◌≡◌, ◌+◌, ◌-◌, ◌^◌, ◌<◌, ◌≤◌, List, ◌++◌, [], min, length};
ghost use Rattle.sequential.specs.Kept.{first_kept, kept};
ghost use Rattle.sequential.specs.declared.entry.Entry.{Entry as EntryValue};

use crate::batching::Batching;
use crate::trimmed_list::MOST_DROPPED;
use std::alloc::Global;

/// An object that writes down its history as a list, of which it keeps a part in memory, hands it out, and lets go of it. The
/// history that contracts see stays what it is.
///
/// What is written down need not be the entries themselves: an object whose calls are programs of calls writes down the calls
/// that its programs made. As the history grows, so does what is written down, at its end.
pub trait Trimming: Batching {
    /// What the object writes down.
    type Line: Copy;

    // What the object writes down of a history.
    ghost lines: { List (EntryValue Self.Call Self.Reply) → List Self.Line };

    /// The place of the first line that is kept.
    fn kept_from(&self) -> u64
        ensures place { result ≡ first_kept (Self.cut self.now) (Self.bound self.now).lines (length (lines (Self.history self.now))) }
        ensures within { result ≤ length (lines (Self.history self.now)) }
        ensures few { length (lines (Self.history self.now)) < 2 ^ 64 };

    /// The lines that are kept, oldest first.
    fn kept(&self) -> &[Self::Line]
        ensures { result.now ≡ kept (Self.cut self.now) (Self.bound self.now).lines (lines (Self.history self.now)) };

    /// Lets go of the oldest `count` lines that are kept, or of all that are if these are fewer, and returns how many they
    /// were.
    fn let_go(&mut self, count: u64) -> u64
        ensures count { result ≡ min count (length (lines (Self.history self.old)) - first_kept (Self.cut self.old) (Self.bound self.old).lines (length (lines (Self.history self.old)))) }
        ensures cut { Self.cut self.new ≡ first_kept (Self.cut self.old) (Self.bound self.old).lines (length (lines (Self.history self.old))) + result }
        ensures history { Self.history self.new ≡ Self.history self.old }
        ensures sessions { Self.sessions self.new ≡ Self.sessions self.old }
        ensures bound { Self.bound self.new ≡ Self.bound self.old };

    /// Hands out the lines that are kept, and lets go of them. Hands out none if the object has written down more than
    /// `MOST_DROPPED`. Takes no memory.
    fn take_kept(&mut self, alloc: Global) -> Vec<Self::Line>
        ensures cut { Self.cut self.new ≡ first_kept (Self.cut self.old) (Self.bound self.old).lines (length (lines (Self.history self.old))) + length result.items }
        ensures all { length (lines (Self.history self.old)) ≤ MOST_DROPPED → result.items ≡ kept (Self.cut self.old) (Self.bound self.old).lines (lines (Self.history self.old)) }
        ensures none { MOST_DROPPED < length (lines (Self.history self.old)) → result.items ≡ [] }
        ensures history { Self.history self.new ≡ Self.history self.old }
        ensures sessions { Self.sessions self.new ≡ Self.sessions self.old }
        ensures bound { Self.bound self.new ≡ Self.bound self.old };

    // As the history grows, what is written down grows at its end.
    ghost grows: { (front rest : List (EntryValue Self.Call Self.Reply)) → (more : List Self.Line) × (lines (front ++ rest) ≡ lines front ++ more) };
}
