//! A list of which only the newest items are kept in memory, while contracts go on to see all.
//!
//! To let items go moves no item. When room is needed and the items that aren't kept are at least as many as those that are, the former
//! leave memory, and the kept ones move to the front. Not said by any clause: when items leave memory. Once more than [`MOST_DROPPED`]
//! were to leave it, [`TrimmedList::take_kept`] hands out none.

ghost use Rattle.std.specs.Prelude.{◌≡◌, ◌+◌, ◌-◌, ◌<◌, ◌≤◌, ◌^◌, List, [], ◌∷◌, ◌++◌, length, min, OnOk, OnErr};
ghost use Rattle.sequential.specs.Kept.{first_kept, kept};

use crate::ghost_list::GhostList;
use std::alloc::{AllocError as NoMemory, Global};
use std::marker::Model;
use std::mem;

/// The bound of a list that keeps all items but those that it was told to let go.
pub const NO_BOUND: u64 = u64::MAX;

/// No more items than these leave memory, so that every place fits into 64 bits.
pub const MOST_DROPPED: u64 = 1 << 62;

/// A list that grows at its end. Contracts see all items that were ever pushed. In memory it keeps those that are behind its
/// cut and among the newest `bound`; the others take no memory, but for some that wait to make room.
///
/// Contracts see all items, the cut, the bound, and for how many more items there is room.
#[derive(Drop)]
pub struct TrimmedList<T> {
    /// All items.
    all: GhostList<T>,
    /// The newest items: those that are kept, behind some that aren't any more.
    tail: Vec<T>,
    /// How many items are in memory no more: the place of the first one of `tail`.
    dropped: u64,
    /// The items before this place were let go.
    cut: u64,
    /// How many items are kept at most.
    bound: u64,
}

impl<T> Model for TrimmedList<T> {
    ghost use Rattle.sequential.specs.TrimmedView.{TrimmedView};
    ghost use Rattle.sequential.specs.inner.TrimmedInvariant.{view_of, HasTail};

    ghost Value = { TrimmedView T };

    ghost view = { view_of };

    ghost invariant = { HasTail };
}

impl<T: Copy> TrimmedList<T> {
    /// A list without items, which keeps all that will be pushed.
    pub fn new(alloc: Global) -> TrimmedList<T>
        ensures items { result.items ≡ [] }
        ensures cut { result.cut ≡ 0 }
        ensures bound { result.bound ≡ NO_BOUND }
    {
        TrimmedList {
            all: GhostList::new(),
            tail: Vec::new(alloc),
            dropped: 0,
            cut: 0,
            bound: NO_BOUND,
        }
    }

    /// How many items were pushed: the place that the next one gets.
    #[inline(always)]
    pub fn count(&self) -> u64
        ensures count { result ≡ length self.now.items }
    {
        self.dropped + self.tail.len() as u64
    }

    /// The place of the first item that is kept: the number of those that aren't.
    pub fn first_kept(&self) -> u64
        ensures place { result ≡ first_kept self.now.cut self.now.bound (length self.now.items) }
        ensures within { result ≤ length self.now.items }
    {
        u64::max(self.cut, self.count().saturating_sub(self.bound))
    }

    /// How many items are kept at most; `NO_BOUND` if there is no such bound.
    pub fn bound(&self) -> u64
        ensures bound { result ≡ self.now.bound }
    {
        self.bound
    }

    /// The items that are kept, oldest first.
    pub fn kept(&self) -> &[T]
        ensures kept { result.now ≡ kept self.now.cut self.now.bound self.now.items }
        ensures all { self.now.cut ≡ 0 → self.now.bound ≡ NO_BOUND → result.now ≡ self.now.items }
    {
        let dead = self.first_kept() - self.dropped;
        &self.tail[dead as usize..]
    }

    /// Makes room for `more` items. If memory is refused, no item and no bound changes.
    #[inline(always)]
    pub fn reserve(&mut self, more: usize) -> Result<(), NoMemory>
        ensures items { self.new.items ≡ self.old.items }
        ensures cut { self.new.cut ≡ self.old.cut }
        ensures bound { self.new.bound ≡ self.old.bound }
        ensures room { OnOk result (more ≤ self.new.room) }
        ensures places { OnOk result (length self.new.items + more < 2 ^ 64 - 1) }
    {
        if self.tail.capacity() - self.tail.len() >= more {
            return Ok(());
        }
        self.make_room(more)
    }

    /// Makes room for `more` items: drops those that aren't kept if they are as many as those that are, and grows else.
    #[inline(never)]
    fn make_room(&mut self, more: usize) -> Result<(), NoMemory>
        ensures items { self.new.items ≡ self.old.items }
        ensures cut { self.new.cut ≡ self.old.cut }
        ensures bound { self.new.bound ≡ self.old.bound }
        ensures room { OnOk result (more ≤ self.new.room) }
        ensures places { OnOk result (length self.new.items + more < 2 ^ 64 - 1) }
    {
        let dead = (self.first_kept() - self.dropped) as usize;
        if dead >= self.tail.len() - dead {
            self.drop_dead();
        }
        self.tail.reserve(more)
    }

    /// Takes the items that aren't kept out of memory, and moves the others to the front. Does nothing if more than
    /// `MOST_DROPPED` would then be dropped in all.
    fn drop_dead(&mut self)
        ensures items { self.new.items ≡ self.old.items }
        ensures cut { self.new.cut ≡ self.old.cut }
        ensures bound { self.new.bound ≡ self.old.bound }
        ensures room { self.old.room ≤ self.new.room }
    {
        let dead = self.first_kept() - self.dropped;
        if dead > MOST_DROPPED - self.dropped {
            return;
        }
        self.tail.copy_within(dead as usize.., 0);
        self.tail.truncate(self.tail.len() - dead as usize);
        self.dropped += dead;
    }

    /// Gives back the memory of items that aren't kept, and the room for more. Moves the items that are kept.
    pub fn shrink(&mut self)
        ensures items { self.new.items ≡ self.old.items }
        ensures cut { self.new.cut ≡ self.old.cut }
        ensures bound { self.new.bound ≡ self.old.bound }
    {
        self.drop_dead();
        self.tail.shrink_to_fit();
    }

    /// Appends an item, for which there is room.
    #[inline(always)]
    pub fn push_reserved(&mut self, item: T)
        requires room { 1 ≤ self.old.room }
        ensures items { self.new.items ≡ self.old.items ++ item ∷ [] }
        ensures cut { self.new.cut ≡ self.old.cut }
        ensures bound { self.new.bound ≡ self.old.bound }
        ensures room { self.new.room + 1 ≡ self.old.room }
    {
        self.all.push(&item);
        self.tail.push_reserved(item);
    }

    /// Appends an item. If memory is refused, no item and no bound changes.
    pub fn push(&mut self, item: T) -> Result<(), NoMemory>
        ensures ok { OnOk result (self.new.items ≡ self.old.items ++ item ∷ []) }
        ensures err { OnErr result (self.new.items ≡ self.old.items) }
        ensures cut { self.new.cut ≡ self.old.cut }
        ensures bound { self.new.bound ≡ self.old.bound }
    {
        self.reserve(1)?;
        self.push_reserved(item);
        Ok(())
    }

    /// Lets go of the oldest `count` items that are kept, or of all that are if these are fewer, and returns how many they
    /// were. Moves no item: their memory serves again for items to come.
    pub fn let_go(&mut self, count: u64) -> u64
        ensures items { self.new.items ≡ self.old.items }
        ensures bound { self.new.bound ≡ self.old.bound }
        ensures count { result ≡ min count (length self.old.items - first_kept self.old.cut self.old.bound (length self.old.items)) }
        ensures cut { self.new.cut ≡ first_kept self.old.cut self.old.bound (length self.old.items) + result }
    {
        let first = self.first_kept();
        let gone = u64::min(count, self.count() - first);
        self.cut = first + gone;
        gone
    }

    /// Keeps at most the newest `bound` items from now on. What isn't kept before doesn't come back.
    pub fn keep_at_most(&mut self, bound: u64)
        ensures items { self.new.items ≡ self.old.items }
        ensures bound { self.new.bound ≡ bound }
        ensures cut { self.new.cut ≡ first_kept self.old.cut self.old.bound (length self.old.items) }
    {
        self.cut = self.first_kept();
        self.bound = bound;
    }

    /// Hands out all items that are kept, and lets go of them. Hands out none if more than `MOST_DROPPED` items were ever
    /// pushed.
    pub fn take_kept(&mut self, alloc: Global) -> Vec<T>
        ensures items { self.new.items ≡ self.old.items }
        ensures bound { self.new.bound ≡ self.old.bound }
        ensures cut { self.new.cut ≡ first_kept self.old.cut self.old.bound (length self.old.items) + length result.items }
        ensures all { length self.old.items ≤ MOST_DROPPED → result.items ≡ kept self.old.cut self.old.bound self.old.items }
        ensures none { MOST_DROPPED < length self.old.items → result.items ≡ [] }
    {
        let first = self.first_kept();
        let count = self.count();
        if count > MOST_DROPPED {
            self.cut = first;
            return Vec::new(alloc);
        }
        let dead = (first - self.dropped) as usize;
        let mut taken = mem::replace(&mut self.tail, Vec::new(alloc));
        let len = taken.len();
        taken.rotate_left(dead);
        taken.truncate(len - dead);
        self.cut = count;
        self.dropped = count;
        taken
    }
}
