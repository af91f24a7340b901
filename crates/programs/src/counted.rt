//! A list that only contracts see, with its length.

ghost use Rattle.std.specs.Prelude.{◌≡◌, ◌+◌, ◌^◌, ◌<◌, [], ◌∷◌, ◌++◌, false, length};

use sequential::GhostList;
use std::marker::Model;

/// A list that only contracts see, with its length, which is below 2^64.
#[derive(Drop)]
pub(crate) struct CountedList<T> {
    /// The number of items.
    count: u64,
    /// All items, oldest first. It takes no memory.
    all: GhostList<T>,
}

impl<T> Model for CountedList<T> {
    ghost use Rattle.std.specs.Prelude.{◌≡◌, List, length};

    ghost Value = { List T };

    ghost view = { λ a. a.all.items };

    ghost invariant = { λ a. a.count ≡ length a.all.items };
}

impl<T: Drop> CountedList<T> {
    /// A list without items.
    pub(crate) fn new() -> CountedList<T>
        ensures { result ≡ [] }
    {
        CountedList {
            count: 0,
            all: GhostList::new(),
        }
    }

    /// The number of items.
    pub(crate) fn count(&self) -> u64
        ensures { result ≡ length self.now }
    {
        self.count
    }

    /// Whether there is no room for another item: there are 2^64 - 1.
    pub(crate) fn is_full(&self) -> bool
        ensures { result ≡ false → length self.now + 1 < 2 ^ 64 }
    {
        self.count == u64::MAX
    }

    /// Appends an item, for which there is room. The caller keeps it.
    pub(crate) fn push(&mut self, item: &T)
        requires room { length self.old + 1 < 2 ^ 64 }
        ensures { self.new ≡ self.old ++ item.now ∷ [] }
    {
        self.all.push(item);
        self.count += 1;
    }
}
