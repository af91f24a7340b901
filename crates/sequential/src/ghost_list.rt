//! The list that clauses alone see.

ghost use Rattle.std.specs.Prelude.{◌≡◌, List, [], ◌∷◌, ◌++◌};
ghost use Rattle.std.specs.Borrow.{ftrue};

use std::marker::{Model, PhantomData};

/// A list that only clauses see, as `items`. It takes no memory, and its methods do nothing at run time.
///
/// Nothing but the clauses of its methods says what its items are. A type that has one ties it to its own data by an
/// invariant.
#[derive(Drop)]
pub struct GhostList<T> {
    /// The type of the items, of which none is there at run time.
    of: PhantomData<T>,
    /// All items that were pushed, oldest first.
    pub ghost items: { List T },
}

impl<T> Model for GhostList<T> {
    ghost also_owns = { λ _. ftrue };
}

// a list without bytes owns nothing, so any thread may have it
unsafe impl<T> Send for GhostList<T> {}

// and any threads may share it
unsafe impl<T> Sync for GhostList<T> {}

impl<T> GhostList<T> {
    /// A list without items.
    pub fn new() -> GhostList<T>
        ensures { result.items ≡ [] }
    {
        GhostList { of: PhantomData }
    }

    /// The list of the items of this one and one more.
    #[inline(always)]
    fn with(&self, item: &T) -> GhostList<T>
        ensures { result.items ≡ self.now.items ++ item.now ∷ [] }
    {
        let _ = item;
        GhostList { of: PhantomData }
    }
}

impl<T: Drop> GhostList<T> {
    /// Appends an item, which the caller keeps.
    #[inline(always)]
    pub fn push(&mut self, item: &T)
        ensures { self.new.items ≡ self.old.items ++ item.now ∷ [] }
    {
        *self = self.with(item);
    }
}
