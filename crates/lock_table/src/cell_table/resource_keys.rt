//! The resources of a table of cells: the keys in use, and behind them the provisional one.

ghost use Rattle.std.specs.Prelude.{◌≡◌, ◌+◌, ◌<◌, ℕ, true, false, List, [], ◌∷◌, ◌++◌, Some, length, slice_get, position, swap_remove, IfSome, OnOk, OnErr};
ghost use Rattle.std.specs.List.{IsDistinct};
ghost use Rattle.lock_tree.specs.Paths.{same_path};
ghost use Rattle.session_locks.specs.Resources.{has_path};

use indexmap::IndexSet;
use lock_tree::{Resource, same_path_is_equality};
use session_locks::{Seeded, is_same};
use std::alloc::{AllocError, Global};
use std::marker::Model;

/// Resources, each with a place.
type Resources = IndexSet<Resource, Seeded>;

/// The resources whose cells are in use, each once, and behind them the provisional key, if there is one.
#[derive(Drop)]
pub(super) struct ResourceKeys {
    /// All keys.
    resources: Resources,
    /// Whether the last key is provisional: a lock has looked for this resource, which has no cell in use so far. If
    /// the lock is granted at once, the key needn't be looked for again. If not, the next look-up for a lock removes
    /// the key, or the next removal of a cell.
    has_provisional: bool,
}

impl Model for ResourceKeys {
    ghost use Rattle.std.specs.Prelude.{◌≡◌, ℕ, List};
    ghost use Rattle.lock_tree.specs.Paths.{same_path};
    ghost use Rattle.lock_table.specs.inner.Cells.{Keys, in_use};

    ghost Value = { Keys };

    ghost view = { λ a. record { used = in_use a.resources.keys a.has_provisional; has_provisional = a.has_provisional } };

    // Keys are compared as paths.
    ghost invariant = { λ a. (x y : List ℕ) → ⟦<Resource as PartialEq>⟧.eq x y ≡ same_path x y };
}

/// Whether the key at `place` is `resource`.
#[inline(always)]
fn is_at(resources: &Resources, place: usize, resource: Resource) -> bool
    ensures { result ≡ true → slice_get resources.now.keys place ≡ Some resource }
{
    match resources.get_index(place) {
        Some(here) => is_same(*here, resource),
        None => false,
    }
}

impl ResourceKeys {
    /// No keys, which are hashed behind a seed.
    pub(super) fn new(alloc: Global, seed: u64) -> ResourceKeys
        ensures { result.used ≡ [] }
    {
        same_path_is_equality();
        ResourceKeys {
            resources: IndexSet::with_hasher(alloc, Seeded::new(seed)),
            has_provisional: false,
        }
    }

    /// Removes the provisional key, if there is one.
    fn drop_provisional(&mut self)
        ensures used { self.new.used ≡ self.old.used }
        ensures none { self.new.has_provisional ≡ false }
    {
        if self.has_provisional {
            let _gone = self.resources.pop();
            self.has_provisional = false;
        }
    }

    /// Makes room for `more` keys beside those in use. If memory is refused, some room may have been made.
    pub(super) fn reserve(&mut self, more: usize) -> Result<(), AllocError>
        ensures used { self.new.used ≡ self.old.used }
    {
        self.drop_provisional();
        self.resources.reserve(more)
    }

    /// Gives back the room for further keys.
    pub(super) fn shrink(&mut self)
        ensures used { self.new.used ≡ self.old.used }
    {
        self.drop_provisional();
        self.resources.shrink_to_fit();
    }

    /// The number of keys in use.
    #[inline(always)]
    pub(super) fn len(&self) -> usize
        ensures len { result ≡ length self.now.used }
        ensures apart { IsDistinct same_path self.now.used }
    {
        let all = self.resources.len();
        if self.has_provisional {
            return all.saturating_sub(1);
        }
        all
    }

    /// The keys in use.
    pub(super) fn as_slice(&self) -> &[Resource]
        ensures used { result.now ≡ self.now.used }
        ensures apart { IsDistinct same_path self.now.used }
    {
        let used = self.len();
        let all = self.resources.as_slice();
        &all[..used]
    }

    /// The place of `resource`, if it is in use.
    pub(super) fn place_of(&self, resource: Resource) -> Option<usize>
        ensures { result ≡ position (same_path resource) self.now.used }
    {
        match self.resources.get_index_of(&resource) {
            Some(place) if place < self.len() => Some(place),
            _ => None,
        }
    }

    /// Like `place_of`, but looks at the place `likely` first.
    pub(super) fn place_near(&self, likely: usize, resource: Resource) -> Option<usize>
        ensures { result ≡ position (same_path resource) self.now.used }
    {
        if likely < self.len() && is_at(&self.resources, likely, resource) {
            return Some(likely);
        }
        self.place_of(resource)
    }

    /// Like `place_of`, but makes `resource` the provisional key if it isn't in use, unless memory for it is refused.
    pub(super) fn find_or_insert(&mut self, resource: Resource) -> Option<usize>
        ensures place { result ≡ position (same_path resource) self.old.used }
        ensures used { self.new.used ≡ self.old.used }
    {
        self.drop_provisional();
        let Ok((place, added)) = self.resources.insert_full(resource) else {
            return self.place_of(resource);
        };
        if added {
            self.has_provisional = true;
            return None;
        }
        Some(place)
    }

    /// Takes `resource`, which isn't in use, into use behind all others. If memory is refused, the keys in use are unchanged.
    #[inline(always)]
    pub(super) fn add(&mut self, resource: Resource) -> Result<(), AllocError>
        requires { has_path resource self.old.used ≡ false }
        ensures ok { OnOk result (self.new.used ≡ self.old.used ++ resource ∷ []) }
        ensures err { OnErr result (self.new.used ≡ self.old.used) }
    {
        if self.has_provisional && is_at(&self.resources, self.len(), resource) {
            self.has_provisional = false;
            return Ok(());
        }
        self.add_new(resource)
    }

    /// Like `add`, but doesn't look at the provisional key.
    #[inline(never)]
    fn add_new(&mut self, resource: Resource) -> Result<(), AllocError>
        requires { has_path resource self.old.used ≡ false }
        ensures ok { OnOk result (self.new.used ≡ self.old.used ++ resource ∷ []) }
        ensures err { OnErr result (self.new.used ≡ self.old.used) }
    {
        self.drop_provisional();
        self.resources.insert(resource)?;
        Ok(())
    }

    /// Takes the key at `place` out of use, and returns the last place in use, whose key moves to `place`.
    pub(super) fn swap_remove(&mut self, place: usize) -> usize
        requires { place < length self.old.used }
        ensures last { result + 1 ≡ length self.old.used }
        ensures gone { IfSome (slice_get self.old.used place) (λ r. self.new.used ≡ swap_remove self.old.used place r) }
        ensures apart { IsDistinct same_path self.old.used }
    {
        self.drop_provisional();
        let last = self.resources.len() - 1;
        let _gone = self.resources.swap_remove_index(place);
        last
    }
}
