//! The locks of one session: a list, and an index with counts of held children once the session releases locks early.

ghost use Rattle.std.specs.Prelude.{◌≡◌, ℕ, ◌+◌, ◌-◌, ◌<◌, ◌≤◌, true, false, List, [], ◌∷◌, ◌++◌, ◌==◌, if◌then◌else◌, length, swap_remove, slice_index_or, IfSome, IfNone, OnOk, vec_len, vec_capacity};
ghost use Rattle.indexmap.specs.IndexMap.{keys, values, index_map_len, spare};
ghost use Rattle.lock_tree.specs.Paths.{same_path};
ghost use Rattle.session_locks.specs.Resources.{has_path, AreApart};
ghost use Rattle.session_locks.specs.LockLists.{is_child, has_child, IsUnder, IsWithout};
ghost use Rattle.session_locks.specs.inner.ChildCounts.{AreUnder, DoCount, resources_of};

mod pages;

use crate::resource_order::is_same;
use crate::seeded::Seeded;
use indexmap::IndexMap;
use lock_rules::MAX_LOCKS;
use lock_tree::{Resource, same_path_is_equality};
use std::alloc::{AllocError, Global};
use std::marker::Model;

/// A release searches up to this many locks one by one. If there are more, it first moves them into the index.
const SHORT: usize = 16;

/// Resources, each with a number of children.
type Counts = IndexMap<Resource, u32, Seeded>;

/// The resources that a session holds: first those in the index, then the recent ones, in the order of their grants
/// until one of them is released early. Contracts see them as this list, with the room for more.
///
/// Most transactions never release a lock early, so a lock goes into a list first, where it costs no hash. A release of
/// one among many moves the list into the index, once for each lock. The index says by a count whether a child of a
/// lock is held, so a release costs the same in whatever order locks go.
///
/// ```text
/// indexed   1 → 2    1/1 → 0    1/2 → 0      resource → how many children are indexed
/// recent    1/2/1 @14    1/2/2 @15           resource @ place of its cell when granted
/// ```
///
/// Each indexed lock came after its parent.
#[derive(Drop)]
pub struct Locks {
    /// The locks that were indexed, each with the number of its children in the index, while `counts_valid`.
    indexed: Counts,
    /// The locks granted since.
    recent: Vec<HeldLock>,
    /// `recent` may hold up to this many locks without growing anything: it has memory for them, and the index has room
    /// for all of them. So a release takes no memory.
    reserved: usize,
    /// Whether the counts of the index are right. They aren't kept while all locks are given back, from the last to the
    /// first, and are right again once no lock is left.
    counts_valid: bool,
    /// The index in `recent` behind the lock that was converted last: a guess at the next one, since sessions mostly
    /// convert their locks in the order in which they took them.
    next_converted: usize,
}

/// A lock that a session holds.
#[derive(Clone, Copy, Debug, PartialEq, Eq)]
pub struct HeldLock {
    /// The resource.
    pub resource: Resource,
    /// The place of its cell when the lock was granted: a guess, which the cell table tests.
    pub likely: usize,
}

impl Model for Locks {
    ghost use Rattle.session_locks.specs.LockLists.{LockList};

    ghost Value = { LockList };

    ghost use Rattle.session_locks.specs.inner.LockLists.{locks_of, AreIndexed};

    ghost view = { locks_of };

    ghost invariant = { AreIndexed };
}

/// Whether `other` is a child of `resource`.
fn is_child(resource: Resource, other: Resource) -> bool
    ensures { result ≡ is_child resource other }
{
    match other.parent() {
        Some(parent) => is_same(parent, resource),
        None => false,
    }
}

/// Whether the list has a child of `resource`.
fn has_child(list: &[HeldLock], resource: Resource) -> bool
    ensures { result ≡ has_child resource (resources_of list.now) }
{
    list.iter().any(|lock| is_child(resource, lock.resource))
}

/// The index of `resource` in the list, if it is there.
fn search(list: &[HeldLock], resource: Resource) -> Option<usize>
    ensures within { IfSome result (λ i. i < length list.now) }
    ensures at { IfSome result (λ i. slice_index_or (resources_of list.now) i [] ≡ resource) }
    ensures none { IfNone result (has_path resource (resources_of list.now) ≡ false) }
{
    for index in 0..list.len() {
        let lock = list[index];
        if is_same(lock.resource, resource) {
            return Some(index);
        }
    }
    None
}

/// The index of the parent of `resource`, if the parent is indexed.
fn parent_place(indexed: &Counts, resource: Resource) -> Option<usize>
    requires { AreApart (keys indexed.now) }
    ensures within { IfSome result (λ p. p < index_map_len indexed.now) }
    ensures only { IfSome result (λ p. (i : ℕ) → i < index_map_len indexed.now
        → is_child (slice_index_or (keys indexed.now) i []) resource ≡ (p == i)) }
    ensures none { IfNone result ((i : ℕ) → i < index_map_len indexed.now
        → is_child (slice_index_or (keys indexed.now) i []) resource ≡ false) }
{
    same_path_is_equality();
    let Some(parent) = resource.parent() else {
        return None;
    };
    match indexed.get_full(&parent) {
        Some((place, _, _)) => Some(place),
        None => None,
    }
}

/// Adds 1 to the count of the parent of `resource`, if the parent is indexed.
fn raise_parent(indexed: &mut Counts, resource: Resource)
    requires counted { DoCount (keys indexed.old) (values indexed.old) }
    requires apart { AreApart (keys indexed.old) }
    requires few { index_map_len indexed.old < MAX_LOCKS }
    ensures keys { keys indexed.new ≡ keys indexed.old }
    ensures counts { (i : ℕ) → i < index_map_len indexed.old → slice_index_or (values indexed.new) i 0
        ≡ slice_index_or (values indexed.old) i 0 + (if is_child (slice_index_or (keys indexed.old) i []) resource then 1 else 0) }
    ensures spare { spare indexed.new ≡ spare indexed.old }
{
    if let Some(parent) = parent_place(indexed, resource) {
        indexed[parent] += 1;
    }
}

/// Subtracts 1 from the count of the parent of `resource`, if the parent is indexed. `resource` must be indexed. A count
/// that isn't right may be 0, and stays.
fn lower_parent(indexed: &mut Counts, resource: Resource)
    requires apart { AreApart (keys indexed.old) }
    requires there { has_path resource (keys indexed.old) ≡ true }
    ensures keys { keys indexed.new ≡ keys indexed.old }
    ensures counts { DoCount (keys indexed.old) (values indexed.old)
        → (i : ℕ) → i < index_map_len indexed.old → slice_index_or (values indexed.new) i 0
        + (if is_child (slice_index_or (keys indexed.old) i []) resource then 1 else 0) ≡ slice_index_or (values indexed.old) i 0 }
    ensures spare { spare indexed.new ≡ spare indexed.old }
{
    if let Some(parent) = parent_place(indexed, resource) {
        let count = &mut indexed[parent];
        *count = count.saturating_sub(1);
    }
}

/// Adds `resource` to the index, with the count 0: its children come after it. The index must have room.
fn index_one(indexed: &mut Counts, resource: Resource)
    requires counted { DoCount (keys indexed.old) (values indexed.old) }
    requires apart { AreApart (keys indexed.old) }
    requires new { has_path resource (keys indexed.old) ≡ false }
    requires under { IsUnder (keys indexed.old) resource }
    requires few { index_map_len indexed.old < MAX_LOCKS }
    requires room { 0 < spare indexed.old }
    ensures keys { keys indexed.new ≡ keys indexed.old ++ resource ∷ [] }
    ensures counted { DoCount (keys indexed.new) (values indexed.new) }
    ensures spare { spare indexed.old ≤ spare indexed.new + 1 }
{
    same_path_is_equality();
    raise_parent(indexed, resource);
    let _inserted = indexed.insert(resource, 0);
}

/// Removes `resource`, which has no children, from its place in the index. The last key moves to that place.
fn remove_indexed(indexed: &mut Counts, place: usize, resource: Resource)
    requires within { place < index_map_len indexed.old }
    requires at { slice_index_or (keys indexed.old) place [] ≡ resource }
    requires apart { AreApart (keys indexed.old) }
    requires childless { has_child resource (keys indexed.old) ≡ false }
    ensures keys { keys indexed.new ≡ swap_remove (keys indexed.old) place [] }
    ensures counted { DoCount (keys indexed.old) (values indexed.old) → DoCount (keys indexed.new) (values indexed.new) }
    ensures spare { spare indexed.old ≤ spare indexed.new }
{
    lower_parent(indexed, resource);
    let _removed = indexed.swap_remove_index(place);
}

/// Whether the index has a child of `resource`, by the count of `resource`.
fn counts_child(indexed: &Counts, resource: Resource) -> bool
    requires { DoCount (keys indexed.now) (values indexed.now) }
    ensures { result ≡ has_child resource (keys indexed.now) }
{
    same_path_is_equality();
    match indexed.get_full(&resource) {
        Some((_, _, count)) => *count > 0,
        None => false,
    }
}

/// Adds these locks to the index, in their order. Each parent comes before its children.
fn index_all(indexed: &mut Counts, recent: &[HeldLock])
    requires counted { DoCount (keys indexed.old) (values indexed.old) }
    requires apart { AreApart (keys indexed.old ++ resources_of recent.now) }
    requires under { AreUnder (keys indexed.old) (resources_of recent.now) }
    requires few { length (keys indexed.old ++ resources_of recent.now) ≤ MAX_LOCKS }
    requires room { length recent.now ≤ spare indexed.old }
    ensures keys { keys indexed.new ≡ keys indexed.old ++ resources_of recent.now }
    ensures counted { DoCount (keys indexed.new) (values indexed.new) }
    ensures spare { spare indexed.old ≤ spare indexed.new + length recent.now }
{
    for index in 0..recent.len() {
        let lock = recent[index];
        index_one(indexed, lock.resource);
    }
}

impl Locks {
    /// No locks, whose resources are hashed behind a seed.
    pub fn new(alloc: Global, seed: u64) -> Locks
        ensures { result.items ≡ [] }
    {
        Locks {
            indexed: IndexMap::with_hasher(alloc, Seeded::new(seed)),
            recent: Vec::new(alloc),
            reserved: 0,
            counts_valid: true,
            next_converted: 0,
        }
    }

    /// Gives back the memory of the lists, if there are no locks.
    pub fn shrink(&mut self)
        ensures { self.new.items ≡ self.old.items }
    {
        if self.len() > 0 {
            return;
        }
        self.reserved = 0;
        self.indexed.shrink_to_fit();
        self.recent.shrink_to_fit();
    }

    /// The number of locks.
    pub fn len(&self) -> usize
        ensures { result ≡ length self.now.items }
    {
        self.indexed.len() + self.recent.len()
    }

    /// Whether a child of `resource` is among the locks.
    pub fn holds_child(&self, resource: Resource) -> bool
        ensures { result ≡ has_child resource self.now.items }
    {
        if has_child(&self.recent, resource) {
            return true;
        }
        if self.counts_valid {
            return counts_child(&self.indexed, resource);
        }
        let keys = self.indexed.keys().as_slice();
        keys.iter().any(|key| is_child(resource, *key))
    }

    /// The likely place of the cell of `resource`, which is converted: a guess. `None` if `resource` isn't among the
    /// recent locks, or these are many and it isn't the one behind the lock that was converted last.
    pub fn likely_converted(&mut self, resource: Resource) -> Option<usize>
        ensures { self.new ≡ self.old }
    {
        let index = self.index_near(self.next_converted, resource)?;
        let lock = self.recent.get(index)?;
        self.next_converted = index.saturating_add(1);
        Some(lock.likely)
    }

    /// The index of `resource` among the recent locks. Looks at `index` first, and at the others only if they are few.
    fn index_near(&self, index: usize, resource: Resource) -> Option<usize> {
        match self.recent.get(index) {
            Some(lock) if is_same(lock.resource, resource) => Some(index),
            _ if self.recent.len() <= SHORT => search(&self.recent, resource),
            _ => None,
        }
    }

    /// Makes room for one more lock.
    #[inline]
    pub fn make_room(&mut self) -> Result<(), AllocError>
        ensures room { OnOk result (0 < self.new.room) }
        ensures items { self.new.items ≡ self.old.items }
    {
        if self.recent.len() < self.reserved {
            return Ok(());
        }
        self.grow()
    }

    /// Grows the list and the index, and notes for how many locks they have memory now. A full list about doubles.
    #[inline(never)]
    fn grow(&mut self) -> Result<(), AllocError>
        ensures room { OnOk result (0 < self.new.room) }
        ensures items { self.new.items ≡ self.old.items }
    {
        self.recent.reserve(1)?;
        self.indexed.reserve(self.recent.len() + 1)?;
        let indexable = self.indexed.capacity() - self.indexed.len();
        self.reserved = self.recent.capacity().min(indexable);
        Ok(())
    }

    /// Adds `resource`, whose cell is at `place`. There must be room, and the parent must be among the locks.
    pub fn push(&mut self, resource: Resource, place: usize)
        requires under { IsUnder self.old.items resource }
        requires room { 0 < self.old.room }
        ensures { self.new.items ≡ self.old.items ++ resource ∷ [] }
    {
        self.recent.push_reserved(HeldLock {
            resource,
            likely: place,
        });
    }

    /// Removes the last lock, and returns it; `None` if there was none. Stops keeping the counts of the index.
    pub fn pop(&mut self) -> Option<HeldLock>
        ensures some { IfSome result (λ last. self.old.items ≡ self.new.items ++ last.resource ∷ []) }
        ensures none { IfNone result (self.old.items ≡ []) }
        ensures empty { IfNone result (self.new.items ≡ []) }
    {
        if let Some(last) = self.recent.pop() {
            return Some(last);
        }
        let (resource, _) = self.indexed.pop()?;
        self.counts_valid = self.indexed.is_empty();
        Some(HeldLock {
            resource,
            likely: 0,
        })
    }

    /// Moves the recent locks into the index, if they are more than `SHORT` and the counts are valid.
    pub fn index(&mut self)
        requires apart { AreApart self.old.items }
        requires few { length self.old.items ≤ MAX_LOCKS }
        ensures items { self.new.items ≡ self.old.items }
        ensures room { 0 < self.old.room → 0 < self.new.room }
    {
        if self.counts_valid && self.recent.len() > SHORT {
            index_all(&mut self.indexed, &self.recent);
            self.reserved -= self.recent.len();
            self.recent.clear();
        }
    }

    /// Removes `resource`, which has no children among the locks. Does nothing if it isn't among them.
    pub fn remove(&mut self, resource: Resource)
        requires apart { AreApart self.old.items }
        requires childless { has_child resource self.old.items ≡ false }
        ensures { IsWithout resource self.old.items self.new.items }
    {
        if let Some(place) = search(&self.recent, resource) {
            let _removed = self.recent.remove(place);
            return;
        }
        same_path_is_equality();
        if let Some((place, _, _)) = self.indexed.get_full(&resource) {
            remove_indexed(&mut self.indexed, place, resource);
        }
    }
}
