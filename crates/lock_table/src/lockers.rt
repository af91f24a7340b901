//! A locker: what the lock table knows of one session.

ghost use Rattle.std.specs.Prelude.{◌≡◌, ℕ, ◌+◌, ◌<◌, ◌≤◌, false, true, None, Some, length, List, [], ◌∷◌, ◌++◌, is_some, OnOk, IfSome, IfNone};
ghost use Rattle.lock_rules.specs.State.{number_in, doomed_in};
ghost use Rattle.lock_rules.specs.Waits.{doom};
ghost use Rattle.lock_rules.specs.Step.{restarted};
ghost use Rattle.lock_rules.specs.declared.calls.TheConstants.{MAX_LOCKS};
ghost use Rattle.lock_tree.specs.Paths.{same_path};
ghost use Rattle.session_locks.specs.Resources.{has_path, AreApart, AreApart-prop};
ghost use Rattle.session_locks.specs.LockLists.{has_child, IsUnder};
ghost use Rattle.lock_table.specs.inner.Requests.{resource_asked, is_fresh, wanted_in, locks_to_come, IsOfKind, IsOfKind-prop, IsComingUnder, IsComingUnder-prop};

mod pages;

use lock_rules::{MAX_LOCKS, Transaction};
use lock_tree::{LEVELS, Resource};
use session_locks::{HeldLock, Locks};
use std::alloc::{AllocError, Global};

/// A waiting request.
#[derive(Clone, Copy, Debug, PartialEq, Eq)]
pub enum LockRequest {
    /// For a lock on a resource that the session doesn't hold.
    Fresh(Resource),
    /// For a higher mode on a resource that the session holds.
    Conversion(Resource),
}

/// What the lock table knows of one session.
///
/// No resource stands twice among the locks. If a fresh request waits, its resource isn't held, its parent is, and there
/// is room for the lock that its grant adds: so a promotion takes no memory. If a conversion waits, its resource is held.
/// The locks, with that of a fresh request, are at most `MAX_LOCKS`.
///
/// ```text
/// Locker of session 3
///  ├─ transaction  number 7, doomed: no
///  ├─ wanted       Fresh(resource) or Conversion(resource)
///  ├─ parent_hint  where the cells last locked were
///  └─ held         its locks
/// ```
#[derive(Drop)]
pub struct Locker {
    /// The open transaction of the session, if it has one.
    transaction: Option<Transaction>,
    /// The resources that the session holds outright. The modes are in the cells.
    held: Locks,
    /// The waiting request of the session, if it has one.
    wanted: Option<LockRequest>,
    /// Where the cell of the next lock's parent may be.
    parent_hint: ParentHint,
    ghost apart: { AreApart held.items } by { AreApart-prop held.items },
    ghost few: { length held.items + locks_to_come wanted ≤ MAX_LOCKS },
    ghost room: { locks_to_come wanted ≤ held.room },
    ghost kind: { IsOfKind wanted held.items } by { IsOfKind-prop wanted held.items },
    ghost under: { IsComingUnder wanted held.items } by { IsComingUnder-prop wanted held.items },
}

/// For each level the place of the cell of the lock there that was last granted at once. Sessions lock down the tree, so the
/// parent of a lock or a conversion is likely the last lock of the level above. A place is only a guess: the cell table tests it.
#[derive(Clone, Copy, Debug, PartialEq, Eq)]
pub struct ParentHint {
    /// At index `level - 1` the place of the level, 0 if there was none.
    places: [usize; LEVELS],
}

/// The resource of the request.
fn resource_of(request: LockRequest) -> Resource
    ensures { result ≡ resource_asked request }
{
    match request {
        LockRequest::Fresh(resource) | LockRequest::Conversion(resource) => resource,
    }
}

/// The number of the transaction; 0 if there is none.
fn number_of(transaction: Option<Transaction>) -> u64
    ensures { result ≡ number_in transaction }
{
    match transaction {
        Some(transaction) => transaction.number,
        None => 0,
    }
}

/// Whether the transaction is a deadlock victim.
fn is_doomed(transaction: Option<Transaction>) -> bool
    ensures { result ≡ doomed_in transaction }
{
    match transaction {
        Some(transaction) => transaction.doomed,
        None => false,
    }
}

/// The same transaction as a deadlock victim.
fn doom(transaction: Option<Transaction>) -> Option<Transaction>
    ensures { result ≡ doom transaction }
{
    match transaction {
        Some(transaction) => Some(Transaction {
            number: transaction.number,
            doomed: true,
        }),
        None => None,
    }
}

/// The same transaction begun again: with its number, and no deadlock victim.
fn restarted(transaction: Option<Transaction>) -> Option<Transaction>
    ensures { result ≡ restarted transaction }
{
    match transaction {
        Some(transaction) => Some(Transaction {
            number: transaction.number,
            doomed: false,
        }),
        None => None,
    }
}

/// Whether a request waits that is no conversion.
fn is_fresh(wanted: Option<LockRequest>) -> bool
    ensures { result ≡ is_fresh wanted }
{
    matches!(wanted, Some(LockRequest::Fresh(_)))
}

impl Locker {
    ghost use Rattle.lock_table.specs.inner.Lockers.{no_standing, standing_of, standing_after_grant, standing_after_asking, is_wanted};

    /// The locker of a session without a transaction. Its resources are hashed behind a seed.
    pub(crate) fn new(alloc: Global, seed: u64) -> Locker
        ensures { standing_of result ≡ no_standing }
    {
        Locker {
            transaction: None,
            held: Locks::new(alloc, seed),
            wanted: None,
            parent_hint: ParentHint {
                places: [0; LEVELS],
            },
        }
    }

    /// Gives back the memory of the list of locks, if the session holds none and doesn't wait.
    pub(crate) fn shrink(&mut self)
        ensures standing { standing_of self.new ≡ standing_of self.old }
    {
        if self.wanted.is_none() {
            self.held.shrink();
        }
    }

    /// The number of the open transaction; 0 if there is none.
    pub(crate) fn number(&self) -> u64
        ensures { result ≡ number_in self.now.transaction }
    {
        number_of(self.transaction)
    }

    /// The open transaction, if there is one.
    pub(crate) fn transaction(&self) -> Option<Transaction>
        ensures { result ≡ self.now.transaction }
    {
        self.transaction
    }

    /// Whether the session has an open transaction.
    pub(crate) fn is_open(&self) -> bool
        ensures { result ≡ is_some self.now.transaction }
    {
        self.transaction.is_some()
    }

    /// Whether the transaction is a deadlock victim.
    pub(crate) fn is_doomed(&self) -> bool
        ensures { result ≡ doomed_in self.now.transaction }
    {
        is_doomed(self.transaction)
    }

    /// Whether a request of the session waits.
    pub(crate) fn is_waiting(&self) -> bool
        ensures { result ≡ is_some (wanted_in self.now.wanted) }
    {
        self.wanted.is_some()
    }

    /// The resource of the waiting request, if there is one.
    pub(crate) fn resource_wanted(&self) -> Option<Resource>
        ensures { result ≡ wanted_in self.now.wanted }
    {
        match self.wanted {
            Some(request) => Some(resource_of(request)),
            None => None,
        }
    }

    /// The number of locks held.
    pub(crate) fn locks(&self) -> usize
        ensures { result ≡ length self.now.held.items }
    {
        self.held.len()
    }

    /// Whether the session holds a child of `resource`.
    pub(crate) fn holds_child(&self, resource: Resource) -> bool
        ensures { result ≡ has_child resource self.now.held.items }
    {
        self.held.holds_child(resource)
    }

    /// Opens the transaction with this number.
    pub(crate) fn begin(&mut self, number: u64)
        ensures { self.new ≡ record self.old { transaction = Some (record { number = number; doomed = false }) } }
    {
        self.transaction = Some(Transaction {
            number,
            doomed: false,
        });
    }

    /// Closes the transaction.
    pub(crate) fn end(&mut self)
        ensures { self.new ≡ record self.old { transaction = None } }
    {
        self.transaction = None;
    }

    /// Begins the transaction again, with its number: it is no deadlock victim any more.
    pub(crate) fn restart(&mut self)
        ensures { self.new ≡ record self.old { transaction = restarted self.old.transaction } }
    {
        self.transaction = restarted(self.transaction);
    }

    /// Marks the transaction as a deadlock victim.
    pub(crate) fn doom(&mut self)
        ensures { self.new ≡ record self.old { transaction = doom self.old.transaction } }
    {
        self.transaction = doom(self.transaction);
    }

    /// Makes room for one more lock. The session must not wait.
    pub(crate) fn make_room(&mut self) -> Result<(), AllocError>
        requires idle { self.old.wanted ≡ None }
        ensures room { OnOk result (0 < self.new.held.room) }
        ensures standing { standing_of self.new ≡ standing_of self.old }
    {
        self.held.make_room()
    }

    /// The likely place of the cell of the parent of `resource`: a guess.
    pub(crate) fn likely_parent(&self, resource: Resource) -> usize {
        let above = (resource.level() as usize).wrapping_sub(2);
        if above < LEVELS {
            self.parent_hint.places[above]
        } else {
            0
        }
    }

    /// The likely place of the cell of `resource`, which the session converts: a guess, if there is one.
    pub(crate) fn likely_converted(&mut self, resource: Resource) -> Option<usize>
        ensures { self.new ≡ self.old }
    {
        self.held.likely_converted(resource)
    }

    /// Adds `resource`, whose cell is at `place`, to the locks. There must be room, and the session must hold the parent.
    #[inline(always)]
    pub(crate) fn hold(&mut self, resource: Resource, place: usize)
        requires idle { self.old.wanted ≡ None }
        requires new { has_path resource self.old.held.items ≡ false }
        requires under { IsUnder self.old.held.items resource }
        requires few { length self.old.held.items < MAX_LOCKS }
        requires room { 0 < self.old.held.room }
        ensures { standing_of self.new ≡ standing_after_asking true resource (standing_of self.old) }
    {
        let own = (resource.level() as usize).wrapping_sub(1);
        if own < LEVELS {
            self.parent_hint.places[own] = place;
        }
        self.held.push(resource, place);
    }

    /// Makes `request` the waiting request. For a fresh one there must be room for the lock.
    pub(crate) fn wait_for(&mut self, request: LockRequest)
        requires kind { IsOfKind (Some request) self.old.held.items }
        requires under { IsComingUnder (Some request) self.old.held.items }
        requires few { length self.old.held.items + locks_to_come (Some request) ≤ MAX_LOCKS }
        requires room { locks_to_come (Some request) ≤ self.old.held.room }
        ensures { standing_of self.new ≡ standing_after_asking false (resource_asked request) (standing_of self.old) }
    {
        self.wanted = Some(request);
    }

    /// Ends the wait with a grant: a fresh request adds `resource`, whose cell is at `place`, to the locks. Takes no memory.
    pub(crate) fn grant(&mut self, resource: Resource, place: usize)
        requires { is_wanted resource (wanted_in self.old.wanted) ≡ true }
        ensures { standing_of self.new ≡ standing_after_grant resource (standing_of self.old) }
    {
        if is_fresh(self.wanted) {
            self.held.push(resource, place);
        }
        self.wanted = None;
    }

    /// Removes `resource` from the locks. The session must hold no child of it and must not wait.
    pub(crate) fn release(&mut self, resource: Resource)
        requires idle { self.old.wanted ≡ None }
        requires childless { has_child resource self.old.held.items ≡ false }
        ensures transaction { self.new.transaction ≡ self.old.transaction }
        ensures wanted { self.new.wanted ≡ self.old.wanted }
        ensures gone { has_path resource self.new.held.items ≡ false }
        ensures others { (q : List ℕ) → same_path resource q ≡ false → has_path q self.new.held.items ≡ has_path q self.old.held.items }
    {
        self.held.remove(resource);
    }

    /// Removes the waiting request, and returns its resource; `None` if there was no request.
    pub(crate) fn cancel(&mut self) -> Option<Resource>
        ensures resource { result ≡ wanted_in self.old.wanted }
        ensures none { self.new.wanted ≡ None }
        ensures transaction { self.new.transaction ≡ self.old.transaction }
        ensures held { self.new.held ≡ self.old.held }
    {
        let resource = self.resource_wanted();
        self.wanted = None;
        resource
    }

    /// Removes the last lock of the list, and returns it; `None` if there was no lock. The session must not wait.
    pub(crate) fn release_last(&mut self) -> Option<HeldLock>
        requires idle { self.old.wanted ≡ None }
        ensures some { IfSome result (λ last. self.old.held.items ≡ self.new.held.items ++ last.resource ∷ []) }
        ensures none { IfNone result (self.old.held.items ≡ []) }
        ensures transaction { self.new.transaction ≡ self.old.transaction }
        ensures wanted { self.new.wanted ≡ self.old.wanted }
    {
        self.held.pop()
    }

    /// Prepares for a release: many locks go into an index, by which each is found.
    pub(crate) fn index(&mut self)
        ensures { standing_of self.new ≡ standing_of self.old }
    {
        self.held.index();
    }
}
