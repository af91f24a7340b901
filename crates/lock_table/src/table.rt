//! The lock table: all cells, all lockers and the waits-for graph, and the operations that change them together.

ghost use Rattle.std.specs.Prelude.{◌≡◌, ◌≢◌, ◌↔◌, ℕ, ◌+◌, ◌-◌, ◌<◌, ◌≤◌, ◌&&◌, nat_le, None, is_some, if◌then◌else◌, map, List, length, Contains, slice_index, true, IfOk, OnOk, OnErr, vec_len};
ghost use Rattle.waits_for.specs.Pairs.{pairs_of};
ghost use Rattle.lock_rules.specs.declared.calls.Reply.TheVariants.{Waiting, Deadlock};
ghost use Rattle.lock_rules.specs.State.{empty, doomed_in};
ghost use Rattle.lock_holders.specs.SessionModes.{pair_of};
ghost use Rattle.lock_table.specs.inner.Cells.{IsPlace};
ghost use Rattle.lock_table.specs.declared.cells.GivenUp.TheVariants as claim;
ghost use Rattle.session_locks.specs.LockLists.{has_child};
ghost use Rattle.lock_table.specs.inner.Lockers.{standing_of};
ghost use Rattle.lock_table.specs.Changes.{view_at, standing, with_ended_count, IsWhole, DoesKeep, MayServe, IsSession, mode_held, CanRelease, HasFreed, HasGivenBack, HasGivenBackAll, HasCancelled, HasBegun, HasEnded, HasNotedEnded};
ghost use Rattle.lock_holders.specs.Woken.{is_ended};
ghost use Rattle.lock_table.specs.inner.Ended.{waits_at};
ghost use Rattle.lock_table.specs.Noting.{AreChosen, IsCopyFor};
ghost use Rattle.lock_table.specs.Ready.{IsReadyTable};
ghost use Rattle.lock_table.specs.Shows.{Shows};

mod calls;
mod deadlocks;
mod gauges;
mod listing;
mod memory;
mod pages;
mod refusals;
mod requests;
mod restarts;

use crate::cell_table::{CellTable, GivenUpClaim};
use crate::cells::GivenUp;
use crate::graph_copy::GraphCopy;
use crate::lockers::Locker;
use crate::wait_graph::{Waits, count_victims, edges, has_edge, new_waits, set_number};
use lock_holders::{WokenList, position_of};
use lock_modes::Mode;
use lock_rules::{MAX_LOCKS, MAX_SESSIONS, Reply};
use lock_tree::Resource;
use std::alloc::{AllocError, Global};
use waits_for::Rows;

/// The lock table: a cell for each resource that is held or waited for, a locker for each session, and the waits-for
/// graph.
///
/// Between two operations, a session is among the holders of a resource exactly if its locker lists the resource, and in the queue exactly
/// if its locker waits for it. The waits-for graph has the edges that cells and lockers determine, and no others.
///
/// ```text
/// LockTable ── count: transactions begun
///  ├── cells: CellTable       a cell for each resource that is held or waited for
///  ├── lockers[session - 1]   a session's transaction, locks and request
///  ├── waits: Waits           the waits-for graph, and each transaction's number
///  └── ended: WokenList       whose wait the last call or batch has ended
/// ```
///
/// It shows the state that the history leads to (`specs/Shows.antt`). Locks are kept twice, by resource and by session: by cells alone, a
/// commit would look at the whole table. Each call makes room before its first change that contracts see. A refused growth may leave
/// memory, a provisional key or an index, which no call shows.
#[derive(Drop)]
pub struct LockTable {
    /// How many transactions have begun: the number of the newest one.
    count: u64,
    /// The locker of session `s` is at index `s - 1`.
    lockers: Vec<Locker>,
    /// The cells, by resource.
    cells: CellTable,
    /// The waits-for graph, and the number of each open transaction.
    waits: Waits,
    /// The sessions whose wait a call of another session has ended, since the list was cleared. None is listed twice.
    ended: WokenList,
}

impl LockTable {
    /// A table with a locker for each session, no transaction and no lock. Its resources are hashed behind a seed. Fails if memory is
    /// refused.
    pub fn new(alloc: Global, sessions: u16, seed: u64) -> Result<LockTable, AllocError>
        requires some { 1 ≤ sessions }
        requires few { sessions ≤ MAX_SESSIONS }
        ensures shows { IfOk result (λ lock_table. Shows lock_table empty) }
        ensures whole { IfOk result IsWhole }
        ensures ready { IfOk result IsReadyTable }
        ensures lockers { IfOk result (λ lock_table. vec_len lock_table.lockers ≡ sessions) }
        ensures none { IfOk result (λ lock_table. lock_table.ended.count ≡ 0) }
    {
        let waits = new_waits(alloc, sessions)?;
        let ended = WokenList::new(alloc, sessions)?;
        let mut lockers = Vec::new(alloc);
        for _locker in 0..sessions {
            lockers.push(Locker::new(alloc, seed))?;
        }
        Ok(LockTable {
            count: 0,
            lockers,
            cells: CellTable::new(alloc, seed),
            waits,
            ended,
        })
    }

    /// The sessions whose wait has ended since the list was cleared.
    pub fn ended(&self) -> &[u16]
        ensures waits_ended { (u : ℕ) → Contains result.now u ↔ (is_ended self.now.ended u ≡ true) }
        ensures once { (j k : ℕ) → j < k → k < length result.now → slice_index result.now j ≢ slice_index result.now k }
    {
        self.ended.list()
    }

    /// Clears the list of ended waits, and returns how many sessions it had.
    pub fn clear_ended(&mut self) -> u16
        ensures count { result ≡ self.old.ended.count }
        ensures few { result ≤ length self.new.ended.places }
        ensures cleared { self.new ≡ with_ended_count 0 self.old }
    {
        self.ended.clear()
    }

    /// Takes the `count` sessions up again that `clear_ended` removed, if no wait has ended since.
    pub fn restore_ended(&mut self, count: u16)
        requires { count ≤ length self.old.ended.places }
        ensures { self.new ≡ with_ended_count count self.old }
    {
        self.ended.restore(count);
    }

    /// The locker of `session`.
    pub(crate) fn locker(&self, session: u16) -> &Locker
        requires session { IsSession session self.now }
        ensures { standing_of result.now ≡ standing session self.now }
    {
        &self.lockers[position_of(session)]
    }

    /// The mode in which `session` holds a lock on `resource` itself.
    pub fn held(&self, session: u16, resource: Resource) -> Option<Mode>
        ensures { result ≡ mode_held self.now session resource }
    {
        match self.cells.cell_of(resource) {
            Some(cell) => cell.mode_held(session),
            None => None,
        }
    }

    /// Whether `session` waits for `other` directly. False if there is no such session.
    pub fn waits_for(&self, session: u16, other: u16) -> bool
        ensures { result ≡ (nat_le 1 session && (nat_le 1 other && pairs_of self.now.waits.rows (session - 1) (other - 1))) }
    {
        has_edge(&self.waits, session, other)
    }

    /// The edges of the waits-for graph.
    pub fn edges(&self) -> &Rows
        ensures { result.now ≡ self.now.waits.rows }
    {
        edges(&self.waits)
    }

    /// Counts the victims that would be chosen for `session`, `most` at most, on `copy`: as many as `session` is going to make.
    pub fn count_victims(&self, copy: &mut GraphCopy, session: u16, most: usize) -> usize
        requires may_serve { MayServe session self.now }
        requires copy { IsCopyFor (vec_len self.now.lockers) copy.old }
        ensures copy { IsCopyFor (vec_len self.now.lockers) copy.new }
        ensures few { result ≤ most }
        ensures chosen { (vs : List ℕ) × AreChosen (pairs_of self.now.waits.rows) self.now.waits.numbers.items (session - 1) vs × (length vs ≡ result) }
    {
        count_victims(&self.waits, copy, session, most)
    }

    /// The place of the cell of `parent`, the parent of `resource`. Looks first at the place that the session's
    /// locker remembers.
    pub(crate) fn parent_place(
        &self,
        session: u16,
        resource: Resource,
        parent: Resource,
    ) -> Option<usize>
        requires session { IsSession session self.now }
        ensures { IsPlace parent self.now.cells.entries result }
    {
        let locker = &self.lockers[position_of(session)];
        let likely = locker.likely_parent(resource);
        self.cells.place_near(likely, parent)
    }

    /// Replaces the contents of `list` by the holders of `resource`, by session number. Leaves `list` unchanged if
    /// memory is refused.
    pub fn holders(&self, resource: Resource, list: &mut Vec<(u16, Mode)>) -> Result<(), AllocError>
        ensures ok { OnOk result (list.new.items ≡ map pair_of (view_at resource self.now).holders) }
        ensures err { OnErr result (list.new.items ≡ list.old.items) }
    {
        match self.cells.cell_of(resource) {
            Some(cell) => cell.list_holders(list),
            None => {
                list.clear();
                Ok(())
            }
        }
    }

    /// Whether `session` holds a child of `resource`.
    pub(crate) fn holds_child(&self, session: u16, resource: Resource) -> bool
        requires session { IsSession session self.now }
        ensures { result ≡ has_child resource (standing session self.now).held }
    {
        let locker = &self.lockers[position_of(session)];
        locker.holds_child(resource)
    }

    /// Releases the lock of `session` on `resource`, and promotes the queue of `resource`.
    ///
    /// `place` is the place of the cell. The session must hold the lock, hold no child of `resource`, and not wait.
    fn release(&mut self, session: u16, place: Option<usize>, resource: Resource)
        requires may_serve { MayServe session self.old }
        requires place { IsPlace resource self.old.cells.entries place }
        requires can { CanRelease session resource self.old }
        ensures freed { HasFreed claim.Lock session resource self.old self.new }
        ensures waits_ended { HasNotedEnded session self.old self.new }
        ensures kept { DoesKeep self.old self.new }
    {
        let locker = &mut self.lockers[position_of(session)];
        locker.release(resource);
        self.cells.free_at(
            &mut self.lockers,
            &mut self.waits,
            &mut self.ended,
            place,
            GivenUpClaim {
                session,
                resource,
                claim: GivenUp::Lock,
            },
        );
    }

    /// Releases the last lock in the session's list, and promotes the queue of its resource. The session must hold a
    /// lock and not wait.
    fn give_back(&mut self, session: u16)
        requires may_serve { MayServe session self.old }
        requires idle { (standing session self.old).wanted ≡ None }
        requires holds { 0 < length (standing session self.old).held }
        ensures back { HasGivenBack session self.old self.new }
        ensures waits_ended { HasNotedEnded session self.old self.new }
        ensures kept { DoesKeep self.old self.new }
    {
        let locker = &mut self.lockers[position_of(session)];
        if let Some(last) = locker.release_last() {
            let place = self.cells.place_near(last.likely, last.resource);
            self.cells.free_at(
                &mut self.lockers,
                &mut self.waits,
                &mut self.ended,
                place,
                GivenUpClaim {
                    session,
                    resource: last.resource,
                    claim: GivenUp::Lock,
                },
            );
        }
    }

    /// Releases all locks of `session`, the last one first, and returns how many they were. The session must not
    /// wait.
    fn give_back_all(&mut self, session: u16) -> usize
        requires may_serve { MayServe session self.old }
        requires idle { (standing session self.old).wanted ≡ None }
        ensures locks { result ≡ length (standing session self.old).held }
        ensures none { length (standing session self.new).held ≡ 0 }
        ensures back { HasGivenBackAll session self.old self.new }
        ensures waits_ended { HasNotedEnded session self.old self.new }
        ensures kept { DoesKeep self.old self.new }
    {
        let locker = self.locker(session);
        let locks = locker.locks();
        for _lock in 0..locks {
            self.give_back(session);
        }
        locks
    }

    /// Begins a transaction of `session`, and returns its number, which is the next one.
    fn begin(&mut self, session: u16) -> u64
        requires may_serve { MayServe session self.old }
        requires room { self.old.count < 18446744073709551615 }
        ensures number { result ≡ self.old.count + 1 }
        ensures begun { HasBegun session self.old self.new }
        ensures waits_ended { HasNotedEnded session self.old self.new }
        ensures kept { DoesKeep self.old self.new }
    {
        self.count += 1;
        let locker = &mut self.lockers[position_of(session)];
        locker.begin(self.count);
        set_number(&mut self.waits, session, self.count);
        self.count
    }

    /// Removes the request of `session`, if it waits, and promotes the queue that the request was in. Returns whether it
    /// waited.
    fn cancel(&mut self, session: u16) -> bool
        requires may_serve { MayServe session self.old }
        ensures waited { result ≡ waits_at session self.old.lockers.items }
        ensures cancelled { HasCancelled session self.old self.new }
        ensures waits_ended { HasNotedEnded session self.old self.new }
        ensures kept { DoesKeep self.old self.new }
    {
        let locker = &mut self.lockers[position_of(session)];
        let Some(resource) = locker.cancel() else {
            return false;
        };
        let place = self.cells.place_of(resource);
        self.cells.free_at(
            &mut self.lockers,
            &mut self.waits,
            &mut self.ended,
            place,
            GivenUpClaim {
                session,
                resource,
                claim: GivenUp::Request,
            },
        );
        true
    }

    /// Ends the transaction of `session`, releases all its locks, and returns how many they were. The session must
    /// not wait.
    fn end(&mut self, session: u16) -> usize
        requires may_serve { MayServe session self.old }
        requires idle { (standing session self.old).wanted ≡ None }
        ensures locks { result ≡ length (standing session self.old).held }
        ensures few { result ≤ MAX_LOCKS }
        ensures ended { HasEnded session self.old self.new }
        ensures waits_ended { HasNotedEnded session self.old self.new }
        ensures kept { DoesKeep self.old self.new }
    {
        let locks = self.give_back_all(session);
        let locker = &mut self.lockers[position_of(session)];
        locker.end();
        set_number(&mut self.waits, session, 0);
        locks
    }

    /// Aborts the transaction of `session`: removes its waiting request, releases all its locks, and returns how
    /// many they were.
    fn abort(&mut self, session: u16) -> usize
        requires may_serve { MayServe session self.old }
        ensures locks { result ≡ length (standing session self.old).held }
        ensures few { result ≤ MAX_LOCKS }
        ensures ended { HasEnded session self.old self.new }
        ensures waits_ended { HasNotedEnded session self.old self.new }
        ensures kept { DoesKeep self.old self.new }
    {
        self.cancel(session);
        self.end(session)
    }

    /// The reply on the state of the session's transaction: `Deadlock` if it is a victim, `Waiting` if its request
    /// waits, and else `otherwise`.
    fn standing_reply(&self, session: u16, otherwise: Reply) -> Reply
        requires session { IsSession session self.now }
        ensures { let x = standing session self.now in result ≡ (if doomed_in x.transaction then Deadlock
            else (if is_some x.wanted then Waiting else otherwise)) }
    {
        let locker = self.locker(session);
        if locker.is_doomed() {
            return Reply::Deadlock;
        }
        if locker.is_waiting() {
            return Reply::Waiting;
        }
        otherwise
    }
}
