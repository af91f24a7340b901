//! The newest deadlocks: of each the call that made it, and the cycle with what its members waited for.

ghost use Rattle.std.specs.Prelude.{◌≡◌, ℕ, ◌+◌, ◌-◌, ◌<◌, ◌≤◌, true, [], ◌∷◌, ◌++◌, drop, nat_lt, if◌then◌else◌, length, slice_index_or, vec_len, vec_capacity, IfOk};
ghost use Rattle.std.specs.List.{All};
ghost use Rattle.waits_for.specs.Pairs.{pairs_of};
ghost use Rattle.waits_for.specs.Walks.{Reaches};
ghost use Rattle.waits_for.specs.Cycles.{IsCycle};
ghost use Rattle.lock_rules.specs.State.{State};
ghost use Rattle.lock_rules.specs.Waits.{victim_of, waits_for};
ghost use Rattle.lock_rules.specs.Sound.{IsSound};
ghost use Rattle.lock_table.specs.Deadlocks.{moments_at};
ghost use Rattle.lock_desk.specs.Deadlocks.{IsMember, IsCycleTold, IsDeadlockTold, newest};
ghost use Rattle.lock_desk.specs.declared.deadlock_log.Deadlock.{Deadlock as DeadlockValue};
ghost use Rattle.lock_desk.specs.declared.deadlock_log.Member.{Member as MemberValue};
ghost use Rattle.lock_table.specs.Changes.{IsWhole, MayServe};
ghost use Rattle.lock_table.specs.Ready.{IsReadyTable};
ghost use Rattle.lock_table.specs.Shows.{Shows};
ghost use Rattle.lock_desk.specs.inner.WaitCounts.{no_waits, with_victim, with_abort, with_restart};
ghost use Rattle.lock_desk.specs.inner.Noting.{HasTold, IsLogFor};

use crate::wait_counts::WaitCounts;
use lock_holders::{position_of, session_at};
use lock_modes::Mode;
use lock_rules::{Claim, MAX_SESSIONS};
use lock_table::{DeadlockNotes, GraphCopy, LockTable};
use std::alloc::{AllocError, Global};
use std::marker::Model;
use waits_for::CycleSearch;

/// A session on the cycle of a deadlock.
#[derive(Clone, Copy, Debug, PartialEq, Eq, Hash)]
pub struct Member {
    /// The request that the session waited with.
    pub request: Claim,
    /// The mode in which the next session of the cycle held the requested resource. `None` if it held none: then its request was
    /// ahead in the queue.
    pub held: Option<Mode>,
}

/// A deadlock, as it was before its victim was doomed.
#[derive(Debug, Drop)]
pub struct Deadlock {
    /// The place in the history of the call that made it.
    pub place: u64,
    /// The session of that call.
    pub session: u16,
    /// The sessions on the cycle: the victim first, each of which waits for the next one, and the last for the victim.
    pub cycle: Vec<Member>,
}

/// The newest deadlocks, as many as were asked for.
///
/// Contracts see how many are kept at most, of how many sessions, those that are kept, oldest first, and what is counted of all. Only
/// `keeping` takes memory.
///
/// ```text
/// slots    5: 2▸1    10: 2▸1      oldest first: the place of the call, then the cycle, victim first
/// ```
///
/// A call that makes more victims than are kept searches for the first so many and for the last: it has chosen all on a copy of the graph,
/// where victims lose their edges and nobody is granted anything.
#[derive(Drop)]
pub struct DeadlockLog {
    /// A slot for each deadlock that may be kept. The newest are at the end.
    slots: Vec<Deadlock>,
    /// How many slots at the end have a deadlock.
    count: usize,
    /// The search for the cycle.
    search: CycleSearch,
    /// Memory to look ahead how many deadlocks a call makes.
    copy: GraphCopy,
    /// How many victims there were, and the waits that their own sessions gave up, also if no deadlock is kept.
    counts: WaitCounts,
}

impl Model for DeadlockLog {
    ghost use Rattle.lock_desk.specs.inner.Noting.{LogView, log_view_of, HasSlots};

    ghost Value = { LogView };

    ghost view = { log_view_of };

    ghost invariant = { HasSlots };
}

/// Appends what is told of `session`, which waits for `next`.
fn push_member(table: &LockTable, session: u16, next: u16, cycle: &mut Vec<Member>)
    requires whole { IsWhole table.now }
    requires ready { IsReadyTable table.now }
    requires room { length cycle.old.items < vec_capacity cycle.old }
    ensures told { (st : State) → IsSound st.table → Shows table.now st → waits_for st.table session next ≡ true
        → (m : MemberValue) × (cycle.new.items ≡ cycle.old.items ++ m ∷ []) × (m.request.session ≡ session) × IsMember st next m }
    ensures few { length cycle.new.items ≤ length cycle.old.items + 1 }
    ensures room { vec_capacity cycle.new ≡ vec_capacity cycle.old }
{
    let Some(request) = table.waiting_request(session) else {
        return;
    };
    let held = table.held(next, request.resource);
    cycle.push_reserved(Member { request, held });
}

/// The index behind this one on a cycle of `length` positions.
fn index_behind(index: usize, length: usize) -> usize
    requires { index < length }
    ensures { result ≡ (if nat_lt (index + 1) length then index + 1 else 0) }
{
    if index + 1 < length { index + 1 } else { 0 }
}

/// Replaces the contents of `cycle` by what is told of the sessions at these positions, each of which waits for the next one, and
/// the last for the first.
fn write_cycle(table: &LockTable, positions: &[usize], cycle: &mut Vec<Member>)
    requires whole { IsWhole table.now }
    requires ready { IsReadyTable table.now }
    requires cycle { IsCycle (pairs_of table.now.waits.rows) (slice_index_or positions.now 0 0) positions.now }
    requires room { length positions.now ≤ vec_capacity cycle.old }
    ensures cycle { (st : State) (session : ℕ) → IsSound st.table → Shows table.now st → victim_of st session ≡ slice_index_or positions.now 0 0 + 1
        → IsCycleTold st session cycle.new.items }
    ensures room { vec_capacity cycle.new ≡ vec_capacity cycle.old }
{
    cycle.clear();
    for index in 0..positions.len() {
        let session = session_at(positions[index]);
        let next = session_at(positions[index_behind(index, positions.len())]);
        push_member(table, session, next, cycle);
    }
}

/// Fills the slot of the oldest deadlock with one of `session`, whose call has the place `place`, and moves it to the end. The cycle is at
/// these positions, the victim first.
fn refill(
    slots: &mut Vec<Deadlock>,
    table: &LockTable,
    positions: &[usize],
    place: u64,
    session: u16,
)
    requires some { 0 < length slots.old.items }
    requires whole { IsWhole table.now }
    requires ready { IsReadyTable table.now }
    requires cycle { IsCycle (pairs_of table.now.waits.rows) (slice_index_or positions.now 0 0) positions.now }
    requires room { All (λ d. length positions.now ≤ vec_capacity d.cycle) slots.old.items }
    ensures slots { (d : DeadlockValue) × (slots.new.items ≡ drop 1 slots.old.items ++ d ∷ []) × ((st : State) → IsSound st.table → Shows table.now st
        → victim_of st session ≡ slice_index_or positions.now 0 0 + 1 → IsDeadlockTold (record { place = place; session = session; state = st }) d) }
    ensures room { (n : ℕ) → All (λ d. n ≤ vec_capacity d.cycle) slots.old.items → All (λ d. n ≤ vec_capacity d.cycle) slots.new.items }
{
    let mut deadlock = slots.remove(0);
    deadlock.place = place;
    deadlock.session = session;
    write_cycle(table, positions, &mut deadlock.cycle);
    slots.push_reserved(deadlock);
}

/// One more than `count`, `most` at most.
fn one_more(count: usize, most: usize) -> usize
    ensures { result ≡ (if nat_lt count most then count + 1 else count) }
{
    if count < most { count + 1 } else { count }
}

impl DeadlockLog {
    /// A log that keeps none.
    pub(crate) fn none(alloc: Global) -> Result<DeadlockLog, AllocError>
        ensures most { IfOk result (λ log. log.most ≡ 0) }
        ensures told { IfOk result (λ log. log.told ≡ []) }
        ensures counts { IfOk result (λ log. log.counts ≡ no_waits) }
    {
        DeadlockLog::keeping(alloc, 1, 0)
    }

    /// A log for sessions 1 to `sessions` that keeps the newest `most` deadlocks. Fails if memory is refused.
    pub(crate) fn keeping(
        alloc: Global,
        sessions: u16,
        most: usize,
    ) -> Result<DeadlockLog, AllocError>
        requires some { 1 ≤ sessions }
        requires few { sessions ≤ MAX_SESSIONS }
        ensures most { IfOk result (λ log. log.most ≡ most) }
        ensures sessions { IfOk result (λ log. log.sessions ≡ sessions) }
        ensures told { IfOk result (λ log. log.told ≡ []) }
        ensures counts { IfOk result (λ log. log.counts ≡ no_waits) }
    {
        let search = CycleSearch::new(alloc, sessions)?;
        let mut slots = Vec::with_capacity(alloc, most)?;
        for _slot in 0..most {
            slots.push(Deadlock {
                place: 0,
                session: 0,
                cycle: Vec::with_capacity(alloc, sessions as usize)?,
            })?;
        }
        Ok(DeadlockLog {
            slots,
            count: 0,
            search,
            copy: GraphCopy::new(alloc, sessions)?,
            counts: WaitCounts::NONE,
        })
    }

    /// How many deadlocks are kept at most.
    pub(crate) fn most(&self) -> usize
        ensures { result ≡ self.now.most }
    {
        self.slots.len()
    }

    /// The deadlocks that are kept, oldest first.
    pub(crate) fn told(&self) -> &[Deadlock]
        ensures { result.now ≡ self.now.told }
    {
        &self.slots[self.slots.len() - self.count..]
    }

    /// What is counted.
    pub(crate) fn counts(&self) -> WaitCounts
        ensures { result ≡ self.now.counts }
    {
        self.counts
    }

    /// Counts a victim that the call at `place` makes.
    fn count_victim(&mut self, place: u64)
        ensures { self.new ≡ record self.old { counts = with_victim place self.old.counts } }
    {
        self.counts = self.counts.with_victim(place);
    }

    /// Counts the wait of a session that aborts, if it waits.
    pub(crate) fn count_abort(&mut self, waits: bool)
        ensures { self.new ≡ record self.old { counts = with_abort waits self.old.counts } }
    {
        self.counts = self.counts.with_abort(waits);
    }

    /// Counts the wait of a session that restarts, if it waits.
    pub(crate) fn count_restart(&mut self, waits: bool)
        ensures { self.new ≡ record self.old { counts = with_restart waits self.old.counts } }
    {
        self.counts = self.counts.with_restart(waits);
    }

    /// Keeps the deadlock of `session`, whose call has the place `place`, before `victim` is doomed, and lets go of the oldest one if
    /// there are more than are kept. `victim` must be on a cycle.
    #[inline(never)]
    fn keep(&mut self, table: &LockTable, place: u64, session: u16, victim: u16)
        requires may_serve { MayServe victim table.now }
        requires log { IsLogFor (vec_len table.now.lockers) self.old }
        requires cycle { Reaches (pairs_of table.now.waits.rows) (victim - 1) (victim - 1) }
        ensures log { IsLogFor (vec_len table.now.lockers) self.new }
        ensures told { (st : State) → IsSound st.table → Shows table.now st → victim_of st session ≡ victim
            → HasTold (moments_at place session (st ∷ [])) self.old self.new }
        ensures counts { self.new.counts ≡ self.old.counts }
    {
        if self.slots.is_empty() {
            return;
        }
        if !self.search.find(table.edges(), position_of(victim)) {
            return;
        }
        refill(&mut self.slots, table, self.search.cycle(), place, session);
        self.count = one_more(self.count, self.slots.len());
    }
}

impl DeadlockNotes for DeadlockLog {
    ghost use Rattle.lock_desk.specs.inner.Noting.{IsLogFor, HasNoted};
    ghost use Rattle.lock_desk.specs.inner.NotedNothing.{noted-none};

    ghost fits = { IsLogFor };

    ghost noted = { HasNoted };

    /// Looks ahead once, when as many were `made` as are kept: of more, the first needn't be kept.
    fn coming(
        &mut self,
        table: &LockTable,
        session: u16,
        made: usize,
        rounds: usize,
        known: usize,
    ) -> usize {
        if known > 0 || made == 0 || made != self.slots.len() {
            return known;
        }
        table.count_victims(&mut self.copy, session, rounds)
    }

    /// Counts the deadlock, and keeps it in the place of the oldest one if there are more than are kept. If with it more are `coming` than
    /// are kept, it isn't kept, since those behind it take its place.
    fn note(&mut self, table: &LockTable, place: u64, session: u16, victim: u16, coming: usize) {
        self.count_victim(place);
        if coming <= self.most() {
            self.keep(table, place, session, victim);
        }
    }

    ghost none = { noted-none };
}

/// The newest `most` of these deadlocks.
pub(crate) fn newest_of(deadlocks: &[Deadlock], most: usize) -> &[Deadlock]
    ensures { result.now ≡ newest most deadlocks.now }
{
    &deadlocks[deadlocks.len().saturating_sub(most)..]
}
