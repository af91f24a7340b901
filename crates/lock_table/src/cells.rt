//! A cell: the holders and the wait queue of one resource.

ghost use Rattle.std.specs.Prelude.{◌≡◌, ℕ, ◌+◌, ◌<◌, ◌≤◌, insert, drop, true, false, not, [], ◌∷◌, ◌++◌, take, map, ◌&&◌, ◌||◌, ◌==◌, Some, IfOk, IfSome, OnOk, OnErr, length, vec_len, vec_capacity};
ghost use Rattle.waits_for.specs.Pairs.{pairs_of};
ghost use Rattle.lock_holders.specs.declared.session_mode.SessionMode.{SessionMode as SessionModeValue};
ghost use Rattle.lock_table.specs.inner.Cells.{no_view, view_of, view_after_giving_up, next_grant, can_grant, is_granted, behind_conversions, queue_with, view_after_asking, HasRoom, IsKeptCell, is_busy};
ghost use Rattle.lock_holders.specs.SessionModes.{has_session, mode_of, pair_of, with_holder, fits_among, go_with, Ascends, holder_blocks, AreOfSessions};
ghost use Rattle.lock_holders.specs.Holders.{IsPlaceOf};

use lock_holders::{HolderPlace, Holders, SessionMode};
use lock_modes::Mode;
use std::alloc::{AllocError, Global};
use waits_for::Rows;

/// What a session gives up at a resource.
#[derive(Clone, Copy, Debug, PartialEq, Eq)]
pub enum GivenUp {
    /// Its lock.
    Lock,
    /// Its waiting request.
    Request,
}

/// What became of a request.
#[derive(Clone, Copy, Debug, PartialEq, Eq)]
pub enum RequestStatus {
    /// Granted at once.
    Granted,
    /// Added to the queue.
    Waiting,
}

/// The holders and the wait queue of one resource. An idle cell has neither a holder nor a request.
///
/// A session is at most once among the holders, and at most once in the queue. It can be both: then its request is a conversion.
///
/// ```text
/// Cell of 1/1
///  ├─ holders    single: 3:X      or columns     sessions  1   2   5
///  │                                             codes     S   IS  S
///  └─ waiting    5→X   │   7:IX   4:S            conversions, then fresh requests
/// ```
#[derive(Drop)]
pub struct Cell {
    /// The holders, by session number. There is room for all waiting sessions too, so that a promotion takes no
    /// memory.
    holders: Holders,
    /// The queue: first the conversions, then the fresh requests, each kind in order of arrival.
    waiting: Vec<SessionMode>,
}

/// Whether `shared` is this mode.
fn is_mode(shared: Option<Mode>, mode: Mode) -> bool
    ensures { result ≡ true → shared ≡ Some mode }
{
    match shared {
        Some(shared) => shared == mode,
        None => false,
    }
}

/// Inserts `one` at `index`. The list must have room.
fn insert_at(list: &mut Vec<SessionMode>, index: usize, one: SessionMode)
    requires index { index ≤ vec_len list.old }
    requires room { vec_len list.old < vec_capacity list.old }
    ensures items { list.new.items ≡ insert list.old.items index one }
    ensures len { vec_len list.new ≡ vec_len list.old + 1 }
    ensures capacity { vec_capacity list.old ≤ vec_capacity list.new }
{
    let _inserted = list.insert(index, one);
}

/// The number of conversions at the front of the queue, which is the index for the next one.
fn conversions(holders: &Holders, waiting: &[SessionMode]) -> usize
    ensures within { result ≤ length waiting.now }
    ensures index { (asker : SessionModeValue)
        → behind_conversions asker holders.now.items waiting.now ≡ insert waiting.now result asker }
{
    for (index, request) in waiting.iter().enumerate() {
        if !holders.has(request.session) {
            return index;
        }
    }
    waiting.len()
}

/// The target of the request of `session` in the queue, if it has one there.
fn target_in(queue: &[SessionMode], session: u16) -> Option<Mode>
    ensures { result ≡ mode_of session queue.now }
{
    for index in 0..queue.len() {
        let request = queue[index];
        if request.session == session {
            return Some(request.mode);
        }
    }
    None
}

impl Cell {
    /// An idle cell.
    pub(crate) fn new(alloc: Global) -> Cell
        ensures { view_of result ≡ no_view }
    {
        Cell {
            holders: Holders::new(alloc),
            waiting: Vec::new(alloc),
        }
    }

    /// Makes `holder` the only holder of an idle cell.
    pub(crate) fn set_first_holder(&mut self, holder: SessionMode)
        requires some { 1 ≤ holder.session }
        requires idle { view_of self.old ≡ no_view }
        ensures view { view_of self.new ≡ record { holders = holder ∷ []; waiting = [] } }
        ensures kept { IsKeptCell self.new }
    {
        self.holders.set_first(holder);
    }

    /// The mode that `session` holds, if it is a holder.
    #[inline(always)]
    pub(crate) fn mode_held(&self, session: u16) -> Option<Mode>
        ensures { result ≡ mode_of session (view_of self.now).holders }
    {
        self.holders.mode_of(session)
    }

    /// The wait queue, the next request first.
    pub(crate) fn queue(&self) -> &[SessionMode]
        ensures { result.now ≡ (view_of self.now).waiting }
    {
        &self.waiting
    }

    /// Replaces the contents of `list` by the holders, by session number. Leaves `list` unchanged if memory is
    /// refused.
    pub(crate) fn list_holders(&self, list: &mut Vec<(u16, Mode)>) -> Result<(), AllocError>
        ensures ok { OnOk result (list.new.items ≡ map pair_of self.now.holders.items) }
        ensures err { OnErr result (list.new.items ≡ list.old.items) }
    {
        self.holders.list(list)
    }

    /// The number of holders.
    pub(crate) fn holders(&self) -> usize
        ensures { result ≡ length (view_of self.now).holders }
    {
        self.holders.len()
    }

    /// The holder at `index`, by session number.
    pub(crate) fn holder_at(&self, index: usize) -> SessionMode
        requires { index < length (view_of self.now).holders }
        ensures { let hs = (view_of self.now).holders in take (index + 1) hs ≡ take index hs ++ result ∷ [] }
    {
        self.holders.holder_at(index)
    }

    /// The mode that `session` waits for in this queue, if it does.
    pub(crate) fn mode_wanted(&self, session: u16) -> Option<Mode>
        ensures { result ≡ mode_of session (view_of self.now).waiting }
    {
        target_in(&self.waiting, session)
    }

    /// Whether there is neither a holder nor a waiting request.
    pub(crate) fn is_idle(&self) -> bool
        ensures { result ≡ not (is_busy (view_of self.now)) }
    {
        self.holders.len() == 0 && self.waiting.is_empty()
    }

    /// The request at index `granted` of the queue, if it fits beside the holders.
    ///
    /// `granted` requests before it are granted by this promotion, and still in the queue. `shared` is a mode that
    /// is compatible with those of all holders: a request for it fits without a look at them.
    pub(crate) fn next_grant(&self, granted: usize, shared: Option<Mode>) -> Option<SessionMode>
        requires shared { IfSome shared (λ m. go_with m self.now.holders.items ≡ true) }
        ensures { result ≡ next_grant self.now.holders.items (drop granted self.now.waiting.items) }
    {
        if granted >= self.waiting.len() {
            return None;
        }
        let next = self.waiting[granted];
        if is_mode(shared, next.mode) {
            return Some(next);
        }
        let place = self.holders.place_of(next.session);
        if self.holders.fits(place, next) {
            return Some(next);
        }
        None
    }

    /// Makes `holder` a holder, in a mode that fits. Leaves the queue unchanged.
    ///
    /// Returns the mode if it is compatible with itself, and so with the modes of all holders: `shared` for
    /// `next_grant`.
    pub(crate) fn admit(&mut self, holder: SessionMode) -> Option<Mode>
        requires rising { Ascends self.old.holders.items }
        requires room { length self.old.holders.items < self.old.holders.capacity }
        requires fits { fits_among holder self.old.holders.items ≡ true }
        ensures shared { IfSome result (λ m. go_with m self.new.holders.items ≡ true) }
        ensures holders { self.new.holders.items ≡ with_holder holder self.old.holders.items }
        ensures len { length self.new.holders.items ≤ length self.old.holders.items + 1 }
        ensures capacity { self.old.holders.capacity ≤ self.new.holders.capacity }
        ensures waiting { self.new.waiting ≡ self.old.waiting }
    {
        let place = self.holders.place_of(holder.session);
        self.holders.put(place, holder);
        if Mode::compatible(holder.mode, holder.mode) {
            return Some(holder.mode);
        }
        None
    }

    /// Removes the first `granted` requests from the queue.
    pub(crate) fn dequeue(&mut self, granted: usize)
        requires { granted ≤ vec_len self.old.waiting }
        ensures waiting { self.new.waiting.items ≡ drop granted self.old.waiting.items }
        ensures len { vec_len self.new.waiting + granted ≡ vec_len self.old.waiting }
        ensures holders { self.new.holders ≡ self.old.holders }
    {
        if granted == 0 {
            return;
        }
        let len = self.waiting.len();
        if granted < len {
            self.waiting.as_mut_slice().copy_within(granted..len, 0);
        }
        self.waiting.truncate(len - granted);
    }

    /// Removes the lock or the request of `session`, if there is one. Promotes nothing.
    pub(crate) fn give_up(&mut self, session: u16, claim: GivenUp)
        requires rising { Ascends self.old.holders.items }
        requires room { HasRoom self.old }
        ensures view { view_of self.new ≡ view_after_giving_up claim session (view_of self.old) }
        ensures room { HasRoom self.new }
    {
        match claim {
            GivenUp::Lock => self.holders.remove(session),
            GivenUp::Request => self.waiting.retain(|request| request.session != session),
        }
    }

    /// Adds a request to the queue: a conversion behind the other conversions, a fresh request at the end. There
    /// must be room.
    fn enqueue(&mut self, asker: SessionMode)
        requires room { HasRoom self.old }
        requires holders { length self.old.holders.items + vec_len self.old.waiting < self.old.holders.capacity }
        requires waiting { vec_len self.old.waiting < vec_capacity self.old.waiting }
        ensures view { let before = view_of self.old in view_of self.new ≡ record before {
          waiting = queue_with asker before.holders before.waiting;
        } }
        ensures room { HasRoom self.new }
    {
        let index = if self.holders.has(asker.session) {
            conversions(&self.holders, &self.waiting)
        } else {
            self.waiting.len()
        };
        insert_at(&mut self.waiting, index, asker);
    }

    /// Whether the request of `asker` is granted at once: it fits, and it is a conversion or nobody waits. `place`
    /// is the place of `asker` among the holders.
    #[inline]
    fn can_grant(&self, place: HolderPlace, asker: SessionMode) -> bool
        requires { IsPlaceOf asker.session self.now.holders.items place }
        ensures { result ≡ can_grant asker (view_of self.now) }
    {
        if self.waiting.is_empty() || place.is_own() {
            return self.holders.fits(place, asker);
        }
        false
    }

    /// Whether a request of `asker` would be granted at once.
    pub(crate) fn would_grant(&self, asker: SessionMode) -> bool
        ensures { result ≡ can_grant asker (view_of self.now) }
    {
        let place = self.holders.place_of(asker.session);
        self.can_grant(place, asker)
    }

    /// Requests a mode for a session that has no request here: grants it at once, or adds it to the queue.
    ///
    /// A session that holds the resource requests a conversion. If memory is refused, holders and queue are
    /// unchanged.
    #[inline(never)]
    pub(crate) fn ask(&mut self, asker: SessionMode) -> Result<RequestStatus, AllocError>
        requires some { 1 ≤ asker.session }
        requires kept { IsKeptCell self.old }
        requires idle { has_session asker.session (view_of self.old).waiting ≡ false }
        ensures granted { IfOk result (λ status. is_granted status ≡ can_grant asker (view_of self.old)) }
        ensures view { IfOk result (λ _. view_of self.new ≡ view_after_asking asker (view_of self.old)) }
        ensures err { OnErr result (view_of self.new ≡ view_of self.old) }
        ensures kept { IsKeptCell self.new }
    {
        if self.holders.convert_if_single(asker) {
            return Ok(RequestStatus::Granted);
        }
        let waiting = self.waiting.len();
        self.holders.reserve(waiting + 1)?;
        let place = self.holders.place_of(asker.session);
        if self.can_grant(place, asker) {
            self.holders.put(place, asker);
            Ok(RequestStatus::Granted)
        } else {
            self.waiting.reserve(1)?;
            self.enqueue(asker);
            Ok(RequestStatus::Waiting)
        }
    }

    /// Adds to `rows` an edge from the session of `request` to each other holder whose mode conflicts with the
    /// request.
    pub(crate) fn write_holder_edges(&self, rows: &mut Rows, request: SessionMode)
        requires some { 1 ≤ request.session }
        requires within { request.session ≤ rows.old.sessions }
        requires holders { AreOfSessions rows.old.sessions (view_of self.now).holders }
        ensures sessions { rows.new.sessions ≡ rows.old.sessions }
        ensures pairs { (a b : ℕ) → pairs_of rows.new a b
            ≡ (pairs_of rows.old a b || ((a + 1 == request.session)
            && holder_blocks request.session request.mode (b + 1) (view_of self.now).holders)) }
    {
        self.holders
            .write_edges(rows, request.session, request.mode);
    }
}
