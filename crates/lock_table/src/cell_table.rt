//! The table of cells: finds the cell of a resource, and keeps idle cells with their memory for other resources.

ghost use Rattle.std.specs.Prelude.{◌≡◌, ℕ, ◌<◌, ◌≤◌, true, false, List, [], ◌∷◌, None, Some, if◌then◌else◌, length, take, slice_get, IfOk, OnOk, OnErr, vec_len};
ghost use Rattle.std.specs.Map.{keys_of};
ghost use Rattle.std.specs.Option.{option_copied};
ghost use Rattle.lock_tree.specs.Paths.{same_path};
ghost use Rattle.lock_table.specs.declared.cells.Cell.{Cell as CellValue};
ghost use Rattle.lock_table.specs.inner.Cells.{no_view, view_of, can_grant, is_granted, AreKeptCells, cell_at, cell_view, view_after_asking, view_after_giving_up, view_after_freeing, is_request, CellsBecame, ViewBecame, IsPlace};
ghost use Rattle.lock_holders.specs.SessionModes.{has_session, mode_of};
ghost use Rattle.session_locks.specs.Resources.{in_order};
ghost use Rattle.lock_table.specs.inner.Tables.{AreIdleFrom};
ghost use Rattle.lock_table.specs.inner.Lockers.{standings_of, AreSameOrGranted, DoAgree};
ghost use Rattle.lock_table.specs.inner.Ended.{DoNoteEnded};
ghost use Rattle.lock_table.specs.inner.Blocking.{IsOfSessions, AreWritten, IsWritten, DoFollow};

mod resource_keys;

use crate::cells::{Cell, GivenUp, RequestStatus};
use crate::lockers::Locker;
use crate::promotion::promote;
use crate::wait_graph::{Waits, follow_give_up, update_rows};
use lock_holders::{SessionMode, WokenList};
use lock_modes::Mode;
use lock_tree::Resource;
use resource_keys::ResourceKeys;
use session_locks::sort_resources;
use std::alloc::{AllocError, Global};
use std::marker::Model;

/// The cells, each with the resource that it belongs to. Contracts see the cells in use: those of the resources that
/// are held or waited for.
///
/// The place of a cell is its index in both lists. It is valid until a cell is added or vacated. Giving up a lock or
/// a request takes no memory here.
///
/// ```text
/// resources   0: 1    1: 1/1   2: 1/2   3: 7  provisional
/// cells       0: ▪    1: ▪     2: ▪     3: idle   4: idle
/// ```
///
/// A look-up for a lock enters a missing resource as a provisional key, so that a grant needs no second search. If memory for it is refused,
/// the lock's own cell asks once more.
#[derive(Drop)]
pub struct CellTable {
    /// The resources whose cells are in use, and behind them the provisional key, if there is one.
    keys: ResourceKeys,
    /// The cell of each resource in use, at the same index. The cells behind those in use are idle, and keep the
    /// memory of their lists.
    cells: Vec<Cell>,
}

impl Model for CellTable {
    ghost use Rattle.lock_table.specs.inner.Cells.{Table};

    ghost Value = { Table };

    ghost use Rattle.lock_table.specs.inner.Tables.{table_of, IsKeptTable};

    ghost view = { table_of };

    ghost invariant = { IsKeptTable };
}

/// A claim of a session on a resource, its lock or its request, that it gives up.
#[derive(Clone, Copy)]
pub(crate) struct GivenUpClaim {
    /// The session.
    pub(crate) session: u16,
    /// The resource.
    pub(crate) resource: Resource,
    /// Which of the two it gives up.
    pub(crate) claim: GivenUp,
}

/// Adds an idle cell at `place`, behind all others.
#[inline(never)]
fn add_idle_cell(cells: &mut Vec<Cell>, place: usize) -> Result<(), AllocError>
    requires place { place ≡ length cells.old.items }
    ensures ok { OnOk result (place < length cells.new.items) }
    ensures long { place ≤ length cells.new.items }
    ensures idle { AreIdleFrom place cells.new.items }
    ensures front { take place cells.new.items ≡ take place cells.old.items }
{
    let alloc = *cells.allocator();
    cells.push(Cell::new(alloc))?;
    Ok(())
}

/// Ensures that there is a cell at `place`. The cells from `place` on stay idle, those before it unchanged.
#[inline(always)]
fn ensure_cell(cells: &mut Vec<Cell>, place: usize) -> Result<(), AllocError>
    requires place { place ≤ length cells.old.items }
    requires idle { AreIdleFrom place cells.old.items }
    ensures ok { OnOk result (place < length cells.new.items) }
    ensures long { place ≤ length cells.new.items }
    ensures idle { AreIdleFrom place cells.new.items }
    ensures front { take place cells.new.items ≡ take place cells.old.items }
{
    if place < cells.len() {
        return Ok(());
    }
    add_idle_cell(cells, place)
}

impl CellTable {
    /// An empty table, whose resources are hashed behind a seed.
    pub(crate) fn new(alloc: Global, seed: u64) -> CellTable
        ensures { result.entries ≡ [] }
    {
        CellTable {
            keys: ResourceKeys::new(alloc, seed),
            cells: Vec::new(alloc),
        }
    }

    /// Makes room for `more` resources beside those in use, so that as many cells are added without growing the table. If memory is
    /// refused, some room may have been made.
    pub(crate) fn reserve(&mut self, more: usize) -> Result<(), AllocError>
        ensures same { self.new ≡ self.old }
    {
        self.keys.reserve(more)?;
        self.cells.reserve(more)
    }

    /// Gives back the memory of the cells that aren't in use, and the room for further ones.
    pub(crate) fn shrink(&mut self)
        ensures same { self.new ≡ self.old }
    {
        self.keys.shrink();
        self.cells.truncate(self.keys.len());
        self.cells.shrink_to_fit();
    }

    /// The number of cells that aren't in use, and keep their memory.
    pub(crate) fn idle(&self) -> usize {
        self.cells.len().saturating_sub(self.keys.len())
    }

    /// The resources of the cells in use, in the order of resources. Fails if memory is refused.
    pub(crate) fn resources(&self, alloc: Global) -> Result<Vec<Resource>, AllocError>
        ensures { IfOk result (λ list. list.items ≡ in_order (keys_of self.now.entries)) }
    {
        let mut list = Vec::from_slice(alloc, self.keys.as_slice())?;
        sort_resources(&mut list);
        Ok(list)
    }

    /// The cell of `resource`, if it has one.
    pub(crate) fn cell_of(&self, resource: Resource) -> Option<&Cell>
        ensures { option_copied result ≡ cell_at resource self.now.entries }
    {
        match self.place_of(resource) {
            Some(place) => Some(&self.cells[place]),
            None => None,
        }
    }

    /// The place of the cell of `resource`, if it has one.
    #[inline(always)]
    pub(crate) fn place_of(&self, resource: Resource) -> Option<usize>
        ensures { IsPlace resource self.now.entries result }
    {
        self.keys.place_of(resource)
    }

    /// Like `place_of`, for a lock. If `resource` has no cell, it becomes the provisional key, for which the set may grow. Where memory is
    /// refused for that, it doesn't.
    #[inline(always)]
    pub(crate) fn find_or_insert_key(&mut self, resource: Resource) -> Option<usize>
        ensures place { IsPlace resource self.old.entries result }
        ensures same { self.new ≡ self.old }
    {
        self.keys.find_or_insert(resource)
    }

    /// Like `place_of`, but looks at the place `likely` first.
    #[inline(always)]
    pub(crate) fn place_near(&self, likely: usize, resource: Resource) -> Option<usize>
        ensures { IsPlace resource self.now.entries result }
    {
        self.keys.place_near(likely, resource)
    }

    /// `place`, or the place of the last key if there is none. After `ask_cell` has added a cell, that is the place of
    /// the new cell.
    pub(crate) fn place_or_last(&self, place: Option<usize>) -> usize {
        match place {
            Some(place) => place,
            None => self.keys.len().saturating_sub(1),
        }
    }

    /// The mode that `session` holds on the resource whose cell is at `place`, if there is a cell and it holds one.
    #[inline(always)]
    pub(crate) fn mode_at(&self, place: Option<usize>, session: u16) -> Option<Mode>
        ensures { (r : List ℕ) → IsPlace r self.now.entries place → result ≡ mode_of session (cell_view r self.now.entries).holders }
    {
        match place {
            Some(place) if place < self.cells.len() => self.cells[place].mode_held(session),
            _ => None,
        }
    }

    /// Whether a request of `asker` for the resource whose cell is at `place` would be granted at once. It would if there is
    /// no cell.
    pub(crate) fn would_grant_at(&self, place: Option<usize>, asker: SessionMode) -> bool
        ensures { (r : List ℕ) → IsPlace r self.now.entries place → result ≡ can_grant asker (cell_view r self.now.entries) }
    {
        match place {
            Some(place) if place < self.cells.len() => self.cells[place].would_grant(asker),
            _ => true,
        }
    }

    /// Adds a cell for `resource`, which has none, with `holder` as its first holder. If memory is refused, nothing
    /// that contracts see changes.
    #[inline(always)]
    fn add_cell(&mut self, resource: Resource, holder: SessionMode) -> Result<(), AllocError>
        requires some { 1 ≤ holder.session }
        requires kept { AreKeptCells self.old.entries }
        requires none { cell_at resource self.old.entries ≡ None }
        ensures ok { OnOk result (CellsBecame resource (record { holders = holder ∷ []; waiting = [] })
            self.old.entries self.new.entries) }
        ensures err { OnErr result (self.new ≡ self.old) }
    {
        let place = self.keys.len();
        ensure_cell(&mut self.cells, place)?;
        self.keys.add(resource)?;
        let cell = &mut self.cells[place];
        cell.set_first_holder(holder);
        Ok(())
    }

    /// Takes the idle cell at `place` out of use, and removes its key. The last cell in use moves to `place`.
    fn vacate(&mut self, place: usize)
        requires within { place < length self.old.entries }
        requires idle { (r : List ℕ) (c : CellValue) → slice_get self.old.entries place ≡ Some (r, c) → view_of c ≡ no_view }
        ensures gone { (r : List ℕ) (c : CellValue) → slice_get self.old.entries place ≡ Some (r, c)
            → (q : List ℕ) → cell_at q self.new.entries ≡ (if same_path r q then None else cell_at q self.old.entries) }
    {
        let last = self.keys.swap_remove(place);
        self.cells.swap(place, last);
    }

    /// Requests `resource` for a session that has no request there, and updates the waits-for rows.
    ///
    /// `place` is the place of the cell. Without a cell, adds one, with the session as its first holder. If memory
    /// is refused, holders, queues and rows are unchanged.
    #[inline(always)]
    pub(crate) fn ask_cell(
        &mut self,
        place: Option<usize>,
        resource: Resource,
        asker: SessionMode,
        waits: &mut Waits,
    ) -> Result<RequestStatus, AllocError>
        requires some { 1 ≤ asker.session }
        requires within { asker.session ≤ waits.old.rows.sessions }
        requires kept { AreKeptCells self.old.entries }
        requires place { IsPlace resource self.old.entries place }
        requires idle { has_session asker.session (cell_view resource self.old.entries).waiting ≡ false }
        requires written { IsWritten asker.session (cell_view resource self.old.entries) waits.old }
        ensures granted { let before = cell_view resource self.old.entries in
            IfOk result (λ status. is_granted status ≡ can_grant asker before) }
        ensures ok { OnOk result (ViewBecame resource (view_after_asking asker) self.old.entries self.new.entries) }
        ensures err { OnErr result (ViewBecame resource (λ v. v) self.old.entries self.new.entries) }
        ensures rows { let before = cell_view resource self.old.entries in
            OnOk result (DoFollow before (view_after_asking asker before) waits.old waits.new) }
        ensures unwritten { OnErr result (waits.new ≡ waits.old) }
    {
        match place {
            Some(place) => {
                let cell = &mut self.cells[place];
                let status = cell.ask(asker)?;
                update_rows(waits, cell, asker, status);
                Ok(status)
            }
            None => {
                self.add_cell(resource, asker)?;
                Ok(RequestStatus::Granted)
            }
        }
    }

    /// Gives up a lock or a request on a resource, whose cell is at `place`.
    ///
    /// Promotes the queue and lists in `ended` whom it grants, updates the waits-for rows of the sessions that waited
    /// there, and vacates the cell if it is idle then. Does nothing without a cell.
    pub(crate) fn free_at(
        &mut self,
        lockers: &mut Vec<Locker>,
        waits: &mut Waits,
        ended: &mut WokenList,
        place: Option<usize>,
        given: GivenUpClaim,
    )
        requires some { 1 ≤ given.session }
        requires own { given.session ≤ waits.old.rows.sessions }
        requires place { IsPlace given.resource self.old.entries place }
        requires cells { AreKeptCells self.old.entries }
        requires claimed { has_session given.session (cell_view given.resource self.old.entries).waiting ≡ is_request given.claim }
        requires agree { let left = view_after_giving_up given.claim given.session (cell_view given.resource self.old.entries) in
            DoAgree given.resource left (standings_of lockers.old.items) }
        requires long { waits.old.rows.sessions ≡ vec_len lockers.old }
        requires sized { length ended.old.places ≡ vec_len lockers.old }
        requires within { IsOfSessions waits.old.rows.sessions (cell_view given.resource self.old.entries) }
        requires written { AreWritten (cell_view given.resource self.old.entries) waits.old }
        ensures cells { ViewBecame given.resource (view_after_freeing given.claim given.session) self.old.entries self.new.entries }
        ensures agree { let freed = view_after_freeing given.claim given.session (cell_view given.resource self.old.entries) in
            DoAgree given.resource freed (standings_of lockers.new.items) }
        ensures granted { AreSameOrGranted given.resource (standings_of lockers.old.items) (standings_of lockers.new.items) }
        ensures len { vec_len lockers.new ≡ vec_len lockers.old }
        ensures waits_ended { DoNoteEnded 0 lockers.old.items lockers.new.items ended.old ended.new }
        ensures rows { let before = cell_view given.resource self.old.entries in
            DoFollow before (view_after_freeing given.claim given.session before) waits.old waits.new }
    {
        let Some(place) = place else {
            return;
        };
        let cell = &mut self.cells[place];
        follow_give_up(waits, cell, given.session, given.claim);
        cell.give_up(given.session, given.claim);
        promote(cell, place, given.resource, lockers, waits, ended);
        if cell.is_idle() {
            self.vacate(place);
        }
    }
}
