//! The waits-for graph, kept current with each change of a cell.

ghost use Rattle.std.specs.Prelude.{◌≡◌, ℕ, ◌+◌, ◌-◌, ◌<◌, ◌≤◌, ◌&&◌, ◌||◌, ◌==◌, if◌then◌else◌, List, not, true, false, length, take, IfOk, IfNone, IfSome, nat_le, slice_index_or, vec_len};
ghost use Rattle.waits_for.specs.Pairs.{pairs_of};
ghost use Rattle.waits_for.specs.Walks.{Reaches, IsYoungestOnCircle};
ghost use Rattle.lock_holders.specs.declared.session_mode.SessionMode.{SessionMode as SessionModeValue};
ghost use Rattle.lock_table.specs.inner.Cells.{view_of, view_after_giving_up, is_request, is_granted, IsOnce};
ghost use Rattle.lock_holders.specs.SessionModes.{has_session, times, AreOfSessions};
ghost use Rattle.lock_table.specs.Noting.{AreChosen, IsCopyFor};
ghost use Rattle.lock_table.specs.inner.Blocking.{cell_blocks, fits_beside, has_fitting, has_fitting_beside, has_conflicting, IsOfSessions, IsSizedFor, AreWritten, HasRequestedAt, DoFollow};

use crate::cells::{Cell, GivenUp, RequestStatus};
use crate::graph_copy::GraphCopy;
use lock_holders::{SessionMode, position_of, session_at};
use lock_modes::Mode;
use std::alloc::{AllocError, Global};
use waits_for::{MAX_SESSIONS, Rows};

/// The waits-for graph, and the number of each session's transaction. Both go by position: session number less 1.
///
/// A session waits for one resource at most, so a change of one cell changes only the rows of the sessions that wait there. A request that
/// waits writes its own row, and adds an edge to it for each request behind it. When a session gives up a lock or a request, or is granted
/// one, the rows of the others change only in their edge to it. After many grants at once, more than eight, the rows of all requests that
/// still wait are written anew.
///
/// ```text
/// matrix    1 2 3        bit u of row t: t waits directly for u
///        1  . . .        1 holds, 2 and 3 wait for it, 3 also behind 2
///        2  1 . .
///        3  1 1 .
/// waiting   2 3          who has an edge
/// numbers                each session's transaction, 0 for none
/// ```
#[derive(Drop)]
pub struct Waits {
    /// The edges: the row of a session has those for whom it waits directly, holders and requests ahead of its own.
    rows: Rows,
    /// The number of the open transaction of each session, 0 for none.
    numbers: Vec<u64>,
}

/// A graph for this number of sessions, without edges and transactions.
pub(crate) fn new_waits(alloc: Global, sessions: u16) -> Result<Waits, AllocError>
    requires some { 1 ≤ sessions }
    requires few { sessions ≤ MAX_SESSIONS }
    ensures ready { IfOk result (IsSizedFor sessions) }
    ensures pairs { IfOk result (λ waits. (a b : ℕ) → pairs_of waits.rows a b ≡ false) }
    ensures numbers { IfOk result (λ waits. (a : ℕ) → slice_index_or waits.numbers.items a 0 ≡ 0) }
{
    let rows = Rows::new(alloc, sessions)?;
    let mut numbers = Vec::new(alloc);
    for _session in 0..sessions {
        numbers.push(0)?;
    }
    Ok(Waits { rows, numbers })
}

/// Sets the number of the session's transaction; 0 for none.
pub(crate) fn set_number(waits: &mut Waits, session: u16, number: u64)
    requires some { 1 ≤ session }
    requires within { session ≤ vec_len waits.old.numbers }
    ensures rows { waits.new.rows ≡ waits.old.rows }
    ensures len { vec_len waits.new.numbers ≡ vec_len waits.old.numbers }
    ensures numbers { (a : ℕ) → slice_index_or waits.new.numbers.items a 0
        ≡ (if a + 1 == session then number else slice_index_or waits.old.numbers.items a 0) }
{
    let position = position_of(session);
    waits.numbers[position] = number;
}

/// Clears the rows of the sessions that wait at `cell`.
pub(crate) fn clear_queue_rows(waits: &mut Waits, cell: &Cell)
    requires within { AreOfSessions waits.old.rows.sessions (view_of cell.now).waiting }
    ensures sessions { waits.new.rows.sessions ≡ waits.old.rows.sessions }
    ensures pairs { (a b : ℕ) → pairs_of waits.new.rows a b
        ≡ (pairs_of waits.old.rows a b && not (has_session (a + 1) (view_of cell.now).waiting)) }
    ensures numbers { waits.new.numbers ≡ waits.old.numbers }
{
    for request in cell.queue() {
        waits.rows.clear_row(position_of(request.session));
    }
}

/// Adds an edge from `session` to each session of `ahead`, the requests ahead of its own.
fn write_edges_ahead(rows: &mut Rows, ahead: &[SessionMode], session: u16)
    requires some { 1 ≤ session }
    requires own { session ≤ rows.old.sessions }
    requires within { AreOfSessions rows.old.sessions ahead.now }
    ensures sessions { rows.new.sessions ≡ rows.old.sessions }
    ensures pairs { (a b : ℕ) → pairs_of rows.new a b
        ≡ (pairs_of rows.old a b || ((a + 1 == session) && has_session (b + 1) ahead.now)) }
{
    for request in ahead {
        rows.set(position_of(session), position_of(request.session));
    }
}

/// The index of the nearest request ahead of `queue[index]` that is for the same mode, if there is one.
fn previous_same_mode(queue: &[SessionMode], index: usize) -> Option<usize>
    requires { index < length queue.now }
    ensures { IfSome result (λ j. (j < index) × ((d : SessionModeValue)
        → (slice_index_or queue.now j d).mode ≡ (slice_index_or queue.now index d).mode)) }
{
    let mode = queue[index].mode;
    for step in 0..index {
        let before = index - 1 - step;
        if queue[before].mode == mode {
            return Some(before);
        }
    }
    None
}

/// Adds the row of the request `queue[index]`, from the holders and the requests ahead of it.
#[inline(always)]
fn write_full_row(rows: &mut Rows, cell: &Cell, index: usize)
    requires index { index < length (view_of cell.now).waiting }
    requires within { IsOfSessions rows.old.sessions (view_of cell.now) }
    requires once { (s : ℕ) → times s (view_of cell.now).waiting ≤ 1 }
    ensures sessions { rows.new.sessions ≡ rows.old.sessions }
    ensures pairs { (a b : ℕ) (d : SessionModeValue) → pairs_of rows.new a b
        ≡ (pairs_of rows.old a b || ((a + 1 == (slice_index_or (view_of cell.now).waiting index d).session) && cell_blocks (a + 1) (b + 1) cell.now)) }
{
    let queue = cell.queue();
    let request = queue[index];
    cell.write_holder_edges(rows, request);
    write_edges_ahead(rows, &queue[..index], request.session);
}

/// Like `write_full_row`, when the rows of the requests ahead are current.
///
/// If a request ahead is for the same mode, copies the row of the nearest one, and adds an edge to it and to each request between the two.
/// Reads all holders if there is none, or if that one waits for this session, which is a holder then.
#[inline(never)]
fn write_row_behind(rows: &mut Rows, cell: &Cell, index: usize)
    requires index { index < length (view_of cell.now).waiting }
    requires within { IsOfSessions rows.old.sessions (view_of cell.now) }
    requires once { (s : ℕ) → times s (view_of cell.now).waiting ≤ 1 }
    requires written { (a b : ℕ) → has_session (a + 1) (take index (view_of cell.now).waiting) ≡ true
        → pairs_of rows.old a b ≡ cell_blocks (a + 1) (b + 1) cell.now }
    ensures sessions { rows.new.sessions ≡ rows.old.sessions }
    ensures pairs { (a b : ℕ) (d : SessionModeValue) → pairs_of rows.new a b
        ≡ (pairs_of rows.old a b || ((a + 1 == (slice_index_or (view_of cell.now).waiting index d).session) && cell_blocks (a + 1) (b + 1) cell.now)) }
{
    let queue = cell.queue();
    let session = queue[index].session;
    let position = position_of(session);
    if let Some(before) = previous_same_mode(queue, index) {
        let other = position_of(queue[before].session);
        if !rows.waits(other, position) {
            rows.wait_as(position, other);
            write_edges_ahead(rows, &queue[before..index], session);
            return;
        }
    }
    write_full_row(rows, cell, index);
}

/// Adds the row of the request `queue[index]`. The rows of the requests ahead must be current.
fn write_row(rows: &mut Rows, cell: &Cell, index: usize)
    requires index { index < length (view_of cell.now).waiting }
    requires within { IsOfSessions rows.old.sessions (view_of cell.now) }
    requires once { (s : ℕ) → times s (view_of cell.now).waiting ≤ 1 }
    requires written { (a b : ℕ) → has_session (a + 1) (take index (view_of cell.now).waiting) ≡ true
        → pairs_of rows.old a b ≡ cell_blocks (a + 1) (b + 1) cell.now }
    ensures sessions { rows.new.sessions ≡ rows.old.sessions }
    ensures pairs { (a b : ℕ) (d : SessionModeValue) → pairs_of rows.new a b
        ≡ (pairs_of rows.old a b || ((a + 1 == (slice_index_or (view_of cell.now).waiting index d).session) && cell_blocks (a + 1) (b + 1) cell.now)) }
{
    if index == 0 {
        write_full_row(rows, cell, 0);
    } else {
        write_row_behind(rows, cell, index);
    }
}

/// Adds the rows of all requests that wait at `cell`. Their rows must be empty.
fn write_rows(waits: &mut Waits, cell: &Cell)
    requires within { IsOfSessions waits.old.rows.sessions (view_of cell.now) }
    requires once { (s : ℕ) → times s (view_of cell.now).waiting ≤ 1 }
    requires empty { (a b : ℕ) → has_session (a + 1) (view_of cell.now).waiting ≡ true → pairs_of waits.old.rows a b ≡ false }
    ensures sessions { waits.new.rows.sessions ≡ waits.old.rows.sessions }
    ensures pairs { (a b : ℕ) → pairs_of waits.new.rows a b
        ≡ (pairs_of waits.old.rows a b || cell_blocks (a + 1) (b + 1) cell.now) }
    ensures numbers { waits.new.numbers ≡ waits.old.numbers }
{
    let queue = cell.queue();
    for index in 0..queue.len() {
        write_row(&mut waits.rows, cell, index);
    }
}

/// Like `write_rows`, but returns at once if nobody waits.
pub(crate) fn write_queue_rows(waits: &mut Waits, cell: &Cell)
    requires within { IsOfSessions waits.old.rows.sessions (view_of cell.now) }
    requires once { (s : ℕ) → times s (view_of cell.now).waiting ≤ 1 }
    requires empty { (a b : ℕ) → has_session (a + 1) (view_of cell.now).waiting ≡ true → pairs_of waits.old.rows a b ≡ false }
    ensures sessions { waits.new.rows.sessions ≡ waits.old.rows.sessions }
    ensures pairs { (a b : ℕ) → pairs_of waits.new.rows a b
        ≡ (pairs_of waits.old.rows a b || cell_blocks (a + 1) (b + 1) cell.now) }
    ensures numbers { waits.new.numbers ≡ waits.old.numbers }
{
    if cell.queue().is_empty() {
        return;
    }
    write_rows(waits, cell);
}

/// Whether a request for `target` fits beside a session that holds the mode `held`, if it holds one.
fn fits_beside(held: Option<Mode>, target: Mode) -> bool
    ensures { result ≡ fits_beside held target }
{
    match held {
        Some(held) => Mode::compatible(target, held),
        None => true,
    }
}

/// Removes the edges to `session` from the requests of `queue` that fit beside it. `held` is the mode that `session` holds, if any.
fn remove_edges(rows: &mut Rows, queue: &[SessionMode], session: u16, held: Option<Mode>)
    requires some { 1 ≤ session }
    requires own { session ≤ rows.old.sessions }
    requires within { AreOfSessions rows.old.sessions queue.now }
    ensures sessions { rows.new.sessions ≡ rows.old.sessions }
    ensures pairs { (a b : ℕ) → pairs_of rows.new a b
        ≡ (pairs_of rows.old a b && not ((b + 1 == session) && has_fitting (a + 1) held queue.now)) }
{
    for request in queue {
        if fits_beside(held, request.mode) {
            rows.unset(position_of(request.session), position_of(session));
        }
    }
}

/// Adds an edge to `holder` from each request of `queue` that conflicts with its mode.
fn add_conflicts(rows: &mut Rows, queue: &[SessionMode], holder: SessionMode)
    requires some { 1 ≤ holder.session }
    requires own { holder.session ≤ rows.old.sessions }
    requires within { AreOfSessions rows.old.sessions queue.now }
    ensures sessions { rows.new.sessions ≡ rows.old.sessions }
    ensures pairs { (a b : ℕ) → pairs_of rows.new a b
        ≡ (pairs_of rows.old a b || ((b + 1 == holder.session) && has_conflicting (a + 1) holder.mode queue.now)) }
{
    for request in queue {
        if !Mode::compatible(request.mode, holder.mode) {
            rows.set(position_of(request.session), position_of(holder.session));
        }
    }
}

/// Adds an edge to `session` from each request of `behind`, the requests behind its own.
fn add_edges_behind(rows: &mut Rows, behind: &[SessionMode], session: u16)
    requires some { 1 ≤ session }
    requires own { session ≤ rows.old.sessions }
    requires within { AreOfSessions rows.old.sessions behind.now }
    ensures sessions { rows.new.sessions ≡ rows.old.sessions }
    ensures pairs { (a b : ℕ) → pairs_of rows.new a b
        ≡ (pairs_of rows.old a b || ((b + 1 == session) && has_session (a + 1) behind.now)) }
{
    for request in behind {
        rows.set(position_of(request.session), position_of(session));
    }
}

/// The index of the request of `session` in the queue, which has it. Looks at the last request first.
fn index_in(queue: &[SessionMode], session: u16) -> usize
    requires { has_session session queue.now ≡ true }
    ensures within { result < length queue.now }
    ensures here { (d : SessionModeValue) → (slice_index_or queue.now result d).session ≡ session }
{
    let last = queue.len() - 1;
    if queue[last].session == session {
        return last;
    }
    for index in 0..last {
        if queue[index].session == session {
            return index;
        }
    }
    last
}

/// Updates the rows after `asker` has requested the resource of `cell`.
///
/// If it is granted, only the edges to it change. If it waits, its own row is written, and the requests behind it get an edge to it.
pub(crate) fn update_rows(waits: &mut Waits, cell: &Cell, asker: SessionMode, status: RequestStatus)
    requires some { 1 ≤ asker.session }
    requires own { asker.session ≤ waits.old.rows.sessions }
    requires within { IsOfSessions waits.old.rows.sessions (view_of cell.now) }
    requires once { IsOnce (view_of cell.now) }
    requires asked { HasRequestedAt asker (is_granted status) (view_of cell.now) waits.old }
    ensures { (h : HasRequestedAt asker (is_granted status) (view_of cell.now) waits.old)
        → DoFollow h.before (view_of cell.now) waits.old waits.new }
{
    let queue = cell.queue();
    if queue.is_empty() {
        return;
    }
    match status {
        RequestStatus::Granted => {
            remove_edges(&mut waits.rows, queue, asker.session, Some(asker.mode));
            add_conflicts(&mut waits.rows, queue, asker);
        }
        RequestStatus::Waiting => {
            let index = index_in(queue, asker.session);
            write_row(&mut waits.rows, cell, index);
            add_edges_behind(&mut waits.rows, &queue[index + 1..], asker.session);
        }
    }
}

/// Updates the rows for a lock or a request that `session` gives up. `cell` still has it.
pub(crate) fn follow_give_up(waits: &mut Waits, cell: &Cell, session: u16, claim: GivenUp)
    requires some { 1 ≤ session }
    requires own { session ≤ waits.old.rows.sessions }
    requires within { AreOfSessions waits.old.rows.sessions (view_of cell.now).waiting }
    requires once { IsOnce (view_of cell.now) }
    requires claimed { has_session session (view_of cell.now).waiting ≡ is_request claim }
    requires written { AreWritten (view_of cell.now) waits.old }
    ensures { DoFollow (view_of cell.now) (view_after_giving_up claim session (view_of cell.now)) waits.old waits.new }
{
    let queue = cell.queue();
    match claim {
        GivenUp::Lock => remove_edges(&mut waits.rows, queue, session, None),
        GivenUp::Request => {
            // The requests ahead of it don't wait for it, unless it is a holder that conflicts.
            let index = index_in(queue, session);
            let held = cell.mode_held(session);
            remove_edges(&mut waits.rows, &queue[index..], session, held);
            waits.rows.clear_row(position_of(session));
        }
    }
}

/// Updates the rows for the requests `granted`. Those of `behind` still wait.
pub(crate) fn follow_grants(waits: &mut Waits, granted: &[SessionMode], behind: &[SessionMode])
    requires granted { AreOfSessions waits.old.rows.sessions granted.now }
    requires behind { AreOfSessions waits.old.rows.sessions behind.now }
    ensures sessions { waits.new.rows.sessions ≡ waits.old.rows.sessions }
    ensures pairs { (a b : ℕ) → pairs_of waits.new.rows a b
        ≡ ((pairs_of waits.old.rows a b && not (has_session (a + 1) granted.now))
        && not (has_fitting_beside (a + 1) (b + 1) granted.now behind.now)) }
    ensures numbers { waits.new.numbers ≡ waits.old.numbers }
{
    for request in granted {
        remove_edges(&mut waits.rows, behind, request.session, Some(request.mode));
        waits.rows.clear_row(position_of(request.session));
    }
}

/// The edges of the graph.
pub(crate) fn edges(waits: &Waits) -> &Rows
    ensures { result.now ≡ waits.now.rows }
{
    &waits.rows
}

/// Counts the victims that will be chosen for `session`, `most` at most, on `copy`.
pub(crate) fn count_victims(waits: &Waits, copy: &mut GraphCopy, session: u16, most: usize) -> usize
    requires some { 1 ≤ session }
    requires within { session ≤ waits.now.rows.sessions }
    requires ready { IsSizedFor waits.now.rows.sessions waits.now }
    requires copy { IsCopyFor waits.now.rows.sessions copy.old }
    ensures copy { IsCopyFor waits.now.rows.sessions copy.new }
    ensures few { result ≤ most }
    ensures chosen { (vs : List ℕ) × AreChosen (pairs_of waits.now.rows) waits.now.numbers.items (session - 1) vs × (length vs ≡ result) }
{
    copy.count_victims(&waits.rows, &waits.numbers, position_of(session), most)
}

/// Whether the graph has an edge from `session` to `other`. False if there is no such session.
pub(crate) fn has_edge(waits: &Waits, session: u16, other: u16) -> bool
    ensures { result ≡ (nat_le 1 session && (nat_le 1 other && pairs_of waits.now.rows (session - 1) (other - 1))) }
{
    if session == 0 || other == 0 {
        return false;
    }
    let sessions = waits.rows.sessions();
    if session > sessions || other > sessions {
        return false;
    }
    waits.rows.waits(position_of(session), position_of(other))
}

/// The victim: the youngest of the transactions on a cycle with `session`. `None` if `session` is on no cycle.
pub(crate) fn victim(waits: &mut Waits, session: u16) -> Option<u16>
    requires some { 1 ≤ session }
    requires within { session ≤ waits.old.rows.sessions }
    requires ready { IsSizedFor waits.old.rows.sessions waits.old }
    ensures none { IfNone result (Reaches (pairs_of waits.old.rows) (session - 1) (session - 1) → ⊥) }
    ensures some { IfSome result (λ v. (1 ≤ v) × (v ≤ waits.old.rows.sessions)
        × IsYoungestOnCircle (pairs_of waits.old.rows) waits.old.numbers.items (session - 1) (v - 1)) }
    ensures same { waits.new ≡ waits.old }
{
    let position = waits
        .rows
        .youngest_on_circle(position_of(session), &waits.numbers)?;
    Some(session_at(position))
}
