//! Promotion: grants the requests at the front of a wait queue, in the cell and in the lockers.

ghost use Rattle.std.specs.Prelude.{◌≡◌, ℕ, ◌+◌, ◌≤◌, drop, length, vec_len};
ghost use Rattle.lock_table.specs.inner.Cells.{view_of, view_after_promotion, HasRoom, IsOnce};
ghost use Rattle.lock_holders.specs.SessionModes.{times};
ghost use Rattle.lock_table.specs.inner.Blocking.{IsOfSessions, AreWritten, HasGranted, DoFollow};
ghost use Rattle.lock_table.specs.inner.Lockers.{standings_of, AreSameOrGranted, DoAgree};
ghost use Rattle.lock_table.specs.inner.Ended.{DoNoteEnded};

use crate::cells::Cell;
use crate::lockers::Locker;
use crate::wait_graph::{Waits, clear_queue_rows, follow_grants, write_queue_rows};
use lock_holders::{WokenList, position_of};
use lock_tree::Resource;

/// After more grants than this at once, the rows of all requests that are left are written anew.
const FEW_GRANTS: usize = 8;

/// Takes the first `granted` requests, which are granted, off the queue, and updates the waits-for rows.
fn dequeue_granted(cell: &mut Cell, waits: &mut Waits, granted: usize)
    requires granted { granted ≤ vec_len cell.old.waiting }
    requires within { IsOfSessions waits.old.rows.sessions (view_of cell.old) }
    requires once { (s : ℕ) → times s (view_of cell.old).waiting ≤ 1 }
    requires follows { HasGranted granted (view_of cell.old) waits.old }
    ensures waiting { cell.new.waiting.items ≡ drop granted cell.old.waiting.items }
    ensures len { vec_len cell.new.waiting + granted ≡ vec_len cell.old.waiting }
    ensures holders { cell.new.holders ≡ cell.old.holders }
    ensures rows { (h : HasGranted granted (view_of cell.old) waits.old) →
        DoFollow (record { holders = h.before; waiting = (view_of cell.old).waiting }) (view_of cell.new) waits.old waits.new }
{
    if granted > FEW_GRANTS && granted < cell.queue().len() {
        clear_queue_rows(waits, cell);
        cell.dequeue(granted);
        write_queue_rows(waits, cell);
        return;
    }
    let queue = cell.queue();
    follow_grants(waits, &queue[..granted], &queue[granted..]);
    cell.dequeue(granted);
}

/// Grants the requests at the front of the queue, up to the first that doesn't fit beside the holders, and lists their
/// sessions in `ended`. Updates the waits-for rows, which must be current for the sessions that wait here.
///
/// `cell` is the cell of `resource`, at `place`. Takes no memory.
pub(crate) fn promote(
    cell: &mut Cell,
    place: usize,
    resource: Resource,
    lockers: &mut Vec<Locker>,
    waits: &mut Waits,
    ended: &mut WokenList,
)
    requires room { HasRoom cell.old }
    requires once { IsOnce (view_of cell.old) }
    requires agree { DoAgree resource (view_of cell.old) (standings_of lockers.old.items) }
    requires sized { length ended.old.places ≡ vec_len lockers.old }
    requires long { waits.old.rows.sessions ≡ vec_len lockers.old }
    requires written { AreWritten (view_of cell.old) waits.old }
    ensures view { view_of cell.new ≡ view_after_promotion (view_of cell.old) }
    ensures room { HasRoom cell.new }
    ensures once { IsOnce (view_of cell.new) }
    ensures agree { DoAgree resource (view_of cell.new) (standings_of lockers.new.items) }
    ensures granted { AreSameOrGranted resource (standings_of lockers.old.items) (standings_of lockers.new.items) }
    ensures len { vec_len lockers.new ≡ vec_len lockers.old }
    ensures waits_ended { DoNoteEnded 0 lockers.old.items lockers.new.items ended.old ended.new }
    ensures rows { DoFollow (view_of cell.old) (view_of cell.new) waits.old waits.new }
{
    let mut granted = 0;
    let mut shared = None;
    while let Some(next) = cell.next_grant(granted, shared) {
        shared = cell.admit(next);
        let locker = &mut lockers[position_of(next.session)];
        locker.grant(resource, place);
        ended.add(next.session);
        granted += 1;
    }
    dequeue_granted(cell, waits, granted);
}
