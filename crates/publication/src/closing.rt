//! Which tickets close a board, and how the object comes out of it.
ghost use Rattle.std.specs.Prelude.{◌≡◌, ◌+◌, ◌<◌, ◌≤◌, ◌↔◌, IsTrue};
ghost use Rattle.std.specs.List.{list_all};
ghost use Rattle.sequential.specs.declared.entry.TheConstants.{MAX_SESSIONS};
ghost use Rattle.publication.specs.List.{bound_of};
ghost use Rattle.publication.specs.Boards.{IsEachOnce};
ghost use Rattle.publication.specs.inner.Closing.{is_settled, WereHanded, AreEnded, TookHanded};

use crate::board::Ticket;
use crate::roll::Roll;
use crate::slot::{Load, SlotValue};
use crate::step_kinds::{BoardKey, BoardRule};
use crate::steps::Seat;
use crate::view::View;
use atomic_table::Table;
use sequential::Sequential;
use std::alloc::Global;
use thiserror::Error;

/// Why a board was not closed.
#[derive(Clone, Copy, Debug, PartialEq, Eq, Error, Drop)]
pub enum CloseFault {
    /// The vector doesn't hold each session's ticket exactly once.
    #[error("a session is missing")]
    Missing = 1,
    /// A session has a call pending, or is the combiner.
    #[error("a session is pending")]
    Unsettled = 2,
}

/// Whether the slice holds one ticket for each of the sessions. It looks at each ticket and at each number once, and takes
/// no memory.
pub(crate) fn is_each_once<O: Sequential>(tickets: &[Ticket<O>], sessions: u16) -> bool
    requires few { sessions ≤ MAX_SESSIONS }
    ensures { IsTrue result ↔ IsEachOnce sessions tickets.now }
{
    if tickets.len() != usize::from(sessions) {
        return false;
    }
    let mut roll = Roll::new();
    for ticket in tickets {
        roll.call(ticket.number());
    }
    roll.has_all(sessions)
}

/// Whether no ticket has a call pending or is the combiner's.
pub(crate) fn are_settled<O: Sequential>(tickets: &[Ticket<O>]) -> bool
    ensures { result ≡ list_all is_settled tickets.now }
{
    tickets.iter().all(|ticket| ticket.is_settled())
}

/// Ends the table and returns its object. Needs a closing seat into which all sessions' seats were joined.
pub(crate) fn close_table<O: Sequential>(
    table: Table<SlotValue<O>, View<O::Call, O::Reply>, BoardKey<O>, BoardRule<O>, Global>,
    closing: Seat<O>,
) -> O
    requires ours { closing.table_id ≡ table.shared.table_id }
    requires some { 0 < table.shared.table_id.slots }
    requires all { WereHanded table.shared.table_id.slots closing.me.0.others.handed }
    ensures sessions { O.sessions result + 1 ≡ table.shared.table_id.slots }
    ensures bound { O.bound result ≡ bound_of O.bound table.shared.key.object.items }
    ensures legal { O.is_legal (O.history result) }
    ensures ends { AreEnded (O.history result) closing.me.0.others.handed }
    ensures pieces { TookHanded O.Sequential result closing.me.0.others.handed }
{
    let mut closed = table.close_with(closing);
    let held = closed.take(0);
    let mut i = 1;
    while i < closed.slot_count() {
        drop(closed.take(i));
        i += 1;
    }
    closed.free();
    let SlotValue::ObjectLoad(load) = held else {
        unreachable!()
    };
    let Load {
        object,
        row: _,
        passes: _,
        served: _,
        starved: _,
        ages: _,
        pieces: _,
    } = Box::into_inner(load);
    object
}
