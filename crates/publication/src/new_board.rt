//! The slots and the seats of a new board.
ghost use Rattle.std.specs.Prelude.{◌≡◌, ◌+◌, ◌∷◌, [], IfOk, length, replicate};
ghost use Rattle.publication.specs.Rule.{maker};
ghost use Rattle.publication.specs.inner.Tickets.{IsBoard, AreNewSeats};

use crate::slot::{Load, SlotValue};
use crate::step_kinds::Enrol;
use crate::steps::{Seat, Words};
use sequential::Sequential;
use std::alloc::{AllocError as NoMemory, Global};

/// The slots of a new board: the load in the lock's slot, and an empty slot for each session.
pub(crate) fn initial_slots<O: Sequential>(
    alloc: Global,
    load: Box<Load<O>>,
    sessions: u16,
) -> Result<Vec<SlotValue<O>>, NoMemory>
    ensures { IfOk result (λ v. v.items ≡ SlotValue.ObjectLoad load ∷ replicate sessions SlotValue.Empty) }
{
    let mut slots = Vec::new(alloc);
    slots.push(SlotValue::ObjectLoad(load))?;
    for _session in 0..sessions {
        slots.push(SlotValue::Empty)?;
    }
    Ok(slots)
}

/// Splits a seat for each session off the first seat, in order: seat i is session i's.
pub(crate) fn split_all<O: Sequential>(
    alloc: Global,
    shared: &Words<O>,
    first: &mut Seat<O>,
    sessions: u16,
) -> Result<Vec<Seat<O>>, NoMemory>
    requires ours { first.old.table_id ≡ shared.now.table_id }
    requires board { IsBoard shared.now.table_id }
    requires slots { shared.now.table_id.slots ≡ sessions + 1 }
    requires first { first.old.id ≡ 0 }
    requires made { first.old.me ≡ (maker (sessions + 1) 0, []) }
    ensures ours { IfOk result (λ _. first.new.table_id ≡ first.old.table_id) }
    ensures made { IfOk result (λ _. first.new.me ≡ (maker (sessions + 1) sessions, [])) }
    ensures seats { IfOk result (λ seats. (length seats.items ≡ sessions) × AreNewSeats shared.now.table_id (sessions + 1) seats.items) }
{
    let mut seats = Vec::new(alloc);
    for _made in 0..sessions {
        seats.push(shared.split_seat::<Enrol>(first))?;
    }
    Ok(seats)
}
