//! The board and its tickets.

ghost use Rattle.std.specs.Prelude.{◌≡◌, ◌≢◌, ◌⊎◌, ◌+◌, ◌-◌, ◌<◌, ◌≤◌, ◌∷◌, ◌++◌, [], true, false, Some, None, IfOk, IfSome, IfNone, length, max, cond, All, IsTrue, ◌↔◌};
ghost use Rattle.atomic_table.specs.Table.{turned};
ghost use Rattle.sequential.specs.Histories.{calls_of};
ghost use Rattle.publication.specs.inner.Tickets.{IsBoard};
ghost use Rattle.publication.specs.Views.{entry, answer, asks};
ghost use Rattle.publication.specs.Rule.{maker, new_session};
ghost use Rattle.publication.specs.StepKinds.{Took};
ghost use Rattle.publication.specs.Boards.{IsOf, heard_from, published_by, new_ticket, new_tickets, publishing, enlisted, tried, IsUnlisted};
ghost use Rattle.publication.specs.inner.Closing.{is_settled};

mod combiner;
mod gathering;
mod knowledge;

use crate::new_board::{initial_slots, split_all};
use crate::slot::{Load, SlotValue};
use crate::step_kinds::{BoardKey, BoardRule, StartSession};
use crate::steps::{Seat, Words};
use crate::view::View;
use crate::words::{END, HEAD, WORDS_APART};
use crate::{list_steps, steps};
use atomic_table::{Refused, Table};
pub use knowledge::TicketKnowledge;
use sequential::{GhostList, Sequential};
use std::alloc::{AllocError as NoMemory, Global};
use std::marker::Model;

/// Whether a posted call is listed.
#[derive(Clone, Copy, Debug, PartialEq, Eq)]
pub enum Posted {
    /// The record is on the publication list, so passes of every session visit it.
    Listed,
    /// The record isn't on the publication list: another session won the exchange of the head word. Only passes of
    /// its own session visit it, until `enlist` succeeds.
    Unlisted,
}

/// The lock word, one publication record for each session, and the object, which the combiner takes.
#[derive(Drop)]
pub struct Board<O: Sequential> {
    /// The atomic words, the slots and the rule that they keep.
    table: Table<SlotValue<O>, View<O::Call, O::Reply>, BoardKey<O>, BoardRule<O>, Global>,
    /// The number of sessions.
    sessions: u16,
}

impl<O: Sequential> Model for Board<O> {
    ghost use Rattle.publication.specs.Views.{BoardView};

    ghost Value = { BoardView };

    ghost use Rattle.publication.specs.inner.Inside.{board_view_of, IsSized};

    ghost view = { board_view_of O.bound };

    ghost invariant = { IsSized };
}

/// A session's handle: with it the session posts calls, takes replies and acts as the combiner.
#[derive(Drop)]
pub struct Ticket<O: Sequential> {
    /// Its handle on the table's words and slots.
    seat: Seat<O>,
    /// The session's number, from 1 on.
    number: u16,
    /// How many entries of the history it knows.
    seen: u64,
    /// Whether it is the combiner.
    has_object: bool,
    /// Whether it has a call pending.
    is_pending: bool,
    /// Whether the call that it published last is listed.
    is_listed: bool,
    /// Whether it publishes no more calls.
    is_retired: bool,
}

impl<O: Sequential> Model for Ticket<O> {
    ghost use Rattle.publication.specs.Views.{TicketView};

    ghost Value = { TicketView O.Call O.Reply };

    ghost use Rattle.publication.specs.inner.Inside.{ticket_view_of, IsTicketState};

    ghost view = { ticket_view_of };

    ghost invariant = { IsTicketState };
}

impl<O: Sequential> Ticket<O> {
    /// The session's number, from 1 on.
    pub fn number(&self) -> u16
        ensures { result ≡ self.now.number }
    {
        self.number
    }

    /// Whether the session may post a call: none is pending, and it hasn't retired.
    pub fn is_idle(&self) -> bool
        ensures { IsTrue result ↔ ((self.now.pending ≡ None) × (self.now.retired ≡ false)) }
    {
        !self.is_pending && !self.is_retired
    }

    /// Whether the session has retired and publishes no more calls.
    pub fn is_retired(&self) -> bool
        ensures { result ≡ self.now.retired }
    {
        self.is_retired
    }

    /// Whether the session has a call pending that isn't listed.
    pub fn is_unlisted(&self) -> bool
        ensures { IsTrue result ↔ IsUnlisted self.now }
    {
        self.is_pending && !self.is_listed
    }

    /// Whether the session has no call pending and isn't the combiner.
    pub(crate) fn is_settled(&self) -> bool
        ensures { result ≡ is_settled self.now }
    {
        !self.is_pending && !self.has_object
    }

    /// How many entries of the history the session knows, from the first on. The number never falls.
    pub fn seen(&self) -> u64
        ensures { result ≡ length self.now.front }
    {
        self.seen
    }
}

/// Moves the slot taken last behind the others if `turns`. The combiner needs it to reach its record's slot, since it
/// also carries the lock's slot.
fn turn_if<O: Sequential>(seat: &mut Seat<O>, turns: bool)
    ensures { (seat.new.table_id ≡ seat.old.table_id) × (seat.new.me ≡ (seat.old.me.0, cond turns (turned seat.old.me.1) seat.old.me.1)) }
{
    if turns {
        seat.turn();
    }
}

/// Makes session `number` out of its new seat, once all sessions are made: the seat learns so from the first seat,
/// and takes its record's slot.
fn enrol<O: Sequential>(
    shared: &Words<O>,
    first: &mut Seat<O>,
    seat: Seat<O>,
    sessions: u16,
    number: u16,
) -> Ticket<O>
    requires ours { (first.old.table_id ≡ shared.now.table_id) × (seat.table_id ≡ shared.now.table_id) }
    requires board { IsBoard shared.now.table_id }
    requires slots { shared.now.table_id.slots ≡ sessions + 1 }
    requires made { first.old.me ≡ (maker (sessions + 1) sessions, []) }
    requires new { seat.me ≡ (new_session (sessions + 1) number, []) }
    requires number { (0 < number) × (number ≤ sessions) }
    ensures ours { first.new.table_id ≡ first.old.table_id }
    ensures same { first.new.me ≡ first.old.me }
    ensures ticket { result ≡ new_ticket shared.now.table_id sessions number }
{
    let mut seat = seat;
    steps::hear_seat(shared, &mut seat, first);
    shared.load::<StartSession>(&mut seat, usize::from(number) * WORDS_APART);
    Ticket {
        seat,
        number,
        seen: 0,
        has_object: false,
        is_pending: false,
        is_listed: false,
        is_retired: false,
    }
}

/// Makes all sessions, in order. All seats are split first: a seat takes the next free number when it is split,
/// `enrol` splits copies too, and session i needs number i.
fn enrol_all<O: Sequential>(
    alloc: Global,
    shared: &Words<O>,
    first: &mut Seat<O>,
    sessions: u16,
) -> Result<Vec<Ticket<O>>, NoMemory>
    requires ours { first.old.table_id ≡ shared.now.table_id }
    requires board { IsBoard shared.now.table_id }
    requires slots { shared.now.table_id.slots ≡ sessions + 1 }
    requires first { first.old.id ≡ 0 }
    requires made { first.old.me ≡ (maker (sessions + 1) 0, []) }
    ensures tickets { IfOk result (λ tickets. tickets.items ≡ new_tickets shared.now.table_id sessions sessions) }
{
    let seats = split_all(alloc, shared, first, sessions)?;
    let mut tickets = Vec::new(alloc);
    let mut number = 0;
    for seat in seats {
        number += 1;
        tickets.push(enrol(shared, first, seat, sessions, number))?;
    }
    Ok(tickets)
}

impl<O: Sequential> Board<O> {
    /// A board for the sessions of the object, and a ticket for each session, by number. Fails with `NoMemory` if
    /// memory is refused.
    pub fn new(alloc: Global, object: O) -> Result<(Board<O>, Vec<Ticket<O>>), NoMemory>
        requires empty { O.history object ≡ [] }
        ensures sessions { IfOk result (λ made. made.0.sessions ≡ O.sessions object) }
        ensures bound { IfOk result (λ made. made.0.bound ≡ O.bound object) }
        ensures tickets { IfOk result (λ made. made.1.items ≡ new_tickets made.0.id (O.sessions object) (O.sessions object)) }
    {
        let sessions = object.sessions();
        // shows that an empty history has no cut above 0
        let _served = object.served();
        let mut key = BoardKey {
            sessions,
            object: GhostList::new(),
        };
        key.object.push(&object);
        let row = Vec::with_capacity(alloc, usize::from(sessions))?;
        let ages = vec![in alloc; 0u64; usize::from(sessions)]?;
        let load = Load {
            object,
            row,
            passes: 0,
            served: 0,
            starved: 0,
            ages,
            pieces: GhostList::new(),
        };
        let load = Box::new(alloc, load)?;
        let mut words = vec![in alloc; 0u64; (usize::from(sessions) + 1) * WORDS_APART]?;
        words[HEAD] = END;
        let slots = initial_slots(alloc, load, sessions)?;
        let (table, mut first) = match Table::new(alloc, words.as_slice(), slots, &key) {
            Ok(made) => made,
            Err(Refused { slots: _ }) => return Err(NoMemory),
        };
        let tickets = enrol_all(alloc, &table.shared, &mut first, sessions)?;
        Ok((Board { table, sessions }, tickets))
    }

    /// The number of sessions.
    pub fn sessions(&self) -> u16
        ensures { result ≡ self.now.sessions }
    {
        self.sessions
    }

    /// Publishes the call in the ticket's record. The call is listed at once if the record is on the publication
    /// list.
    fn publish_call(&self, ticket: &mut Ticket<O>, call: O::Call)
        requires ours { IsOf self.now ticket.old }
        requires idle { (ticket.old.pending ≡ None) × (ticket.old.retired ≡ false) }
        ensures listed { ticket.new.listed ≡ true → ticket.new ≡ enlisted (publishing ticket.old call) }
        ensures unlisted { ticket.new.listed ≡ false → ticket.new ≡ publishing ticket.old call }
    {
        turn_if(&mut ticket.seat, ticket.has_object);
        ticket.is_listed = steps::publish_in_record(
            &self.table.shared,
            &mut ticket.seat,
            usize::from(ticket.number),
            call,
        );
        ticket.is_pending = true;
    }

    /// Tries once to have the pending call, which isn't listed, listed: one exchange of the head word.
    fn exchange_head(&self, ticket: &mut Ticket<O>)
        requires ours { IsOf self.now ticket.old }
        requires unlisted { IsUnlisted ticket.old }
        ensures rises { (j : _) → heard_from ticket.old j ≤ heard_from ticket.new j }
        ensures listed { ticket.new.listed ≡ true → ticket.new ≡ tried (enlisted ticket.old) }
        ensures heard { ticket.new.listed ≡ true → heard_from ticket.new ticket.new.number ≡ published_by ticket.new }
        ensures unlisted { ticket.new.listed ≡ false → (ticket.new ≡ tried ticket.old) × (1 < self.now.sessions) }
    {
        ticket.is_listed = list_steps::enlist_record(
            &self.table.shared,
            &mut ticket.seat,
            usize::from(ticket.number),
        );
    }

    /// Publishes a call of the ticket's session; the call is pending from then on. If the record wasn't on the
    /// publication list, it tries once to exchange the head word, and returns `Unlisted` if the exchange was lost.
    pub fn post(&self, ticket: &mut Ticket<O>, call: O::Call) -> Posted
        requires ours { IsOf self.now ticket.old }
        requires idle { (ticket.old.pending ≡ None) × (ticket.old.retired ≡ false) }
        ensures listed { result ≡ Posted.Listed → (ticket.new ≡ enlisted (publishing ticket.old call)) ⊎ (ticket.new ≡ tried (enlisted (publishing ticket.old call))) }
        ensures heard { result ≡ Posted.Listed → heard_from ticket.new ticket.new.number ≡ length ticket.new.collected + 1 }
        ensures unlisted { result ≡ Posted.Unlisted → (ticket.new ≡ tried (publishing ticket.old call)) × (1 < self.now.sessions) }
    {
        self.publish_call(ticket, call);
        self.enlist(ticket)
    }

    /// Tries once more to have the pending call listed: one exchange of the head word, which counts as a try. Returns
    /// `Listed` at once if the call is listed already, and `Unlisted` if the exchange was lost.
    pub fn enlist(&self, ticket: &mut Ticket<O>) -> Posted
        requires ours { IsOf self.now ticket.old }
        requires pending { ticket.old.pending ≢ None }
        ensures rises { (j : _) → heard_from ticket.old j ≤ heard_from ticket.new j }
        ensures at_once { ticket.old.listed ≡ true → (result ≡ Posted.Listed) × (ticket.new ≡ ticket.old) }
        ensures listed { result ≡ Posted.Listed → ticket.old.listed ≡ false → ticket.new ≡ tried (enlisted ticket.old) }
        ensures heard { result ≡ Posted.Listed → heard_from ticket.new ticket.new.number ≡ published_by ticket.new }
        ensures unlisted { result ≡ Posted.Unlisted → (ticket.new ≡ tried ticket.old) × (ticket.old.listed ≡ false) × (1 < self.now.sessions) }
    {
        if ticket.is_listed {
            return Posted::Listed;
        }
        self.exchange_head(ticket);
        if ticket.is_listed {
            Posted::Listed
        } else {
            Posted::Unlisted
        }
    }

    /// Takes the reply to the pending call, with the place of its entry in the history, from 0 on. Each reply is
    /// taken once. `None`, with nothing changed, means that the session isn't pending, or that its call isn't in what
    /// the session knows of the history.
    pub fn take(&self, ticket: &mut Ticket<O>) -> Option<(u64, O::Reply)>
        requires ours { IsOf self.now ticket.old }
        ensures some { IfSome result (λ r. (call : _) × (floor : _) × (ticket.old.pending ≡ Some (asks call floor))
            × (ticket.new ≡ record ticket.old {
              front = ticket.new.front;
              pending = None;
              collected = ticket.old.collected ++ answer r.0 call r.1 ∷ [];
            })
            × Took O.Sequential ticket.old.number ticket.old.front ticket.old.collected call floor r.0 r.1 ticket.new.front) }
        ensures none { IfNone result (ticket.new ≡ ticket.old) }
        ensures unanswered { IfNone result (ticket.old.pending ≢ None → length (calls_of ticket.old.number ticket.old.front) ≤ length ticket.old.collected) }
    {
        let (place, reply) = steps::collect_reply(
            &self.table.shared,
            &mut ticket.seat,
            usize::from(ticket.number),
            ticket.is_listed,
        )?;
        turn_if(&mut ticket.seat, ticket.has_object);
        ticket.is_pending = false;
        ticket.seen = u64::max(ticket.seen, place + 1);
        Some((place, reply))
    }

    /// Retires the session: it publishes no more calls.
    pub fn retire(&self, ticket: &mut Ticket<O>)
        requires ours { IsOf self.now ticket.old }
        requires idle { (ticket.old.pending ≡ None) × (ticket.old.retired ≡ false) }
        ensures ticket { ticket.new ≡ record ticket.old { retired = true } }
    {
        steps::retire_record(
            &self.table.shared,
            &mut ticket.seat,
            usize::from(ticket.number),
        );
        ticket.is_retired = true;
    }

    /// Splits off a seat that knows what the ticket's seat knows.
    fn split_copy(&self, ticket: &mut Ticket<O>) -> Seat<O>
        requires ours { IsOf self.now ticket.old }
        ensures ticket { ticket.new ≡ ticket.old }
        ensures seat { (result.table_id ≡ self.now.id) × (result.me.0.others.handed ≡ []) }
        ensures closing { result.me.0.number ≡ 0 }
    {
        steps::split_copy(&self.table.shared, &mut ticket.seat)
    }
}
