//! What one session knows, as a value that can move to another thread and be given to another session there.

ghost use Rattle.std.specs.Prelude.{◌≡◌, length, max, slice_index};
ghost use mathlib.Core.List.{IsPrefix};
ghost use Rattle.publication.specs.StepKinds.{longer, maxes};
ghost use Rattle.publication.specs.Boards.{IsOf, HasCallsOf, heard_from, known_by};

use crate::board::{Board, Ticket};
use crate::steps;
use crate::steps::Seat;
use sequential::Sequential;
use std::marker::Model;

/// What a session knew when its knowledge was taken: a front of the history, and for each session the number of calls
/// that it had heard of. It is a value of its own that can move to another thread.
#[derive(Drop)]
pub struct TicketKnowledge<O: Sequential> {
    seat: Seat<O>,
    seen: u64,
}

impl<O: Sequential> Model for TicketKnowledge<O> {
    ghost use Rattle.publication.specs.Views.{KnowledgeView};

    ghost Value = { KnowledgeView O.Call O.Reply };

    ghost use Rattle.publication.specs.inner.Inside.{knowledge_view_of, IsCopy};

    ghost view = { knowledge_view_of };

    ghost invariant = { IsCopy };
}

impl<O: Sequential> TicketKnowledge<O> {
    /// The number of history entries that were known.
    pub fn seen(&self) -> u64
        ensures { result ≡ length self.now.front }
    {
        self.seen
    }
}

impl<O: Sequential> Board<O> {
    /// What the session of `ticket` knows.
    pub fn knowledge(&self, ticket: &mut Ticket<O>) -> TicketKnowledge<O>
        requires ours { IsOf self.now ticket.old }
        ensures same { ticket.new ≡ ticket.old }
        ensures knowledge { result ≡ known_by ticket.old }
    {
        TicketKnowledge {
            seat: steps::split_copy(&self.table.shared, &mut ticket.seat),
            seen: ticket.seen,
        }
    }

    /// Lets the session of `ticket` learn what `knowledge` says: the longer of both fronts of the history, and for each
    /// session the larger number of calls that either had heard of.
    pub fn heed(&self, ticket: &mut Ticket<O>, knowledge: TicketKnowledge<O>)
        requires ours { IsOf self.now ticket.old × (knowledge.board ≡ self.now.id) }
        ensures ticket { ticket.new ≡ record ticket.old {
          front = longer ticket.old.front knowledge.front;
          heard = maxes ticket.old.heard knowledge.heard;
        } }
        ensures fronts { IsPrefix ticket.old.front ticket.new.front × IsPrefix knowledge.front ticket.new.front }
        ensures legal { O.is_legal ticket.new.front }
        ensures heard { (j : _) → heard_from ticket.new j ≡ max (heard_from ticket.old j) (slice_index knowledge.heard j) }
        ensures calls { HasCallsOf ticket.new.front ticket.new }
    {
        let TicketKnowledge { seat, seen } = knowledge;
        steps::heed_seat(&self.table.shared, &mut ticket.seat, seat);
        ticket.seen = u64::max(ticket.seen, seen);
    }

    /// Lets the session of `ticket` learn what `other` knows: the longer of their fronts of the history, and for each
    /// session the larger number of calls that either has heard of. `other` learns nothing.
    pub fn hear(&self, ticket: &mut Ticket<O>, other: &mut Ticket<O>)
        requires ours { IsOf self.now ticket.old × IsOf self.now other.old }
        ensures other { other.new ≡ other.old }
        ensures ticket { ticket.new ≡ record ticket.old {
          front = longer ticket.old.front other.old.front;
          heard = maxes ticket.old.heard other.old.heard;
        } }
        ensures fronts { IsPrefix ticket.old.front ticket.new.front × IsPrefix other.old.front ticket.new.front }
        ensures legal { O.is_legal ticket.new.front }
        ensures heard { (j : _) → heard_from ticket.new j ≡ max (heard_from ticket.old j) (heard_from other.old j) }
        ensures calls { HasCallsOf ticket.new.front ticket.new × HasCallsOf ticket.new.front other.new }
    {
        let knowledge = self.knowledge(other);
        self.heed(ticket, knowledge);
        // shows that the calls of `other` in the longer front are those that it knows of
        steps::compare_fronts(&self.table.shared, &mut other.seat, &mut ticket.seat);
    }
}
