//! The end of a board: the tickets of all sessions are joined, and the object is handed out.

ghost use Rattle.std.specs.Prelude.{◌≡◌, ◌+◌, ◌∷◌, ◌++◌, [], Some, IfOk, IfErr, map, All};
ghost use Rattle.publication.specs.Boards.{IsOf, IsEachOnce, IsSettled, AccountsFor, TookPieces};
ghost use Rattle.publication.specs.inner.Closing.{handed_by, WereHanded, AreEnded, TookHanded};

use crate::board::{Board, Ticket};
use crate::closing::{CloseFault, are_settled, close_table, is_each_once};
use crate::steps;
use crate::steps::Seat;
use sequential::Sequential;

impl<O: Sequential> Board<O> {
    /// Joins the seat of one ticket into the closing seat.
    fn join_ticket(&self, closing: &mut Seat<O>, ticket: Ticket<O>)
        requires ours { (closing.old.table_id ≡ self.now.id) × IsOf self.now ticket }
        requires closing { closing.old.me.0.number ≡ 0 }
        requires settled { IsSettled ticket }
        ensures ours { closing.new.table_id ≡ closing.old.table_id }
        ensures closing { closing.new.me.0.number ≡ 0 }
        ensures handed { closing.new.me.0.others.handed ≡ closing.old.me.0.others.handed ++ handed_by ticket ∷ [] }
    {
        let Ticket {
            seat,
            number,
            seen: _,
            has_object: _,
            is_pending: _,
            is_listed: _,
            is_retired: _,
        } = ticket;
        steps::gather_seat(&self.table.shared, closing, seat, usize::from(number));
    }

    /// Joins the seats of these tickets into the closing seat, in order.
    fn join_tickets(&self, closing: &mut Seat<O>, tickets: Vec<Ticket<O>>)
        requires ours { (closing.old.table_id ≡ self.now.id) × All (IsOf self.now) tickets.items }
        requires closing { closing.old.me.0.number ≡ 0 }
        requires settled { All IsSettled tickets.items }
        ensures ours { closing.new.table_id ≡ closing.old.table_id }
        ensures closing { closing.new.me.0.number ≡ 0 }
        ensures handed { closing.new.me.0.others.handed ≡ closing.old.me.0.others.handed ++ map handed_by tickets.items }
    {
        for ticket in tickets {
            self.join_ticket(closing, ticket);
        }
    }

    /// Ends the board and returns its object, after each session's seat was joined into the closing seat.
    fn finish(self, closing: Seat<O>) -> O
        requires ours { closing.table_id ≡ self.id }
        requires all { WereHanded (self.sessions + 1) closing.me.0.others.handed }
        ensures sessions { O.sessions result ≡ self.sessions }
        ensures bound { O.bound result ≡ self.bound }
        ensures legal { O.is_legal (O.history result) }
        ensures ends { AreEnded (O.history result) closing.me.0.others.handed }
        ensures pieces { TookHanded O.Sequential result closing.me.0.others.handed }
    {
        let Board { table, sessions: _ } = self;
        close_table(table, closing)
    }

    /// Closes the board and returns its object, with the whole history. Needs each session's ticket exactly once, in
    /// any order, and all of them settled: no call pending, and not the combiner.
    ///
    /// Otherwise it returns the board and the tickets, in their order, with `Missing` if a ticket is missing or there
    /// twice, else `Unsettled`. It takes no memory.
    pub fn gather(
        self,
        tickets: Vec<Ticket<O>>,
    ) -> Result<O, (CloseFault, Board<O>, Vec<Ticket<O>>)>
        requires ours { All (IsOf self) tickets.items }
        ensures all { IfOk result (λ _. IsEachOnce self.sessions tickets.items) }
        ensures settled { IfOk result (λ _. All IsSettled tickets.items) }
        ensures sessions { IfOk result (λ object. O.sessions object ≡ self.sessions) }
        ensures bound { IfOk result (λ object. O.bound object ≡ self.bound) }
        ensures legal { IfOk result (λ object. O.is_legal (O.history object)) }
        ensures accounts { IfOk result (λ object. All (AccountsFor (O.history object)) tickets.items) }
        ensures pieces { IfOk result (λ object. TookPieces O.Sequential object tickets.items) }
        ensures back { IfErr result (λ refused. (refused.1 ≡ self) × (refused.2.items ≡ tickets.items)) }
        ensures missing { IfErr result (λ refused. refused.0 ≡ CloseFault.Missing → ¬ (IsEachOnce self.sessions tickets.items)) }
        ensures unsettled { IfErr result (λ refused. refused.0 ≡ CloseFault.Unsettled → IsEachOnce self.sessions tickets.items × ¬ (All IsSettled tickets.items)) }
    {
        if !is_each_once(tickets.as_slice(), self.sessions) {
            return Err((CloseFault::Missing, self, tickets));
        }
        if !are_settled(tickets.as_slice()) {
            return Err((CloseFault::Unsettled, self, tickets));
        }
        let mut tickets = tickets;
        let Some(mut last) = tickets.pop() else {
            unreachable!()
        };
        let mut closing = self.split_copy(&mut last);
        self.join_tickets(&mut closing, tickets);
        self.join_ticket(&mut closing, last);
        Ok(self.finish(closing))
    }
}
