//! What the combiner does on the board: it takes the object and gives it back, walks the publication list, opens,
//! answers and puts back the records that it meets, and enters calls of its own without its record.

ghost use Rattle.std.specs.Prelude.{◌≡◌, ◌≢◌, ◌+◌, ◌^◌, ◌<◌, ◌≤◌, ◌∷◌, ◌++◌, [], true, false, Some, None, IfSome, IfNone, length, slice_set};
ghost use mathlib.Core.List.{IsPrefix};
ghost use Rattle.sequential.specs.Histories.{calls_of};
ghost use Rattle.publication.specs.Views.{entry, answer};
ghost use Rattle.publication.specs.Pieces.{pieces_of, HasAdded, added};
ghost use Rattle.publication.specs.Rule.{IsHome};
ghost use Rattle.publication.specs.List.{IsOn, first_of, behind, without};
ghost use Rattle.publication.specs.StepKinds.{IsRoute};
ghost use Rattle.publication.specs.Boards.{IsOf, HasCallsOf, IsNumber, OpensNone, opened_at, asked_at, heard_from, published_by};

use crate::board::{Board, Ticket};
use crate::slot::Load;
use crate::{list_steps, steps};
use sequential::Sequential;
use std::marker::Brand;

impl<O: Sequential> Board<O> {
    /// Tries once to become the combiner, which has the object until `release`. Returns `None` if the lock word
    /// isn't free. It writes the lock word only after a load found it free. The load moves in and out in one box.
    pub fn seize(&self, ticket: &mut Ticket<O>) -> Option<Box<Load<O>>>
        requires ours { IsOf self.now ticket.old }
        ensures ticket { IfSome result (λ load. ticket.new ≡ record ticket.old {
          front = O.history load.value.object;
          has_object = true;
          taken = load.value.pieces.items;
        }) }
        ensures home { IfSome result (λ load. IsHome O.Sequential (O.history load.value.object) (self.now.sessions + 1) load.value) }
        ensures bound { IfSome result (λ load. O.bound load.value.object ≡ self.now.bound) }
        ensures legal { IfSome result (λ load. O.is_legal (O.history load.value.object)) }
        ensures short { IfSome result (λ load. length (O.history load.value.object) < 2 ^ 64) }
        ensures longer { IfSome result (λ load. IsPrefix ticket.old.front (O.history load.value.object)) }
        ensures lacked { IfSome result (λ _. ticket.old.has_object ≡ false) }
        ensures pieces { IfSome result (λ load. ticket.old.pieces ≡ pieces_of ticket.old.number load.value.pieces.items) }
        ensures untaken { IfSome result (λ _. ticket.old.taken ≡ []) }
        ensures none { IfNone result (ticket.new ≡ ticket.old) }
        ensures others { IfNone result (ticket.old.has_object ≡ false → 1 < self.now.sessions) }
        ensures number { IsNumber self.now ticket.old.number }
        ensures own { ticket.old.pending ≢ None → ticket.old.listed ≡ true → heard_from ticket.old ticket.old.number ≡ published_by ticket.old }
        ensures calls { HasCallsOf ticket.new.front ticket.new }
    {
        let load = steps::seize_load::<O, Brand>(
            &self.table.shared,
            &mut ticket.seat,
            u64::from(ticket.number),
        )?;
        ticket.has_object = true;
        ticket.seen = load.object.served();
        Some(load)
    }

    /// Gives the object back and stops being the combiner. Needs the history that the board has, an empty row,
    /// and no record opened. The load notes the pieces of the history that were taken before, and behind them those
    /// that this session took as the combiner.
    pub fn release(&self, ticket: &mut Ticket<O>, load: Box<Load<O>>)
        requires ours { IsOf self.now ticket.old }
        requires has { ticket.old.has_object ≡ true }
        requires none { OpensNone ticket.old }
        requires home { IsHome O.Sequential ticket.old.front (self.now.sessions + 1) load.value }
        requires bound { O.bound load.value.object ≡ self.now.bound }
        requires took { HasAdded ticket.old.number ticket.old.taken load.value.pieces.items }
        ensures ticket { ticket.new ≡ record ticket.old {
          has_object = false;
          route = [];
          pieces = ticket.old.pieces ++ added ticket.old.taken load.value.pieces.items;
          taken = [];
        } }
        ensures calls { HasCallsOf ticket.new.front ticket.new }
    {
        steps::release_load(&self.table.shared, &mut ticket.seat, load);
        ticket.has_object = false;
    }

    /// Takes one step of the combiner's walk along the publication list: from the head word, or from a record that
    /// the walk has met. Returns the next record, or `None` at the end mark. A walk meets each record once that is on
    /// the list as it begins.
    pub fn walk(&self, ticket: &mut Ticket<O>, after: Option<u16>) -> Option<u16>
        requires ours { IsOf self.now ticket.old }
        requires has { ticket.old.has_object ≡ true }
        requires on { IfSome after (λ q. IsNumber self.now q × IsOn q ticket.old.route) }
        ensures ticket { ticket.new ≡ record ticket.old { route = ticket.new.route } }
        ensures first { IfNone after (result ≡ first_of ticket.new.route) }
        ensures next { IfSome after (λ q. (ticket.new ≡ ticket.old) × (result ≡ first_of (behind q ticket.old.route))) }
        ensures route { IsRoute (self.now.sessions + 1) ticket.new.route }
        ensures all { IfNone after ((j : _) → 0 < j → j ≤ self.now.sessions → length (calls_of j ticket.old.front) < heard_from ticket.old j → IsOn j ticket.new.route) }
    {
        match after {
            None => list_steps::walk_from_head(&self.table.shared, &mut ticket.seat),
            Some(whose) => list_steps::walk_on(
                &self.table.shared,
                &mut ticket.seat,
                usize::from(whose),
            ),
        }
    }

    /// Takes the record `whose` off the publication list and returns whether it did. `before` is the record in front
    /// of it; the list's first record can't be taken off.
    ///
    /// The combiner links `before` past the record and tries to mark the record OUT. A record that isn't EMPTY or
    /// CLOSED is linked again at once, and the list is as it was.
    pub fn unlink(&self, ticket: &mut Ticket<O>, before: u16, whose: u16) -> bool
        requires ours { IsOf self.now ticket.old }
        requires has { ticket.old.has_object ≡ true }
        requires before { IsNumber self.now before × IsOn before ticket.old.route }
        requires whose { IsNumber self.now whose × (first_of (behind before ticket.old.route) ≡ Some whose) }
        ensures off { result ≡ true → ticket.new ≡ record ticket.old { route = without before ticket.old.route } }
        ensures kept { result ≡ false → ticket.new ≡ ticket.old }
    {
        list_steps::unlink_record(
            &self.table.shared,
            &mut ticket.seat,
            usize::from(before),
            usize::from(whose),
        )
    }

    /// Whether a call is posted in the record of a session. It is a plain load, so a walk over idle records writes none.
    pub fn is_posted(&self, ticket: &mut Ticket<O>, whose: u16) -> bool
        requires ours { IsOf self.now ticket.old }
        requires has { ticket.old.has_object ≡ true }
        requires whose { IsNumber self.now whose }
        ensures same { ticket.new ≡ ticket.old }
        ensures entered { result ≡ false → opened_at ticket.old whose ≡ None → heard_from ticket.old whose ≤ length (calls_of whose ticket.old.front) }
        ensures own_entered { result ≡ false → opened_at ticket.old whose ≡ None → ticket.old.number ≡ whose → ticket.old.pending ≢ None
            → length ticket.old.collected < length (calls_of whose ticket.old.front) }
    {
        steps::is_posted(&self.table.shared, &mut ticket.seat, usize::from(whose))
    }

    /// Opens the record of a session: takes the call that is posted there; `None` if there is none. It writes the
    /// record only after a load found a call posted.
    pub fn open(&self, ticket: &mut Ticket<O>, whose: u16) -> Option<O::Call>
        requires ours { IsOf self.now ticket.old }
        requires has { ticket.old.has_object ≡ true }
        requires whose { IsNumber self.now whose }
        ensures ticket { IfSome result (λ call. ticket.new ≡ record ticket.old { opened = slice_set ticket.old.opened whose (Some call) }) }
        ensures opened { IfSome result (λ call. opened_at ticket.new whose ≡ Some call) }
        ensures lacked { IfSome result (λ _. opened_at ticket.old whose ≡ None) }
        ensures heard { IfSome result (λ _. heard_from ticket.old whose ≤ length (calls_of whose ticket.old.front) + 1) }
        ensures own { IfSome result (λ _. ticket.old.number ≡ whose → length ticket.old.collected ≡ length (calls_of whose ticket.old.front)) }
        ensures none { IfNone result (ticket.new ≡ ticket.old) }
        ensures entered { IfNone result (opened_at ticket.old whose ≡ None → heard_from ticket.old whose ≤ length (calls_of whose ticket.old.front)) }
        ensures own_entered { IfNone result (opened_at ticket.old whose ≡ None → ticket.old.number ≡ whose → ticket.old.pending ≢ None
            → length ticket.old.collected < length (calls_of whose ticket.old.front)) }
    {
        steps::open_record(&self.table.shared, &mut ticket.seat, usize::from(whose))
    }

    /// Answers a call that the combiner opened. The call's entry becomes the last one of the board's history, and its place one
    /// that the session entered.
    pub fn answer(&self, ticket: &mut Ticket<O>, whose: u16, reply: O::Reply)
        requires ours { IsOf self.now ticket.old }
        requires has { ticket.old.has_object ≡ true }
        requires whose { IsNumber self.now whose }
        requires short { length ticket.old.front + 1 < 2 ^ 64 }
        requires opened { opened_at ticket.old whose ≡ Some (asked_at O.Sequential ticket.old whose) }
        requires legal { O.is_legal (ticket.old.front ++ entry whose (asked_at O.Sequential ticket.old whose) reply ∷ []) }
        ensures ticket { ticket.new ≡ record ticket.old {
          front = ticket.old.front ++ entry whose (asked_at O.Sequential ticket.old whose) reply ∷ [];
          opened = slice_set ticket.old.opened whose None;
          entered = ticket.old.entered ++ length ticket.old.front ∷ [];
        } }
    {
        let place = ticket.seen;
        steps::answer_record(
            &self.table.shared,
            &mut ticket.seat,
            usize::from(whose),
            place,
            reply,
        );
        ticket.seen = place + 1;
    }

    /// Enters a call of the combiner's own session, which it has performed on the object and not published, into the
    /// history. The call's entry becomes the last one, its place one that the session entered, and its answer is collected at once.
    /// Returns the place of the entry.
    /// The session must be idle. Its record stays as it is, and no word is written.
    pub fn enter(&self, ticket: &mut Ticket<O>, call: O::Call, reply: O::Reply) -> u64
        requires ours { IsOf self.now ticket.old }
        requires has { ticket.old.has_object ≡ true }
        requires idle { (ticket.old.pending ≡ None) × (ticket.old.retired ≡ false) }
        requires short { length ticket.old.front + 1 < 2 ^ 64 }
        requires legal { O.is_legal (ticket.old.front ++ entry ticket.old.number call reply ∷ []) }
        ensures place { result ≡ length ticket.old.front }
        ensures ticket { ticket.new ≡ record ticket.old {
          front = ticket.old.front ++ entry ticket.old.number call reply ∷ [];
          collected = ticket.old.collected ++ answer result call reply ∷ [];
          entered = ticket.old.entered ++ result ∷ [];
        } }
        ensures calls { calls_of ticket.new.number ticket.new.front ≡ ticket.new.collected }
    {
        let entered = ticket.seen;
        steps::enter_call::<O, Brand>(&self.table.shared, &mut ticket.seat, call, reply);
        ticket.seen = entered + 1;
        entered
    }

    /// Posts a call again that the combiner opened and hasn't performed.
    pub fn put_back(&self, ticket: &mut Ticket<O>, whose: u16, call: O::Call)
        requires ours { IsOf self.now ticket.old }
        requires has { ticket.old.has_object ≡ true }
        requires whose { IsNumber self.now whose }
        requires opened { opened_at ticket.old whose ≡ Some call }
        ensures ticket { ticket.new ≡ record ticket.old { opened = slice_set ticket.old.opened whose None; put_backs = ticket.old.put_backs + 1 } }
    {
        steps::put_back_record(
            &self.table.shared,
            &mut ticket.seat,
            usize::from(whose),
            call,
        );
    }
}
