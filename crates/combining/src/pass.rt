//! What a round of a pass is made of: the combiner opens records in which calls are posted, performs the calls as one batch, and
//! answers them.

ghost use Rattle.std.specs.Prelude.{◌≡◌, ◌≢◌, ◌+◌, ◌-◌, ◌^◌, ◌<◌, ◌≤◌, ◌↔◌, ◌∷◌, ◌++◌, min, [], true, false, IsTrue, Some, None, IfSome, IfNone, length, take, drop, vec_len, vec_capacity, if◌then◌else◌, All};
ghost use mathlib.Core.List.{IsPrefix};
ghost use Rattle.sequential.specs.Histories.{calls_of};
ghost use Rattle.sequential.specs.Batches.{IsItemWithin, asked_by, asked_in};
ghost use Rattle.publication.specs.Boards.{IsOf, IsNumber, OpensNone, heard_from, published_by};
ghost use Rattle.publication.specs.List.{IsOn};
ghost use Rattle.publication.specs.StepKinds.{IsRoute};
ghost use Rattle.combining.specs.inner.Passes.{AreOpened, HasCalls, KeepsCalls, IsVisited, HasVisitedOpened, IsNext, HasMet, IsSameSession, HasInserted, HasAnswered, HasPassed, IsObjectInHand, IsAtWork, HasRow, HasServed, HasServedRow};
ghost use Rattle.combining.specs.inner.Ages.{sessions_of, sessions_since, noted};

use crate::clean_up::note_served;
use publication::{Board, Load, Ticket};
use sequential::{Batching, Item};

/// The outcome of a row of calls.
#[derive(Drop)]
pub(crate) struct Served {
    /// How many calls it served.
    pub served: u32,
    /// Whether it put calls back, because memory was refused for one.
    pub starved: bool,
}

/// Inserts an item for the call of session `whose` into the row, which has room for it, behind the first `place` items.
#[inline(always)]
fn insert_item<C: Copy, R: Copy>(row: &mut Vec<Item<C, R>>, place: usize, whose: u16, call: C)
    requires place { place ≤ vec_len row.old }
    requires room { vec_len row.old < vec_capacity row.old }
    ensures items { row.new.items ≡ take place row.old.items ++ (record { session = whose; call = call; reply = None }) ∷ drop place row.old.items }
    ensures len { vec_len row.new ≡ vec_len row.old + 1 }
    ensures capacity { vec_capacity row.old ≤ vec_capacity row.new }
{
    let item = Item {
        session: whose,
        call,
        reply: None,
    };
    // an item that comes last is written in its place
    if place == row.len() {
        let Ok(()) = row.push(item) else {
            unreachable!()
        };
        return;
    }
    let Ok(()) = row.insert(place, item) else {
        unreachable!()
    };
}

/// Opens record `whose` if a call is posted there, and inserts an item for it into the row: a call that goes first behind
/// the first `going_first` items, which go first too, any other call at the end. Returns the call.
// Out of line, so that a pass over idle records only looks at them.
#[inline(never)]
fn open_posted<O: Batching>(
    board: &Board<O>,
    session: &mut Ticket<O>,
    row: &mut Vec<Item<O::Call, O::Reply>>,
    going_first: &mut usize,
    whose: u16,
) -> Option<O::Call>
    requires ours { IsOf board.now session.old × (session.old.has_object ≡ true) }
    requires whose { IsNumber board.now whose }
    requires row { AreOpened board.now.sessions session.old.opened row.old.items }
    requires room { (board.now.sessions ≤ vec_capacity row.old) × (going_first.old ≤ vec_len row.old) }
    requires visited { HasVisitedOpened session.old }
    ensures session { IsSameSession session.old session.new × (session.new.front ≡ session.old.front) × (session.new.route ≡ session.old.route) }
    ensures row { AreOpened board.now.sessions session.new.opened row.new.items }
    ensures room { (board.now.sessions ≤ vec_capacity row.new) × (going_first.new ≤ vec_len row.new) }
    ensures inserted { IfSome result (λ call. HasInserted whose call row.old.items row.new.items) }
    ensures none { IfNone result (row.new ≡ row.old) }
    ensures grows { vec_len row.new ≤ vec_len row.old + 1 }
    ensures calls { KeepsCalls session.old session.new }
    ensures visited { HasVisitedOpened session.new }
    ensures met { IsVisited whose session.new }
{
    let Some(call) = board.open(session, whose) else {
        return None;
    };
    let gives = O::goes_first(&call);
    let place = if gives { *going_first } else { row.len() };
    insert_item(row, place, whose, call);
    if gives {
        *going_first += 1;
    }
    Some(call)
}

/// Looks at record `whose`, and opens it as `open_posted` does if a call is posted there. Returns the call.
#[inline(always)]
pub(crate) fn open_record<O: Batching>(
    board: &Board<O>,
    session: &mut Ticket<O>,
    row: &mut Vec<Item<O::Call, O::Reply>>,
    going_first: &mut usize,
    whose: u16,
) -> Option<O::Call>
    requires ours { IsOf board.now session.old × (session.old.has_object ≡ true) }
    requires whose { IsNumber board.now whose }
    requires row { AreOpened board.now.sessions session.old.opened row.old.items }
    requires room { (board.now.sessions ≤ vec_capacity row.old) × (going_first.old ≤ vec_len row.old) }
    requires visited { HasVisitedOpened session.old }
    ensures session { IsSameSession session.old session.new × (session.new.front ≡ session.old.front) × (session.new.route ≡ session.old.route) }
    ensures row { AreOpened board.now.sessions session.new.opened row.new.items }
    ensures room { (board.now.sessions ≤ vec_capacity row.new) × (going_first.new ≤ vec_len row.new) }
    ensures inserted { IfSome result (λ call. HasInserted whose call row.old.items row.new.items) }
    ensures none { IfNone result (row.new ≡ row.old) }
    ensures grows { vec_len row.new ≤ vec_len row.old + 1 }
    ensures calls { KeepsCalls session.old session.new }
    ensures visited { HasVisitedOpened session.new }
    ensures met { IsVisited whose session.new }
{
    if !board.is_posted(session, whose) {
        return None;
    }
    open_posted(board, session, row, going_first, whose)
}

/// Answers the first `served` calls of the row, in order, each with the reply in its item.
fn answer_row<O: Batching>(
    board: &Board<O>,
    session: &mut Ticket<O>,
    object: &O,
    row: &[Item<O::Call, O::Reply>],
    served: usize,
)
    requires ours { IsOf board.now session.old × (session.old.has_object ≡ true) }
    requires served { served ≤ length row.now }
    requires object { IsObjectInHand O.Sequential board.now.sessions object.now session.old (take served row.now) }
    requires row { AreOpened board.now.sessions session.old.opened row.now }
    ensures session { HasAnswered session.old session.new served }
    ensures object { IsObjectInHand O.Sequential board.now.sessions object.now session.new [] }
    ensures row { AreOpened board.now.sessions session.new.opened (drop served row.now) }
    ensures longer { IsPrefix session.old.front session.new.front }
    ensures legal { O.is_legal session.new.front }
    ensures whose { sessions_since (length session.old.front) session.new.front ≡ sessions_of (take served row.now) }
    ensures calls { KeepsCalls session.old session.new }
{
    // the history is legal, and its length fits into 64 bits, so there is room for these entries
    let _served = object.served();
    for item in &row[..served] {
        let Some(reply) = item.reply else {
            unreachable!()
        };
        board.answer(session, item.session, reply);
    }
}

/// Performs the calls of the row as one batch, until memory is refused for one, and then answers those that were
/// performed, in order. Returns how many there were. In between, the object is ahead of the history.
fn serve_row<O: Batching>(
    board: &Board<O>,
    session: &mut Ticket<O>,
    object: &mut O,
    row: &mut Vec<Item<O::Call, O::Reply>>,
) -> usize
    requires ours { IsOf board.now session.old × (session.old.has_object ≡ true) }
    requires object { IsObjectInHand O.Sequential board.now.sessions object.old session.old [] }
    requires row { AreOpened board.now.sessions session.old.opened row.old.items }
    ensures session { HasAnswered session.old session.new result }
    ensures object { IsObjectInHand O.Sequential board.now.sessions object.new session.new [] }
    ensures row { AreOpened board.now.sessions session.new.opened (drop result row.new.items) }
    ensures kept { ((O.cut object.new) ≡ (O.cut object.old)) × ((O.bound object.new) ≡ (O.bound object.old)) }
    ensures within { All (IsItemWithin board.now.sessions) row.new.items }
    ensures room { (vec_len row.new ≡ vec_len row.old) × (vec_capacity row.new ≡ vec_capacity row.old) }
    ensures longer { IsPrefix session.old.front session.new.front }
    ensures asked { asked_in (drop (length session.old.front) session.new.front) ≡ asked_by (take result row.old.items) }
    ensures legal { O.is_legal session.new.front }
    ensures served { result ≤ vec_len row.new }
    ensures whose { sessions_since (length session.old.front) session.new.front ≡ sessions_of (take result row.new.items) }
    ensures calls { KeepsCalls session.old session.new }
    ensures tells { 0 < result → O.tells_from object.new (length session.old.front) }
{
    let served = object.serve_batch(row.as_mut_slice());
    answer_row(board, session, object, row.as_slice(), served);
    served
}

/// Puts the calls of these items, which were not performed, back into their records.
fn put_back_row<O: Batching>(
    board: &Board<O>,
    session: &mut Ticket<O>,
    row: &[Item<O::Call, O::Reply>],
)
    requires ours { IsOf board.now session.old × (session.old.has_object ≡ true) }
    requires row { AreOpened board.now.sessions session.old.opened row.now }
    ensures session { session.new ≡ record session.old { opened = session.new.opened; put_backs = session.old.put_backs + length row.now } }
    ensures wide { length session.new.opened ≡ length session.old.opened }
    ensures none { OpensNone session.new }
{
    for item in row {
        board.put_back(session, item.session, item.call);
    }
}

/// Performs the calls of the row, answers those that were performed, and posts the others again. Notes the round as the
/// age of each session that it served.
#[inline(never)]
fn close_round<O: Batching>(board: &Board<O>, session: &mut Ticket<O>, load: &mut Load<O>) -> Served
    requires row { HasRow O.Sequential board.now session.old load.old }
    ensures served { HasServedRow O.Sequential O.tells_from board.now.sessions session.old session.new load.old load.new result.served result.starved }
{
    let served = serve_row(board, session, &mut load.object, &mut load.row);
    put_back_row(board, session, &load.row[served..]);
    let starved = served < load.row.len();
    note_served(&mut load.ages, &load.row[..served], load.passes);
    Served {
        served: served as u32,
        starved,
    }
}

/// Like `close_round`, but does nothing if the row is empty; what the object tells then still describes an earlier pass.
#[inline(always)]
pub(crate) fn close_round_if_any<O: Batching>(
    board: &Board<O>,
    session: &mut Ticket<O>,
    load: &mut Load<O>,
) -> Served
    requires row { HasRow O.Sequential board.now session.old load.old }
    ensures served { HasServedRow O.Sequential O.tells_from board.now.sessions session.old session.new load.old load.new result.served result.starved }
{
    if load.row.is_empty() {
        return Served {
            served: 0,
            starved: false,
        };
    }
    close_round(board, session, load)
}

/// One more, if the test holds. It stops at the greatest u64.
#[inline(always)]
pub(crate) fn one_more_if(test: bool, count: u64) -> u64
    ensures { result ≡ (if test then min (count + 1) (2 ^ 64 - 1) else count) }
{
    if test { count.saturating_add(1) } else { count }
}
