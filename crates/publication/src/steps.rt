//! The moves of a seat on the board: each takes one atomic step or a few, and its contract says what the seat knows
//! and carries before and after.
ghost use Rattle.std.specs.Prelude.{◌≡◌, ◌≢◌, ◌+◌, ◌^◌, ◌<◌, ◌∷◌, ◌++◌, [], true, false, Some, None, IfSome, IfNone, length, is_some};
ghost use mathlib.Core.List.{IsPrefix};
ghost use Rattle.atomic_table.specs.Table.{rest};
ghost use Rattle.sequential.specs.Histories.{calls_of};
ghost use Rattle.publication.specs.Views.{IsAccountedIn, entry};
ghost use Rattle.publication.specs.Pieces.{HasAdded};
ghost use Rattle.publication.specs.Rule.{IsHome};
ghost use Rattle.publication.specs.List.{bound_of};
ghost use Rattle.publication.specs.StepKinds.{IsUnanswered, HasOthers, HasEntered, opened_in, call_at, posting, HasTaken, Seized, seizing, releasing, opening, Opened, in_hand, answering, putting_back, entering, copy_of, joined, hearing, comparing, Learned, retiring, gathered};
ghost use Rattle.publication.specs.inner.Tickets.{IsBoard, IsAt, IsCombiner};

use crate::slot::{Load, SlotValue};
use crate::step_kinds::{
    AnswerCall, BoardKey, BoardRule, Compare, DirectEntry, Enter, Gather, JoinCopy, Keeping, Lay,
    Learn, Leave, LookAtLock, LookAtRecord, LookForReply, Open, Pick, Post, PutBack, Release,
    Retire, Seize, SplitCopy, SplitFront, Take,
};
use crate::view::View;
use crate::words::{BUSY, CLOSED, EMPTY, FREE, OUT, POSTED, SERVED, WORDS_APART};
use sequential::Sequential;

/// The seat of a session, or of the first or the closing one: a handle with a ghost view, and the slots that it has
/// taken.
pub type Seat<O: Sequential> = atomic_table::Seat<SlotValue<O>, View<O::Call, O::Reply>>;

/// The part of the table that all seats share.
pub type Words<O: Sequential> = atomic_table::Shared<
    SlotValue<O>,
    View<O::Call, O::Reply>,
    BoardKey<O>,
    BoardRule<O>,
>;

/// Publishes a session's call in its own record, with one swap of the state word. Returns whether the record was on
/// the publication list, so that the call is listed at once.
pub(crate) fn publish_in_record<O: Sequential>(
    shared: &Words<O>,
    seat: &mut Seat<O>,
    at: usize,
    call: O::Call,
) -> bool
    requires ours { seat.old.table_id ≡ shared.now.table_id }
    requires board { IsBoard shared.now.table_id }
    requires at { IsAt shared.now.table_id at }
    requires mine { seat.old.me.0.number ≡ at }
    requires idle { (is_some seat.old.me.0.own.pending ≡ false) × (seat.old.me.0.own.retired ≡ false) }
    requires carried { seat.old.me.1 ≡ (at, SlotValue.Empty) ∷ rest seat.old.me.1 }
    ensures ours { seat.new.table_id ≡ seat.old.table_id }
    ensures step { seat.new.me ≡ (posting seat.old.me.0 seat.new.me.0.own.log call result, rest seat.old.me.1) }
{
    let SlotValue::Empty = shared.exchange(seat, at, SlotValue::PostedCall(call)) else {
        unreachable!()
    };
    shared.swap::<Post>(seat, at * WORDS_APART, POSTED) == EMPTY
}

/// Whether the session's own record is SERVED. It is a plain load, so waiting for a reply writes nothing.
fn is_served<O: Sequential>(shared: &Words<O>, seat: &mut Seat<O>, at: usize) -> bool
    requires ours { seat.old.table_id ≡ shared.now.table_id }
    requires board { IsBoard shared.now.table_id }
    requires at { IsAt shared.now.table_id at }
    requires mine { seat.old.me.0.number ≡ at }
    ensures ours { seat.new.table_id ≡ seat.old.table_id }
    ensures same { seat.new.me ≡ seat.old.me }
    ensures unanswered { result ≡ false → IsUnanswered seat.old.me.0 }
{
    shared.load::<LookForReply>(seat, at * WORDS_APART) == SERVED
}

/// Takes the reply out of the session's own record; `None` if the record isn't SERVED. The record is then EMPTY if
/// the call was listed, else OUT.
pub(crate) fn collect_reply<O: Sequential>(
    shared: &Words<O>,
    seat: &mut Seat<O>,
    at: usize,
    is_listed: bool,
) -> Option<(u64, O::Reply)>
    requires ours { seat.old.table_id ≡ shared.now.table_id }
    requires board { IsBoard shared.now.table_id }
    requires at { IsAt shared.now.table_id at }
    requires mine { seat.old.me.0.number ≡ at }
    requires listed { seat.old.me.0.own.listed ≡ is_listed }
    ensures ours { seat.new.table_id ≡ seat.old.table_id }
    ensures some { IfSome result (λ r. HasTaken O.Sequential seat.old.me seat.new.me SlotValue.Empty r.0 r.1) }
    ensures none { IfNone result ((seat.new.me ≡ seat.old.me) × IsUnanswered seat.old.me.0) }
{
    if !is_served(shared, seat, at) {
        return None;
    }
    let left = if is_listed { EMPTY } else { OUT };
    let found = shared.compare_exchange::<Take>(seat, at * WORDS_APART, SERVED, left);
    if found != SERVED {
        return None;
    }
    let SlotValue::ServedReply(place, reply) = shared.exchange(seat, at, SlotValue::Empty) else {
        unreachable!()
    };
    Some((place, reply))
}

/// Whether the lock word is FREE. It is a plain load.
fn is_free<O: Sequential>(shared: &Words<O>, seat: &mut Seat<O>) -> bool
    requires ours { seat.old.table_id ≡ shared.now.table_id }
    requires board { IsBoard shared.now.table_id }
    requires mine { seat.old.me.0.number ≢ 0 }
    ensures ours { seat.new.table_id ≡ seat.old.table_id }
    ensures same { seat.new.me ≡ seat.old.me }
    ensures others { result ≡ false → HasOthers shared.now.table_id.slots seat.old.me.0 }
{
    shared.load::<LookAtLock>(seat, 0) == FREE
}

/// Tries once to become the combiner, and takes the load. Writes the lock word only after a load found it FREE.
pub(crate) fn seize_load<O: Sequential, K: Keeping>(
    shared: &Words<O>,
    seat: &mut Seat<O>,
    number: u64,
) -> Option<Box<Load<O>>>
    requires named { K.bound ≡ bound_of O.bound shared.now.key.object.items }
    requires ours { seat.old.table_id ≡ shared.now.table_id }
    requires board { IsBoard shared.now.table_id }
    requires mine { (seat.old.me.0.number ≡ number) × (0 < number) }
    ensures ours { seat.new.table_id ≡ seat.old.table_id }
    ensures some { IfSome result (λ load. (seat.new.me ≡ (seizing seat.old.me.0 (O.history load.value.object) load.value.pieces.items, (0, SlotValue.Empty) ∷ seat.old.me.1))
        × Seized O.Sequential seat.old.me.0 shared.now.table_id.slots load.value) }
    ensures bound { IfSome result (λ load. O.bound load.value.object ≡ bound_of O.bound shared.now.key.object.items) }
    ensures none { IfNone result ((seat.new.me ≡ seat.old.me) × HasOthers shared.now.table_id.slots seat.old.me.0) }
{
    if !is_free(shared, seat) {
        return None;
    }
    let found = shared.compare_exchange::<Seize<K>>(seat, 0, FREE, number);
    if found != FREE {
        return None;
    }
    let SlotValue::ObjectLoad(load) = shared.exchange(seat, 0, SlotValue::Empty) else {
        unreachable!()
    };
    Some(load)
}

/// Gives the load back and frees the lock word. Needs a combiner with no record opened.
pub(crate) fn release_load<O: Sequential>(shared: &Words<O>, seat: &mut Seat<O>, load: Box<Load<O>>)
    requires ours { seat.old.table_id ≡ shared.now.table_id }
    requires board { IsBoard shared.now.table_id }
    requires mine { (seat.old.me.0.number ≢ 0) × (seat.old.me.0.combiner.has_object ≡ true) }
    requires none { (j : _) → opened_in seat.old.me.0 j ≡ None }
    requires home { IsHome O.Sequential seat.old.me.0.front shared.now.table_id.slots load.value }
    requires bound { O.bound load.value.object ≡ bound_of O.bound shared.now.key.object.items }
    requires took { HasAdded seat.old.me.0.number seat.old.me.0.pieces.all load.value.pieces.items }
    requires whole { seat.old.me.0.listing.off ≡ 0 }
    requires carried { seat.old.me.1 ≡ (0, SlotValue.Empty) ∷ rest seat.old.me.1 }
    ensures ours { seat.new.table_id ≡ seat.old.table_id }
    ensures step { seat.new.me ≡ (releasing seat.old.me.0 load.value.pieces.items, rest seat.old.me.1) }
{
    let SlotValue::Empty = shared.exchange(seat, 0, SlotValue::ObjectLoad(load)) else {
        unreachable!()
    };
    shared.store::<Release>(seat, 0, FREE);
}

/// Whether a call is posted in the record. It is a plain load, so a pass over idle records writes none of them.
#[tactic(auto, using(crate::proofs::RecordKinds::session_of_its_word))]
pub(crate) fn is_posted<O: Sequential>(shared: &Words<O>, seat: &mut Seat<O>, at: usize) -> bool
    requires ours { seat.old.table_id ≡ shared.now.table_id }
    requires board { IsBoard shared.now.table_id }
    requires at { IsAt shared.now.table_id at }
    requires mine { IsCombiner seat.old.me.0 }
    ensures ours { seat.new.table_id ≡ seat.old.table_id }
    ensures same { seat.new.me ≡ seat.old.me }
    ensures entered { result ≡ false → HasEntered seat.old.me.0 at }
{
    shared.load::<LookAtRecord>(seat, at * WORDS_APART) == POSTED
}

/// Opens a record: takes the call that is posted there; `None` if there is none. The slot goes home at once, since a
/// seat reaches only the slot that it took last.
#[tactic(auto, using(crate::proofs::RecordKinds::session_of_its_word))]
pub(crate) fn open_record<O: Sequential>(
    shared: &Words<O>,
    seat: &mut Seat<O>,
    at: usize,
) -> Option<O::Call>
    requires ours { seat.old.table_id ≡ shared.now.table_id }
    requires board { IsBoard shared.now.table_id }
    requires at { IsAt shared.now.table_id at }
    requires mine { IsCombiner seat.old.me.0 }
    ensures ours { seat.new.table_id ≡ seat.old.table_id }
    ensures some { IfSome result (λ call. (seat.new.me ≡ (in_hand (opening seat.old.me.0 at call) 0, seat.old.me.1)) × Opened seat.old.me.0 at call) }
    ensures none { IfNone result ((seat.new.me ≡ seat.old.me) × HasEntered seat.old.me.0 at) }
{
    if !is_posted(shared, seat, at) {
        return None;
    }
    let found = shared.compare_exchange::<Open>(seat, at * WORDS_APART, POSTED, BUSY);
    if found != POSTED {
        return None;
    }
    let SlotValue::PostedCall(call) = shared.exchange(seat, at, SlotValue::Empty) else {
        unreachable!()
    };
    shared.load::<Lay>(seat, at * WORDS_APART);
    Some(call)
}

/// Answers a call that the combiner opened: the reply goes into the record, and the call's entry joins the history.
pub(crate) fn answer_record<O: Sequential>(
    shared: &Words<O>,
    seat: &mut Seat<O>,
    at: usize,
    place: u64,
    reply: O::Reply,
)
    requires ours { seat.old.table_id ≡ shared.now.table_id }
    requires board { IsBoard shared.now.table_id }
    requires at { IsAt shared.now.table_id at }
    requires mine { IsCombiner seat.old.me.0 }
    requires place { (place ≡ length seat.old.me.0.front) × (place + 1 < 2 ^ 64) }
    requires opened { opened_in seat.old.me.0 at ≡ Some (call_at O.Sequential seat.old.me.0 at) }
    requires legal { O.is_legal (seat.old.me.0.front ++ entry at (call_at O.Sequential seat.old.me.0 at) reply ∷ []) }
    ensures ours { seat.new.table_id ≡ seat.old.table_id }
    ensures step { seat.new.me ≡ (answering seat.old.me.0 at (call_at O.Sequential seat.old.me.0 at) reply, seat.old.me.1) }
    ensures accounted { IsAccountedIn seat.new.me.0.front seat.new.me.0.number seat.new.me.0.own.collected seat.new.me.0.own.pending }
{
    shared.load::<Pick>(seat, at * WORDS_APART);
    let SlotValue::Empty = shared.exchange(seat, at, SlotValue::ServedReply(place, reply)) else {
        unreachable!()
    };
    shared.store::<AnswerCall>(seat, at * WORDS_APART, SERVED);
}

/// Posts a call again that the combiner opened and hasn't performed.
pub(crate) fn put_back_record<O: Sequential>(
    shared: &Words<O>,
    seat: &mut Seat<O>,
    at: usize,
    call: O::Call,
)
    requires ours { seat.old.table_id ≡ shared.now.table_id }
    requires board { IsBoard shared.now.table_id }
    requires at { IsAt shared.now.table_id at }
    requires mine { IsCombiner seat.old.me.0 }
    requires opened { opened_in seat.old.me.0 at ≡ Some call }
    ensures ours { seat.new.table_id ≡ seat.old.table_id }
    ensures step { seat.new.me ≡ (putting_back seat.old.me.0 at, seat.old.me.1) }
{
    shared.load::<Pick>(seat, at * WORDS_APART);
    let SlotValue::Empty = shared.exchange(seat, at, SlotValue::PostedCall(call)) else {
        unreachable!()
    };
    shared.store::<PutBack>(seat, at * WORDS_APART, POSTED);
}

/// Enters a call of the combiner's own into the history, at a look at the lock word. No word is written. Needs a combiner
/// with no call pending, and the reply that the object gives.
pub(crate) fn enter_call<O: Sequential, E: DirectEntry<O::Call, O::Reply>>(
    shared: &Words<O>,
    seat: &mut Seat<O>,
    _call: O::Call,
    _reply: O::Reply,
)
    requires named { (E.call ≡ Some _call) × (E.reply ≡ Some _reply) }
    requires ours { seat.old.table_id ≡ shared.now.table_id }
    requires board { IsBoard shared.now.table_id }
    requires mine { IsCombiner seat.old.me.0 }
    requires idle { (is_some seat.old.me.0.own.pending ≡ false) × (seat.old.me.0.own.retired ≡ false) }
    requires short { length seat.old.me.0.front + 1 < 2 ^ 64 }
    requires legal { O.is_legal (seat.old.me.0.front ++ entry seat.old.me.0.number _call _reply ∷ []) }
    ensures ours { seat.new.table_id ≡ seat.old.table_id }
    ensures step { seat.new.me ≡ (entering seat.old.me.0 seat.new.me.0.own.log _call _reply, seat.old.me.1) }
    ensures calls { calls_of seat.old.me.0.number seat.new.me.0.front ≡ seat.new.me.0.own.collected }
{
    shared.load::<Enter<E>>(seat, 0);
}

/// Splits off a new seat that knows what this one knows of the history and of published calls.
pub(crate) fn split_copy<O: Sequential>(shared: &Words<O>, seat: &mut Seat<O>) -> Seat<O>
    requires ours { seat.old.table_id ≡ shared.now.table_id }
    requires board { IsBoard shared.now.table_id }
    requires made { seat.old.me.0.others.all_made ≡ true }
    ensures ours { (seat.new.table_id ≡ seat.old.table_id) × (seat.new.id ≡ seat.old.id) }
    ensures same { seat.new.me ≡ seat.old.me }
    ensures copy { (result.table_id ≡ seat.old.table_id) × (result.me ≡ (copy_of seat.old.me.0, [])) }
{
    shared.split_seat::<SplitCopy>(seat)
}

/// Lets a session learn what a copy of another seat knows. The copy is joined into the session's seat; a load afterwards
/// shows that both fronts begin the history, so the longer one is a front of it.
pub(crate) fn heed_seat<O: Sequential>(shared: &Words<O>, seat: &mut Seat<O>, copy: Seat<O>)
    requires ours { (seat.old.table_id ≡ shared.now.table_id) × (copy.table_id ≡ shared.now.table_id) }
    requires board { IsBoard shared.now.table_id }
    requires session { 0 < seat.old.me.0.number }
    requires copy { copy.me ≡ (copy_of copy.me.0, []) }
    ensures ours { seat.new.table_id ≡ seat.old.table_id }
    ensures step { seat.new.me ≡ (hearing seat.old.me.0 copy.me.0, seat.old.me.1) }
    ensures learned { Learned O.Sequential (joined seat.old.me.0 (copy_of copy.me.0)) }
{
    shared.join_seat::<JoinCopy>(seat, copy);
    shared.load::<Learn>(seat, 0);
}

/// Lets a session learn what another seat knows: a copy is split off that seat, and heeded.
pub(crate) fn hear_seat<O: Sequential>(shared: &Words<O>, seat: &mut Seat<O>, other: &mut Seat<O>)
    requires ours { (seat.old.table_id ≡ shared.now.table_id) × (other.old.table_id ≡ shared.now.table_id) }
    requires board { IsBoard shared.now.table_id }
    requires session { 0 < seat.old.me.0.number }
    requires made { other.old.me.0.others.all_made ≡ true }
    ensures ours { seat.new.table_id ≡ seat.old.table_id }
    ensures theirs { (other.new.table_id ≡ other.old.table_id) × (other.new.id ≡ other.old.id) }
    ensures other { other.new.me ≡ other.old.me }
    ensures step { seat.new.me ≡ (hearing seat.old.me.0 other.old.me.0, seat.old.me.1) }
    ensures learned { Learned O.Sequential (joined seat.old.me.0 (copy_of other.old.me.0)) }
{
    let copy = split_copy(shared, other);
    heed_seat(shared, seat, copy);
}

/// Shows a session that the longer front which another seat knows has the calls that the session collected, or those and
/// its pending call. A copy of that front is joined into the session's seat, which learns nothing else; a load afterwards
/// shows it.
pub(crate) fn compare_fronts<O: Sequential>(
    shared: &Words<O>,
    seat: &mut Seat<O>,
    other: &mut Seat<O>,
)
    requires ours { (seat.old.table_id ≡ shared.now.table_id) × (other.old.table_id ≡ shared.now.table_id) }
    requires board { IsBoard shared.now.table_id }
    requires session { 0 < seat.old.me.0.number }
    requires made { other.old.me.0.others.all_made ≡ true }
    requires longer { IsPrefix seat.old.me.0.front other.old.me.0.front }
    requires accounted { IsAccountedIn seat.old.me.0.front seat.old.me.0.number seat.old.me.0.own.collected seat.old.me.0.own.pending }
    ensures ours { seat.new.table_id ≡ seat.old.table_id }
    ensures theirs { (other.new.table_id ≡ other.old.table_id) × (other.new.id ≡ other.old.id) }
    ensures other { other.new.me ≡ other.old.me }
    ensures step { seat.new.me ≡ (comparing seat.old.me.0 other.old.me.0, seat.old.me.1) }
    ensures accounted { IsAccountedIn other.old.me.0.front seat.old.me.0.number seat.old.me.0.own.collected seat.old.me.0.own.pending }
{
    let copy = shared.split_seat::<SplitFront>(other);
    shared.join_seat::<JoinCopy>(seat, copy);
    shared.load::<Compare>(seat, 0);
}

/// Closes the session's own record: it publishes no more calls.
pub(crate) fn retire_record<O: Sequential>(shared: &Words<O>, seat: &mut Seat<O>, at: usize)
    requires ours { seat.old.table_id ≡ shared.now.table_id }
    requires board { IsBoard shared.now.table_id }
    requires at { IsAt shared.now.table_id at }
    requires mine { (seat.old.me.0.number ≡ at) × (seat.old.me.0.own.started ≡ true) }
    requires idle { (is_some seat.old.me.0.own.pending ≡ false) × (seat.old.me.0.own.retired ≡ false) }
    ensures ours { seat.new.table_id ≡ seat.old.table_id }
    ensures step { seat.new.me ≡ (retiring seat.old.me.0, seat.old.me.1) }
{
    shared.store::<Retire>(seat, at * WORDS_APART, CLOSED);
}

/// Joins the seat of a session into the closing one. The session lays its record's slot down first, because a seat
/// that is joined may carry no slot. Needs a session with no call pending that isn't the combiner.
pub(crate) fn gather_seat<O: Sequential>(
    shared: &Words<O>,
    seat: &mut Seat<O>,
    other: Seat<O>,
    at: usize,
)
    requires ours { (seat.old.table_id ≡ shared.now.table_id) × (other.table_id ≡ shared.now.table_id) }
    requires board { IsBoard shared.now.table_id }
    requires at { IsAt shared.now.table_id at }
    requires closing { seat.old.me.0.number ≡ 0 }
    requires theirs { other.me.0.number ≡ at }
    requires settled { (is_some other.me.0.own.pending ≡ false) × (other.me.0.combiner.has_object ≡ false) }
    requires carried { other.me.1 ≡ (at, SlotValue.Empty) ∷ [] }
    ensures ours { seat.new.table_id ≡ seat.old.table_id }
    ensures step { seat.new.me ≡ (gathered seat.old.me.0 other.me.0, seat.old.me.1) }
{
    let mut left = other;
    shared.load::<Leave>(&mut left, at * WORDS_APART);
    shared.join_seat::<Gather>(seat, left);
}
