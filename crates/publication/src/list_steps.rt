//! The steps on the publication list: a record is put on it, the combiner walks it, and takes records off.

ghost use Rattle.std.specs.Prelude.{◌≡◌, ◌≢◌, ◌+◌, ◌<◌, true, false, Some, None, IfSome, IfNone};
ghost use Rattle.publication.specs.List.{IsOn, AreApart, first_of, behind};
ghost use Rattle.publication.specs.StepKinds.{HasAnother, enlisting, losing_head, routing, bypassing, none_unlinked, relinking, IsRoute, MeetsAll};
ghost use Rattle.publication.specs.inner.Tickets.{IsBoard, IsAt, IsCombiner};

use crate::step_kinds::{Enlist, Link, LookAtHead, MarkOut, Relink, Unlink, Walk, WalkOn};
use crate::steps::{Seat, Words};
use crate::words::{CLOSED, EMPTY, END, HEAD, OUT, WORDS_APART};
use sequential::Sequential;

/// Reads the head word, for a session whose record isn't on the publication list.
fn look_at_head<O: Sequential>(shared: &Words<O>, seat: &mut Seat<O>, at: usize) -> u64
    requires ours { seat.old.table_id ≡ shared.now.table_id }
    requires board { IsBoard shared.now.table_id }
    requires at { IsAt shared.now.table_id at }
    requires mine { seat.old.me.0.number ≡ at }
    requires unlisted { (seat.old.me.0.own.pending ≢ None) × (seat.old.me.0.own.listed ≡ false) }
    ensures ours { seat.new.table_id ≡ seat.old.table_id }
    ensures same { seat.new.me ≡ seat.old.me }
    ensures another { HasAnother shared.now.table_id.slots result }
{
    shared.load::<LookAtHead>(seat, HEAD)
}

/// Tries once to put the session's record at the head of the publication list: links it to the head as seen, and
/// exchanges the head word. Returns whether the exchange was won. Needs a pending call that isn't listed.
pub(crate) fn enlist_record<O: Sequential>(shared: &Words<O>, seat: &mut Seat<O>, at: usize) -> bool
    requires ours { seat.old.table_id ≡ shared.now.table_id }
    requires board { IsBoard shared.now.table_id }
    requires at { IsAt shared.now.table_id at }
    requires mine { seat.old.me.0.number ≡ at }
    requires unlisted { (seat.old.me.0.own.pending ≢ None) × (seat.old.me.0.own.listed ≡ false) }
    ensures ours { seat.new.table_id ≡ seat.old.table_id }
    ensures won { result ≡ true → seat.new.me ≡ (enlisting seat.old.me.0, seat.old.me.1) }
    ensures lost { result ≡ false → (seat.new.me ≡ (losing_head seat.old.me.0, seat.old.me.1)) × (2 < shared.now.table_id.slots) }
{
    let head = look_at_head(shared, seat, at);
    shared.store::<Link>(seat, at * WORDS_APART + HEAD, head);
    shared.compare_exchange::<Enlist>(seat, HEAD, head, at as u64) == head
}

/// The record that a head word or link word names; `None` for END.
fn record_named(found: u64) -> Option<u16>
    requires { found < 65536 }
    ensures none { IfNone result (found ≡ 65535) }
    ensures some { IfSome result (λ q. (q ≡ found) × (found ≢ 65535)) }
{
    if found == END {
        return None;
    }
    Some(found as u16)
}

/// Begins the combiner's walk: reads the head word, after which the whole list is known. Returns the list's first
/// record.
pub(crate) fn walk_from_head<O: Sequential>(shared: &Words<O>, seat: &mut Seat<O>) -> Option<u16>
    requires ours { seat.old.table_id ≡ shared.now.table_id }
    requires board { IsBoard shared.now.table_id }
    requires mine { IsCombiner seat.old.me.0 }
    requires whole { seat.old.me.0.listing.off ≡ 0 }
    ensures ours { seat.new.table_id ≡ seat.old.table_id }
    ensures step { seat.new.me ≡ (routing seat.old.me.0 seat.new.me.0.listing.route, seat.old.me.1) }
    ensures first { result ≡ first_of seat.new.me.0.listing.route }
    ensures route { IsRoute shared.now.table_id.slots seat.new.me.0.listing.route }
    ensures all { MeetsAll shared.now.table_id.slots seat.old.me.0 seat.new.me.0.listing.route }
{
    let found = shared.load::<Walk>(seat, HEAD);
    record_named(found)
}

/// Reads the link of a record that the combiner's walk has met. Returns the next record.
pub(crate) fn walk_on<O: Sequential>(
    shared: &Words<O>,
    seat: &mut Seat<O>,
    at: usize,
) -> Option<u16>
    requires ours { seat.old.table_id ≡ shared.now.table_id }
    requires board { IsBoard shared.now.table_id }
    requires mine { IsCombiner seat.old.me.0 }
    requires on { IsOn at seat.old.me.0.listing.route }
    requires at { IsAt shared.now.table_id at }
    ensures ours { seat.new.table_id ≡ seat.old.table_id }
    ensures same { seat.new.me ≡ seat.old.me }
    ensures next { result ≡ first_of (behind at seat.old.me.0.listing.route) }
    ensures route { IsRoute shared.now.table_id.slots seat.old.me.0.listing.route }
{
    let found = shared.load::<WalkOn>(seat, at * WORDS_APART + HEAD);
    record_named(found)
}

/// Links the record `before` past `whose`, the record behind it, whose link is read first.
fn bypass_record<O: Sequential>(shared: &Words<O>, seat: &mut Seat<O>, before: usize, whose: usize)
    requires ours { seat.old.table_id ≡ shared.now.table_id }
    requires board { IsBoard shared.now.table_id }
    requires mine { IsCombiner seat.old.me.0 × (seat.old.me.0.listing.off ≡ 0) }
    requires before { IsAt shared.now.table_id before × IsOn before seat.old.me.0.listing.route }
    requires whose { IsAt shared.now.table_id whose × (first_of (behind before seat.old.me.0.listing.route) ≡ Some whose) }
    ensures ours { seat.new.table_id ≡ seat.old.table_id }
    ensures step { seat.new.me ≡ (bypassing seat.old.me.0 before, seat.old.me.1) }
    ensures apart { AreApart seat.old.me.0.listing.route }
{
    let next = shared.load::<WalkOn>(seat, whose * WORDS_APART + HEAD);
    shared.store::<Unlink>(seat, before * WORDS_APART + HEAD, next);
}

/// Tries to mark the unlinked record OUT. Returns whether it is off the list for good: it was EMPTY, or it is CLOSED
/// and stays so.
fn mark_out<O: Sequential>(shared: &Words<O>, seat: &mut Seat<O>, whose: usize) -> bool
    requires ours { seat.old.table_id ≡ shared.now.table_id }
    requires board { IsBoard shared.now.table_id }
    requires mine { IsCombiner seat.old.me.0 × (seat.old.me.0.listing.off ≡ whose) }
    requires whose { IsAt shared.now.table_id whose }
    ensures ours { seat.new.table_id ≡ seat.old.table_id }
    ensures out { result ≡ true → seat.new.me ≡ (none_unlinked seat.old.me.0, seat.old.me.1) }
    ensures in_use { result ≡ false → seat.new.me ≡ seat.old.me }
{
    let found = shared.compare_exchange::<MarkOut>(seat, whose * WORDS_APART, EMPTY, OUT);
    found == EMPTY || found == CLOSED
}

/// Links the unlinked record again, where it was.
fn relink_record<O: Sequential>(shared: &Words<O>, seat: &mut Seat<O>, before: usize, whose: usize)
    requires ours { seat.old.table_id ≡ shared.now.table_id }
    requires board { IsBoard shared.now.table_id }
    requires mine { IsCombiner seat.old.me.0 }
    requires off { (seat.old.me.0.listing.off ≡ whose) × (seat.old.me.0.listing.before ≡ before) }
    requires before { IsAt shared.now.table_id before × IsOn before seat.old.me.0.listing.route }
    requires whose { IsAt shared.now.table_id whose }
    ensures ours { seat.new.table_id ≡ seat.old.table_id }
    ensures step { seat.new.me ≡ (relinking seat.old.me.0, seat.old.me.1) }
{
    shared.store::<Relink>(seat, before * WORDS_APART + HEAD, whose as u64);
}

/// Takes the record `whose` off the publication list if it is EMPTY or CLOSED, and returns whether it did. `before`
/// is the record in front of it; the list's first record can't be taken off.
///
/// No post is lost. If the session posts before the exchange, the exchange fails and the record is linked again. If
/// it posts afterwards, it finds the record OUT and enlists it.
pub(crate) fn unlink_record<O: Sequential>(
    shared: &Words<O>,
    seat: &mut Seat<O>,
    before: usize,
    whose: usize,
) -> bool
    requires ours { seat.old.table_id ≡ shared.now.table_id }
    requires board { IsBoard shared.now.table_id }
    requires mine { IsCombiner seat.old.me.0 × (seat.old.me.0.listing.off ≡ 0) }
    requires before { IsAt shared.now.table_id before × IsOn before seat.old.me.0.listing.route }
    requires whose { IsAt shared.now.table_id whose × (first_of (behind before seat.old.me.0.listing.route) ≡ Some whose) }
    ensures ours { seat.new.table_id ≡ seat.old.table_id }
    ensures out { result ≡ true → seat.new.me ≡ (none_unlinked (bypassing seat.old.me.0 before), seat.old.me.1) }
    ensures kept { result ≡ false → seat.new.me ≡ (none_unlinked seat.old.me.0, seat.old.me.1) }
{
    bypass_record(shared, seat, before, whose);
    if mark_out(shared, seat, whose) {
        return true;
    }
    relink_record(shared, seat, before, whose);
    false
}
