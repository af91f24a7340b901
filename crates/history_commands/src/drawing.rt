//! The command `timeline`: a history as a picture.

ghost use Rattle.std.specs.Prelude.{◌≡◌, ◌≢◌, ℕ, ◌+◌, ◌<◌, ◌≤◌, true, false, List, [], Some, length, take, All, IfOk, IfErr, IfSome, IfNone, string_bytes};
ghost use Rattle.std.specs.Io.KnownBytes.{Keeps};
ghost use Rattle.lock_rules.specs.declared.calls.TheConstants.{MAX_SESSIONS};
ghost use Rattle.lock_rules.specs.Legal.{IsLegal};
ghost use Rattle.sequential.specs.Histories.{IsEntryWithin};
ghost use Rattle.lock_trace.specs.Entries.{IsEntry};
ghost use Rattle.history_commands.specs.Drawing.{Draws, HasDrawn, HasDrawnPart, HasRange, IsBefore, IsInOrder, IsMissing, IsTextDrawn};
ghost use Rattle.replay_commands.specs.Verdicts.{IsFirstWrong, IsVerdict};

use crate::dooming::is_doomed;
use crate::explaining::{explain_next, place_missed};
use crate::show_fault::ShowFault;
use crate::showing::{Shown, illegal_text};
use lock_desk::{Book, Entry, NoMemory};
use lock_explain::blockers_ahead;
use lock_trace::read_history;
use replay_commands::{Verdict, first_wrong, fresh_book, write_text};
use std::alloc::Global;
use std::io::{Read, Write};
use timeline_report::{Deed, MOST_PLACES, Timeline, timeline_svg};

/// The places `from` to `upto`, without `upto`, are drawn, of those that were asked for, which end in front of `asked`.
#[derive(Clone, Copy)]
struct Drawn {
    from: usize,
    upto: usize,
    asked: usize,
}

/// Notes the call of the entry, which the book has served last, without an explanation. Fails if memory is refused.
fn note_unexplained(
    alloc: Global,
    book: &Book,
    entry: &Entry,
    timeline: &mut Timeline,
) -> Result<(), NoMemory> {
    for session in book.ended() {
        let deed = if is_doomed(book, *session) {
            Deed::Dooms(*session)
        } else {
            Deed::Grants(*session)
        };
        timeline.note_deed(deed)?;
    }
    timeline.note_unexplained(alloc, entry, book.request(entry.session))
}

/// Serves the entries in front of the first place that is drawn on the book, which has served none, and notes them without explanations, up
/// to the first reply that isn't the book's. Fails if memory is refused.
fn note_front(
    alloc: Global,
    book: &mut Book,
    entries: &[Entry],
    from: usize,
    timeline: &mut Timeline,
) -> Result<Option<u64>, NoMemory>
    requires within { All (IsEntry book.old.sessions) entries.now }
    requires few { from ≤ length entries.now }
    requires empty { book.old.history ≡ [] }
    ensures sessions { IfOk result (λ _. book.new.sessions ≡ book.old.sessions) }
    ensures wrong { IfOk result (λ found. IfSome found (IsFirstWrong entries.now)) }
    ensures legal { IfOk result (λ found. IfNone found (IsLegal (take from entries.now))) }
    ensures served { IfOk result (λ found. IfNone found (book.new.history ≡ take from entries.now)) }
{
    for place in 0..from {
        if let Some(first) = first_wrong(book, entries, place, place + 1)? {
            return Ok(Some(first));
        }
        note_unexplained(alloc, book, &entries[place], timeline)?;
    }
    Ok(None)
}

/// Notes for whom the request of the entry waits, if it is still waiting at the first place that is drawn. The book has served the entries
/// before it. Fails if memory is refused.
fn note_blockers(
    alloc: Global,
    book: &Book,
    entry: &Entry,
    place: usize,
    timeline: &mut Timeline,
) -> Result<(), NoMemory>
    requires within { IsEntryWithin book.now.sessions entry.now }
{
    if timeline.waits_since(entry.session, place as u64) {
        let blockers = blockers_ahead(alloc, book, entry.session, entry.call)?;
        timeline.note_blockers(entry.session, blockers);
    }
    Ok(())
}

/// Serves the entries in front of the first place that is drawn on the book, which has served none, and notes for whom the requests wait
/// that are still waiting there, up to the first reply that isn't the book's. Fails if memory is refused.
fn note_waits(
    alloc: Global,
    book: &mut Book,
    entries: &[Entry],
    from: usize,
    timeline: &mut Timeline,
) -> Result<Option<u64>, NoMemory>
    requires within { All (IsEntry book.old.sessions) entries.now }
    requires few { from ≤ length entries.now }
    requires empty { book.old.history ≡ [] }
    ensures sessions { IfOk result (λ _. book.new.sessions ≡ book.old.sessions) }
    ensures wrong { IfOk result (λ found. IfSome found (IsFirstWrong entries.now)) }
    ensures served { IfOk result (λ found. IfNone found (book.new.history ≡ take from entries.now)) }
{
    for place in 0..from {
        note_blockers(alloc, book, &entries[place], place, timeline)?;
        if let Some(first) = first_wrong(book, entries, place, place + 1)? {
            return Ok(Some(first));
        }
    }
    Ok(None)
}

/// Serves the entry at `place` on both books, which have served those before it, and notes it. Returns whether the recorded reply is the
/// books'; if it isn't, the history is illegal there. Fails if memory is refused.
fn note_next(
    alloc: Global,
    before: &mut Book,
    after: &mut Book,
    entries: &[Entry],
    place: usize,
    timeline: &mut Timeline,
) -> Result<bool, NoMemory>
    requires within { All (IsEntry before.old.sessions) entries.now }
    requires there { place < length entries.now }
    requires sessions { after.old.sessions ≡ before.old.sessions }
    requires behind { before.old.history ≡ take place entries.now }
    requires ahead { after.old.history ≡ take place entries.now }
    requires legal { IsLegal (take place entries.now) }
    ensures wrong { IfOk result (λ alike. alike ≡ false → IsFirstWrong entries.now place) }
    ensures sessions { IfOk result (λ alike. alike ≡ true → before.new.sessions ≡ before.old.sessions) }
    ensures others { IfOk result (λ alike. alike ≡ true → after.new.sessions ≡ before.old.sessions) }
    ensures behind { IfOk result (λ alike. alike ≡ true → before.new.history ≡ take (place + 1) entries.now) }
    ensures ahead { IfOk result (λ alike. alike ≡ true → after.new.history ≡ take (place + 1) entries.now) }
    ensures legal { IfOk result (λ alike. alike ≡ true → IsLegal (take (place + 1) entries.now)) }
{
    let entry = &entries[place];
    let Some(told) = explain_next(alloc, before, after, entry)? else {
        return Ok(false);
    };
    timeline.note(alloc, entry, &told)?;
    before.serve(entry.session, entry.call)?;
    Ok(true)
}

/// Serves the entries that are drawn on both books, which have served those before them, and notes them, up to the first reply that isn't
/// the books'. Fails if memory is refused.
fn note_drawn(
    alloc: Global,
    before: &mut Book,
    after: &mut Book,
    entries: &[Entry],
    drawn: Drawn,
    timeline: &mut Timeline,
) -> Result<Option<u64>, NoMemory>
    requires within { All (IsEntry before.old.sessions) entries.now }
    requires order { drawn.from ≤ drawn.upto }
    requires few { drawn.upto ≤ length entries.now }
    requires sessions { after.old.sessions ≡ before.old.sessions }
    requires behind { before.old.history ≡ take drawn.from entries.now }
    requires ahead { after.old.history ≡ take drawn.from entries.now }
    requires legal { IsLegal (take drawn.from entries.now) }
    ensures sessions { IfOk result (λ found. IfNone found (after.new.sessions ≡ before.old.sessions)) }
    ensures wrong { IfOk result (λ found. IfSome found (IsFirstWrong entries.now)) }
    ensures legal { IfOk result (λ found. IfNone found (IsLegal (take drawn.upto entries.now))) }
    ensures served { IfOk result (λ found. IfNone found (after.new.history ≡ take drawn.upto entries.now)) }
{
    for place in drawn.from..drawn.upto {
        let alike = note_next(alloc, before, after, entries, place, timeline)?;
        if !alike {
            return Ok(Some(place as u64));
        }
    }
    Ok(None)
}

/// The places that are drawn of those that were asked for: the first [`MOST_PLACES`].
fn places_drawn(from: Option<u32>, to: Option<u32>, entries: &[Entry]) -> Drawn
    ensures order { result.from ≤ result.upto }
    ensures few { result.upto ≤ length entries.now }
{
    let count = entries.len();
    let from = match from {
        Some(place) => (place as usize).min(count),
        None => 0,
    };
    let asked = match to {
        Some(place) => (place as usize).saturating_add(1),
        None => count,
    };
    let upto = from
        .saturating_add(MOST_PLACES as usize)
        .min(asked)
        .min(count)
        .max(from);
    Drawn { from, upto, asked }
}

/// Serves all entries on `after`, and those that are drawn and those before them also on `before`, and notes what is drawn, up to the first
/// wrong reply. The books have served no call. Fails if memory is refused.
fn note_all(
    alloc: Global,
    before: &mut Book,
    after: &mut Book,
    entries: &[Entry],
    drawn: Drawn,
    timeline: &mut Timeline,
) -> Result<Option<u64>, NoMemory>
    requires within { All (IsEntry before.old.sessions) entries.now }
    requires order { drawn.from ≤ drawn.upto }
    requires few { drawn.upto ≤ length entries.now }
    requires sessions { after.old.sessions ≡ before.old.sessions }
    requires behind { before.old.history ≡ [] }
    requires ahead { after.old.history ≡ [] }
    ensures wrong { IfOk result (λ found. IfSome found (IsFirstWrong entries.now)) }
    ensures legal { IfOk result (λ found. IfNone found (IsLegal entries.now)) }
{
    if let Some(first) = note_front(alloc, after, entries, drawn.from, timeline)? {
        return Ok(Some(first));
    }
    if let Some(first) = note_waits(alloc, before, entries, drawn.from, timeline)? {
        return Ok(Some(first));
    }
    if let Some(first) = note_drawn(alloc, before, after, entries, drawn, timeline)? {
        return Ok(Some(first));
    }
    first_wrong(after, entries, drawn.upto, entries.len())
}

/// Notes what is drawn of the entries, up to the first wrong reply, as `note_all` does on two new books. Fails if memory is refused.
fn note_history(
    alloc: Global,
    entries: &[Entry],
    sessions: u16,
    drawn: Drawn,
    timeline: &mut Timeline,
) -> Result<Option<u64>, NoMemory>
    requires some { 0 < sessions }
    requires few_sessions { sessions ≤ MAX_SESSIONS }
    requires within { All (IsEntry sessions) entries.now }
    requires order { drawn.from ≤ drawn.upto }
    requires few { drawn.upto ≤ length entries.now }
    ensures wrong { IfOk result (λ found. IfSome found (IsFirstWrong entries.now)) }
    ensures legal { IfOk result (λ found. IfNone found (IsLegal entries.now)) }
{
    let mut before = fresh_book(alloc, sessions)?;
    let mut after = fresh_book(alloc, sessions)?;
    note_all(alloc, &mut before, &mut after, entries, drawn, timeline)
}

/// The picture of the entries, which are legal, and of which all has been noted. Fails if memory is refused.
fn legal_picture(
    alloc: Global,
    entries: &[Entry],
    asked: usize,
    timeline: &mut Timeline,
) -> Result<Shown, NoMemory>
    requires legal { IsLegal entries.now }
    ensures verdict { IfOk result (λ shown. IsVerdict entries.now shown.verdict) }
    ensures text { IfOk result (λ shown. IsTextDrawn shown.verdict (string_bytes shown.text)) }
{
    let count = entries.len() as u64;
    timeline.finish(alloc)?;
    let text = timeline_svg(alloc, timeline, asked as u64, count)?;
    Ok(Shown {
        verdict: Verdict::Legal(count),
        text,
    })
}

/// The picture of the entries if the history is legal, else the line of its verdict. Fails if memory is refused.
fn picture(alloc: Global, entries: &[Entry], sessions: u16, drawn: Drawn) -> Result<Shown, NoMemory>
    requires some { 0 < sessions }
    requires few_sessions { sessions ≤ MAX_SESSIONS }
    requires within { All (IsEntry sessions) entries.now }
    requires order { drawn.from ≤ drawn.upto }
    requires few { drawn.upto ≤ length entries.now }
    ensures verdict { IfOk result (λ shown. IsVerdict entries.now shown.verdict) }
    ensures text { IfOk result (λ shown. IsTextDrawn shown.verdict (string_bytes shown.text)) }
{
    let mut timeline = Timeline::new(alloc, sessions, drawn.from as u64)?;
    match note_history(alloc, entries, sessions, drawn, &mut timeline)? {
        Some(first) => illegal_text(alloc, first),
        None => legal_picture(alloc, entries, drawn.asked, &mut timeline),
    }
}

/// The picture of the entries from `from` to `to` if the history is legal, else the line of its verdict. Fails if memory is refused.
fn drawn_text(
    alloc: Global,
    entries: &[Entry],
    sessions: u16,
    from: Option<u32>,
    to: Option<u32>,
) -> Result<Shown, NoMemory>
    requires some { 0 < sessions }
    requires few { sessions ≤ MAX_SESSIONS }
    requires within { All (IsEntry sessions) entries.now }
    ensures verdict { IfOk result (λ shown. IsVerdict entries.now shown.verdict) }
    ensures text { IfOk result (λ shown. IsTextDrawn shown.verdict (string_bytes shown.text)) }
{
    let drawn = places_drawn(from, to, entries);
    picture(alloc, entries, sessions, drawn)
}

/// The last place that is asked for, if it is before the first one.
fn turned(from: Option<u32>, to: Option<u32>) -> Option<u64>
    ensures asked { IfSome result (λ missed. to ≡ Some missed) }
    ensures before { IfSome result (λ missed. IsBefore missed from) }
    ensures in_order { IfNone result (IsInOrder from to) }
{
    match (from, to) {
        (Some(first), Some(last)) if last < first => Some(last as u64),
        _ => None,
    }
}

/// The place that keeps the history from having the range: the first one that is asked for, if the history has no entry there, or else
/// the last one, if the history has no entry there or it is before the first. `None` if the history has the range.
fn range_missed(from: Option<u32>, to: Option<u32>, entries: &[Entry]) -> Option<u64>
    ensures missing { IfSome result (IsMissing from to entries.now) }
    ensures there { IfNone result (HasRange from to entries.now) }
{
    let first = place_missed(from, entries);
    if first.is_some() {
        return first;
    }
    let last = place_missed(to, entries);
    if last.is_some() {
        return last;
    }
    turned(from, to)
}

/// Reads the whole text of a history of sessions 1 to `sessions`, at most `MAX_SESSIONS`, checks it as [`check`](crate::check) does, and
/// draws the calls at the places `from` to `to` as an SVG picture, `None` for the beginning and the end of the history: the transactions
/// of each session, their waits and for whom, victims, refused calls, who granted and doomed whom, cycles, and the holders of contended
/// resources. At most [`MOST_PLACES`] places are drawn; the picture tells what is left out. If the history isn't legal, the line of its
/// verdict is written instead. Returns the verdict.
///
/// The whole text is made before its first byte is written. After every fault except `Device` nothing was written; after
/// `Device` the beginning of the text may have been written, and nothing else. The fault `Trace` names the first faulty row and
/// the first test that the row fails. `NoPlace` means that the history has no such places: it names `from` if the history has no entry
/// there, and else `to`, if the history has no entry there or `to` is less than `from`. It costs a check of the history, whose calls
/// up to the last place that is drawn are served once more, and what is drawn.
#[tactic(auto, using(crate::proofs::DrawnParts::drawn_part, crate::proofs::DrawnParts::drawn_part_known))]
pub fn timeline<R: Read + Drop, W: Write>(
    alloc: Global,
    input: R,
    output: &mut W,
    sessions: u16,
    from: Option<u32>,
    to: Option<u32>,
) -> Result<Verdict, ShowFault>
    requires some { 0 < sessions }
    requires few { sessions ≤ MAX_SESSIONS }
    // hold for every reader
    ensures kept { IfErr result (λ fault. fault ≢ ShowFault.Device → Keeps (W.contents output.old) (W.contents output.new)) }
    ensures part { IfErr result (λ fault. fault ≡ ShowFault.Device → HasDrawnPart sessions from to (W.contents output.old) (W.contents output.new)) }
    ensures drawn { IfOk result (λ verdict. HasDrawn sessions from to verdict (W.contents output.old) (W.contents output.new)) }

    // holds for a reader whose bytes are known
    ensures draws { (bytes : List ℕ) → R.remaining input ≡ Some bytes → Draws sessions from to bytes (W.contents output.old) (W.contents output.new) result }
{
    let entries = match read_history(alloc, input, sessions) {
        Ok(entries) => entries,
        Err(fault) => return Err(ShowFault::Trace(fault)),
    };
    if let Some(missed) = range_missed(from, to, &entries) {
        return Err(ShowFault::NoPlace {
            place: missed,
            entries: entries.len() as u64,
        });
    }
    let Ok(shown) = drawn_text(alloc, &entries, sessions, from, to) else {
        return Err(ShowFault::NoMemory);
    };
    if write_text(output, shown.text.as_bytes()).is_err() {
        return Err(ShowFault::Device);
    }
    Ok(shown.verdict)
}
