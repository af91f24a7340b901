//! Since when a session waits.

ghost use Rattle.std.specs.Prelude.{◌≡◌, ◌+◌, ◌<◌, ◌≤◌, ◌&&◌, ℕ, if◌then◌else◌, List, nat_lt, length, map, slice_index_or, All, IfOk};
ghost use Rattle.lock_rules.specs.Entries.{Entry as EntryValue};
ghost use Rattle.history_commands.specs.Waits.{AreSince, begins_wait, is_waiting_reply, may_wait, with_since};

use lock_desk::{Call, Entry, Reply};
use lock_report::WaitLine;
use std::alloc::{AllocError as NoMemory, Global};

/// Whether a lock may be waited for by the call.
fn may_wait(call: Call) -> bool
    ensures { result ≡ may_wait call }
{
    matches!(call, Call::Lock(_, _) | Call::Convert(_, _))
}

/// Whether the reply says that a request waits.
fn is_waiting_reply(reply: Reply) -> bool
    ensures { result ≡ is_waiting_reply reply }
{
    matches!(reply, Reply::Waiting)
}

/// Whether the request of a session below `sessions` began to wait with the entry.
fn begins_below(entry: &Entry, sessions: usize) -> bool
    ensures { result ≡ (nat_lt entry.now.session sessions && (may_wait entry.now.call && is_waiting_reply entry.now.reply)) }
{
    usize::from(entry.session) < sessions && may_wait(entry.call) && is_waiting_reply(entry.reply)
}

/// Notes the place for the session of the entry, if its request began to wait with the entry, and it has an element.
fn note_since(places: &mut Vec<u64>, entry: &Entry, place: u64)
    ensures len { length places.new.items ≡ length places.old.items }
    ensures places { (s : ℕ) → s < length places.old.items → slice_index_or places.new.items s 0 ≡ (if begins_wait s entry.now then place else slice_index_or places.old.items s 0) }
{
    if begins_below(entry, places.len()) {
        places[usize::from(entry.session)] = place;
    }
}

/// For each session up to `most`, by number from 0 on, the place of the last entry with which its request began to wait, 0 if there is none.
/// Fails if memory is refused.
fn places_since(alloc: Global, entries: &[Entry], most: u16) -> Result<Vec<u64>, NoMemory>
    ensures len { IfOk result (λ places. length places.items ≡ most + 1) }
    ensures since { IfOk result (λ places. AreSince entries.now places.items) }
{
    let mut places = vec![in alloc; 0u64; usize::from(most) + 1]?;
    for index in 0..entries.len() {
        note_since(&mut places, &entries[index], index as u64);
    }
    Ok(places)
}

/// The highest number of a session that waits.
fn highest(waits: &[WaitLine]) -> u16
    ensures { All (λ told. told.wait.session ≤ result) waits.now }
{
    let mut most = 0u16;
    for told in waits {
        most = most.max(told.wait.session);
    }
    most
}

/// The wait with the place since when its session waits, if it is for the first blocker.
fn with_since(places: &[u64], told: WaitLine) -> WaitLine
    requires { told.wait.session < length places.now }
    ensures { (entries : List EntryValue) → AreSince entries places.now → result ≡ with_since entries told }
{
    if !told.first {
        return told;
    }
    WaitLine {
        since: Some(places[usize::from(told.wait.session)]),
        ..told
    }
}

/// The waits, those for first blockers with the places since when the sessions wait, in the state to which the entries have led. If there are
/// waits, goes once through the entries, however many sessions wait. Fails if memory is refused.
pub(crate) fn with_places(
    alloc: Global,
    entries: &[Entry],
    waits: &[WaitLine],
) -> Result<Vec<WaitLine>, NoMemory>
    ensures { IfOk result (λ told. told.items ≡ map (with_since entries.now) waits.now) }
{
    if waits.is_empty() {
        return Ok(Vec::new(alloc));
    }
    let places = places_since(alloc, entries, highest(waits))?;
    let mut told = Vec::new(alloc);
    for wait in waits {
        told.push(with_since(&places, *wait))?;
    }
    Ok(told)
}
