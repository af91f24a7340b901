//! Why a session waits, was refused or is a deadlock victim.

ghost use Rattle.std.specs.Prelude.{◌≡◌, ◌<◌, length, All, Some, IfOk};
ghost use Rattle.sequential.specs.Histories.{IsEntryWithin};
ghost use Rattle.history_commands.specs.Explaining.{doom_answered};
ghost use Rattle.lock_shell.specs.Turns.{IsAccountAt, IsLastCall, IsPlaceTold, IsToldOf, IsWhy, is_call_of};

use crate::desk::desk_again;
use crate::texts::NO_CALL;
use command_line::Form;
use history_commands::{ServedCall, account, answer_of, doom_of};
use lock_desk::{Book, Call, Entry, NO_BOUND, NoMemory};
use lock_explain::serve_explained;
use std::alloc::Global;

/// Whether the session made this call, and it is no poll.
fn is_call_of(entry: &Entry, session: u16) -> bool
    ensures { result ≡ is_call_of session entry.now }
{
    entry.session == session && !matches!(entry.call, Call::Poll)
}

/// The place of the last call of the session among the entries, polls left out, `None` if there is none.
fn last_call(entries: &[Entry], session: u16) -> Option<usize>
    ensures { IsLastCall session entries.now result }
{
    for back in 0..entries.len() {
        let place = entries.len() - 1 - back;
        if is_call_of(&entries[place], session) {
            return Some(place);
        }
    }
    None
}

/// The place of the call that is told: the one that made the session's transaction a victim, if it is one, and else the session's
/// last call. `None` if there is none. Fails if memory is refused.
fn place_told(
    alloc: Global,
    after: &Book,
    entries: &[Entry],
    session: u16,
) -> Result<Option<usize>, NoMemory>
    requires within { All (IsEntryWithin after.now.sessions) entries.now }
    requires served { after.now.history ≡ entries.now }
    ensures { IfOk result (λ found. IsPlaceTold session after.now.history (doom_answered after.now.history session) found) }
{
    match doom_of(alloc, after, entries, session)? {
        Some(doom) => Ok(Some(doom.place as usize)),
        None => Ok(last_call(entries, session)),
    }
}

/// What the entry at `place` of the book's history did and why; the book keeps all of it in memory. Fails if memory is refused.
fn account_at(alloc: Global, after: &Book, place: usize) -> Result<Vec<u8>, NoMemory>
    requires all { after.now.cut ≡ 0 }
    requires unbounded { after.now.bound ≡ NO_BOUND }
    requires there { place < length after.now.history }
    ensures { IfOk result (λ text. IsAccountAt after.now.sessions after.now.history (Some place) text.items) }
{
    let mut desk = desk_again(alloc, after, place)?;
    let entries = after.history();
    let entry = &entries[place];
    let told = serve_explained(
        alloc,
        &desk.before,
        &mut desk.after,
        entry.session,
        &entry.call,
    )?;
    let call = ServedCall {
        before: &desk.before,
        front: &entries[..place],
        entry,
        place: place as u64,
    };
    account(alloc, &call, &told.explanation, Form::Lines)
}

/// What the call that is told did and why, or that there is none. Fails if memory is refused.
fn told_of(alloc: Global, after: &Book, session: u16) -> Result<Vec<u8>, NoMemory>
    requires all { after.now.cut ≡ 0 }
    requires unbounded { after.now.bound ≡ NO_BOUND }
    ensures { IfOk result (λ text. IsToldOf after.now.sessions after.now.history session text.items) }
{
    match place_told(alloc, after, after.history(), session)? {
        Some(place) => account_at(alloc, after, place),
        None => Vec::from_slice(alloc, NO_CALL.as_bytes()),
    }
}

/// For whom the session waits, since when, or which call made it a victim; and what that call, or the session's last one, did and why.
/// The book keeps all of its history in memory. Costs what it costs to serve the calls so far a few times. Fails if memory is refused.
pub(crate) fn why_text(alloc: Global, after: &Book, session: u16) -> Result<Vec<u8>, NoMemory>
    requires all { after.now.cut ≡ 0 }
    requires unbounded { after.now.bound ≡ NO_BOUND }
    ensures { IfOk result (λ text. IsWhy after.now.sessions after.now.history session text.items) }
{
    let entries = after.history();
    let place = after.served();
    let now = answer_of(alloc, after, entries, session, place, Form::Lines)?;
    let told = told_of(alloc, after, session)?;
    let mut text = now.into_bytes();
    text.extend_from_slice(&told)?;
    Ok(text)
}
