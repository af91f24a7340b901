//! Which call made the transaction of a session a deadlock victim.

ghost use Rattle.std.specs.Prelude.{◌≡◌, ◌≤◌, ◌<◌, ◌+◌, [], length, if◌then◌else◌, not, ◌&&◌, Some, All, IfOk};
ghost use Rattle.sequential.specs.Histories.{IsEntryWithin};
ghost use Rattle.lock_rules.specs.declared.calls.TheConstants.{MAX_SESSIONS};
ghost use Rattle.lock_rules.specs.State.{is_doomed};
ghost use Rattle.lock_rules.specs.Step.{step};
ghost use Rattle.lock_rules.specs.Legal.{state_of};
ghost use Rattle.history_commands.specs.Dooms.{does_doom, doomed_by};

use lock_desk::{Book, Entry};
use lock_report::Doom;
use std::alloc::{AllocError as NoMemory, Global};

/// Whether the open transaction of the session is a deadlock victim.
pub(crate) fn is_doomed(book: &Book, session: u16) -> bool
    ensures { result ≡ is_doomed (state_of book.now.history) session }
{
    match book.transaction(session) {
        Some(transaction) => transaction.doomed,
        None => false,
    }
}

/// Whether it is so after a call, and wasn't before.
fn has_turned(before: bool, after: bool) -> bool
    ensures { result ≡ (not before && after) }
{
    !before && after
}

/// Serves the call of the entry, and returns whether it made the transaction of `session` a victim. Fails if memory is refused.
fn serve_and_look(book: &mut Book, entry: &Entry, session: u16) -> Result<bool, NoMemory>
    requires { IsEntryWithin book.old.sessions entry.now }
    ensures sessions { IfOk result (λ dooms. book.new.sessions ≡ book.old.sessions) }
    ensures state { IfOk result (λ dooms. state_of book.new.history ≡ (step (state_of book.old.history) entry.now.session entry.now.call).state) }
    ensures count { IfOk result (λ dooms. length book.new.history ≡ length book.old.history + 1) }
    ensures dooms { IfOk result (λ dooms. dooms ≡ does_doom session (state_of book.old.history) entry.now) }
{
    let before = is_doomed(book, session);
    book.serve(entry.session, entry.call)?;
    let after = is_doomed(book, session);
    Ok(has_turned(before, after))
}

/// The newer of the two, if there is a newer one.
fn newer(older: Option<Doom>, dooms: bool, newest: Doom) -> Option<Doom>
    ensures { result ≡ (if dooms then Some newest else older) }
{
    if dooms { Some(newest) } else { older }
}

/// The last call that made the transaction of `session` a victim. Serves the calls on the book, which has served none. Fails if
/// memory is refused.
fn last_doom(book: &mut Book, entries: &[Entry], session: u16) -> Result<Option<Doom>, NoMemory>
    requires within { All (IsEntryWithin book.old.sessions) entries.now }
    requires empty { book.old.history ≡ [] }
    ensures { IfOk result (λ doom. doom ≡ doomed_by session entries.now) }
{
    let mut doom = None;
    for entry in entries {
        let place = book.served();
        let dooms = serve_and_look(book, entry, session)?;
        let newest = Doom {
            place,
            session: entry.session,
        };
        doom = newer(doom, dooms, newest);
    }
    Ok(doom)
}

/// The last call of the history that made the transaction of `session` a deadlock victim, `None` if no call did. Serves the calls of
/// sessions 1 to `sessions` once more, on a lock table that keeps no history in memory. Fails if memory is refused.
pub(crate) fn doomed_by(
    alloc: Global,
    sessions: u16,
    entries: &[Entry],
    session: u16,
) -> Result<Option<Doom>, NoMemory>
    requires some { 0 < sessions }
    requires few { sessions ≤ MAX_SESSIONS }
    requires within { All (IsEntryWithin sessions) entries.now }
    ensures { IfOk result (λ doom. doom ≡ doomed_by session entries.now) }
{
    let mut book = Book::new(alloc, sessions)?;
    book.keep_at_most(0);
    last_doom(&mut book, entries, session)
}
