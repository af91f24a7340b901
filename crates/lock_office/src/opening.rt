//! An office whose lock table lets go of its history.

ghost use Rattle.std.specs.Prelude.{◌≡◌, ◌<◌, ◌↔◌, [], Err, IfOk};
ghost use Rattle.std.specs.List.{All};
ghost use Rattle.lock_rules.specs.declared.calls.TheConstants.{MAX_SESSIONS};
ghost use Rattle.lock_office.specs.ProgramBoards.{new_tickets};
ghost use Rattle.lock_office.specs.Sessions.{IsSessionOf, IsIdle};

use crate::{Office, Ticket};
use combining::OpenFault;
use lock_desk::Book;
use lock_rules::MAX_SESSIONS;
use programs::Programs;
use std::alloc::{AllocError as NoMemory, Global};

/// A book for an office: for sessions 1 to `sessions`, with an empty history, of which it keeps at most the newest `bound` entries in
/// memory. With `NO_BOUND` all entries are kept. Resources are hashed with a seed, as `Book::with_seed` says.
fn book_seeded(alloc: Global, sessions: u16, bound: u64, seed: u64) -> Result<Book, OpenFault>
    ensures none { (result ≡ Err OpenFault.NoSessions) ↔ (sessions ≡ 0) }
    ensures many { (result ≡ Err OpenFault.TooManySessions) ↔ (MAX_SESSIONS < sessions) }
    ensures sessions { IfOk result (λ book. book.sessions ≡ sessions) }
    ensures bound { IfOk result (λ book. book.bound ≡ bound) }
    ensures empty { IfOk result (λ book. book.history ≡ []) }
    ensures deadlocks { IfOk result (λ book. book.deadlocks ≡ 0) }
{
    if sessions == 0 {
        return Err(OpenFault::NoSessions);
    }
    if sessions > MAX_SESSIONS {
        return Err(OpenFault::TooManySessions);
    }
    let Ok(mut book) = Book::with_seed(alloc, sessions, seed) else {
        return Err(OpenFault::NoMemory);
    };
    book.keep_at_most(bound);
    Ok(book)
}

/// A book as `book_seeded` makes it, which keeps the newest `deadlocks` deadlocks, as `Book::keep_deadlocks` says.
fn book_telling(
    alloc: Global,
    sessions: u16,
    bound: u64,
    seed: u64,
    deadlocks: usize,
) -> Result<Book, OpenFault>
    ensures none { (result ≡ Err OpenFault.NoSessions) ↔ (sessions ≡ 0) }
    ensures many { (result ≡ Err OpenFault.TooManySessions) ↔ (MAX_SESSIONS < sessions) }
    ensures sessions { IfOk result (λ book. book.sessions ≡ sessions) }
    ensures bound { IfOk result (λ book. book.bound ≡ bound) }
    ensures empty { IfOk result (λ book. book.history ≡ []) }
    ensures deadlocks { IfOk result (λ book. book.deadlocks ≡ deadlocks) }
{
    let mut book = book_seeded(alloc, sessions, bound, seed)?;
    match book.keep_deadlocks(alloc, deadlocks) {
        Ok(()) => Ok(book),
        Err(NoMemory) => Err(OpenFault::NoMemory),
    }
}

/// Opens an office as `Office::open` does, whose lock table keeps at most the newest `bound` entries of the history of calls in memory, and
/// the newest `deadlocks` deadlocks, which `Book::newest_deadlocks` tells. Older entries are let go as calls are served, so that the memory of
/// an office follows what is held and waited for. Contracts go on to see the whole history. With `NO_BOUND` all entries are kept.
///
/// Resources are hashed with a seed: where strangers choose the names of resources, one that is drawn by chance and kept secret. No reply
/// and no history depends on it.
pub fn open_telling(
    alloc: Global,
    sessions: u16,
    bound: u64,
    seed: u64,
    deadlocks: usize,
) -> Result<(Office, Vec<Ticket>), OpenFault>
    ensures none { (result ≡ Err OpenFault.NoSessions) ↔ (sessions ≡ 0) }
    ensures many { (result ≡ Err OpenFault.TooManySessions) ↔ (MAX_SESSIONS < sessions) }
    ensures office { IfOk result (λ made. made.0.sessions ≡ sessions) }
    ensures bound { IfOk result (λ made. made.0.bound ≡ record { lines = bound; notes = deadlocks }) }
    ensures sessions { IfOk result (λ made. made.1.items ≡ new_tickets made.0.id sessions sessions) }
    ensures ready { IfOk result (λ made. All (λ session. IsSessionOf made.0 session × IsIdle session) made.1.items) }
{
    let book = book_telling(alloc, sessions, bound, seed, deadlocks)?;
    match Office::share(alloc, Programs::new(book)) {
        Ok(made) => Ok(made),
        Err(NoMemory) => Err(OpenFault::NoMemory),
    }
}
