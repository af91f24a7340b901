//! The lists of a book's state: its open transactions, its locks and requests, and who waits for whom.

ghost use Rattle.std.specs.Prelude.{◌≡◌, ◌++◌, IfOk, OnOk};
ghost use Rattle.lock_rules.specs.Legal.{state_of};
ghost use Rattle.lock_rules.specs.Listing.{listing_of};
ghost use Rattle.history_commands.specs.Showing.{open_of, opens_of, wait_of, waits_by, waits_of};

use lock_desk::{Book, NoMemory};
use lock_report::{Lists, OpenTransaction, WaitFor};
use std::alloc::Global;

/// Adds the open transaction of `session` to the list, if it has one. Fails if memory is refused.
pub(crate) fn add_open(
    book: &Book,
    session: u16,
    opens: &mut Vec<OpenTransaction>,
) -> Result<(), NoMemory>
    ensures { OnOk result (opens.new.items ≡ opens.old.items ++ open_of session ((state_of book.now.history).begun session)) }
{
    if let Some(transaction) = book.transaction(session) {
        opens.push(OpenTransaction {
            session,
            transaction,
        })?;
    }
    Ok(())
}

/// The open transactions of the book's sessions, by session number. Fails if memory is refused.
fn open_transactions(alloc: Global, book: &Book) -> Result<Vec<OpenTransaction>, NoMemory>
    ensures { IfOk result (λ opens. opens.items ≡ opens_of book.now.sessions (state_of book.now.history)) }
{
    let mut opens = Vec::new(alloc);
    let sessions = book.sessions();
    for before in 0..sessions {
        add_open(book, before + 1, &mut opens)?;
    }
    Ok(opens)
}

/// Adds the edge from `session` to `other` to the list, if the first waits for the second. Fails if memory is refused.
fn add_wait(book: &Book, session: u16, other: u16, waits: &mut Vec<WaitFor>) -> Result<(), NoMemory>
    ensures { OnOk result (waits.new.items ≡ waits.old.items ++ wait_of (state_of book.now.history) session other) }
{
    if book.waits_for(session, other) {
        waits.push(WaitFor { session, other })?;
    }
    Ok(())
}

/// For whom `session` waits directly, by session number. Fails if memory is refused.
pub(crate) fn waits_by(alloc: Global, book: &Book, session: u16) -> Result<Vec<WaitFor>, NoMemory>
    ensures { IfOk result (λ waits. waits.items ≡ waits_by book.now.sessions (state_of book.now.history) session) }
{
    let mut waits = Vec::new(alloc);
    let Some(_request) = book.request(session) else {
        return Ok(waits);
    };
    let sessions = book.sessions();
    for before in 0..sessions {
        add_wait(book, session, before + 1, &mut waits)?;
    }
    Ok(waits)
}

/// Who of the book's sessions waits directly for whom, by session number. Fails if memory is refused.
fn all_waits(alloc: Global, book: &Book) -> Result<Vec<WaitFor>, NoMemory>
    ensures { IfOk result (λ waits. waits.items ≡ waits_of book.now.sessions (state_of book.now.history)) }
{
    let mut waits = Vec::new(alloc);
    let sessions = book.sessions();
    for before in 0..sessions {
        let own = waits_by(alloc, book, before + 1)?;
        waits.extend_from_slice(&own)?;
    }
    Ok(waits)
}

/// The lists of the book's state. Fails if memory is refused.
pub(crate) fn lists_of(alloc: Global, book: &Book) -> Result<Lists, NoMemory>
    ensures opens { IfOk result (λ lists. lists.opens.items ≡ opens_of book.now.sessions (state_of book.now.history)) }
    ensures claims { IfOk result (λ lists. lists.claims.items ≡ listing_of (state_of book.now.history)) }
    ensures waits { IfOk result (λ lists. lists.waits.items ≡ waits_of book.now.sessions (state_of book.now.history)) }
{
    let opens = open_transactions(alloc, book)?;
    let mut claims = Vec::new(alloc);
    book.locks(alloc, &mut claims)?;
    let waits = all_waits(alloc, book)?;
    Ok(Lists {
        opens,
        claims,
        waits,
    })
}
