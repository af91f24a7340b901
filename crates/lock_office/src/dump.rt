//! A dump: every lock, every waiting request and every open transaction of a lock table.

ghost use Rattle.std.specs.Prelude.{◌≡◌, ◌++◌, IfOk, OnOk, OnErr};
ghost use Rattle.lock_rules.specs.Legal.{state_of};
ghost use Rattle.lock_rules.specs.Listing.{listing_of};
ghost use Rattle.lock_office.specs.Dump.{open_of, opens_of};

use lock_desk::{Book, Claim, NoMemory, Transaction};
use std::alloc::Global;

/// Adds the session with its open transaction to the list, if it has one. Fails if memory is refused.
fn add_open(book: &Book, session: u16, list: &mut Vec<(u16, Transaction)>) -> Result<(), NoMemory>
    ensures { OnOk result (list.new.items ≡ list.old.items ++ open_of session ((state_of book.now.history).begun session)) }
{
    if let Some(transaction) = book.transaction(session) {
        list.push((session, transaction))?;
    }
    Ok(())
}

/// The open transactions of the sessions 1 to `sessions`, each with its session, by session number. Fails if memory is refused.
fn list_opens(
    alloc: Global,
    book: &Book,
    sessions: u16,
) -> Result<Vec<(u16, Transaction)>, NoMemory>
    ensures { IfOk result (λ opens. opens.items ≡ opens_of sessions (state_of book.now.history)) }
{
    let mut opens = Vec::new(alloc);
    for before in 0..sessions {
        add_open(book, before + 1, &mut opens)?;
    }
    Ok(opens)
}

/// Replaces the contents of `claims` by all locks and all waiting requests of the book, as `Book::locks` lists them, and those of `opens`
/// by the open transactions of the sessions 1 to `sessions`, each with its session, by session number.
///
/// Its cost is that of `Book::locks`, and grows with `sessions` besides. Fails with `NoMemory` if memory is refused: the contents of both
/// lists are unchanged then.
pub fn dump_book(
    alloc: Global,
    book: &Book,
    sessions: u16,
    claims: &mut Vec<Claim>,
    opens: &mut Vec<(u16, Transaction)>,
) -> Result<(), NoMemory>
    ensures claims { OnOk result (claims.new.items ≡ listing_of (state_of book.now.history)) }
    ensures opens { OnOk result (opens.new.items ≡ opens_of sessions (state_of book.now.history)) }
    ensures err { OnErr result ((claims.new.items ≡ claims.old.items) × (opens.new.items ≡ opens.old.items)) }
{
    let begun = list_opens(alloc, book, sessions)?;
    book.locks(alloc, claims)?;
    *opens = begun;
    Ok(())
}
