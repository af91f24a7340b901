//! A dump of a book in numbers: its open transactions, locks and waiting requests of one moment.

ghost use Rattle.std.specs.Prelude.{◌≡◌, ◌≢◌, ◌⊎◌, ◌++◌, IfOk, OnOk, length, map};
ghost use Rattle.lock_rules.specs.Legal.{state_of};
ghost use Rattle.library_books.specs.Claims.{numbers_of_claim};
ghost use Rattle.library_sessions.specs.Dumps.{IsDumped, numbers_of_open};

use library_books::arrays::write_all;
use library_books::claims::{ClaimNumbers, claim_numbers, transaction_numbers};
use library_books::numbers::NOWHERE;
use library_books::status::{NO_MEMORY, OK};
use lock_desk::{Book, Claim, Transaction};
use lock_office::dump_book;
use std::alloc::{AllocError as NoMemory, Global};

/// The row of a session with its open transaction.
fn open_numbers(open: &(u16, Transaction)) -> ClaimNumbers
    ensures { result ≡ numbers_of_open open.now }
{
    let transaction = transaction_numbers(Some(open.1));
    ClaimNumbers {
        session: u32::from(open.0),
        kind: 0,
        mode: 0,
        doomed: transaction.doomed,
        transaction: transaction.number,
        resource: NOWHERE,
    }
}

/// Adds the rows of the open transactions. Fails if memory is refused.
fn add_opens(opens: &[(u16, Transaction)], rows: &mut Vec<ClaimNumbers>) -> Result<(), NoMemory>
    ensures { OnOk result (rows.new.items ≡ rows.old.items ++ map numbers_of_open opens.now) }
{
    for open in opens {
        rows.push(open_numbers(open))?;
    }
    Ok(())
}

/// Adds the rows of the locks and requests. Fails if memory is refused.
fn add_claims(claims: &[Claim], rows: &mut Vec<ClaimNumbers>) -> Result<(), NoMemory>
    ensures { OnOk result (rows.new.items ≡ rows.old.items ++ map numbers_of_claim claims.now) }
{
    for claim in claims {
        rows.push(claim_numbers(claim))?;
    }
    Ok(())
}

/// The rows of a dump. Fails if memory is refused.
fn rows_of(
    alloc: Global,
    opens: &[(u16, Transaction)],
    claims: &[Claim],
) -> Result<Vec<ClaimNumbers>, NoMemory>
    ensures { IfOk result (λ rows. rows.items ≡ map numbers_of_open opens.now ++ map numbers_of_claim claims.now) }
{
    let mut rows = Vec::new(alloc);
    add_opens(opens, &mut rows)?;
    add_claims(claims, &mut rows)?;
    Ok(rows)
}

/// Writes the rows of a dump of the book, as many as `list` has room for, the number of all rows to `count`, and how many calls the history
/// has.
pub fn dump_of_book(
    alloc: Global,
    book: &Book,
    list: &mut [ClaimNumbers],
    count: &mut usize,
    place: &mut u64,
) -> u32
    ensures ok { result ≡ OK → IsDumped book.now.sessions (state_of book.now.history) list.old list.new count.new × (place.new ≡ length book.now.history) }
    ensures failed { result ≢ OK → (list.new ≡ list.old) × (count.new ≡ count.old) × (place.new ≡ place.old) }
    ensures statuses { (result ≡ OK) ⊎ (result ≡ NO_MEMORY) }
{
    let mut claims = Vec::new(alloc);
    let mut opens = Vec::new(alloc);
    if dump_book(alloc, book, book.sessions(), &mut claims, &mut opens).is_err() {
        return NO_MEMORY;
    }
    let Ok(rows) = rows_of(alloc, opens.as_slice(), claims.as_slice()) else {
        return NO_MEMORY;
    };
    write_all(rows.as_slice(), list);
    *count = rows.len();
    *place = book.served();
    OK
}
