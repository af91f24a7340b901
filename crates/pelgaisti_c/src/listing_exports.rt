//! The exports that tell what a book's sessions hold and wait for, and whom they wait for.

ghost use Rattle.std.specs.Prelude.{◌≡◌, ◌≢◌, ◌↔◌, ◌⊎◌, Some, length};
ghost use denote.RawPtr.{null_ptr};
ghost use Rattle.lock_rules.specs.Legal.{state_of};
ghost use Rattle.lock_rules.specs.Listing.{waiting_line};
ghost use Rattle.lock_desk.specs.BookView.{BookView};
ghost use Rattle.lock_desk.specs.Queries.{blockers_among};
ghost use Rattle.library_books.specs.Behind.{IsNullList};
ghost use Rattle.library_books.specs.Calls.{IsSession, are_written};
ghost use Rattle.library_books.specs.Claims.{numbers_of_request, numbers_of_transaction};
ghost use Rattle.library_sessions.specs.Tables.{IsClosed, IsSameBook, shown};

use library_books::listing;
use library_books::pointers::{ClaimPointer, SessionList, SizePointer, TransactionPointer};
use library_books::status::{CLOSED, NO_SUCH_SESSION, NULL_POINTER, OK};
use library_sessions::pointers::BookPointer;
use std::alloc::Global;

/// Writes the number of the session's open transaction, and whether it is a deadlock victim. Number 0 means that none is open.
#[unsafe(no_mangle)]
pub extern "C" fn pelgaisti_raw_book_transaction(
    alloc: Global,
    book: &mut BookPointer,
    session: u32,
    open: &mut TransactionPointer,
) -> u32
    ensures null { result ≡ NULL_POINTER ↔ ((book.old.at ≡ null_ptr) ⊎ (open.old.at ≡ null_ptr)) }
    ensures ok { result ≡ OK → (view : BookView) × (shown book.old.behind ≡ Some view) × IsSession view session
        × (open.new.behind ≡ numbers_of_transaction ((state_of view.history).begun session)) }
    ensures failed { result ≢ OK → open.new.behind ≡ open.old.behind }
    ensures same { IsSameBook book.old.behind book.new.behind }
    ensures closed { result ≢ NULL_POINTER → (result ≡ CLOSED ↔ IsClosed book.old.behind) }
    ensures session { result ≡ NO_SUCH_SESSION → (view : BookView) × (shown book.old.behind ≡ Some view) × ¬ (IsSession view session) }
    ensures statuses { (result ≡ NULL_POINTER) ⊎ ((result ≡ OK) ⊎ ((result ≡ CLOSED) ⊎ (result ≡ NO_SUCH_SESSION))) }
{
    behind!(book, open);
    on!(table shown by book, alloc => listing::transaction(table.book(), session, open))
}

/// Writes the session's waiting request, as a line of the listing. Kind 0 means that it doesn't wait.
#[unsafe(no_mangle)]
pub extern "C" fn pelgaisti_raw_book_request(
    alloc: Global,
    book: &mut BookPointer,
    session: u32,
    waiting: &mut ClaimPointer,
) -> u32
    ensures null { result ≡ NULL_POINTER ↔ ((book.old.at ≡ null_ptr) ⊎ (waiting.old.at ≡ null_ptr)) }
    ensures ok { result ≡ OK → (view : BookView) × (shown book.old.behind ≡ Some view) × IsSession view session
        × (waiting.new.behind ≡ numbers_of_request (waiting_line (state_of view.history) session)) }
    ensures failed { result ≢ OK → waiting.new.behind ≡ waiting.old.behind }
    ensures same { IsSameBook book.old.behind book.new.behind }
    ensures closed { result ≢ NULL_POINTER → (result ≡ CLOSED ↔ IsClosed book.old.behind) }
    ensures session { result ≡ NO_SUCH_SESSION → (view : BookView) × (shown book.old.behind ≡ Some view) × ¬ (IsSession view session) }
    ensures statuses { (result ≡ NULL_POINTER) ⊎ ((result ≡ OK) ⊎ ((result ≡ CLOSED) ⊎ (result ≡ NO_SUCH_SESSION))) }
{
    behind!(book, waiting);
    on!(table shown by book, alloc => listing::request(table.book(), session, waiting))
}

/// Writes the sessions for which `session` waits directly in the order of their numbers, as many as `list` has room for, and the
/// number of all of them to `count`.
#[unsafe(no_mangle)]
pub extern "C" fn pelgaisti_raw_book_blockers(
    alloc: Global,
    book: &mut BookPointer,
    session: u32,
    list: &mut SessionList,
    count: &mut SizePointer,
) -> u32
    ensures null { result ≡ NULL_POINTER ↔ ((book.old.at ≡ null_ptr) ⊎ (IsNullList list.old.at list.old.room ⊎ (count.old.at ≡ null_ptr))) }
    ensures ok { result ≡ OK → (view : BookView) × (shown book.old.behind ≡ Some view) × IsSession view session
        × (let all = blockers_among view.sessions (state_of view.history).table session in
        (list.new.behind ≡ are_written (λ u. u) all list.old.behind) × (count.new.behind ≡ length all)) }
    ensures failed { result ≢ OK → (list.new.behind ≡ list.old.behind) × (count.new.behind ≡ count.old.behind) }
    ensures same { IsSameBook book.old.behind book.new.behind }
    ensures closed { result ≢ NULL_POINTER → (result ≡ CLOSED ↔ IsClosed book.old.behind) }
    ensures session { result ≡ NO_SUCH_SESSION → (view : BookView) × (shown book.old.behind ≡ Some view) × ¬ (IsSession view session) }
    ensures statuses { (result ≡ NULL_POINTER) ⊎ ((result ≡ OK) ⊎ ((result ≡ CLOSED) ⊎ (result ≡ NO_SUCH_SESSION))) }
{
    behind!(book, [list], count);
    let list = list.items();
    on!(table shown by book, alloc => listing::blockers(table.book(), session, list, count))
}
