//! The exports that tell how many locks a session holds, and pages of them. A page has the session's first locks behind a resource, in the
//! order of resources.

ghost use Rattle.std.specs.Prelude.{◌≡◌, ◌≢◌, ◌↔◌, ◌⊎◌, Some, length};
ghost use denote.RawPtr.{null_ptr};
ghost use Rattle.lock_rules.specs.Legal.{state_of};
ghost use Rattle.lock_rules.specs.State.{claims_of};
ghost use Rattle.lock_desk.specs.BookView.{BookView};
ghost use Rattle.library_books.specs.Behind.{IsNullList};
ghost use Rattle.library_books.specs.Calls.{IsSession};
ghost use Rattle.library_sessions.specs.Pages.{IsAfterLevel, IsPageOf};
ghost use Rattle.library_sessions.specs.Tables.{IsClosed, IsSameBook, shown};

use library_books::pointers::{ClaimList, ResourcePointer, SizePointer};
use library_books::status::{CLOSED, NO_MEMORY, NO_SUCH_LEVEL, NO_SUCH_SESSION, NULL_POINTER, OK};
use library_sessions::pages;
use library_sessions::pointers::BookPointer;
use std::alloc::Global;

/// Writes how many locks the session holds.
#[unsafe(no_mangle)]
pub extern "C" fn pelgaisti_raw_book_locks_held(
    alloc: Global,
    book: &mut BookPointer,
    session: u32,
    count: &mut SizePointer,
) -> u32
    ensures null { result ≡ NULL_POINTER ↔ ((book.old.at ≡ null_ptr) ⊎ (count.old.at ≡ null_ptr)) }
    ensures ok { result ≡ OK → (view : BookView) × (shown book.old.behind ≡ Some view) × IsSession view session
        × (count.new.behind ≡ length (claims_of session (state_of view.history).table.held)) }
    ensures failed { result ≢ OK → count.new.behind ≡ count.old.behind }
    ensures same { IsSameBook book.old.behind book.new.behind }
    ensures closed { result ≢ NULL_POINTER → (result ≡ CLOSED ↔ IsClosed book.old.behind) }
    ensures session { result ≡ NO_SUCH_SESSION → (view : BookView) × (shown book.old.behind ≡ Some view) × ¬ (IsSession view session) }
    ensures statuses { (result ≡ NULL_POINTER) ⊎ ((result ≡ OK) ⊎ ((result ≡ CLOSED) ⊎ (result ≡ NO_SUCH_SESSION))) }
{
    behind!(book, count);
    on!(table shown by book, alloc => pages::locks_held(table.book(), session, count))
}

/// Writes the session's first locks behind the resource `after`, as many as `list` has room for, and how many they are to `count`. Level 0
/// of `after` means from the first lock on.
#[unsafe(no_mangle)]
pub extern "C" fn pelgaisti_raw_book_locks_of(
    alloc: Global,
    book: &mut BookPointer,
    session: u32,
    after: &mut ResourcePointer,
    list: &mut ClaimList,
    count: &mut SizePointer,
) -> u32
    ensures null { result ≡ NULL_POINTER ↔ ((book.old.at ≡ null_ptr) ⊎ ((after.old.at ≡ null_ptr) ⊎ (IsNullList list.old.at list.old.room ⊎ (count.old.at ≡ null_ptr)))) }
    ensures ok { result ≡ OK → (view : BookView) × (shown book.old.behind ≡ Some view) × IsSession view session
        × IsPageOf (state_of view.history) session after.old.behind list.old.behind list.new.behind count.new.behind }
    ensures failed { result ≢ OK → (list.new.behind ≡ list.old.behind) × (count.new.behind ≡ count.old.behind) }
    ensures same { IsSameBook book.old.behind book.new.behind }
    ensures closed { result ≢ NULL_POINTER → (result ≡ CLOSED ↔ IsClosed book.old.behind) }
    ensures session { result ≡ NO_SUCH_SESSION → (view : BookView) × (shown book.old.behind ≡ Some view) × ¬ (IsSession view session) }
    ensures level { result ≡ NO_SUCH_LEVEL → (view : BookView) × (shown book.old.behind ≡ Some view) × IsSession view session × ¬ (IsAfterLevel after.old.behind.level) }
    ensures memory { result ≡ NO_MEMORY → (view : BookView) × (shown book.old.behind ≡ Some view) × IsSession view session × IsAfterLevel after.old.behind.level }
    ensures statuses { (result ≡ NULL_POINTER) ⊎ ((result ≡ OK) ⊎ ((result ≡ NO_MEMORY) ⊎ ((result ≡ CLOSED) ⊎ ((result ≡ NO_SUCH_SESSION) ⊎ (result ≡ NO_SUCH_LEVEL))))) }
{
    behind!(book, after, [list], count);
    let list = list.items();
    on!(table shown by book, alloc => pages::locks_of(alloc, table.book(), session, &after, list, count))
}
