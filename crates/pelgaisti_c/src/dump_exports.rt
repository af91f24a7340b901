//! The export that copies every open transaction, lock and waiting request of one moment.

ghost use Rattle.std.specs.Prelude.{◌≡◌, ◌≢◌, ◌↔◌, ◌⊎◌, Some, length};
ghost use denote.RawPtr.{null_ptr};
ghost use Rattle.lock_rules.specs.Legal.{state_of};
ghost use Rattle.lock_desk.specs.BookView.{BookView};
ghost use Rattle.library_books.specs.Behind.{IsNullList};
ghost use Rattle.library_sessions.specs.Dumps.{IsDumped};
ghost use Rattle.library_sessions.specs.Tables.{IsClosed, IsSameBook, shown};

use library_books::pointers::{ClaimList, SizePointer, U64Pointer};
use library_books::status::{CLOSED, NO_MEMORY, NULL_POINTER, OK};
use library_sessions::dump;
use library_sessions::pointers::BookPointer;
use std::alloc::Global;

/// Writes the rows of a dump of the book: of each open transaction, and then of each lock and waiting request, resource by resource, as
/// many as `list` has room for. Writes the number of all rows to `count`, and how many calls the history has to `place`.
#[unsafe(no_mangle)]
pub extern "C" fn pelgaisti_raw_book_dump(
    alloc: Global,
    book: &mut BookPointer,
    list: &mut ClaimList,
    count: &mut SizePointer,
    place: &mut U64Pointer,
) -> u32
    ensures null { result ≡ NULL_POINTER ↔ ((book.old.at ≡ null_ptr) ⊎ (IsNullList list.old.at list.old.room ⊎ ((count.old.at ≡ null_ptr) ⊎ (place.old.at ≡ null_ptr)))) }
    ensures ok { result ≡ OK → (view : BookView) × (shown book.old.behind ≡ Some view)
        × IsDumped view.sessions (state_of view.history) list.old.behind list.new.behind count.new.behind × (place.new.behind ≡ length view.history) }
    ensures failed { result ≢ OK → (list.new.behind ≡ list.old.behind) × (count.new.behind ≡ count.old.behind) × (place.new.behind ≡ place.old.behind) }
    ensures same { IsSameBook book.old.behind book.new.behind }
    ensures closed { result ≢ NULL_POINTER → (result ≡ CLOSED ↔ IsClosed book.old.behind) }
    ensures statuses { (result ≡ NULL_POINTER) ⊎ ((result ≡ OK) ⊎ ((result ≡ NO_MEMORY) ⊎ (result ≡ CLOSED))) }
{
    behind!(book, [list], count, place);
    let list = list.items();
    on!(table shown by book, alloc => dump::dump_of_book(alloc, table.book(), list, count, place))
}
