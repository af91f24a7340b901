//! The exports on a book's history.

ghost use Rattle.std.specs.Prelude.{◌≡◌, ◌≢◌, ◌+◌, ◌-◌, ◌<◌, ◌↔◌, ◌⊎◌, Some, length, drop, min};
ghost use denote.RawPtr.{null_ptr};
ghost use Rattle.lock_desk.specs.BookView.{BookView, first_kept_by, kept_by};
ghost use Rattle.library_books.specs.Behind.{IsNullList};
ghost use Rattle.library_books.specs.Numbers.{numbers_of_entry};
ghost use Rattle.library_books.specs.Calls.{are_written};
ghost use Rattle.library_sessions.specs.Tables.{IsClosed, IsSameBook, shown};

use library_books::book_calls;
use library_books::pointers::{EntryList, SizePointer, U64Pointer};
use library_books::status::{CLOSED, LET_GO, LOOKS, NULL_POINTER, OK};
use library_sessions::pointers::BookPointer;
use std::alloc::Global;

/// Writes the place of the first entry of the history that is kept, which is how many were let go, and the number of calls that the book has
/// served, also of those whose entries were let go.
#[unsafe(no_mangle)]
pub extern "C" fn pelgaisti_raw_book_length(
    alloc: Global,
    book: &mut BookPointer,
    first_kept: &mut U64Pointer,
    count: &mut U64Pointer,
) -> u32
    ensures null { result ≡ NULL_POINTER ↔ ((book.old.at ≡ null_ptr) ⊎ ((first_kept.old.at ≡ null_ptr) ⊎ (count.old.at ≡ null_ptr))) }
    ensures ok { result ≡ OK → (view : BookView) × (shown book.old.behind ≡ Some view) × (first_kept.new.behind ≡ first_kept_by view)
        × (count.new.behind ≡ length view.history) }
    ensures failed { result ≢ OK → (first_kept.new.behind ≡ first_kept.old.behind) × (count.new.behind ≡ count.old.behind) }
    ensures same { IsSameBook book.old.behind book.new.behind }
    ensures closed { result ≢ NULL_POINTER → (result ≡ CLOSED ↔ IsClosed book.old.behind) }
    ensures statuses { (result ≡ NULL_POINTER) ⊎ ((result ≡ OK) ⊎ (result ≡ CLOSED)) }
{
    behind!(book, first_kept, count);
    let table = given!(book.take(alloc), CLOSED);
    let shown = table.book();
    *first_kept = shown.first_kept();
    *count = shown.served();
    book.put(alloc, table);
    OK
}

/// Writes the history's entries from index `first` on, as many as `entries` has room for, and the number of entries
/// written to `count`. The entry at `first` must not have been let go.
#[unsafe(no_mangle)]
pub extern "C" fn pelgaisti_raw_book_history(
    alloc: Global,
    book: &mut BookPointer,
    first: u64,
    entries: &mut EntryList,
    count: &mut SizePointer,
) -> u32
    ensures null { result ≡ NULL_POINTER ↔ ((book.old.at ≡ null_ptr) ⊎ (IsNullList entries.old.at entries.old.room ⊎ (count.old.at ≡ null_ptr))) }
    ensures ok { result ≡ OK → (view : BookView) × (shown book.old.behind ≡ Some view) × (let rest = drop first view.history in
        (entries.new.behind ≡ are_written numbers_of_entry rest entries.old.behind) × (count.new.behind ≡ min (length rest) (length entries.old.behind))) }
    ensures failed { result ≢ OK → (entries.new.behind ≡ entries.old.behind) × (count.new.behind ≡ count.old.behind) }
    ensures same { IsSameBook book.old.behind book.new.behind }
    ensures closed { result ≢ NULL_POINTER → (result ≡ CLOSED ↔ IsClosed book.old.behind) }
    ensures let_go { result ≢ NULL_POINTER → (result ≡ LET_GO ↔ ((view : BookView) × (shown book.old.behind ≡ Some view) × (first < first_kept_by view))) }
    ensures statuses { (result ≡ NULL_POINTER) ⊎ ((result ≡ OK) ⊎ ((result ≡ CLOSED) ⊎ (result ≡ LET_GO))) }
{
    behind!(book, [entries], count);
    let entries = entries.items();
    on!(table shown by book, alloc => book_calls::history(table.book(), first, entries, count))
}

/// Keeps at most the newest `bound` entries of the history in memory from now on.
#[unsafe(no_mangle)]
pub extern "C" fn pelgaisti_raw_book_keep_at_most(
    alloc: Global,
    book: &mut BookPointer,
    bound: u64,
) -> u32
    ensures null { result ≡ NULL_POINTER ↔ (book.old.at ≡ null_ptr) }
    ensures ok { result ≡ OK → (view : BookView) × (book.old.behind.held.book ≡ Some view)
        × (book.new.behind.held.book ≡ Some (record view { cut = first_kept_by view; bound = bound })) }
    ensures failed { result ≢ OK → IsSameBook book.old.behind book.new.behind }
    ensures open { book.new.behind.is_open ≡ book.old.behind.is_open }
    ensures closed { result ≢ NULL_POINTER → (result ≡ CLOSED ↔ IsClosed book.old.behind) }
    ensures looks { result ≢ NULL_POINTER → (result ≡ LOOKS ↔ (book.old.behind.is_open ≡ 2)) }
    ensures statuses { (result ≡ NULL_POINTER) ⊎ ((result ≡ LOOKS) ⊎ ((result ≡ OK) ⊎ (result ≡ CLOSED))) }
{
    behind!(book);
    let mut boxed = given!(book.take_own(alloc), book.refusal());
    boxed.keep_at_most(bound);
    book.put_own(alloc, boxed);
    OK
}

/// Writes the oldest entries of the history that are kept, as many as `entries` has room for, and lets go of them. Writes
/// the place of the first of them to `first`, and how many there are to `count`.
#[unsafe(no_mangle)]
pub extern "C" fn pelgaisti_raw_book_take_history(
    alloc: Global,
    book: &mut BookPointer,
    first: &mut U64Pointer,
    entries: &mut EntryList,
    count: &mut SizePointer,
) -> u32
    ensures null { result ≡ NULL_POINTER ↔ ((book.old.at ≡ null_ptr) ⊎ ((first.old.at ≡ null_ptr) ⊎ (IsNullList entries.old.at entries.old.room ⊎ (count.old.at ≡ null_ptr)))) }
    ensures ok { result ≡ OK → (view : BookView) × (book.old.behind.held.book ≡ Some view) × (first.new.behind ≡ first_kept_by view)
        × (entries.new.behind ≡ are_written numbers_of_entry (kept_by view) entries.old.behind)
        × (count.new.behind ≡ min (length (kept_by view)) (length entries.old.behind))
        × (book.new.behind.held.book ≡ Some (record view { cut = first_kept_by view + count.new.behind })) }
    ensures failed { result ≢ OK → IsSameBook book.old.behind book.new.behind × (first.new.behind ≡ first.old.behind) × (entries.new.behind ≡ entries.old.behind) × (count.new.behind ≡ count.old.behind) }
    ensures open { book.new.behind.is_open ≡ book.old.behind.is_open }
    ensures closed { result ≢ NULL_POINTER → (result ≡ CLOSED ↔ IsClosed book.old.behind) }
    ensures looks { result ≢ NULL_POINTER → (result ≡ LOOKS ↔ (book.old.behind.is_open ≡ 2)) }
    ensures statuses { (result ≡ NULL_POINTER) ⊎ ((result ≡ LOOKS) ⊎ ((result ≡ OK) ⊎ (result ≡ CLOSED))) }
{
    behind!(book, first, [entries], count);
    let entries = entries.items();
    let mut boxed = given!(book.take_own(alloc), book.refusal());
    let place = boxed.first_kept();
    *count = book_calls::take_history(&mut boxed, entries);
    *first = place;
    book.put_own(alloc, boxed);
    OK
}
