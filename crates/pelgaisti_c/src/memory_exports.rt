//! The exports that make room in a lock table, and give its memory back. Contracts see nothing of this memory: they say that nothing else
//! changes.

ghost use Rattle.std.specs.Prelude.{◌≡◌, ◌≢◌, ◌↔◌, ◌⊎◌};
ghost use denote.RawPtr.{null_ptr};
ghost use Rattle.library_sessions.specs.Tables.{IsClosed, IsSameBook};

use library_books::status::{CLOSED, NO_MEMORY, NULL_POINTER, OK};
use library_sessions::pointers::BookPointer;
use lock_desk::{Reserve, Shrink};
use std::alloc::Global;

/// Makes room for so many resources beside those that are held or waited for, and for so many entries of the history beside those that
/// are kept.
#[unsafe(no_mangle)]
pub extern "C" fn pelgaisti_raw_book_reserve(
    alloc: Global,
    book: &mut BookPointer,
    resources: usize,
    entries: usize,
) -> u32
    ensures null { result ≡ NULL_POINTER ↔ (book.old.at ≡ null_ptr) }
    ensures same { IsSameBook book.old.behind book.new.behind }
    ensures closed { result ≢ NULL_POINTER → (result ≡ CLOSED ↔ IsClosed book.old.behind) }
    ensures statuses { (result ≡ NULL_POINTER) ⊎ ((result ≡ OK) ⊎ ((result ≡ NO_MEMORY) ⊎ (result ≡ CLOSED))) }
{
    behind!(book);
    let mut table = given!(book.take(alloc), CLOSED);
    let made = table.tend(&mut Reserve { resources, entries });
    book.put(alloc, table);
    if made.is_err() { NO_MEMORY } else { OK }
}

/// Gives back memory that isn't in use.
#[unsafe(no_mangle)]
pub extern "C" fn pelgaisti_raw_book_shrink(alloc: Global, book: &mut BookPointer) -> u32
    ensures null { result ≡ NULL_POINTER ↔ (book.old.at ≡ null_ptr) }
    ensures same { IsSameBook book.old.behind book.new.behind }
    ensures closed { result ≢ NULL_POINTER → (result ≡ CLOSED ↔ IsClosed book.old.behind) }
    ensures statuses { (result ≡ NULL_POINTER) ⊎ ((result ≡ OK) ⊎ (result ≡ CLOSED)) }
{
    behind!(book);
    let mut table = given!(book.take(alloc), CLOSED);
    let _made = table.tend(&mut Shrink);
    book.put(alloc, table);
    OK
}
