//! The exports that tell counters and gauges of a book, and what the passes of the office have served at whose lock table a look looks.

ghost use Rattle.std.specs.Prelude.{◌≡◌, ◌≢◌, ◌↔◌, ◌⊎◌, ℕ, Some, None};
ghost use denote.RawPtr.{null_ptr};
ghost use Rattle.lock_rules.specs.Legal.{state_of};
ghost use Rattle.lock_desk.specs.BookView.{BookView};
ghost use Rattle.lock_desk.specs.Counts.{counts_of};
ghost use Rattle.lock_desk.specs.Gauges.{gauges_of};
ghost use Rattle.library_books.specs.Counts.{numbers_of_counts, numbers_of_gauges};
ghost use Rattle.library_sessions.specs.Tables.{IsClosed, IsSameBook, shown};

use library_books::count_numbers::{count_numbers, gauge_numbers};
use library_books::pointers::{CountsPointer, GaugesPointer};
use library_books::status::{CLOSED, NULL_POINTER, OK};
use library_sessions::pass_count_numbers::NO_PASSES;
use library_sessions::pointers::{BookPointer, PassCountsPointer};
use std::alloc::Global;

/// Writes the counters of the book's history.
#[unsafe(no_mangle)]
pub extern "C" fn pelgaisti_raw_book_counts(
    alloc: Global,
    book: &mut BookPointer,
    counts: &mut CountsPointer,
) -> u32
    ensures null { result ≡ NULL_POINTER ↔ ((book.old.at ≡ null_ptr) ⊎ (counts.old.at ≡ null_ptr)) }
    ensures ok { result ≡ OK → (view : BookView) × (shown book.old.behind ≡ Some view)
        × (counts.new.behind ≡ numbers_of_counts (counts_of view.history)) }
    ensures failed { result ≢ OK → counts.new.behind ≡ counts.old.behind }
    ensures same { IsSameBook book.old.behind book.new.behind }
    ensures closed { result ≢ NULL_POINTER → (result ≡ CLOSED ↔ IsClosed book.old.behind) }
    ensures statuses { (result ≡ NULL_POINTER) ⊎ ((result ≡ OK) ⊎ (result ≡ CLOSED)) }
{
    behind!(book, counts);
    let table = given!(book.take(alloc), CLOSED);
    *counts = count_numbers(&table.book().counts());
    book.put(alloc, table);
    OK
}

/// Writes the gauges of the book, and the cells that serve no resource, of which no clause says how many they are.
#[unsafe(no_mangle)]
pub extern "C" fn pelgaisti_raw_book_gauges(
    alloc: Global,
    book: &mut BookPointer,
    gauges: &mut GaugesPointer,
) -> u32
    ensures null { result ≡ NULL_POINTER ↔ ((book.old.at ≡ null_ptr) ⊎ (gauges.old.at ≡ null_ptr)) }
    ensures ok { result ≡ OK → (view : BookView) × (shown book.old.behind ≡ Some view) × ((cells : ℕ)
        × (gauges.new.behind ≡ numbers_of_gauges (gauges_of view.sessions (state_of view.history)) cells)) }
    ensures failed { result ≢ OK → gauges.new.behind ≡ gauges.old.behind }
    ensures same { IsSameBook book.old.behind book.new.behind }
    ensures closed { result ≢ NULL_POINTER → (result ≡ CLOSED ↔ IsClosed book.old.behind) }
    ensures statuses { (result ≡ NULL_POINTER) ⊎ ((result ≡ OK) ⊎ (result ≡ CLOSED)) }
{
    behind!(book, gauges);
    let table = given!(book.take(alloc), CLOSED);
    let shown = table.book();
    *gauges = gauge_numbers(shown.gauges(), shown.idle_cells());
    book.put(alloc, table);
    OK
}

/// Writes what the passes of the office have served at whose lock table the handle looks: no clause says what these numbers are. Of a book of
/// its own they are zeros.
#[unsafe(no_mangle)]
pub extern "C" fn pelgaisti_raw_book_passes(
    alloc: Global,
    book: &mut BookPointer,
    passes: &mut PassCountsPointer,
) -> u32
    ensures null { result ≡ NULL_POINTER ↔ ((book.old.at ≡ null_ptr) ⊎ (passes.old.at ≡ null_ptr)) }
    ensures own { result ≡ OK → book.old.behind.is_open ≡ 1 → passes.new.behind ≡ NO_PASSES }
    ensures failed { result ≢ OK → passes.new.behind ≡ passes.old.behind }
    ensures same { IsSameBook book.old.behind book.new.behind }
    ensures closed { result ≢ NULL_POINTER → (result ≡ CLOSED ↔ IsClosed book.old.behind) }
    ensures statuses { (result ≡ NULL_POINTER) ⊎ ((result ≡ OK) ⊎ (result ≡ CLOSED)) }
{
    behind!(book, passes);
    let table = given!(book.take(alloc), CLOSED);
    *passes = table.passes();
    book.put(alloc, table);
    OK
}
