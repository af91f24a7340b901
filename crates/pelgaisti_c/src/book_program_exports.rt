//! The export that runs a program on a book.

ghost use Rattle.std.specs.Prelude.{◌≡◌, ◌≢◌, ◌≤◌, ◌↔◌, ◌⊎◌, Some};
ghost use denote.RawPtr.{null_ptr};
ghost use Rattle.lock_desk.specs.BookView.{BookView};
ghost use Rattle.lock_programs.specs.declared.program.Program.{Program};
ghost use Rattle.library_books.specs.Calls.{IsSession};
ghost use Rattle.library_books.specs.Programs.{IsProgram, IsProgramFault, IsProgramRun};
ghost use Rattle.library_sessions.specs.Tables.{IsClosed, IsSameBook};

use library_books::pointers::{ProgramAnswerPointer, ProgramPointer};
use library_books::program_calls;
use library_books::status::{
    CLOSED, LOOKS, NO_MEMORY, NO_SUCH_ABOVE, NO_SUCH_MODE, NO_SUCH_OP, NO_SUCH_SESSION,
    NO_SUCH_START, NULL_POINTER, OK,
};
use library_sessions::pointers::BookPointer;
use std::alloc::Global;

/// Runs the program of `session` that the numbers encode: serves its calls one after another, up to the first reply behind which it
/// doesn't go on, and writes the answer.
///
/// If memory is refused to the first call, nothing has changed; if it is refused to a later one, the answer says so.
#[unsafe(no_mangle)]
pub extern "C" fn pelgaisti_raw_book_run(
    alloc: Global,
    book: &mut BookPointer,
    session: u32,
    program: &mut ProgramPointer,
    answer: &mut ProgramAnswerPointer,
) -> u32
    ensures null { result ≡ NULL_POINTER ↔ ((book.old.at ≡ null_ptr) ⊎ ((program.old.at ≡ null_ptr) ⊎ (answer.old.at ≡ null_ptr))) }
    ensures ran { result ≡ OK → (before after : BookView) × (book.old.behind.held.book ≡ Some before) × (book.new.behind.held.book ≡ Some after)
        × IsSession before session × IsProgramRun before after session program.old.behind answer.new.behind }
    ensures failed { result ≢ OK → IsSameBook book.old.behind book.new.behind × (answer.new.behind ≡ answer.old.behind) }
    ensures open { book.new.behind.is_open ≡ book.old.behind.is_open }
    ensures closed { result ≢ NULL_POINTER → (result ≡ CLOSED ↔ IsClosed book.old.behind) }
    ensures looks { result ≢ NULL_POINTER → (result ≡ LOOKS ↔ (book.old.behind.is_open ≡ 2)) }
    ensures session { result ≡ NO_SUCH_SESSION → (view : BookView) × (book.old.behind.held.book ≡ Some view) × ¬ (IsSession view session) }
    ensures call { NO_SUCH_OP ≤ result → result ≤ NO_SUCH_MODE → (view : BookView) × (book.old.behind.held.book ≡ Some view) × IsSession view session
        × IsProgramFault program.old.behind result }
    ensures program { NO_SUCH_START ≤ result → result ≤ NO_SUCH_ABOVE → (view : BookView) × (book.old.behind.held.book ≡ Some view) × IsSession view session
        × IsProgramFault program.old.behind result }
    ensures memory { result ≡ NO_MEMORY → (view : BookView) × (book.old.behind.held.book ≡ Some view) × IsSession view session
        × ((asked : Program) × IsProgram program.old.behind asked) }
    ensures statuses { (result ≡ NULL_POINTER) ⊎ ((result ≡ LOOKS) ⊎ ((result ≤ NO_SUCH_MODE) ⊎ ((NO_SUCH_START ≤ result) × (result ≤ NO_SUCH_ABOVE)))) }
{
    behind!(book, program, answer);
    on!(boxed owned by book, alloc => program_calls::run_program(&mut boxed, session, &program, answer))
}
