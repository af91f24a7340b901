//! A program of calls on a book.

ghost use Rattle.std.specs.Prelude.{◌≡◌, ◌≢◌, ◌≤◌, ◌⊎◌, IfOk, OnErr};
ghost use Rattle.lock_programs.specs.declared.program.Program.{Program as ProgramValue};
ghost use Rattle.library_books.specs.Calls.{IsSession};
ghost use Rattle.library_books.specs.Programs.{HasRun, IsProgram, IsProgramFault, IsProgramRun};

use crate::book_calls::session_of;
use crate::program_numbers::{ProgramAnswerNumbers, ProgramNumbers, read_program, write_answer};
use crate::status::{
    NO_MEMORY, NO_SUCH_ABOVE, NO_SUCH_MODE, NO_SUCH_OP, NO_SUCH_SESSION, NO_SUCH_START, OK,
};
use lock_desk::{Book, NoMemory};
use lock_programs::{Program, ProgramAnswer};

/// Runs a program, as `programs::run` does. The book tells whose wait its calls have ended.
fn run(book: &mut Book, session: u16, program: &Program) -> Result<ProgramAnswer, NoMemory>
    requires some { 1 ≤ session }
    requires within { session ≤ book.old.sessions }
    ensures done { IfOk result (λ answer. HasRun book.old book.new session program.now answer) }
    ensures refused { OnErr result (book.new ≡ book.old) }
{
    let answer = programs::run(book, session, program)?;
    Ok(answer)
}

/// Runs the program that the numbers encode, and writes the answer. The book tells whose wait its calls have ended.
pub fn run_program(
    book: &mut Book,
    session: u32,
    asked: &ProgramNumbers,
    answer: &mut ProgramAnswerNumbers,
) -> u32
    ensures ran { result ≡ OK → IsSession book.old session × IsProgramRun book.old book.new session asked.now answer.new }
    ensures failed { result ≢ OK → (book.new ≡ book.old) × (answer.new ≡ answer.old) }
    ensures session { result ≡ NO_SUCH_SESSION → ¬ (IsSession book.old session) }
    ensures call { NO_SUCH_OP ≤ result → result ≤ NO_SUCH_MODE → IsSession book.old session × IsProgramFault asked.now result }
    ensures program { NO_SUCH_START ≤ result → IsSession book.old session × IsProgramFault asked.now result }
    ensures memory { result ≡ NO_MEMORY → IsSession book.old session × ((program : ProgramValue) × IsProgram asked.now program) }
    ensures statuses { (result ≤ NO_MEMORY) ⊎ (((NO_SUCH_SESSION ≤ result) × (result ≤ NO_SUCH_MODE)) ⊎ ((NO_SUCH_START ≤ result) × (result ≤ NO_SUCH_ABOVE))) }
{
    let Some(number) = session_of(book, session) else {
        return NO_SUCH_SESSION;
    };
    let program = match read_program(asked) {
        Ok(program) => program,
        Err(fault) => return fault,
    };
    let Ok(made) = run(book, number, &program) else {
        return NO_MEMORY;
    };
    write_answer(&program, &made, answer);
    OK
}
