//! Programs and their answers in numbers: reading them from C's structs, and writing them there.

ghost use Rattle.std.specs.Prelude.{◌≡◌, ◌≤◌, ◌↔◌, ◌⊎◌, ℕ, List, [], ◌∷◌, ◌++◌, Some, IfOk, IfErr, length};
ghost use Rattle.lock_rules.specs.declared.calls.Call.{Call as CallValue};
ghost use Rattle.lock_programs.specs.declared.program.Start.{Start as StartValue};
ghost use Rattle.lock_programs.specs.Answers.{replies_of};
ghost use Rattle.lock_programs.specs.Starts.{start_calls, last_call};
ghost use Rattle.lock_programs.specs.Calls.{calls_of};
ghost use Rattle.library_books.specs.Calls.{are_written};
ghost use Rattle.library_books.specs.Numbers.{IsModeCode};
ghost use Rattle.library_books.specs.Programs.{number_of_start, stop_number, stop_of, IsOnPath, IsPathTo, IsProgram, IsProgramFault, numbers_of_answer, value_of_reply};

use crate::numbers::{CallNumbers, read_call, read_mode, reply_numbers};
use crate::status::{NO_SUCH_ABOVE, NO_SUCH_OP, NO_SUCH_START, NOT_ON_PATH};
use lock_modes::Mode;
use lock_programs::{CALLS, Last, Program, ProgramAnswer, Start, goes_on_behind};
use lock_rules::{Call, Reply};
use lock_tree::Resource;

/// The op of the last call of a program that has none: what `start` says is all that it does.
pub const NO_CALL: u32 = 0;

/// A program: what `start` says, then a lock in the mode `above` on each ancestor of the last call's resource below the first `level`,
/// which are locked already, and then the last call. `level` and `above` matter only if the last call has a resource.
#[repr(C)]
#[derive(Clone, Copy)]
pub struct ProgramNumbers {
    pub start: u32,
    pub level: u32,
    pub above: u32,
    pub last: CallNumbers,
}

/// The answer to a program: the index of the first call's entry in the history, the number of calls served, 1 if memory was refused
/// to the next one and otherwise 0, the kind of the reply at which the program stopped and otherwise 0, and the value of each reply, with
/// zeros behind those that there are. The kinds of the other replies follow from the program's calls.
#[repr(C)]
#[derive(Clone, Copy)]
pub struct ProgramAnswerNumbers {
    pub place: u64,
    pub served: u32,
    pub starved: u32,
    pub stop: u32,
    pub values: [u64; CALLS],
}

/// What the number says that a program does first. Returns `None` if it says nothing.
#[inline(always)]
fn read_start(number: u32) -> Option<Start>
    ensures { (start : StartValue) → (result ≡ Some start) ↔ (number ≡ number_of_start start) }
{
    match number {
        0 => Some(Start::Nothing),
        1 => Some(Start::Begins),
        2 => Some(Start::Commits),
        3 => Some(Start::Aborts),
        4 => Some(Start::CommitsAndBegins),
        5 => Some(Start::AbortsAndBegins),
        6 => Some(Start::Restarts),
        _ => None,
    }
}

/// The program whose path leads to `resource`, with this call at its end.
#[inline(always)]
fn read_path(
    asked: &ProgramNumbers,
    start: Start,
    resource: &Resource,
    last: Last,
) -> Result<Program, u32>
    ensures ok { IfOk result (λ program. (path : List CallValue) × IsPathTo asked.now resource.now last path × (calls_of program ≡ start_calls start ++ path)) }
    ensures err { IfErr result (λ fault. ((fault ≡ NOT_ON_PATH) × ¬ (IsOnPath asked.now.level resource.now))
        ⊎ ((fault ≡ NO_SUCH_ABOVE) × IsOnPath asked.now.level resource.now × ¬ (IsModeCode asked.now.above))) }
{
    if asked.level >= u32::from(resource.level()) {
        return Err(NOT_ON_PATH);
    }
    let Some(above) = read_mode(asked.above) else {
        return Err(NO_SUCH_ABOVE);
    };
    Ok(Program::path(start, resource, asked.level as u8 + 1, above, last))
}

/// The program of one call that names no resource, behind what `start` says.
fn read_plain(start: Start, last: Last) -> Program
    ensures { (r : List ℕ) × (calls_of result ≡ start_calls start ++ last_call last r ∷ []) }
{
    match Resource::from_numbers(&[0]) {
        Some(resource) => Program::path(start, &resource, resource.level(), Mode::NL, last),
        None => unreachable!(),
    }
}

/// The program that the numbers encode. Tests `start`, then the last call as `read_call` does, then `level`, then `above`, and returns
/// the status of the first test that fails.
#[inline(always)]
pub fn read_program(asked: &ProgramNumbers) -> Result<Program, u32>
    ensures ok { IfOk result (λ program. IsProgram asked.now program) }
    ensures err { IfErr result (λ fault. IsProgramFault asked.now fault) }
{
    let Some(start) = read_start(asked.start) else {
        return Err(NO_SUCH_START);
    };
    if asked.last.op == NO_CALL {
        return Ok(Program::start(start));
    }
    let call = match read_call(&asked.last) {
        Ok(call) => call,
        Err(fault) => return Err(fault),
    };
    match call {
        Call::Lock(resource, mode) => read_path(asked, start, &resource, Last::Locks(mode)),
        Call::Convert(resource, mode) => read_path(asked, start, &resource, Last::Converts(mode)),
        Call::Try(resource, mode) => read_path(asked, start, &resource, Last::Tries(mode)),
        Call::Release(resource) => read_path(asked, start, &resource, Last::Releases),
        Call::Poll => Ok(read_plain(start, Last::Polls)),
        Call::Withdraw => Ok(read_plain(start, Last::Withdraws)),
        Call::Begin | Call::Commit | Call::Abort | Call::Restart => Err(NO_SUCH_OP),
    }
}

/// The kind of the reply if a program stops at it, otherwise 0.
#[inline(always)]
fn stop_number(reply: &Reply) -> u32
    ensures { result ≡ stop_number reply.now }
{
    if goes_on_behind(reply) {
        return 0;
    }
    reply.kind().number()
}

/// The kind of the last of an answer's `served` replies if the program stopped at it, otherwise 0.
#[inline(always)]
fn stop_of(program: &Program, answer: &ProgramAnswer, served: usize) -> u32
    requires { served ≡ length (replies_of program.now answer.now) }
    ensures { result ≡ stop_of (replies_of program.now answer.now) }
{
    if served == 0 {
        return 0;
    }
    stop_number(&answer.reply(program, served - 1))
}

/// Writes the values of an answer's `served` replies, from the first place on.
#[inline(always)]
fn write_values(program: &Program, answer: &ProgramAnswer, served: usize, places: &mut [u64])
    requires served { served ≡ length (replies_of program.now answer.now) }
    requires few { served ≤ CALLS }
    requires places { length places.old ≡ CALLS }
    ensures { places.new ≡ are_written value_of_reply (replies_of program.now answer.now) places.old }
{
    for k in 0..served {
        places[k] = reply_numbers(answer.reply(program, k)).value;
    }
}

/// Writes the numbers of the answer to a program.
#[inline(always)]
pub fn write_answer(program: &Program, answer: &ProgramAnswer, numbers: &mut ProgramAnswerNumbers)
    ensures { numbers.new ≡ numbers_of_answer program.now answer.now }
{
    let served = answer.served(program);
    numbers.place = answer.first();
    numbers.served = served as u32;
    numbers.starved = u32::from(answer.is_refused());
    numbers.stop = stop_of(program, answer, served);
    numbers.values = [0; CALLS];
    write_values(program, answer, served, &mut numbers.values);
}
