//! One turn of what a session asks by numbers, a call or a program, on the share that a handle holds. A call is a program of one call.

ghost use Rattle.std.specs.Prelude.{◌≡◌, ◌≢◌, ℕ, ◌<◌, ◌⊎◌, ◌==◌, Bool, true, false, None, IfOk, IfErr, length, is_some};
ghost use Rattle.programs.specs.Flat.{IsAnswer};
ghost use Rattle.lock_programs.specs.declared.program.Program.{Program as ProgramValue};
ghost use Rattle.lock_programs.specs.declared.answer.ProgramAnswer.{ProgramAnswer as AnswerValue};
ghost use Rattle.lock_programs.specs.Calls.{calls_of};
ghost use Rattle.lock_programs.specs.Answers.{program_form};
ghost use Rattle.combining.specs.declared.office.Answer.{Answer as AnswerOf};
ghost use Rattle.lock_office.specs.Sessions.{IsIdle};
ghost use Rattle.library_books.specs.Numbers.{IsCallFault};
ghost use Rattle.library_sessions.specs.Turns.{IsOfCall, IsOfCalls, IsRunFault, IsFaultNumber, TellsLast, TellsAll, IsMade, HasBegun, HasResumed, HasMadeTurn, HasMadeLook, IsRefused};

use crate::session_share::SessionShare;
use combining::{CallOutcome, Listener};
use library_books::numbers::{AnswerNumbers, CallNumbers, read_call, reply_numbers};
use library_books::program_numbers::{
    ProgramAnswerNumbers, ProgramNumbers, read_program, write_answer,
};
use library_books::status::{
    NO_MEMORY, NO_SUCH_OP, NOT_SERVED, NOTHING_PENDING, OK, PENDING, RETIRED,
};
use lock_desk::Book;
use lock_office::last_of;
use lock_programs::{Program, ProgramAnswer};
use programs::Programs;

/// How a turn of what is pending is asked for neither to try for the lock table nor to look for the answer: it tells that something is.
pub const NEITHER: u32 = 2;

/// Numbers that ask something of a session.
pub trait Asks {
    // What they ask, and the status if it is nothing.
    ghost is_asked: { Self → ProgramValue → Type 0 };

    ghost is_fault: { Self → ℕ → Type 0 };

    /// The program that the numbers encode, which makes a call. Else the status of the first test that fails.
    fn program(&self) -> Result<Program, u32>
        ensures ok { IfOk result (λ program. is_asked self.now program × (0 < length (calls_of program))) }
        ensures err { IfErr result (λ fault. is_fault self.now fault × IsFaultNumber fault) };
}

impl Asks for CallNumbers {
    ghost is_asked = { IsOfCall };

    ghost is_fault = { IsCallFault };

    #[inline(always)]
    fn program(&self) -> Result<Program, u32> {
        let call = read_call(self)?;
        Ok(Program::one(call))
    }
}

impl Asks for ProgramNumbers {
    ghost is_asked = { IsOfCalls };

    ghost is_fault = { IsRunFault };

    /// A program of no calls fails the test of its last call.
    #[inline(always)]
    fn program(&self) -> Result<Program, u32> {
        let program = read_program(self)?;
        if program.length() == 0 {
            return Err(NO_SUCH_OP);
        }
        Ok(program)
    }
}

/// Numbers that tell the answer to a program.
pub trait Tells {
    // What they tell, and of which programs it is the whole answer.
    ghost tells: { ProgramValue → AnswerValue → Self → Type 0 };

    ghost whole: { ProgramValue → Bool };

    /// Whether the numbers tell the whole answer to the program.
    fn is_whole(program: &Program) -> bool
        ensures { result ≡ whole program.now };

    /// Writes the answer.
    fn tell(&mut self, program: &Program, answer: &ProgramAnswer)
        requires some { 0 < length (calls_of program.now) }
        requires fits { IsAnswer program_form program.now answer.now }
        ensures { tells program.now answer.now self.new };
}

impl Tells for AnswerNumbers {
    ghost tells = { TellsLast };

    ghost whole = { λ program. length (calls_of program) == 1 };

    #[inline(always)]
    fn is_whole(program: &Program) -> bool {
        program.length() == 1
    }

    #[inline(always)]
    fn tell(&mut self, program: &Program, answer: &ProgramAnswer) {
        let last = last_of(program, answer);
        *self = AnswerNumbers {
            place: last.place,
            reply: reply_numbers(last.reply),
        };
    }
}

impl Tells for ProgramAnswerNumbers {
    ghost tells = { TellsAll };

    ghost whole = { λ program. true };

    #[inline(always)]
    fn is_whole(_program: &Program) -> bool {
        true
    }

    #[inline(always)]
    fn tell(&mut self, program: &Program, answer: &ProgramAnswer) {
        write_answer(program, answer, self);
    }
}

/// Writes the answer to the program in numbers, if there is one. Returns the status.
#[inline(always)]
fn write_next<A: Tells>(next: CallOutcome<ProgramAnswer>, program: &Program, answer: &mut A) -> u32
    requires { (found : _) → next ≡ CallOutcome.Answered found → (0 < length (calls_of program.now)) × IsAnswer program_form program.now found.reply }
    ensures ok { result ≡ OK → (found : AnswerOf AnswerValue) × (next ≡ CallOutcome.Answered found) × A.tells program.now found.reply answer.new }
    ensures memory { result ≡ NO_MEMORY → next ≡ CallOutcome.Starved }
    ensures waits { result ≡ NOT_SERVED → next ≡ CallOutcome.Wait }
    ensures failed { result ≢ OK → answer.new ≡ answer.old }
    ensures statuses { IsMade result }
{
    match next {
        CallOutcome::Answered(found) => {
            answer.tell(program, &found.reply);
            OK
        }
        CallOutcome::Starved => NO_MEMORY,
        CallOutcome::Wait => NOT_SERVED,
    }
}

/// Begins a program of an idle session: tries to perform it at once, as `Session::run_attempt` does; or, if `tries` is 0, publishes it and
/// makes no pass. Writes the answer, and to `told` how many sessions are to be woken, which the share lists.
#[inline(always)]
fn begin<A: Tells>(
    share: &mut SessionShare,
    program: &Program,
    tries: u32,
    answer: &mut A,
    told: &mut usize,
) -> u32
    requires free { is_some share.old.looking ≡ false }
    requires idle { IsIdle share.old.session }
    requires some { 0 < length (calls_of program.now) }
    ensures free { is_some share.new.looking ≡ false }
    ensures begun { HasBegun A.tells share.old share.new program.now tries answer.old answer.new told.new result }
{
    Listener::<Programs<Book>>::clear(&mut share.told);
    if tries == 0 {
        share
            .session
            .publish_program_if_idle(&share.office, *program);
        *told = 0;
        return NOT_SERVED;
    }
    let next = share
        .session
        .run_attempt(&share.office, program, share.bound, &mut share.told);
    *told = share.told.listener.count();
    write_next(next, program, answer)
}

/// Makes one turn of the session's pending program, as `Session::run_look` does: it tries to serve first, unless `tries` is 0. It writes as
/// `begin` does.
fn resume<A: Tells>(share: &mut SessionShare, tries: u32, answer: &mut A, told: &mut usize) -> u32
    requires free { is_some share.old.looking ≡ false }
    requires pending { share.old.session.pending ≢ None }
    ensures free { is_some share.new.looking ≡ false }
    ensures resumed { HasResumed A.tells share.old share.new tries answer.old answer.new told.new result }
{
    Listener::<Programs<Book>>::clear(&mut share.told);
    let asked = share.session.pending_program();
    let next = share
        .session
        .run_look(&share.office, tries != 0, share.bound, &mut share.told);
    *told = share.told.listener.count();
    write_next(next, &asked, answer)
}

/// The program that the numbers encode, if the session may begin it: it is idle then. Else why it may not.
#[inline(always)]
fn program_of<Q: Asks>(share: &SessionShare, asked: &Q) -> Result<Program, u32>
    ensures asked { IfOk result (λ program. Q.is_asked asked.now program × (0 < length (calls_of program))) }
    ensures idle { IfOk result (λ _. IsIdle share.now.session) }
    ensures refused { IfErr result (λ status. IsRefused Q.is_asked Q.is_fault share.now.session asked.now status) }
    ensures statuses { IfErr result (λ status. (status ≡ RETIRED) ⊎ ((status ≡ PENDING) ⊎ IsFaultNumber status)) }
{
    let program = asked.program()?;
    if share.session.is_retired() {
        return Err(RETIRED);
    }
    if !share.session.is_idle() {
        return Err(PENDING);
    }
    Ok(program)
}

/// Begins what the numbers ask, as `begin` does. A session that has something pending is refused.
pub fn turn<Q: Asks, A: Tells>(
    share: &mut SessionShare,
    asked: &Q,
    tries: u32,
    answer: &mut A,
    told: &mut usize,
) -> u32
    requires free { is_some share.old.looking ≡ false }
    ensures free { is_some share.new.looking ≡ false }
    ensures turn { HasMadeTurn Q.is_asked Q.is_fault A.tells share.old share.new asked.now tries answer.old answer.new told.old told.new result }
    ensures statuses { IsMade result ⊎ ((result ≡ RETIRED) ⊎ ((result ≡ PENDING) ⊎ IsFaultNumber result)) }
{
    let program = match program_of(share, asked) {
        Ok(program) => program,
        Err(status) => return status,
    };
    begin(share, &program, tries, answer, told)
}

/// Makes one turn of what the session has pending, as `resume` does, or with `NEITHER` tells that something is pending. A pending program is
/// refused if the numbers don't tell the whole answer to it.
pub fn look<A: Tells>(share: &mut SessionShare, tries: u32, answer: &mut A, told: &mut usize) -> u32
    requires free { is_some share.old.looking ≡ false }
    ensures free { is_some share.new.looking ≡ false }
    ensures look { HasMadeLook A.tells A.whole share.old share.new tries answer.old answer.new told.old told.new result }
    ensures statuses { IsMade result ⊎ ((result ≡ NOTHING_PENDING) ⊎ (result ≡ PENDING)) }
{
    if share.session.is_idle() || share.session.is_retired() {
        return NOTHING_PENDING;
    }
    let asked = share.session.pending_program();
    if !A::is_whole(&asked) {
        return PENDING;
    }
    if tries == NEITHER {
        return NOT_SERVED;
    }
    resume(share, tries, answer, told)
}
