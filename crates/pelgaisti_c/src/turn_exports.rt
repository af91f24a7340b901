//! The exports of one turn of a session's call or program. How often a thread makes turns, which of them try for the lock table, and how it
//! waits between them is policy, and is the caller's: `bindings/c` has the loops of turns.

ghost use Rattle.std.specs.Prelude.{◌≡◌, ◌≢◌, ◌≤◌, ◌⊎◌, ◌↔◌, ◌==◌, true, length};
ghost use denote.RawPtr.{null_ptr};
ghost use Rattle.lock_programs.specs.Calls.{calls_of};
ghost use Rattle.library_books.specs.Numbers.{IsCallFault};
ghost use Rattle.library_sessions.specs.Offices.{HasDone};
ghost use Rattle.library_sessions.specs.Turns.{IsOfCall, IsOfCalls, IsRunFault, IsFaultNumber, TellsLast, TellsAll, IsMade, IsUntouched, HasMadeTurn, HasMadeLook};

use library_books::pointers::{AnswerPointer, CallPointer, ProgramAnswerPointer, ProgramPointer};
use library_books::status::{
    CLOSED, NO_SUCH_MODE, NO_SUCH_OP, NOTHING_PENDING, NULL_POINTER, PENDING, RETIRED,
};
use library_sessions::pointers::SessionPointer;
use library_sessions::turn_calls;
use std::alloc::Global;

/// Begins a call of a session that has none pending. If `tries` isn't 0, it tries to perform the call at once, within the bound that
/// `pelgaisti_raw_session_bound_passes` has set; NOT_SERVED: another session has the lock table, and nothing has changed. If `tries` is 0, it
/// publishes the call, makes no pass, and returns NOT_SERVED: the call is pending. NO_MEMORY: memory was refused in a pass of the session,
/// and the call is pending. PENDING: the session has a call or program pending. Writes how many sessions the office's waker is to wake after
/// the turn to `told`.
#[unsafe(no_mangle)]
pub extern "C" fn pelgaisti_raw_session_turn(
    alloc: Global,
    session: &mut SessionPointer,
    call: &mut CallPointer,
    tries: u32,
    answer: &mut AnswerPointer,
    told: &mut usize,
) -> u32
    ensures null { result ≡ NULL_POINTER ↔ ((session.old.at ≡ null_ptr) ⊎ ((call.old.at ≡ null_ptr) ⊎ (answer.old.at ≡ null_ptr))) }
    ensures turn { result ≢ NULL_POINTER → result ≢ CLOSED → HasDone session.old.behind session.new.behind (λ before after.
        HasMadeTurn IsOfCall IsCallFault TellsLast before after call.old.behind tries answer.old.behind answer.new.behind told.old told.new result) }
    ensures untouched { (result ≡ NULL_POINTER) ⊎ (result ≡ CLOSED) → IsUntouched session.old.behind.held.share session.new.behind.held.share answer.old.behind answer.new.behind told.old told.new }
    ensures open { session.new.behind.is_open ≡ session.old.behind.is_open }
    ensures closed { result ≢ NULL_POINTER → (result ≡ CLOSED ↔ (session.old.behind.is_open ≢ 1)) }
    ensures statuses { (result ≡ NULL_POINTER) ⊎ ((result ≡ CLOSED) ⊎ (IsMade result ⊎ ((result ≡ RETIRED) ⊎ ((result ≡ PENDING) ⊎ ((NO_SUCH_OP ≤ result) × (result ≤ NO_SUCH_MODE)))))) }
{
    behind!(session, call, answer);
    on!(share held by session, alloc => turn_calls::turn(&mut share, &call, tries, answer, told))
}

/// Makes a turn of the session's pending call: tries to serve first, unless `tries` is 0, and looks for the answer. NOT_SERVED: it isn't
/// there yet. It writes `told` as `pelgaisti_raw_session_turn` does. PENDING: what is pending is a program of several calls, whose answer
/// `pelgaisti_raw_session_run_resume` tells.
#[unsafe(no_mangle)]
pub extern "C" fn pelgaisti_raw_session_resume(
    alloc: Global,
    session: &mut SessionPointer,
    tries: u32,
    answer: &mut AnswerPointer,
    told: &mut usize,
) -> u32
    ensures null { result ≡ NULL_POINTER ↔ ((session.old.at ≡ null_ptr) ⊎ (answer.old.at ≡ null_ptr)) }
    ensures look { result ≢ NULL_POINTER → result ≢ CLOSED → HasDone session.old.behind session.new.behind (λ before after.
        HasMadeLook TellsLast (λ program. length (calls_of program) == 1) before after tries answer.old.behind answer.new.behind told.old told.new result) }
    ensures untouched { (result ≡ NULL_POINTER) ⊎ (result ≡ CLOSED) → IsUntouched session.old.behind.held.share session.new.behind.held.share answer.old.behind answer.new.behind told.old told.new }
    ensures open { session.new.behind.is_open ≡ session.old.behind.is_open }
    ensures closed { result ≢ NULL_POINTER → (result ≡ CLOSED ↔ (session.old.behind.is_open ≢ 1)) }
    ensures statuses { (result ≡ NULL_POINTER) ⊎ ((result ≡ CLOSED) ⊎ (IsMade result ⊎ ((result ≡ NOTHING_PENDING) ⊎ (result ≡ PENDING)))) }
{
    behind!(session, answer);
    on!(share held by session, alloc => turn_calls::look(&mut share, tries, answer, told))
}

/// Begins a program as `pelgaisti_raw_session_turn` begins a call: the program is tried at once, or published as one, and its calls are
/// served one after another, with nobody's call between them, up to the first reply after which it doesn't go on. NOT_SERVED and NO_MEMORY
/// leave the program as that leaves the call, and `told` is written so. Memory that is refused to a later call of the program is told by the
/// answer. PENDING: the session has a call or program pending. A program of no calls is refused with NO_SUCH_OP.
#[unsafe(no_mangle)]
pub extern "C" fn pelgaisti_raw_session_run_turn(
    alloc: Global,
    session: &mut SessionPointer,
    program: &mut ProgramPointer,
    tries: u32,
    answer: &mut ProgramAnswerPointer,
    told: &mut usize,
) -> u32
    ensures null { result ≡ NULL_POINTER ↔ ((session.old.at ≡ null_ptr) ⊎ ((program.old.at ≡ null_ptr) ⊎ (answer.old.at ≡ null_ptr))) }
    ensures turn { result ≢ NULL_POINTER → result ≢ CLOSED → HasDone session.old.behind session.new.behind (λ before after.
        HasMadeTurn IsOfCalls IsRunFault TellsAll before after program.old.behind tries answer.old.behind answer.new.behind told.old told.new result) }
    ensures untouched { (result ≡ NULL_POINTER) ⊎ (result ≡ CLOSED) → IsUntouched session.old.behind.held.share session.new.behind.held.share answer.old.behind answer.new.behind told.old told.new }
    ensures open { session.new.behind.is_open ≡ session.old.behind.is_open }
    ensures closed { result ≢ NULL_POINTER → (result ≡ CLOSED ↔ (session.old.behind.is_open ≢ 1)) }
    ensures statuses { (result ≡ NULL_POINTER) ⊎ ((result ≡ CLOSED) ⊎ (IsMade result ⊎ ((result ≡ RETIRED) ⊎ ((result ≡ PENDING) ⊎ IsFaultNumber result)))) }
{
    behind!(session, program, answer);
    on!(share held by session, alloc => turn_calls::turn(&mut share, &program, tries, answer, told))
}

/// Makes a turn of what the session has pending, as `pelgaisti_raw_session_resume` does, and tells the answer as that of a program: of a
/// pending call it is a program of this one call.
#[unsafe(no_mangle)]
pub extern "C" fn pelgaisti_raw_session_run_resume(
    alloc: Global,
    session: &mut SessionPointer,
    tries: u32,
    answer: &mut ProgramAnswerPointer,
    told: &mut usize,
) -> u32
    ensures null { result ≡ NULL_POINTER ↔ ((session.old.at ≡ null_ptr) ⊎ (answer.old.at ≡ null_ptr)) }
    ensures look { result ≢ NULL_POINTER → result ≢ CLOSED → HasDone session.old.behind session.new.behind (λ before after.
        HasMadeLook TellsAll (λ _. true) before after tries answer.old.behind answer.new.behind told.old told.new result) }
    ensures untouched { (result ≡ NULL_POINTER) ⊎ (result ≡ CLOSED) → IsUntouched session.old.behind.held.share session.new.behind.held.share answer.old.behind answer.new.behind told.old told.new }
    ensures open { session.new.behind.is_open ≡ session.old.behind.is_open }
    ensures closed { result ≢ NULL_POINTER → (result ≡ CLOSED ↔ (session.old.behind.is_open ≢ 1)) }
    ensures statuses { (result ≡ NULL_POINTER) ⊎ ((result ≡ CLOSED) ⊎ (IsMade result ⊎ (result ≡ NOTHING_PENDING))) }
{
    behind!(session, answer);
    on!(share held by session, alloc => turn_calls::look(&mut share, tries, answer, told))
}
