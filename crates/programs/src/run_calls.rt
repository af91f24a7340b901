//! The calls of a program, one after another.

ghost use Rattle.std.specs.Prelude.{◌≡◌, ◌<◌, ◌≤◌, ℕ, false, List, [], length, IfOk, OnErr};
ghost use Rattle.sequential.specs.declared.entry.Entry.{Entry as EntryValue};
ghost use Rattle.programs.specs.Runs.{HasRun};
ghost use Rattle.programs.specs.inner.Running.{HasBegun, IsRunning};

use crate::form::Programmed;
use std::alloc::AllocError as NoMemory;

/// Runs a program of a session: serves its calls, one after another, until the first reply behind which the object doesn't go on.
/// The object tells of these calls afterwards. Fails with `NoMemory` if memory is refused to the first call; the object is unchanged
/// then. If it is refused to a later one, the answer says so, and this call and those behind it are in no history.
#[inline(always)]
pub fn run<O: Programmed>(
    object: &mut O,
    session: u16,
    program: &O::Program,
) -> Result<O::Answer, NoMemory>
    requires some { 1 ≤ session }
    requires within { session ≤ O.sessions object.old }
    ensures done { IfOk result (λ answer. HasRun O.form session program.now (O.history object.old) (O.history object.new) answer) }
    ensures tells { IfOk result (λ _. O.tells_from object.new (length (O.history object.old))) }
    ensures refused { OnErr result (object.new ≡ object.old) }
    ensures legal { O.is_legal (O.history object.new) }
    ensures sessions { O.sessions object.new ≡ O.sessions object.old }
    ensures cut { O.cut object.new ≡ O.cut object.old }
    ensures bound { O.bound object.new ≡ O.bound object.old }
{
    let answer = new_answer(object, program);
    if O::length(program) == 0 {
        object.tell_anew();
        return Ok(answer);
    }
    let call = O::call(program, 0);
    let reply = object.serve(session, call)?;
    Ok(serve_others(object, session, program, answer, reply))
}

/// Like `run`, but goes on telling: if the object told of the calls from some place on, it tells of those and of the program's.
pub(crate) fn run_on<O: Programmed>(
    object: &mut O,
    session: u16,
    program: &O::Program,
) -> Result<O::Answer, NoMemory>
    requires some { 1 ≤ session }
    requires within { session ≤ O.sessions object.old }
    ensures done { IfOk result (λ answer. HasRun O.form session program.now (O.history object.old) (O.history object.new) answer) }
    ensures tells { IfOk result (λ _. (from : ℕ) → from ≤ length (O.history object.old) → O.tells_from object.old from → O.tells_from object.new from) }
    ensures refused { OnErr result (object.new ≡ object.old) }
    ensures legal { O.is_legal (O.history object.new) }
    ensures sessions { O.sessions object.new ≡ O.sessions object.old }
    ensures cut { O.cut object.new ≡ O.cut object.old }
    ensures bound { O.bound object.new ≡ O.bound object.old }
{
    let answer = new_answer(object, program);
    if O::length(program) == 0 {
        return Ok(answer);
    }
    let call = O::call(program, 0);
    let reply = object.serve_on(session, call)?;
    Ok(serve_others(object, session, program, answer, reply))
}

/// The answer to a program of which no call is served yet.
#[inline(always)]
fn new_answer<O: Programmed>(object: &O, program: &O::Program) -> O::Answer
    ensures first { (O.form).first result ≡ length (O.history object.now) }
    ensures none { (O.form).replies program.now result ≡ [] }
    ensures refused { (O.form).refused result ≡ false }
    ensures legal { O.is_legal (O.history object.now) }
{
    let first = object.served();
    O::none_served(program, first)
}

/// Completes the answer to a program whose first call was served with this reply: serves the other calls, and goes on telling. A
/// program of one call has none, and gets its answer without a loop.
#[inline(always)]
fn serve_others<O: Programmed>(
    object: &mut O,
    session: u16,
    program: &O::Program,
    mut answer: O::Answer,
    reply: O::Reply,
) -> O::Answer
    requires some { 1 ≤ session }
    requires within { session ≤ O.sessions object.old }
    requires begun { (before : List (EntryValue O.Call O.Reply)) × HasBegun O.form session program.now before (O.history object.old) answer reply }
    ensures done { (before : List (EntryValue O.Call O.Reply)) → HasBegun O.form session program.now before (O.history object.old) answer reply
        → HasRun O.form session program.now before (O.history object.new) result }
    ensures tells { (from : ℕ) → from ≤ length (O.history object.old) → O.tells_from object.old from → O.tells_from object.new from }
    ensures legal { O.is_legal (O.history object.new) }
    ensures sessions { O.sessions object.new ≡ O.sessions object.old }
    ensures cut { O.cut object.new ≡ O.cut object.old }
    ensures bound { O.bound object.new ≡ O.bound object.old }
{
    // the history is legal, so the reply fits its call
    let _served = object.served();
    O::append(&mut answer, program, reply);
    if !O::goes_on(&reply) {
        return answer;
    }
    if O::length(program) == 1 {
        return answer;
    }
    serve_from_second(object, session, program, answer)
}

/// Completes the answer to a program that goes on behind its first call: serves the others, and goes on telling.
// Out of line, so that a program of one call is quick.
#[inline(never)]
fn serve_from_second<O: Programmed>(
    object: &mut O,
    session: u16,
    program: &O::Program,
    mut answer: O::Answer,
) -> O::Answer
    requires some { 1 ≤ session }
    requires within { session ≤ O.sessions object.old }
    requires running { (before : List (EntryValue O.Call O.Reply)) × IsRunning O.form session program.now before (O.history object.old) answer 1 }
    requires more { 1 < length ((O.form).calls program.now) }
    requires legal { O.is_legal (O.history object.old) }
    ensures done { (before : List (EntryValue O.Call O.Reply)) → IsRunning O.form session program.now before (O.history object.old) answer 1
        → HasRun O.form session program.now before (O.history object.new) result }
    ensures tells { (from : ℕ) → from ≤ length (O.history object.old) → O.tells_from object.old from → O.tells_from object.new from }
    ensures legal { O.is_legal (O.history object.new) }
    ensures sessions { O.sessions object.new ≡ O.sessions object.old }
    ensures cut { O.cut object.new ≡ O.cut object.old }
    ensures bound { O.bound object.new ≡ O.bound object.old }
{
    let calls = O::length(program);
    for at in 1..calls {
        let call = O::call(program, at);
        let Ok(next) = object.serve_on(session, call) else {
            O::refuse(&mut answer);
            return answer;
        };
        // the history is legal, so the reply fits its call
        let _served = object.served();
        O::append(&mut answer, program, next);
        if !O::goes_on(&next) {
            return answer;
        }
    }
    answer
}
