//! A call of a machine, made to its end.

ghost use Rattle.std.specs.Prelude.{◌≡◌, ◌≢◌, ℕ, Some, None, IfOk, IfErr, length};
ghost use Rattle.publication.specs.Views.{asks};
ghost use Rattle.combining.specs.Sessions.{IsSessionOf, IsIdle};
ghost use Rattle.combining.specs.Calls.{IsCalling, IsWaitingOn};
ghost use Rattle.flat_combining.specs.Applied.{HasReply};

use crate::machine::Machine;
use crate::of::Shared;
use combining::{CallOutcome, Nobody, Office, Session, UNBOUNDED};
use std::alloc::AllocError as NoMemory;

/// Makes a call of an idle session and waits for its reply, as long as it takes. Whoever has the machine meanwhile serves the published
/// calls of all sessions.
///
/// Fails with `NoMemory` if memory was refused in a pass of the session, or after 2^64 turns. The call is published then, and `finish`
/// goes on with it.
pub fn apply<M: Machine>(
    office: &Office<Shared<M>>,
    session: &mut Session<Shared<M>>,
    call: M::Call,
) -> Result<M::Reply, NoMemory>
    requires ours { IsSessionOf office.now session.old }
    requires idle { IsIdle session.old }
    ensures ours { IsSessionOf office.now session.new }
    ensures reply { IfOk result (λ reply. HasReply M.Machine session.old session.new call (length session.old.front) reply) }
    ensures idle { IfOk result (λ _. IsIdle session.new) }
    ensures pending { IfErr result (λ _. IsCalling session.old session.new call) }
{
    match combining::call(office, session, call, u64::MAX, UNBOUNDED, &mut Nobody) {
        CallOutcome::Answered(answer) => Ok(answer.reply),
        CallOutcome::Starved | CallOutcome::Wait => Err(NoMemory),
    }
}

/// Goes on with the pending call of a session, as `apply` does. After a failure it may be tried again.
pub fn finish<M: Machine>(
    office: &Office<Shared<M>>,
    session: &mut Session<Shared<M>>,
) -> Result<M::Reply, NoMemory>
    requires ours { IsSessionOf office.now session.old }
    requires pending { session.old.pending ≢ None }
    ensures ours { IsSessionOf office.now session.new }
    ensures reply { IfOk result (λ reply. (call : M.Call) × (floor : ℕ) × (session.old.pending ≡ Some (asks call floor))
        × HasReply M.Machine session.old session.new call floor reply) }
    ensures idle { IfOk result (λ _. IsIdle session.new) }
    ensures waits { IfErr result (λ _. IsWaitingOn session.old session.new) }
{
    match combining::resume(office, session, u64::MAX, UNBOUNDED, &mut Nobody) {
        CallOutcome::Answered(answer) => Ok(answer.reply),
        CallOutcome::Starved | CallOutcome::Wait => Err(NoMemory),
    }
}
