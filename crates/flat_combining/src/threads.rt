//! Threads that share a machine, each with a session of its own.

ghost use Rattle.std.specs.Prelude.{List, IfOk, All};
ghost use Rattle.publication.specs.Views.{TicketView};
ghost use Rattle.combining.specs.Sessions.{IsSessionOf, IsIdle};
ghost use Rattle.combining.specs.Closed.{IsClosed};

use crate::calling::apply;
use crate::machine::Machine;
use crate::of::Shared;
use combining::{Office, Session};
use sequential::Sequential;
use std::alloc::{AllocError as NoMemory, Global};
use std::thread;
use std::thread::Threads;

/// What a thread does: which calls it makes, one after another.
pub trait Caller<M: Machine>: Drop {
    /// The next call, which may depend on the reply to the last one (`None` at first). `None` ends the thread.
    fn next(&mut self, last: Option<M::Reply>) -> Option<M::Call>;
}

/// Makes the calls of the session's caller, until it has none or memory is refused for one.
fn make_calls<M: Machine, C: Caller<M>, F: Fn(u16) -> C>(
    office: &Office<Shared<M>>,
    session: Session<Shared<M>>,
    start: &F,
) -> (Session<Shared<M>>, C)
    requires ours { IsSessionOf office.now session × IsIdle session }
    requires callable { F.IsAlwaysCallable start.now }
    ensures ours { IsSessionOf office.now result.0 }
{
    let mut caller = start(session.number());
    let mut session = session;
    let mut last = None;
    for _made in 0..u64::MAX {
        let Some(call) = caller.next(last) else {
            break;
        };
        let Ok(reply) = apply(office, &mut session, call) else {
            break;
        };
        last = Some(reply);
    }
    (session, caller)
}

/// Has a thread for each session make its caller's calls, and returns the sessions and the callers, in order, when all have ended.
fn make_all<R: Threads + Sync, M: Machine + Send, C: Caller<M> + Send, F: Fn(u16) -> C + Sync>(
    rt: &R,
    alloc: Global,
    office: &Office<Shared<M>>,
    sessions: Vec<Session<Shared<M>>>,
    start: &F,
) -> Result<(Vec<Session<Shared<M>>>, Vec<C>), NoMemory>
where
    M::Call: Send,
    M::Reply: Send,
    requires ours { All (λ session. IsSessionOf office.now session × IsIdle session) sessions.items }
    requires callable { F.IsAlwaysCallable start.now }
    ensures ours { IfOk result (λ parts. All (IsSessionOf office.now) parts.0.items) }
{
    let all = thread::map_vec(
        rt,
        sessions,
        &|session: Session<Shared<M>>| { make_calls(office, session, start) },
    )?;
    let mut back = Vec::new(alloc);
    let mut callers = Vec::new(alloc);
    for worked in all {
        let (session, caller) = worked;
        back.push(session)?;
        callers.push(caller)?;
    }
    Ok((back, callers))
}

/// Shares a machine among threads, one for each of these sessions, until none has a call. The thread of session `number` makes the calls
/// of `start(number)`. Returns the object and the callers as they are then.
///
/// Fails with `NoMemory` if memory was refused, to a pass too, a thread couldn't be started, or a session of the office isn't there.
pub fn run<R: Threads + Sync, M: Machine + Send, C: Caller<M> + Send, F: Fn(u16) -> C + Sync>(
    rt: &R,
    alloc: Global,
    office: Office<Shared<M>>,
    sessions: Vec<Session<Shared<M>>>,
    start: &F,
) -> Result<(Shared<M>, Vec<C>), NoMemory>
where
    M::Call: Send,
    M::Reply: Send,
    requires ready { All (λ session. IsSessionOf office session × IsIdle session) sessions.items }
    requires callable { F.IsAlwaysCallable start.now }
    ensures closed { IfOk result (λ made. (sessions : List (TicketView M.Call M.Reply)) × IsClosed ⟦<Shared<M> as Sequential>⟧ office sessions made.0) }
{
    let (sessions, callers) = make_all(rt, alloc, &office, sessions, start)?;
    match office.close(sessions) {
        Ok(object) => Ok((object, callers)),
        Err(_) => Err(NoMemory),
    }
}
