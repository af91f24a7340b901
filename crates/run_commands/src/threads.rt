//! The threads of a run: one for each session that has a row.

ghost use Rattle.std.specs.Prelude.{◌≡◌, ◌⊎◌, ◌≤◌, ◌++◌, ◌∷◌, [], ℕ, false, Some, None, List, IfOk, IfErr, IfSome, OnOk, length, map, vec_len, All};
ghost use Rattle.std.specs.Bool.{OnFalse};
ghost use Rattle.lock_office.specs.Sessions.{IsSessionOf, IsIdle};
ghost use Rattle.run_commands.specs.Calls.{calls_of_rows};
ghost use Rattle.run_commands.specs.Workers.{IsNewSession, IsPerformed, IsWorkOf, IsStart, number_of_start, numbers_of, numbers_of_starts, first_of_stops};

use crate::call_gate::Gate;
use crate::workers::{Stop, work_through};
use lock_office::{Office, Session, Ticket};
use lock_trace::TraceRow;
use std::alloc::Global;
use std::sync::Wait;
use std::sync::atomic::{AtomicUsize, Ordering};
use std::thread;
use std::thread::{Promise, PromisedHandle, Scope, Threads};

/// What the threads of a run perform, and how.
#[derive(Clone, Copy)]
pub(crate) struct Run<'s, G> {
    /// The office that their calls go through.
    pub office: &'s Office,
    /// The rows of all sessions.
    pub rows: &'s [TraceRow],
    /// In how many turns a call is made at most.
    pub turns: u64,
    /// The gate round each call.
    pub gate: &'s G,
}

/// The result of a session's thread.
#[derive(Drop)]
pub(crate) struct ThreadResult {
    /// The session, which the thread gives back.
    pub session: Ticket,
    /// Why the thread stopped before its last row, or `None` if it performed all rows.
    pub stop: Option<Stop>,
}

/// The promise of a thread: its session performed its rows, unless the result has a reason to stop.
#[derive(Clone, Copy)]
pub(crate) struct Performs<'a> {
    /// The office of the session.
    office: &'a Office,
    /// The session's number.
    number: u16,
    /// The rows of all sessions.
    rows: &'a [TraceRow],
}

impl<'a> Promise<ThreadResult> for Performs<'a> {
    ghost use Rattle.run_commands.specs.Workers.{IsWorkOf};

    ghost kept_by = { λ p worked. IsWorkOf p.office.now p.number p.rows.now worked };
}

/// A started session: its thread, or the session itself if it has no row.
#[derive(Drop)]
pub(crate) enum Started<'a> {
    /// The thread that performs the session's rows.
    Thread(PromisedHandle<ThreadResult, Performs<'a>>),
    /// A session without a row, which needs no thread.
    Idle(Ticket),
}

/// The body of a session's thread: performs the session's rows, and counts the thread off at its end.
#[tactic(auto, using(crate::proofs::IsPerformed::performed_known))]
fn work<G: Gate>(
    office: &Office,
    session: Ticket,
    rows: &[TraceRow],
    turns: u64,
    gate: &G,
    at_work: &AtomicUsize,
) -> ThreadResult
    requires { IsNewSession office.now session }
    ensures { IsWorkOf office.now session.number rows.now result }
{
    let number = session.number();
    let mut session = Session::new(session, 0);
    let performed = work_through(office, &mut session, number, rows, turns, gate);
    let session = session.into_session();
    at_work.fetch_sub(1, Ordering::SeqCst);
    match performed {
        Ok(()) => ThreadResult {
            session,
            stop: None,
        },
        Err(stop) => ThreadResult {
            session,
            stop: Some(stop),
        },
    }
}

/// Whether session `number` has a row.
fn has_row(rows: &[TraceRow], number: u16) -> bool
    ensures { OnFalse result (calls_of_rows number rows.now ≡ []) }
{
    for row in rows {
        if row.session == number {
            return true;
        }
    }
    false
}

/// Starts the thread of a session, if the session has a row, and counts it among those at work. Returns `None` if the thread
/// couldn't be started.
#[tactic(auto, using(crate::proofs::IsPerformed::performed_none))]
fn start_session<'s, E, G: Gate>(
    scope: &Scope<'s, E>,
    session: Ticket,
    run: &Run<'s, G>,
    at_work: &'s AtomicUsize,
) -> Option<Started<'s>>
    requires { IsNewSession run.now.office.now session }
    ensures start { IfSome result (IsStart run.now.office.now run.now.rows.now) }
    ensures number { IfSome result (λ started. number_of_start started ≡ session.number) }
{
    let office = run.office;
    let rows = run.rows;
    let turns = run.turns;
    let gate = run.gate;
    let number = session.number();
    if !has_row(rows, number) {
        return Some(Started::Idle(session));
    }
    let promise = Performs {
        office,
        number,
        rows,
    };
    let worked = move || -> ThreadResult
        requires { IsNewSession office.now session }
    { work(office, session, rows, turns, gate, at_work) };
    at_work.fetch_add(1, Ordering::SeqCst);
    match scope.spawn_with(promise, worked) {
        Ok(handle) => Some(Started::Thread(handle)),
        Err(_) => {
            at_work.fetch_sub(1, Ordering::SeqCst);
            None
        }
    }
}

/// Starts one thread for each session with a row. If one can't be started, returns the reason and drops that session and the
/// ones after it.
pub(crate) fn start_all<'s, E, G: Gate>(
    scope: &Scope<'s, E>,
    sessions: Vec<Ticket>,
    run: &Run<'s, G>,
    at_work: &'s AtomicUsize,
    started: &mut Vec<Started<'s>>,
) -> Option<Stop>
    requires new { All (IsNewSession run.now.office.now) sessions.items }
    requires none { started.old.items ≡ [] }
    ensures started { All (IsStart run.now.office.now run.now.rows.now) started.new.items }
    ensures all { result ≡ None → numbers_of_starts started.new.items ≡ numbers_of sessions.items }
{
    for session in sessions {
        let Some(start) = start_session(scope, session, run, at_work) else {
            return Some(Stop::Device);
        };
        if started.push(start).is_err() {
            return Some(Stop::NoMemory);
        }
    }
    None
}

/// Waits for the thread and returns its result. An idle session is returned at once.
fn join<R: Threads>(rt: &R, started: Started<'_>) -> ThreadResult
    ensures { (office : _) (rows : _) → IsStart office rows started.entry → IsWorkOf office (number_of_start started.entry) rows result }
{
    match started {
        Started::Thread(handle) => handle.join(rt),
        Started::Idle(session) => ThreadResult {
            session,
            stop: None,
        },
    }
}

/// Returns the reason to report out of two: the one whose fault has the lower number.
fn first_reason(one: Option<Stop>, other: Option<Stop>) -> Option<Stop>
    ensures { result ≡ first_of_stops one other }
{
    match (one, other) {
        (Some(one), Some(other)) => Some(if one.rank() <= other.rank() {
            one
        } else {
            other
        }),
        (Some(stop), None) | (None, Some(stop)) => Some(stop),
        (None, None) => None,
    }
}

/// Appends the session of a finished thread to `done`. Returns the reason to report so far: `NoMemory` if `done` can't grow,
/// else the first of `reason` and the thread's own.
fn append_finished(
    done: &mut Vec<Ticket>,
    reason: Option<Stop>,
    worked: ThreadResult,
) -> Option<Stop>
    ensures done { result ≡ None → (reason ≡ None) × (worked.stop ≡ None) × (done.new.items ≡ done.old.items ++ worked.session ∷ []) }
    ensures reason { (result ≡ Some Stop.NoMemory) ⊎ (result ≡ first_of_stops reason worked.stop) }
{
    let ThreadResult { session, stop } = worked;
    if done.push(session).is_err() {
        return Some(Stop::NoMemory);
    }
    first_reason(reason, stop)
}

/// Waits for all started threads and returns their sessions in order. Fails with the reason to report if a thread stopped
/// early, or if there is already a `reason` from before.
pub(crate) fn join_all<R: Threads>(
    rt: &R,
    alloc: Global,
    started: Vec<Started<'_>>,
    reason: Option<Stop>,
) -> Result<Vec<Ticket>, Stop>
    ensures all { IfOk result (λ _. reason ≡ None) }
    ensures numbers { (office : _) (rows : _) → All (IsStart office rows) started.entry.items
        → IfOk result (λ done. numbers_of done.items ≡ numbers_of_starts started.entry.items) }
    ensures performed { (office : _) (rows : _) → All (IsStart office rows) started.entry.items
        → IfOk result (λ done. All (IsPerformed office rows) done.items) }
{
    let mut reason = reason;
    let mut done = Vec::new(alloc);
    for start in started {
        reason = append_finished(&mut done, reason, join(rt, start));
    }
    match reason {
        None => Ok(done),
        Some(stop) => Err(stop),
    }
}

/// Performs the sessions' rows in threads of this scope, waits for all of them, and returns the sessions in their order.
/// Fails with the reason to report if a thread stopped early or couldn't be started.
fn start_and_join<'s, E, R: Threads, G: Gate>(
    scope: &Scope<'s, E>,
    rt: &R,
    alloc: Global,
    sessions: Vec<Ticket>,
    run: &Run<'s, G>,
    at_work: &'s AtomicUsize,
) -> Result<Vec<Ticket>, Stop>
    requires { All (IsNewSession run.now.office.now) sessions.items }
    ensures numbers { IfOk result (λ done. numbers_of done.items ≡ numbers_of sessions.items) }
    ensures performed { IfOk result (λ done. All (IsPerformed run.now.office.now run.now.rows.now) done.items) }
{
    let mut started = Vec::new(alloc);
    let reason = start_all(scope, sessions, run, at_work, &mut started);
    join_all(rt, alloc, started, reason)
}

/// Performs the rows of each session in a thread of its own and returns all sessions in their order. Fails with the reason to
/// report if a thread stopped early or couldn't be started.
pub(crate) fn work_in_threads<R: Threads + Wait, G: Gate>(
    rt: &R,
    alloc: Global,
    sessions: Vec<Ticket>,
    run: &Run<'_, G>,
) -> Result<Vec<Ticket>, Stop>
    requires { All (IsNewSession run.now.office.now) sessions.items }
    ensures numbers { IfOk result (λ done. numbers_of done.items ≡ numbers_of sessions.items) }
    ensures performed { IfOk result (λ done. All (IsPerformed run.now.office.now run.now.rows.now) done.items) }
{
    let office = run.office;
    let rows = run.rows;
    let turns = run.turns;
    let gate = run.gate;
    let count = AtomicUsize::new(0);
    let at_work = &count;
    thread::scope(
        thread::scope_env(),
        rt,
        |scope| -> Result<Vec<Ticket>, Stop>
            requires { All (IsNewSession office.now) sessions.items }
            ensures numbers { IfOk result (λ done. numbers_of done.items ≡ numbers_of sessions.items) }
            ensures performed { IfOk result (λ done. All (IsPerformed office.entry.now rows.entry.now) done.items) }
        {
            let run = Run {
                office,
                rows,
                turns,
                gate,
            };
            start_and_join(scope, rt, alloc, sessions, &run, at_work)
        },
    )
}
