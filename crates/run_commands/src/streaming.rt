//! Takes the history of a run while its threads are at work, and writes it.

ghost use Rattle.std.specs.Prelude.{◌≡◌, ℕ, [], List, Option, Ok, IfOk, IfErr, All};
ghost use Rattle.lock_office.specs.ProgramBoards.{flat_history};
ghost use Rattle.lock_office.specs.Sessions.{IsSessionOf};
ghost use Rattle.run_commands.specs.Streams.{IsFaultOfStream, IsWrittenUpTo, bare};
ghost use Rattle.run_commands.specs.Workers.{IsNewSession, IsPerformed, fault_of_stop, numbers_of};

use crate::call_gate::Gate;
use crate::pacing::{Pace, Progress};
use crate::threads::{Run, join_all, start_all};
use crate::workers::Stop;
use lock_office::{Office, Ticket};
use replay_commands::{ToolFault, write_piece};
use std::alloc::Global;
use std::io::Write;
use std::sync::Wait;
use std::thread;
use std::thread::{Scope, Threads};

/// What a run leaves whose history was written in pieces while it went on.
#[derive(Drop)]
pub(crate) struct Streamed<'o, W> {
    /// The output.
    pub output: &'o mut W,
    /// The session that took the history.
    pub taker: Ticket,
    /// The sessions that performed the rows, and how many entries of the history are written.
    pub done: Result<(Vec<Ticket>, u64), ToolFault>,
}

/// A run whose threads may be at work.
#[derive(Clone, Copy)]
struct RunUnderWay<'a> {
    /// Its office.
    office: &'a Office,
    /// How far it is.
    progress: &'a Progress,
}

/// The sessions of a run whose history is written in pieces.
#[derive(Drop)]
struct Crew {
    /// The sessions that perform rows.
    workers: Vec<Ticket>,
    /// The session that takes the history.
    taker: Ticket,
}

/// Takes the entries that the lock table keeps, by one try, and writes their text behind that of the first `next` entries.
/// Returns how many entries are written then. Fails with `NoMemory`, with nothing written, if memory is refused for the text
/// or the entries don't follow the first `next` ones.
#[tactic(auto, using(crate::proofs::WrittenUpTo::front_of, crate::proofs::WrittenUpTo::piece_written, crate::proofs::WrittenUpTo::piece_failed, crate::proofs::WrittenUpTo::bare_taken))]
fn write_taken<W: Write>(
    alloc: Global,
    office: &Office,
    taker: &mut Ticket,
    next: u64,
    output: &mut W,
) -> Result<u64, ToolFault>
    requires { IsSessionOf office.now taker.old }
    ensures ours { IsSessionOf office.now taker.new }
    ensures same { bare taker.new ≡ bare taker.old }
    ensures written { IfOk result (λ end. (start : Option (List ℕ)) → IsWrittenUpTo next (flat_history taker.old.front) start (W.contents output.old)
        → IsWrittenUpTo end (flat_history taker.new.front) start (W.contents output.new)) }
    ensures fault { IfErr result (λ fault. (start : Option (List ℕ)) → IsWrittenUpTo next (flat_history taker.old.front) start (W.contents output.old)
        → IsFaultOfStream start (W.contents output.new) fault) }
{
    let Some(piece) = office.take_history(alloc, taker) else {
        return Ok(next);
    };
    if piece.first != next {
        return Err(ToolFault::NoMemory);
    }
    let Some(end) = next.checked_add(piece.lines.len() as u64) else {
        return Err(ToolFault::NoMemory);
    };
    match write_piece(alloc, output, next, &piece.lines) {
        Ok(()) => Ok(end),
        Err(fault) => Err(fault),
    }
}

/// Takes and writes what is due: a piece of the history, or at last all of it. Returns how many entries are written then. If
/// that fails, no more calls are let in.
fn write_due<W: Write>(
    alloc: Global,
    run: RunUnderWay<'_>,
    taker: &mut Ticket,
    is_last: bool,
    next: u64,
    output: &mut W,
) -> Result<u64, ToolFault>
    requires { IsSessionOf run.office.now taker.old }
    ensures ours { IsSessionOf run.entry.office.now taker.new }
    ensures same { bare taker.new ≡ bare taker.old }
    ensures written { IfOk result (λ end. (start : Option (List ℕ)) → IsWrittenUpTo next (flat_history taker.old.front) start (W.contents output.old)
        → IsWrittenUpTo end (flat_history taker.new.front) start (W.contents output.new)) }
    ensures fault { IfErr result (λ fault. (start : Option (List ℕ)) → IsWrittenUpTo next (flat_history taker.old.front) start (W.contents output.old)
        → IsFaultOfStream start (W.contents output.new) fault) }
{
    if !is_last && !run.progress.is_due(next) {
        return Ok(next);
    }
    match write_taken(alloc, run.office, taker, next, output) {
        Ok(end) => {
            run.progress.note_written(end);
            Ok(end)
        }
        Err(fault) => {
            run.progress.stop();
            Err(fault)
        }
    }
}

/// Takes the history and writes it in pieces until no thread of the run is at work. Returns how many entries are written.
fn write_while_at_work<R: Wait, W: Write>(
    rt: &R,
    alloc: Global,
    run: RunUnderWay<'_>,
    taker: &mut Ticket,
    output: &mut W,
) -> Result<u64, ToolFault>
    requires ours { IsSessionOf run.office.now taker.old }
    requires new { taker.old.front ≡ [] }
    ensures ours { IsSessionOf run.entry.office.now taker.new }
    ensures same { bare taker.new ≡ bare taker.old }
    ensures written { IfOk result (λ end. IsWrittenUpTo end (flat_history taker.new.front) (W.contents output.old) (W.contents output.new)) }
    ensures fault { IfErr result (λ fault. IsFaultOfStream (W.contents output.old) (W.contents output.new) fault) }
{
    let mut next = 0;
    for _ in rt.forever() {
        // the calls of threads that have ended are served, so what is taken after this look is the last piece
        let is_last = run.progress.is_over();
        next = write_due(alloc, run, taker, is_last, next, output)?;
        if is_last {
            return Ok(next);
        }
        thread::yield_now();
    }
    unreachable!()
}

/// Puts together how the writing and the threads ended: the sessions of the threads, with the number of entries that are
/// written, or the fault of the writing, or else that of the threads.
fn combine_results(
    written: Result<u64, ToolFault>,
    joined: Result<Vec<Ticket>, Stop>,
) -> Result<(Vec<Ticket>, u64), ToolFault>
    ensures done { IfOk result (λ done. (joined ≡ Ok done.0) × (written ≡ Ok done.1)) }
    ensures writing { IfErr result (λ fault. IfErr written (λ own. own ≡ fault)) }
    ensures thread { IfErr result (λ fault. IfOk written (λ _. IfErr joined (λ stop. fault ≡ fault_of_stop stop) × IfOk joined (λ _. ⊥))) }
{
    let next = match written {
        Ok(next) => next,
        Err(fault) => return Err(fault),
    };
    match joined {
        Ok(done) => Ok((done, next)),
        Err(stop) => Err(stop.fault()),
    }
}

/// Performs the sessions' rows in threads of this scope, and takes and writes the history until all of them have ended. If
/// writing fails, the threads stop before their next call. A fault of the writing is reported before that of a thread.
fn start_and_stream<'s, 'o, E, R: Threads + Wait, W: Write, G: Gate>(
    scope: &Scope<'s, E>,
    rt: &R,
    alloc: Global,
    crew: Crew,
    run: &Run<'s, Pace<'s, G>>,
    output: &'o mut W,
) -> Streamed<'o, W>
    requires sessions { All (IsNewSession run.now.office.now) crew.workers.items }
    requires taker { IsSessionOf run.now.office.now crew.taker }
    requires new { crew.taker.front ≡ [] }
    ensures output { result.output.ghost_name ≡ output.entry.ghost_name }
    ensures ours { IsSessionOf run.now.office.now result.taker }
    ensures same { bare result.taker ≡ bare crew.taker }
    ensures numbers { IfOk result.done (λ done. numbers_of done.0.items ≡ numbers_of crew.workers.items) }
    ensures performed { IfOk result.done (λ done. All (IsPerformed run.now.office.now run.now.rows.now) done.0.items) }
    ensures written { IfOk result.done (λ done. IsWrittenUpTo done.1 (flat_history result.taker.front) (W.contents output.entry.now) (W.contents result.output.now)) }
    ensures fault { IfErr result.done (λ fault. IsFaultOfStream (W.contents output.entry.now) (W.contents result.output.now) fault) }
{
    let Crew { workers, taker } = crew;
    let mut taker = taker;
    let under_way = RunUnderWay {
        office: run.office,
        progress: run.gate.progress,
    };
    let mut started = Vec::new(alloc);
    let at_work = &under_way.progress.at_work;
    let reason = start_all(scope, workers, run, at_work, &mut started);
    let written = write_while_at_work(rt, alloc, under_way, &mut taker, output);
    let joined = join_all(rt, alloc, started, reason);
    let done = combine_results(written, joined);
    Streamed {
        output,
        taker,
        done,
    }
}

/// Performs the rows of each session in a thread of its own, and takes the history by the session `taker` and writes it in
/// pieces meanwhile. Returns once all threads have ended.
pub(crate) fn stream_in_threads<'o, R: Threads + Wait, W: Write, G: Gate>(
    rt: &R,
    alloc: Global,
    sessions: Vec<Ticket>,
    taker: Ticket,
    run: &Run<'_, G>,
    output: &'o mut W,
) -> Streamed<'o, W>
    requires sessions { All (IsNewSession run.now.office.now) sessions.items }
    requires taker { IsSessionOf run.now.office.now taker }
    requires new { taker.front ≡ [] }
    ensures output { result.output.ghost_name ≡ output.entry.ghost_name }
    ensures ours { IsSessionOf run.now.office.now result.taker }
    ensures same { bare result.taker ≡ bare taker }
    ensures numbers { IfOk result.done (λ done. numbers_of done.0.items ≡ numbers_of sessions.items) }
    ensures performed { IfOk result.done (λ done. All (IsPerformed run.now.office.now run.now.rows.now) done.0.items) }
    ensures written { IfOk result.done (λ done. IsWrittenUpTo done.1 (flat_history result.taker.front) (W.contents output.entry.now) (W.contents result.output.now)) }
    ensures fault { IfErr result.done (λ fault. IsFaultOfStream (W.contents output.entry.now) (W.contents result.output.now) fault) }
{
    let progress = Progress::new();
    let pace = Pace {
        gate: run.gate,
        progress: &progress,
    };
    let paced = Run {
        office: run.office,
        rows: run.rows,
        turns: run.turns,
        gate: &pace,
    };
    let paced = &paced;
    thread::scope(
        thread::scope_env(),
        rt,
        move |scope| -> Streamed<'_, W>
            requires sessions { All (IsNewSession paced.now.office.now) sessions.items }
            requires taker { IsSessionOf paced.now.office.now taker }
            requires new { taker.front ≡ [] }
            ensures output { result.output.ghost_name ≡ output.entry.ghost_name }
            ensures ours { IsSessionOf paced.entry.now.office.now result.taker }
            ensures same { bare result.taker ≡ bare taker }
            ensures numbers { IfOk result.done (λ done. numbers_of done.0.items ≡ numbers_of sessions.items) }
            ensures performed { IfOk result.done (λ done. All (IsPerformed paced.entry.now.office.now paced.entry.now.rows.now) done.0.items) }
            ensures written { IfOk result.done (λ done. IsWrittenUpTo done.1 (flat_history result.taker.front) (W.contents output.entry.now) (W.contents result.output.now)) }
            ensures fault { IfErr result.done (λ fault. IsFaultOfStream (W.contents output.entry.now) (W.contents result.output.now) fault) }
        {
            let crew = Crew {
                workers: sessions,
                taker,
            };
            start_and_stream(scope, rt, alloc, crew, paced, output)
        },
    )
}
