//! The command `run --stream`: performs a trace by threads, and writes its history in pieces meanwhile.

ghost use Rattle.std.specs.Io.KnownBytes.{Appends, Keeps};
ghost use Rattle.std.specs.Prelude.{◌≡◌, ◌≢◌, ℕ, ◌<◌, ◌≤◌, ◌++◌, ◌∷◌, [], List, Some, All, drop, length, OnOk, IfOk, IfErr, IfSome};
ghost use Rattle.lock_office.specs.Sessions.{IsSessionOf};
ghost use Rattle.lock_rules.specs.declared.calls.TheConstants.{MAX_SESSIONS};
ghost use Rattle.lock_trace.specs.declared.faults.TraceFault.{TraceFault as FaultValue};
ghost use Rattle.lock_trace.specs.Histories.{text_of_piece};
ghost use Rattle.replay_commands.specs.Pieces.{IsFaultOfPiece};
ghost use Rattle.replay_commands.specs.Replays.{AreRows};
ghost use Rattle.run_commands.specs.Runs.{HasPerformed, HasRun, HasWrittenFront, HasWrittenPart, RunsInPieces};
ghost use Rattle.run_commands.specs.Streams.{HasWrittenRest, IsBookOf, IsFaultOfRest, IsFaultOfStream, IsNeverRefused, IsOpenedFor};

use crate::call_gate::Gate;
use crate::running::greatest_session;
use crate::streaming::{Streamed, stream_in_threads};
use crate::threads::Run;
use lock_desk::Book;
use lock_office::{Office, Ticket};
use lock_rules::MAX_SESSIONS;
use lock_trace::{TraceRow, read_trace};
use replay_commands::{ToolFault, write_piece};
use std::alloc::Global;
use std::io::{Read, Write};
use std::sync::Wait;
use std::thread::Threads;

/// How the calls of a run are made.
#[derive(Clone, Copy)]
struct Calling<'g, G> {
    /// In how many turns at most.
    turns: u64,
    /// The gate round each of them.
    gate: &'g G,
}

/// An office with one session more than perform rows.
struct Opened {
    /// The office.
    office: Office,
    /// The sessions that perform rows.
    workers: Vec<Ticket>,
    /// The last session, which takes the history.
    taker: Ticket,
}

/// Opens an office for `sessions` sessions and one that takes the history. Returns `None` if memory is refused.
fn open_with_taker(alloc: Global, sessions: u16) -> Option<Opened>
    requires { sessions < MAX_SESSIONS }
    ensures { IfSome result (λ opened. IsOpenedFor sessions opened.office opened.workers.items opened.taker) }
{
    let Ok((office, all)) = Office::open(alloc, sessions + 1) else {
        return None;
    };
    let mut workers = all;
    let Some(taker) = workers.pop() else {
        unreachable!()
    };
    Some(Opened {
        office,
        workers,
        taker,
    })
}

/// Writes the text of the entries that the closed office's lock table keeps, which follow the first `next` ones. The faults
/// are those of `write_piece`, and `NoMemory`, with nothing written, if they follow others.
fn write_rest<W: Write>(
    alloc: Global,
    book: &Book,
    next: u64,
    output: &mut W,
) -> Result<(), ToolFault>
    ensures within { OnOk result (next ≤ length book.now.history) }
    ensures written { OnOk result (Appends (W.contents output.old) (W.contents output.new) (text_of_piece next (drop next book.now.history))) }
    ensures fault { IfErr result (λ fault. IsFaultOfPiece (text_of_piece next (drop next book.now.history)) (W.contents output.old) (W.contents output.new) fault) }
{
    // a history is no longer than a number of 64 bits counts
    let count = book.served();
    if book.first_kept() != next || count < next {
        return Err(ToolFault::NoMemory);
    }
    write_piece(alloc, output, next, book.history())
}

/// Closes an office with the sessions that performed rows and the one that took the history. Returns its lock table, or `None`
/// if memory is refused.
fn close_streamed(office: Office, done: Vec<Ticket>, taker: Ticket) -> Option<Book>
    requires ours { All (IsSessionOf office) (done.items ++ taker ∷ []) }
    requires closes { IsNeverRefused office (done.items ++ taker ∷ []) }
    ensures { IfSome result (IsBookOf office (done.items ++ taker ∷ [])) }
{
    let mut all = done;
    let Ok(()) = all.push(taker) else {
        return None;
    };
    let Ok(programs) = office.close(all) else {
        unreachable!()
    };
    Some(programs.into_object())
}

/// Closes an office with the sessions that performed rows and the one that took the history, of which the first `next` entries
/// are written, and writes the rest.
fn close_and_write<W: Write>(
    alloc: Global,
    office: Office,
    done: Vec<Ticket>,
    taker: Ticket,
    next: u64,
    output: &mut W,
) -> Result<(), ToolFault>
    requires ours { All (IsSessionOf office) (done.items ++ taker ∷ []) }
    requires closes { IsNeverRefused office (done.items ++ taker ∷ []) }
    ensures written { OnOk result (HasWrittenRest office (done.items ++ taker ∷ []) next (W.contents output.old) (W.contents output.new)) }
    ensures fault { IfErr result (IsFaultOfRest office (done.items ++ taker ∷ []) next (W.contents output.old) (W.contents output.new)) }
{
    let Some(book) = close_streamed(office, done, taker) else {
        return Err(ToolFault::NoMemory);
    };
    write_rest(alloc, &book, next, output)
}

/// Performs the rows by threads of an opened office, one thread for each session with a row, and writes the history in pieces
/// meanwhile.
fn stream_opened<T: Threads + Wait, W: Write, G: Gate>(
    rt: &T,
    alloc: Global,
    opened: Opened,
    rows: &[TraceRow],
    calling: Calling<'_, G>,
    output: &mut W,
) -> Result<(), ToolFault>
    requires { (k : ℕ) × IsOpenedFor k opened.office opened.workers.items opened.taker × AreRows k rows.now }
    ensures run { OnOk result (HasRun rows.now (W.contents output.old) (W.contents output.new)) }
    ensures fault { IfErr result (λ fault. IsFaultOfStream (W.contents output.old) (W.contents output.new) fault) }
{
    let Opened {
        office,
        workers,
        taker,
    } = opened;
    let run = Run {
        office: &office,
        rows,
        turns: calling.turns,
        gate: calling.gate,
    };
    let Streamed {
        output,
        taker,
        done,
    } = stream_in_threads(rt, alloc, workers, taker, &run, output);
    match done {
        Ok((done, next)) => close_and_write(alloc, office, done, taker, next, output),
        Err(fault) => Err(fault),
    }
}

/// Performs the rows by threads, one thread for each session with a row, and writes the history in pieces meanwhile.
fn stream_rows<T: Threads + Wait, W: Write, G: Gate>(
    rt: &T,
    alloc: Global,
    rows: &[TraceRow],
    sessions: u16,
    calling: Calling<'_, G>,
    output: &mut W,
) -> Result<(), ToolFault>
    requires few { sessions < MAX_SESSIONS }
    requires within { AreRows sessions rows.now }
    ensures run { OnOk result (HasRun rows.now (W.contents output.old) (W.contents output.new)) }
    ensures fault { IfErr result (λ fault. IsFaultOfStream (W.contents output.old) (W.contents output.new) fault) }
{
    match open_with_taker(alloc, sessions) {
        Some(opened) => stream_opened(rt, alloc, opened, rows, calling, output),
        None => Err(ToolFault::NoMemory),
    }
}

/// Performs the rows of a trace by threads through one office, as [`run`](crate::run) does, and writes the text of the history
/// in pieces while the run goes on. One more session of the office takes the entries from the lock table, so `sessions` is 1
/// to `MAX_STREAMED_SESSIONS`. Calls wait before they are published while more than four pieces of `PIECE_ENTRIES` entries
/// are still to be written. Returns the number of rows. What is written is the text of the history, as `run` writes it.
///
/// The whole trace is read before a thread is started. After the fault `Trace` nothing was written. After `NoMemory`,
/// `GateShut` and `TurnLimit` the whole text of a legal history may have been written, that of the calls that were served
/// before, and nothing else. After `Device` the beginning of such a text may have been written, and nothing else. A fault of
/// the writing is returned before those of threads, and of several threads' faults the one with the least number. If writing
/// fails, threads stop before their next call. No contract says that this call returns.
pub fn run_in_pieces<R: Read + Drop, W: Write, T: Threads + Wait, G: Gate>(
    rt: &T,
    alloc: Global,
    input: R,
    output: &mut W,
    sessions: u16,
    turns: u64,
    gate: &G,
) -> Result<u64, ToolFault>
    requires some { 0 < sessions }
    requires few { sessions < MAX_SESSIONS }
    // hold for every reader
    ensures kept { IfErr result (λ fault. (row : FaultValue) → fault ≡ ToolFault.Trace row → Keeps (W.contents output.old) (W.contents output.new)) }
    ensures front { IfErr result (λ fault. fault ≢ ToolFault.Device → HasWrittenFront (W.contents output.old) (W.contents output.new)) }
    ensures part { IfErr result (λ fault. fault ≡ ToolFault.Device → HasWrittenPart (W.contents output.old) (W.contents output.new)) }
    ensures performed { IfOk result (λ count. HasPerformed sessions count (W.contents output.old) (W.contents output.new)) }

    // holds for a reader whose bytes are known
    ensures runs { (bytes : List ℕ) → R.remaining input ≡ Some bytes → RunsInPieces sessions bytes (W.contents output.old) (W.contents output.new) result }
{
    let rows = match read_trace(alloc, input, sessions) {
        Ok(rows) => rows,
        Err(fault) => return Err(ToolFault::Trace(fault)),
    };
    let greatest = greatest_session(&rows, sessions);
    let calling = Calling { turns, gate };
    stream_rows(rt, alloc, &rows, greatest, calling, output)?;
    Ok(rows.len() as u64)
}
