//! The command `run`: performs a trace by threads through one office.

ghost use Rattle.std.specs.Io.KnownBytes.{Keeps};
ghost use Rattle.std.specs.Prelude.{◌≡◌, ◌≢◌, ℕ, ◌<◌, ◌≤◌, List, Some, All, IfOk, IfErr};
ghost use Rattle.lock_rules.specs.declared.calls.TheConstants.{MAX_SESSIONS};
ghost use Rattle.lock_trace.specs.Histories.{text_of_history};
ghost use Rattle.replay_commands.specs.Replays.{AreRows};
ghost use Rattle.run_commands.specs.Runs.{HasPerformed, HasPerformedPart, IsRunOf, IsTextOfRun, Runs};
ghost use Rattle.run_commands.specs.Workers.{fault_of_stop};

use crate::call_gate::Gate;
use crate::threads::{Run, work_in_threads};
use crate::workers::Stop;
use lock_desk::Book;
use lock_office::Office;
use lock_trace::{TraceRow, history_text, read_trace};
use replay_commands::{ToolFault, write_text};
use std::alloc::Global;
use std::io::{Read, Write};
use std::sync::Wait;
use std::thread::Threads;

/// Returns the greatest session number in the rows, or 1 if there are no rows.
pub(crate) fn greatest_session(rows: &[TraceRow], sessions: u16) -> u16
    requires some { 0 < sessions }
    requires within { AreRows sessions rows.now }
    ensures some { 0 < result }
    ensures few { result ≤ sessions }
    ensures within { AreRows result rows.now }
{
    let mut greatest = 1;
    for row in rows {
        greatest = greatest.max(row.session);
    }
    greatest
}

/// Performs the rows by threads, one thread for each session with a row, and returns the closed office's lock table. Fails
/// with the reason why some thread stopped.
fn run_in_office<R: Threads + Wait, G: Gate>(
    rt: &R,
    alloc: Global,
    rows: &[TraceRow],
    sessions: u16,
    turns: u64,
    gate: &G,
) -> Result<Book, Stop>
    requires some { 0 < sessions }
    requires few { sessions ≤ MAX_SESSIONS }
    requires within { AreRows sessions rows.now }
    ensures { IfOk result (λ book. IsRunOf rows.now book.history) }
{
    let Ok((office, all)) = Office::open(alloc, sessions) else {
        return Err(Stop::NoMemory);
    };
    let run = Run {
        office: &office,
        rows,
        turns,
        gate,
    };
    let all = work_in_threads(rt, alloc, all, &run)?;
    match office.close(all) {
        Ok(programs) => Ok(programs.into_object()),
        Err(_) => unreachable!(),
    }
}

/// Performs the rows by threads and returns the text of the history. Frees the rows before it makes the text, and the lock
/// table afterwards.
fn run_to_text<R: Threads + Wait, G: Gate>(
    rt: &R,
    alloc: Global,
    rows: Vec<TraceRow>,
    sessions: u16,
    turns: u64,
    gate: &G,
) -> Result<Vec<u8>, Stop>
    requires some { 0 < sessions }
    requires few { sessions ≤ MAX_SESSIONS }
    requires within { AreRows sessions rows.items }
    ensures { IfOk result (λ text. IsTextOfRun rows.items text.items) }
{
    let greatest = greatest_session(&rows, sessions);
    let book = run_in_office(rt, alloc, &rows, greatest, turns, gate)?;
    drop(rows);
    // nobody lets entries of this office go, but no clause of a closed office says so: the text is made of the whole history
    if book.first_kept() != 0 {
        return Err(Stop::NoMemory);
    }
    history_text(alloc, book.history()).map_err(|_| Stop::NoMemory)
}

/// Performs the rows of a trace by threads through one office, one thread for each session that has a row, and writes the
/// text of the history. `sessions` is 1 to `MAX_SESSIONS`. Each thread performs its session's rows in order: it enters the
/// gate, makes the call, and leaves the gate. It makes the call as `Session::turn` does, in at most `turns` turns, with the
/// waits between them. Returns the number of rows.
///
/// The whole trace is read before a thread is started, and the whole text is made before its first byte is written. After
/// every fault except `Device` nothing was written; after `Device` the beginning of the text may have been written, and
/// nothing else. The fault `Trace` names the first faulty row and the first test that the row fails. If threads stop for
/// several reasons, the fault with the least number is returned. No contract says that this call returns.
#[tactic(auto, using(crate::proofs::PartsWritten::run_part, crate::proofs::PartsWritten::run_part_known, crate::proofs::PartsWritten::run_stopped, crate::proofs::PartsWritten::run_stopped_known))]
pub fn run<R: Read + Drop, W: Write, T: Threads + Wait, G: Gate>(
    rt: &T,
    alloc: Global,
    input: R,
    output: &mut W,
    sessions: u16,
    turns: u64,
    gate: &G,
) -> Result<u64, ToolFault>
    requires some { 0 < sessions }
    requires few { sessions ≤ MAX_SESSIONS }
    // hold for every reader
    ensures kept { IfErr result (λ fault. fault ≢ ToolFault.Device → Keeps (W.contents output.old) (W.contents output.new)) }
    ensures part { IfErr result (λ fault. fault ≡ ToolFault.Device → HasPerformedPart sessions (W.contents output.old) (W.contents output.new)) }
    ensures performed { IfOk result (λ count. HasPerformed sessions count (W.contents output.old) (W.contents output.new)) }

    // holds for a reader whose bytes are known
    ensures runs { (bytes : List ℕ) → R.remaining input ≡ Some bytes → Runs sessions bytes (W.contents output.old) (W.contents output.new) result }
{
    let rows = match read_trace(alloc, input, sessions) {
        Ok(rows) => rows,
        Err(fault) => return Err(ToolFault::Trace(fault)),
    };
    let count = rows.len() as u64;
    let text = match run_to_text(rt, alloc, rows, sessions, turns, gate) {
        Ok(text) => text,
        Err(stop) => return Err(stop.fault()),
    };
    if write_text(output, &text).is_err() {
        return Err(ToolFault::Device);
    }
    Ok(count)
}
