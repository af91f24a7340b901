//! The command `replay`: serves a trace in order on one lock table, on one thread.

ghost use Rattle.std.specs.Io.KnownBytes.{Keeps};
ghost use Rattle.std.specs.Prelude.{◌≡◌, ◌≢◌, ℕ, ◌<◌, ◌≤◌, List, Some, map, IfOk, IfErr};
ghost use Rattle.lock_rules.specs.declared.calls.TheConstants.{MAX_SESSIONS};
ghost use Rattle.lock_trace.specs.Histories.{row_of_entry};
ghost use Rattle.replay_commands.specs.Replays.{AreRows, HasServed, HasServedPart, IsFaultOfOneThread, IsTextFor, Replays};

use crate::tool_fault::ToolFault;
use crate::writing::write_text;
use lock_desk::{Book, NO_BOUND, NoMemory};
use lock_trace::{TraceRow, history_text, read_trace};
use std::alloc::Global;
use std::io::{Read, Write};

/// Serves the rows in order on a fresh lock table, and returns the table, which keeps the whole history. Fails if it finds no memory.
fn serve_all(alloc: Global, rows: &[TraceRow], sessions: u16) -> Result<Book, NoMemory>
    requires some { 0 < sessions }
    requires few { sessions ≤ MAX_SESSIONS }
    requires within { AreRows sessions rows.now }
    ensures calls { IfOk result (λ book. map row_of_entry book.history ≡ rows.now) }
    ensures all { IfOk result (λ book. (book.cut ≡ 0) × (book.bound ≡ NO_BOUND)) }
{
    let mut book = Book::new(alloc, sessions)?;
    for row in rows {
        book.serve(row.session, row.call)?;
    }
    Ok(book)
}

/// Serves the rows and returns the text of their history. Frees the rows before it makes the text, and the lock table
/// afterwards, so that the three are never in memory together. Fails if memory is refused.
fn served_text(alloc: Global, rows: Vec<TraceRow>, sessions: u16) -> Result<Vec<u8>, NoMemory>
    requires some { 0 < sessions }
    requires few { sessions ≤ MAX_SESSIONS }
    requires within { AreRows sessions rows.items }
    ensures { IfOk result (λ text. IsTextFor rows.items text.items) }
{
    let book = serve_all(alloc, &rows, sessions)?;
    drop(rows);
    history_text(alloc, book.history())
}

/// Serves the rows of a trace in order on one lock table of `sessions` sessions, 1 to `MAX_SESSIONS`, and writes the text
/// of its history. Returns the number of rows.
///
/// The whole text is made before the first byte is written. After every fault except `Device` nothing was written; after
/// `Device` the beginning of the text may have been written, and nothing else. The fault `Trace` names the first faulty row
/// and the first test that the row fails.
#[tactic(auto, using(crate::proofs::PartsWritten::replay_part, crate::proofs::PartsWritten::replay_part_known))]
pub fn replay<R: Read + Drop, W: Write>(
    alloc: Global,
    input: R,
    output: &mut W,
    sessions: u16,
) -> Result<u64, ToolFault>
    requires some { 0 < sessions }
    requires few { sessions ≤ MAX_SESSIONS }
    // hold for every reader
    ensures kept { IfErr result (λ fault. fault ≢ ToolFault.Device → Keeps (W.contents output.old) (W.contents output.new)) }
    ensures part { IfErr result (λ fault. fault ≡ ToolFault.Device → HasServedPart sessions (W.contents output.old) (W.contents output.new)) }
    ensures served { IfOk result (λ count. HasServed sessions count (W.contents output.old) (W.contents output.new)) }
    ensures faults { IfErr result (λ fault. IsFaultOfOneThread fault) }

    // holds for a reader whose bytes are known
    ensures replays { (bytes : List ℕ) → R.remaining input ≡ Some bytes → Replays sessions bytes (W.contents output.old) (W.contents output.new) result }
{
    let rows = match read_trace(alloc, input, sessions) {
        Ok(rows) => rows,
        Err(fault) => return Err(ToolFault::Trace(fault)),
    };
    let count = rows.len() as u64;
    let Ok(text) = served_text(alloc, rows, sessions) else {
        return Err(ToolFault::NoMemory);
    };
    if write_text(output, &text).is_err() {
        return Err(ToolFault::Device);
    }
    Ok(count)
}
