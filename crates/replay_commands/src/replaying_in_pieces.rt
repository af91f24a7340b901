//! The command `replay --stream`: serves a trace in order, and writes its history in pieces on the way.

ghost use Rattle.std.specs.Io.KnownBytes.{Keeps};
ghost use Rattle.std.specs.Prelude.{◌≡◌, ◌≢◌, ℕ, ◌<◌, ◌≤◌, List, [], Some, OnOk, IfOk, IfErr};
ghost use Rattle.lock_rules.specs.declared.calls.TheConstants.{MAX_SESSIONS};
ghost use Rattle.replay_commands.specs.Pieces.{IsFaultOfPieces};
ghost use Rattle.replay_commands.specs.Replays.{AreRows, HasReplayed, HasServed, HasServedFront, HasServedPart, IsFaultOfOneThread, ReplaysInPieces};

use crate::pieces::{PIECE_ENTRIES, write_kept};
use crate::tool_fault::ToolFault;
use lock_desk::{Book, NO_BOUND};
use lock_trace::{TraceRow, read_trace};
use std::alloc::Global;
use std::io::{Read, Write};

/// Serves the rows in order. Each time the book keeps `PIECE_ENTRIES` entries, writes their text and lets go of them, and at
/// the end those that are left.
fn serve_rows<W: Write>(
    alloc: Global,
    book: &mut Book,
    rows: &[TraceRow],
    output: &mut W,
) -> Result<(), ToolFault>
    requires within { AreRows book.old.sessions rows.now }
    requires empty { book.old.history ≡ [] }
    requires all { book.old.cut ≡ 0 }
    requires unbounded { book.old.bound ≡ NO_BOUND }
    ensures replayed { OnOk result (HasReplayed rows.now (W.contents output.old) (W.contents output.new)) }
    ensures fault { IfErr result (λ fault. IsFaultOfPieces rows.now (W.contents output.old) (W.contents output.new) fault) }
{
    for row in rows {
        let Ok(_reply) = book.serve(row.session, row.call) else {
            return Err(ToolFault::NoMemory);
        };
        if book.served() - book.first_kept() >= PIECE_ENTRIES {
            write_kept(alloc, book, output)?;
        }
    }
    write_kept(alloc, book, output)
}

/// Serves the rows in order on a fresh lock table, and writes their history in pieces.
fn serve_in_pieces<W: Write>(
    alloc: Global,
    rows: &[TraceRow],
    output: &mut W,
    sessions: u16,
) -> Result<(), ToolFault>
    requires some { 0 < sessions }
    requires few { sessions ≤ MAX_SESSIONS }
    requires within { AreRows sessions rows.now }
    ensures replayed { OnOk result (HasReplayed rows.now (W.contents output.old) (W.contents output.new)) }
    ensures fault { IfErr result (λ fault. IsFaultOfPieces rows.now (W.contents output.old) (W.contents output.new) fault) }
{
    let Ok(mut book) = Book::new(alloc, sessions) else {
        return Err(ToolFault::NoMemory);
    };
    serve_rows(alloc, &mut book, rows, output)
}

/// Serves the rows of a trace in order on one lock table of `sessions` sessions, 1 to `MAX_SESSIONS`, and writes the text
/// of its history in pieces: each time `PIECE_ENTRIES` entries are kept, their text is made and written, and they leave
/// memory. Returns the number of rows. What is written is what [`replay`](crate::replay) writes.
///
/// All rows are read, and are in memory, before the first one is served. After the fault `Trace` nothing was written; after
/// `NoMemory` the text of the history of the first rows may have been written, whole entries and nothing else; after
/// `Device` the beginning of the text of the whole history, and nothing else. The fault `Trace` names the first faulty row
/// and the first test that the row fails.
pub fn replay_in_pieces<R: Read + Drop, W: Write>(
    alloc: Global,
    input: R,
    output: &mut W,
    sessions: u16,
) -> Result<u64, ToolFault>
    requires some { 0 < sessions }
    requires few { sessions ≤ MAX_SESSIONS }
    // hold for every reader
    ensures kept { IfErr result (λ fault. fault ≢ ToolFault.Device → fault ≢ ToolFault.NoMemory → Keeps (W.contents output.old) (W.contents output.new)) }
    ensures front { IfErr result (λ fault. fault ≡ ToolFault.NoMemory → HasServedFront sessions (W.contents output.old) (W.contents output.new)) }
    ensures part { IfErr result (λ fault. fault ≡ ToolFault.Device → HasServedPart sessions (W.contents output.old) (W.contents output.new)) }
    ensures served { IfOk result (λ count. HasServed sessions count (W.contents output.old) (W.contents output.new)) }
    ensures faults { IfErr result (λ fault. IsFaultOfOneThread fault) }

    // holds for a reader whose bytes are known
    ensures replays { (bytes : List ℕ) → R.remaining input ≡ Some bytes → ReplaysInPieces sessions bytes (W.contents output.old) (W.contents output.new) result }
{
    let rows = match read_trace(alloc, input, sessions) {
        Ok(rows) => rows,
        Err(fault) => return Err(ToolFault::Trace(fault)),
    };
    serve_in_pieces(alloc, &rows, output, sessions)?;
    Ok(rows.len() as u64)
}
