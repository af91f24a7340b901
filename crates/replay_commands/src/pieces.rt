//! Writes a history in pieces, so that no more than a piece of it is in memory.

ghost use Rattle.std.specs.Prelude.{◌≡◌, ◌+◌, ◌^◌, ◌≤◌, length, drop, OnOk, IfErr};
ghost use Rattle.std.specs.Io.KnownBytes.{Appends};
ghost use Rattle.lock_trace.specs.Histories.{text_of_piece};
ghost use Rattle.replay_commands.specs.Pieces.{IsFaultOfPiece};

use crate::tool_fault::ToolFault;
use crate::writing::write_text;
use lock_desk::{Book, Entry, NO_BOUND};
use lock_trace::piece_text;
use std::alloc::Global;
use std::io::Write;

/// How many entries of its history a command that writes in pieces keeps at most, and so how long a piece is, except the last.
pub const PIECE_ENTRIES: u64 = 4096;

/// Writes the text of a piece of a history, whose first entry is at the place `first`. If memory is refused for the text,
/// nothing is written; if the writer fails, the beginning of the text was written.
pub fn write_piece<W: Write>(
    alloc: Global,
    output: &mut W,
    first: u64,
    entries: &[Entry],
) -> Result<(), ToolFault>
    requires places { first + length entries.now ≤ 2 ^ 64 }
    ensures written { OnOk result (Appends (W.contents output.old) (W.contents output.new) (text_of_piece first entries.now)) }
    ensures fault { IfErr result (λ fault. IsFaultOfPiece (text_of_piece first entries.now) (W.contents output.old) (W.contents output.new) fault) }
{
    let Ok(text) = piece_text(alloc, first, entries) else {
        return Err(ToolFault::NoMemory);
    };
    write_text(output, &text)
}

/// Writes the text of the entries that the book keeps, and then lets go of them. The faults are those of `write_piece`.
pub(crate) fn write_kept<W: Write>(
    alloc: Global,
    book: &mut Book,
    output: &mut W,
) -> Result<(), ToolFault>
    requires unbounded { book.old.bound ≡ NO_BOUND }
    requires within { book.old.cut ≤ length book.old.history }
    ensures written { OnOk result (Appends (W.contents output.old) (W.contents output.new) (text_of_piece book.old.cut (drop book.old.cut book.old.history))) }
    ensures gone { OnOk result (book.new ≡ record book.old { cut = length book.old.history }) }
    ensures fault { IfErr result (λ fault. IsFaultOfPiece (text_of_piece book.old.cut (drop book.old.cut book.old.history)) (W.contents output.old) (W.contents output.new) fault) }
{
    let first = book.first_kept();
    let count = book.served() - first;
    write_piece(alloc, output, first, book.history())?;
    book.let_go(count);
    Ok(())
}
