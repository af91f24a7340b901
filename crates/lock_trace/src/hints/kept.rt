//! A reader that keeps the last rows of what it reads, so that a bad row can be shown.

ghost use Rattle.std.specs.Prelude.{◌≡◌};
ghost use Rattle.lock_trace.specs.KeptReaders.{reader_of};

use crate::hints::lexing::{first_row, row_behind};
use std::alloc::Global;
use std::io;
use std::io::Read;

/// How many bytes are kept before rows are let go.
pub const KEPT_BYTES: usize = 64 * 1024;

/// The last rows of a file that was read so far, less than [`KEPT_BYTES`] and what one read gives, and how many rows and lines were
/// before them. If no row begins in the second half, nothing more is kept: no trace or history has so long a row, so a row that is
/// refused is that one or one before it, unless these bytes are line ends.
#[derive(Drop)]
pub struct KeptRows {
    /// The kept bytes. The first is the first of the file or of a row.
    text: Vec<u8>,
    /// How many rows were before them.
    rows: u64,
    /// How many lines were before them.
    lines: u64,
    /// Whether bytes that are read now are kept.
    is_open: bool,
}

impl KeptRows {
    /// The kept bytes, without a byte order mark at the front of the file, which is of no row.
    fn rows_text(&self) -> &[u8] {
        let text = self.text.as_slice();
        if self.rows == 0 && self.lines == 0 {
            return text.strip_prefix(b"\xef\xbb\xbf").unwrap_or(text);
        }
        text
    }

    /// The row with this number, from 1, without its line end, and the number of the line on which it begins, from 1. `None` if
    /// it isn't kept.
    pub(crate) fn row(&self, number: u64) -> Option<(&[u8], u64)> {
        let index = number.checked_sub(1)?.checked_sub(self.rows)?;
        let text = self.rows_text();
        let counted = row_behind(text, 0, index)?;
        let row = first_row(text.get(counted.bytes..)?);
        let line = self.lines.saturating_add(counted.lines);
        Some((row, line.saturating_add(1)))
    }

    /// Lets go of rows from the front, half of the kept bytes or more. Ends what is kept if no row begins behind these.
    fn drop_rows(&mut self) {
        let text = self.rows_text();
        let Some(counted) = row_behind(text, text.len() / 2, 0) else {
            self.is_open = false;
            return;
        };
        let left = text.len().saturating_sub(counted.bytes);
        let dropped = self.text.len().saturating_sub(left);
        self.rows = self.rows.saturating_add(counted.rows);
        self.lines = self.lines.saturating_add(counted.lines);
        self.text.copy_within(dropped.., 0);
        self.text.truncate(left);
    }

    /// Keeps bytes that were read next. Refused memory ends what is kept, and leaves nothing.
    fn keep(&mut self, bytes: &[u8]) {
        if self.is_open && self.text.len() >= KEPT_BYTES {
            self.drop_rows();
        }
        if self.is_open && self.text.extend_from_slice(bytes).is_err() {
            self.is_open = false;
            self.text.clear();
        }
    }
}

/// A reader that gives what the reader in it gives, and keeps the last rows of it. Lend it to what reads rows, and ask it for
/// the rows afterwards. What leaves out lines that are no rows, as comments, belongs into it: rows are counted in what it gives.
#[derive(Drop)]
pub struct Kept<R> {
    /// The reader.
    input: R,
    /// The last rows that it gave.
    rows: KeptRows,
}

impl<R> Kept<R> {
    /// Wraps a reader of which nothing was read. Rows are kept only if `keeps`; otherwise no memory is taken.
    pub fn new(alloc: Global, input: R, keeps: bool) -> Kept<R>
        ensures source { reader_of result ≡ input }
    {
        let rows = KeptRows {
            text: Vec::new(alloc),
            rows: 0,
            lines: 0,
            is_open: keeps,
        };
        Kept { input, rows }
    }

    /// The last rows that were read.
    pub fn rows(&self) -> &KeptRows {
        &self.rows
    }
}

impl<R: Read> Read for Kept<R> {
    ghost remaining = { λ kept. R.remaining (reader_of kept) };

    /// Reads from the reader, and keeps what it gave.
    fn read(&mut self, bytes: &mut [u8]) -> io::Result<usize> {
        let count = self.input.read(bytes)?;
        self.rows.keep(bytes.get(..count).unwrap_or(b""));
        Ok(count)
    }
}
