//! A row with a mark below the part that is wrong.

use crate::hints::lines::Lines;
use std::alloc::AllocError as NoMemory;
use std::fmt::Write;
use std::ops::Range;

/// How many bytes of a row are shown at most.
const SHOWN_BYTES: usize = 72;

/// How many bytes in front of the mark are shown of a longer row.
const BYTES_IN_FRONT: usize = 24;

/// Appends a part of the row, each byte that isn't printable ASCII by its hexadecimal number.
fn put_part(out: &mut String, row: &[u8], part: Range<usize>) -> Result<(), NoMemory> {
    for byte in row.get(part).unwrap_or(b"") {
        match *byte {
            b' '..=b'~' => out.push(char::from(*byte))?,
            other => write!(out, "\\x{other:02x}")?,
        }
    }
    Ok(())
}

/// Writes the row behind `head`, and below it a mark at this part of the row. An empty part has a mark of one column. Of a
/// longer row a piece round the mark is shown.
pub(crate) fn put_marked_row(
    lines: &mut Lines,
    head: &str,
    row: &[u8],
    mark: Range<usize>,
) -> Result<(), NoMemory> {
    let last_start = row.len().saturating_sub(SHOWN_BYTES);
    let start = mark.start.saturating_sub(BYTES_IN_FRONT).min(last_start);
    let end = start.saturating_add(SHOWN_BYTES).min(row.len());
    let mark_end = mark.end.min(end);
    let mut line = String::from_str(lines.alloc(), head)?;
    if start > 0 {
        line.push_str("..")?;
    }
    put_part(&mut line, row, start..mark.start)?;
    let column = line.len();
    put_part(&mut line, row, mark.start..mark_end)?;
    let width = line.len().saturating_sub(column);
    put_part(&mut line, row, mark_end..end)?;
    if end < row.len() {
        line.push_str("..")?;
    }
    lines.put("  ", line.as_str())?;
    let blanks = " ".repeat(lines.alloc(), column)?;
    let tail = "~".repeat(lines.alloc(), width.saturating_sub(1))?;
    lines.put("  ", format!(in lines.alloc(); "{blanks}^{tail}")?.as_str())
}
