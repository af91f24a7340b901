//! The hint to the fault of a row, and a wrong reply of a history beside the right one.

ghost use Rattle.std.specs.Prelude.{◌≡◌, IfOk, map};
ghost use Rattle.lock_modes.specs.Codes.{name_of};
ghost use Rattle.lock_rules.specs.Kinds.{word_of, word_of_reply};
ghost use Rattle.lock_trace.specs.HintTexts.{IsHintText};
ghost use Rattle.lock_trace.specs.inner.WordLists.{listed};

use crate::faults::{TraceFault, TraceKind};
use crate::hints::kept::KeptRows;
use crate::hints::lexing::{field_span, first_row};
use crate::hints::lines::Lines;
use crate::hints::marked_row::put_marked_row;
use crate::writing::piece_text;
use lock_modes::MODES;
use lock_rules::{Entry, OPS, REPLY_KINDS, Reply};
use std::alloc::{AllocError as NoMemory, Global};

/// The ops.
const OP_WORDS: &str =
    "begin, lock, convert, poll, release, commit, abort, try, withdraw or restart";

/// The modes.
const MODE_WORDS: &str = "NL, IS, IX, S, SIX, U or X";

/// The replies.
const REPLY_WORDS: &str =
    "began, granted, waiting, deadlock, clear, released, committed, aborted, refused, withdrawn or restarted";

/// What a resource is.
const PATH_FORM: &str = "1 to 5 numbers up to 4294967295 without leading zeros, joined by '/'";

/// The words are those of rows, in their order.
fn words_are_those_of_rows()
    ensures ops { OP_WORDS.now ≡ listed (map word_of OPS) }
    ensures modes { MODE_WORDS.now ≡ listed (map name_of MODES) }
    ensures replies { REPLY_WORDS.now ≡ listed (map word_of_reply REPLY_KINDS) }
{}

/// The form of the rows that a command reads, and the index of their first field: in both forms a field has the index that it has
/// in a history, from 0.
#[derive(Clone, Copy, Debug, Drop, PartialEq, Eq)]
pub enum RowForm {
    /// Rows of a history.
    History = 0,
    /// Rows of a trace.
    Trace = 1,
}

/// The field at this index of the row, without the quotes round it.
fn field(row: &[u8], form: RowForm, index: usize) -> &[u8] {
    let span = field_span(row, form as usize, index);
    match row.get(span).unwrap_or(b"") {
        [b'"', inner @ .., b'"'] => inner,
        field => field,
    }
}

/// Whether this row, read as one of a history, is one of a dump, by its first field.
fn is_of_dump(row: &[u8]) -> bool {
    match field(row, RowForm::History, 0) {
        b"transaction" | b"held" | b"fresh" | b"conversion" | b"waits" => true,
        _ => false,
    }
}

/// The value that the reply of this row of a history has.
fn value_words(row: &[u8]) -> &'static str {
    match field(row, RowForm::History, 5) {
        b"granted" => MODE_WORDS,
        b"began" => "the number of the transaction",
        b"refused" => "the name of a refusal, as NotHeld",
        b"committed" | b"aborted" | b"restarted" => "the number of locks given back",
        _ => "an empty field",
    }
}

/// The index of the field that is wrong, and what is expected there. With too few fields the index is behind the row.
fn expected(row: &[u8], form: RowForm, kind: TraceKind) -> (usize, &'static str) {
    match kind {
        TraceKind::Place if is_of_dump(row) => (0, "; rows of a dump are read by show --state"),
        TraceKind::Place => (0, ""),
        TraceKind::Session => (1, "a number without leading zeros, from 1 to "),
        TraceKind::Op => (2, OP_WORDS),
        TraceKind::Path(_) => (3, PATH_FORM),
        TraceKind::Mode => (4, MODE_WORDS),
        TraceKind::Extra if field(row, form, 4).is_empty() => (3, "an empty field"),
        TraceKind::Extra => (4, "an empty field"),
        TraceKind::Reply => (5, REPLY_WORDS),
        TraceKind::Value => (6, value_words(row)),
        TraceKind::Shape | TraceKind::Device | TraceKind::NoMemory => match form {
            RowForm::Trace => (5, "4 fields: session,op,resource,mode"),
            RowForm::History => (7, "7 fields: place,session,op,resource,mode,reply,value"),
        },
    }
}

/// The hint to a fault of a row, for the lines behind `glm: row R: KIND`: the line of the file with the row, a mark below the
/// field that is wrong, and what is expected there. Empty if the row isn't kept, and for `Device` and `NoMemory`. `sessions` is
/// how many sessions the command has. Fails only with `NoMemory`.
pub fn hint_text(
    alloc: Global,
    rows: &KeptRows,
    fault: &TraceFault,
    form: RowForm,
    sessions: u16,
) -> Result<Vec<u8>, NoMemory>
    ensures lines { IfOk result (λ text. IsHintText text.items) }
{
    let mut lines = Lines::new(alloc);
    if matches!(fault.kind, TraceKind::Device | TraceKind::NoMemory) {
        return Ok(lines.into_text());
    }
    if let Some((row, line)) = rows.row(fault.row) {
        let (index, words) = expected(row, form, fault.kind);
        let head = format!(in alloc; "line {line}: ")?;
        let mark = field_span(row, form as usize, index);
        put_marked_row(&mut lines, head.as_str(), row, mark)?;
        let place = fault.row.saturating_sub(1);
        let text = match fault.kind {
            TraceKind::Place => format!(in alloc; "expected {place}{words}")?,
            TraceKind::Session => format!(in alloc; "expected {words}{sessions}")?,
            _ => format!(in alloc; "expected {words}")?,
        };
        lines.put("  ", text.as_str())?;
    }
    Ok(lines.into_text())
}

/// Writes the row of an entry behind `head`, with a mark below the reply and its value.
fn put_entry(lines: &mut Lines, head: &str, place: u64, entry: Entry) -> Result<(), NoMemory> {
    let text = piece_text(lines.alloc(), place, &[entry])?;
    let row = first_row(&text);
    let start = field_span(row, 0, 5).start;
    put_marked_row(lines, head, row, start..row.len())
}

/// Lines that show the row of a history at `place` as it is told, and with the reply that the lock table gives there, each with
/// a mark below the reply. Fails only with `NoMemory`.
pub fn expected_text(
    alloc: Global,
    place: u64,
    told: &Entry,
    given: &Reply,
) -> Result<Vec<u8>, NoMemory>
    ensures lines { IfOk result (λ text. IsHintText text.items) }
{
    let mut lines = Lines::new(alloc);
    let first = format!(in alloc; "place {place}: the reply isn't the lock table's")?;
    lines.put("glm: ", first.as_str())?;
    put_entry(&mut lines, "in the history:   ", place, *told)?;
    let right = Entry {
        reply: *given,
        ..*told
    };
    put_entry(&mut lines, "the lock table's: ", place, right)?;
    Ok(lines.into_text())
}
