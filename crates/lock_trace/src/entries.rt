//! Reads one row of a history from the fields of its record.

ghost use Rattle.std.specs.Prelude.{◌≡◌, length};
ghost use Rattle.csv.specs.Records.{fields_of};
ghost use Rattle.lock_trace.specs.Tests.{field_of};
ghost use Rattle.lock_trace.specs.Entries.{without_value, value_in, reply_in, entry_in};

use crate::faults::TraceKind;
use crate::fields::{check_place, count_of, granted_of, number_of, reply_kind_of, why_of};
use crate::record::{Row, field_at};
use crate::trace_row::{TraceRow, read_row};
use csv::ByteRecord;
use lock_rules::{Entry, Reply, ReplyKind};

/// Returns `reply`, which takes no value. Fails with `Value` unless the value field is empty.
fn reply_without_value(reply: Reply, value: &[u8]) -> Result<Reply, TraceKind>
    ensures { result ≡ without_value reply value.now }
{
    if !value.is_empty() {
        return Err(TraceKind::Value);
    }
    Ok(reply)
}

/// The reply of this kind; `value` is its value field. Fails with `Value`.
fn reply_of_kind(kind: ReplyKind, value: &[u8]) -> Result<Reply, TraceKind>
    ensures { result ≡ value_in kind value.now }
{
    match kind {
        ReplyKind::Began => {
            let number = number_of(value, u64::MAX)?;
            Ok(Reply::Began(number))
        }
        ReplyKind::Granted => {
            let mode = granted_of(value)?;
            Ok(Reply::Granted(mode))
        }
        ReplyKind::Waiting => reply_without_value(Reply::Waiting, value),
        ReplyKind::Deadlock => reply_without_value(Reply::Deadlock, value),
        ReplyKind::Clear => reply_without_value(Reply::Clear, value),
        ReplyKind::Released => reply_without_value(Reply::Released, value),
        ReplyKind::Committed => {
            let locks = count_of(value)?;
            Ok(Reply::Committed(locks))
        }
        ReplyKind::Aborted => {
            let locks = count_of(value)?;
            Ok(Reply::Aborted(locks))
        }
        ReplyKind::Refused => {
            let why = why_of(value)?;
            Ok(Reply::Refused(why))
        }
        ReplyKind::Withdrawn => reply_without_value(Reply::Withdrawn, value),
        ReplyKind::Restarted => {
            let locks = count_of(value)?;
            Ok(Reply::Restarted(locks))
        }
    }
}

/// Reads a reply from its two fields. Fails with `Reply` if the word is unknown, and with `Value` if the word does
/// not take the value.
fn reply_of(word: &[u8], value: &[u8]) -> Result<Reply, TraceKind>
    ensures { result ≡ reply_in word.now value.now }
{
    let kind = reply_kind_of(word)?;
    reply_of_kind(kind, value)
}

/// Reads the entry at index `place` of a history from a record of seven fields. Tests the fields from left to
/// right, with `Extra` after the mode, and fails with the first test that fails.
fn entry_at(row: &ByteRecord, sessions: u16, place: u64) -> Result<Entry, TraceKind>
    requires { length (fields_of row.now) ≡ 7 }
    ensures { let field = field_of (fields_of row.now) in
        result ≡ entry_in sessions place (field 0) (field 1) (field 2) (field 3) (field 4) (field 5) (field 6) }
{
    check_place(field_at(row, 0), place)?;
    let TraceRow { session, call } = read_row(
        sessions,
        field_at(row, 1),
        field_at(row, 2),
        field_at(row, 3),
        field_at(row, 4),
    )?;
    let reply = reply_of(field_at(row, 5), field_at(row, 6))?;
    Ok(Entry {
        session,
        call,
        reply,
    })
}

impl Row for Entry {
    ghost use Rattle.lock_trace.specs.Entries.{IsEntry, entry_of};
    ghost use Rattle.lock_trace.specs.Histories.{fields_of_entry, records_of_history};

    ghost is = { IsEntry };

    ghost records = { records_of_history };

    ghost fields = { fields_of_entry };

    ghost read = { entry_of };

    fn in_record(row: &ByteRecord, sessions: u16, place: u64) -> Result<Entry, TraceKind> {
        if row.len() != 7 {
            return Err(TraceKind::Shape);
        }
        entry_at(row, sessions, place)
    }
}
