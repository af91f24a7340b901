//! The rows of a file, each read from one csv record.

ghost use Rattle.std.specs.Prelude.{◌≡◌, ◌<◌, ℕ, List, Result, length};
ghost use Rattle.csv.specs.Records.{fields_of};
ghost use Rattle.lock_trace.specs.Tests.{field_of};
ghost use Rattle.lock_trace.specs.declared.faults.TraceKind.{TraceKind as KindValue};

use crate::faults::TraceKind;
use csv::ByteRecord;

/// A row of a trace or of a history.
pub(crate) trait Row: Sized + Drop {
    /// Whether this is a row for this number of sessions.
    ghost is: { ℕ → Self → Type 0 };

    /// The records of a list of rows: the fields of each row, in order.
    ghost records: { List Self → List (List (List ℕ)) };

    /// The fields of the row at this index of the file, counted from 0.
    ghost fields: { ℕ → Self → List (List ℕ) };

    /// What the fields of a record are read as, for a number of sessions and an index in the file: a row, or the
    /// first test that fails.
    ghost read: { ℕ → ℕ → List (List ℕ) → Result Self KindValue };

    /// Reads the row of a record, for sessions numbered from 1 to `sessions`. `place` is the row's index in the
    /// file, counted from 0. Fails with the first test that the record fails.
    fn in_record(row: &ByteRecord, sessions: u16, place: u64) -> Result<Self, TraceKind>
        ensures { result ≡ read sessions place (fields_of row.now) };
}

/// The field at index `i` of the record.
pub(crate) fn field_at<'a>(row: &'a ByteRecord, i: usize) -> &'a [u8]
    requires { i < length (fields_of row.now) }
    ensures { result.now ≡ field_of (fields_of row.now) i }
{
    row.get(i).unwrap()
}
