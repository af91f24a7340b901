//! Reads whole traces and histories.

ghost use Rattle.std.specs.Prelude.{◌≡◌, ℕ, ◌+◌, ◌<◌, Bool, true, List, [], Some, IsSome, IfSome, IfOk, IfErr, OnOk, if◌then◌else◌, option_map, All};
ghost use Rattle.csv.specs.Reading.{source_of, strip_bom, is_io, error_kind};
ghost use Rattle.csv.specs.Records.{fields_of};
ghost use Rattle.csv.specs.declared.parser.State.TheVariants as st;
ghost use Rattle.lock_trace.specs.declared.faults.TraceKind.TheVariants as kind;
ghost use Rattle.lock_trace.specs.Rows.{IsRow};
ghost use Rattle.lock_trace.specs.Entries.{IsEntry};
ghost use Rattle.lock_trace.specs.Records.{records_on, records_of};
ghost use Rattle.lock_trace.specs.Files.{AnswersWith, rows_from};
ghost use Rattle.lock_trace.specs.Traces.{Answers};
ghost use Rattle.lock_trace.specs.ReadHistories.{AnswersHistory};
ghost use Rattle.lock_trace.specs.inner.Reading.{IsRecordReader, IsFormat, IsNextRecord, IsNextRow, is_io_or_memory_error};

use crate::faults::{TraceFault, TraceKind};
use crate::record::Row;
use crate::trace_row::TraceRow;
use csv::{ByteRecord, Error, ErrorKind, Reader, ReaderBuilder};
use lock_rules::Entry;
use std::alloc::{AllocError, Global};
use std::io::Read;

/// The bytes that the record has room for at first. The record grows if a row is longer.
const RECORD_BYTES: usize = 256;

/// The fields that the record has room for at first.
const RECORD_FIELDS: usize = 8;

/// A csv reader without a header row that takes records of any number of fields.
pub(crate) fn record_reader<R: Read>(alloc: Global, input: R) -> Reader<R>
    ensures reading { IsRecordReader result }
    ensures start { result.state ≡ st.StartRecord }
    ensures source { source_of R.remaining result ≡ option_map strip_bom (R.remaining input) }
{
    ReaderBuilder::new()
        .has_headers(false)
        .flexible(true)
        .from_reader(alloc, input)
}

/// A record with room for a row of common length. The csv reader takes in at once as many bytes of a row as the record
/// has room for, so a record that starts small is filled in several pieces.
pub(crate) fn sized_record(alloc: Global) -> Result<ByteRecord, AllocError>
    ensures { IfOk result (λ row. fields_of row ≡ []) }
{
    ByteRecord::with_capacity(alloc, RECORD_BYTES, RECORD_FIELDS)
}

/// The fault of a failed read: `Device` or `NoMemory`. The csv reader refuses no record for its length or its
/// bytes.
#[cold]
#[inline(never)]
fn fault_kind(error: &Error) -> TraceKind
    requires { is_io_or_memory_error (error_kind error.now) ≡ true }
    ensures { result ≡ (if is_io (error_kind error.now) then kind.Device else kind.NoMemory) }
{
    match error.kind() {
        ErrorKind::Io(_) => TraceKind::Device,
        ErrorKind::OutOfMemory => TraceKind::NoMemory,
        _ => unreachable!(),
    }
}

/// Reads the next record into `row`. Returns whether there was one. Fails with `Device` or `NoMemory`.
#[inline(always)]
fn next_record<R: Read>(reader: &mut Reader<R>, row: &mut ByteRecord) -> Result<bool, TraceKind>
    requires { IsRecordReader reader.old }
    ensures reading { OnOk result (IsRecordReader reader.new) }
    ensures next { (bytes : List ℕ) → source_of R.remaining reader.old ≡ Some bytes
        → IsNextRecord R.remaining (records_on reader.old.state [] [] bytes) reader.new (fields_of row.new) result }
{
    match reader.read_byte_record(row) {
        Ok(found) => Ok(found),
        Err(error) => Err(fault_kind(&error)),
    }
}

/// Reads the next row, or `None` at the end of the input. Fails with `Device`, `NoMemory`, or the first test that
/// the row fails.
pub(crate) fn next_row<R: Read, T: Row>(
    reader: &mut Reader<R>,
    row: &mut ByteRecord,
    sessions: u16,
    place: u64,
) -> Result<Option<T>, TraceKind>
    requires reading { IsRecordReader reader.old }
    requires format { IsFormat (T.is sessions) T.records T.fields (T.read sessions) }
    ensures reading { IfOk result (λ found. IsSome found → IsRecordReader reader.new) }
    ensures row { IfOk result (λ found. IfSome found (λ row. T.is sessions row)) }
    ensures next { (bytes : List ℕ) → source_of R.remaining reader.old ≡ Some bytes
        → IsNextRow R.remaining (T.fields place) (T.read sessions place) (records_on reader.old.state [] [] bytes) reader.new result }
{
    if !next_record(reader, row)? {
        return Ok(None);
    }
    match T::in_record(row, sessions, place) {
        Ok(found) => Ok(Some(found)),
        Err(kind) => Err(kind),
    }
}

/// Reads all rows of a file. Fails at the first row that cannot be read.
fn read_rows<R: Read + Drop, T: Row>(
    alloc: Global,
    input: R,
    sessions: u16,
) -> Result<Vec<T>, TraceFault>
    requires format { IsFormat (T.is sessions) T.records T.fields (T.read sessions) }
    ensures rows { IfOk result (λ rows. All (T.is sessions) rows.items) }
    ensures from_one { IfErr result (λ fault. 0 < fault.row) }
    ensures answer { (bytes : List ℕ) → R.remaining input ≡ Some bytes
        → AnswersWith (T.is sessions) T.records (records_of bytes) (rows_from (T.read sessions) 0 (records_of bytes)) result }
{
    let mut reader = record_reader(alloc, input);
    let Ok(mut row) = sized_record(alloc) else {
        let kind = TraceKind::NoMemory;
        return Err(TraceFault { row: 1, kind });
    };
    let mut rows = Vec::new(alloc);
    for _ in 0..u64::MAX {
        let place = rows.len() as u64;
        let number = place + 1;
        match next_row(&mut reader, &mut row, sessions, place) {
            Ok(Some(found)) => {
                if rows.push(found).is_err() {
                    let kind = TraceKind::NoMemory;
                    return Err(TraceFault { row: number, kind });
                }
            }
            Ok(None) => return Ok(rows),
            Err(kind) => return Err(TraceFault { row: number, kind }),
        }
    }
    let kind = TraceKind::NoMemory;
    Err(TraceFault {
        row: rows.len() as u64 + 1,
        kind,
    })
}

/// Reads a whole trace for sessions numbered from 1 to `sessions`. A session above that number is the fault
/// `Session`; `sessions` itself is not checked against `MAX_SESSIONS`. The input is csv without a header row, four
/// fields a row: session, operation, resource, mode. docs/FORMATS.md describes them.
///
/// Returns the rows in order if every record is a row. Otherwise returns no rows, but the number of the first
/// faulty row and the first test that it fails. `Device` (the reader failed) and `NoMemory` (memory was refused)
/// have the number of the row that was being read. The reader is consumed; how far it was read before a fault is
/// not specified.
pub fn read_trace<R: Read + Drop>(
    alloc: Global,
    input: R,
    sessions: u16,
) -> Result<Vec<TraceRow>, TraceFault>
    // Hold whatever the reader gives.
    ensures rows { IfOk result (λ rows. All (IsRow sessions) rows.items) }
    ensures from_one { IfErr result (λ fault. 0 < fault.row) }

    // Holds if the reader states which bytes remain in it.
    ensures answer { (bytes : List ℕ) → R.remaining input ≡ Some bytes
        → Answers sessions bytes result }
{
    read_rows(alloc, input, sessions)
}

/// Reads a whole history for sessions numbered from 1 to `sessions`. A session above that number is the fault
/// `Session`; `sessions` itself is not checked against `MAX_SESSIONS`. The input is csv without a header row,
/// seven fields a row: place, session, operation, resource, mode, reply, value. docs/FORMATS.md describes them.
///
/// Returns the entries in order if every record is the entry of its place; places are counted from 0. Otherwise
/// returns no entries, but the number of the first faulty row and the first test that it fails. `Device` (the
/// reader failed) and `NoMemory` (memory was refused) have the number of the row that was being read. The reader
/// is consumed; how far it was read before a fault is not specified.
///
/// Does not check whether the history is legal.
pub fn read_history<R: Read + Drop>(
    alloc: Global,
    input: R,
    sessions: u16,
) -> Result<Vec<Entry>, TraceFault>
    // Hold whatever the reader gives.
    ensures entries { IfOk result (λ entries. All (IsEntry sessions) entries.items) }
    ensures from_one { IfErr result (λ fault. 0 < fault.row) }

    // Holds if the reader states which bytes remain in it.
    ensures answer { (bytes : List ℕ) → R.remaining input ≡ Some bytes
        → AnswersHistory sessions bytes result }
{
    read_rows(alloc, input, sessions)
}
