//! Reads a history row by row, and keeps no entry of it in memory.

ghost use Rattle.std.specs.Prelude.{◌≡◌, ◌<◌, ℕ, List, [], Some, IfOk, IfErr, IfSome};
ghost use Rattle.lock_trace.specs.ReadHistories.{TellsOfHistory};
ghost use Rattle.lock_trace.specs.HistoryReaders.{IsNextEntry, IsOpen, IsReading, ReadsOn, entries_read, sessions_read};

use crate::faults::{TraceFault, TraceKind};
use crate::reading::{next_row, record_reader, sized_record};
use csv::{ByteRecord, Reader};
use lock_rules::Entry;
use sequential::GhostList;
use std::alloc::Global;
use std::io::Read;

/// A history that is read row by row, as [`read_history`](crate::read_history) reads it whole: the same entries, and the same
/// fault at the same row. Once it has told the end or a fault, it reads no further.
#[derive(Drop)]
pub struct HistoryReader<R> {
    /// The reader of records.
    reader: Reader<R>,
    /// The record of a row.
    row: ByteRecord,
    /// Sessions are numbered from 1 up to this.
    sessions: u16,
    /// The place of the next entry.
    place: u64,
    /// The entries that were read, which take no memory.
    told: GhostList<Entry>,
}

impl<R: Read + Drop> HistoryReader<R> {
    /// Begins to read a history for sessions numbered from 1 to `sessions`, by the rules of `read_history`. Fails with `NoMemory`
    /// at row 1 if there is no memory for a row.
    pub fn new(alloc: Global, input: R, sessions: u16) -> Result<HistoryReader<R>, TraceFault>
        ensures ready { IfOk result IsOpen }
        ensures sessions { IfOk result (λ made. sessions_read made ≡ sessions) }
        ensures none { IfOk result (λ made. entries_read made ≡ []) }
        ensures reading { (bytes : List ℕ) → R.remaining input ≡ Some bytes → IfOk result (IsReading R.remaining bytes) }
        ensures from_one { IfErr result (λ fault. 0 < fault.row) }
        ensures fault { (bytes : List ℕ) → R.remaining input ≡ Some bytes → IfErr result (TellsOfHistory sessions bytes) }
    {
        let reader = record_reader(alloc, input);
        let Ok(row) = sized_record(alloc) else {
            let kind = TraceKind::NoMemory;
            return Err(TraceFault { row: 1, kind });
        };
        Ok(HistoryReader {
            reader,
            row,
            sessions,
            place: 0,
            told: GhostList::new(),
        })
    }

    /// Reads the next entry, `None` at the end of the history. Fails at the first row that can't be read, with its number and the
    /// first test that it fails; `Device` and `NoMemory` have the number of the row that was being read. A reader that told the
    /// end or a fault isn't open any more.
    pub fn next(&mut self) -> Result<Option<Entry>, TraceFault>
        requires ready { IsOpen self.old }
        // hold whatever the reader gives
        ensures entry { IfOk result (λ found. IfSome found (IsNextEntry self.old self.new)) }
        ensures from_one { IfErr result (λ fault. 0 < fault.row) }

        // holds if the bytes of the history are known
        ensures reads { (bytes : List ℕ) → IsReading R.remaining bytes self.old → ReadsOn R.remaining bytes self.old self.new result }
    {
        let number = self.place + 1;
        if number == u64::MAX {
            let kind = TraceKind::NoMemory;
            return Err(TraceFault { row: number, kind });
        }
        match next_row(&mut self.reader, &mut self.row, self.sessions, self.place) {
            Ok(Some(entry)) => {
                self.place = number;
                self.told.push(&entry);
                Ok(Some(entry))
            }
            Ok(None) => Ok(None),
            Err(kind) => Err(TraceFault { row: number, kind }),
        }
    }
}
