//! The command `check --stream`: compares each reply of a history with a fresh lock table's as its row is read.

ghost use Rattle.std.specs.Prelude.{◌≡◌, ℕ, ◌<◌, ◌≤◌, List, [], Some, IfErr};
ghost use Rattle.lock_rules.specs.declared.calls.TheConstants.{MAX_SESSIONS};
ghost use Rattle.lock_trace.specs.HistoryReaders.{IsOpen, IsReading, entries_read, sessions_read};
ghost use Rattle.replay_commands.specs.Verdicts.{Finds, IsFaultOfCheck};
ghost use Rattle.replay_commands.specs.RowsJudged.{FindsIn, IsFound, IsRest, StopsAt, StopsIn};

use crate::checking::{fresh_book, judge_entry};
use crate::finding::{Finding, WrongReply};
use crate::tool_fault::ToolFault;
use lock_desk::Book;
use lock_trace::{HistoryReader, TraceFault};
use std::alloc::Global;
use std::io::Read;

/// Why no more rows are judged.
#[derive(Clone, Copy, Debug, Drop, PartialEq, Eq)]
pub(crate) enum Stop {
    /// The history ends.
    End,
    /// A reply differs from the lock table's.
    Wrong(WrongReply),
    /// The lock table found no memory.
    Starved,
}

/// Reads the rows that are left. Fails at the first one that can't be read.
fn read_rest<R: Read + Drop>(reader: &mut HistoryReader<R>) -> Result<(), TraceFault>
    requires ready { IsOpen reader.old }
    ensures rest { (bytes : List ℕ) → IsReading R.remaining bytes reader.old → IsRest (sessions_read reader.old) bytes (entries_read reader.old) result }
{
    for _turn in 0..u64::MAX {
        match reader.next() {
            Ok(Some(_entry)) => {}
            Ok(None) => return Ok(()),
            Err(fault) => return Err(fault),
        }
    }
    unreachable!()
}

/// Reads rows and serves their calls in order, up to the end of the history, the first reply that differs from the book's, or
/// the first call for which the book finds no memory. Fails at the first row that can't be read.
fn judge_rows<R: Read + Drop>(
    reader: &mut HistoryReader<R>,
    book: &mut Book,
) -> Result<Stop, TraceFault>
    requires ready { IsOpen reader.old }
    requires none { entries_read reader.old ≡ [] }
    requires sessions { book.old.sessions ≡ sessions_read reader.old }
    requires empty { book.old.history ≡ [] }
    ensures stop { StopsAt (sessions_read reader.old) reader.new book.new result }
    ensures known { (bytes : List ℕ) → IsReading R.remaining bytes reader.old → StopsIn R.remaining (sessions_read reader.old) bytes reader.new book.new result }
{
    for _turn in 0..u64::MAX {
        let entry = match reader.next() {
            Ok(Some(entry)) => entry,
            Ok(None) => return Ok(Stop::End),
            Err(fault) => return Err(fault),
        };
        match judge_entry(book, &entry) {
            Ok(None) => {}
            Ok(Some(wrong)) => return Ok(Stop::Wrong(wrong)),
            Err(_) => return Ok(Stop::Starved),
        }
    }
    unreachable!()
}

/// Reads the rows that are left, and returns what was found in front of them. Fails at the first one that can't be read.
fn found_behind<R: Read + Drop>(
    reader: &mut HistoryReader<R>,
    found: Option<Finding>,
) -> Result<Option<Finding>, TraceFault>
    requires ready { IsOpen reader.old }
    requires found { IsFound (entries_read reader.old) found }
    ensures finds { (bytes : List ℕ) → IsReading R.remaining bytes reader.old → FindsIn (sessions_read reader.old) bytes result }
{
    match read_rest(reader) {
        Ok(()) => Ok(found),
        Err(fault) => Err(fault),
    }
}

/// Reads all rows and returns what is found, `None` if the lock table found no memory. Fails at the first row that can't be
/// read, also behind a wrong reply.
fn finding_in<R: Read + Drop>(
    alloc: Global,
    reader: &mut HistoryReader<R>,
    sessions: u16,
) -> Result<Option<Finding>, TraceFault>
    requires some { 0 < sessions }
    requires few { sessions ≤ MAX_SESSIONS }
    requires ready { IsOpen reader.old }
    requires none { entries_read reader.old ≡ [] }
    requires sessions { sessions_read reader.old ≡ sessions }
    ensures finds { (bytes : List ℕ) → IsReading R.remaining bytes reader.old → FindsIn sessions bytes result }
{
    let Ok(mut book) = fresh_book(alloc, sessions) else {
        return found_behind(reader, None);
    };
    match judge_rows(reader, &mut book) {
        Ok(Stop::End) => Ok(Some(Finding::Legal(book.served()))),
        Ok(Stop::Wrong(wrong)) => found_behind(reader, Some(Finding::Wrong(wrong))),
        Ok(Stop::Starved) => found_behind(reader, None),
        Err(fault) => Err(fault),
    }
}

/// Checks a history as [`check_whole`](crate::check_whole) does, and keeps neither rows nor entries in memory: each reply is
/// compared as its row is read. The answer is the same, since all rows are read in any case: a row that can't be read is the
/// fault, also behind a wrong reply or a call for which the lock table found no memory.
pub fn check_by_row<R: Read + Drop>(
    alloc: Global,
    input: R,
    sessions: u16,
) -> Result<Finding, ToolFault>
    requires some { 0 < sessions }
    requires few { sessions ≤ MAX_SESSIONS }
    // holds for every reader
    ensures faults { IfErr result (λ fault. IsFaultOfCheck fault) }

    // holds for a reader whose bytes are known
    ensures finds { (bytes : List ℕ) → R.remaining input ≡ Some bytes → Finds sessions bytes result }
{
    let mut reader = match HistoryReader::new(alloc, input, sessions) {
        Ok(reader) => reader,
        Err(fault) => return Err(ToolFault::Trace(fault)),
    };
    match finding_in(alloc, &mut reader, sessions) {
        Ok(Some(finding)) => Ok(finding),
        Ok(None) => Err(ToolFault::NoMemory),
        Err(fault) => Err(ToolFault::Trace(fault)),
    }
}
