//! The calls of `lock_trace`, with success, where a reader fails, and where memory is refused. Texts and their faults are in
//! `checks/program-tables`.

ghost use Rattle.std.specs.Prelude.{◌+◌, ◌≤◌, ◌^◌, length};

use lock_modes::Mode;
use lock_rules::{Call, Entry, Reply, Why};
use lock_trace::{
    TraceFault, TraceKind, TraceRow, history_text, piece_text, read_history, read_trace,
};
use lock_tree::{PathFault, Resource};
use std::alloc::Global;
use std::io;
use std::test::Fail;

/// The text of each fault, and its number; that of a path has the path's fault in its text.
#[test]
fn faults_have_their_texts_and_numbers(rt: HostRuntime) -> Result<(), Fail> {
    for (kind, number, want) in [
        (TraceKind::Shape, 1, "row 3: Shape"),
        (TraceKind::Session, 2, "row 3: Session"),
        (TraceKind::Op, 3, "row 3: Op"),
        (
            TraceKind::Path(PathFault::TooDeep),
            4,
            "row 3: Path TooDeep",
        ),
        (TraceKind::Mode, 5, "row 3: Mode"),
        (TraceKind::Extra, 6, "row 3: Extra"),
        (TraceKind::Device, 7, "row 3: Device"),
        (TraceKind::NoMemory, 8, "row 3: NoMemory"),
        (TraceKind::Place, 9, "row 3: Place"),
        (TraceKind::Reply, 10, "row 3: Reply"),
        (TraceKind::Value, 11, "row 3: Value"),
    ] {
        let text = TraceFault { row: 3, kind }.to_string(rt.alloc())?;
        let right = text.as_str() == want;
        assert!(rt; right & (kind.number() == number), "{want}");
    }
    Ok(())
}

/// A reader that gives one byte at a time, and fails or ends after the last one.
#[derive(Drop)]
struct ByteReader<'a> {
    /// The bytes that are still to be given.
    left: &'a [u8],
    /// Whether the reader fails after the last byte, instead of ending.
    fails_at_end: bool,
}

impl io::Read for ByteReader<'_> {
    /// Gives one byte, or fails or ends.
    fn read(&mut self, buf: &mut [u8]) -> io::Result<usize> {
        if buf.is_empty() {
            return Ok(0);
        }
        match self.left {
            [first, rest @ ..] => {
                buf[0] = *first;
                self.left = rest;
                Ok(1)
            }
            [] if self.fails_at_end => Err(io::Error::from(io::ErrorKind::UnexpectedEof)),
            [] => Ok(0),
        }
    }
}

/// A reader that gives one byte at a time gives the same rows.
#[test]
fn reads_byte_by_byte(rt: HostRuntime) -> Result<(), Fail> {
    let database = Resource::parse("7")?;
    let left = b"1,begin,,\r\n\"1\",lock,7,S\n\n1,commit,,";
    let fails_at_end = false;
    let rows = read_trace(rt.alloc(), ByteReader { left, fails_at_end }, 1)?;
    let lock = Call::Lock(database, Mode::S);
    let want = [
        TraceRow {
            session: 1,
            call: Call::Begin,
        },
        TraceRow {
            session: 1,
            call: lock,
        },
        TraceRow {
            session: 1,
            call: Call::Commit,
        },
    ];
    assert!(rt; rows.as_slice() == want.as_slice());
    Ok(())
}

/// What a reader reads.
#[derive(Clone, Copy)]
enum Form {
    /// The rows of a trace.
    Trace,
    /// The entries of a history.
    History,
}

/// Whether a reader that fails after these bytes gives this fault.
fn fails_with(alloc: Global, form: Form, left: &[u8], row: u64, kind: TraceKind) -> bool {
    let fails_at_end = true;
    let input = ByteReader { left, fails_at_end };
    let fault = match form {
        Form::Trace => read_trace(alloc, input, 1).err(),
        Form::History => read_history(alloc, input, 1).err(),
    };
    fault == Some(TraceFault { row, kind })
}

/// Whether a reader that fails after any number of bytes of the text gives the fault `Device` of its row. The rows end at `ends`; an
/// end past the text is of no row.
fn fails_everywhere(alloc: Global, form: Form, text: &[u8], ends: [usize; 3]) -> bool {
    let mut right = true;
    for length in 0..=text.len() {
        let [first, second, third] = ends;
        let row = 1
            + (length >= first) as u64
            + (length >= second) as u64
            + (length >= third) as u64;
        right &= fails_with(alloc, form, &text[..length], row, TraceKind::Device);
    }
    right
}

/// A reader that fails after any number of bytes is the fault `Device` in its row; an earlier faulty row comes first.
#[test]
fn reports_a_failed_reader_with_its_row(rt: HostRuntime) {
    let trace = b"1,begin,,\n1,lock,7,S\n1,commit,,\n";
    assert!(rt; fails_everywhere(rt.alloc(), Form::Trace, trace, [10, 21, 32]));
    let history = b"0,1,begin,,,began,1\n1,1,poll,,,clear,\n";
    assert!(rt; fails_everywhere(rt.alloc(), Form::History, history, [20, 38, 39]));
    let trace = b"1,begin,,\n1,poll\n1,";
    assert!(rt; fails_with(rt.alloc(), Form::Trace, trace, 2, TraceKind::Shape));
    let history = b"0,1,begin,,,began,1\n0,1,poll,,,clear,\n";
    assert!(rt; fails_with(rt.alloc(), Form::History, history, 2, TraceKind::Place));
}

/// Reads the text byte by byte. Returns the number of rows or the fault, and the number of bytes that were read.
fn counted(alloc: Global, text: &[u8]) -> (Result<usize, TraceFault>, u64) {
    let fails_at_end = false;
    let mut input = ByteReader {
        left: text,
        fails_at_end,
    };
    let result = match read_trace(alloc, &mut input, 1) {
        Ok(rows) => Ok(rows.len()),
        Err(fault) => Err(fault),
    };
    let read = text.len().saturating_sub(input.left.len()) as u64;
    (result, read)
}

/// If memory is refused, the fault names the row that was being read. Prints the row, for the check that refuses each
/// allocation in turn.
#[test]
fn reports_the_row_in_which_memory_was_refused(rt: HostRuntime) -> Result<(), Fail> {
    // each row has nine bytes, except the last row of the second text, which has more fields than a record has room for
    let shape = TraceFault {
        row: 3,
        kind: TraceKind::Shape,
    };
    let five = b"1,poll,,\n1,poll,,\n1,poll,,\n1,poll,,\n1,poll,,\n".as_slice();
    let three = b"1,poll,,\n1,poll,,\n1,,,,,,,,,,,,,,,,\n".as_slice();
    for (text, last, want) in [(five, 5, Ok(5)), (three, 3, Err(shape))] {
        let (result, read) = counted(rt.alloc(), text);
        let row = read.div_ceil(9).clamp(1, last);
        let kind = TraceKind::NoMemory;
        if result == Err(TraceFault { row, kind }) {
            println!(&rt; "refused in row {row}")?;
        } else {
            assert!(rt; result == want, "{text:?}");
        }
    }
    Ok(())
}

/// A history as text, with every op and every reply.
const HISTORY_TEXT: &[u8] = b"0,1,begin,,,began,1
1,1024,begin,,,began,18446744073709551615
2,1,lock,7,X,granted,X
3,1024,lock,4294967295,SIX,waiting,
4,1024,commit,,,refused,IsWaiting
5,1,lock,0,NL,refused,NothingAsked
6,1,commit,,,committed,1
7,1,commit,,,refused,NoTransaction
8,1024,commit,,,committed,4294967295
9,1,convert,7/2/40/1,IX,granted,SIX
10,1,release,7/2/40/1,,released,
11,1,poll,,,clear,
12,1,abort,,,aborted,0
13,1024,abort,,,aborted,4294967295
14,1,lock,7,S,deadlock,
15,1,commit,,,refused,IsDoomed
16,1,lock,8,U,granted,U
17,1,try,7/2/40/1,S,granted,U
18,1024,try,4294967295,X,refused,WouldWait
19,1024,withdraw,,,withdrawn,
20,1,withdraw,,,refused,NotWaiting
21,1,restart,,,restarted,0
22,1024,restart,,,restarted,4294967295
";

/// Returns an entry of a history.
fn entry(session: u16, call: Call, reply: Reply) -> Entry {
    Entry {
        session,
        call,
        reply,
    }
}

/// Returns the entries of `HISTORY_TEXT`, which name databases 0, 7 and 8, the last database and the record 7/2/40/1.
fn history(
    none: Resource,
    seven: Resource,
    eight: Resource,
    last: Resource,
    record: Resource,
) -> [Entry; 23] {
    [
        entry(1, Call::Begin, Reply::Began(1)),
        entry(1024, Call::Begin, Reply::Began(18446744073709551615)),
        entry(1, Call::Lock(seven, Mode::X), Reply::Granted(Mode::X)),
        entry(1024, Call::Lock(last, Mode::SIX), Reply::Waiting),
        entry(1024, Call::Commit, Reply::Refused(Why::IsWaiting)),
        entry(
            1,
            Call::Lock(none, Mode::NL),
            Reply::Refused(Why::NothingAsked),
        ),
        entry(1, Call::Commit, Reply::Committed(1)),
        entry(1, Call::Commit, Reply::Refused(Why::NoTransaction)),
        entry(1024, Call::Commit, Reply::Committed(4294967295)),
        entry(
            1,
            Call::Convert(record, Mode::IX),
            Reply::Granted(Mode::SIX),
        ),
        entry(1, Call::Release(record), Reply::Released),
        entry(1, Call::Poll, Reply::Clear),
        entry(1, Call::Abort, Reply::Aborted(0)),
        entry(1024, Call::Abort, Reply::Aborted(4294967295)),
        entry(1, Call::Lock(seven, Mode::S), Reply::Deadlock),
        entry(1, Call::Commit, Reply::Refused(Why::IsDoomed)),
        entry(1, Call::Lock(eight, Mode::U), Reply::Granted(Mode::U)),
        entry(1, Call::Try(record, Mode::S), Reply::Granted(Mode::U)),
        entry(
            1024,
            Call::Try(last, Mode::X),
            Reply::Refused(Why::WouldWait),
        ),
        entry(1024, Call::Withdraw, Reply::Withdrawn),
        entry(1, Call::Withdraw, Reply::Refused(Why::NotWaiting)),
        entry(1, Call::Restart, Reply::Restarted(0)),
        entry(1024, Call::Restart, Reply::Restarted(4294967295)),
    ]
}

/// Whether these entries are written as this text, and read from it.
fn writes_and_reads(alloc: Global, entries: &[Entry], text: &[u8]) -> Result<bool, TraceFault> {
    let read = read_history(alloc, text, 1024)?;
    let is_read = read.as_slice() == entries;
    match history_text(alloc, entries) {
        Ok(written) => Ok(is_read & (written.as_slice() == text)),
        Err(_) => Ok(false),
    }
}

/// Every op and every reply is written and read; so is the empty history.
#[test]
fn writes_and_reads_histories(rt: HostRuntime) -> Result<(), Fail> {
    let entries = history(
        Resource::parse("0")?,
        Resource::parse("7")?,
        Resource::parse("8")?,
        Resource::parse("4294967295")?,
        Resource::parse("7/2/40/1")?,
    );
    let right = writes_and_reads(rt.alloc(), &entries, HISTORY_TEXT)?;
    assert!(rt; right & writes_and_reads(rt.alloc(), &[], b"")?);
    Ok(())
}

/// Whether a piece of these entries from this place on is this text.
fn writes_piece(alloc: Global, first: u64, entries: &[Entry], text: &[u8]) -> bool
    requires { first + length entries.now ≤ 2 ^ 64 }
{
    match piece_text(alloc, first, entries) {
        Ok(written) => written.as_slice() == text,
        Err(_) => false,
    }
}

/// The entries of a piece stand at the places from its first one on, up to the greatest place.
#[test]
fn writes_pieces(rt: HostRuntime) {
    let entries = [
        entry(1, Call::Poll, Reply::Clear),
        entry(2, Call::Abort, Reply::Aborted(0)),
    ];
    let text = b"99,1,poll,,,clear,\n100,2,abort,,,aborted,0\n";
    let mut right = writes_piece(rt.alloc(), 99, &entries, text);
    let text = b"18446744073709551614,1,poll,,,clear,\n18446744073709551615,2,abort,,,aborted,0\n";
    right &= writes_piece(rt.alloc(), u64::MAX - 1, &entries, text);
    assert!(rt; right & writes_piece(rt.alloc(), 7, &[], b""));
}
