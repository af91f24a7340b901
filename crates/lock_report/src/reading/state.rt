//! Reads the rows of a whole state.

ghost use Rattle.std.specs.Prelude.{◌≡◌, ℕ, List, ◌++◌, ◌∷◌, [], true, false, ◌&&◌, ◌||◌, ◌==◌, Ok, Err, IfOk, OnOk, map};
ghost use Rattle.std.specs.List.{list_any};
ghost use Rattle.lock_report.specs.Claims.{is_request_kind};
ghost use Rattle.lock_report.specs.declared.reading.row.StateRow.TheVariants as variant;
ghost use Rattle.lock_report.specs.declared.reading.state.StateFault.TheVariants as fault;
ghost use Rattle.lock_report.specs.ReadRows.{line_of_row};
ghost use Rattle.lock_report.specs.inner.ReadPrefixes.{AreOnlyRows, IsKept};
ghost use Rattle.lock_report.specs.ReadStates.{AreLists, BeginNoState, IsFaulty, IsFirstBad, IsLate, IsNoState, lines_of, rows_of, text_of};

use crate::reading::row::{StateRow, is_blank, row_of};
use crate::snapshot::{FirstWait, OpenTransaction};
use indexmap::IndexSet;
use lock_rules::{Claim, ClaimKind};
use std::alloc::{AllocError as NoMemory, Global};

/// The rows of a state, by their kinds.
#[derive(Debug, Drop)]
pub struct StateLists {
    /// The open transactions.
    pub opens: Vec<OpenTransaction>,
    /// The locks and waiting requests.
    pub claims: Vec<Claim>,
    /// The waits of each session.
    pub waits: Vec<FirstWait>,
}

/// Why a text isn't read.
#[derive(Clone, Copy, Debug, Drop, PartialEq, Eq)]
pub enum StateFault {
    /// The line with this number, counted from 1, is no row, can't come behind the lines before it, or has no line feed.
    Line(u64),
    /// Memory was refused.
    NoMemory,
}

/// The rows of a state so far.
#[derive(Drop)]
struct Reading {
    /// The rows.
    lists: StateLists,
    /// The sessions of the open transactions.
    opening: IndexSet<u16>,
    /// The sessions of the waiting requests.
    asking: IndexSet<u16>,
}

/// Adds the row of an open transaction. Returns false, with nothing added, if a lock, a request or a wait came before it.
fn add_open(begun: OpenTransaction, reading: &mut Reading) -> Result<bool, NoMemory>
    ensures added { result ≡ Ok true → rows_of reading.new.lists ≡ rows_of reading.old.lists ++ variant.Transaction begun ∷ [] }
    ensures late { result ≡ Ok false → IsLate (variant.Transaction begun) (rows_of reading.old.lists) }
    ensures kept { result ≡ Ok true → IsKept reading.old → IsKept reading.new }
{
    if !reading.lists.claims.is_empty() {
        return Ok(false);
    }
    if !reading.lists.waits.is_empty() {
        return Ok(false);
    }
    reading.opening.insert(begun.session)?;
    reading.lists.opens.push(begun)?;
    Ok(true)
}

/// Adds the session of a waiting request. Fails if memory is refused.
fn add_asking(claim: &Claim, asking: &mut IndexSet<u16>) -> Result<(), NoMemory>
    ensures { OnOk result ((s : ℕ) → list_any (λ k. s == k) asking.new.keys ≡ (list_any (λ k. s == k) asking.old.keys || (is_request_kind claim.now.kind && (claim.now.session == s)))) }
{
    if claim.kind != ClaimKind::Held {
        asking.insert(claim.session)?;
    }
    Ok(())
}

/// Adds the row of a lock or a request. Returns false, with nothing added, if a wait came before it, or its session has no open transaction.
fn add_claim(claim: Claim, reading: &mut Reading) -> Result<bool, NoMemory>
    ensures added { result ≡ Ok true → rows_of reading.new.lists ≡ rows_of reading.old.lists ++ variant.Claim claim ∷ [] }
    ensures late { result ≡ Ok false → IsKept reading.old → IsLate (variant.Claim claim) (rows_of reading.old.lists) }
    ensures kept { result ≡ Ok true → IsKept reading.old → IsKept reading.new }
{
    if !reading.lists.waits.is_empty() {
        return Ok(false);
    }
    if !reading.opening.contains(&claim.session) {
        return Ok(false);
    }
    add_asking(&claim, &mut reading.asking)?;
    reading.lists.claims.push(claim)?;
    Ok(true)
}

/// Adds the row of a session's waits. Returns false, with nothing added, if the session has no waiting request.
fn add_wait(wait: FirstWait, reading: &mut Reading) -> Result<bool, NoMemory>
    ensures added { result ≡ Ok true → rows_of reading.new.lists ≡ rows_of reading.old.lists ++ variant.Wait wait ∷ [] }
    ensures late { result ≡ Ok false → IsKept reading.old → IsLate (variant.Wait wait) (rows_of reading.old.lists) }
    ensures kept { result ≡ Ok true → IsKept reading.old → IsKept reading.new }
{
    if !reading.asking.contains(&wait.wait.session) {
        return Ok(false);
    }
    reading.lists.waits.push(wait)?;
    Ok(true)
}

/// Adds the row. Returns false, with nothing added, if it can't come behind the rows before it.
fn add_row(row: StateRow, reading: &mut Reading) -> Result<bool, NoMemory>
    ensures added { result ≡ Ok true → rows_of reading.new.lists ≡ rows_of reading.old.lists ++ row ∷ [] }
    ensures late { result ≡ Ok false → IsKept reading.old → IsLate row (rows_of reading.old.lists) }
    ensures kept { result ≡ Ok true → IsKept reading.old → IsKept reading.new }
{
    match row {
        StateRow::Transaction(begun) => add_open(begun, reading),
        StateRow::Claim(claim) => add_claim(claim, reading),
        StateRow::Wait(wait) => add_wait(wait, reading),
    }
}

/// Adds the row of the line. Returns false if the line is no row, or its row can't come behind the rows before it.
fn add_line(
    alloc: Global,
    sessions: u16,
    line: &[u8],
    reading: &mut Reading,
) -> Result<bool, NoMemory>
    ensures added { (before : List (List ℕ)) → result ≡ Ok true → AreOnlyRows sessions before (rows_of reading.old.lists) → AreOnlyRows sessions (before ++ line.now ∷ []) (rows_of reading.new.lists) }
    ensures bad { (before : List (List ℕ)) → result ≡ Ok false → AreOnlyRows sessions before (rows_of reading.old.lists) → IsKept reading.old → BeginNoState sessions (before ++ line.now ∷ []) }
    ensures kept { result ≡ Ok true → IsKept reading.old → IsKept reading.new }
{
    let found = row_of(alloc, sessions, line)?;
    let Some(row) = found else {
        return Ok(false);
    };
    let added = add_row(row, reading)?;
    Ok(added)
}

/// The rows of the lines. Fails at the first line that is no row, or whose row can't come behind the rows before it.
fn rows_in_lines(alloc: Global, sessions: u16, lines: &[&[u8]]) -> Result<StateLists, StateFault>
    ensures ok { IfOk result (λ lists. AreLists sessions lists × (map line_of_row (rows_of lists) ≡ map (λ line. line.now) lines.now)) }
    ensures bad { (k : ℕ) → result ≡ Err (fault.Line k) → IsFirstBad sessions (map (λ line. line.now) lines.now) k }
{
    let mut reading = Reading {
        lists: StateLists {
            opens: Vec::new(alloc),
            claims: Vec::new(alloc),
            waits: Vec::new(alloc),
        },
        opening: IndexSet::new(alloc),
        asking: IndexSet::new(alloc),
    };
    for index in 0..lines.len() {
        let Ok(added) = add_line(alloc, sessions, lines[index], &mut reading) else {
            return Err(StateFault::NoMemory);
        };
        if !added {
            return Err(StateFault::Line(index as u64 + 1));
        }
    }
    Ok(reading.lists)
}

/// The lines of a text, without their line feeds. Fails if memory is refused.
fn lines_in<'a>(alloc: Global, text: &'a [u8]) -> Result<Vec<&'a [u8]>, NoMemory>
    ensures { IfOk result (λ lines. map (λ line. line.now) lines.items ≡ lines_of text.now) }
{
    text.split(|byte| *byte == b'\n').collect(alloc)
}

/// Reads the rows of a state of the sessions 1 to `sessions`, as `lock_report::state_rows` writes them, and no other text. Fails with the
/// first line that is no row, can't come behind the lines before it, or has no line feed, and with `NoMemory`. A row in mode NL is none; a
/// lock or a request can't come if its session has no open transaction, nor a wait if its session has no waiting request.
///
/// Its cost grows with the text. It keeps the lines and the rows in memory, 16 bytes a line and 64 a lock.
pub fn read_state(alloc: Global, text: &[u8], sessions: u16) -> Result<StateLists, StateFault>
    ensures ok { IfOk result (λ lists. AreLists sessions lists × (text.now ≡ text_of lists)) }
    ensures none { (k : ℕ) → result ≡ Err (fault.Line k) → IsNoState sessions text.now }
    ensures line { (k : ℕ) → result ≡ Err (fault.Line k) → IsFaulty sessions text.now k }
{
    let Ok(mut lines) = lines_in(alloc, text) else {
        return Err(StateFault::NoMemory);
    };
    // A text has a last line, which is empty behind a line feed.
    let Some(last) = lines.pop() else {
        return Err(StateFault::NoMemory);
    };
    let lists = rows_in_lines(alloc, sessions, &lines)?;
    if !is_blank(last) {
        return Err(StateFault::Line(lines.len() as u64 + 1));
    }
    Ok(lists)
}
