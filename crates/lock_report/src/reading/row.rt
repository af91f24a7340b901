//! A row of a state, read from its line.

ghost use Rattle.std.specs.Prelude.{◌≡◌, ◌↔◌, ◌++◌, true, [], Some, IfOk, map, decimal};
ghost use Rattle.std.specs.List.{slice_split};
ghost use Rattle.lock_modes.specs.Codes.{name_of};
ghost use Rattle.lock_tree.specs.Text.{text_of};
ghost use Rattle.lock_rules.specs.declared.calls.Transaction.{Transaction as TransactionValue};
ghost use Rattle.lock_rules.specs.declared.listing.Claim.{Claim as ClaimValue};
ghost use Rattle.lock_report.specs.declared.snapshot.FirstWait.{FirstWait as WaitValue};
ghost use Rattle.lock_report.specs.declared.snapshot.OpenTransaction.{OpenTransaction as OpenValue};
ghost use Rattle.lock_report.specs.Claims.{word_of_kind};
ghost use Rattle.lock_report.specs.StateRows.{fields_of_claim, fields_of_transaction, fields_of_wait, others_text, victim_field};
ghost use Rattle.lock_report.specs.declared.reading.row.StateRow.{StateRow as RowValue};
ghost use Rattle.lock_report.specs.inner.ReadFields.{texts_of};
ghost use Rattle.lock_report.specs.ReadRows.{IsClaim, IsFirstWait, IsNumbered, IsOpen, IsRow, fields_of_row, is_comma, line_of_row};

use crate::reading::fields::{
    front_of_plus, kind_of, mode_of, number_of, others_of, resource_of, session_of, victim_of,
};
use crate::snapshot::{FirstWait, OpenTransaction, WaitFor};
use lock_rules::{Claim, Transaction};
use std::alloc::{AllocError as NoMemory, Global};

/// A row of a state.
#[derive(Clone, Copy, Debug, Drop, PartialEq, Eq)]
pub enum StateRow {
    /// An open transaction.
    Transaction(OpenTransaction),
    /// A lock or a waiting request.
    Claim(Claim),
    /// The waits of a session.
    Wait(FirstWait),
}

/// The seven fields of a row, none of which has a meaning yet.
#[derive(Clone, Copy)]
struct RowFields<'a> {
    /// What the row tells: of a transaction, of a lock or a request, or of waits.
    word: &'a [u8],
    /// The session.
    session: &'a [u8],
    /// The number of its transaction.
    number: &'a [u8],
    /// Whether the transaction is a victim.
    victim: &'a [u8],
    /// The resource of a lock or a request.
    resource: &'a [u8],
    /// The mode of a lock or a request.
    mode: &'a [u8],
    /// The first blocker, and how many others are waited for.
    other: &'a [u8],
}

/// The transaction of a number field and a victim field.
fn transaction_of(number: &[u8], victim: &[u8]) -> Option<Transaction>
    ensures { (t : TransactionValue) → (result ≡ Some t) ↔ (IsNumbered t × (number.now ≡ decimal t.number) × (victim.now ≡ victim_field t)) }
{
    let number = number_of(number)?;
    let doomed = victim_of(victim)?;
    Some(Transaction { number, doomed })
}

/// The open transaction of these fields.
fn open_of(sessions: u16, session: &[u8], number: &[u8], victim: &[u8]) -> Option<OpenTransaction>
    ensures { (o : OpenValue) → (result ≡ Some o) ↔ (IsOpen sessions o × (session.now ≡ decimal o.session) × (number.now ≡ decimal o.transaction.number) × (victim.now ≡ victim_field o.transaction)) }
{
    let session = session_of(session, sessions)?;
    let transaction = transaction_of(number, victim)?;
    Some(OpenTransaction {
        session,
        transaction,
    })
}

/// The lock or request of these fields.
fn claim_of(sessions: u16, fields: RowFields<'_>) -> Option<Claim>
    ensures { (c : ClaimValue) → (result ≡ Some c) ↔ (IsClaim sessions c × (fields.entry.word.now ≡ word_of_kind c.kind) × (fields.entry.session.now ≡ decimal c.session) × (fields.entry.number.now ≡ decimal c.transaction.number)
        × (fields.entry.victim.now ≡ victim_field c.transaction) × (fields.entry.resource.now ≡ text_of c.resource) × (fields.entry.mode.now ≡ name_of c.mode)) }
{
    let kind = kind_of(fields.word)?;
    let begun = open_of(sessions, fields.session, fields.number, fields.victim)?;
    let resource = resource_of(fields.resource)?;
    let mode = mode_of(fields.mode)?;
    Some(Claim {
        resource,
        session: begun.session,
        transaction: begun.transaction,
        mode,
        kind,
    })
}

/// The waits of these fields.
fn wait_of(sessions: u16, session: &[u8], other: &[u8]) -> Option<FirstWait>
    ensures { (w : WaitValue) → (result ≡ Some w) ↔ (IsFirstWait sessions w × (session.now ≡ decimal w.wait.session) × (other.now ≡ decimal w.wait.other ++ others_text w.others)) }
{
    let session = session_of(session, sessions)?;
    let front = front_of_plus(other);
    let first = session_of(&other[..front], sessions)?;
    let others = others_of(&other[front..])?;
    let wait = WaitFor {
        session,
        other: first,
    };
    Some(FirstWait { wait, others })
}

/// Whether the field is empty.
pub(crate) fn is_blank(field: &[u8]) -> bool
    ensures { (result ≡ true) ↔ (field.now ≡ []) }
{
    field.is_empty()
}

/// Whether all three fields are empty.
fn are_blank(a: &[u8], b: &[u8], c: &[u8]) -> bool
    ensures { (result ≡ true) ↔ ((a.now ≡ []) × (b.now ≡ []) × (c.now ≡ [])) }
{
    is_blank(a) && is_blank(b) && is_blank(c)
}

/// The open transaction of the seven fields of a row.
fn open_in(sessions: u16, fields: RowFields<'_>) -> Option<OpenTransaction>
    ensures { (o : OpenValue) → (result ≡ Some o) ↔ (IsOpen sessions o × (texts_of fields.entry ≡ fields_of_transaction o)) }
{
    if fields.word != b"transaction".as_slice() {
        return None;
    }
    if !are_blank(fields.resource, fields.mode, fields.other) {
        return None;
    }
    open_of(sessions, fields.session, fields.number, fields.victim)
}

/// The lock or request of the seven fields of a row.
fn claim_in(sessions: u16, fields: RowFields<'_>) -> Option<Claim>
    ensures { (c : ClaimValue) → (result ≡ Some c) ↔ (IsClaim sessions c × (texts_of fields.entry ≡ fields_of_claim c)) }
{
    if !fields.other.is_empty() {
        return None;
    }
    claim_of(sessions, fields)
}

/// The waits of the seven fields of a row.
fn wait_in(sessions: u16, fields: RowFields<'_>) -> Option<FirstWait>
    ensures { (w : WaitValue) → (result ≡ Some w) ↔ (IsFirstWait sessions w × (texts_of fields.entry ≡ fields_of_wait w)) }
{
    if fields.word != b"waits".as_slice() {
        return None;
    }
    if !is_blank(fields.victim) || !are_blank(fields.number, fields.resource, fields.mode) {
        return None;
    }
    wait_of(sessions, fields.session, fields.other)
}

/// The row of seven fields.
fn row_in(sessions: u16, fields: RowFields<'_>) -> Option<StateRow>
    ensures { (row : RowValue) → (result ≡ Some row) ↔ (IsRow sessions row × (texts_of fields.entry ≡ fields_of_row row)) }
{
    if let Some(begun) = open_in(sessions, fields) {
        return Some(StateRow::Transaction(begun));
    }
    if let Some(wait) = wait_in(sessions, fields) {
        return Some(StateRow::Wait(wait));
    }
    let claim = claim_in(sessions, fields)?;
    Some(StateRow::Claim(claim))
}

/// The fields of a line. Fails if memory is refused.
fn fields_in<'a>(alloc: Global, line: &'a [u8]) -> Result<Vec<&'a [u8]>, NoMemory>
    ensures { IfOk result (λ fields. map (λ field. field.now) fields.items ≡ slice_split is_comma line.now) }
{
    line.split(|byte| *byte == b',').collect(alloc)
}

/// The row of a line, `None` if it is the line of no row. Fails if memory is refused.
pub(crate) fn row_of(
    alloc: Global,
    sessions: u16,
    line: &[u8],
) -> Result<Option<StateRow>, NoMemory>
    ensures { IfOk result (λ found. (row : RowValue) → (found ≡ Some row) ↔ (IsRow sessions row × (line.now ≡ line_of_row row))) }
{
    let fields = fields_in(alloc, line)?;
    if fields.len() != 7 {
        return Ok(None);
    }
    let fields = RowFields {
        word: fields[0],
        session: fields[1],
        number: fields[2],
        victim: fields[3],
        resource: fields[4],
        mode: fields[5],
        other: fields[6],
    };
    Ok(row_in(sessions, fields))
}
