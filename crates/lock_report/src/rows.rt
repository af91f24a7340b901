//! The state of a lock table as CSV rows.

ghost use Rattle.std.specs.Prelude.{◌≡◌, ◌++◌, IfOk, OnOk, string_bytes};
ghost use Rattle.std.specs.List.{flat_map};
ghost use Rattle.lock_report.specs.StateRows.{others_text, victim_field, row_of_transaction, row_of_claim, row_of_wait, rows_of_state};

use crate::claims::kind_word;
use crate::snapshot::{FirstWait, OpenTransaction};
use lock_rules::{Claim, Transaction};
use std::alloc::{AllocError as NoMemory, Global};
use std::fmt::Write;

/// The victim field.
fn victim_word(transaction: Transaction) -> &'static str
    ensures { result.now ≡ victim_field transaction }
{
    if transaction.doomed { "victim" } else { "" }
}

/// Writes the row of an open transaction.
fn put_transaction(out: &mut String, begun: &OpenTransaction) -> Result<(), NoMemory>
    ensures { OnOk result (string_bytes out.new ≡ string_bytes out.old ++ row_of_transaction begun.now) }
{
    let victim = victim_word(begun.transaction);
    writeln!(
        out,
        "transaction,{},{},{victim},,,",
        begun.session, begun.transaction.number
    )
}

/// Writes the row of a claim.
fn put_claim(out: &mut String, claim: &Claim) -> Result<(), NoMemory>
    ensures { OnOk result (string_bytes out.new ≡ string_bytes out.old ++ row_of_claim claim.now) }
{
    let kind = kind_word(claim.kind);
    let victim = victim_word(claim.transaction);
    write!(
        out,
        "{kind},{},{},{victim},",
        claim.session, claim.transaction.number
    )?;
    writeln!(out, "{},{},", claim.resource, claim.mode.name())
}

/// Writes for how many others a session waits.
fn put_others(out: &mut String, others: u64) -> Result<(), NoMemory>
    ensures { OnOk result (string_bytes out.new ≡ string_bytes out.old ++ others_text others) }
{
    if others == 0 {
        return Ok(());
    }
    write!(out, "+{others}")
}

/// Writes the row of the waits of a session.
fn put_wait(out: &mut String, first: &FirstWait) -> Result<(), NoMemory>
    ensures { OnOk result (string_bytes out.new ≡ string_bytes out.old ++ row_of_wait first.now) }
{
    write!(out, "waits,{},,,,,{}", first.wait.session, first.wait.other)?;
    put_others(out, first.others)?;
    out.push_str("\n")
}

/// Writes the rows of the open transactions.
fn put_transactions(out: &mut String, opens: &[OpenTransaction]) -> Result<(), NoMemory>
    ensures { OnOk result (string_bytes out.new ≡ string_bytes out.old ++ flat_map row_of_transaction opens.now) }
{
    for begun in opens {
        put_transaction(out, begun)?;
    }
    Ok(())
}

/// Writes the rows of the claims.
fn put_claims(out: &mut String, claims: &[Claim]) -> Result<(), NoMemory>
    ensures { OnOk result (string_bytes out.new ≡ string_bytes out.old ++ flat_map row_of_claim claims.now) }
{
    for claim in claims {
        put_claim(out, claim)?;
    }
    Ok(())
}

/// Writes the rows of the waits.
fn put_waits(out: &mut String, waits: &[FirstWait]) -> Result<(), NoMemory>
    ensures { OnOk result (string_bytes out.new ≡ string_bytes out.old ++ flat_map row_of_wait waits.now) }
{
    for wait in waits {
        put_wait(out, wait)?;
    }
    Ok(())
}

/// The state as CSV rows of seven fields: row, session, transaction, victim, resource, mode, other. A row for each open
/// transaction, then one for each claim, and then one for each session that waits, each in the order given. No field needs quotes. Fails
/// only with `NoMemory`.
pub fn state_rows(
    alloc: Global,
    opens: &[OpenTransaction],
    claims: &[Claim],
    waits: &[FirstWait],
) -> Result<String, NoMemory>
    ensures { IfOk result (λ text. string_bytes text ≡ rows_of_state opens.now claims.now waits.now) }
{
    let mut out = String::new(alloc);
    put_transactions(&mut out, opens)?;
    put_claims(&mut out, claims)?;
    put_waits(&mut out, waits)?;
    Ok(out)
}
