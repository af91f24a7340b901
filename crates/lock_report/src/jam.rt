//! The parts of the text for people that tell a jam: how many wait, who blocks them, the victims, and each wait.

ghost use Rattle.std.specs.Prelude.{◌≡◌, ◌++◌, OnOk, string_bytes};
ghost use Rattle.std.specs.List.{flat_map};
ghost use Rattle.lock_report.specs.JamText.{line_if_victim, line_of_root, line_of_victim, line_of_wait, lines_of_jam, session_heading, since_mark, victim_mark, wait_verb, words_of_blocks, words_of_grants, words_of_open};

use crate::snapshot::{OpenTransaction, Root, WaitLine};
use lock_rules::Transaction;
use std::alloc::AllocError as NoMemory;
use std::fmt::Write;

/// Writes the mark of a deadlock victim.
fn put_victim_mark(out: &mut String, transaction: Transaction) -> Result<(), NoMemory>
    ensures { OnOk result (string_bytes out.new ≡ string_bytes out.old ++ victim_mark transaction) }
{
    if transaction.doomed {
        out.push_str(", victim")
    } else {
        Ok(())
    }
}

/// Writes a session with its open transaction.
fn put_open(out: &mut String, begun: &OpenTransaction) -> Result<(), NoMemory>
    ensures { OnOk result (string_bytes out.new ≡ string_bytes out.old ++ words_of_open begun.now) }
{
    let session = begun.session;
    let number = begun.transaction.number;
    write!(out, "session {session}, transaction {number}")?;
    put_victim_mark(out, begun.transaction)
}

/// Writes the first line of a session: its number and its transaction.
pub(crate) fn put_session_heading(out: &mut String, begun: &OpenTransaction) -> Result<(), NoMemory>
    ensures { OnOk result (string_bytes out.new ≡ string_bytes out.old ++ session_heading begun.now) }
{
    put_open(out, begun)?;
    out.push_str("\n")
}

/// Writes the end of a root's line: how many requests its abort would grant.
fn put_grants(out: &mut String, grants: u64) -> Result<(), NoMemory>
    ensures { OnOk result (string_bytes out.new ≡ string_bytes out.old ++ words_of_grants grants) }
{
    writeln!(out, ", its abort would grant {grants}")
}

/// Writes how many sessions a root blocks, and the end of its line.
fn put_counts(out: &mut String, blocks: u64, grants: u64) -> Result<(), NoMemory>
    ensures { OnOk result (string_bytes out.new ≡ string_bytes out.old ++ words_of_blocks blocks ++ words_of_grants grants) }
{
    write!(out, ", blocks {blocks} in all")?;
    put_grants(out, grants)
}

/// Writes the line of a root.
fn put_root(out: &mut String, root: &Root) -> Result<(), NoMemory>
    ensures { OnOk result (string_bytes out.new ≡ string_bytes out.old ++ line_of_root root.now) }
{
    out.push_str("root: ")?;
    put_open(out, &root.begun)?;
    put_counts(out, root.blocks, root.grants)
}

/// Writes the lines of the roots.
fn put_roots(out: &mut String, roots: &[Root]) -> Result<(), NoMemory>
    ensures { OnOk result (string_bytes out.new ≡ string_bytes out.old ++ flat_map line_of_root roots.now) }
{
    for root in roots {
        put_root(out, root)?;
    }
    Ok(())
}

/// Writes the line of a victim.
fn put_line_of_victim(out: &mut String, begun: &OpenTransaction) -> Result<(), NoMemory>
    ensures { OnOk result (string_bytes out.new ≡ string_bytes out.old ++ line_of_victim begun.now) }
{
    out.push_str("not aborted: ")?;
    put_session_heading(out, begun)
}

/// Writes the line of a transaction if it is a victim.
fn put_victim(out: &mut String, begun: &OpenTransaction) -> Result<(), NoMemory>
    ensures { OnOk result (string_bytes out.new ≡ string_bytes out.old ++ line_if_victim begun.now) }
{
    if begun.transaction.doomed {
        put_line_of_victim(out, begun)?;
    }
    Ok(())
}

/// Writes the lines of the victims among the open transactions.
fn put_victims(out: &mut String, opens: &[OpenTransaction]) -> Result<(), NoMemory>
    ensures { OnOk result (string_bytes out.new ≡ string_bytes out.old ++ flat_map line_if_victim opens.now) }
{
    for begun in opens {
        put_victim(out, begun)?;
    }
    Ok(())
}

/// Writes the section of the jam.
pub(crate) fn put_jam(
    out: &mut String,
    waiting: u64,
    roots: &[Root],
    opens: &[OpenTransaction],
) -> Result<(), NoMemory>
    ensures { OnOk result (string_bytes out.new ≡ string_bytes out.old ++ lines_of_jam waiting roots.now opens.now) }
{
    writeln!(out, "waiting: {waiting}")?;
    put_roots(out, roots)?;
    put_victims(out, opens)
}

/// What is between the session that waits and the one that it waits for.
fn wait_verb(first: bool) -> &'static str
    ensures { result.now ≡ wait_verb first }
{
    if first { "waits for" } else { "waits also for" }
}

/// Writes the end of a wait's line.
fn put_since(out: &mut String, since: Option<u64>) -> Result<(), NoMemory>
    ensures { OnOk result (string_bytes out.new ≡ string_bytes out.old ++ since_mark since) }
{
    match since {
        Some(place) => writeln!(out, ", since place {place}"),
        None => out.push_str("\n"),
    }
}

/// Writes the line of a wait.
pub(crate) fn put_line_of_wait(out: &mut String, told: &WaitLine) -> Result<(), NoMemory>
    ensures { OnOk result (string_bytes out.new ≡ string_bytes out.old ++ line_of_wait told.now) }
{
    let session = told.wait.session;
    let verb = wait_verb(told.first);
    let other = told.wait.other;
    write!(out, "session {session} {verb} session {other}")?;
    put_since(out, told.since)
}

/// Writes the lines of the waits.
pub(crate) fn put_lines_of_waits(out: &mut String, waits: &[WaitLine]) -> Result<(), NoMemory>
    ensures { OnOk result (string_bytes out.new ≡ string_bytes out.old ++ flat_map line_of_wait waits.now) }
{
    for told in waits {
        put_line_of_wait(out, told)?;
    }
    Ok(())
}
