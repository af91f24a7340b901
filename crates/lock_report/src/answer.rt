//! What the answer to a poll tells: for whom the session waits, since when, and which call made its transaction a deadlock victim.

ghost use Rattle.std.specs.Prelude.{◌≡◌, ◌++◌, Some, IfOk, OnOk, string_bytes};
ghost use Rattle.std.specs.List.{flat_map};
ghost use Rattle.lock_report.specs.Answers.{line_of_answer, line_of_doom, row_of_doom, row_of_since, rows_of_answer, rows_of_told, text_of_answer, words_of_caller, words_of_place};

use crate::jam::put_line_of_wait;
use crate::snapshot::{Doom, WaitLine};
use std::alloc::{AllocError as NoMemory, Global};
use std::fmt::Write;

/// Writes the line of a wait.
fn put_line(out: &mut String, told: &WaitLine) -> Result<(), NoMemory>
    ensures { OnOk result (string_bytes out.new ≡ string_bytes out.old ++ line_of_answer told.now) }
{
    out.push_str("  ")?;
    put_line_of_wait(out, told)
}

/// Writes the lines of the waits.
fn put_lines(out: &mut String, waits: &[WaitLine]) -> Result<(), NoMemory>
    ensures { OnOk result (string_bytes out.new ≡ string_bytes out.old ++ flat_map line_of_answer waits.now) }
{
    for told in waits {
        put_line(out, told)?;
    }
    Ok(())
}

/// Writes the place at which the transaction was made a victim.
fn put_place_of_doom(out: &mut String, place: u64) -> Result<(), NoMemory>
    ensures { OnOk result (string_bytes out.new ≡ string_bytes out.old ++ words_of_place place) }
{
    write!(out, "  made a victim at place {place}")
}

/// Writes the session that made the call, and the end of the line.
fn put_caller(out: &mut String, session: u16) -> Result<(), NoMemory>
    ensures { OnOk result (string_bytes out.new ≡ string_bytes out.old ++ words_of_caller session) }
{
    writeln!(out, ", by a call of session {session}")
}

/// Writes the line of the call that made the transaction a victim.
fn put_line_of_doom(out: &mut String, doom: Doom) -> Result<(), NoMemory>
    ensures { OnOk result (string_bytes out.new ≡ string_bytes out.old ++ line_of_doom (Some doom)) }
{
    put_place_of_doom(out, doom.place)?;
    put_caller(out, doom.session)
}

/// Writes the line of the call that made the transaction a victim, if it was made one.
fn put_doom(out: &mut String, doom: Option<Doom>) -> Result<(), NoMemory>
    ensures { OnOk result (string_bytes out.new ≡ string_bytes out.old ++ line_of_doom doom) }
{
    match doom {
        None => Ok(()),
        Some(doom) => put_line_of_doom(out, doom),
    }
}

/// What the answer to a poll tells, as lines for people: the waits of the session, and which call made its transaction a victim.
/// Fails only with `NoMemory`.
pub fn answer_text(
    alloc: Global,
    waits: &[WaitLine],
    doom: Option<Doom>,
) -> Result<String, NoMemory>
    ensures { IfOk result (λ text. string_bytes text ≡ text_of_answer waits.now doom) }
{
    let mut out = String::new(alloc);
    put_lines(&mut out, waits)?;
    put_doom(&mut out, doom)?;
    Ok(out)
}

/// Writes the row of the place since when the session waits.
fn put_since(out: &mut String, place: u64, session: u16, since: Option<u64>) -> Result<(), NoMemory>
    ensures { OnOk result (string_bytes out.new ≡ string_bytes out.old ++ row_of_since place session since) }
{
    match since {
        None => Ok(()),
        Some(since) => writeln!(out, "{place},since,{session},,,,{since}"),
    }
}

/// Writes the rows of a wait.
fn put_told(out: &mut String, place: u64, told: &WaitLine) -> Result<(), NoMemory>
    ensures { OnOk result (string_bytes out.new ≡ string_bytes out.old ++ rows_of_told place told.now) }
{
    let session = told.wait.session;
    let other = told.wait.other;
    writeln!(out, "{place},waits,{session},,,,{other}")?;
    put_since(out, place, session, told.since)
}

/// Writes the rows of the waits.
fn put_all_told(out: &mut String, place: u64, waits: &[WaitLine]) -> Result<(), NoMemory>
    ensures { OnOk result (string_bytes out.new ≡ string_bytes out.old ++ flat_map (rows_of_told place) waits.now) }
{
    for told in waits {
        put_told(out, place, told)?;
    }
    Ok(())
}

/// Writes the row of the call that made the transaction a victim.
fn put_row_of_doom(out: &mut String, place: u64, doom: Option<Doom>) -> Result<(), NoMemory>
    ensures { OnOk result (string_bytes out.new ≡ string_bytes out.old ++ row_of_doom place doom) }
{
    match doom {
        None => Ok(()),
        Some(doom) => writeln!(out, "{place},doomed,{},,,,{}", doom.session, doom.place),
    }
}

/// What the answer to the poll at this place tells, as CSV rows of seven fields: place, row, session, transaction, resource, mode,
/// other. Fails only with `NoMemory`.
pub fn answer_rows(
    alloc: Global,
    place: u64,
    waits: &[WaitLine],
    doom: Option<Doom>,
) -> Result<String, NoMemory>
    ensures { IfOk result (λ text. string_bytes text ≡ rows_of_answer place waits.now doom) }
{
    let mut out = String::new(alloc);
    put_all_told(&mut out, place, waits)?;
    put_row_of_doom(&mut out, place, doom)?;
    Ok(out)
}
