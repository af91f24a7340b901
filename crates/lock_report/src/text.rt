//! The state of a lock table as text for people.

ghost use Rattle.std.specs.Prelude.{◌≡◌, ◌++◌, IfOk, OnOk, None, string_bytes};
ghost use Rattle.std.specs.List.{flat_map};
ghost use Rattle.lock_report.specs.StateText.{session_verb, resource_verb, mode_word, mode_at_end, line_of_session, session_lines, line_of_resource, resource_heading, resource_lines, transactions_section, resources_section, sections_of, state_heading, waits_section, text_of_state};
ghost use Rattle.lock_report.specs.inner.BySession.{Ascends};

use crate::by_session::{claims_by_session, claims_of_session};
use crate::claims::is_last;
use crate::jam::{put_jam, put_lines_of_waits, put_session_heading};
use crate::snapshot::{OpenTransaction, Root, WaitLine};
use lock_rules::{Claim, ClaimKind};
use lock_tree::Resource;
use std::alloc::{AllocError as NoMemory, Global};
use std::fmt::Write;

/// The line of a section that has nothing to show.
const NOTHING: &str = "none\n";

/// What a session does with a resource, below the session.
fn session_verb(kind: ClaimKind) -> &'static str
    ensures { result.now ≡ session_verb kind }
{
    match kind {
        ClaimKind::Held => "holds",
        ClaimKind::Conversion => "converts",
        ClaimKind::Fresh => "waits for",
    }
}

/// What a session does with a resource, below the resource.
pub(crate) fn resource_verb(kind: ClaimKind) -> &'static str
    ensures { result.now ≡ resource_verb kind }
{
    match kind {
        ClaimKind::Held => "holds it",
        ClaimKind::Conversion => "waits to convert it",
        ClaimKind::Fresh => "waits for it",
    }
}

/// The word before the mode.
pub(crate) fn mode_word(kind: ClaimKind) -> &'static str
    ensures { result.now ≡ mode_word kind }
{
    match kind {
        ClaimKind::Held | ClaimKind::Fresh => "in",
        ClaimKind::Conversion => "to",
    }
}

/// Writes the end of a claim's line, with its mode. A line of each claim is written: pieces cost less than a format.
fn put_mode(out: &mut String, claim: &Claim) -> Result<(), NoMemory>
    ensures { OnOk result (string_bytes out.new ≡ string_bytes out.old ++ mode_at_end claim.now) }
{
    out.push_str(" ")?;
    out.push_str(mode_word(claim.kind))?;
    out.push_str(" ")?;
    out.push_str(claim.mode.name())?;
    out.push_str("\n")
}

/// Writes the line of a claim below its session.
fn put_line_of_session(out: &mut String, claim: &Claim) -> Result<(), NoMemory>
    ensures { OnOk result (string_bytes out.new ≡ string_bytes out.old ++ line_of_session claim.now) }
{
    out.push_str("  ")?;
    out.push_str(session_verb(claim.kind))?;
    write!(out, " {}", claim.resource)?;
    put_mode(out, claim)
}

/// Writes the lines of claims of one session.
fn put_lines_of_session(out: &mut String, claims: &[Claim]) -> Result<(), NoMemory>
    ensures { OnOk result (string_bytes out.new ≡ string_bytes out.old ++ flat_map line_of_session claims.now) }
{
    for claim in claims {
        put_line_of_session(out, claim)?;
    }
    Ok(())
}

/// Writes the line of a claim below its resource.
fn put_line_of_resource(out: &mut String, claim: &Claim) -> Result<(), NoMemory>
    ensures { OnOk result (string_bytes out.new ≡ string_bytes out.old ++ line_of_resource claim.now) }
{
    write!(out, "  session {} ", claim.session)?;
    out.push_str(resource_verb(claim.kind))?;
    put_mode(out, claim)
}

/// Writes the first line of a resource, unless it was shown last.
fn put_resource_heading(
    out: &mut String,
    last: Option<Resource>,
    resource: Resource,
) -> Result<(), NoMemory>
    ensures { OnOk result (string_bytes out.new ≡ string_bytes out.old ++ resource_heading last resource) }
{
    if is_last(last, resource) {
        return Ok(());
    }
    writeln!(out, "{resource}")
}

/// Writes the section of the waits.
fn put_waits(out: &mut String, waits: &[WaitLine]) -> Result<(), NoMemory>
    ensures { OnOk result (string_bytes out.new ≡ string_bytes out.old ++ waits_section waits.now) }
{
    if waits.is_empty() {
        return out.push_str(NOTHING);
    }
    put_lines_of_waits(out, waits)
}

/// Writes the resources, each with its claims.
fn put_lines_of_resources(out: &mut String, claims: &[Claim]) -> Result<(), NoMemory>
    ensures { OnOk result (string_bytes out.new ≡ string_bytes out.old ++ resource_lines None claims.now) }
{
    let mut last = None;
    for claim in claims {
        put_resource_heading(out, last, claim.resource)?;
        put_line_of_resource(out, claim)?;
        last = Some(claim.resource);
    }
    Ok(())
}

/// Writes the section of the resources.
fn put_resources(out: &mut String, claims: &[Claim]) -> Result<(), NoMemory>
    ensures { OnOk result (string_bytes out.new ≡ string_bytes out.old ++ resources_section claims.now) }
{
    if claims.is_empty() {
        return out.push_str(NOTHING);
    }
    put_lines_of_resources(out, claims)
}

/// Writes the lines of a session, whose claims are found in `sorted`.
fn put_session(out: &mut String, sorted: &[Claim], begun: &OpenTransaction) -> Result<(), NoMemory>
    requires { Ascends sorted.now }
    ensures { OnOk result (string_bytes out.new ≡ string_bytes out.old ++ session_lines sorted.now begun.now) }
{
    put_session_heading(out, begun)?;
    put_lines_of_session(out, claims_of_session(sorted, begun.session))
}

/// Writes the lines of the sessions, whose claims are found in `sorted`.
fn put_sessions(
    out: &mut String,
    sorted: &[Claim],
    opens: &[OpenTransaction],
) -> Result<(), NoMemory>
    requires { Ascends sorted.now }
    ensures { OnOk result (string_bytes out.new ≡ string_bytes out.old ++ flat_map (session_lines sorted.now) opens.now) }
{
    for begun in opens {
        put_session(out, sorted, begun)?;
    }
    Ok(())
}

/// Writes the section of the transactions.
fn put_transactions(
    alloc: Global,
    out: &mut String,
    opens: &[OpenTransaction],
    claims: &[Claim],
) -> Result<(), NoMemory>
    ensures { OnOk result (string_bytes out.new ≡ string_bytes out.old ++ transactions_section opens.now claims.now) }
{
    if opens.is_empty() {
        return out.push_str(NOTHING);
    }
    let sorted = claims_by_session(alloc, claims)?;
    put_sessions(out, &sorted, opens)
}

/// Writes the sections of the jam, of the transactions and of the resources, and the heading of the last section.
fn put_sections(
    alloc: Global,
    out: &mut String,
    waiting: u64,
    roots: &[Root],
    opens: &[OpenTransaction],
    claims: &[Claim],
) -> Result<(), NoMemory>
    ensures { OnOk result (string_bytes out.new ≡ string_bytes out.old ++ sections_of waiting roots.now opens.now claims.now) }
{
    out.push_str("\njam\n")?;
    put_jam(out, waiting, roots, opens)?;
    out.push_str("\ntransactions\n")?;
    put_transactions(alloc, out, opens, claims)?;
    out.push_str("\nresources\n")?;
    put_resources(out, claims)?;
    out.push_str("\nwaits\n")
}

/// Writes the first line.
fn put_heading(out: &mut String, place: Option<u64>) -> Result<(), NoMemory>
    ensures { OnOk result (string_bytes out.new ≡ string_bytes out.old ++ state_heading place) }
{
    match place {
        Some(place) => writeln!(out, "state in front of place {place}"),
        None => out.push_str("state of a dump\n"),
    }
}

/// The state of a lock table as text for people, in front of the entry at index `place` of its history, or of a dump, which has no place:
/// how many sessions wait, the roots and the victims, then each open transaction with its claims, then each resource with its claims, and
/// then the waits. `claims` has the order of a listing: resource by resource. Fails only with `NoMemory`.
pub fn state_text(
    alloc: Global,
    place: Option<u64>,
    waiting: u64,
    roots: &[Root],
    opens: &[OpenTransaction],
    claims: &[Claim],
    waits: &[WaitLine],
) -> Result<String, NoMemory>
    ensures { IfOk result (λ text. string_bytes text ≡ text_of_state place waiting roots.now opens.now claims.now waits.now) }
{
    let mut out = String::new(alloc);
    put_heading(&mut out, place)?;
    put_sections(alloc, &mut out, waiting, roots, opens, claims)?;
    put_waits(&mut out, waits)?;
    Ok(out)
}
