//! An explanation as CSV rows.

ghost use Rattle.std.specs.Prelude.{◌≡◌, ◌++◌, IfOk, OnOk, string_bytes};
ghost use Rattle.std.specs.List.{flat_map};
ghost use Rattle.lock_explain.specs.ExplanationRows.{row_of_why, row_of_need, row_of_parent, rows_of_missed, row_of_claim, row_of_lock_below, row_of_request, row_of_block, rows_of_blocker, rows_if_asked, rows_of_refusal, refusal_rows, row_of_party, row_of_member, row_of_edge, rows_of_wait, wait_rows, row_of_victim, row_of_granted, own_row, row_of_done, rows_of_call, rows_of_explanation};

use crate::explanation::{Blocker, Edge, Explanation, MissedParent, Party, Refusal, Wait};
use crate::text::has_nothing_to_tell;
use lock_modes::Mode;
use lock_report::kind_word;
use lock_rules::{Claim, Why};
use lock_tree::Resource;
use std::alloc::{AllocError as NoMemory, Global};
use std::fmt::Write;

/// Writes the row of a refusal of the session's call.
fn put_why(out: &mut String, place: u64, session: u16, why: Why) -> Result<(), NoMemory>
    ensures { OnOk result (string_bytes out.new ≡ string_bytes out.old ++ row_of_why place session why) }
{
    let name = why.name();
    writeln!(out, "{place},refused,{session},,,,{name}")
}

/// Writes the row of the mode in which the session would have to hold the parent.
fn put_need(
    out: &mut String,
    place: u64,
    session: u16,
    missed: &MissedParent,
) -> Result<(), NoMemory>
    ensures { OnOk result (string_bytes out.new ≡ string_bytes out.old ++ row_of_need place session missed.now) }
{
    let parent = missed.parent;
    let needed = missed.needed.name();
    writeln!(out, "{place},needed,{session},,{parent},{needed},")
}

/// Writes the row of the mode in which the session holds the parent, nothing if it doesn't.
fn put_parent(
    out: &mut String,
    place: u64,
    session: u16,
    parent: Resource,
    held: Option<Mode>,
) -> Result<(), NoMemory>
    ensures { OnOk result (string_bytes out.new ≡ string_bytes out.old ++ row_of_parent place session parent held) }
{
    match held {
        None => Ok(()),
        Some(mode) => writeln!(out, "{place},parent,{session},,{parent},{},", mode.name()),
    }
}

/// Writes the rows of the parent that a request lacks, nothing for `None`.
fn put_missed(
    out: &mut String,
    place: u64,
    session: u16,
    missed: &Option<MissedParent>,
) -> Result<(), NoMemory>
    ensures { OnOk result (string_bytes out.new ≡ string_bytes out.old ++ rows_of_missed place session missed.now) }
{
    match missed {
        None => Ok(()),
        Some(missed) => {
            put_need(out, place, session, missed)?;
            put_parent(out, place, session, missed.parent, missed.held)
        }
    }
}

/// Writes the row of a claim, with this word.
fn put_claim(out: &mut String, place: u64, word: &str, claim: &Claim) -> Result<(), NoMemory>
    ensures { OnOk result (string_bytes out.new ≡ string_bytes out.old ++ row_of_claim place word.now claim.now) }
{
    write!(
        out,
        "{place},{word},{},{},",
        claim.session, claim.transaction.number
    )?;
    writeln!(out, "{},{},", claim.resource, claim.mode.name())
}

/// Writes the row of a lock below the resource.
fn put_lock_below(out: &mut String, place: u64, lock: &Claim) -> Result<(), NoMemory>
    ensures { OnOk result (string_bytes out.new ≡ string_bytes out.old ++ row_of_lock_below place lock.now) }
{
    put_claim(out, place, "held", lock)
}

/// Writes the rows of the locks below the resource.
fn put_locks_below(out: &mut String, place: u64, locks: &[Claim]) -> Result<(), NoMemory>
    ensures { OnOk result (string_bytes out.new ≡ string_bytes out.old ++ flat_map (row_of_lock_below place) locks.now) }
{
    for lock in locks {
        put_lock_below(out, place, lock)?;
    }
    Ok(())
}

/// Writes the rows of the request that would wait and of the sessions that it would wait for, nothing for `None`.
fn put_if_asked(
    out: &mut String,
    place: u64,
    request: &Option<Claim>,
    blockers: &[Blocker],
) -> Result<(), NoMemory>
    ensures { OnOk result (string_bytes out.new ≡ string_bytes out.old ++ rows_if_asked place request.now blockers.now) }
{
    match request {
        None => Ok(()),
        Some(request) => {
            put_request(out, place, request)?;
            put_blockers(out, place, request, blockers)
        }
    }
}

/// Writes the rows of a refusal.
fn put_refusal(
    out: &mut String,
    place: u64,
    session: u16,
    refusal: &Refusal,
) -> Result<(), NoMemory>
    ensures { OnOk result (string_bytes out.new ≡ string_bytes out.old ++ rows_of_refusal place session refusal.now) }
{
    put_why(out, place, session, refusal.why)?;
    put_missed(out, place, session, &refusal.missed)?;
    put_locks_below(out, place, &refusal.below)?;
    put_if_asked(out, place, &refusal.request, &refusal.blockers)
}

/// Writes the rows of the refusal, nothing for `None`.
fn put_refusal_rows(
    out: &mut String,
    place: u64,
    session: u16,
    refusal: &Option<Refusal>,
) -> Result<(), NoMemory>
    ensures { OnOk result (string_bytes out.new ≡ string_bytes out.old ++ refusal_rows place session refusal.now) }
{
    match refusal {
        None => Ok(()),
        Some(refusal) => put_refusal(out, place, session, refusal),
    }
}

/// Writes the row of a request that waits or would wait.
fn put_request(out: &mut String, place: u64, request: &Claim) -> Result<(), NoMemory>
    ensures { OnOk result (string_bytes out.new ≡ string_bytes out.old ++ row_of_request place request.now) }
{
    put_claim(out, place, kind_word(request.kind), request)
}

/// Writes the row of a session that the request waits for or would wait for, through this mode, nothing for `None`.
fn put_block(
    out: &mut String,
    place: u64,
    request: &Claim,
    word: &str,
    party: Party,
    mode: Option<Mode>,
) -> Result<(), NoMemory>
    ensures { OnOk result (string_bytes out.new ≡ string_bytes out.old ++ row_of_block place request.now word.now party mode) }
{
    match mode {
        None => Ok(()),
        Some(mode) => {
            write!(
                out,
                "{place},{word},{},{},",
                party.session, party.transaction
            )?;
            writeln!(
                out,
                "{},{},{}",
                request.resource,
                mode.name(),
                request.session
            )
        }
    }
}

/// Writes the rows of a session that the request waits for or would wait for.
fn put_blocker(
    out: &mut String,
    place: u64,
    request: &Claim,
    blocker: &Blocker,
) -> Result<(), NoMemory>
    ensures { OnOk result (string_bytes out.new ≡ string_bytes out.old ++ rows_of_blocker place request.now blocker.now) }
{
    put_block(out, place, request, "holder", blocker.party, blocker.held)?;
    put_block(out, place, request, "ahead", blocker.party, blocker.ahead)
}

/// Writes the rows of the sessions that the request waits for or would wait for.
fn put_blockers(
    out: &mut String,
    place: u64,
    request: &Claim,
    blockers: &[Blocker],
) -> Result<(), NoMemory>
    ensures { OnOk result (string_bytes out.new ≡ string_bytes out.old ++ flat_map (rows_of_blocker place request.now) blockers.now) }
{
    for blocker in blockers {
        put_blocker(out, place, request, blocker)?;
    }
    Ok(())
}

/// Writes the row of a session with its transaction, with this word.
fn put_party(out: &mut String, place: u64, word: &str, party: &Party) -> Result<(), NoMemory>
    ensures { OnOk result (string_bytes out.new ≡ string_bytes out.old ++ row_of_party place word.now party.now) }
{
    writeln!(
        out,
        "{place},{word},{},{},,,",
        party.session, party.transaction
    )
}

/// Writes the row of a session on a cycle.
fn put_member(out: &mut String, place: u64, member: &Party) -> Result<(), NoMemory>
    ensures { OnOk result (string_bytes out.new ≡ string_bytes out.old ++ row_of_member place member.now) }
{
    put_party(out, place, "circle", member)
}

/// Writes the rows of the sessions on a cycle.
fn put_members(out: &mut String, place: u64, members: &[Party]) -> Result<(), NoMemory>
    ensures { OnOk result (string_bytes out.new ≡ string_bytes out.old ++ flat_map (row_of_member place) members.now) }
{
    for member in members {
        put_member(out, place, member)?;
    }
    Ok(())
}

/// Writes the row of a wait of one session on a cycle for another.
fn put_edge(out: &mut String, place: u64, edge: &Edge) -> Result<(), NoMemory>
    ensures { OnOk result (string_bytes out.new ≡ string_bytes out.old ++ row_of_edge place edge.now) }
{
    writeln!(out, "{place},waits,{},,,,{}", edge.session, edge.other)
}

/// Writes the rows of the waits of the sessions on a cycle.
fn put_edges(out: &mut String, place: u64, edges: &[Edge]) -> Result<(), NoMemory>
    ensures { OnOk result (string_bytes out.new ≡ string_bytes out.old ++ flat_map (row_of_edge place) edges.now) }
{
    for edge in edges {
        put_edge(out, place, edge)?;
    }
    Ok(())
}

/// Writes the rows of a wait.
fn put_wait(out: &mut String, place: u64, wait: &Wait) -> Result<(), NoMemory>
    ensures { OnOk result (string_bytes out.new ≡ string_bytes out.old ++ rows_of_wait place wait.now) }
{
    put_request(out, place, &wait.request)?;
    put_blockers(out, place, &wait.request, &wait.blockers)?;
    put_members(out, place, &wait.cycle)?;
    put_edges(out, place, &wait.edges)
}

/// Writes the rows of the wait, nothing for `None`.
fn put_wait_rows(out: &mut String, place: u64, wait: &Option<Wait>) -> Result<(), NoMemory>
    ensures { OnOk result (string_bytes out.new ≡ string_bytes out.old ++ wait_rows place wait.now) }
{
    match wait {
        None => Ok(()),
        Some(wait) => put_wait(out, place, wait),
    }
}

/// Writes the row of a deadlock victim.
fn put_victim(out: &mut String, place: u64, victim: &Party) -> Result<(), NoMemory>
    ensures { OnOk result (string_bytes out.new ≡ string_bytes out.old ++ row_of_victim place victim.now) }
{
    put_party(out, place, "victim", victim)
}

/// Writes the rows of the victims.
fn put_victims(out: &mut String, place: u64, victims: &[Party]) -> Result<(), NoMemory>
    ensures { OnOk result (string_bytes out.new ≡ string_bytes out.old ++ flat_map (row_of_victim place) victims.now) }
{
    for victim in victims {
        put_victim(out, place, victim)?;
    }
    Ok(())
}

/// Writes the row of a request that was granted.
fn put_granted(out: &mut String, place: u64, request: &Claim) -> Result<(), NoMemory>
    ensures { OnOk result (string_bytes out.new ≡ string_bytes out.old ++ row_of_granted place request.now) }
{
    put_claim(out, place, "granted", request)
}

/// Writes the rows of the requests of other sessions that were granted.
fn put_all_granted(out: &mut String, place: u64, requests: &[Claim]) -> Result<(), NoMemory>
    ensures { OnOk result (string_bytes out.new ≡ string_bytes out.old ++ flat_map (row_of_granted place) requests.now) }
{
    for request in requests {
        put_granted(out, place, request)?;
    }
    Ok(())
}

/// Writes the row of the call's own request, if it was granted after its wait.
fn put_own_row(out: &mut String, place: u64, wait: &Option<Wait>) -> Result<(), NoMemory>
    ensures { OnOk result (string_bytes out.new ≡ string_bytes out.old ++ own_row place wait.now) }
{
    match wait {
        None => Ok(()),
        Some(wait) => {
            if wait.granted {
                put_granted(out, place, &wait.request)
            } else {
                Ok(())
            }
        }
    }
}

/// Writes the row of a call with nothing to tell.
fn put_done(out: &mut String, place: u64, session: u16) -> Result<(), NoMemory>
    ensures { OnOk result (string_bytes out.new ≡ string_bytes out.old ++ row_of_done place session) }
{
    writeln!(out, "{place},done,{session},,,,")
}

/// Writes the rows of what the call did.
fn put_rows(
    out: &mut String,
    place: u64,
    session: u16,
    explanation: &Explanation,
) -> Result<(), NoMemory>
    ensures { OnOk result (string_bytes out.new ≡ string_bytes out.old ++ rows_of_call place session explanation.now) }
{
    put_refusal_rows(out, place, session, &explanation.refusal)?;
    put_wait_rows(out, place, &explanation.wait)?;
    put_victims(out, place, &explanation.victims)?;
    put_all_granted(out, place, &explanation.granted)?;
    put_own_row(out, place, &explanation.wait)
}

/// An explanation of the call of `session` at index `place` of its history, as CSV rows of seven fields: place, row, session,
/// transaction, resource, mode, other. The rows come in the order of [`crate::explanation_text`]. No field needs quotes.
/// Fails only with `NoMemory`.
pub fn explanation_rows(
    alloc: Global,
    place: u64,
    session: u16,
    explanation: &Explanation,
) -> Result<String, NoMemory>
    ensures { IfOk result (λ text. string_bytes text ≡ rows_of_explanation place session explanation.now) }
{
    let mut out = String::new(alloc);
    if has_nothing_to_tell(explanation) {
        put_done(&mut out, place, session)?;
    } else {
        put_rows(&mut out, place, session, explanation)?;
    }
    Ok(out)
}
