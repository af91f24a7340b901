//! For whom the requests of a state wait, each session's first blocker first.

ghost use Rattle.std.specs.Prelude.{◌≡◌, ◌++◌, ◌&&◌, IfOk, OnOk};
ghost use Rattle.std.specs.List.{flat_map};
ghost use Rattle.lock_tree.specs.Paths.{same_path};
ghost use Rattle.lock_report.specs.Blockers.{first_blocker, is_waited_for, other_wait, request_of, requests_among, told_behind, told_of, told_waits, waits_by};

use crate::blocking::contended::contended;
use crate::blocking::requests::{request_of, requests_among};
use crate::snapshot::{OpenTransaction, WaitFor, WaitLine};
use lock_rules::Claim;
use lock_tree::{Resource, same_path_is_equality};
use std::alloc::{AllocError as NoMemory, Global};

/// The waits of the session. Fails if memory is refused.
fn waits_by(alloc: Global, waits: &[WaitFor], session: u16) -> Result<Vec<WaitFor>, NoMemory>
    ensures { IfOk result (λ own. own.items ≡ waits_by session waits.now) }
{
    let mut own = Vec::new(alloc);
    for wait in waits {
        if wait.session == session {
            own.push(*wait)?;
        }
    }
    Ok(own)
}

/// Whether one of the waits is for the session.
pub(crate) fn is_waited_for(waits: &[WaitFor], session: u16) -> bool
    ensures { result ≡ is_waited_for session waits.now }
{
    waits.iter().any(|wait| wait.other == session)
}

/// Whether the claim is on the resource, and one of the waits is for its session.
fn is_blocker(waits: &[WaitFor], resource: Resource, claim: &Claim) -> bool
    ensures { result ≡ (same_path claim.now.resource resource && is_waited_for claim.now.session waits.now) }
{
    same_path_is_equality();
    claim.resource == resource && is_waited_for(waits, claim.session)
}

/// The first session, in the order of the claims, that has a claim on the resource and that one of the waits is for.
fn first_blocker(waits: &[WaitFor], resource: Resource, claims: &[Claim]) -> Option<u16>
    ensures { result ≡ first_blocker waits.now resource claims.now }
{
    for claim in claims {
        if is_blocker(waits, resource, claim) {
            return Some(claim.session);
        }
    }
    None
}

/// Adds the wait to the list, unless it is for the first blocker. Fails if memory is refused.
fn add_other(wait: &WaitFor, first: u16, told: &mut Vec<WaitLine>) -> Result<(), NoMemory>
    ensures { OnOk result (told.new.items ≡ told.old.items ++ other_wait first wait.now) }
{
    if wait.other != first {
        told.push(WaitLine {
            wait: *wait,
            first: false,
            since: None,
        })?;
    }
    Ok(())
}

/// Adds the waits to the list but that for the first blocker. Fails if memory is refused.
fn add_others(waits: &[WaitFor], first: u16, told: &mut Vec<WaitLine>) -> Result<(), NoMemory>
    ensures { OnOk result (told.new.items ≡ told.old.items ++ flat_map (other_wait first) waits.now) }
{
    for wait in waits {
        add_other(wait, first, told)?;
    }
    Ok(())
}

/// Adds the waits of the session to the list, that for the first blocker first. Fails if memory is refused.
fn add_told(
    session: u16,
    waits: &[WaitFor],
    first: Option<u16>,
    told: &mut Vec<WaitLine>,
) -> Result<(), NoMemory>
    ensures { OnOk result (told.new.items ≡ told.old.items ++ told_behind session waits.now first) }
{
    let Some(first) = first else {
        return Ok(());
    };
    let wait = WaitFor {
        session,
        other: first,
    };
    told.push(WaitLine {
        wait,
        first: true,
        since: None,
    })?;
    add_others(waits, first, told)
}

/// Adds the waits of the request to the list. Fails if memory is refused.
fn add_waits_of(
    alloc: Global,
    claims: &[Claim],
    waits: &[WaitFor],
    request: Option<Claim>,
    told: &mut Vec<WaitLine>,
) -> Result<(), NoMemory>
    ensures { OnOk result (told.new.items ≡ told.old.items ++ told_of claims.now waits.now request) }
{
    let Some(request) = request else {
        return Ok(());
    };
    let own = waits_by(alloc, waits, request.session)?;
    let first = first_blocker(&own, request.resource, claims);
    add_told(request.session, &own, first, told)
}

/// The waits of all sessions, in the order of the open transactions, each session's first blocker first; since when a session waits isn't
/// told. Fails if memory is refused.
pub fn told_waits(
    alloc: Global,
    opens: &[OpenTransaction],
    claims: &[Claim],
    waits: &[WaitFor],
) -> Result<Vec<WaitLine>, NoMemory>
    ensures { IfOk result (λ told. told.items ≡ told_waits opens.now claims.now waits.now) }
{
    let requests = requests_among(alloc, claims)?;
    let jammed = contended(alloc, claims, &requests)?;
    let mut told = Vec::new(alloc);
    for begun in opens {
        let request = request_of(&requests, begun.session);
        add_waits_of(alloc, &jammed, waits, request, &mut told)?;
    }
    Ok(told)
}
