//! Who waits for whom, as it follows from the locks and requests of a state.

ghost use Rattle.std.specs.Prelude.{◌≡◌, ◌++◌, ◌&&◌, ◌||◌, ◌==◌, ℕ, IfOk, OnOk};
ghost use Rattle.std.specs.List.{list_any};
ghost use Rattle.lock_report.specs.Blocking.{is_ahead, is_in_the_way, is_own, waits_among, waits_of};
ghost use Rattle.lock_report.specs.inner.Blocking.{wait_if};

use crate::blocking::contended::contended;
use crate::blocking::requests::{is_request, request_of, requests_among};
use crate::snapshot::{OpenTransaction, WaitFor};
use indexmap::IndexSet;
use lock_modes::Mode;
use lock_rules::Claim;
use std::alloc::{AllocError as NoMemory, Global};

/// Whether the claim is a request of the session that makes `request`.
fn is_own(request: &Claim, claim: &Claim) -> bool
    ensures { result ≡ is_own request.now claim.now }
{
    is_request(claim) && claim.session == request.session
}

/// Whether the claim, ahead of the request on its resource, keeps it waiting.
fn is_in_the_way(request: &Claim, claim: &Claim) -> bool
    ensures { result ≡ is_in_the_way request.now claim.now }
{
    claim.session != request.session
        && (is_request(claim) || !Mode::compatible(request.mode, claim.mode))
}

/// Adds the session of the claim, if the claim is in the way. Fails if memory is refused.
fn add_blocker(request: &Claim, claim: &Claim, blockers: &mut IndexSet<u16>) -> Result<(), NoMemory>
    ensures { OnOk result ((u : ℕ) → list_any (λ k. u == k) blockers.new.keys ≡ (list_any (λ k. u == k) blockers.old.keys || (is_in_the_way request.now claim.now && (claim.now.session == u)))) }
{
    if is_in_the_way(request, claim) {
        blockers.insert(claim.session)?;
    }
    Ok(())
}

/// The sessions that keep the request waiting, by the claims on its resource. Fails if memory is refused.
fn blockers_of(alloc: Global, request: &Claim, queue: &[Claim]) -> Result<IndexSet<u16>, NoMemory>
    ensures { IfOk result (λ blockers. (u : ℕ) → list_any (λ k. u == k) blockers.keys ≡ is_ahead request.now u queue.now) }
{
    let mut blockers = IndexSet::new(alloc);
    for claim in queue {
        if is_own(request, claim) {
            return Ok(blockers);
        }
        add_blocker(request, claim, &mut blockers)?;
    }
    Ok(blockers)
}

/// Adds the wait of `session` for `other`, if the second is a blocker. Fails if memory is refused.
fn add_wait(
    blockers: &IndexSet<u16>,
    session: u16,
    other: u16,
    waits: &mut Vec<WaitFor>,
) -> Result<(), NoMemory>
    ensures { OnOk result (waits.new.items ≡ waits.old.items ++ wait_if (list_any (λ k. other == k) blockers.now.keys) session other) }
{
    if blockers.contains(&other) {
        waits.push(WaitFor { session, other })?;
    }
    Ok(())
}

/// Adds the waits of the request for others of the sessions 1 to `sessions`. Fails if memory is refused.
fn add_waits_of(
    alloc: Global,
    sessions: u16,
    claims: &[Claim],
    request: Option<Claim>,
    waits: &mut Vec<WaitFor>,
) -> Result<(), NoMemory>
    ensures { OnOk result (waits.new.items ≡ waits.old.items ++ waits_of sessions claims.now request) }
{
    let Some(request) = request else {
        return Ok(());
    };
    let queue = contended(alloc, claims, &[request])?;
    let blockers = blockers_of(alloc, &request, &queue)?;
    for before in 0..sessions {
        add_wait(&blockers, request.session, before + 1, waits)?;
    }
    Ok(())
}

/// Who of the sessions 1 to `sessions` waits directly for whom, in the order of the open transactions, each for others by session number. Of
/// several requests of a session the first counts. Fails if memory is refused.
pub fn waits_among(
    alloc: Global,
    sessions: u16,
    opens: &[OpenTransaction],
    claims: &[Claim],
) -> Result<Vec<WaitFor>, NoMemory>
    ensures { IfOk result (λ waits. waits.items ≡ waits_among sessions opens.now claims.now) }
{
    let requests = requests_among(alloc, claims)?;
    let jammed = contended(alloc, claims, &requests)?;
    let mut waits = Vec::new(alloc);
    for begun in opens {
        let request = request_of(&requests, begun.session);
        add_waits_of(alloc, sessions, &jammed, request, &mut waits)?;
    }
    Ok(waits)
}
