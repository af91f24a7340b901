//! Which waiting requests the abort of a session would grant: on each resource that it holds and others wait for, the front of the queue
//! that fits once its lock is gone.

ghost use Rattle.std.specs.Prelude.{◌≡◌, ◌++◌, ◌∷◌, [], IfOk, OnOk, map};
ghost use Rattle.lock_report.specs.Jam.{claims_but, fits_beside, granted_by_abort, granted_of, granted_on, is_holder};

use crate::blocking::requests::{locks_among, requests_among};
use lock_modes::Mode;
use lock_rules::Claim;
use std::alloc::{AllocError as NoMemory, Global};

/// Whether the request is compatible with the locks of all other sessions among these.
fn fits_beside(request: &Claim, locks: &[Claim]) -> bool
    ensures { result ≡ fits_beside request.now locks.now }
{
    let session = request.session;
    let mode = request.mode;
    locks.iter().all(|lock| lock.session == session || Mode::compatible(mode, lock.mode))
}

/// The claims of all sessions but one. Fails if memory is refused.
fn claims_but(alloc: Global, claims: &[Claim], session: u16) -> Result<Vec<Claim>, NoMemory>
    ensures { IfOk result (λ others. others.items ≡ claims_but session claims.now) }
{
    let mut others = Vec::new(alloc);
    for claim in claims {
        if claim.session != session {
            others.push(*claim)?;
        }
    }
    Ok(others)
}

/// Whether the session holds one of the locks.
fn is_holder(locks: &[Claim], session: u16) -> bool
    ensures { result ≡ is_holder session locks.now }
{
    locks.iter().any(|lock| lock.session == session)
}

/// The locks once the request is granted: in the place of the session's own, if it has one. Fails if memory is refused.
fn with_grant(alloc: Global, locks: &[Claim], request: &Claim) -> Result<Vec<Claim>, NoMemory>
    ensures { IfOk result (λ after. after.items ≡ claims_but request.now.session locks.now ++ request.now ∷ []) }
{
    let mut after = claims_but(alloc, locks, request.session)?;
    after.push(*request)?;
    Ok(after)
}

/// Adds to the list the sessions of the requests that are granted beside the locks. Fails if memory is refused.
fn add_granted_of(
    alloc: Global,
    locks: Vec<Claim>,
    queue: &[Claim],
    granted: &mut Vec<u16>,
) -> Result<(), NoMemory>
    ensures { OnOk result (granted.new.items ≡ granted.old.items ++ granted_of locks.items queue.now) }
{
    let mut beside = locks;
    for request in queue {
        if !fits_beside(request, &beside) {
            return Ok(());
        }
        beside = with_grant(alloc, &beside, request)?;
        granted.push(request.session)?;
    }
    Ok(())
}

/// Adds to the list the sessions of the requests that an abort of `session` would grant on the one resource that the claims are on. Fails
/// if memory is refused.
fn add_granted_on(
    alloc: Global,
    session: u16,
    claims: &[Claim],
    granted: &mut Vec<u16>,
) -> Result<(), NoMemory>
    ensures { OnOk result (granted.new.items ≡ granted.old.items ++ granted_on session claims.now) }
{
    let locks = locks_among(alloc, claims)?;
    if !is_holder(&locks, session) {
        return Ok(());
    }
    let others = claims_but(alloc, &locks, session)?;
    let queue = requests_among(alloc, claims)?;
    add_granted_of(alloc, others, &queue, granted)
}

/// The sessions of the requests that an abort of `session` would grant. `jammed` has the claims on each resource that somebody waits for.
/// Fails if memory is refused.
pub(crate) fn granted_by_abort(
    alloc: Global,
    session: u16,
    jammed: &[Vec<Claim>],
) -> Result<Vec<u16>, NoMemory>
    ensures { IfOk result (λ granted. granted.items ≡ granted_by_abort session (map (λ q. q.items) jammed.now)) }
{
    let mut granted = Vec::new(alloc);
    for queue in jammed {
        add_granted_on(alloc, session, queue, &mut granted)?;
    }
    Ok(granted)
}
