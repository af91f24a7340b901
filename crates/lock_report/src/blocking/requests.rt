//! The waiting requests and the locks among the claims of a dump.

ghost use Rattle.std.specs.Prelude.{◌≡◌, IfOk};
ghost use Rattle.lock_report.specs.Blockers.{is_request, request_of, requests_among};
ghost use Rattle.lock_report.specs.Jam.{locks_among};

use crate::claims::is_request_kind;
use lock_rules::Claim;
use std::alloc::{AllocError as NoMemory, Global};

/// Whether the claim is a waiting request.
pub(crate) fn is_request(claim: &Claim) -> bool
    ensures { result ≡ is_request claim.now }
{
    is_request_kind(claim.kind)
}

/// The waiting requests among the claims. Fails if memory is refused.
pub fn requests_among(alloc: Global, claims: &[Claim]) -> Result<Vec<Claim>, NoMemory>
    ensures { IfOk result (λ requests. requests.items ≡ requests_among claims.now) }
{
    let mut requests = Vec::new(alloc);
    for claim in claims {
        if is_request(claim) {
            requests.push(*claim)?;
        }
    }
    Ok(requests)
}

/// The locks among the claims. Fails if memory is refused.
pub(crate) fn locks_among(alloc: Global, claims: &[Claim]) -> Result<Vec<Claim>, NoMemory>
    ensures { IfOk result (λ locks. locks.items ≡ locks_among claims.now) }
{
    let mut locks = Vec::new(alloc);
    for claim in claims {
        if !is_request(claim) {
            locks.push(*claim)?;
        }
    }
    Ok(locks)
}

/// The first of the requests that is the session's.
pub(crate) fn request_of(requests: &[Claim], session: u16) -> Option<Claim>
    ensures { result ≡ request_of session requests.now }
{
    for request in requests {
        if request.session == session {
            return Some(*request);
        }
    }
    None
}
