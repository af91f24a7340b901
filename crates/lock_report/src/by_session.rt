//! The claims by session, so that each session's claims are found without a look at all others.

ghost use Rattle.std.specs.Prelude.{◌≡◌, IfOk};
ghost use Rattle.lock_report.specs.StateText.{claims_of};
ghost use Rattle.lock_report.specs.inner.BySession.{Ascends, IsBySession};

use lock_rules::Claim;
use std::alloc::{AllocError as NoMemory, Global};

/// The claims sorted by session. Those of one session keep their order.
pub(crate) fn claims_by_session(alloc: Global, claims: &[Claim]) -> Result<Vec<Claim>, NoMemory>
    ensures { IfOk result (λ sorted. IsBySession claims.now sorted.items) }
{
    let mut sorted = claims.to_vec(alloc)?;
    sorted.sort_by_key(|claim| claim.session)?;
    Ok(sorted)
}

/// The claims of a session, by two binary searches.
pub(crate) fn claims_of_session(sorted: &[Claim], session: u16) -> &[Claim]
    requires { Ascends sorted.now }
    ensures { result.now ≡ claims_of session sorted.now }
{
    let first = sorted.partition_point(|claim| claim.session < session);
    let rest = &sorted[first..];
    let count = rest.partition_point(|claim| claim.session <= session);
    &rest[..count]
}
