//! How much the passes of a session's whole calls serve.

ghost use Rattle.std.specs.Prelude.{◌≡◌, ◌≢◌, ◌⊎◌, IfSome, IfNone, false, is_some};
ghost use Rattle.combining.specs.Rounds.{IsBound};
ghost use Rattle.library_sessions.specs.Bounds.{IsBoundOf, IsNoBound, HasBound};

use crate::session_share::SessionShare;
use library_books::status::{NO_SUCH_COUNT, OK};
use lock_office::PassBound;

/// The bound that the numbers say, if they are in range.
pub fn bound_of(calls: u32, locks: u32, rounds: u32) -> Option<PassBound>
    ensures some { IfSome result (λ bound. IsBoundOf calls locks rounds bound × IsBound bound × ¬ (IsNoBound calls locks rounds)) }
    ensures none { IfNone result (IsNoBound calls locks rounds) }
{
    if calls == 0 || calls > 65_535 || locks == 0 || rounds == 0 || rounds > 65_535 {
        return None;
    }
    Some(PassBound {
        calls: calls as u16,
        weight: locks,
        rounds: rounds as u16,
    })
}

/// Bounds the passes of the session's whole calls, if the numbers are in range.
pub fn bound_passes(share: &mut SessionShare, calls: u32, locks: u32, rounds: u32) -> u32
    requires free { is_some share.old.looking ≡ false }
    ensures free { is_some share.new.looking ≡ false }
    ensures ok { result ≡ OK → HasBound calls locks rounds share.old share.new }
    ensures failed { result ≢ OK → share.new ≡ share.old }
    ensures count { result ≡ NO_SUCH_COUNT → IsNoBound calls locks rounds }
    ensures statuses { (result ≡ OK) ⊎ (result ≡ NO_SUCH_COUNT) }
{
    let Some(bound) = bound_of(calls, locks, rounds) else {
        return NO_SUCH_COUNT;
    };
    share.bound = bound;
    OK
}
