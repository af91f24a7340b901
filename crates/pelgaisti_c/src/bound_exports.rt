//! The export that says how much the passes of a session's whole calls serve.

ghost use Rattle.std.specs.Prelude.{◌≡◌, ◌≢◌, ◌↔◌, ◌⊎◌, Some};
ghost use denote.RawPtr.{null_ptr};
ghost use Rattle.library_sessions.specs.Bounds.{IsNoBound, HasBound};
ghost use Rattle.library_sessions.specs.declared.session_share.SessionShare.{SessionShare};

use library_books::status::{CLOSED, NO_SUCH_COUNT, NULL_POINTER, OK};
use library_sessions::bounds::bound_passes;
use library_sessions::pointers::SessionPointer;
use std::alloc::Global;

/// From now on a pass in a whole call of the session serves at most `calls` published programs a round, takes none once those that it has
/// taken give back `locks` locks, and makes `rounds` rounds at most.
#[unsafe(no_mangle)]
pub extern "C" fn pelgaisti_raw_session_bound_passes(
    alloc: Global,
    session: &mut SessionPointer,
    calls: u32,
    locks: u32,
    rounds: u32,
) -> u32
    ensures null { result ≡ NULL_POINTER ↔ (session.old.at ≡ null_ptr) }
    ensures ok { result ≡ OK → (before after : SessionShare) × (session.old.behind.held.share ≡ Some before) × (session.new.behind.held.share ≡ Some after)
        × HasBound calls locks rounds before after }
    ensures count { result ≡ NO_SUCH_COUNT → IsNoBound calls locks rounds }
    ensures failed { result ≢ OK → session.new.behind.held.share ≡ session.old.behind.held.share }
    ensures open { session.new.behind.is_open ≡ session.old.behind.is_open }
    ensures closed { result ≢ NULL_POINTER → (result ≡ CLOSED ↔ (session.old.behind.is_open ≢ 1)) }
    ensures statuses { (result ≡ NULL_POINTER) ⊎ ((result ≡ OK) ⊎ ((result ≡ CLOSED) ⊎ (result ≡ NO_SUCH_COUNT))) }
{
    behind!(session);
    on!(share held by session, alloc => bound_passes(&mut share, calls, locks, rounds))
}
