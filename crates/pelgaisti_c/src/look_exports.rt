//! The exports by which a session looks at the lock table of its open office.

ghost use Rattle.std.specs.Prelude.{◌≡◌, ◌≢◌, ◌≤◌, ◌↔◌, ◌⊎◌, Some, None};
ghost use denote.RawPtr.{null_ptr};
ghost use Rattle.library_sessions.specs.Looks.{HasBegunLook, HasEndedLook};
ghost use Rattle.library_sessions.specs.Tables.{IsClosed, IsOpen, IsSameBook};
ghost use Rattle.library_sessions.specs.declared.session_share.SessionShare.{SessionShare};

use library_books::status::{CLOSED, ELSEWHERE, NOT_A_LOOK, NULL_POINTER, OK, OPEN};
use library_sessions::pointers::{BookPointer, SessionPointer};
use std::alloc::Global;

/// Tries once for the lock table, to look at it. It moves the session into `view`, which answers the questions of a book: all of one moment,
/// of the history that the session then knows. Meanwhile the session's handle is closed, and no other session can become the combiner.
/// `view` must be closed.
#[unsafe(no_mangle)]
pub extern "C" fn pelgaisti_raw_session_look(
    alloc: Global,
    session: &mut SessionPointer,
    view: &mut BookPointer,
) -> u32
    ensures null { result ≡ NULL_POINTER ↔ ((session.old.at ≡ null_ptr) ⊎ (view.old.at ≡ null_ptr)) }
    ensures ok { result ≡ OK → (before after : SessionShare) × (session.old.behind.held.share ≡ Some before) × (view.new.behind.lent.share ≡ Some after)
        × HasBegunLook before after }
    ensures moved { result ≡ OK → (session.new.behind.is_open ≡ 0) × (session.new.behind.held.share ≡ None) × (view.new.behind.is_open ≡ 2) }
    ensures failed { result ≢ OK → (session.new.behind.is_open ≡ session.old.behind.is_open) × (session.new.behind.held.share ≡ session.old.behind.held.share)
        × (view.new.behind ≡ view.old.behind) }
    ensures open { result ≢ NULL_POINTER → (result ≡ OPEN ↔ IsOpen view.old.behind) }
    ensures closed { result ≢ NULL_POINTER → (result ≡ CLOSED ↔ (IsClosed view.old.behind × (session.old.behind.is_open ≢ 1))) }
    ensures elsewhere { result ≡ ELSEWHERE → (share : SessionShare) × (session.old.behind.held.share ≡ Some share) × (2 ≤ share.sessions) }
    ensures statuses { (result ≡ NULL_POINTER) ⊎ ((result ≡ OK) ⊎ ((result ≡ OPEN) ⊎ ((result ≡ CLOSED) ⊎ (result ≡ ELSEWHERE)))) }
{
    behind!(session, view);
    if view.has_table() {
        return OPEN;
    }
    let mut share = given!(session.take(alloc), CLOSED);
    if share.begin_look() {
        view.put_look(alloc, share);
        return OK;
    }
    session.put(share);
    ELSEWHERE
}

/// Gives the lock table back at which `view` looks, closes `view`, and moves the session back into its handle, which must be closed.
#[unsafe(no_mangle)]
pub extern "C" fn pelgaisti_raw_look_end(
    alloc: Global,
    session: &mut SessionPointer,
    view: &mut BookPointer,
) -> u32
    ensures null { result ≡ NULL_POINTER ↔ ((session.old.at ≡ null_ptr) ⊎ (view.old.at ≡ null_ptr)) }
    ensures ok { result ≡ OK → (before after : SessionShare) × (view.old.behind.lent.share ≡ Some before) × (session.new.behind.held.share ≡ Some after)
        × HasEndedLook before after }
    ensures moved { result ≡ OK → (session.new.behind.is_open ≡ 1) × (view.new.behind.is_open ≡ 0) × (view.new.behind.lent.share ≡ None) }
    ensures failed { result ≢ OK → (session.new.behind ≡ session.old.behind) × IsSameBook view.old.behind view.new.behind }
    ensures open { result ≢ NULL_POINTER → (result ≡ OPEN ↔ (session.old.behind.is_open ≡ 1)) }
    ensures closed { result ≢ NULL_POINTER → (result ≡ CLOSED ↔ ((session.old.behind.is_open ≢ 1) × IsClosed view.old.behind)) }
    ensures not_a_look { result ≢ NULL_POINTER → (result ≡ NOT_A_LOOK ↔ ((session.old.behind.is_open ≢ 1) × (view.old.behind.is_open ≡ 1))) }
    ensures statuses { (result ≡ NULL_POINTER) ⊎ ((result ≡ OK) ⊎ ((result ≡ OPEN) ⊎ ((result ≡ CLOSED) ⊎ (result ≡ NOT_A_LOOK)))) }
{
    behind!(session, view);
    if session.is_open == 1 {
        return OPEN;
    }
    let mut share = given!(
        view.take_look(alloc),
        if view.is_open == 1 {
            NOT_A_LOOK
        } else {
            CLOSED
        }
    );
    share.end_look();
    session.put(share);
    OK
}
