//! The exports that close an office.

ghost use Rattle.std.specs.Prelude.{◌≡◌, ◌≢◌, ◌≤◌, ◌⊎◌, ◌↔◌, Some, None};
ghost use denote.RawPtr.{null_ptr};
ghost use Rattle.lock_desk.specs.BookView.{BookView};
ghost use Rattle.publication.specs.Boards.{IsEachOnce};
ghost use Rattle.lock_office.specs.Sessions.{HasNothingPending};
ghost use Rattle.library_sessions.specs.Offices.{all_of, IsClosed};
ghost use Rattle.library_sessions.specs.Tables.{IsClosed as IsShut, IsOpen};
ghost use Rattle.library_sessions.specs.Sessions.{IsKept, IsHandedIn};
ghost use Rattle.library_sessions.specs.declared.session_share.SessionShare.{SessionShare as ShareValue};

use library_books::status::{
    CLOSED, COPIED, MISSING, NO_MEMORY, NULL_POINTER, OK, OPEN, OTHER_OFFICE, PENDING,
};
use library_sessions::hand_in;
use library_sessions::pointers::{BookPointer, SessionPointer};
use std::alloc::Global;

/// Hands the session, with all sessions that were handed in to it, in to the session `to` of its office, and closes its
/// handle. Needs that open handles with the same mark belong to the same office.
#[unsafe(no_mangle)]
pub extern "C" fn pelgaisti_raw_session_hand_in(
    alloc: Global,
    session: &mut SessionPointer,
    to: &mut SessionPointer,
) -> u32
    requires one_office { session.old.at ≢ null_ptr → to.old.at ≢ null_ptr → (a b : ShareValue) → session.old.behind.held.share ≡ Some a → to.old.behind.held.share ≡ Some b → a.mark ≡ b.mark → a.office.value ≡ b.office.value }
    ensures null { result ≡ NULL_POINTER ↔ ((session.old.at ≡ null_ptr) ⊎ (to.old.at ≡ null_ptr)) }
    ensures ok { result ≡ OK → (share before after : ShareValue) × (session.old.behind.held.share ≡ Some share) × (to.old.behind.held.share ≡ Some before) × (to.new.behind.held.share ≡ Some after)
        × IsHandedIn share before after }
    ensures handed { result ≡ OK → session.new.behind.held.share ≡ None }
    ensures same { result ≢ OK → IsKept session.old.behind.held.share session.new.behind.held.share × IsKept to.old.behind.held.share to.new.behind.held.share }
    ensures open { result ≢ OK → (session.new.behind.is_open ≡ session.old.behind.is_open) × (to.new.behind.is_open ≡ to.old.behind.is_open) }
    ensures closed { result ≢ NULL_POINTER → (result ≡ CLOSED ↔ ((session.old.behind.is_open ≢ 1) ⊎ (to.old.behind.is_open ≢ 1))) }
    ensures other_office { result ≡ OTHER_OFFICE → (a b : ShareValue) × (session.old.behind.held.share ≡ Some a) × (to.old.behind.held.share ≡ Some b) × (a.mark ≢ b.mark) }
    ensures pending { result ≡ PENDING → (a b : ShareValue) × (session.old.behind.held.share ≡ Some a) × (to.old.behind.held.share ≡ Some b) × (a.mark ≡ b.mark) × (a.session.pending ≢ None) }
    ensures memory { result ≡ NO_MEMORY → (a b : ShareValue) × (session.old.behind.held.share ≡ Some a) × (to.old.behind.held.share ≡ Some b) × (a.mark ≡ b.mark) × HasNothingPending a.session }
    ensures statuses { (result ≡ NULL_POINTER) ⊎ ((result ≤ CLOSED) ⊎ ((result ≡ OTHER_OFFICE) ⊎ (result ≡ PENDING))) }
{
    behind!(session, to);
    if session.is_open != 1 || to.is_open != 1 {
        return CLOSED;
    }
    let share = given!(session.take(alloc), CLOSED);
    let Some(mut other) = to.take(alloc) else {
        session.put(share);
        return CLOSED;
    };
    match hand_in::hand_in(share, &mut other) {
        Ok(()) => {
            to.put(other);
            OK
        }
        Err((fault, share)) => {
            session.put(share);
            to.put(other);
            fault
        }
    }
}

/// Closes the office of the session, to which all other sessions were handed in. Closes the session's handle, and opens
/// `book` with the lock table and the whole history.
#[unsafe(no_mangle)]
pub extern "C" fn pelgaisti_raw_office_close(
    alloc: Global,
    session: &mut SessionPointer,
    book: &mut BookPointer,
) -> u32
    ensures null { result ≡ NULL_POINTER ↔ ((session.old.at ≡ null_ptr) ⊎ (book.old.at ≡ null_ptr)) }
    ensures ok { result ≡ OK → (share : ShareValue) × (view : BookView) × (session.old.behind.held.share ≡ Some share) × (book.new.behind.held.book ≡ Some view)
        × IsClosed share.office.value (all_of share) view }
    ensures done { (result ≡ OK) ⊎ (result ≡ COPIED) → session.new.behind.held.share ≡ None }
    ensures book { result ≢ OK → book.new.behind ≡ book.old.behind }
    ensures same { result ≢ OK → result ≢ COPIED → (session.new.behind.is_open ≡ session.old.behind.is_open) × IsKept session.old.behind.held.share session.new.behind.held.share }
    ensures open { result ≢ NULL_POINTER → (result ≡ OPEN ↔ IsOpen book.old.behind) }
    ensures closed { result ≢ NULL_POINTER → (result ≡ CLOSED ↔ (IsShut book.old.behind × (session.old.behind.is_open ≢ 1))) }
    ensures missing { result ≡ MISSING → (share : ShareValue) × (session.old.behind.held.share ≡ Some share) × ¬ (IsEachOnce share.sessions (all_of share)) }
    ensures pending { result ≡ PENDING → (share : ShareValue) × (session.old.behind.held.share ≡ Some share) × IsEachOnce share.sessions (all_of share) × (share.session.pending ≢ None) }
    ensures whole { (result ≡ NO_MEMORY) ⊎ (result ≡ COPIED) → (share : ShareValue) × (session.old.behind.held.share ≡ Some share) × IsEachOnce share.sessions (all_of share) × HasNothingPending share.session }
    ensures statuses { (result ≡ NULL_POINTER) ⊎ ((result ≤ CLOSED) ⊎ ((result ≡ OPEN) ⊎ ((result ≡ MISSING) ⊎ ((result ≡ PENDING) ⊎ (result ≡ COPIED))))) }
{
    behind!(session, book);
    if book.has_table() {
        return OPEN;
    }
    let share = given!(session.take(alloc), CLOSED);
    match hand_in::close(alloc, share) {
        Ok(made) => {
            book.put_own(alloc, made);
            OK
        }
        Err((fault, Some(share))) => {
            session.put(share);
            fault
        }
        Err((fault, None)) => fault,
    }
}
