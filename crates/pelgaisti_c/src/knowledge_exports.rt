//! The exports on what a session knows: how much of the history, of which office, whom to wake, and what another session knows.

ghost use Rattle.std.specs.Prelude.{◌≡◌, ◌≢◌, ◌↔◌, ◌⊎◌, Some, length, drop};
ghost use denote.RawPtr.{null_ptr};
ghost use Rattle.lock_office.specs.Seen.{number_of_calls};
ghost use Rattle.library_books.specs.Calls.{are_written};
ghost use Rattle.library_sessions.specs.Sessions.{IsHeard};
ghost use Rattle.library_sessions.specs.declared.session_share.SessionShare.{SessionShare};

use library_books::pointers::U64Pointer;
use library_books::status::{CLOSED, NULL_POINTER, OK, OTHER_OFFICE};
use library_sessions::pointers::SessionPointer;
use library_sessions::session_calls;
use std::alloc::Global;

/// Writes the number of history entries that the session knows. These are the first ones.
#[unsafe(no_mangle)]
pub extern "C" fn pelgaisti_raw_session_seen(
    alloc: Global,
    session: &mut SessionPointer,
    seen: &mut U64Pointer,
) -> u32
    ensures null { result ≡ NULL_POINTER ↔ ((session.old.at ≡ null_ptr) ⊎ (seen.old.at ≡ null_ptr)) }
    ensures ok { result ≡ OK → (share : SessionShare) × (session.old.behind.held.share ≡ Some share) × (seen.new.behind ≡ number_of_calls share.session.front) }
    ensures failed { result ≢ OK → seen.new.behind ≡ seen.old.behind }
    ensures same { (session.new.behind.is_open ≡ session.old.behind.is_open) × (session.new.behind.held.share ≡ session.old.behind.held.share) }
    ensures closed { result ≢ NULL_POINTER → (result ≡ CLOSED ↔ (session.old.behind.is_open ≢ 1)) }
    ensures statuses { (result ≡ NULL_POINTER) ⊎ ((result ≡ OK) ⊎ (result ≡ CLOSED)) }
{
    behind!(session, seen);
    let share = given!(session.take(alloc), CLOSED);
    *seen = share.session.seen();
    session.put(share);
    OK
}

/// Writes the mark of the session's office: the number that was given when it was opened; and the session's number in it.
#[unsafe(no_mangle)]
pub extern "C" fn pelgaisti_raw_session_mark(
    alloc: Global,
    session: &mut SessionPointer,
    mark: &mut U64Pointer,
    number: &mut u32,
) -> u32
    ensures null { result ≡ NULL_POINTER ↔ ((session.old.at ≡ null_ptr) ⊎ (mark.old.at ≡ null_ptr)) }
    ensures ok { result ≡ OK → (share : SessionShare) × (session.old.behind.held.share ≡ Some share) × (mark.new.behind ≡ share.mark)
        × (number.new ≡ share.session.number) }
    ensures failed { result ≢ OK → (mark.new.behind ≡ mark.old.behind) × (number.new ≡ number.old) }
    ensures same { (session.new.behind.is_open ≡ session.old.behind.is_open) × (session.new.behind.held.share ≡ session.old.behind.held.share) }
    ensures closed { result ≢ NULL_POINTER → (result ≡ CLOSED ↔ (session.old.behind.is_open ≢ 1)) }
    ensures statuses { (result ≡ NULL_POINTER) ⊎ ((result ≡ OK) ⊎ (result ≡ CLOSED)) }
{
    behind!(session, mark);
    let share = given!(session.take(alloc), CLOSED);
    *mark = share.mark;
    *number = u32::from(share.session.number());
    session.put(share);
    OK
}

/// Writes the address of the waker of the session's office: the number that was given when it was opened. 0 means that there is none.
#[unsafe(no_mangle)]
pub extern "C" fn pelgaisti_raw_session_waker(
    alloc: Global,
    session: &mut SessionPointer,
    waker: &mut u64,
) -> u32
    ensures null { result ≡ NULL_POINTER ↔ (session.old.at ≡ null_ptr) }
    ensures ok { result ≡ OK → (share : SessionShare) × (session.old.behind.held.share ≡ Some share) × (waker.new ≡ share.waker) }
    ensures failed { result ≢ OK → waker.new ≡ waker.old }
    ensures same { (session.new.behind.is_open ≡ session.old.behind.is_open) × (session.new.behind.held.share ≡ session.old.behind.held.share) }
    ensures closed { result ≢ NULL_POINTER → (result ≡ CLOSED ↔ (session.old.behind.is_open ≢ 1)) }
    ensures statuses { (result ≡ NULL_POINTER) ⊎ ((result ≡ OK) ⊎ (result ≡ CLOSED)) }
{
    behind!(session);
    let share = given!(session.take(alloc), CLOSED);
    *waker = share.waker;
    session.put(share);
    OK
}

/// Writes the sessions that the waker of the session's office is to wake after the session's last pass, from index `first` on, as many
/// as `list` has room for, and the number of all of them to `count`.
#[unsafe(no_mangle)]
pub extern "C" fn pelgaisti_raw_session_told(
    alloc: Global,
    session: &mut SessionPointer,
    first: usize,
    list: &mut [u32],
    count: &mut usize,
) -> u32
    ensures null { result ≡ NULL_POINTER ↔ (session.old.at ≡ null_ptr) }
    ensures ok { result ≡ OK → (share : SessionShare) × (session.old.behind.held.share ≡ Some share)
        × (list.new ≡ are_written (λ u. u) (drop first share.told.listener.list) list.old) × (count.new ≡ length share.told.listener.list) }
    ensures failed { result ≢ OK → (list.new ≡ list.old) × (count.new ≡ count.old) }
    ensures same { (session.new.behind.is_open ≡ session.old.behind.is_open) × (session.new.behind.held.share ≡ session.old.behind.held.share) }
    ensures closed { result ≢ NULL_POINTER → (result ≡ CLOSED ↔ (session.old.behind.is_open ≢ 1)) }
    ensures statuses { (result ≡ NULL_POINTER) ⊎ ((result ≡ OK) ⊎ (result ≡ CLOSED)) }
{
    behind!(session);
    let share = given!(session.take(alloc), CLOSED);
    session_calls::told(&share, first, list, count);
    session.put(share);
    OK
}

/// Makes what `other` knows of the history known to `session`. Needs that open handles with the same mark belong to the
/// same office.
#[unsafe(no_mangle)]
pub extern "C" fn pelgaisti_raw_session_hear(
    alloc: Global,
    session: &mut SessionPointer,
    other: &mut SessionPointer,
) -> u32
    requires one_office { session.old.at ≢ null_ptr → other.old.at ≢ null_ptr → (a b : SessionShare) → session.old.behind.held.share ≡ Some a → other.old.behind.held.share ≡ Some b → a.mark ≡ b.mark → a.office.value ≡ b.office.value }
    ensures null { result ≡ NULL_POINTER ↔ ((session.old.at ≡ null_ptr) ⊎ (other.old.at ≡ null_ptr)) }
    ensures ok { result ≡ OK → (before after heard : SessionShare) × (session.old.behind.held.share ≡ Some before) × (session.new.behind.held.share ≡ Some after)
        × (other.old.behind.held.share ≡ Some heard) × (before.mark ≡ heard.mark) × IsHeard before heard after }
    ensures failed { result ≢ OK → session.new.behind.held.share ≡ session.old.behind.held.share }
    ensures open { session.new.behind.is_open ≡ session.old.behind.is_open }
    ensures other { (other.new.behind.is_open ≡ other.old.behind.is_open) × (other.new.behind.held.share ≡ other.old.behind.held.share) }
    ensures closed { result ≢ NULL_POINTER → (result ≡ CLOSED ↔ ((session.old.behind.is_open ≢ 1) ⊎ (other.old.behind.is_open ≢ 1))) }
    ensures other_office { result ≡ OTHER_OFFICE → (a b : SessionShare) × (session.old.behind.held.share ≡ Some a) × (other.old.behind.held.share ≡ Some b) × (a.mark ≢ b.mark) }
    ensures statuses { (result ≡ NULL_POINTER) ⊎ ((result ≡ OK) ⊎ ((result ≡ CLOSED) ⊎ (result ≡ OTHER_OFFICE))) }
{
    behind!(session, other);
    if session.is_open != 1 || other.is_open != 1 {
        return CLOSED;
    }
    let mut share = given!(session.take(alloc), CLOSED);
    let Some(mut heard) = other.take(alloc) else {
        session.put(share);
        return CLOSED;
    };
    let status = session_calls::hear(&mut share, &mut heard);
    session.put(share);
    other.put(heard);
    status
}
