//! Handing sessions in to one another, and closing an office.

ghost use Rattle.std.specs.Prelude.{◌≡◌, ◌≢◌, ◌<◌, ◌≤◌, ◌∷◌, ◌++◌, [], ◌↔◌, ◌⊎◌, true, false, None, IsTrue, IsSome, IfOk, IfErr, IfSome, vec_len, vec_capacity, is_some};
ghost use Rattle.lock_rules.specs.declared.calls.TheConstants.{MAX_SESSIONS};
ghost use Rattle.publication.specs.Boards.{IsEachOnce};
ghost use Rattle.lock_office.specs.Sessions.{HasNothingPending};
ghost use Rattle.library_sessions.specs.Offices.{all_of, IsClosed};
ghost use Rattle.library_sessions.specs.Sessions.{IsSameShare, IsHandedIn};

use crate::session_share::SessionShare;
use library_books::status::{COPIED, MISSING, NO_MEMORY, OTHER_OFFICE, PENDING};
use lock_desk::Book;
use lock_office::{CloseFault, Session, Ticket};
use lock_rules::MAX_SESSIONS;
use publication::Roll;
use std::alloc::Global;
use std::sync::Arc;

/// Whether `handed` and `last` together are all sessions of an office with `sessions` sessions. It looks at each of them and at
/// each number once, and takes no memory.
fn is_each_once(handed: &[Ticket], last: &Session, sessions: u16) -> bool
    requires few { sessions ≤ MAX_SESSIONS }
    ensures { IsTrue result ↔ IsEachOnce sessions (handed.now ++ last.now ∷ []) }
{
    if handed.len() + 1 != usize::from(sessions) {
        return false;
    }
    let mut roll = Roll::new();
    for session in handed {
        roll.call(session.number());
    }
    roll.call(last.number());
    roll.has_all(sessions)
}

/// Whether the session has no pending call.
fn is_settled(session: &Session) -> bool
    requires live { session.now.pending ≢ None → session.now.retired ≡ false }
    ensures yes { result ≡ true → HasNothingPending session.now }
    ensures no { result ≡ false → session.now.pending ≢ None }
{
    session.is_idle() || session.is_retired()
}

/// Moves the session of `share`, and all that were handed in to it, to the end of `to.handed`. Returns the share if
/// memory is refused.
fn take_in(share: Box<SessionShare>, to: &mut SessionShare) -> Result<(), Box<SessionShare>>
    requires free { is_some share.value.looking ≡ false }
    requires free_to { is_some to.old.looking ≡ false }
    requires one_office { share.value.office.value ≡ to.old.office.value }
    requires mark { share.value.mark ≡ to.old.mark }
    requires settled { HasNothingPending share.value.session }
    ensures free_to { is_some to.new.looking ≡ false }
    ensures ok { IfOk result (λ _. IsHandedIn share.value to.old to.new) }
    ensures err { IfErr result (λ back. IsSameShare share.value back.value × IsSameShare to.old to.new) }
    ensures free { IfErr result (λ back. is_some back.value.looking ≡ false) }
{
    let mut share = share;
    if to.handed.reserve(share.handed.len() + 1).is_err()
        || to.handed.append(&mut share.handed).is_err()
    {
        return Err(share);
    }
    let SessionShare {
        office: _,
        session,
        handed: _,
        sessions: _,
        mark: _,
        waker: _,
        bound: _,
        told: _,
        looking: _,
    } = Box::into_inner(share);
    to.handed.push_reserved(session.into_session());
    Ok(())
}

/// Hands the session of `share`, and all that were handed in to it, in to `to`. On failure returns the status and the
/// share, and nothing has changed.
pub fn hand_in(
    share: Box<SessionShare>,
    to: &mut SessionShare,
) -> Result<(), (u32, Box<SessionShare>)>
    requires free { is_some share.value.looking ≡ false }
    requires free_to { is_some to.old.looking ≡ false }
    requires one_office { share.value.mark ≡ to.old.mark → share.value.office.value ≡ to.old.office.value }
    ensures free_to { is_some to.new.looking ≡ false }
    ensures ok { IfOk result (λ _. IsHandedIn share.value to.old to.new) }
    ensures err { IfErr result (λ back. IsSameShare share.value back.1.value × IsSameShare to.old to.new) }
    ensures free { IfErr result (λ back. is_some back.1.value.looking ≡ false) }
    ensures other_office { IfErr result (λ back. back.0 ≡ OTHER_OFFICE → share.value.mark ≢ to.old.mark) }
    ensures pending { IfErr result (λ back. back.0 ≡ PENDING → (share.value.mark ≡ to.old.mark) × (share.value.session.pending ≢ None)) }
    ensures memory { IfErr result (λ back. back.0 ≡ NO_MEMORY → (share.value.mark ≡ to.old.mark) × HasNothingPending share.value.session) }
    ensures faults { IfErr result (λ back. (back.0 ≡ OTHER_OFFICE) ⊎ ((back.0 ≡ PENDING) ⊎ (back.0 ≡ NO_MEMORY))) }
{
    if share.mark != to.mark {
        return Err((OTHER_OFFICE, share));
    }
    if !is_settled(&share.session) {
        return Err((PENDING, share));
    }
    match take_in(share, to) {
        Ok(()) => Ok(()),
        Err(share) => Err((NO_MEMORY, share)),
    }
}

/// Makes room for one more session in `share.handed`, and a box for a book, so that `finish` needs no memory. Returns
/// `None` if memory is refused.
fn room_for(alloc: Global, share: &mut SessionShare) -> Option<Box<Book>>
    requires free { is_some share.old.looking ≡ false }
    ensures free { is_some share.new.looking ≡ false }
    ensures room { IfSome result (λ _. vec_len share.new.handed < vec_capacity share.new.handed) }
    ensures same { IsSameShare share.old share.new }
{
    if share.handed.reserve(1).is_err() {
        return None;
    }
    let Ok(book) = Book::new(alloc, 1) else {
        return None;
    };
    Box::new(alloc, book).ok()
}

/// Closes the office and puts its book into `room`. All other sessions must have been handed in. Returns `None` if
/// another share of the office still exists.
fn finish(share: SessionShare, room: Box<Book>) -> Option<Box<Book>>
    requires free { is_some share.looking ≡ false }
    requires all { IsEachOnce share.office.value.sessions (all_of share) }
    requires settled { HasNothingPending share.session }
    requires reserved { vec_len share.handed < vec_capacity share.handed }
    ensures { IfSome result (λ book. IsClosed share.office.value (all_of share) book.value) }
{
    let SessionShare {
        office,
        session,
        handed,
        sessions: _,
        mark: _,
        waker: _,
        bound: _,
        told: _,
        looking: _,
    } = share;
    let mut all = handed;
    all.push_reserved(session.into_session());
    let Ok(office) = Arc::try_unwrap(office) else {
        return None;
    };
    match office.close(all) {
        Ok(programs) => {
            let mut room = room;
            *room = programs.into_object();
            Some(room)
        }
        Err((CloseFault::Missing, _, _)) => unreachable!(),
        Err((CloseFault::Unsettled, _, _)) => unreachable!(),
    }
}

/// Closes the office and returns its book. On failure returns the status and the share, and nothing has changed. The
/// exception is `COPIED`: another share of the office still exists, and `share` is dropped.
pub fn close(
    alloc: Global,
    share: Box<SessionShare>,
) -> Result<Box<Book>, (u32, Option<Box<SessionShare>>)>
    requires free { is_some share.value.looking ≡ false }
    ensures ok { IfOk result (λ book. IsClosed share.value.office.value (all_of share.value) book.value) }
    ensures back { IfErr result (λ refused. refused.0 ≢ COPIED → IfSome refused.1 (λ same. IsSameShare share.value same.value) × IsSome refused.1) }
    ensures free { IfErr result (λ refused. IfSome refused.1 (λ same. is_some same.value.looking ≡ false)) }
    ensures gone { IfErr result (λ refused. refused.0 ≡ COPIED → refused.1 ≡ None) }
    ensures missing { IfErr result (λ refused. refused.0 ≡ MISSING → ¬ (IsEachOnce share.value.sessions (all_of share.value))) }
    ensures pending { IfErr result (λ refused. refused.0 ≡ PENDING → IsEachOnce share.value.sessions (all_of share.value) × (share.value.session.pending ≢ None)) }
    ensures whole { IfErr result (λ refused. (refused.0 ≡ NO_MEMORY) ⊎ (refused.0 ≡ COPIED) → IsEachOnce share.value.sessions (all_of share.value) × HasNothingPending share.value.session) }
    ensures faults { IfErr result (λ refused. (refused.0 ≡ MISSING) ⊎ ((refused.0 ≡ PENDING) ⊎ ((refused.0 ≡ NO_MEMORY) ⊎ (refused.0 ≡ COPIED)))) }
{
    let mut share = share;
    if !is_each_once(share.handed.as_slice(), &share.session, share.sessions) {
        return Err((MISSING, Some(share)));
    }
    if !is_settled(&share.session) {
        return Err((PENDING, Some(share)));
    }
    let Some(room) = room_for(alloc, &mut share) else {
        return Err((NO_MEMORY, Some(share)));
    };
    match finish(Box::into_inner(share), room) {
        Some(book) => Ok(book),
        None => Err((COPIED, None)),
    }
}
