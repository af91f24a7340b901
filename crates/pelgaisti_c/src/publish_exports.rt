//! The exports over a session of an office.

ghost use Rattle.std.specs.Prelude.{◌≡◌, ◌≢◌, ◌≤◌, ◌↔◌, ◌⊎◌, true, Some, None};
ghost use denote.RawPtr.{null_ptr};
ghost use Rattle.lock_office.specs.Sessions.{IsPendingServed};
ghost use Rattle.lock_office.specs.ProgramTurns.{HasSeveralPending};
ghost use Rattle.lock_rules.specs.declared.calls.Call.{Call};
ghost use Rattle.library_books.specs.Behind.{IsNullList};
ghost use Rattle.library_books.specs.Numbers.{IsCall, IsCallFault};
ghost use Rattle.library_sessions.specs.Sessions.{IsPublished, IsTurn, AreToWake, IsElsewhere, IsAnswered, IsPieceTaken, IsRetired};
ghost use Rattle.library_sessions.specs.declared.session_share.SessionShare.{SessionShare};

use library_books::pointers::{
    AnswerPointer, CallPointer, EntryList, PassPointer, SizePointer, U32Pointer, U64Pointer,
};
use library_books::status::{
    CLOSED, ELSEWHERE, NO_MEMORY, NO_SUCH_MODE, NO_SUCH_OP, NOT_SERVED, NOTHING_PENDING,
    NULL_POINTER, OK, PENDING, RETIRED,
};
use library_sessions::pointers::SessionPointer;
use library_sessions::session_calls;
use std::alloc::Global;

/// Publishes the call that the numbers encode. The call is pending until the session collects its answer. Writes 1 to
/// `posted` if the call is listed, 2 if it is not.
#[unsafe(no_mangle)]
pub extern "C" fn pelgaisti_raw_session_publish(
    alloc: Global,
    session: &mut SessionPointer,
    call: &mut CallPointer,
    posted: &mut U32Pointer,
) -> u32
    ensures null { result ≡ NULL_POINTER ↔ ((session.old.at ≡ null_ptr) ⊎ ((call.old.at ≡ null_ptr) ⊎ (posted.old.at ≡ null_ptr))) }
    ensures ok { result ≡ OK → (before after : SessionShare) × (session.old.behind.held.share ≡ Some before) × (session.new.behind.held.share ≡ Some after)
        × IsPublished before after call.old.behind posted.new.behind }
    ensures posted { result ≡ OK → (1 ≤ posted.new.behind) × (posted.new.behind ≤ 2) }
    ensures failed { result ≢ OK → (session.new.behind.held.share ≡ session.old.behind.held.share) × (posted.new.behind ≡ posted.old.behind) }
    ensures open { session.new.behind.is_open ≡ session.old.behind.is_open }
    ensures closed { result ≢ NULL_POINTER → (result ≡ CLOSED ↔ (session.old.behind.is_open ≢ 1)) }
    ensures call { NO_SUCH_OP ≤ result → result ≤ NO_SUCH_MODE → (session.old.behind.is_open ≡ 1) × IsCallFault call.old.behind result }
    ensures retired { result ≡ RETIRED → (share : SessionShare) × (session.old.behind.held.share ≡ Some share) × (share.session.retired ≡ true) × ((asked : Call) × IsCall call.old.behind asked) }
    ensures pending { result ≡ PENDING → (share : SessionShare) × (session.old.behind.held.share ≡ Some share) × (share.session.pending ≢ None) × ((asked : Call) × IsCall call.old.behind asked) }
    ensures statuses { (result ≡ NULL_POINTER) ⊎ ((result ≡ OK) ⊎ ((result ≡ CLOSED) ⊎ ((result ≡ RETIRED) ⊎ ((result ≡ PENDING) ⊎ ((NO_SUCH_OP ≤ result) × (result ≤ NO_SUCH_MODE)))))) }
{
    behind!(session, call, posted);
    on!(share held by session, alloc => session_calls::publish(&mut share, &call, posted))
}

/// Tries once to take the lock table and, if that succeeds, makes a pass over the publication list and the session's
/// own record. Writes how many sessions the office's waker is to wake after the pass to `told`: `pelgaisti_raw_session_told` says
/// which.
#[unsafe(no_mangle)]
pub extern "C" fn pelgaisti_raw_session_serve(
    alloc: Global,
    session: &mut SessionPointer,
    pass: &mut PassPointer,
    told: &mut usize,
) -> u32
    ensures null { result ≡ NULL_POINTER ↔ ((session.old.at ≡ null_ptr) ⊎ (pass.old.at ≡ null_ptr)) }
    ensures ok { result ≡ OK → (before after : SessionShare) × (session.old.behind.held.share ≡ Some before) × (session.new.behind.held.share ≡ Some after)
        × IsTurn before after pass.new.behind.served pass.new.behind.starved }
    ensures told { result ≡ OK → (before after : SessionShare) × (session.old.behind.held.share ≡ Some before) × (session.new.behind.held.share ≡ Some after)
        × AreToWake before after told.new }
    ensures untold { result ≡ ELSEWHERE → told.new ≡ 0 }
    ensures unread { (result ≡ NULL_POINTER) ⊎ (result ≡ CLOSED) → told.new ≡ told.old }
    ensures failed { result ≢ OK → pass.new.behind ≡ pass.old.behind }
    ensures open { session.new.behind.is_open ≡ session.old.behind.is_open }
    ensures closed { result ≢ NULL_POINTER → (result ≡ CLOSED ↔ (session.old.behind.is_open ≢ 1)) }
    ensures kept { (result ≡ NULL_POINTER) ⊎ (result ≡ CLOSED) → session.new.behind.held.share ≡ session.old.behind.held.share }
    ensures elsewhere { result ≡ ELSEWHERE → (before after : SessionShare) × (session.old.behind.held.share ≡ Some before) × (session.new.behind.held.share ≡ Some after)
        × IsElsewhere before after }
    ensures statuses { (result ≡ NULL_POINTER) ⊎ ((result ≡ OK) ⊎ ((result ≡ CLOSED) ⊎ (result ≡ ELSEWHERE))) }
{
    behind!(session, pass);
    on!(share held by session, alloc => session_calls::serve(&mut share, pass, told))
}

/// Takes the answer to the pending call, which is then no longer pending. PENDING: what is pending is a program of several calls.
#[unsafe(no_mangle)]
pub extern "C" fn pelgaisti_raw_session_collect(
    alloc: Global,
    session: &mut SessionPointer,
    answer: &mut AnswerPointer,
) -> u32
    ensures null { result ≡ NULL_POINTER ↔ ((session.old.at ≡ null_ptr) ⊎ (answer.old.at ≡ null_ptr)) }
    ensures ok { result ≡ OK → (before after : SessionShare) × (session.old.behind.held.share ≡ Some before) × (session.new.behind.held.share ≡ Some after)
        × IsAnswered before after answer.new.behind }
    ensures failed { result ≢ OK → (session.new.behind.held.share ≡ session.old.behind.held.share) × (answer.new.behind ≡ answer.old.behind) }
    ensures open { session.new.behind.is_open ≡ session.old.behind.is_open }
    ensures closed { result ≢ NULL_POINTER → (result ≡ CLOSED ↔ (session.old.behind.is_open ≢ 1)) }
    ensures nothing { result ≡ NOTHING_PENDING → (share : SessionShare) × (session.old.behind.held.share ≡ Some share) × (share.session.pending ≡ None) }
    ensures late { result ≡ NOT_SERVED → (share : SessionShare) × (session.old.behind.held.share ≡ Some share) × (share.session.pending ≢ None) × ¬ (IsPendingServed share.session) }
    ensures several { result ≡ PENDING → (share : SessionShare) × (session.old.behind.held.share ≡ Some share) × HasSeveralPending share.session }
    ensures statuses { (result ≡ NULL_POINTER) ⊎ ((result ≡ OK) ⊎ ((result ≡ CLOSED) ⊎ ((result ≡ NOTHING_PENDING) ⊎ ((result ≡ PENDING) ⊎ (result ≡ NOT_SERVED))))) }
{
    behind!(session, answer);
    on!(share held by session, alloc => session_calls::collect(&mut share, answer))
}

/// Tries once to take the lock table and, if that succeeds, takes the oldest entries of the history that it keeps, as many as
/// `entries` has room for. Writes the place of the first of them to `first`, and how many there are to `count`.
#[unsafe(no_mangle)]
pub extern "C" fn pelgaisti_raw_session_take_history(
    alloc: Global,
    session: &mut SessionPointer,
    first: &mut U64Pointer,
    entries: &mut EntryList,
    count: &mut SizePointer,
) -> u32
    ensures null { result ≡ NULL_POINTER ↔ ((session.old.at ≡ null_ptr) ⊎ ((first.old.at ≡ null_ptr) ⊎ (IsNullList entries.old.at entries.old.room ⊎ (count.old.at ≡ null_ptr)))) }
    ensures ok { result ≡ OK → (before after : SessionShare) × (session.old.behind.held.share ≡ Some before) × (session.new.behind.held.share ≡ Some after)
        × IsPieceTaken before after first.new.behind count.new.behind entries.old.behind entries.new.behind }
    ensures failed { result ≢ OK → (session.new.behind.held.share ≡ session.old.behind.held.share) × (first.new.behind ≡ first.old.behind) × (entries.new.behind ≡ entries.old.behind) × (count.new.behind ≡ count.old.behind) }
    ensures open { session.new.behind.is_open ≡ session.old.behind.is_open }
    ensures closed { result ≢ NULL_POINTER → (result ≡ CLOSED ↔ (session.old.behind.is_open ≢ 1)) }
    ensures elsewhere { result ≡ ELSEWHERE → (share : SessionShare) × (session.old.behind.held.share ≡ Some share) × (2 ≤ share.sessions) }
    ensures statuses { (result ≡ NULL_POINTER) ⊎ ((result ≡ OK) ⊎ ((result ≡ CLOSED) ⊎ ((result ≡ NO_MEMORY) ⊎ (result ≡ ELSEWHERE)))) }
{
    behind!(session, first, [entries], count);
    let entries = entries.items();
    on!(share held by session, alloc => session_calls::take_history(alloc, &mut share, first, entries, count))
}

/// Retires the session: it publishes no more calls.
#[unsafe(no_mangle)]
pub extern "C" fn pelgaisti_raw_session_retire(alloc: Global, session: &mut SessionPointer) -> u32
    ensures null { result ≡ NULL_POINTER ↔ (session.old.at ≡ null_ptr) }
    ensures ok { result ≡ OK → (before after : SessionShare) × (session.old.behind.held.share ≡ Some before) × (session.new.behind.held.share ≡ Some after)
        × IsRetired before after }
    ensures failed { result ≢ OK → session.new.behind.held.share ≡ session.old.behind.held.share }
    ensures open { session.new.behind.is_open ≡ session.old.behind.is_open }
    ensures closed { result ≢ NULL_POINTER → (result ≡ CLOSED ↔ (session.old.behind.is_open ≢ 1)) }
    ensures retired { result ≡ RETIRED → (share : SessionShare) × (session.old.behind.held.share ≡ Some share) × (share.session.retired ≡ true) }
    ensures pending { result ≡ PENDING → (share : SessionShare) × (session.old.behind.held.share ≡ Some share) × (share.session.pending ≢ None) }
    ensures statuses { (result ≡ NULL_POINTER) ⊎ ((result ≡ OK) ⊎ ((result ≡ CLOSED) ⊎ ((result ≡ RETIRED) ⊎ (result ≡ PENDING)))) }
{
    behind!(session);
    on!(share held by session, alloc => session_calls::retire(&mut share))
}
