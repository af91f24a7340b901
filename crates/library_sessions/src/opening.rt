//! The shares and handles of a new office.

ghost use Rattle.std.specs.Prelude.{◌≡◌, ◌≢◌, ◌≤◌, [], true, false, Some, None, All, Any, IfOk, length, map, is_some};
ghost use Rattle.lock_office.specs.Sessions.{IsSessionOf, IsIdle};
ghost use Rattle.lock_rules.specs.declared.calls.TheConstants.{MAX_SESSIONS};
ghost use Rattle.library_sessions.specs.Offices.{IsOfOffice};

use crate::session_handle::SessionHandle;
use crate::session_share::SessionShare;
use lock_office::{Office, PassBound, Session, Ticket, WithSeen, WokenSet};
use std::alloc::{AllocError, Global};
use std::sync::Arc;

/// Whether one of the handles is open.
pub fn has_open(handles: &mut [SessionHandle]) -> bool
    ensures same { handles.new ≡ handles.old }
    ensures open { result ≡ true → Any (λ handle. handle.is_open ≡ 1) handles.old }
    ensures closed { result ≡ false → All (λ handle. handle.is_open ≢ 1) handles.old }
{
    for k in 0..handles.len() {
        if handles[k].is_open == 1 {
            return true;
        }
    }
    false
}

/// Makes single calls by a session of an office that was just opened, which knows no calls of the history.
fn call_session_of(session: Ticket) -> Session
    requires none { session.pending ≡ None }
    requires unknowing { session.front ≡ [] }
    ensures { result ≡ session }
{
    Session::new(session, 0)
}

/// Makes the share of one session. `count` is the number of sessions of the office. It has room for all sessions that a pass may tell, so
/// that no pass lacks memory for them.
fn share_of(
    alloc: Global,
    shared: &Arc<Office>,
    session: Ticket,
    count: u16,
    mark: u64,
    waker: u64,
    bound: PassBound,
) -> Result<Box<SessionShare>, AllocError>
    requires ours { IsSessionOf shared.now.value session × IsIdle session }
    requires unknowing { session.front ≡ [] }
    requires count { count ≡ shared.now.value.sessions }
    requires few { count ≤ MAX_SESSIONS }
    ensures session { IfOk result (λ share. share.value.session ≡ session) }
    ensures office { IfOk result (λ share. IsOfOffice shared.now.value mark waker bound share.value) }
{
    let office = shared.clone()?;
    let told = WokenSet::new(alloc, count)?;
    let share = SessionShare {
        office,
        session: call_session_of(session),
        handed: Vec::new(alloc),
        sessions: count,
        mark,
        waker,
        bound,
        told: WithSeen::new(told),
        looking: None,
    };
    let boxed = Box::new(alloc, share)?;
    Ok(boxed)
}

/// Makes the share of each session, in their order.
pub fn shares_of(
    alloc: Global,
    office: Office,
    sessions: Vec<Ticket>,
    count: u16,
    mark: u64,
    waker: u64,
    bound: PassBound,
) -> Result<Vec<Box<SessionShare>>, AllocError>
    requires ours { All (λ session. IsSessionOf office session × IsIdle session) sessions.items }
    requires unknowing { All (λ session. session.front ≡ []) sessions.items }
    requires count { count ≡ office.sessions }
    requires few { count ≤ MAX_SESSIONS }
    ensures sessions { IfOk result (λ shares. map (λ share. share.value.session) shares.items ≡ sessions.items) }
    ensures office { IfOk result (λ shares. All (λ share. IsOfOffice office mark waker bound share.value) shares.items) }
{
    let shared = Arc::new(alloc, office)?;
    let mut made = Vec::with_capacity(alloc, sessions.len())?;
    for session in sessions {
        let share = share_of(alloc, &shared, session, count, mark, waker, bound)?;
        made.push(share)?;
    }
    Ok(made)
}

/// Opens the handles with the shares, in their order. There are as many handles as shares.
pub fn open_handles(handles: &mut [SessionHandle], shares: Vec<Box<SessionShare>>)
    requires as_many { length shares.items ≡ length handles.old }
    requires free { All (λ share. is_some share.value.looking ≡ false) shares.items }
    ensures { map (λ handle. handle.held.share) handles.new ≡ map (λ share. Some share.value) shares.items }
{
    let mut shares = shares;
    for _left in 0..handles.len() {
        let Some(share) = shares.pop() else {
            unreachable!()
        };
        handles[shares.len()].put(share);
    }
}
