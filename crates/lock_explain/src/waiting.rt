//! The sessions that a request waits for, and through what.

ghost use Rattle.std.specs.Prelude.{◌≡◌, ◌+◌, ◌<◌, ◌^◌, ◌++◌, ◌||◌, if◌then◌else◌, drop, is_some, IfOk, OnOk};
ghost use Rattle.lock_rules.specs.State.{held_mode};
ghost use Rattle.lock_rules.specs.Legal.{state_of};
ghost use Rattle.lock_explain.specs.Waiting.{blocker_of, blockers_of, held_in_conflict, party_of, request_ahead, waiting_state};
ghost use Rattle.lock_explain.specs.inner.Ahead.{ahead_by};
ghost use Rattle.lock_explain.specs.inner.Asked.{IsAskedIn, claim_of};
ghost use Rattle.lock_explain.specs.inner.Holders.{mode_of_first};

use crate::asked::Asked;
use crate::explanation::{Blocker, Party};
use lock_desk::Book;
use lock_modes::Mode;
use lock_rules::{Claim, ClaimKind};
use lock_tree::{Resource, same_path_is_equality};
use std::alloc::{AllocError as NoMemory, Global};

/// The session with its open transaction, 0 if it has none.
pub(crate) fn party_of(book: &Book, session: u16) -> Party
    ensures { result ≡ party_of (state_of book.now.history) session }
{
    let transaction = match book.transaction(session) {
        Some(transaction) => transaction.number,
        None => 0,
    };
    Party {
        session,
        transaction,
    }
}

/// The mode in which `other` holds the requested resource, if that conflicts with the target.
pub(crate) fn held_in_conflict(before: &Book, asked: Asked, other: u16) -> Option<Mode>
    ensures { result ≡ held_in_conflict asked.target (held_mode (state_of before.now.history).table other asked.resource) }
{
    conflicting(asked.target, before.held(other, asked.resource))
}

/// The mode that is held, if it conflicts with the target.
fn conflicting(target: Mode, held: Option<Mode>) -> Option<Mode>
    ensures { result ≡ held_in_conflict target held }
{
    match held {
        Some(held) if !Mode::compatible(target, held) => Some(held),
        _ => None,
    }
}

/// The target of the waiting request in `line`, if a new request for `resource` waits behind it: a fresh request waits behind all
/// requests for the resource, a conversion behind the conversions alone.
fn ahead_by(converts: bool, resource: Resource, line: Option<Claim>) -> Option<Mode>
    ensures { result ≡ ahead_by converts resource line }
{
    same_path_is_equality();
    let Some(line) = line else {
        return None;
    };
    if line.resource != resource {
        return None;
    }
    if converts && line.kind != ClaimKind::Conversion {
        return None;
    }
    Some(line.mode)
}

/// The target of the request of `other`, if this request waits behind it.
pub(crate) fn request_ahead(before: &Book, asked: Asked, other: u16) -> Option<Mode>
    requires asked { IsAskedIn before.now.sessions (state_of before.now.history) asked }
    ensures { result ≡ request_ahead (waiting_state (state_of before.now.history) (claim_of asked)).table (claim_of asked) other }
{
    if !before.is_waiting(other) {
        return None;
    }
    ahead_by(asked.converts, asked.resource, before.request(other))
}

/// Whether a session with this lock in conflict, and this request ahead, blocks the request.
fn is_blocker(held: Option<Mode>, ahead: Option<Mode>) -> bool
    ensures { result ≡ (is_some held || is_some ahead) }
{
    held.is_some() || ahead.is_some()
}

/// The mode of the holder at `next`, if there is one and it is the session.
fn held_next(holders: &[(u16, Mode)], next: usize, session: u16) -> Option<Mode>
    ensures { result ≡ mode_of_first session (drop next holders.now) }
{
    if next >= holders.len() {
        return None;
    }
    let (holder, mode) = holders[next];
    if holder == session { Some(mode) } else { None }
}

/// The index of the holder behind, if the one at `next` was found.
fn behind_found(next: usize, held: Option<Mode>) -> usize
    requires few { next < 2 ^ 16 }
    ensures { result ≡ (if is_some held then next + 1 else next) }
{
    if held.is_some() { next + 1 } else { next }
}

/// Adds `other` to the list, with what it blocks the request through, if the request waits for it. `held` is the mode in which it holds the
/// requested resource. Fails if memory is refused.
fn add_blocker(
    before: &Book,
    request: &Asked,
    other: u16,
    held: Option<Mode>,
    blockers: &mut Vec<Blocker>,
) -> Result<(), NoMemory>
    requires held { held ≡ held_mode (state_of before.now.history).table other request.now.resource }
    requires asked { IsAskedIn before.now.sessions (state_of before.now.history) request.now }
    ensures { OnOk result (blockers.new.items ≡ blockers.old.items ++ blocker_of (waiting_state (state_of before.now.history) (claim_of request.now)) (claim_of request.now) other) }
{
    if other == request.session {
        return Ok(());
    }
    let held = conflicting(request.target, held);
    let ahead = request_ahead(before, *request, other);
    if !is_blocker(held, ahead) {
        return Ok(());
    }
    blockers.push(Blocker {
        party: party_of(before, other),
        held,
        ahead,
    })?;
    Ok(())
}

/// The sessions that the request waits for, by session number. Fails if memory is refused.
pub(crate) fn blockers_of(
    alloc: Global,
    before: &Book,
    asked: Asked,
) -> Result<Vec<Blocker>, NoMemory>
    requires asked { IsAskedIn before.now.sessions (state_of before.now.history) asked }
    ensures { IfOk result (λ blockers. blockers.items ≡ blockers_of before.now.sessions (waiting_state (state_of before.now.history) (claim_of asked)) (claim_of asked)) }
{
    let mut blockers = Vec::new(alloc);
    let sessions = before.sessions();
    // holders are of sessions of the book
    let _history = before.history();
    let mut holders = Vec::new(alloc);
    before.holders(asked.resource, &mut holders)?;
    let mut next = 0;
    for position in 0..sessions {
        let other = position + 1;
        let held = held_next(&holders, next, other);
        next = behind_found(next, held);
        add_blocker(before, &asked, other, held, &mut blockers)?;
    }
    Ok(blockers)
}
