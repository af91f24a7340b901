//! Why a call was refused, and what failed its test.

ghost use Rattle.std.specs.Prelude.{◌≡◌, ◌≤◌, true, filter, option_map, IfOk, IfSome, Some};
ghost use Rattle.lock_tree.specs.Paths.{has_parent, parent_of};
ghost use Rattle.lock_rules.specs.declared.calls.Reply.{Reply as ReplyValue};
ghost use Rattle.lock_rules.specs.Legal.{state_of};
ghost use Rattle.lock_rules.specs.Listing.{listed_request, listing_of};
ghost use Rattle.lock_rules.specs.Step.{step};
ghost use Rattle.lock_explain.specs.Refused.{IsRefusalOf, blockers_if_asked, is_lock_below, locks_below, missed_by, parent_missed, request_refused};
ghost use Rattle.lock_explain.specs.inner.Asked.{IsAskedIn, claim_of};

use crate::asked::{Asked, asked_by, request_line, target_of};
use crate::explanation::{Blocker, MissedParent, Refusal};
use crate::waiting::blockers_of;
use lock_desk::{Book, pages_tell_each_lock_once};
use lock_modes::Mode;
use lock_rules::{Call, Claim, ClaimKind, Reply, Why};
use lock_tree::Resource;
use std::alloc::{AllocError as NoMemory, Global};

/// What a request lacks of `parent`, the parent of `resource`.
fn parent_missed(
    before: &Book,
    session: u16,
    resource: Resource,
    parent: Resource,
    asked: Mode,
) -> MissedParent
    requires has { has_parent resource ≡ true }
    requires parent { parent ≡ parent_of resource }
    ensures { result ≡ parent_missed (state_of before.now.history) session resource asked }
{
    let target = target_of(before.held(session, resource), asked);
    MissedParent {
        parent,
        needed: target.parent_need(),
        held: before.held(session, parent),
    }
}

/// What a request for the resource lacks of its parent, where it has one.
fn missed_for(before: &Book, session: u16, resource: Resource, asked: Mode) -> Option<MissedParent>
    requires has { has_parent resource ≡ true }
    ensures { result ≡ Some (parent_missed (state_of before.now.history) session resource asked) }
{
    match resource.parent() {
        Some(parent) => Some(parent_missed(before, session, resource, parent, asked)),
        None => None,
    }
}

/// The parent that a refused call lacks, `None` if the refusal has another reason.
fn missed_by(before: &Book, session: u16, call: &Call, why: Why) -> Option<MissedParent>
    requires { (step (state_of before.now.history) session call.now).reply ≡ ReplyValue.Refused why }
    ensures { result ≡ missed_by (state_of before.now.history) session call.now why }
{
    match why {
        Why::ParentNotHeld => match *call {
            Call::Lock(resource, asked) => missed_for(before, session, resource, asked),
            Call::Convert(resource, asked) => missed_for(before, session, resource, asked),
            Call::Try(resource, asked) => missed_for(before, session, resource, asked),
            _ => None,
        },
        _ => None,
    }
}

/// Whether the line is a lock of the session on a descendant of the resource.
fn is_lock_below(session: u16, resource: Resource, line: &Claim) -> bool
    ensures { result ≡ is_lock_below session resource line.now }
{
    line.kind == ClaimKind::Held
        && line.session == session
        && resource.is_ancestor_of(&line.resource)
}

/// The locks of the session below the resource, in the order of the listing. Fails if memory is refused.
fn locks_below_resource(
    alloc: Global,
    before: &Book,
    session: u16,
    resource: Resource,
) -> Result<Vec<Claim>, NoMemory>
    ensures { IfOk result (λ below. below.items ≡ filter (is_lock_below session resource) (listing_of (state_of before.now.history))) }
{
    pages_tell_each_lock_once();
    let count = before.locks_held(session);
    let mut held = Vec::new(alloc);
    before.locks_of(alloc, session, None, count, &mut held)?;
    let mut below = Vec::new(alloc);
    for line in &held {
        if is_lock_below(session, resource, line) {
            below.push(*line)?;
        }
    }
    Ok(below)
}

/// The locks of the session below the resource of a refused call, none if the refusal has another reason. Fails if memory
/// is refused.
fn locks_below(
    alloc: Global,
    before: &Book,
    session: u16,
    call: &Call,
    why: Why,
) -> Result<Vec<Claim>, NoMemory>
    ensures { IfOk result (λ below. below.items ≡ locks_below (state_of before.now.history) session call.now why) }
{
    match why {
        Why::ChildHeld => match *call {
            Call::Release(resource) => locks_below_resource(alloc, before, session, resource),
            _ => Ok(Vec::new(alloc)),
        },
        _ => Ok(Vec::new(alloc)),
    }
}

/// The request of the refused call, if it is refused since the request would wait; `None` if the refusal has another reason.
fn request_refused(before: &Book, session: u16, call: &Call, why: Why) -> Option<Asked>
    requires some { 1 ≤ session }
    requires within { session ≤ before.now.sessions }
    requires refused { (step (state_of before.now.history) session call.now).reply ≡ ReplyValue.Refused why }
    ensures made { option_map claim_of result ≡ request_refused (state_of before.now.history) session call.now why }
    ensures asked { IfSome result (IsAskedIn before.now.sessions (state_of before.now.history)) }
{
    match why {
        Why::WouldWait => asked_by(before, session, call),
        _ => None,
    }
}

/// The request that would wait as a line of the listing, `None` if there is none.
fn line_if_asked(before: &Book, asked: &Option<Asked>) -> Option<Claim>
    requires asked { IfSome asked.now (IsAskedIn before.now.sessions (state_of before.now.history)) }
    ensures { result ≡ listed_request (state_of before.now.history) (option_map claim_of asked.now) }
{
    match asked {
        Some(asked) => Some(request_line(before, asked)),
        None => None,
    }
}

/// The sessions that the request would wait for, by session number, none if there is no request. Fails if memory is refused.
pub(crate) fn blockers_if_asked(
    alloc: Global,
    before: &Book,
    asked: &Option<Asked>,
) -> Result<Vec<Blocker>, NoMemory>
    requires asked { IfSome asked.now (IsAskedIn before.now.sessions (state_of before.now.history)) }
    ensures { IfOk result (λ blockers. blockers.items ≡ blockers_if_asked before.now.sessions (state_of before.now.history) (option_map claim_of asked.now)) }
{
    match asked {
        Some(asked) => blockers_of(alloc, before, *asked),
        None => Ok(Vec::new(alloc)),
    }
}

/// Why the call was refused, where `why` is its refusal. Fails if memory is refused.
pub(crate) fn refusal_of(
    alloc: Global,
    before: &Book,
    session: u16,
    call: Call,
    why: Why,
) -> Result<Refusal, NoMemory>
    requires some { 1 ≤ session }
    requires within { session ≤ before.now.sessions }
    requires refused { (step (state_of before.now.history) session call).reply ≡ ReplyValue.Refused why }
    ensures { IfOk result (IsRefusalOf before.now.sessions (state_of before.now.history) session call) }
{
    let missed = missed_by(before, session, &call, why);
    let below = locks_below(alloc, before, session, &call, why)?;
    let asked = request_refused(before, session, &call, why);
    let request = line_if_asked(before, &asked);
    let blockers = blockers_if_asked(alloc, before, &asked)?;
    Ok(Refusal {
        why,
        missed,
        below,
        request,
        blockers,
    })
}
