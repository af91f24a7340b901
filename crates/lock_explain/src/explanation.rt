//! What an explanation is made of.

use lock_modes::Mode;
use lock_rules::{Claim, Reply, Why};
use lock_tree::Resource;

/// A session with the number of its open transaction.
#[derive(Clone, Copy, Debug, PartialEq, Eq, Hash)]
pub struct Party {
    /// The session, numbered from 1.
    pub session: u16,
    /// The number of its open transaction. The youngest transaction has the greatest number.
    pub transaction: u64,
}

/// An edge of the waits-for graph: a session waits directly for another.
#[derive(Clone, Copy, Debug, PartialEq, Eq, Hash)]
pub struct Edge {
    /// The session that waits.
    pub session: u16,
    /// The session that it waits for.
    pub other: u16,
}

/// The parent that a request lacks.
#[derive(Clone, Copy, Debug, PartialEq, Eq, Hash)]
pub struct MissedParent {
    /// The parent of the requested resource.
    pub parent: Resource,
    /// The least mode in which the session would have to hold the parent.
    pub needed: Mode,
    /// The mode in which it holds the parent, `None` if it doesn't.
    pub held: Option<Mode>,
}

/// Why a call was refused.
#[derive(Drop)]
pub struct Refusal {
    /// The reason: the first of the call's tests that failed.
    pub why: Why,
    /// The parent that is lacked, for the reason `ParentNotHeld` alone.
    pub missed: Option<MissedParent>,
    /// The locks that the session holds below the resource, in the order of resources, for the reason `ChildHeld` alone.
    pub below: Vec<Claim>,
    /// The request that would wait, with its target, for the reason `WouldWait` alone.
    pub request: Option<Claim>,
    /// The sessions that it would wait for, by session number, for the reason `WouldWait` alone.
    pub blockers: Vec<Blocker>,
}

/// A session that a request waits for, and through what.
#[derive(Clone, Copy, Debug, PartialEq, Eq, Hash)]
pub struct Blocker {
    /// The session, with its open transaction.
    pub party: Party,
    /// The mode in which it holds the resource, if that conflicts with the target of the request.
    pub held: Option<Mode>,
    /// The target of its own request, if that is ahead in the queue.
    pub ahead: Option<Mode>,
}

/// A request that began to wait, as the waits-for graph was before victims were chosen.
#[derive(Drop)]
pub struct Wait {
    /// The request, with its target.
    pub request: Claim,
    /// The sessions that it waits for, by session number.
    pub blockers: Vec<Blocker>,
    /// The sessions on a cycle with the caller, by session number: none if the request closed no cycle.
    pub cycle: Vec<Party>,
    /// The waits of these sessions for one another, by session number.
    pub edges: Vec<Edge>,
    /// Whether the call granted the request after all, since victims made room.
    pub granted: bool,
}

/// What a served call did and why.
///
/// A call that asks for no lock, a request that was granted at once, or a call that made no difference to others has an
/// explanation with nothing in it.
#[derive(Drop)]
pub struct Explanation {
    /// Why the call was refused, `None` if it wasn't.
    pub refusal: Option<Refusal>,
    /// The request that began to wait, `None` if none did.
    pub wait: Option<Wait>,
    /// The sessions whose transactions the call made deadlock victims, the youngest first.
    pub victims: Vec<Party>,
    /// The waiting requests of other sessions that the call granted, by session number.
    pub granted: Vec<Claim>,
}

/// The reply of a call that was served, with what the call did and why.
#[derive(Drop)]
pub struct ExplainedCall {
    /// Its reply.
    pub reply: Reply,
    /// What it did and why.
    pub explanation: Explanation,
}

/// The reply of a call that was served, with what the call did and why if it is eventful, else `None`.
#[derive(Drop)]
pub struct EventfulCall {
    /// Its reply.
    pub reply: Reply,
    /// What it did and why. Boxed, since most calls have none.
    pub explanation: Option<Box<Explanation>>,
}
