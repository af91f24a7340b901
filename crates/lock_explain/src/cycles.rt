//! The cycles that a request closes.

ghost use Rattle.std.specs.Prelude.{◌≡◌, ◌++◌, ◌+◌, ◌-◌, ◌&&◌, ◌||◌, ◌==◌, ◌≤◌, ◌<◌, ◌↔◌, nat_lt, ℕ, true, false, All, IsTrue, IfOk, OnOk};
ghost use Rattle.waits_for.specs.Pairs.{pairs_of};
ghost use Rattle.waits_for.specs.Walks.{AreOnCircle};
ghost use Rattle.lock_rules.specs.Legal.{state_of};
ghost use Rattle.lock_rules.specs.Waits.{waits_for};
ghost use Rattle.lock_explain.specs.Cycles.{cycle_of, edges_of, party_on_cycle};
ghost use Rattle.lock_explain.specs.Waiting.{waiting_state};
ghost use Rattle.lock_explain.specs.inner.Asked.{IsAskedIn, claim_of};
ghost use Rattle.lock_explain.specs.inner.Graph.{AreWaitsOf, IsPartyWithin, edge_among, edges_among, edges_from, is_fresh, waits_behind};

use crate::asked::Asked;
use crate::explanation::{Edge, Party};
use crate::waiting::{held_in_conflict, party_of, request_ahead};
use lock_desk::Book;
use lock_rules::ClaimKind;
use lock_tree::same_path_is_equality;
use std::alloc::{AllocError as NoMemory, Global};
use waits_for::Rows;

/// The sessions on a cycle with a session, and their waits for one another.
#[derive(Drop)]
pub(crate) struct Cycle {
    /// The sessions, by session number.
    pub(crate) members: Vec<Party>,
    /// Their waits, by session number.
    pub(crate) edges: Vec<Edge>,
}

/// Whether the request waits for `other`.
fn asker_waits(before: &Book, asked: &Asked, other: u16) -> bool
    requires asked { IsAskedIn before.now.sessions (state_of before.now.history) asked.now }
    ensures { result ≡ waits_for (waiting_state (state_of before.now.history) (claim_of asked.now)).table asked.now.session other }
{
    if other == asked.session {
        return false;
    }
    held_in_conflict(before, *asked, other).is_some()
        || request_ahead(before, *asked, other).is_some()
}

/// Whether a line of this kind is a fresh request.
fn is_fresh(kind: ClaimKind) -> bool
    ensures { result ≡ is_fresh kind }
{
    match kind {
        ClaimKind::Fresh => true,
        ClaimKind::Held | ClaimKind::Conversion => false,
    }
}

/// Whether `session` has a fresh request for the requested resource, which a conversion is queued before.
fn waits_behind(before: &Book, asked: &Asked, session: u16) -> bool
    ensures { result ≡ waits_behind (state_of before.now.history).table asked.now.resource session }
{
    same_path_is_equality();
    let Some(request) = before.request(session) else {
        return false;
    };
    request.resource == asked.resource && is_fresh(request.kind)
}

/// Whether `session` waits for `other` directly once the request waits.
fn waits(before: &Book, asked: &Asked, session: u16, other: u16) -> bool
    requires asked { IsAskedIn before.now.sessions (state_of before.now.history) asked.now }
    ensures { result ≡ waits_for (waiting_state (state_of before.now.history) (claim_of asked.now)).table session other }
{
    if session == asked.session {
        return asker_waits(before, asked, other);
    }
    if before.waits_for(session, other) {
        return true;
    }
    other == asked.session && asked.converts && waits_behind(before, asked, session)
}

/// Whether `session` has no request once the request waits.
fn is_idle(before: &Book, asked: &Asked, session: u16) -> bool
    requires asked { IsAskedIn before.now.sessions (state_of before.now.history) asked.now }
    ensures { result ≡ true → (other : ℕ) → waits_for (waiting_state (state_of before.now.history) (claim_of asked.now)).table session other ≡ false }
{
    session != asked.session && before.request(session).is_none()
}

/// Adds to the rows the edges from `session` once the request waits.
fn write_row(before: &Book, asked: &Asked, session: u16, rows: &mut Rows)
    requires asked { IsAskedIn before.now.sessions (state_of before.now.history) asked.now }
    requires sessions { rows.old.sessions ≡ before.now.sessions }
    requires some { 1 ≤ session }
    requires within { session ≤ before.now.sessions }
    ensures sessions { rows.new.sessions ≡ rows.old.sessions }
    ensures pairs { (a b : ℕ) → pairs_of rows.new a b
        ≡ (pairs_of rows.old a b || ((a + 1 == session) && (nat_lt b before.now.sessions && waits_for (waiting_state (state_of before.now.history) (claim_of asked.now)).table session (b + 1)))) }
{
    if is_idle(before, asked, session) {
        return;
    }
    let sessions = before.sessions();
    for position in 0..sessions {
        if waits(before, asked, session, position + 1) {
            rows.set((session - 1) as usize, position as usize);
        }
    }
}

/// The waits-for graph once the request waits. Fails if memory is refused.
fn graph_of(alloc: Global, before: &Book, asked: &Asked) -> Result<Rows, NoMemory>
    requires asked { IsAskedIn before.now.sessions (state_of before.now.history) asked.now }
    ensures sessions { IfOk result (λ rows. rows.sessions ≡ before.now.sessions) }
    ensures waits { IfOk result (λ rows. AreWaitsOf rows (waiting_state (state_of before.now.history) (claim_of asked.now))) }
{
    let sessions = before.sessions();
    // Called for its contract: only these sessions hold locks or wait.
    let _ = before.history();
    let mut rows = Rows::new(alloc, sessions)?;
    for position in 0..sessions {
        write_row(before, asked, position + 1, &mut rows);
    }
    Ok(rows)
}

/// Whether a walk of the graph leads from `session` to `other`, and one leads back.
fn are_on_cycle(rows: &mut Rows, session: u16, other: u16) -> bool
    requires session_some { 1 ≤ session }
    requires session_within { session ≤ rows.old.sessions }
    requires other_some { 1 ≤ other }
    requires other_within { other ≤ rows.old.sessions }
    ensures walks { IsTrue result ↔ AreOnCircle (pairs_of rows.old) (session - 1) (other - 1) }
    ensures same { rows.new ≡ rows.old }
{
    let here = (session - 1) as usize;
    let there = (other - 1) as usize;
    rows.reaches(here, there) && rows.reaches(there, here)
}

/// Adds `other` to the list, with its open transaction, if it is on a cycle with the session that asks. Fails if memory is
/// refused.
fn add_member(
    before: &Book,
    asked: &Asked,
    other: u16,
    rows: &mut Rows,
    members: &mut Vec<Party>,
) -> Result<(), NoMemory>
    requires asked { IsAskedIn before.now.sessions (state_of before.now.history) asked.now }
    requires sessions { rows.old.sessions ≡ before.now.sessions }
    requires waits { AreWaitsOf rows.old (waiting_state (state_of before.now.history) (claim_of asked.now)) }
    requires some { 1 ≤ other }
    requires within { other ≤ before.now.sessions }
    ensures same { rows.new ≡ rows.old }
    ensures members { OnOk result (members.new.items ≡ members.old.items ++ party_on_cycle (waiting_state (state_of before.now.history) (claim_of asked.now)) asked.now.session other) }
{
    if are_on_cycle(rows, asked.session, other) {
        members.push(party_of(before, other))?;
    }
    Ok(())
}

/// The sessions on a cycle with the session that asks, by session number. Fails if memory is refused.
fn members_of(
    alloc: Global,
    before: &Book,
    asked: &Asked,
    rows: &mut Rows,
) -> Result<Vec<Party>, NoMemory>
    requires asked { IsAskedIn before.now.sessions (state_of before.now.history) asked.now }
    requires sessions { rows.old.sessions ≡ before.now.sessions }
    requires waits { AreWaitsOf rows.old (waiting_state (state_of before.now.history) (claim_of asked.now)) }
    ensures same { rows.new ≡ rows.old }
    ensures members { IfOk result (λ members. members.items ≡ cycle_of before.now.sessions (waiting_state (state_of before.now.history) (claim_of asked.now)) asked.now.session) }
{
    let mut members = Vec::new(alloc);
    if !rows.on_circle((asked.session - 1) as usize) {
        return Ok(members);
    }
    let sessions = before.sessions();
    for position in 0..sessions {
        add_member(before, asked, position + 1, rows, &mut members)?;
    }
    Ok(members)
}

/// Adds the edges from `session` to the members to the list, in the order of the members. Fails if memory is refused.
fn add_edges(
    rows: &Rows,
    session: u16,
    members: &[Party],
    edges: &mut Vec<Edge>,
) -> Result<(), NoMemory>
    requires some { 1 ≤ session }
    requires within { session ≤ rows.now.sessions }
    requires members { All (IsPartyWithin rows.now.sessions) members.now }
    ensures { OnOk result (edges.new.items ≡ edges.old.items ++ edges_from rows.now members.now session) }
{
    for member in members {
        if rows.waits((session - 1) as usize, (member.session - 1) as usize) {
            edges.push(Edge {
                session,
                other: member.session,
            })?;
        }
    }
    Ok(())
}

/// The edges from the members to one another, in the order of the members. Fails if memory is refused.
fn edges_of(alloc: Global, rows: &Rows, members: &[Party]) -> Result<Vec<Edge>, NoMemory>
    requires members { All (IsPartyWithin rows.now.sessions) members.now }
    ensures { IfOk result (λ edges. edges.items ≡ edges_among rows.now members.now) }
{
    let mut edges = Vec::new(alloc);
    for member in members {
        add_edges(rows, member.session, members, &mut edges)?;
    }
    Ok(edges)
}

/// The cycles that the request closes once it waits. Fails if memory is refused.
pub(crate) fn cycle_of(alloc: Global, before: &Book, asked: Asked) -> Result<Cycle, NoMemory>
    requires asked { IsAskedIn before.now.sessions (state_of before.now.history) asked }
    ensures members { IfOk result (λ cycle. cycle.members.items ≡ cycle_of before.now.sessions (waiting_state (state_of before.now.history) (claim_of asked)) asked.session) }
    ensures edges { IfOk result (λ cycle. cycle.edges.items ≡ edges_of before.now.sessions (waiting_state (state_of before.now.history) (claim_of asked)) asked.session) }
{
    let mut rows = graph_of(alloc, before, &asked)?;
    let members = members_of(alloc, before, &asked, &mut rows)?;
    let edges = edges_of(alloc, &rows, &members)?;
    Ok(Cycle { members, edges })
}
