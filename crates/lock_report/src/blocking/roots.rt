//! The roots of the jam that a state shows, with how many sessions each blocks and how many requests its abort would grant.

ghost use Rattle.std.specs.Prelude.{◌≡◌, ◌≤◌, ◌++◌, All, IfOk, OnOk, map};
ghost use Rattle.std.specs.List.{flat_map};
ghost use Rattle.lock_rules.specs.declared.calls.TheConstants.{MAX_SESSIONS};
ghost use Rattle.lock_report.specs.ReadRows.{IsSession, IsWait};
ghost use Rattle.lock_report.specs.Jam.{is_root, root_of, roots_of};
ghost use Rattle.lock_report.specs.inner.Graph.{AreWaitsOf};

use crate::blocking::blockers::is_waited_for;
use crate::blocking::contended::jammed;
use crate::blocking::grants::granted_by_abort;
use crate::blocking::graph::{count_blocked, graph_of};
use crate::blocking::requests::{request_of, requests_among};
use crate::snapshot::{OpenTransaction, Root, WaitFor};
use lock_rules::Claim;
use std::alloc::{AllocError as NoMemory, Global};
use waits_for::Rows;

/// What roots are found in.
#[derive(Clone, Copy)]
struct Jam<'a> {
    /// The waiting requests.
    requests: &'a [Claim],
    /// The claims on each resource that somebody waits for.
    jammed: &'a [Vec<Claim>],
    /// Who waits for whom.
    waits: &'a [WaitFor],
}

/// Whether others wait for the session, which doesn't wait itself.
fn is_root(requests: &[Claim], waits: &[WaitFor], session: u16) -> bool
    ensures { result ≡ is_root requests.now waits.now session }
{
    request_of(requests, session).is_none() && is_waited_for(waits, session)
}

/// Adds the transaction to the list, if its session is a root. Fails if memory is refused.
fn add_root(
    alloc: Global,
    begun: &OpenTransaction,
    jam: Jam<'_>,
    rows: &mut Rows,
    roots: &mut Vec<Root>,
) -> Result<(), NoMemory>
    requires open { IsSession rows.old.sessions begun.now.session }
    requires pairs { AreWaitsOf rows.old jam.waits.now }
    ensures same { OnOk result (rows.new ≡ rows.old) }
    ensures roots { OnOk result (roots.new.items ≡ roots.old.items ++ root_of rows.old.sessions jam.entry.requests.now (map (λ q. q.items) jam.entry.jammed.now) jam.entry.waits.now begun.now) }
{
    if !is_root(jam.requests, jam.waits, begun.session) {
        return Ok(());
    }
    let blocks = count_blocked(rows, jam.waits, begun.session);
    let granted = granted_by_abort(alloc, begun.session, jam.jammed)?;
    let grants = granted.len() as u64;
    roots.push(Root {
        begun: *begun,
        blocks,
        grants,
    })?;
    Ok(())
}

/// Adds the roots among the open transactions to the list. Fails if memory is refused.
fn add_roots(
    alloc: Global,
    opens: &[OpenTransaction],
    jam: Jam<'_>,
    rows: &mut Rows,
    roots: &mut Vec<Root>,
) -> Result<(), NoMemory>
    requires opens { All (λ begun. IsSession rows.old.sessions begun.session) opens.now }
    requires pairs { AreWaitsOf rows.old jam.waits.now }
    ensures { OnOk result (roots.new.items ≡ roots.old.items ++ flat_map (root_of rows.old.sessions jam.entry.requests.now (map (λ q. q.items) jam.entry.jammed.now) jam.entry.waits.now) opens.now) }
{
    for begun in opens {
        add_root(alloc, begun, jam, rows, roots)?;
    }
    Ok(())
}

/// The roots of the jam among the sessions 1 to `sessions`, in the order of the open transactions. `claims` has the order of a listing:
/// resource by resource. Fails if memory is refused.
pub(crate) fn roots_of(
    alloc: Global,
    sessions: u16,
    opens: &[OpenTransaction],
    claims: &[Claim],
    waits: &[WaitFor],
) -> Result<Vec<Root>, NoMemory>
    requires some { 1 ≤ sessions }
    requires few { sessions ≤ MAX_SESSIONS }
    requires opens { All (λ begun. IsSession sessions begun.session) opens.now }
    requires waits { All (IsWait sessions) waits.now }
    ensures { IfOk result (λ roots. roots.items ≡ roots_of sessions opens.now claims.now waits.now) }
{
    let requests = requests_among(alloc, claims)?;
    let queues = jammed(alloc, claims)?;
    let jam = Jam {
        requests: &requests,
        jammed: &queues,
        waits,
    };
    let mut rows = graph_of(alloc, sessions, waits)?;
    let mut roots = Vec::new(alloc);
    add_roots(alloc, opens, jam, &mut rows, &mut roots)?;
    Ok(roots)
}
