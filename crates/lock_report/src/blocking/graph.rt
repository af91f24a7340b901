//! The waits-for graph of a dump, in which the sessions are found that a root blocks.

ghost use Rattle.std.specs.Prelude.{◌≡◌, ◌≤◌, All, IfOk, length};
ghost use Rattle.lock_rules.specs.declared.calls.TheConstants.{MAX_SESSIONS};
ghost use Rattle.lock_report.specs.ReadRows.{IsWait};
ghost use Rattle.lock_report.specs.Jam.{blocked_by, is_blocked};
ghost use Rattle.lock_report.specs.inner.Graph.{AreWaitsOf};

use crate::snapshot::WaitFor;
use crate::words::one_if;
use std::alloc::{AllocError as NoMemory, Global};
use waits_for::Rows;

/// The waits-for graph of these waits, by position: position a is that of session a + 1. Fails if memory is refused.
pub(crate) fn graph_of(alloc: Global, sessions: u16, waits: &[WaitFor]) -> Result<Rows, NoMemory>
    requires some { 1 ≤ sessions }
    requires few { sessions ≤ MAX_SESSIONS }
    requires within { All (IsWait sessions) waits.now }
    ensures sessions { IfOk result (λ rows. rows.sessions ≡ sessions) }
    ensures pairs { IfOk result (λ rows. AreWaitsOf rows waits.now) }
{
    let mut rows = Rows::new(alloc, sessions)?;
    for wait in waits {
        rows.set((wait.session - 1) as usize, (wait.other - 1) as usize);
    }
    Ok(rows)
}

/// Whether a walk of the graph leads from `session` to `other`. It is searched for only if `session` doesn't wait for `other` directly.
fn leads_to(rows: &mut Rows, waits: &[WaitFor], session: u16, other: u16) -> bool
    requires session_some { 1 ≤ session }
    requires session_within { session ≤ rows.old.sessions }
    requires other_some { 1 ≤ other }
    requires other_within { other ≤ rows.old.sessions }
    requires pairs { AreWaitsOf rows.old waits.now }
    ensures walk { result ≡ is_blocked waits.now session other }
    ensures same { rows.new ≡ rows.old }
{
    let here = (session - 1) as usize;
    let there = (other - 1) as usize;
    if rows.waits(here, there) {
        return true;
    }
    rows.reaches(here, there)
}

/// How many sessions wait for `session`, directly or through others.
pub(crate) fn count_blocked(rows: &mut Rows, waits: &[WaitFor], session: u16) -> u64
    requires some { 1 ≤ session }
    requires within { session ≤ rows.old.sessions }
    requires pairs { AreWaitsOf rows.old waits.now }
    ensures count { result ≡ length (blocked_by rows.old.sessions waits.now session) }
    ensures same { rows.new ≡ rows.old }
{
    let mut count = 0u64;
    let sessions = rows.sessions();
    for below in 0..sessions {
        count += one_if(leads_to(rows, waits, below + 1, session));
    }
    count
}
