//! The text of a state for people.

ghost use Rattle.std.specs.Prelude.{◌≡◌, ◌<◌, ◌≤◌, All, IfOk, string_bytes};
ghost use Rattle.lock_rules.specs.declared.calls.TheConstants.{MAX_SESSIONS};
ghost use Rattle.lock_report.specs.ReadRows.{IsSession, IsWait};
ghost use Rattle.lock_report.specs.Shown.{text_of_lists};

use crate::blocking::roots::roots_of;
use crate::snapshot::{OpenTransaction, WaitFor, WaitLine};
use crate::text::state_text;
use lock_rules::Claim;
use std::alloc::{AllocError as NoMemory, Global};

/// What is said of a state beside its lists.
#[derive(Clone, Copy)]
pub struct Moment {
    /// The number of sessions, at most `MAX_SESSIONS`.
    pub sessions: u16,
    /// The place of the history that the state is in front of; `None` for a dump, of which no place is known.
    pub place: Option<u64>,
    /// How many requests wait.
    pub waiting: u64,
}

/// The lists of a state.
#[derive(Debug, Drop)]
pub struct Lists {
    /// The open transactions.
    pub opens: Vec<OpenTransaction>,
    /// The locks and waiting requests.
    pub claims: Vec<Claim>,
    /// Who waits directly for whom.
    pub waits: Vec<WaitFor>,
}

/// The text for people of a state: how many requests wait, who blocks others and the victims, which transactions are open, who holds what,
/// who waits for what, and for whom, as `told` says. All sessions of the open transactions and of the waits are from 1 to the number of
/// sessions. The claims are in the order of a listing: resource by resource. Fails only with `NoMemory`.
pub fn lists_text(
    alloc: Global,
    moment: Moment,
    lists: &Lists,
    told: &[WaitLine],
) -> Result<String, NoMemory>
    requires some { 0 < moment.sessions }
    requires few { moment.sessions ≤ MAX_SESSIONS }
    requires opens { All (λ begun. IsSession moment.sessions begun.session) lists.now.opens.items }
    requires waits { All (IsWait moment.sessions) lists.now.waits.items }
    ensures { IfOk result (λ text. string_bytes text ≡ text_of_lists moment.sessions moment.place moment.waiting lists.now.opens.items lists.now.claims.items lists.now.waits.items told.now) }
{
    let roots = roots_of(
        alloc,
        moment.sessions,
        &lists.opens,
        &lists.claims,
        &lists.waits,
    )?;
    state_text(
        alloc,
        moment.place,
        moment.waiting,
        &roots,
        &lists.opens,
        &lists.claims,
        told,
    )
}
