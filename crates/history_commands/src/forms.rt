//! The lists of a state in a form of `show`.

ghost use Rattle.std.specs.Prelude.{◌≡◌, ◌<◌, ◌≤◌, All, IfOk, string_bytes};
ghost use Rattle.lock_rules.specs.declared.calls.TheConstants.{MAX_SESSIONS};
ghost use Rattle.lock_report.specs.ReadRows.{IsSession, IsWait};
ghost use Rattle.lock_report.specs.Blockers.{told_waits};
ghost use Rattle.history_commands.specs.Forms.{form_of_lists, told_at};

use crate::since::with_places;
use command_line::Form;
use lock_desk::Entry;
use lock_report::{
    Lists, Moment, WaitLine, first_waits, lists_text, locks_dot, state_rows, told_waits, waits_dot,
};
use std::alloc::{AllocError as NoMemory, Global};

/// The waits, of a state in front of a place with the places since when sessions wait. Fails if memory is refused.
fn told_at(
    alloc: Global,
    place: Option<u64>,
    front: &[Entry],
    lists: &Lists,
) -> Result<Vec<WaitLine>, NoMemory>
    ensures { IfOk result (λ told. told.items ≡ told_at place front.now (told_waits lists.now.opens.items lists.now.claims.items lists.now.waits.items)) }
{
    let told = told_waits(alloc, &lists.opens, &lists.claims, &lists.waits)?;
    match place {
        None => Ok(told),
        Some(_) => with_places(alloc, front, &told),
    }
}

/// The lists of a state in this form. `front` are the entries that led to the state in front of a place; of a dump there are none. All
/// sessions of the open transactions and of the waits are among the sessions of the moment. Fails if memory is refused.
pub(crate) fn form_text(
    alloc: Global,
    moment: Moment,
    front: &[Entry],
    lists: &Lists,
    form: Form,
) -> Result<String, NoMemory>
    requires some { 0 < moment.sessions }
    requires few { moment.sessions ≤ MAX_SESSIONS }
    requires opens { All (λ begun. IsSession moment.sessions begun.session) lists.now.opens.items }
    requires waits { All (IsWait moment.sessions) lists.now.waits.items }
    ensures { IfOk result (λ text. string_bytes text ≡ form_of_lists form moment front.now lists.now.opens.items lists.now.claims.items lists.now.waits.items) }
{
    match form {
        Form::Lines => {
            let told = told_at(alloc, moment.place, front, lists)?;
            lists_text(alloc, moment, lists, &told)
        }
        Form::Rows => {
            let told = told_waits(alloc, &lists.opens, &lists.claims, &lists.waits)?;
            let rows = first_waits(alloc, &told)?;
            state_rows(alloc, &lists.opens, &lists.claims, &rows)
        }
        Form::Graph => {
            let told = told_at(alloc, moment.place, front, lists)?;
            locks_dot(alloc, &lists.opens, &lists.claims, &told)
        }
        Form::Waits => waits_dot(alloc, &lists.opens, &lists.waits),
    }
}
