//! The rows that tell of waits: of each session that waits its first blocker, and for how many others it waits.

ghost use Rattle.std.specs.Prelude.{◌≡◌, ◌++◌, IfOk, OnOk};
ghost use Rattle.std.specs.List.{position_or_len};
ghost use Rattle.lock_report.specs.Blocking.{first_of, first_waits};

use crate::snapshot::{FirstWait, WaitLine};
use std::alloc::{AllocError as NoMemory, Global};

/// How many waits are told in front of the next one for a first blocker.
fn others_in(told: &[WaitLine]) -> u64
    ensures { result ≡ position_or_len (λ w. w.first) told.now }
{
    for index in 0..told.len() {
        if told[index].first {
            return index as u64;
        }
    }
    told.len() as u64
}

/// Adds the row of the wait, if it is for a first blocker; `behind` is what is told behind it. Fails if memory is refused.
fn add_first(
    wait: &WaitLine,
    behind: &[WaitLine],
    rows: &mut Vec<FirstWait>,
) -> Result<(), NoMemory>
    ensures { OnOk result (rows.new.items ≡ rows.old.items ++ first_of wait.now behind.now) }
{
    if wait.first {
        rows.push(FirstWait {
            wait: wait.wait,
            others: others_in(behind),
        })?;
    }
    Ok(())
}

/// The rows of these waits. Fails if memory is refused.
pub fn first_waits(alloc: Global, told: &[WaitLine]) -> Result<Vec<FirstWait>, NoMemory>
    ensures { IfOk result (λ rows. rows.items ≡ first_waits told.now) }
{
    let mut rows = Vec::new(alloc);
    for index in 0..told.len() {
        add_first(&told[index], &told[index + 1..], &mut rows)?;
    }
    Ok(rows)
}
