//! The commands of `glm` that tell of a place in a history: `show` the state there, `explain` a call, draw a `timeline`; and `show --state`,
//! which reads a dump. It puts together what `lock_report`, `lock_explain` and `timeline_report` write; `replay_commands` checks.
//!
//! Begin with `showing.rt`, which shows the state of the lock table at a place of the history, or `dumps.rt`, that of a dump: `listing.rt`
//! has the lists of a book's state, `since.rt` tells since when sessions wait, `forms.rt` writes lists in each form. `explaining.rt` tells
//! what calls did and why (`accounts.rt`: one of them, `dooming.rt`: which call made a transaction a victim), `drawing.rt` draws the
//! history. `show_fault.rt` has the faults of these three, `dump_fault.rt` those of a dump. `laws.rt` has the law on what the places of
//! waits mean.
//!
//! Proved: what is written, for every input, also after a fault; but of a picture only that it is written of a legal history, and else
//! the verdict.
#![tactic(auto)]

mod accounts;
mod dooming;
mod drawing;
mod dump_fault;
mod dumps;
mod explaining;
mod forms;
pub mod laws;
mod listing;
mod show_fault;
mod showing;
mod since;

pub use accounts::{ServedCall, account, answer_of, doom_of};
pub use drawing::timeline;
pub use dump_fault::DumpFault;
pub use dumps::show_dump;
pub use explaining::{explain, explain_found};
pub use show_fault::ShowFault;
pub use showing::{lines_text, show, show_found};
