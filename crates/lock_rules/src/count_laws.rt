//! The laws of counters. Each is the contract of a function with an empty body; another crate cites a law by calling its
//! function.

ghost use Rattle.std.specs.Prelude.{List};
ghost use Rattle.lock_rules.specs.Entries.{Entry as EntryValue};
ghost use Rattle.lock_rules.specs.Legal.{IsLegal};
ghost use Rattle.lock_rules.specs.CountBalance.{AreRequestsAnswered, DoWaitsEndOnce, AreCountsBounded};

/// In every legal history, each request for a lock was granted at once, began a wait, or was refused: there are as many
/// requests as these together (`requests`). Each wait that began was granted by another session's call, ended with its
/// session as a victim, was withdrawn, ended with an abort or a restart of its session, or waits still (`waits`).
pub fn requests_and_waits_add_up()
    ensures requests { (history : List EntryValue) → IsLegal history → AreRequestsAnswered history }
    ensures waits { (history : List EntryValue) → IsLegal history → DoWaitsEndOnce history }
{}

/// In every legal history, no counter of waits is above the number of calls, and there are no more deadlocks than victims.
/// So counters of 64 bits hold them as long as the calls can be counted with 64 bits.
pub fn counts_are_bounded()
    ensures { (history : List EntryValue) → IsLegal history → AreCountsBounded history }
{}
