//! Laws on retries: a transaction that is retried by restarts alone grows old, and the oldest is nobody's victim.

ghost use Rattle.std.specs.Prelude.{List};
ghost use Rattle.lock_modes.specs.declared.Mode.TheVariants.{S};
ghost use Rattle.lock_rules.specs.declared.calls.Call.TheVariants.{Lock};
ghost use Rattle.lock_rules.specs.Entries.{Entry as EntryValue};
ghost use Rattle.lock_rules.specs.Legal.{IsLegal, state_of};
ghost use Rattle.lock_rules.specs.Examples.{database};
ghost use Rattle.lock_laws.specs.Cycles.{DoesDoom};
ghost use Rattle.lock_laws.specs.Retries.{DoesNumberStand, DoesNobodyBecomeOlder, AreVictimsYounger, IsOldestSpared, DoesOldestStand};
ghost use Rattle.lock_laws.specs.Examples.{retried_by_restart, retried_by_begin};

/// Whatever anybody calls, a transaction stays open with its number until its session commits or aborts it (`number`). Until then
/// nobody becomes older than it: whoever is older was so before (`older`). So a transaction that is retried by restarts alone
/// grows old, since those older than it only end.
///
/// Whoever a call dooms is younger than another open transaction (`younger`), so no call dooms the oldest (`spared`). Once a
/// transaction is older than all others open and not doomed, it stays so, and is nobody's victim, until its session commits or
/// aborts it (`oldest`).
pub fn retried_transactions_grow_old()
    ensures number { (front rest : List EntryValue) → DoesNumberStand front rest }
    ensures older { (front rest : List EntryValue) → DoesNobodyBecomeOlder front rest }
    ensures younger { (history : List EntryValue) → AreVictimsYounger (state_of history) }
    ensures spared { (history : List EntryValue) → IsOldestSpared (state_of history) }
    ensures oldest { (front rest : List EntryValue) → DoesOldestStand front rest }
{}

/// Two histories worked by hand, in which session 1 closes a cycle with session 2, a victim of before. If session 2 restarted, 1
/// is the victim; if it aborted and began anew, it is the victim again.
pub fn examples_of_retries()
    ensures restart { IsLegal retried_by_restart }
    ensures spared { DoesDoom (state_of retried_by_restart) 1 (Lock (database 2) S) 2 → ⊥ }
    ensures younger { DoesDoom (state_of retried_by_restart) 1 (Lock (database 2) S) 1 }
    ensures begin { IsLegal retried_by_begin }
    ensures again { DoesDoom (state_of retried_by_begin) 1 (Lock (database 2) S) 2 }
{}
