//! Laws on deadlocks: the cycles that a request closes, and the victims on them.

ghost use Rattle.std.specs.Prelude.{ℕ, List};
ghost use Rattle.lock_modes.specs.declared.Mode.{Mode as ModeValue};
ghost use Rattle.lock_modes.specs.declared.Mode.TheVariants.{X};
ghost use Rattle.waits_for.specs.Walks.{AreOnCircle};
ghost use Rattle.lock_rules.specs.declared.calls.Call.{Call as CallValue};
ghost use Rattle.lock_rules.specs.declared.calls.Call.TheVariants.{Convert};
ghost use Rattle.lock_rules.specs.Entries.{Entry as EntryValue};
ghost use Rattle.lock_rules.specs.State.{State};
ghost use Rattle.lock_rules.specs.Waits.{waits_for};
ghost use Rattle.lock_rules.specs.Laws.{AreVictims};
ghost use Rattle.lock_rules.specs.Legal.{IsLegal, state_of};
ghost use Rattle.lock_rules.specs.Examples.{database};
ghost use Rattle.lock_laws.specs.Victims.{BeginsToWait, with_waiting};
ghost use Rattle.lock_laws.specs.Cycles.{DoCyclesGoThrough, AreVictimsOnCycles, DoesDoom, ClosesCycleWith, AreDoomedOnCycles, HasEachCycleDoomed};
ghost use Rattle.lock_laws.specs.Examples.{reader_behind_a_deadlock};

/// Every cycle of the waits-for graph that a request closes goes through its session (`through`). Each victim is on a cycle with
/// that session when it is chosen, and after the last victim no cycle is left (`victims`).
///
/// Whoever a call dooms was on a cycle that its request closed, before any victim was chosen. So a call that closes no cycle dooms
/// nobody (`doomed`). On each cycle that a request closes somebody is doomed after the call (`each_cycle`).
pub fn victims_are_on_the_cycles_of_the_request()
    ensures through { (history : List EntryValue) (session : ℕ) (call : CallValue) (resource : List ℕ) (target : ModeValue) →
        BeginsToWait (state_of history) session call resource target → DoCyclesGoThrough session (with_waiting session resource target (state_of history)) }
    ensures victims { (history : List EntryValue) (session : ℕ) (call : CallValue) (resource : List ℕ) (target : ModeValue) (victims : List ℕ) (last : State) →
        BeginsToWait (state_of history) session call resource target →
        AreVictims session victims (with_waiting session resource target (state_of history)) last →
        AreVictimsOnCycles session victims (with_waiting session resource target (state_of history)) }
    ensures doomed { (st : State) → AreDoomedOnCycles st }
    ensures each_cycle { (history : List EntryValue) → HasEachCycleDoomed (state_of history) }
{}

/// A history worked by hand: the conversion of session 2 closes a cycle with session 1. Reader 3 waits behind them, has the youngest
/// transaction, and is on no cycle with session 2. So session 2 is the victim, and 3 is not.
pub fn examples_of_cycles()
    ensures legal { IsLegal reader_behind_a_deadlock }
    ensures closed { ClosesCycleWith (state_of reader_behind_a_deadlock) 2 (Convert (database 1) X) 1 }
    ensures beside { AreOnCircle (waits_for (with_waiting 2 (database 1) X (state_of reader_behind_a_deadlock)).table) 2 3 → ⊥ }
    ensures victim { DoesDoom (state_of reader_behind_a_deadlock) 2 (Convert (database 1) X) 2 }
    ensures spared { DoesDoom (state_of reader_behind_a_deadlock) 2 (Convert (database 1) X) 3 → ⊥ }
{}
