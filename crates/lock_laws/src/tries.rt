//! Laws on tries: a Try does what a Lock does, as long as that Lock wouldn't wait.

ghost use Rattle.std.specs.Prelude.{ℕ, List};
ghost use Rattle.lock_rules.specs.State.{State};
ghost use Rattle.lock_rules.specs.Legal.{IsLegal, state_of};
ghost use Rattle.lock_laws.specs.Tries.{IsTryRefusedIfLockWaits, DoesTryActAsLock, AreConversionsTriedPastWaiters};
ghost use Rattle.lock_laws.specs.Examples.{tries_past_a_waiter, WaitsFirst};

/// In any state a Try is refused with WouldWait exactly if a Lock of the same session, resource and mode would begin to wait
/// (`refused`). Otherwise it has the outcome of that Lock: the same reply and the same state (`same`). A Lock may be refused
/// by a test that comes before: the Try is refused for the same reason then. A Try that converts a lock of its session, in a
/// mode that is compatible with all other holders, is granted, whoever waits for the resource (`conversions`).
pub fn tries_are_locks_that_do_not_wait()
    ensures refused { (st : State) → IsTryRefusedIfLockWaits st }
    ensures same { (st : State) → DoesTryActAsLock st }
    ensures conversions { (st : State) → AreConversionsTriedPastWaiters st }
{}

/// A history worked by hand, in which a session waits: a Try of a session that holds nothing is refused, though its mode is
/// compatible with all holders, and a Try that converts a lock is granted past the session that waits.
pub fn examples_of_tries()
    ensures legal { IsLegal tries_past_a_waiter }
    ensures waits { WaitsFirst (state_of tries_past_a_waiter) 2 }
{}
