//! The laws of restarts. Like those of `laws.rt`, each is the contract of a function with an empty body.

ghost use Rattle.std.specs.Prelude.{List};
ghost use Rattle.lock_rules.specs.Entries.{Entry as EntryValue};
ghost use Rattle.lock_rules.specs.declared.calls.Reply.TheVariants.{Began, Waiting, Deadlock, Refused, Restarted};
ghost use Rattle.lock_rules.specs.declared.calls.Why.TheVariants.{NoTransaction, IsWaiting};
ghost use Rattle.lock_rules.specs.State.{State};
ghost use Rattle.lock_rules.specs.Legal.{IsLegal, state_of};
ghost use Rattle.lock_rules.specs.Examples.{with_reply};
ghost use Rattle.lock_rules.specs.Restarts.{DoesRestartTakeAllLocks, DoesRestartClearAsAbort, DoesRestartNeedTransaction, victim_that_restarts, restart_while_waiting};

/// A restart that isn't refused takes all locks of the session and its request, and replies with how many locks it held. The
/// session's transaction is open after it with its old number, not doomed (`locks`). What it held or waited for is promoted, so
/// that the lock table is the one that an abort would leave (`abort`). A restart is refused only if the session has no
/// transaction (`refused`).
pub fn restarts_take_all_locks_and_keep_the_number()
    ensures locks { (history : List EntryValue) → DoesRestartTakeAllLocks (state_of history) }
    ensures abort { (st : State) → DoesRestartClearAsAbort st }
    ensures refused { (history : List EntryValue) → DoesRestartNeedTransaction (state_of history) }
{}

/// Histories with restarts, worked by hand, are legal, and with a wrong reply they are not.
pub fn restart_examples_are_legal()
    ensures victim_that_restarts { IsLegal victim_that_restarts }
    ensures restart_without_a_transaction { IsLegal (with_reply 0 (Restarted 0) victim_that_restarts) → ⊥ }
    ensures victim_without_its_locks { IsLegal (with_reply 7 (Restarted 0) victim_that_restarts) → ⊥ }
    ensures restart_leaves_the_doom { IsLegal (with_reply 8 Deadlock victim_that_restarts) → ⊥ }
    ensures restart_ends_the_transaction { IsLegal (with_reply 8 (Refused NoTransaction) victim_that_restarts) → ⊥ }
    ensures restart_without_promotion { IsLegal (with_reply 9 Waiting victim_that_restarts) → ⊥ }
    ensures begun_after_a_restart { IsLegal (with_reply 10 (Began 3) victim_that_restarts) → ⊥ }
    ensures restart_takes_a_number { IsLegal (with_reply 12 (Began 4) victim_that_restarts) → ⊥ }
    ensures restarted_is_the_youngest { IsLegal (with_reply 16 Waiting victim_that_restarts) → ⊥ }
    ensures restarted_is_a_victim { IsLegal (with_reply 17 Deadlock victim_that_restarts) → ⊥ }
    ensures restart_while_waiting { IsLegal restart_while_waiting }
    ensures restart_refused { IsLegal (with_reply 7 (Refused IsWaiting) restart_while_waiting) → ⊥ }
    ensures restart_leaves_its_place_in_the_queue { IsLegal (with_reply 8 Waiting restart_while_waiting) → ⊥ }
    ensures restart_leaves_its_request { IsLegal (with_reply 9 Waiting restart_while_waiting) → ⊥ }
    ensures restart_keeps_a_lock { IsLegal (with_reply 10 Waiting restart_while_waiting) → ⊥ }
    ensures restart_counts_a_lock_twice { IsLegal (with_reply 11 (Restarted 1) restart_while_waiting) → ⊥ }
    ensures restart_after_an_abort { IsLegal (with_reply 13 (Restarted 0) restart_while_waiting) → ⊥ }
{}
