//! The laws of the mode U, the only mode for which the order of two requests counts. Each is the contract of a function
//! with an empty body, like those of `laws`.

ghost use Rattle.std.specs.Prelude.{List};
ghost use Rattle.lock_modes.specs.declared.Mode.TheVariants.{S, U, X};
ghost use Rattle.lock_rules.specs.Entries.{Entry as EntryValue};
ghost use Rattle.lock_rules.specs.declared.calls.Reply.TheVariants.{Granted, Waiting, Deadlock, Clear, Refused};
ghost use Rattle.lock_rules.specs.declared.calls.Why.TheVariants.{ParentNotHeld};
ghost use Rattle.lock_rules.specs.Legal.{IsLegal, state_of};
ghost use Rattle.lock_rules.specs.Examples.{with_reply};
ghost use Rattle.lock_rules.specs.Updates.{IsUpdateAlone, update_beside_readers, update_with_intention, update_under_parent, updates_one_after_another};

/// In every state, at most one session holds a resource in U.
pub fn updates_are_alone()
    ensures { (history : List EntryValue) → IsUpdateAlone (state_of history) }
{}

/// Histories with U, worked by hand, are legal. With another reply in one place they are not.
pub fn update_examples_are_legal()
    ensures update_beside_readers { IsLegal update_beside_readers }
    ensures update_waits_for_readers { IsLegal (with_reply 4 Waiting update_beside_readers) → ⊥ }
    ensures reader_beside_an_update { IsLegal (with_reply 5 (Granted S) update_beside_readers) → ⊥ }
    ensures reader_promoted_beside_an_update { IsLegal (with_reply 7 Clear update_beside_readers) → ⊥ }
    ensures conversion_waits_for_a_waiting_reader { IsLegal (with_reply 8 Waiting update_beside_readers) → ⊥ }
    ensures reader_waits_on { IsLegal (with_reply 10 Waiting update_beside_readers) → ⊥ }
    ensures update_with_intention { IsLegal update_with_intention }
    ensures update_beside_an_update { IsLegal (with_reply 3 (Granted U) update_with_intention) → ⊥ }
    ensures greater_of_update_and_intention { IsLegal (with_reply 4 (Granted U) update_with_intention) → ⊥ }
    ensures update_under_parent { IsLegal update_under_parent }
    ensures update_under_intention_to_read { IsLegal (with_reply 2 (Granted U) update_under_parent) → ⊥ }
    ensures reader_under_an_update_refused { IsLegal (with_reply 5 (Refused ParentNotHeld) update_under_parent) → ⊥ }
    ensures writer_under_an_update { IsLegal (with_reply 6 (Granted X) update_under_parent) → ⊥ }
    ensures updates_one_after_another { IsLegal updates_one_after_another }
    ensures updates_in_a_deadlock { IsLegal (with_reply 3 Deadlock updates_one_after_another) → ⊥ }
{}
