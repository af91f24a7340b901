//! Laws on how waits end, each the contract of a function with an empty body.

ghost use Rattle.std.specs.Prelude.{◌≡◌, ◌↔◌, ℕ, ◌<◌, ◌≤◌, true, false, List, [], ◌∷◌, length, All};
ghost use Rattle.lock_modes.specs.declared.Mode.{Mode as ModeValue};
ghost use Rattle.lock_modes.specs.declared.Mode.TheVariants.{X};
ghost use Rattle.lock_rules.specs.declared.calls.Call.{Call as CallValue};
ghost use Rattle.lock_rules.specs.declared.calls.Call.TheVariants.{Convert, Commit, Abort};
ghost use Rattle.lock_rules.specs.declared.calls.Reply.TheVariants.{Committed, Aborted};
ghost use Rattle.lock_rules.specs.Entries.{Entry as EntryValue};
ghost use Rattle.lock_rules.specs.State.{State, claims_of, is_open, is_doomed};
ghost use Rattle.lock_rules.specs.Waits.{waits_for};
ghost use Rattle.lock_rules.specs.Step.{step};
ghost use Rattle.lock_rules.specs.Legal.{IsLegal, state_of};
ghost use Rattle.lock_rules.specs.Laws.{IsOneRequestEach, DoesNobodyWaitNeedlessly, HasNoCircle, AreVictims};
ghost use Rattle.lock_rules.specs.Sound.{IsSound, IsNumbered};
ghost use Rattle.lock_rules.specs.Lawful.{IsLawfulState};
ghost use Rattle.lock_rules.specs.Examples.{database};
ghost use Rattle.lock_laws.specs.Chains.{DoWaitersWaitForOthers, DoWaitsLeadToHolders};
ghost use Rattle.lock_laws.specs.Ends.{ended_with, CanEnd, AreEnds, open_below, AreOpenBelow, DoEndsCount, CanSomebodyEnd, DoEndsGoOn, DoWaitsEnd, DoesEverybodyEnd, AreRequestsGranted};
ghost use Rattle.lock_laws.specs.Victims.{BeginsToWait, with_waiting, AreVictimsNeeded};
ghost use Rattle.lock_laws.specs.Examples.{reader_behind_update, update_behind_reader, conversion_behind_reader, readers_before_a_deadlock, WaitsThrough, LeavesNothing};

/// Whoever has a waiting request waits for another session. A walk of such waits leads from it to a session that doesn't
/// wait, has an open transaction, and holds the resource for which the session before it waits, in a mode that conflicts
/// with that request. So no session waits for nothing, and no group of sessions waits for itself alone.
pub fn whoever_waits_waits_in_the_end_for_a_holder()
    ensures others { (st : State) → IsLawfulState st → DoWaitersWaitForOthers st }
    ensures holders { (st : State) → IsLawfulState st → DoWaitsLeadToHolders st }
    ensures history { (history : List EntryValue) → DoWaitsLeadToHolders (state_of history) }
{}

/// A session's transaction ends by an abort, or by a commit if the session doesn't wait and isn't doomed: neither is refused
/// then, and both lead to the same state. Each end leaves one open transaction less, so an order of ends is no longer than
/// the number of open transactions. As long as a session with a transaction doesn't wait, there is one that can end, and
/// every order can be continued until nobody else can end. After a history of sessions with numbers below `n`, only such
/// sessions have open transactions.
pub fn orders_end()
    ensures abort { (st : State) (session : ℕ) →
        is_open st session ≡ true → step st session Abort ≡ ended_with (Aborted (length (claims_of session st.table.held))) session st }
    ensures commit { (st : State) (session : ℕ) → CanEnd st session → is_doomed st session ≡ false →
        step st session Commit ≡ ended_with (Committed (length (claims_of session st.table.held))) session st }
    ensures count { (st : State) → DoEndsCount st }
    ensures short { (st last : State) (n : ℕ) (order : List ℕ) → AreOpenBelow n st → AreEnds order st last → length order ≤ open_below n st }
    ensures somebody { (st : State) → CanSomebodyEnd st }
    ensures go_on { (st : State) → DoEndsGoOn st }
    ensures numbers { (history : List EntryValue) (n : ℕ) → All (λ e. e.session < n) history → AreOpenBelow n (state_of history) }
{}

/// From every state that a history leads to, waits end if sessions do no more than end their transactions: in whatever order
/// those do that don't wait, once nobody else can end, nobody waits. By then every session has ended that had a transaction,
/// and each that waited held what it had asked for when it ended.
pub fn waits_end()
    ensures waits { (history : List EntryValue) → DoWaitsEnd (state_of history) }
    ensures everybody { (history : List EntryValue) → DoesEverybodyEnd (state_of history) }
    ensures granted { (history : List EntryValue) → AreRequestsGranted (state_of history) }
{}

/// Waits end by themselves exactly if no sessions wait for each other in a cycle. The state may be one in which deadlocks
/// are not resolved yet, such as that in which a request has just begun to wait; its open transactions are finitely many.
pub fn waits_end_unless_there_is_a_cycle()
    ensures exactly { (st : State) (n : ℕ) → AreOpenBelow n st → IsSound st.table → IsNumbered st → DoesNobodyWaitNeedlessly st →
        DoWaitsEnd st ↔ HasNoCircle st }
    ensures request { (history : List EntryValue) (session : ℕ) (call : CallValue) (resource : List ℕ) (target : ModeValue) →
        BeginsToWait (state_of history) session call resource target →
        DoWaitsEnd (with_waiting session resource target (state_of history)) ↔ HasNoCircle (with_waiting session resource target (state_of history)) }
{}

/// No victim is chosen in a state from which waits would end by themselves. When a request begins to wait, victims are
/// chosen exactly as long as waits would not end: they would not from the state before each victim, and they do from the
/// state after the last (`exactly`). The call of that request leads to the state after such victims (`chosen`).
pub fn victims_were_needed()
    ensures needed { (st : State) (n session victim : ℕ) (more : List ℕ) (last : State) → AreOpenBelow n st → IsOneRequestEach st →
        AreVictims session (victim ∷ more) st last → DoWaitsEnd st → ⊥ }
    ensures exactly { (history : List EntryValue) (session : ℕ) (call : CallValue) (resource : List ℕ) (target : ModeValue) (victims : List ℕ) (last : State) →
        BeginsToWait (state_of history) session call resource target →
        AreVictims session victims (with_waiting session resource target (state_of history)) last →
        AreVictimsNeeded victims (with_waiting session resource target (state_of history)) }
    ensures chosen { (history : List EntryValue) (session : ℕ) (call : CallValue) (resource : List ℕ) (target : ModeValue) →
        BeginsToWait (state_of history) session call resource target → (victims : List ℕ)
        × AreVictims session victims (with_waiting session resource target (state_of history)) (step (state_of history) session call).state
        × AreVictimsNeeded victims (with_waiting session resource target (state_of history)) }
{}

/// Histories worked by hand: each is legal, the walks lead where they say, and waits end when the sessions end in these
/// orders. A session that waits can't end. Waits don't end from the state in which a deadlock has just come about.
pub fn examples_end()
    ensures reader { IsLegal reader_behind_update }
    ensures reader_waits { WaitsThrough (state_of reader_behind_update) 3 [] 2 }
    ensures reader_beside_reader { waits_for (state_of reader_behind_update).table 3 1 ≡ false }
    ensures reader_ends { LeavesNothing (2 ∷ 3 ∷ 1 ∷ []) (state_of reader_behind_update) }
    ensures reader_cannot_end { (last : State) → AreEnds (3 ∷ []) (state_of reader_behind_update) last → ⊥ }
    ensures update { IsLegal update_behind_reader }
    ensures update_waits { WaitsThrough (state_of update_behind_reader) 3 (2 ∷ []) 1 }
    ensures update_ends { LeavesNothing (1 ∷ 3 ∷ 2 ∷ []) (state_of update_behind_reader) }
    ensures conversion { IsLegal conversion_behind_reader }
    ensures conversion_waits { WaitsThrough (state_of conversion_behind_reader) 2 [] 1 }
    ensures reader_behind_conversion_waits { WaitsThrough (state_of conversion_behind_reader) 3 (2 ∷ []) 1 }
    ensures conversion_ends { LeavesNothing (1 ∷ 2 ∷ 3 ∷ []) (state_of conversion_behind_reader) }
    ensures deadlock { IsLegal readers_before_a_deadlock }
    ensures deadlock_begins { BeginsToWait (state_of readers_before_a_deadlock) 2 (Convert (database 1) X) (database 1) X }
    ensures deadlock_stays { DoWaitsEnd (with_waiting 2 (database 1) X (state_of readers_before_a_deadlock)) → ⊥ }
{}
