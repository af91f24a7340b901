//! What the definitions of an explanation mean. Each law is the contract of a function with an empty body; another crate
//! cites a law by calling its function.

ghost use Rattle.std.specs.Prelude.{◌≡◌, ◌≢◌, ◌≤◌, ◌↔◌, ℕ, true, List, [], map, All};
ghost use Rattle.lock_rules.specs.declared.calls.Call.{Call as CallValue};
ghost use Rattle.lock_rules.specs.Entries.{Entry as EntryValue};
ghost use Rattle.lock_rules.specs.State.{Claim as ClaimValue, State};
ghost use Rattle.lock_rules.specs.Waits.{waits_for};
ghost use Rattle.lock_rules.specs.Legal.{state_of};
ghost use Rattle.lock_rules.specs.Laws.{AreVictims};
ghost use Rattle.lock_rules.specs.Step.{step};
ghost use Rattle.waits_for.specs.Walks.{AreOnCircle};
ghost use Rattle.sequential.specs.Histories.{IsEntryWithin};
ghost use Rattle.lock_explain.specs.Cycles.{is_on_cycle};
ghost use Rattle.lock_explain.specs.Endings.{AreNewVictims};
ghost use Rattle.lock_explain.specs.Explanations.{AreVictimsOnCycleTold, AreWaitsToldClosed, IsExplanation};
ghost use Rattle.lock_explain.specs.Waiting.{BeginsToWait, waiting_state};
ghost use Rattle.lock_explain.specs.declared.explanation.Explanation.{Explanation as ExplanationValue};
ghost use Rattle.lock_explain.specs.declared.explanation.Party.{Party as PartyValue};

/// The victims of a request that begins to wait, the youngest first, are those that the rule chooses one after another:
/// each is the youngest transaction on a cycle with the caller once those before it have lost their requests, until the
/// caller is on no cycle.
pub fn victims_are_chosen_youngest_first()
    ensures { (n session : ℕ) (history : List EntryValue) (call : CallValue) (q : ClaimValue) (victims : List PartyValue) →
        All (IsEntryWithin n) history → 1 ≤ session → session ≤ n → BeginsToWait (state_of history) session call q
        → AreNewVictims n (state_of history) (step (state_of history) session call).state victims
        → AreVictims session (map (λ p. p.session) victims) (waiting_state (state_of history) q) (step (state_of history) session call).state }
{}

/// The sessions on a cycle with a session are those that a walk of the waits-for graph leads to and back.
pub fn cycles_are_closed_walks()
    ensures { (st : State) (session other : ℕ) → (is_on_cycle st session other ≡ true) ↔ AreOnCircle (waits_for st.table) session other }
{}

/// The victims that an explanation tells are on the cycle that it tells: each is one of those sessions, with the same transaction,
/// also one that is chosen after other victims have lost their requests. Where no victim is told, no cycle is.
pub fn victims_are_on_the_cycle_told()
    ensures { (n session : ℕ) (history : List EntryValue) (call : CallValue) (e : ExplanationValue) →
        All (IsEntryWithin n) history → 1 ≤ session → session ≤ n → IsExplanation n (state_of history) session call e → AreVictimsOnCycleTold e }
{}

/// The waits that an explanation tells lead round: each session that is told as on a cycle is told to wait for another of them,
/// and every wait told is of one of them for another.
pub fn waits_told_lead_round()
    ensures { (n session : ℕ) (history : List EntryValue) (call : CallValue) (e : ExplanationValue) →
        All (IsEntryWithin n) history → 1 ≤ session → session ≤ n → IsExplanation n (state_of history) session call e → AreWaitsToldClosed e }
{}
