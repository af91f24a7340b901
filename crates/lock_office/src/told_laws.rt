//! What answers to calls tell a session of locks, and what goes together of it, in any legal history of calls. Each law is the contract of a
//! function that does nothing.

ghost use Rattle.std.specs.Prelude.{◌≡◌, ◌≢◌, ◌⊎◌, ℕ, ◌+◌, List, ◌∷◌, ◌++◌, [], length, Option, Some, None, All};
ghost use Rattle.lock_modes.specs.declared.Mode.{Mode};
ghost use Rattle.sequential.specs.Histories.{calls_of};
ghost use Rattle.lock_rules.specs.declared.calls.Call.{Call};
ghost use Rattle.lock_rules.specs.declared.calls.Call.TheVariants.{Begin, Poll, Abort, Withdraw, Restart};
ghost use Rattle.lock_rules.specs.declared.calls.Reply.{Reply};
ghost use Rattle.lock_rules.specs.declared.calls.Reply.TheVariants.{Granted, Waiting, Clear, Refused};
ghost use Rattle.lock_rules.specs.declared.calls.Why.{Why};
ghost use Rattle.lock_rules.specs.declared.calls.Why.TheVariants.{NotWaiting};
ghost use Rattle.lock_rules.specs.Entries.{Entry, Answered};
ghost use Rattle.lock_rules.specs.State.{State};
ghost use Rattle.lock_rules.specs.Step.{step};
ghost use Rattle.lock_rules.specs.Legal.{IsLegal, state_of};
ghost use Rattle.lock_rules.specs.Laws.{HoldsAtLeast, GoTogether};
ghost use Rattle.publication.specs.Views.{IsAccountedIn, answer, asks};
ghost use Rattle.lock_office.specs.by_calls.HoldsAsTold.{Pending, MayGoOn, AsksFor, KeepsLock, KeptLock, ToldOfGrant, TookNothingBack, HoldsAsTold, ReadsAsTold, WritesAsTold};

use lock_rules::laws;

/// When a session holds a lock as told. It begins with the answer that grants the lock, or, after a wait, with the poll
/// that is answered Clear, the withdrawal that is refused with NotWaiting, or any other answer that tells of the grant
/// (`ToldOfGrant`), unless the session took its request back meanwhile or the call that tells gives the lock back. It
/// lasts past each answer that gave nothing of the resource back, and while a call is pending that gives nothing of it
/// back. It ends when the session publishes a commit, an abort, a restart or a release of the resource, or enters one
/// directly. The answer of that call doesn't bring it back, except a refusal.
pub fn answers_tell_when_a_lock_is_held()
    ensures granted { (answers : List Answered) (call : Call) (place : ℕ) (r : List ℕ) (k m : Mode) →
        AsksFor call r k → HoldsAsTold (answers ++ answer place call (Granted m) ∷ []) None r m }
    ensures granted_later { (answers between : List Answered) (call : Call) (place later : ℕ) (r : List ℕ) (m : Mode) →
        AsksFor call r m → All (KeptLock r) between → All TookNothingBack between →
        HoldsAsTold (answers ++ answer place call Waiting ∷ (between ++ answer later Poll Clear ∷ [])) None r m }
    ensures granted_meanwhile { (answers between : List Answered) (call : Call) (place later : ℕ) (r : List ℕ) (m : Mode) →
        AsksFor call r m → All (KeptLock r) between → All TookNothingBack between →
        HoldsAsTold (answers ++ answer place call Waiting ∷ (between ++ answer later Withdraw (Refused NotWaiting) ∷ [])) None r m }
    ensures granted_by_next_call { (answers between : List Answered) (call next : Call) (place later : ℕ) (reply : Reply) (r : List ℕ) (m : Mode) →
        AsksFor call r m → All (KeptLock r) between → All TookNothingBack between →
        ToldOfGrant (answer later next reply) → KeptLock r (answer later next reply) →
        HoldsAsTold (answers ++ answer place call Waiting ∷ (between ++ answer later next reply ∷ [])) None r m }
    ensures stays { (answers : List Answered) (x : Answered) (pending : Option Pending) (r : List ℕ) (m : Mode) →
        KeptLock r x → HoldsAsTold answers pending r m → HoldsAsTold (answers ++ x ∷ []) None r m }
    ensures asks_on { (answers : List Answered) (call : Call) (floor : ℕ) (r : List ℕ) (m : Mode) →
        KeepsLock r call → HoldsAsTold answers None r m → HoldsAsTold answers (Some (asks call floor)) r m }
    ensures asked_back { (answers : List Answered) (call : Call) (floor : ℕ) (r : List ℕ) (m : Mode) →
        (KeepsLock r call → ⊥) → HoldsAsTold answers (Some (asks call floor)) r m → ⊥ }
    ensures given_back { (answers : List Answered) (x : Answered) (pending : Option Pending) (r : List ℕ) (m : Mode) →
        (KeptLock r x → ⊥) → HoldsAsTold (answers ++ x ∷ []) pending r m → ⊥ }
    ensures back { (answers : List Answered) (call : Call) (place : ℕ) (why : Why) (r : List ℕ) (m : Mode) →
        HoldsAsTold answers None r m → HoldsAsTold (answers ++ answer place call (Refused why) ∷ []) None r m }
{}

/// A session holds each lock that it holds as told, in that mode or one above it, in the state of any legal history in
/// which its calls are those that it collected, or those and its pending call.
pub fn what_is_told_is_held()
    ensures collected { (history : List Entry) (session : ℕ) (answers : List Answered) (pending : Option Pending) (r : List ℕ) (m : Mode) →
        IsLegal history → calls_of session history ≡ answers → HoldsAsTold answers pending r m →
        HoldsAtLeast (state_of history).table session r m }
    ensures one_more { (history : List Entry) (session : ℕ) (answers : List Answered) (call : Call) (floor place : ℕ) (reply : Reply) (r : List ℕ) (m : Mode) →
        IsLegal history → calls_of session history ≡ answers ++ answer place call reply ∷ [] →
        HoldsAsTold answers (Some (asks call floor)) r m → HoldsAtLeast (state_of history).table session r m }
{
    laws::refusals_keep_the_state();
}

/// An answer tells of a grant (`ToldOfGrant`) exactly if no waiting session and no victim can get it. A session gets such
/// an answer only if it may go on when it calls: it has a transaction, which neither waits nor is doomed (`only`). Each
/// call of such a session is answered so (`each`), except a begin, an abort and a restart, which a waiting session and a
/// victim may make with the same replies. So a session whose request waited learns by its next call, if that is none of the
/// three, whether it still waits, is a victim, or holds the lock.
pub fn answers_tell_who_may_go_on()
    ensures only { (st : State) (session place : ℕ) (call : Call) →
        ToldOfGrant (answer place call (step st session call).reply) → MayGoOn st session }
    ensures each { (st : State) (session place : ℕ) (call : Call) → call ≢ Begin → call ≢ Abort → call ≢ Restart →
        MayGoOn st session → ToldOfGrant (answer place call (step st session call).reply) }
{}

/// For a caller that has one legal history with the calls of two sessions: those that each collected, or those and its
/// pending call, at a place not below its floor. The modes in which both were told that they hold one resource go
/// together. If one session was told that it may write a resource, outright or through an ancestor, the other was not told
/// that it may read or write it.
pub fn one_history_tells_what_goes_together()
    ensures modes { (history : List Entry) (i j : ℕ) (mine theirs : List Answered) (my_pending their_pending : Option Pending) (r : List ℕ) (m k : Mode) →
        IsLegal history → i ≢ j → IsAccountedIn history i mine my_pending → IsAccountedIn history j theirs their_pending →
        HoldsAsTold mine my_pending r m → HoldsAsTold theirs their_pending r k → GoTogether m k }
    ensures access { (history : List Entry) (i j : ℕ) (mine theirs : List Answered) (my_pending their_pending : Option Pending) (x : List ℕ) →
        IsLegal history → i ≢ j → IsAccountedIn history i mine my_pending → IsAccountedIn history j theirs their_pending →
        WritesAsTold mine my_pending x → ReadsAsTold theirs their_pending x ⊎ WritesAsTold theirs their_pending x → ⊥ }
{
    laws::refusals_keep_the_state();
}
