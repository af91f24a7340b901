//! The laws of the locking rules. Each is the contract of a function with an empty body; another crate cites a law by
//! calling its function.

ghost use Rattle.std.specs.Prelude.{◌≡◌, ℕ, ◌↔◌, List, [], ◌∷◌, ◌++◌, length, map, Contains, if◌then◌else◌, ◌==◌};
ghost use Rattle.std.specs.List.{range_with_len};
ghost use Rattle.lock_modes.specs.declared.Mode.{Mode as ModeValue};
ghost use Rattle.lock_rules.specs.declared.calls.Call.{Call as CallValue};
ghost use Rattle.lock_rules.specs.Entries.{Entry as EntryValue, Answered};
ghost use Rattle.lock_rules.specs.declared.calls.Reply.TheVariants.{Granted, Waiting, Deadlock, Clear, Refused};
ghost use Rattle.lock_rules.specs.declared.calls.Why.{Why as WhyValue};
ghost use Rattle.lock_rules.specs.declared.calls.Why.TheVariants.{WouldWait};
ghost use Rattle.lock_rules.specs.declared.calls.TheConstants.{MAX_LOCKS, MAX_SESSIONS};
ghost use Rattle.lock_rules.specs.declared.kinds.Op.{Op as OpValue};
ghost use Rattle.lock_rules.specs.declared.kinds.ReplyKind.{ReplyKind as KindValue};
ghost use Rattle.lock_rules.specs.Kinds.{number_of_op, number_of_kind, number_of_why};
ghost use Rattle.lock_rules.specs.State.{State, Table, empty};
ghost use Rattle.lock_rules.specs.Queue.{after_grant};
ghost use Rattle.lock_rules.specs.Step.{step};
ghost use Rattle.lock_rules.specs.Legal.{IsLegal, state_of};
ghost use Rattle.sequential.specs.Batches.{asked_in};
ghost use Rattle.sequential.specs.Histories.{calls_of, IsEntryOf, ArePlacesRising};
ghost use Rattle.lock_rules.specs.Laws.{AreRepliesOfSteps, IsRefusalExact, DoesRefusalKeep, IsGrantOf, DoesPromotionGrantLongest, IsFitExact, AreHoldersCompatible, DoesNobodyWaitNeedlessly, AreLocksUnderParents, AreRequestsUnderParents, AreChildrenHeld, IsAccessCompatible, DoesGrantStand, DoesDoomStand, DoesRequestStand, AreOwnersOpen, AreNumbersDistinct, AreNumbersCounted, AreWaitsExact, HasNoCircle, DoDoomedWaitForNothing, AreVictimsDetermined, AreHoldersListed, AreLocksOnce, IsOneRequestEach, AreLocksBounded};
ghost use Rattle.lock_rules.specs.Effects.{DoesBeginOpen, DoesPollReport, IsLockAnswered, IsConvertAnswered, IsLockOfHeldConvert, IsGrantedHeld, IsConversionHeld, IsTryAnswered, DoesTryLeaveWaits, DoesWithdrawTakeRequest, DoVictimsKeepTheirLocks, DoesDoomPromote, DoesReleaseTakeOneLock, DoesCommitTakeAllLocks, DoesAbortTakeAllLocks};
ghost use Rattle.lock_rules.specs.Refusals.{refusals_of, AreRefusalsMeant, AreOthersAccepted, AreNumbersRising, DoTestsGiveRefusals, AreRefusalsLowest, AreConversionsUnbounded, DoesAbortNeedTransaction, IsClearCommitAccepted};
ghost use Rattle.lock_rules.specs.Ended.{AreEndedListed, DoesNothingEndNone, AreEndedToldByPoll, AreOthersToldAsBefore};
ghost use Rattle.lock_rules.specs.Lawful.{IsLawfulState};
ghost use Rattle.lock_rules.specs.Listing.{DoesListingShow};
ghost use Rattle.lock_rules.specs.Examples.{refusals};

mod examples;

use crate::kinds::{OPS, REFUSALS, REPLY_KINDS};
pub use examples::examples_are_legal;

/// A history is legal exactly if each reply is the one that `step` gives in the state after the entries before it. So
/// every front of a legal history is legal.
pub fn histories_are_legal_by_steps()
    ensures by_steps { (history : List EntryValue) → IsLegal history ↔ AreRepliesOfSteps history }
    ensures fronts { (front rest : List EntryValue) → IsLegal (front ++ rest) → IsLegal front }
    ensures one_more { (history : List EntryValue) (e : EntryValue) →
        IsLegal history → e.reply ≡ (step (state_of history) e.session e.call).reply → IsLegal (history ++ e ∷ []) }
{}

/// The empty history leads to the empty state, and one more entry leads to the state after one more step.
pub fn states_follow_by_steps()
    ensures first { state_of [] ≡ empty }
    ensures one_more { (history : List EntryValue) (e : EntryValue) →
        state_of (history ++ e ∷ []) ≡ (step (state_of history) e.session e.call).state }
{}

/// For every list of calls there is exactly one legal history of these calls in this order.
pub fn histories_are_determined_by_calls()
    ensures some { (calls : List (ℕ × CallValue)) → (history : List EntryValue) × ((asked_in history ≡ calls) × IsLegal history) }
    ensures one { (a b : List EntryValue) → asked_in a ≡ asked_in b → IsLegal a → IsLegal b → a ≡ b }
{}

/// The calls of a session are exactly the history's entries of that session, by rising place.
pub fn calls_are_in_order()
    ensures entries { (session : ℕ) (history : List EntryValue) (a : Answered) →
        Contains (calls_of session history) a ↔ IsEntryOf session history a }
    ensures rising { (session : ℕ) (history : List EntryValue) → ArePlacesRising (calls_of session history) }
    ensures one_more { (session : ℕ) (history : List EntryValue) (e : EntryValue) →
        calls_of session (history ++ e ∷ []) ≡ calls_of session history
        ++ (if e.session == session then record { place = length history; call = e.call; reply = e.reply } ∷ [] else []) }
{}

/// A call is refused exactly if one of its tests fails, with the refusal of the first that fails. A refused call
/// changes nothing.
pub fn refusals_keep_the_state()
    ensures exact { (st : State) → IsRefusalExact st }
    ensures keeps { (st : State) → DoesRefusalKeep st }
{}

/// Each refusal means what `Fails` says of it: a call is refused exactly if one of them fails, with the refusal of the
/// first that does. A request for a resource that the session holds is never refused for too many locks. An abort is
/// refused only if the session has no transaction. A commit is never refused if the session has a transaction, doesn't
/// wait and isn't doomed.
pub fn refusals_mean_what_they_say()
    ensures meant { (history : List EntryValue) → AreRefusalsMeant (state_of history) }
    ensures others { (history : List EntryValue) → AreOthersAccepted (state_of history) }
    ensures conversion { (history : List EntryValue) → AreConversionsUnbounded (state_of history) }
    ensures abort { (history : List EntryValue) → DoesAbortNeedTransaction (state_of history) }
    ensures commit { (history : List EntryValue) → IsClearCommitAccepted (state_of history) }
{}

/// The tests of a call are made in the order of their refusals' numbers: the numbers of the refusals that a call can get
/// rise, and its tests give these refusals one after another. So a call is refused for a reason exactly if, of its tests
/// that fail, that of the reason has the lowest number.
pub fn tests_are_made_by_number()
    ensures rising { (call : CallValue) → AreNumbersRising (refusals_of call) }
    ensures tests { (st : State) → DoTestsGiveRefusals st }
    ensures lowest { (history : List EntryValue) → AreRefusalsLowest (state_of history) }
{}

/// A begin that isn't refused opens a transaction, not doomed, whose number is one more than the count so far. No lock,
/// no request and no other transaction changes.
pub fn begins_open_one_transaction()
    ensures { (st : State) → DoesBeginOpen st }
{}

/// A poll changes nothing. It replies Deadlock exactly if the session's transaction is doomed, Waiting exactly if the
/// session waits and isn't doomed, and Clear exactly if it has a transaction, doesn't wait and isn't doomed.
pub fn polls_tell_how_sessions_stand()
    ensures { (history : List EntryValue) → DoesPollReport (state_of history) }
{}

/// A grant sets one lock of one session, which then waits no more. All other locks stay, and so do the requests of
/// others, in order.
pub fn grants_change_one_lock()
    ensures { (session : ℕ) (resource : List ℕ) (mode : ModeValue) (t : Table) → IsGrantOf session resource mode t (after_grant session resource mode t) }
{}

/// The target of a Lock or Convert that isn't refused is the least mode at or above both the mode held and the mode
/// asked. If the session holds the target already, it is granted and nothing changes. If the target fits, it is granted
/// at once to a holder, and to others if nobody waits for the resource. Any other request waits, conversions before
/// fresh requests.
///
/// A request that begins to wait makes victims, one after another: each is the youngest transaction on a cycle with the
/// asker, until the asker is on no cycle. A Lock on a resource that the session holds does what a Convert does.
pub fn requests_are_granted_or_wait()
    ensures lock { (st : State) → IsLockAnswered st }
    ensures convert { (st : State) → IsConvertAnswered st }
    ensures same { (st : State) → IsLockOfHeldConvert st }
{}

/// If a Lock or Convert replies Granted, at once or because a victim made room, the session holds the resource in that
/// mode.
pub fn granted_locks_are_held()
    ensures lock { (history : List EntryValue) → IsGrantedHeld (state_of history) }
    ensures convert { (history : List EntryValue) → IsConversionHeld (state_of history) }
{}

/// A try that isn't refused does what a Lock does, and is granted. Refused or not, it changes no request and no
/// transaction: nobody begins to wait, is granted what it waits for, or becomes a victim. It is refused with WouldWait
/// exactly if it passes the tests of a Lock, and the session neither holds its target nor is the target free.
pub fn tries_never_wait()
    ensures granted { (st : State) → IsTryAnswered st }
    ensures waits { (st : State) → DoesTryLeaveWaits st }
{}

/// A withdrawal that isn't refused takes the session's waiting request back and promotes its resource. The session keeps
/// its transaction and its locks; each other session is unchanged, or its request for that resource is granted.
pub fn withdrawals_take_one_request()
    ensures { (history : List EntryValue) → DoesWithdrawTakeRequest (state_of history) }
{}

/// A promotion grants exactly the longest front of the queue in which each request fits once those before it are
/// granted.
pub fn promotions_grant_the_longest_front()
    ensures { (t : Table) → DoesPromotionGrantLongest t }
{}

/// The holders of a resource are exactly the sessions that hold it, each with its mode, in order of session number.
pub fn holders_are_listed_by_session()
    ensures { (history : List EntryValue) → AreHoldersListed (state_of history) }
{}

/// The locks of a session are exactly what it holds, and no two of them are on one resource. So a commit and an abort
/// count each lock once.
pub fn locks_stand_once()
    ensures { (history : List EntryValue) → AreLocksOnce (state_of history) }
{}

/// No session has two waiting requests.
pub fn sessions_have_one_request()
    ensures { (history : List EntryValue) → IsOneRequestEach (state_of history) }
{}

/// No session holds more than `MAX_LOCKS` locks, that is 4096, as `limits_are_as_documented` says.
pub fn locks_are_few()
    ensures { (history : List EntryValue) → AreLocksBounded (state_of history) }
{}

/// The greatest number of locks of a session is 4096, and the greatest number of sessions is 1024.
pub fn limits_are_as_documented()
    ensures locks { MAX_LOCKS ≡ 4096 }
    ensures sessions { MAX_SESSIONS ≡ 1024 }
{}

/// A mode fits exactly if it is compatible with the mode of each other session that holds the resource.
pub fn fits_is_compatible_with_others()
    ensures { (history : List EntryValue) → IsFitExact (state_of history) }
{}

/// The modes of two holders of one resource are compatible in at least one order.
pub fn holders_are_compatible()
    ensures { (history : List EntryValue) → AreHoldersCompatible (state_of history) }
{}

/// The first request of a queue never fits.
pub fn nobody_waits_needlessly()
    ensures { (history : List EntryValue) → DoesNobodyWaitNeedlessly (state_of history) }
{}

/// Every lock and every waiting request obeys the parent rule: if the resource has a parent, the same session holds the
/// parent in a mode at or above what the lock's mode, or the request's target, needs of it.
pub fn locks_stand_under_parents()
    ensures locks { (history : List EntryValue) → AreLocksUnderParents (state_of history) }
    ensures requests { (history : List EntryValue) → AreRequestsUnderParents (state_of history) }
{}

/// If a session holds a lock somewhere below a resource, it holds a lock on a child of the resource. So a test of the
/// children finds every lock below.
pub fn children_are_held()
    ensures { (history : List EntryValue) → AreChildrenHeld (state_of history) }
{}

/// No two sessions have incompatible access to a resource, whether or not anybody holds the resource itself. What one
/// session may write, through a lock on the resource or on an ancestor, no other may read or write.
pub fn no_incompatible_access()
    ensures { (history : List EntryValue) → IsAccessCompatible (state_of history) }
{}

/// A release that isn't refused gives back that one lock of that session and promotes the resource. Each other session
/// is unchanged, or its request for the resource is granted; none holds less.
pub fn releases_take_one_lock()
    ensures { (history : List EntryValue) → DoesReleaseTakeOneLock (state_of history) }
{}

/// A commit or an abort that isn't refused ends the session's transaction, takes all its locks and its request, and
/// replies with how many locks it held. What it held or waited for is promoted, one resource after another. Each other
/// session is unchanged, or its request for one of these resources is granted; none holds less.
pub fn ends_take_all_locks()
    ensures commit { (history : List EntryValue) → DoesCommitTakeAllLocks (state_of history) }
    ensures abort { (history : List EntryValue) → DoesAbortTakeAllLocks (state_of history) }
{}

/// A grant stands: whatever others call, a session keeps its lock in the same mode or one above, until it commits,
/// aborts, restarts or releases the resource.
pub fn grants_stand()
    ensures { (front rest : List EntryValue) → DoesGrantStand front rest }
{}

/// A doom stands: whatever others call, a doomed transaction stays open and doomed until it aborts or restarts.
pub fn dooms_stand()
    ensures { (front rest : List EntryValue) → DoesDoomStand front rest }
{}

/// A request stands: the session waits on with the same request until it holds the resource in the target, its
/// transaction becomes a victim, or the session aborts, restarts or takes the request back.
pub fn requests_stand()
    ensures { (front rest : List EntryValue) → DoesRequestStand front rest }
{}

/// Every session that holds a lock or waits has an open transaction. Open transactions have different numbers, none
/// above how many have begun.
pub fn transactions_are_apart()
    ensures owners { (history : List EntryValue) → AreOwnersOpen (state_of history) }
    ensures numbers { (history : List EntryValue) → AreNumbersDistinct (state_of history) }
    ensures counted { (history : List EntryValue) → AreNumbersCounted (state_of history) }
{}

/// A session waits for exactly those other sessions that hold the resource of its request in a mode that conflicts with
/// its target, or that have an earlier request in the queue.
pub fn waits_are_for_holders_and_earlier_requests()
    ensures { (t : Table) → AreWaitsExact t }
{}

/// The waits-for graph has no cycle. So no deadlock outlasts the call that made it.
pub fn no_waits_form_a_circle()
    ensures { (history : List EntryValue) → HasNoCircle (state_of history) }
{}

/// A doomed transaction has no waiting request. So no victim is chosen twice.
pub fn doomed_transactions_wait_for_nothing()
    ensures { (history : List EntryValue) → DoDoomedWaitForNothing (state_of history) }
{}

/// A request that begins to wait has at most one list of victims, and one state after them.
/// `requests_are_granted_or_wait` says that there is one.
pub fn victims_are_determined()
    ensures { (history : List EntryValue) → AreVictimsDetermined (state_of history) }
{}

/// A victim loses its request, keeps its locks and is doomed. What it waited for is promoted: each other session is
/// unchanged, or its request for such a resource is granted.
pub fn victims_keep_their_locks()
    ensures keep { (history : List EntryValue) → DoVictimsKeepTheirLocks (state_of history) }
    ensures promotion { (st : State) → DoesDoomPromote st }
{}

/// The sessions whose wait a call has ended are those, other than its own, that had a waiting request before it and have none
/// after it. A call after which all requests are as before has ended no wait. A session whose wait was ended is told so by a
/// poll: Clear, and it holds what it asked for, or Deadlock. A poll tells every other session but the caller what it would
/// have told it before the call.
pub fn ended_waits_are_told_by_polls()
    ensures listed { (n session : ℕ) (before after : State) → AreEndedListed n session before after }
    ensures none { (st : State) → DoesNothingEndNone st }
    ensures told { (history : List EntryValue) → AreEndedToldByPoll (state_of history) }
    ensures others { (history : List EntryValue) → AreOthersToldAsBefore (state_of history) }
{}

/// The listing of the lock table shows it. Its resources rise in the order of resources, and are those that somebody holds or
/// waits for. Its lines on a resource are that resource's holders by session number, then its queue. A lock is listed exactly
/// if it is held in that mode, and any other line exactly if it is the waiting request of its session, with its kind. Each line
/// has the open transaction of its session.
pub fn listings_show_the_table()
    ensures { (history : List EntryValue) → DoesListingShow (state_of history) }
{}

/// Every state that a history leads to is lawful: all laws of tables and states hold in it, and those of the calls made
/// in it.
pub fn states_are_lawful()
    ensures { (history : List EntryValue) → IsLawfulState (state_of history) }
{}

/// `OPS`, `REPLY_KINDS` and `REFUSALS` have every operation, every kind of replies and every refusal, each once, in the
/// order of their numbers, which go from 1 on.
pub fn kinds_are_listed_once()
    ensures ops { (op : OpValue) → Contains OPS op }
    ensures op_numbers { map number_of_op OPS ≡ range_with_len 1 10 }
    ensures kinds { (kind : KindValue) → Contains REPLY_KINDS kind }
    ensures kind_numbers { map number_of_kind REPLY_KINDS ≡ range_with_len 1 11 }
    ensures refusals { (why : WhyValue) → Contains REFUSALS why }
    ensures refusal_numbers { map number_of_why REFUSALS ≡ range_with_len 1 9 ++ 11 ∷ 12 ∷ [] }
{}
