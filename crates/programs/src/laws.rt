//! The laws of programs. Each is the contract of a function that does nothing.

ghost use Rattle.std.specs.Prelude.{◌≡◌, ◌<◌, ◌↔◌, ℕ, List, [], ◌∷◌, ◌++◌, Some, slice_get};
ghost use Rattle.sequential.specs.declared.entry.Entry.{Entry as EntryValue};
ghost use Rattle.sequential.specs.Histories.{calls_of};
ghost use Rattle.sequential.specs.EndedWaits.{HasEndedIn};
ghost use Rattle.programs.specs.Flat.{entry, flat, flat_calls, IsLegal};
ghost use Rattle.programs.specs.Answers.{RepliesAgree, AreSame};
ghost use Rattle.programs.specs.Ended.{EndsWait};
ghost use Rattle.programs.specs.Laws.{IsPlaced, IsBefore, GoesOnBehind, StopsAtCause, IsCut};

use crate::form::Programmed;
use sequential::Telling;

/// The calls of the programs of a legal history, laid end to end, are a legal history of the object.
pub fn flat_histories_are_legal<O: Programmed>()
    ensures { (h : List (EntryValue O.Program O.Answer)) → IsLegal O.form O.is_legal h → O.is_legal (flat O.form h) }
{}

/// The calls of a program that were served stand side by side in that history, from the place that the answer tells, and
/// have the replies that it tells. Those of a later program stand behind them.
pub fn programs_stand_side_by_side<O: Programmed>()
    ensures ordered { (h : List (EntryValue O.Program O.Answer)) (i j : ℕ) (e f : EntryValue O.Program O.Answer) → IsLegal O.form O.is_legal h → i < j → slice_get h i ≡ Some e → slice_get h j ≡ Some f → IsBefore O.form e f }
    ensures placed { (h : List (EntryValue O.Program O.Answer)) (i : ℕ) (e : EntryValue O.Program O.Answer) → IsLegal O.form O.is_legal h → slice_get h i ≡ Some e → IsPlaced O.form h e }
{}

/// A program never goes on behind a reply at which the object stops. It stops before its end only at such a reply, or if the answer
/// says that memory was refused.
pub fn programs_stop_at_a_cause<O: Programmed>()
    ensures goes_on { (h : List (EntryValue O.Program O.Answer)) (i : ℕ) (e : EntryValue O.Program O.Answer) → IsLegal O.form O.is_legal h → slice_get h i ≡ Some e → GoesOnBehind O.form e }
    ensures stops { (h : List (EntryValue O.Program O.Answer)) (i : ℕ) (e : EntryValue O.Program O.Answer) → IsLegal O.form O.is_legal h → slice_get h i ≡ Some e → StopsAtCause O.form e }
    ensures cut { (h : List (EntryValue O.Program O.Answer)) (i : ℕ) (e : EntryValue O.Program O.Answer) → IsLegal O.form O.is_legal h → slice_get h i ≡ Some e → IsCut O.form e }
{}

/// The calls of a session in that history are those of its programs, in order, up to where each stopped.
pub fn sessions_make_the_calls_of_their_programs<O: Programmed>()
    ensures { (s : ℕ) (h : List (EntryValue O.Program O.Answer)) → IsLegal O.form O.is_legal h → calls_of s (flat O.form h) ≡ flat_calls O.form (calls_of s h) }
{}

/// Of two legal answers to a program at one place, the first calls have one place, and the replies agree pair by pair: up to the
/// first pair that differs, and up to where one of the two says that memory was refused. If only equal replies of the object agree,
/// the replies are the same up to there.
pub fn programs_are_determined<O: Programmed>()
    ensures first { (h : List (EntryValue O.Program O.Answer)) (s : ℕ) (p : O.Program) (a b : O.Answer) → IsLegal O.form O.is_legal (h ++ entry s p a ∷ []) → IsLegal O.form O.is_legal (h ++ entry s p b ∷ [])
        → (O.form).first a ≡ (O.form).first b }
    ensures replies { (h : List (EntryValue O.Program O.Answer)) (s : ℕ) (p : O.Program) (a b : O.Answer) → IsLegal O.form O.is_legal (h ++ entry s p a ∷ []) → IsLegal O.form O.is_legal (h ++ entry s p b ∷ [])
        → RepliesAgree O.agree ((O.form).calls p) ((O.form).replies p a) ((O.form).replies p b) ((O.form).refused a) ((O.form).refused b) }
    ensures same { ((c : O.Call) (r q : O.Reply) → O.agree c r q → r ≡ q)
        → (h : List (EntryValue O.Program O.Answer)) (s : ℕ) (p : O.Program) (a b : O.Answer) → IsLegal O.form O.is_legal (h ++ entry s p a ∷ []) → IsLegal O.form O.is_legal (h ++ entry s p b ∷ [])
        → AreSame ((O.form).replies p a) ((O.form).replies p b) ((O.form).refused a) ((O.form).refused b) }
{}

/// Each program has a legal answer behind each legal history.
pub fn programs_are_total<O: Programmed>()
    ensures { (h : List (EntryValue O.Program O.Answer)) (s : ℕ) (p : O.Program) → IsLegal O.form O.is_legal h → (a : O.Answer) × IsLegal O.form O.is_legal (h ++ entry s p a ∷ []) }
{}

/// Programs have ended the waits that their calls have ended, and no others.
pub fn programs_end_the_waits_that_their_calls_end<O: Programmed + Telling>()
    ensures { (front programs : List (EntryValue O.Program O.Answer)) (u : ℕ) → HasEndedIn (EndsWait O.form O.ends) front programs u ↔ HasEndedIn O.ends (flat O.form front) (flat O.form programs) u }
{}
