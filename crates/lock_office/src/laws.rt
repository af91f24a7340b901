//! What the contracts of this crate imply together. A law is the contract of a function that does nothing.
//!
//! The history of calls is that of the office's programs laid end to end (`flat_history`). `IsRuled s` says that the rule of the board
//! holds in state `s`, as `atomic_table` promises it of the running board between any two atomic steps.

ghost use Rattle.std.specs.Prelude.{◌≡◌, ◌≢◌, ◌⊎◌, ◌↔◌, ℕ, ◌+◌, ◌<◌, ◌≤◌, true, List, [], ◌∷◌, ◌++◌, length, Option, Some, None, Contains, slice_get, slice_index};
ghost use Rattle.std.specs.Global.{Box};
ghost use Rattle.lock_modes.specs.declared.Mode.{Mode};
ghost use Rattle.lock_rules.specs.declared.calls.Call.{Call};
ghost use Rattle.lock_rules.specs.declared.calls.Reply.TheVariants.{Waiting};
ghost use Rattle.lock_rules.specs.Entries.{Answered};
ghost use Rattle.lock_rules.specs.Legal.{state_of};
ghost use Rattle.lock_rules.specs.Laws.{HoldsAtLeast, GoTogether};
ghost use Rattle.lock_programs.specs.declared.program.Program.{Program};
ghost use Rattle.lock_programs.specs.Answers.{program_form};
ghost use Rattle.programs.specs.Laws.{IsBefore};
ghost use Rattle.publication.specs.Views.{BoardView, answer, asks};
ghost use Rattle.publication.specs.BoardHistory.{new_board};
ghost use Rattle.publication.specs.Boards.{HasCallsOf};
ghost use Rattle.publication.specs.Collected.{HasCollected};
ghost use Rattle.lock_office.specs.by_calls.HoldsAsTold.{HoldsAsTold as HoldsAsToldByCalls};
ghost use Rattle.lock_office.specs.by_calls.WakeUps.{WasToldToWait};
ghost use Rattle.lock_office.specs.by_calls.Ended.{AreWakesTold};
ghost use Rattle.lock_office.specs.ProgramBoards.{ProgramsView, ProgramEntry, AnsweredProgram, Pending, TicketView, Load, BoardState, IsHome, IsLegal, IsRuled, IsRun, history_of, flat_history, calls_answered};
ghost use Rattle.lock_office.specs.Closed.{IsClosed, IsOneHistory};
ghost use Rattle.lock_office.specs.HoldsAsTold.{KeepsLock, KeptLock, HoldsAsTold, ReadsAsTold, WritesAsTold, ToldModesGoTogether, IsToldExclusive, IsToldAccessCompatible};
ghost use Rattle.lock_office.specs.Ended.{AreToldBy, places_of_calls};
ghost use Rattle.lock_office.specs.WakeUps.{HasEndedWait, WaitsOrEnded, HaveTold};
ghost use Rattle.lock_office.specs.InTime.{DoProgramsRespectTime};

use combining::laws::closed_offices_have_one_history as one_history_of_any_object;
use lock_desk::Book;
use lock_rules::laws;
use programs::Programs;
use programs::laws::{
    programs_stand_side_by_side, programs_stop_at_a_cause,
    sessions_make_the_calls_of_their_programs,
};
use publication::laws::{boards_open_with_an_empty_history, each_place_is_entered_once};
use sequential::laws::calls_are_in_order;

/// Whatever programs the threads made, and however their atomic steps interleaved, the history of a closed office is sequential, that
/// of the programs and that of their calls. In the history of calls every reply is the one that the sequential lock manager gives at its
/// place. No two transactions ever held one resource in modes that conflict in both orders, or had incompatible access to a resource,
/// directly or through an ancestor. No waits formed a circle. The calls of each program stand side by side in it. Each session's calls
/// in it are those of the programs that it collected answers to, each once, in order, up to where each program stopped.
pub fn closed_offices_have_one_history()
    ensures { (office : BoardView) (sessions : List TicketView) (programs : ProgramsView) → IsClosed office sessions programs → IsOneHistory sessions programs.history }
{
    one_history_of_any_object::<Programs<Book>>();
    programs_stand_side_by_side::<Book>();
    programs_stop_at_a_cause::<Book>();
    sessions_make_the_calls_of_their_programs::<Book>();
    calls_are_in_order::<Book>();
}

/// When a session that makes programs holds a lock as told. Without a pending program it does so exactly if it does by the replies to
/// the calls of its programs (`told_laws::answers_tell_when_a_lock_is_held` says when that is). It lasts past each program of which no
/// call gave the resource back, and while a program is pending of which no call may. It ends when the session publishes, or performs,
/// any other program.
pub fn what_is_told_begins_and_ends()
    ensures by_calls { (answers : List AnsweredProgram) (r : List ℕ) (m : Mode) →
        HoldsAsTold answers None r m ↔ HoldsAsToldByCalls (calls_answered answers) None r m }
    ensures stays { (answers : List AnsweredProgram) (a : AnsweredProgram) (pending : Option Pending) (r : List ℕ) (m : Mode) →
        KeptLock r a → HoldsAsTold answers pending r m → HoldsAsTold (answers ++ a ∷ []) None r m }
    ensures keeps { (a : AnsweredProgram) (r : List ℕ) → KeepsLock r a.call → KeptLock r a }
    ensures asks_on { (answers : List AnsweredProgram) (program : Program) (floor : ℕ) (r : List ℕ) (m : Mode) →
        KeepsLock r program → HoldsAsTold answers None r m → HoldsAsTold answers (Some (asks program floor)) r m }
    ensures asked_back { (answers : List AnsweredProgram) (program : Program) (floor : ℕ) (r : List ℕ) (m : Mode) →
        (KeepsLock r program → ⊥) → HoldsAsTold answers (Some (asks program floor)) r m → ⊥ }
{}

/// After a `hear`, the locks that the two sessions were told they hold are compatible, in at least one order. `Office::hear` says that
/// one legal history then has the programs of both: those that each collected answers to, or those and its pending one. If one was told
/// that it may write a resource, outright or through an ancestor, the other was not told that it may read or write it.
pub fn told_locks_go_together()
    ensures modes { (history : List ProgramEntry) (session other : TicketView) (r : List ℕ) (m k : Mode) →
        IsLegal history → session.number ≢ other.number → HasCallsOf history session → HasCallsOf history other →
        HoldsAsTold session.collected session.pending r m → HoldsAsTold other.collected other.pending r k → GoTogether m k }
    ensures access { (history : List ProgramEntry) (session other : TicketView) (x : List ℕ) →
        IsLegal history → session.number ≢ other.number → HasCallsOf history session → HasCallsOf history other →
        WritesAsTold session.collected session.pending x →
        ReadsAsTold other.collected other.pending x ⊎ WritesAsTold other.collected other.pending x → ⊥ }
{
    laws::refusals_keep_the_state();
}

/// Mutual exclusion between any two atomic steps, whatever programs are posted, opened or served at that moment. No two sessions of a
/// board were told that they hold one resource in modes that conflict in both orders. If a session was told that it may write a
/// resource, outright or through an ancestor, no other was told that it may read or write it. A lock no longer counts from the step on
/// that publishes a program of which a call may give it back, or enters one directly. What counts is held in the state of the history
/// of calls, in the mode told or one above it (`held`).
pub fn sessions_are_told_what_goes_together()
    ensures modes { (s : BoardState) → IsRuled s → ToldModesGoTogether s }
    ensures exclusive { (s : BoardState) → IsRuled s → IsToldExclusive s }
    ensures access { (s : BoardState) → IsRuled s → IsToldAccessCompatible s }
    ensures held { (s : BoardState) (i : ℕ) (answers : List AnsweredProgram) (pending : Option Pending) (r : List ℕ) (m : Mode) →
        IsRuled s → HasCollected s i answers pending → HoldsAsTold answers pending r m →
        HoldsAtLeast (state_of (flat_history (history_of s))).table i r m }
{
    laws::refusals_keep_the_state();
}

/// Why a session that waits may sleep until a pass tells it. A call that tells (`serve`, `perform`, `call`, `resume`, each
/// with a list of whom to tell) tells each session whose wait was ended by a call of a program that the call's passes have entered, wherever in the
/// program that call stands: also one whose request came to wait in the same pass, and also if memory was refused. A told session that
/// has made no call since its wait ended learns by its next poll how it has ended: `Clear` or `Deadlock`, whatever others call in between.
pub fn no_wake_up_is_lost()
    ensures { (sessions : ℕ) (history : List ProgramEntry) (places list : List ℕ) → AreToldBy sessions history places list →
        AreWakesTold sessions (flat_history history) (places_of_calls history places) list }
{
    laws::ended_waits_are_told_by_polls();
}

/// Who waits has a waiting request, or a session has entered the program of which a call ended its wait, in any state that a run of a board
/// from its opening reaches, whatever programs are published, opened or served at that moment. This is said of a session whose last call
/// was answered Waiting, whether or not it has collected the answer (clause `told_to_wait` says when it has). If calls of the session that
/// entered the program have told of its place (`HaveTold`), one of them has listed the session that waited (`listed`). A call that tells
/// nobody has told of no place.
pub fn ended_waits_are_listed()
    ensures waits_or_ended { (n : ℕ) (load : Box Load) (s : BoardState) (u : ℕ) → IsHome [] (n + 1) load.value → load.value.pieces.items ≡ [] →
        IsRun (new_board n load) s → (wait : WasToldToWait (flat_history (history_of s)) u) → WaitsOrEnded s (length wait.front) u }
    ensures listed { (n : ℕ) (s : BoardState) (since u k index : ℕ) (places list : List ℕ) → (end : HasEndedWait s since u k index) → 1 ≤ u → u ≤ n →
        HaveTold n (history_of s) places list → Contains places (slice_index end.places index) → Contains list u }
    ensures told_to_wait { (s : BoardState) (u : ℕ) (answers : List AnsweredProgram) (place : ℕ) (before : List Answered) (call : Call) → IsRuled s →
        HasCollected s u answers None → calls_answered answers ≡ before ++ answer place call Waiting ∷ [] → WasToldToWait (flat_history (history_of s)) u }
{
    boards_open_with_an_empty_history::<Programs<Book>>();
    each_place_is_entered_once::<Programs<Book>>();
}

/// The order of the history of calls keeps real time, program by program. In a run, a program whose answer any session had collected in
/// state `s` stands wholly before each program that a session publishes, or performs, after `s`, by whichever session, whether or not
/// that one has heard of it, and whether or not its answer is collected. And each program that a session knew of when it published one
/// of its own, at a place below the floor of that one, stands wholly before it (`known`).
pub fn programs_stand_in_the_order_of_time()
    ensures in_time { (s t : BoardState) → IsRuled s → IsRun s t → DoProgramsRespectTime s t }
    ensures known { (history : List ProgramEntry) (earlier floor place : ℕ) (x y : ProgramEntry) → IsLegal history → earlier < floor → floor ≤ place →
        slice_get history earlier ≡ Some x → slice_get history place ≡ Some y → IsBefore program_form x y }
{}
