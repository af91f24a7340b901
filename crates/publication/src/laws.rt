//! What the board's rule means for its sessions. Each law is the contract of a function that does nothing.
//!
//! `IsRuled s` says that the rule holds in state `s`. `atomic_table` promises that it holds between any two atomic
//! steps of the running board.

ghost use Rattle.std.specs.Prelude.{◌≡◌, ◌≢◌, ◌⊎◌, ℕ, ◌+◌, List, ◌∷◌, ◌++◌, [], length, map, slice_index, slice_set, Option, Some, None, ◌≤◌, All};
ghost use mathlib.Core.List.{IsPrefix};
ghost use mathlib.Core.Option as opt;
ghost use lib.ListN.{get_elem?};
ghost use Rattle.std.specs.Global.{Box};
ghost use Rattle.atomic_table.specs.Table.{step, Act, Valid, carried_after, stepped};
ghost use Rattle.sequential.specs.declared.entry.Entry.{Entry};
ghost use Rattle.sequential.specs.Histories.{Answered, calls_of};
ghost use Rattle.sequential.specs.Linearizable.{Event, calls_in, IsWellFormed, IsLinearization, IsLinearizable};
ghost use Rattle.publication.specs.Views.{Pending, IsAccountedIn, entry, answer, asks};
ghost use Rattle.publication.specs.Rule.{blank, maker, new_session, BoardState, seat, IsHome};
ghost use Rattle.publication.specs.List.{IsRuled};
ghost use Rattle.publication.specs.StepKinds.{Seated, copy_of, front_copy_of, joined, gathered};
ghost use Rattle.publication.specs.Collected.{HasCollected};
ghost use Rattle.publication.specs.BoardHistory.{new_board, history_of, IsAppended, IsEnteredDirectly, IsAccounted};
ghost use Rattle.publication.specs.Entered.{AreEnteredOnce};
ghost use Rattle.publication.specs.Runs.{StepName, answer_record, enter, kind_of, StepRequires, IsStep, IsSeatSplit, IsSeatJoin, IsRun, calls_made, RespectsRealTime};
ghost use Rattle.publication.specs.Linearizable.{AreEventsOfRun};
ghost use Rattle.publication.specs.Instants.{HasView, AreEventsOf, calls_told, AreFrom};
ghost use Rattle.publication.specs.declared.slot.Load.{Load};
ghost use Rattle.publication.specs.declared.slot.SlotValue.{SlotValue};
ghost use Rattle.publication.specs.declared.view.View.{View};

use sequential::Sequential;

/// Between any two atomic steps the board's state determines the history. The history is legal, and begins with the
/// front that each seat knows. The calls of a session in it are those that the session collected and at most one more,
/// its pending call. Each seat with a number is the
/// seat of that session: what the seat collected and has pending is what the session has (`HasCollected`).
pub fn the_state_says_the_history<O: Sequential>()
    ensures legal { (s : BoardState O O.Call O.Reply) → IsRuled O.Sequential s → O.is_legal (history_of O.Sequential s) }
    ensures known { (s : BoardState O O.Call O.Reply) (k : ℕ) → IsRuled O.Sequential s → IsPrefix (seat s k).front (history_of O.Sequential s) }
    ensures seated { (s : BoardState O O.Call O.Reply) (id : ℕ) (v : View O.Call O.Reply) →
        IsRuled O.Sequential s → get_elem? s.views id ≡ opt.some v → v.number ≢ 0 → HasCollected s v.number v.own.collected v.own.pending }
    ensures accounted { (s : BoardState O O.Call O.Reply) (i : ℕ) (answers : List (Answered O.Call O.Reply)) (pending : Option (Pending O.Call)) →
        IsRuled O.Sequential s → HasCollected s i answers pending → IsAccounted O.Sequential s i answers pending }
{}

/// A board opens with the rule, an empty history, and no session that has collected or published anything. The object has
/// no history yet, and the load is as it has to be at home.
pub fn boards_open_with_an_empty_history<O: Sequential>()
    ensures ruled { (n : ℕ) (load : Box (Load O O.Call O.Reply)) → IsHome O.Sequential [] (n + 1) load.value → load.value.pieces.items ≡ [] → IsRuled O.Sequential (new_board n load) }
    ensures empty { (n : ℕ) (load : Box (Load O O.Call O.Reply)) → IsHome O.Sequential [] (n + 1) load.value → history_of O.Sequential (new_board n load) ≡ [] }
    ensures nobody { (n : ℕ) (load : Box (Load O O.Call O.Reply)) (i : ℕ) (answers : List (Answered O.Call O.Reply)) (pending : Option (Pending O.Call)) →
        HasCollected (new_board n load) i answers pending → ⊥ }
{}

/// Only an answer and a direct entry change the history, each by one entry at its end. An answer appends the pending call
/// of the session whose record it answers. A direct entry appends a call of the session whose number is in the lock word,
/// which has no call pending and then has the answer collected. No other step on a word changes the history, and no split
/// or join of seats.
pub fn only_answers_and_direct_entries_change_the_history<O: Sequential>()
    ensures others { (name : StepName O.Call O.Reply) (s t : BoardState O O.Call O.Reply) →
        name ≢ answer_record → ((call : O.Call) (reply : O.Reply) → name ≢ enter call reply) →
        IsRuled O.Sequential s → IsRuled O.Sequential t → IsStep O.Sequential name s t → history_of O.Sequential t ≡ history_of O.Sequential s }
    ensures answers { (s t : BoardState O O.Call O.Reply) → IsRuled O.Sequential s → IsRuled O.Sequential t → IsStep O.Sequential answer_record s t → (entry : Entry O.Call O.Reply) × IsAppended O.Sequential s t entry }
    ensures entries { (call : O.Call) (reply : O.Reply) (s t : BoardState O O.Call O.Reply) → IsRuled O.Sequential s → IsRuled O.Sequential t → IsStep O.Sequential (enter call reply) s t →
        (session : ℕ) × IsEnteredDirectly O.Sequential s t (entry session call reply) }
    ensures seats { (s t : BoardState O O.Call O.Reply) → IsRuled O.Sequential s → IsRuled O.Sequential t → IsSeatSplit s t ⊎ IsSeatJoin s t → history_of O.Sequential t ≡ history_of O.Sequential s }
{}

/// A step of the table is a step of the model (`IsStep`), whatever word it writes and whatever slots it moves, if what the kind
/// requires holds, and the outcome is as the kind says. This is what each step in `steps.rt` tells (`tells`, `specs/Told.antt`;
/// the other kinds require nothing). That the rule holds afterwards is `Allows` of `atomic_table`,
/// which is proved there, too.
pub fn steps_of_the_table_are_such_steps<O: Sequential>()
    ensures { (name : StepName O.Call O.Reply) (id at first second : ℕ) (m : Seated O O.Call O.Reply) (put : ℕ) (s : BoardState O O.Call O.Reply) (w : View O.Call O.Reply) (a : Act (SlotValue O O.Call O.Reply)) →
        get_elem? s.views id ≡ opt.some m.0 → StepRequires O.Sequential name at m → Valid s.homes m.1 a →
        kind_of O.Sequential name (step (length s.homes) at first second opt.none) m (slice_index s.words at) (w, carried_after m.1 a) →
        IsStep O.Sequential name s (stepped s at put id m.1 w a) }
{}

/// A split or join of seats is one of the model (`IsSeatSplit`, `IsSeatJoin`), if the rule holds before and after, as
/// `atomic_table` demands of each: else a session would be lost. These are all that the code makes (`Split`, `Join` in
/// `step_kinds.rt`): a seat makes a session (`makes`); a copy is made of what a seat knows, or of the front that it knows (`copies`,
/// `fronts`); a seat takes such a copy in (`joins`); the closing seat takes in a session's (`gathers`).
pub fn splits_and_joins_of_the_table_are_such_moves<O: Sequential>()
    ensures makes { (s : BoardState O O.Call O.Reply) (id : ℕ) (v : View O.Call O.Reply) → IsRuled O.Sequential s → get_elem? s.views id ≡ opt.some v →
        IsRuled O.Sequential record { words = s.words; homes = s.homes; views = slice_set s.views id (maker v.slots (v.made + 1)) ++ new_session v.slots (v.made + 1) ∷ [] } →
        IsSeatSplit s record { words = s.words; homes = s.homes; views = slice_set s.views id (maker v.slots (v.made + 1)) ++ new_session v.slots (v.made + 1) ∷ [] } }
    ensures copies { (s : BoardState O O.Call O.Reply) (id : ℕ) (v : View O.Call O.Reply) → get_elem? s.views id ≡ opt.some v →
        IsSeatSplit s record { words = s.words; homes = s.homes; views = slice_set s.views id v ++ copy_of v ∷ [] } }
    ensures fronts { (s : BoardState O O.Call O.Reply) (id : ℕ) (v : View O.Call O.Reply) → get_elem? s.views id ≡ opt.some v →
        IsSeatSplit s record { words = s.words; homes = s.homes; views = slice_set s.views id v ++ front_copy_of v ∷ [] } }
    ensures joins { (s : BoardState O O.Call O.Reply) (id other : ℕ) (v w : View O.Call O.Reply) → IsRuled O.Sequential s →
        get_elem? s.views id ≡ opt.some v → ¬ (other ≡ id) → get_elem? s.views other ≡ opt.some w →
        IsRuled O.Sequential record { words = s.words; homes = s.homes; views = slice_set (slice_set s.views id (joined v w)) other blank } →
        IsSeatJoin s record { words = s.words; homes = s.homes; views = slice_set (slice_set s.views id (joined v w)) other blank } }
    ensures gathers { (s : BoardState O O.Call O.Reply) (id other : ℕ) (v w : View O.Call O.Reply) → IsRuled O.Sequential s →
        get_elem? s.views id ≡ opt.some v → ¬ (other ≡ id) → get_elem? s.views other ≡ opt.some w →
        IsRuled O.Sequential record { words = s.words; homes = s.homes; views = slice_set (slice_set s.views id (gathered v w)) other blank } →
        IsSeatJoin s record { words = s.words; homes = s.homes; views = slice_set (slice_set s.views id (gathered v w)) other blank } }
{}

/// No session is lost in a run: it still has its seat, or was handed in to close the board, and the answers that it had
/// collected begin those that it has collected by then.
pub fn sessions_go_on<O: Sequential>()
    ensures { (s t : BoardState O O.Call O.Reply) → IsRun O.Sequential s t → (i : ℕ) (answers : List (Answered O.Call O.Reply)) (pending : Option (Pending O.Call)) → HasCollected s i answers pending →
        (later : List (Answered O.Call O.Reply)) × (later_pending : Option (Pending O.Call)) × HasCollected t i later later_pending × IsPrefix answers later }
{}

/// The order of the history keeps real time. In a run the history only grows, at its end. A call that a session
/// publishes, or enters directly, after state `s` gets a place behind the whole history of `s`, whether or not its answer
/// is collected. So an answer that any session had collected in `s` has a lower place than each call published or entered
/// directly after `s`, by whichever session, whether or not that one has heard of it.
pub fn calls_stand_in_the_order_of_time<O: Sequential>()
    ensures grows { (s t : BoardState O O.Call O.Reply) → IsRuled O.Sequential s → IsRun O.Sequential s t → IsPrefix (history_of O.Sequential s) (history_of O.Sequential t) }
    ensures behind { (s t : BoardState O O.Call O.Reply) → IsRuled O.Sequential s → IsRun O.Sequential s t → (j : ℕ) (mine later : List (Answered O.Call O.Reply)) (my_pending later_pending : Option (Pending O.Call)) →
        HasCollected s j mine my_pending → HasCollected t j later later_pending → (y : Answered O.Call O.Reply) (before after : List (Answered O.Call O.Reply)) →
        calls_of j (history_of O.Sequential t) ≡ before ++ y ∷ after → calls_made mine my_pending ≤ length before → length (history_of O.Sequential s) ≤ y.place }
    ensures in_time { (s t : BoardState O O.Call O.Reply) → IsRuled O.Sequential s → IsRun O.Sequential s t → RespectsRealTime O.Sequential s t }
{}

/// Each place of the history was entered by exactly one session, once: it answered the call there, as the combiner, or entered one
/// of its own directly. A session's ticket has the places that it entered (`TicketView`: `entered`), in order. So whoever has to
/// do something about each entry once, such as wake whom it concerns, may leave it to the session that entered it.
pub fn each_place_is_entered_once<O: Sequential>()
    ensures { (n : ℕ) (load : Box (Load O O.Call O.Reply)) (s : BoardState O O.Call O.Reply) →
        IsHome O.Sequential [] (n + 1) load.value → load.value.pieces.items ≡ [] → IsRun O.Sequential (new_board n load) s → AreEnteredOnce O.Sequential s }
{}

/// At every instant the calls made so far are linearizable (Herlihy and Wing 1990), of any object. The state has one list of events
/// (`some`, `only`), which its sessions have noted with their moments: to publish a call is its invocation, to take the reply its
/// response, and a direct entry is both. They have of each session the calls that it has collected, which have returned, and the
/// pending one (`calls`). The board's history is a linearization of them (`history`). A board has one slot more than sessions.
pub fn calls_are_linearizable_at_every_instant<O: Sequential>()
    ensures some { (s : BoardState O O.Call O.Reply) → IsRuled O.Sequential s → (events : List (Event O.Call O.Reply)) × AreEventsOf s events }
    ensures only { (s : BoardState O O.Call O.Reply) (events others : List (Event O.Call O.Reply)) → AreEventsOf s events → AreEventsOf s others → events ≡ others }
    ensures well_formed { (n : ℕ) (s : BoardState O O.Call O.Reply) (events : List (Event O.Call O.Reply)) →
        IsRuled O.Sequential s → length s.homes ≡ n + 1 → AreEventsOf s events → IsWellFormed n events }
    ensures calls { (s : BoardState O O.Call O.Reply) (events : List (Event O.Call O.Reply)) (i : ℕ) (answers : List (Answered O.Call O.Reply)) (pending : Option (Pending O.Call)) →
        IsRuled O.Sequential s → AreEventsOf s events → HasCollected s i answers pending → calls_in i events ≡ calls_told answers pending }
    ensures history { (n : ℕ) (s : BoardState O O.Call O.Reply) (events : List (Event O.Call O.Reply)) →
        IsRuled O.Sequential s → length s.homes ≡ n + 1 → AreEventsOf s events → IsLinearization O.Sequential n events (history_of O.Sequential s) }
    ensures linearizable { (n : ℕ) (s : BoardState O O.Call O.Reply) (events : List (Event O.Call O.Reply)) →
        IsRuled O.Sequential s → length s.homes ≡ n + 1 → AreEventsOf s events → IsLinearizable O.Sequential n events }
{}

/// The clock is right. A step on a word changes the view of its seat alone. If the view then has events more, whatever moments it
/// has noted for them, these come behind all events so far, and the moments are how many events there were before each (`noted`).
/// If the view has none more, no event has happened (`none`); nor if seats were split or joined (`seats`). So the order of the
/// events is the order of the steps at which they were noted.
pub fn events_happen_when_they_are_noted<O: Sequential>()
    ensures noted { (s : BoardState O O.Call O.Reply) (at put id : ℕ) (carried : List (ℕ × SlotValue O O.Call O.Reply)) (v w : View O.Call O.Reply) (act : Act (SlotValue O O.Call O.Reply))
        (more : List (ℕ × Event O.Call O.Reply)) (before after : List (Event O.Call O.Reply)) →
        HasView s id v → v.number ≢ 0 → w.number ≡ v.number → w.others.logs ≡ v.others.logs → w.own.log ≡ v.own.log ++ more →
        AreEventsOf s before → AreEventsOf (stepped s at put id carried w act) after → AreFrom (length before) more × (after ≡ before ++ map (λ x. x.1) more) }
    ensures none { (s : BoardState O O.Call O.Reply) (at put id : ℕ) (carried : List (ℕ × SlotValue O O.Call O.Reply)) (v w : View O.Call O.Reply) (act : Act (SlotValue O O.Call O.Reply))
        (before after : List (Event O.Call O.Reply)) → HasView s id v → w.number ≡ v.number → w.others.logs ≡ v.others.logs → w.own.log ≡ v.own.log →
        AreEventsOf s before → AreEventsOf (stepped s at put id carried w act) after → after ≡ before }
    ensures seats { (s t : BoardState O O.Call O.Reply) (before after : List (Event O.Call O.Reply)) → IsRuled O.Sequential s → IsRuled O.Sequential t →
        IsSeatSplit s t ⊎ IsSeatJoin s t → AreEventsOf s before → AreEventsOf t after → after ≡ before }
{}

/// Any object that sessions share through a board is linearizable (Herlihy and Wing 1990). In a run of a board from its opening
/// on, by which time all its sessions are made, take the invocations and the responses of their calls, in the order of time. The
/// board's history at the end of the run is a linearization of these: it is legal; each session has the same calls in it, in
/// order and with the same replies, but that a call which hasn't returned may be there or not; and of two calls of which one
/// returned before the other was made, the one stands before the other.
///
/// A call for which memory was refused hasn't been made.
pub fn boards_are_linearizable<O: Sequential>()
    ensures history { (n : ℕ) (load : Box (Load O O.Call O.Reply)) (t : BoardState O O.Call O.Reply) (events : List (Event O.Call O.Reply)) →
        IsHome O.Sequential [] (n + 1) load.value → load.value.pieces.items ≡ [] → IsRun O.Sequential (new_board n load) t →
        AreEventsOfRun O.Sequential n (new_board n load) t events → IsLinearization O.Sequential n events (history_of O.Sequential t) }
    ensures linearizable { (n : ℕ) (load : Box (Load O O.Call O.Reply)) (t : BoardState O O.Call O.Reply) (events : List (Event O.Call O.Reply)) →
        IsHome O.Sequential [] (n + 1) load.value → load.value.pieces.items ≡ [] → IsRun O.Sequential (new_board n load) t →
        AreEventsOfRun O.Sequential n (new_board n load) t events → IsLinearizable O.Sequential n events }
{}
