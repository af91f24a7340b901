//! What the board's rule means for the publication list. Each law is the contract of a function that does nothing.
//!
//! `IsRuled s` says that the rule holds in state `s`. `atomic_table` promises that it holds between any two atomic
//! steps of the running board.

ghost use Rattle.std.specs.Prelude.{◌≡◌, ◌≢◌, ◌⊎◌, ℕ, ◌+◌, ◌<◌, ◌≤◌, true, false, None, List, ◌∷◌, ◌++◌, length};
ghost use Rattle.std.specs.Global.{Box};
ghost use Rattle.publication.specs.Words.{END, FREE, OUT, CLOSED, EMPTY};
ghost use Rattle.publication.specs.Rule.{BoardState, word, seat};
ghost use Rattle.publication.specs.List.{IsOn, AreApart, head_of, first_of, behind, without, with_behind, Chain, link, IsUnlinked, IsRuled};
ghost use Rattle.publication.specs.PublicationList.{IsPublicationList, HasRoomForEnd, HasPending, IsUnlinkedNow, WritesHeadAsEnlist, met_from};
ghost use Rattle.publication.specs.BoardHistory.{history_of, new_board};
ghost use Rattle.publication.specs.PublishedRecords.{Published, IsPublished, IsServedFurther, IsPublishedOrCollected, HasListedCall};
ghost use Rattle.publication.specs.Runs.{StepName, IsStep, IsSeatSplit, IsSeatJoin, IsRun};
ghost use Rattle.publication.specs.declared.slot.Load.{Load};

use sequential::Sequential;

/// Between any two atomic steps the state determines the publication list: there is one, and if the end mark is no
/// record's number, only one. Two chains of links from one word on are the same list if the end mark is on neither; that
/// no record is on them twice isn't needed. A board for fewer sessions than the end mark opens with room for it, and no
/// run changes the number of slots.
pub fn a_state_has_one_publication_list<O: Sequential>()
    ensures some { (s : BoardState O O.Call O.Reply) → IsRuled O.Sequential s → (list : List ℕ) × IsPublicationList s list }
    ensures one { (s : BoardState O O.Call O.Reply) (xs ys : List ℕ) → HasRoomForEnd s → IsPublicationList s xs → IsPublicationList s ys → xs ≡ ys }
    ensures chains { (links : ℕ → ℕ) (first : ℕ) (xs ys : List ℕ) →
        (IsOn END xs → ⊥) → (IsOn END ys → ⊥) → Chain links first xs → Chain links first ys → xs ≡ ys }
    ensures opens { (n : ℕ) (load : Box (Load O O.Call O.Reply)) → n + 1 ≤ END → HasRoomForEnd (new_board n load) }
    ensures stays { (s t : BoardState O O.Call O.Reply) → IsRuled O.Sequential s → IsRun O.Sequential s t → length t.homes ≡ length s.homes }
{}

/// A pending call that is listed is found: its record is on the publication list, or it is the one record that the
/// combiner has unlinked and not yet linked again. While the lock word is FREE it is on the list. The record of a pending
/// call that isn't listed is not on the list.
pub fn listed_calls_are_on_the_list<O: Sequential>()
    ensures listed { (s : BoardState O O.Call O.Reply) (list : List ℕ) (j : ℕ) →
        IsRuled O.Sequential s → HasRoomForEnd s → IsPublicationList s list → HasPending s j true → IsOn j list ⊎ IsUnlinkedNow s j }
    ensures unlocked { (s : BoardState O O.Call O.Reply) (list : List ℕ) (j : ℕ) →
        IsRuled O.Sequential s → HasRoomForEnd s → IsPublicationList s list → word s 0 ≡ FREE → HasPending s j true → IsOn j list }
    ensures unlisted { (s : BoardState O O.Call O.Reply) (list : List ℕ) (j : ℕ) →
        IsRuled O.Sequential s → HasRoomForEnd s → IsPublicationList s list → HasPending s j false → IsOn j list → ⊥ }
{}

/// The first record is never taken off the list. To take off or link again the record behind another leaves the first one
/// where it is. While a record is unlinked, the record that was in front of it is on the list, and the link of the
/// unlinked one names what follows there. A step that writes the head word only as `enlist` does leaves the first record
/// the first, or puts its session's record in front of the whole list; a split or join of seats changes nothing. (The rule
/// alone doesn't say how the head word is written: with the first record CLOSED, it could name the second one.)
pub fn the_first_record_is_never_taken_off<O: Sequential>()
    ensures without { (before : ℕ) (list : List ℕ) → first_of (without before list) ≡ first_of list }
    ensures with_behind { (before other : ℕ) (list : List ℕ) → first_of (with_behind before other list) ≡ first_of list }
    ensures unlinked { (s : BoardState O O.Call O.Reply) (list : List ℕ) (k : ℕ) →
        IsRuled O.Sequential s → HasRoomForEnd s → IsPublicationList s list → (seat s k).combiner.has_object ≡ true → (seat s k).listing.off ≢ 0 →
        IsUnlinked (link s) (length s.homes) list (seat s k).listing.off (seat s k).listing.before }
    ensures steps { (name : StepName O.Call O.Reply) (s t : BoardState O O.Call O.Reply) (list later : List ℕ) →
        IsRuled O.Sequential s → IsRuled O.Sequential t → HasRoomForEnd s → IsPublicationList s list → IsPublicationList t later →
        (c : IsStep O.Sequential name s t) → WritesHeadAsEnlist s c.at c.put c.before.0 →
        (first_of later ≡ first_of list) ⊎ (later ≡ c.before.0.number ∷ list) }
    ensures seats { (s t : BoardState O O.Call O.Reply) (list : List ℕ) → IsSeatSplit s t ⊎ IsSeatJoin s t → IsPublicationList s list → IsPublicationList t list }
{}

/// A walk that asks, at each step, for the record behind the one it met last meets the records of its route in order,
/// each once, and then none. The link of a record on the list names the record behind it. The combiner's route is the
/// list without the records in front that were linked since its walk began; if the head word names the route's first
/// record, there are none, and the route is the whole list.
pub fn walks_meet_each_record_once<O: Sequential>()
    ensures behind { (front rest : List ℕ) (q : ℕ) → AreApart (front ++ q ∷ rest) → behind q (front ++ q ∷ rest) ≡ rest }
    ensures met { (route : List ℕ) (steps : ℕ) → AreApart route → length route ≤ steps → met_from (first_of route) steps route ≡ route }
    ensures links { (s : BoardState O O.Call O.Reply) (front rest : List ℕ) (q : ℕ) → IsPublicationList s (front ++ q ∷ rest) → link s q ≡ head_of rest }
    ensures route { (s : BoardState O O.Call O.Reply) (list : List ℕ) (k : ℕ) →
        IsRuled O.Sequential s → HasRoomForEnd s → IsPublicationList s list → (seat s k).combiner.has_object ≡ true →
        (new : List ℕ) × (list ≡ new ++ (seat s k).listing.route) }
    ensures whole { (s : BoardState O O.Call O.Reply) (k : ℕ) →
        IsRuled O.Sequential s → HasRoomForEnd s → (seat s k).combiner.has_object ≡ true → link s 0 ≡ head_of (seat s k).listing.route →
        IsPublicationList s (seat s k).listing.route }
{}

/// The record of a session that has its seat is CLOSED exactly if the session has retired. No call is pending there.
pub fn retired_records_are_closed<O: Sequential>()
    ensures closed { (s : BoardState O O.Call O.Reply) (j : ℕ) →
        IsRuled O.Sequential s → 0 < j → (seat s j).number ≡ j → (seat s j).own.retired ≡ true → word s j ≡ CLOSED }
    ensures retired { (s : BoardState O O.Call O.Reply) (j : ℕ) →
        IsRuled O.Sequential s → 0 < j → (seat s j).number ≡ j → word s j ≡ CLOSED → (seat s j).own.retired ≡ true }
    ensures idle { (s : BoardState O O.Call O.Reply) (j : ℕ) →
        IsRuled O.Sequential s → 0 < j → (seat s j).number ≡ j → word s j ≡ CLOSED → (seat s j).own.pending ≡ None }
{}

/// What the words and slots of the records mean: in each record exactly one thing is published. It is nothing; or a call that
/// waits in its slot (POSTED); or a call that the combiner has opened (BUSY); or the reply to a call, with the place of its entry
/// in the history (SERVED). Each is the session's pending call, and with nothing published it has none.
pub fn records_hold_what_is_published<O: Sequential>()
    ensures some { (s : BoardState O O.Call O.Reply) (j : ℕ) →
        IsRuled O.Sequential s → 0 < j → j < length s.homes → (x : Published O.Call O.Reply) × IsPublished O.Sequential s j x }
    ensures one { (s : BoardState O O.Call O.Reply) (j : ℕ) (x y : Published O.Call O.Reply) →
        IsPublished O.Sequential s j x → IsPublished O.Sequential s j y → x ≡ y }
{}

/// The state word of a record in which nothing is published says whether it is on the publication list. An EMPTY one is, or is
/// the one record that the combiner has unlinked. One that is OUT isn't. Each record on the list is EMPTY, or CLOSED, or has a
/// listed call.
pub fn words_say_what_is_on_the_list<O: Sequential>()
    ensures empty { (s : BoardState O O.Call O.Reply) (list : List ℕ) (j : ℕ) →
        IsRuled O.Sequential s → HasRoomForEnd s → IsPublicationList s list → 0 < j → word s j ≡ EMPTY → IsOn j list ⊎ IsUnlinkedNow s j }
    ensures out { (s : BoardState O O.Call O.Reply) (list : List ℕ) (j : ℕ) →
        IsRuled O.Sequential s → HasRoomForEnd s → IsPublicationList s list → 0 < j → word s j ≡ OUT → IsOn j list ⊎ IsUnlinkedNow s j → ⊥ }
    ensures members { (s : BoardState O O.Call O.Reply) (list : List ℕ) (j : ℕ) →
        IsRuled O.Sequential s → HasRoomForEnd s → IsPublicationList s list → IsOn j list → (word s j ≡ EMPTY) ⊎ ((word s j ≡ CLOSED) ⊎ HasListedCall s j) }
{}

/// As long as a listed call is pending, every walk meets its record: a combiner's route that begins at the first record has it, or
/// the combiner has just unlinked it (`met`). A step of another session leaves the call pending and listed (`stays`). All that it
/// can do to what is published in the record is what a combiner does: open a waiting call, put it back, or answer it at the end
/// of the history (`served`).
pub fn listed_calls_are_met_until_collected<O: Sequential>()
    ensures met { (s : BoardState O O.Call O.Reply) (k j : ℕ) →
        IsRuled O.Sequential s → HasRoomForEnd s → (seat s k).combiner.has_object ≡ true → link s 0 ≡ head_of (seat s k).listing.route →
        HasPending s j true → IsOn j (seat s k).listing.route ⊎ ((seat s k).listing.off ≡ j) }
    ensures stays { (name : StepName O.Call O.Reply) (s t : BoardState O O.Call O.Reply) (j : ℕ) →
        (c : IsStep O.Sequential name s t) → c.id ≢ j → HasPending s j true → HasPending t j true }
    ensures served { (name : StepName O.Call O.Reply) (s t : BoardState O O.Call O.Reply) (j : ℕ) (x y : Published O.Call O.Reply) →
        IsRuled O.Sequential s → IsRuled O.Sequential t → (c : IsStep O.Sequential name s t) → c.id ≢ j → 0 < j → (seat s j).number ≡ j →
        IsPublished O.Sequential s j x → IsPublished O.Sequential t j y → (y ≡ x) ⊎ IsServedFurther (length (history_of O.Sequential s)) x y }
{}

/// What is published in a record goes round: nothing, a waiting call, an opened one, the answer, and nothing again; an opened call
/// may be put back. Each step on a word leaves it or takes it one step further, whichever session makes the step (`steps`). A
/// split or join of seats leaves it (`seats`).
pub fn records_go_round<O: Sequential>()
    ensures steps { (name : StepName O.Call O.Reply) (s t : BoardState O O.Call O.Reply) (j : ℕ) (x y : Published O.Call O.Reply) →
        IsRuled O.Sequential s → IsRuled O.Sequential t → IsStep O.Sequential name s t → 0 < j → (seat s j).number ≡ j →
        IsPublished O.Sequential s j x → IsPublished O.Sequential t j y →
        (y ≡ x) ⊎ (IsServedFurther (length (history_of O.Sequential s)) x y ⊎ IsPublishedOrCollected x y) }
    ensures seats { (s t : BoardState O O.Call O.Reply) (j : ℕ) (x y : Published O.Call O.Reply) →
        IsRuled O.Sequential s → IsRuled O.Sequential t → IsSeatSplit s t ⊎ IsSeatJoin s t → 0 < j → (seat s j).number ≡ j →
        IsPublished O.Sequential s j x → IsPublished O.Sequential t j y → y ≡ x }
{}
