//! What the definitions of this crate say, as laws. A law is the contract of a function that does nothing.

ghost use Rattle.std.specs.Prelude.{◌≡◌, ◌==◌, if◌then◌else◌, ◌↔◌, ℕ, List, [], ◌∷◌, ◌++◌, length, Contains};
ghost use Rattle.sequential.specs.declared.entry.Entry.{Entry as EntryValue};
ghost use Rattle.sequential.specs.Histories.{Answered, calls_of, IsEntryOf, ArePlacesRising};

use crate::object::Sequential;

/// The calls of a session are exactly the history's entries of that session, by rising place. One entry more adds one call, at
/// the end, to those of its session alone.
pub fn calls_are_in_order<O: Sequential>()
    ensures entries { (session : ℕ) (history : List (EntryValue O.Call O.Reply)) (a : Answered O.Call O.Reply) →
        Contains (calls_of session history) a ↔ IsEntryOf session history a }
    ensures rising { (session : ℕ) (history : List (EntryValue O.Call O.Reply)) → ArePlacesRising (calls_of session history) }
    ensures one_more { (session : ℕ) (history : List (EntryValue O.Call O.Reply)) (e : EntryValue O.Call O.Reply) →
        calls_of session (history ++ e ∷ []) ≡ calls_of session history
        ++ (if e.session == session then record { place = length history; call = e.call; reply = e.reply } ∷ [] else []) }
{}
