//! Laws on what a listing of the lock table tells.

ghost use Rattle.std.specs.Prelude.{◌≡◌, ℕ, List, [], ◌∷◌};
ghost use Rattle.lock_rules.specs.Entries.{Entry as EntryValue};
ghost use Rattle.lock_rules.specs.Legal.{state_of};
ghost use Rattle.lock_laws.specs.Listing.{CanGrant, AreAsManyListed, AreTheSameListed, granted_as_listed};
ghost use Rattle.lock_laws.specs.Examples.{update_behind_reader, conversion_behind_reader};

/// From the listing of a state, the requests are found that the abort of a session would grant: on each resource that it holds, the
/// front of the queue that fits once its lock is gone. In every state that calls of sessions 1 to n lead to, and for every session
/// that has a transaction and doesn't wait, as the root of a jam does not, they are as many as the waits that end when the
/// session aborts (`many`). They are of the sessions whose waits end, each of them once (`same`).
pub fn aborts_grant_what_the_listing_says()
    ensures many { (n : ℕ) (history : List EntryValue) (s : ℕ) → CanGrant n history s → AreAsManyListed n history s }
    ensures same { (n : ℕ) (history : List EntryValue) (s : ℕ) → CanGrant n history s → AreTheSameListed n history s }
{}

/// Histories worked by hand. A reader and an update wait for a writer, and its abort would grant both. A conversion and a reader behind
/// it wait for a reader, and its abort would grant the conversion alone.
pub fn examples_of_listings()
    ensures both { granted_as_listed 1 (state_of update_behind_reader) ≡ 2 ∷ 3 ∷ [] }
    ensures front { granted_as_listed 1 (state_of conversion_behind_reader) ≡ 2 ∷ [] }
{}
