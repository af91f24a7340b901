//! What the place means that is told for a wait, and that the rows of a state tell its waits. A law is the contract of a function with an
//! empty body; another crate cites it by calling the function.

ghost use Rattle.std.specs.Prelude.{◌≡◌, List, ℕ, All};
ghost use Rattle.lock_rules.specs.Entries.{Entry as EntryValue};
ghost use Rattle.lock_rules.specs.Legal.{IsLegal, state_of};
ghost use Rattle.lock_rules.specs.Listing.{listing_of};
ghost use Rattle.sequential.specs.Histories.{IsEntryWithin};
ghost use Rattle.lock_report.specs.Blocking.{first_waits, rows_of_waits, waits_among};
ghost use Rattle.history_commands.specs.Showing.{opens_of, waits_of};
ghost use Rattle.history_commands.specs.Waits.{waits_told};
ghost use Rattle.history_commands.specs.Since.{ArePlacesTold};

/// The place that is told for a wait is that of the call with whose request the session waits: there its call for a lock or a
/// conversion was answered Waiting, in front of it the session had no request, and in each state behind it the request that waits
/// at the end waited already.
pub fn waits_are_told_since_their_requests()
    ensures { (n : ℕ) (history : List EntryValue) → IsLegal history → ArePlacesTold n history }
{}

/// Who waits for whom follows from the open transactions, locks and requests of a state, and so do the rows of waits: `show --state` finds the
/// state's waits in the rows that `show --csv` writes, and takes these.
pub fn waits_follow_from_locks_and_requests()
    ensures waits { (n : ℕ) (history : List EntryValue) → All (IsEntryWithin n) history → waits_among n (opens_of n (state_of history)) (listing_of (state_of history)) ≡ waits_of n (state_of history) }
    ensures rows { (n : ℕ) (history : List EntryValue) → All (IsEntryWithin n) history → rows_of_waits n (opens_of n (state_of history)) (listing_of (state_of history)) ≡ first_waits (waits_told n (state_of history) history) }
{}
