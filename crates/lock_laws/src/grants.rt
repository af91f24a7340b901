//! Laws on the order of grants: which of two holders' modes is compatible with the other.

ghost use Rattle.std.specs.Prelude.{List};
ghost use Rattle.lock_modes.specs.declared.Mode.TheVariants.{S, U};
ghost use Rattle.lock_rules.specs.Entries.{Entry as EntryValue};
ghost use Rattle.lock_rules.specs.Examples.{database};
ghost use Rattle.lock_laws.specs.Examples.{reader_behind_update};
ghost use Rattle.lock_laws.specs.Grants.{IsGrantedAt, DoLaterGrantsFit, DoGrantsOfOneEntryGoTogether, AreGrantsAtOnePlace, AreHoldersGranted};

/// Whoever holds a resource was granted its mode at one place of the history (`granted`, `once`). Of two sessions that hold
/// it, the one that was granted its mode at the later place has a mode that is compatible, as the mode asked, with the other's
/// mode as the mode granted (`later`). If one entry granted both, by a promotion, their modes are compatible in at least one
/// order (`same`).
pub fn later_grants_are_compatible_with_earlier_ones()
    ensures granted { (history : List EntryValue) → AreHoldersGranted history }
    ensures once { (history : List EntryValue) → AreGrantsAtOnePlace history }
    ensures later { (history : List EntryValue) → DoLaterGrantsFit history }
    ensures same { (history : List EntryValue) → DoGrantsOfOneEntryGoTogether history }
{}

/// A history worked by hand: at the place 3, counted from 0, reader 1 is granted S, and at the place 4 session 2 is granted U
/// beside it. Reader 3, who comes after them, waits.
pub fn examples_of_grants()
    ensures first { IsGrantedAt reader_behind_update 3 1 (database 1) S }
    ensures later { IsGrantedAt reader_behind_update 4 2 (database 1) U }
{}
