//! What holds of every machine, as laws. A law is the contract of a function that does nothing.

ghost use Rattle.std.specs.Prelude.{List, ℕ, Bool, IsTrue};
ghost use mathlib.Core.List.{IsPrefix};
ghost use Rattle.sequential.specs.declared.entry.Entry.{Entry as EntryValue};
ghost use Rattle.flat_combining.specs.Runs.{state_behind, BeginsWith};

use crate::lawful::Lawful;
use crate::machine::Machine;

/// The law of a machine holds behind every history: of the state in which an office is looked at, and of the machine that a closed office
/// gives back.
pub fn machines_keep_their_law<M: Lawful>()
    ensures { (history : List (EntryValue M.Call M.Reply)) → M.holds (state_behind M.Machine history) }
{}

/// What is true behind a first call, whichever session makes it, and is kept by each call, is true behind every history that goes on from
/// one that begins with it: a first call sets what no later call changes.
pub fn first_calls_set_what_stays<M: Machine>()
    ensures { (first : M.Call) (holds : M → Bool) → ((session : ℕ) → IsTrue (holds (M.after M.initial session first)))
        → ((state : M) (session : ℕ) (next : M.Call) → IsTrue (holds state) → IsTrue (holds (M.after state session next)))
        → (front history : List (EntryValue M.Call M.Reply)) → BeginsWith first front → IsPrefix front history → IsTrue (holds (state_behind M.Machine history)) }
{}
