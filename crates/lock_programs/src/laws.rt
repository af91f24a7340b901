//! The laws of programs of the lock table. Each is the contract of a function that does nothing.

ghost use Rattle.std.specs.Prelude.{List, [], ◌∷◌, ◌++◌};
ghost use Rattle.programs.specs.Answers.{AreTold};
ghost use Rattle.lock_rules.specs.Entries.{Entry as EntryValue};
ghost use Rattle.lock_rules.specs.Legal.{IsLegal};
ghost use Rattle.lock_programs.specs.Fits.{Fits};
ghost use Rattle.lock_programs.specs.Answers.{program_form};

/// The last reply of a legal history is one that its call can have.
pub fn replies_fit()
    ensures { (front : List EntryValue) (e : EntryValue) → IsLegal (front ++ e ∷ []) → Fits e.call e.reply }
{}

/// Each run of a program, to its end or to a reply at which it stops, is told by an answer.
pub fn runs_are_told()
    ensures { AreTold program_form Fits }
{}
