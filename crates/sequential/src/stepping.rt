//! An object that answers one call after another.

ghost use Rattle.std.specs.Prelude.{◌≡◌, ℕ, List, ◌++◌, ◌∷◌, [], Bool, IfOk, OnErr};
ghost use Rattle.sequential.specs.declared.entry.Entry.{Entry as EntryValue};

use std::alloc::AllocError as NoMemory;

/// An object that answers the calls of numbered sessions, one after another.
pub trait Stepping: Drop {
    /// What a session may call.
    type Call: Copy;
    /// What it gets back.
    type Reply: Copy;

    // What the object means: its reply to a call of a session behind these entries.
    ghost reply_to: { List (EntryValue Self.Call Self.Reply) → ℕ → Self.Call → Self.Reply };

    // The object is as these entries leave it.
    ghost is_behind: { Self → List (EntryValue Self.Call Self.Reply) → Type 0 };

    // Whether a combiner serves the call ahead of the others of its pass.
    ghost goes_first: { Self.Call → Bool };

    // A call and a reply that stand where there is none, and on which nothing relies.
    ghost any_call: { Self.Call };

    ghost any_reply: { Self.Reply };

    /// Whether a combiner serves the call ahead of the others of its pass.
    fn goes_first(call: &Self::Call) -> bool
        ensures { result ≡ goes_first call.now };

    /// Answers a call of a session. Fails with `NoMemory` if memory is refused; the object is unchanged then.
    fn step(&mut self, session: u16, call: Self::Call) -> Result<Self::Reply, NoMemory>
        ensures reply { (before : List (EntryValue Self.Call Self.Reply)) → is_behind self.old before → IfOk result (λ reply. reply ≡ reply_to before session call) }
        ensures behind { (before : List (EntryValue Self.Call Self.Reply)) → is_behind self.old before
            → IfOk result (λ reply. is_behind self.new (before ++ record { session = session; call = call; reply = reply } ∷ [])) }
        ensures refused { OnErr result (self.new ≡ self.old) };
}
