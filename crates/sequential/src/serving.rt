//! A sequential object that serves calls, one by one.

ghost use Rattle.std.specs.Prelude.{◌≡◌, ◌≤◌, ℕ, List, ◌++◌, ◌∷◌, [], Bool, IfOk, OnErr, length};

use crate::object::Sequential;
use std::alloc::AllocError as NoMemory;

/// A sequential object that serves calls.
pub trait Serving: Sequential {
    // Whether a combiner serves the call ahead of the others of its pass.
    ghost goes_first: { Self.Call → Bool };

    // The object tells what the calls from this place of its history on have brought about, beside their replies. Nothing is
    // asked of an object that tells of nothing.
    ghost tells_from: { Self → ℕ → Type 0 };

    /// Whether a combiner serves the call ahead of the others of its pass, as one that makes room for them.
    fn goes_first(call: &Self::Call) -> bool
        ensures { result ≡ goes_first call.now };

    /// Serves a call of a session, and adds the call with its reply to the history. Fails with `NoMemory` if memory is
    /// refused; the object is unchanged then, and the call may be served again.
    fn serve(&mut self, session: u16, call: Self::Call) -> Result<Self::Reply, NoMemory>
        requires some { 1 ≤ session }
        requires within { session ≤ Self.sessions self.old }
        ensures entry { IfOk result (λ reply. Self.history self.new ≡ Self.history self.old ++ record { session = session; call = call; reply = reply } ∷ []) }
        ensures tells { IfOk result (λ _. tells_from self.new (length (Self.history self.old))) }
        ensures refused { OnErr result (self.new ≡ self.old) }
        ensures sessions { Self.sessions self.new ≡ Self.sessions self.old }
        ensures cut { Self.cut self.new ≡ Self.cut self.old }
        ensures bound { Self.bound self.new ≡ Self.bound self.old };
}
