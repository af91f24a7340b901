//! A sequential object: its sessions, its history, and which histories are legal.

ghost use Rattle.std.specs.Prelude.{◌≡◌, ℕ, ◌≤◌, List, [], ◌∷◌, ◌++◌, length, All};
ghost use Rattle.sequential.specs.declared.entry.Entry.{Entry as EntryValue};
ghost use Rattle.sequential.specs.Histories.{IsEntryWithin};
ghost use Rattle.sequential.specs.Bounds.{Bounds};

use crate::entry::MAX_SESSIONS;

/// An object of one thread, which answers the calls of numbered sessions one after another. Contracts see its history.
///
/// Which histories are legal is what the object means. Four laws go with it: the empty history is legal, a front of a legal
/// history is, each call has a legal reply behind a legal history, and no two that don't agree.
pub trait Sequential: Drop {
    /// What a session may call.
    type Call: Copy;
    /// What it gets back.
    type Reply: Copy;

    // The number of sessions.
    ghost sessions: { Self → ℕ };

    // The calls that the object has answered with their replies, oldest first. Also those that it no longer keeps.
    ghost history: { Self → List (EntryValue Self.Call Self.Reply) };

    // How much of what it has kept in memory the object was made to let go.
    ghost cut: { Self → ℕ };

    // How much it keeps in memory at most: of the lines of its history, and of notes beside it. No call changes it.
    ghost bound: { Self → Bounds };

    // The history is one that the object can have.
    ghost is_legal: { List (EntryValue Self.Call Self.Reply) → Type 0 };

    // Two replies to this call at one place count as the same. For most objects this is equality.
    ghost agree: { Self.Call → Self.Reply → Self.Reply → Type 0 };

    // A call and a reply that stand where there is none, and on which nothing relies.
    ghost any_call: { Self.Call };

    ghost any_reply: { Self.Reply };

    /// The number of sessions, from 1 to `MAX_SESSIONS`.
    fn sessions(&self) -> u16
        ensures sessions { result ≡ sessions self.now }
        ensures some { 1 ≤ result }
        ensures few { result ≤ MAX_SESSIONS };

    /// How many calls the object has answered. Its history is legal, and each entry is of one of its sessions. An object that
    /// has answered none has let go of nothing.
    fn served(&self) -> u64
        ensures count { result ≡ length (history self.now) }
        ensures legal { is_legal (history self.now) }
        ensures within { All (IsEntryWithin (sessions self.now)) (history self.now) }
        ensures whole { history self.now ≡ [] → cut self.now ≡ 0 };

    // The history with no calls is legal.
    ghost empty: { is_legal [] };

    // A front of a legal history is legal.
    ghost fronts: { (front rest : List (EntryValue Self.Call Self.Reply)) → is_legal (front ++ rest) → is_legal front };

    // Each call has a legal reply behind each legal history.
    ghost total: { (front : List (EntryValue Self.Call Self.Reply)) (session : ℕ) (call : Self.Call) → is_legal front →
        (reply : Self.Reply) × is_legal (front ++ record { session = session; call = call; reply = reply } ∷ []) };

    // The reply to a call is determined by the calls before it: any two that are legal there agree.
    ghost determined: { (front : List (EntryValue Self.Call Self.Reply)) (session : ℕ) (call : Self.Call) (reply other : Self.Reply) →
        is_legal (front ++ record { session = session; call = call; reply = reply } ∷ [])
        → is_legal (front ++ record { session = session; call = call; reply = other } ∷ []) → agree call reply other };
}
