//! Who is told whose waits a session's passes have ended, and what a call weighs in them.

use crate::woken_set::WokenSet;
use sequential::{Batching, Telling};

/// Who is told whose waits a session's passes have ended: a list ([`WokenSet`]), or [`Nobody`], which costs nothing. It also says what a call
/// weighs, which is nothing for these two.
pub trait Listener<O: Batching> {
    ghost use Rattle.std.specs.Prelude.{◌≡◌, ◌⊎◌, ℕ, ◌+◌, ◌<◌, ◌≤◌, ◌↔◌, Option, List, [], length, Contains};
    ghost use Rattle.sequential.specs.declared.entry.Entry.{Entry};
    ghost use Rattle.combining.specs.Woken.{HasRoom, IsOnce, IsEndedFrom};

    // The sessions that it was told of since it was cleared.
    ghost list: { Self → List ℕ };

    // For how many sessions it has room; none if it needs no room.
    ghost room: { Self → Option ℕ };

    // The waits whose end it is told: this entry, behind this front of the history, has ended the wait of this session.
    ghost ends: { List (Entry O.Call O.Reply) → Entry O.Call O.Reply → ℕ → Type 0 };

    // What it has noted is true of this history. Nothing is asked of who notes nothing.
    ghost notes: { Self → List (Entry O.Call O.Reply) → Type 0 };

    // The weight of this call of this session, behind this history.
    ghost weight: { List (Entry O.Call O.Reply) → ℕ → O.Call → ℕ };

    /// The weight of a call of `session` that `object` is to serve.
    fn weigh(object: &O, session: u16, call: &O::Call) -> u16
        requires some { 1 ≤ session }
        requires few { session ≤ O.sessions object.now }
        ensures { result ≡ weight (O.history object.now) session call.now };

    /// Forgets all sessions.
    fn clear(&mut self)
        ensures none { list self.new ≡ [] }
        ensures room { room self.new ≡ room self.old }
        ensures notes { (history : _) → notes self.old history → notes self.new history };

    /// Adds the sessions whose wait the last `served` calls have ended, by the object that served them, each if it was not added
    /// before. What it notes of the object's history, it notes anew.
    fn add(&mut self, object: &O, served: u32)
        requires tells { 0 < served → (from : ℕ) × O.tells_from object.now from }
        requires room { HasRoom (room self.old) (O.sessions object.now) }
        ensures members { (from u : ℕ) → (0 < served → O.tells_from object.now from) → length (O.history object.now) ≡ from + served
            → Contains (list self.new) u ↔ (Contains (list self.old) u ⊎ IsEndedFrom ends (O.sessions object.now) (O.history object.now) from u) }
        ensures once { IsOnce (list self.old) → IsOnce (list self.new) }
        ensures room { room self.new ≡ room self.old }
        ensures notes { notes self.new (O.history object.now) };
}

/// Nobody is told anything.
#[derive(Clone, Copy, Debug)]
pub struct Nobody;

impl<O: Batching> Listener<O> for Nobody {
    ghost use Rattle.std.specs.Prelude.{[], None};

    ghost list = { λ _. [] };

    ghost room = { λ _. None };

    ghost ends = { λ _ _ _. ⊥ };

    ghost notes = { λ _ _. Unit };

    ghost weight = { λ _ _ _. 0 };

    #[inline(always)]
    fn weigh(_object: &O, _session: u16, _call: &O::Call) -> u16 {
        0
    }

    #[inline(always)]
    fn clear(&mut self) {}

    #[inline(always)]
    fn add(&mut self, _object: &O, _served: u32) {}
}

impl<O: Telling> Listener<O> for WokenSet {
    ghost use Rattle.std.specs.Prelude.{Some};

    ghost list = { λ ended. ended.list };

    ghost room = { λ ended. Some ended.room };

    ghost ends = { O.ends };

    ghost notes = { λ _ _. Unit };

    ghost weight = { λ _ _ _. 0 };

    #[inline(always)]
    fn weigh(_object: &O, _session: u16, _call: &O::Call) -> u16 {
        0
    }

    #[inline(always)]
    fn clear(&mut self) {
        self.remove_all();
    }

    #[inline(always)]
    fn add(&mut self, object: &O, served: u32) {
        self.add_ended(object, served);
    }
}
