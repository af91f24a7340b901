//! The list of the sessions whose wait has ended.

ghost use Rattle.std.specs.Prelude.{◌≡◌, ◌≢◌, ℕ, ◌+◌, ◌-◌, ◌<◌, ◌≤◌, ◌↔◌, ◌||◌, ◌&&◌, ◌==◌, not, true, false, if◌then◌else◌, length, Contains, slice_index, slice_index_or, IfOk};
ghost use Rattle.lock_holders.specs.Woken.{is_ended};

use crate::positions::position_of;
use std::alloc::{AllocError, Global};
use std::marker::Model;

/// The sessions whose wait has ended, each at most once. Contracts see which they are, by `is_ended`, not their order.
///
/// All sessions are in one vector, and those whose wait has ended are at its front. So a session is added, found or
/// removed by a few stores, and all are removed by one. Only `new` takes memory.
#[derive(Drop)]
pub struct WokenList {
    /// All sessions, each once: first those whose wait has ended.
    sessions: Vec<u16>,
    /// The index of each session in `sessions`, by position.
    places: Vec<u16>,
    /// For how many sessions a wait has ended.
    count: u16,
}

impl Model for WokenList {
    ghost use Rattle.lock_holders.specs.Woken.{WokenListView};
    ghost use Rattle.lock_holders.specs.inner.Places.{ended_view_of, IsPlaced};

    ghost Value = { WokenListView };

    ghost view = { ended_view_of };

    ghost invariant = { IsPlaced };
}

impl WokenList {
    /// An empty list for sessions 1 to `sessions`. Fails if memory is refused.
    pub fn new(alloc: Global, sessions: u16) -> Result<WokenList, AllocError>
        ensures sized { IfOk result (λ ended. length ended.places ≡ sessions) }
        ensures none { IfOk result (λ ended. ended.count ≡ 0) }
    {
        let mut all = Vec::new(alloc);
        let mut places = Vec::new(alloc);
        for position in 0..sessions {
            all.push(position + 1)?;
            places.push(position)?;
        }
        Ok(WokenList {
            sessions: all,
            places,
            count: 0,
        })
    }

    /// The sessions whose wait has ended.
    pub fn list(&self) -> &[u16]
        ensures waits_ended { (u : ℕ) → Contains result.now u ↔ (is_ended self.now u ≡ true) }
        ensures once { (j k : ℕ) → j < k → k < length result.now → slice_index result.now j ≢ slice_index result.now k }
    {
        &self.sessions[..self.count as usize]
    }

    /// Whether `session` is among them.
    pub fn has(&self, session: u16) -> bool
        requires some { 1 ≤ session }
        requires within { session ≤ length self.now.places }
        ensures { result ≡ is_ended self.now session }
    {
        self.places[position_of(session)] < self.count
    }

    /// Removes all sessions, and returns how many there were.
    pub fn clear(&mut self) -> u16
        ensures count { result ≡ self.old.count }
        ensures few { result ≤ length self.new.places }
        ensures cleared { self.new ≡ record self.old { count = 0 } }
    {
        let count = self.count;
        self.count = 0;
        count
    }

    /// Takes the last `count` sessions up again, if none was added since.
    pub fn restore(&mut self, count: u16)
        requires { count ≤ length self.old.places }
        ensures { self.new ≡ record self.old { count = count } }
    {
        self.count = count;
    }

    /// Exchanges the places of `session` and of the session at `place`.
    fn move_to(&mut self, session: u16, place: u16)
        requires some { 1 ≤ session }
        requires within { session ≤ length self.old.places }
        requires place { place < length self.old.places }
        ensures count { self.new.count ≡ self.old.count }
        ensures sized { length self.new.places ≡ length self.old.places }
        ensures places { let from = slice_index_or self.old.places (session - 1) 0 in
            (p : ℕ) → p < length self.old.places → slice_index_or self.new.places p 0
            ≡ (if p == session - 1 then place else (if slice_index_or self.old.places p 0 == place then from else slice_index_or self.old.places p 0)) }
    {
        let position = position_of(session);
        let from = self.places[position];
        let other = self.sessions[place as usize];
        self.sessions[from as usize] = other;
        self.sessions[place as usize] = session;
        self.places[position_of(other)] = from;
        self.places[position] = place;
    }

    /// Adds `session`, if it isn't among them.
    pub fn add(&mut self, session: u16)
        requires some { 1 ≤ session }
        requires within { session ≤ length self.old.places }
        ensures sized { length self.new.places ≡ length self.old.places }
        ensures waits_ended { (u : ℕ) → is_ended self.new u ≡ (is_ended self.old u || (u == session)) }
    {
        if self.has(session) {
            return;
        }
        let last = self.count;
        self.move_to(session, last);
        self.count += 1;
    }

    /// Removes `session`, if it is among them.
    pub fn remove(&mut self, session: u16)
        requires some { 1 ≤ session }
        requires within { session ≤ length self.old.places }
        ensures sized { length self.new.places ≡ length self.old.places }
        ensures waits_ended { (u : ℕ) → is_ended self.new u ≡ (is_ended self.old u && not (u == session)) }
    {
        if !self.has(session) {
            return;
        }
        let last = self.count - 1;
        self.move_to(session, last);
        self.count -= 1;
    }
}
