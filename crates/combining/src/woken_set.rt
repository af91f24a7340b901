//! The set of the sessions whose waits passes have ended.

ghost use Rattle.std.specs.Prelude.{◌≡◌, ◌⊎◌, ℕ, ◌+◌, ◌/◌, ◌<◌, ◌≤◌, ◌*◌, ◌↔◌, ◌||◌, ◌==◌, ◌∷◌, ◌++◌, [], if◌then◌else◌, IfOk, length, vec_len, take, replicate, All, Contains};
ghost use Rattle.combining.specs.Woken.{IsOnce, IsEndedFrom};
ghost use Rattle.combining.specs.inner.EndedList.{has_bit, marked};

use sequential::Telling;
use std::alloc::{AllocError as NoMemory, Global};
use std::marker::Model;

/// A set in which `serve`, `perform`, `call` and `resume` tell whose waits the session's passes have ended: a bit for each session.
/// Contracts see it as a list, and for how many sessions it has room. Only `new` takes memory, and what adds or removes nobody looks at
/// no bit.
#[derive(Drop)]
pub struct WokenSet {
    /// A bit for each session from 1 on, by its number less one, in words of 64.
    words: Vec<u64>,
    /// For how many sessions it has room.
    room: u16,
    /// How many sessions are in it.
    count: u16,
}

impl Model for WokenSet {
    ghost use Rattle.combining.specs.Woken.{WokenView};
    ghost use Rattle.combining.specs.inner.EndedList.{ended_view_of, IsCounted};

    ghost Value = { WokenView };

    ghost view = { ended_view_of };

    ghost invariant = { IsCounted };
}

/// Whether bit `k` is set.
fn has(words: &[u64], k: usize) -> bool
    requires { k / 64 < length words.now }
    ensures { result ≡ has_bit words.now k }
{
    (words[k / 64] >> (k % 64)) & 1 == 1
}

/// Sets bit `k`.
fn set(words: &mut Vec<u64>, k: usize)
    requires { k / 64 < vec_len words.old }
    ensures bits { (j : ℕ) → has_bit words.new.items j ≡ (has_bit words.old.items j || (j == k)) }
    ensures len { vec_len words.new ≡ vec_len words.old }
{
    let word = words[k / 64];
    words[k / 64] = word | (1 << (k % 64));
}

/// Clears all bits.
fn clear(words: &mut Vec<u64>)
    ensures items { words.new.items ≡ replicate (vec_len words.old) 0 }
    ensures len { vec_len words.new ≡ vec_len words.old }
{
    for k in 0..words.len() {
        words[k] = 0;
    }
}

/// Writes `number` at index `at` of the list if `test` holds. Returns how many numbers the list then has.
#[inline(always)]
fn write_if(test: bool, list: &mut [u16], at: usize, number: u16) -> usize
    requires { at < length list.old }
    ensures count { result ≡ (if test then at + 1 else at) }
    ensures list { take result list.new ≡ (if test then take at list.old ++ number ∷ [] else take at list.old) }
    ensures len { length list.new ≡ length list.old }
{
    if !test {
        return at;
    }
    list[at] = number;
    at + 1
}

/// Writes the first `sessions` sessions whose bit is set to the front of `list`, from the last to the first. Returns how many they are.
fn write_marked(words: &[u64], sessions: u16, list: &mut [u16]) -> usize
    requires words { sessions ≤ 64 * length words.now }
    requires room { sessions ≤ length list.old }
    ensures count { result ≡ length (marked words.now sessions) }
    ensures list { take result list.new ≡ marked words.now sessions }
    ensures len { length list.new ≡ length list.old }
{
    let mut written = 0;
    let mut left = sessions;
    while left > 0 {
        let number = left;
        left -= 1;
        let is_told = has(words, usize::from(left));
        written = write_if(is_told, list, written, number);
    }
    written
}

impl WokenSet {
    /// Creates an empty set with room for all sessions of an office that was opened for `sessions`. Fails with `NoMemory` if
    /// memory is refused.
    pub fn new(alloc: Global, sessions: u16) -> Result<WokenSet, NoMemory>
        ensures room { IfOk result (λ ended. ended.room ≡ sessions) }
        ensures empty { IfOk result (λ ended. ended.list ≡ []) }
    {
        let words = vec![in alloc; 0u64; (usize::from(sessions) + 63) / 64]?;
        Ok(WokenSet {
            words,
            room: sessions,
            count: 0,
        })
    }

    /// How many sessions the last call has told.
    pub fn count(&self) -> usize
        ensures count { result ≡ length self.now.list }
        ensures few { result ≤ self.now.room }
    {
        usize::from(self.count)
    }

    /// Writes the sessions that the last call has told to the front of `list`, each once, in no particular order. Returns how many they
    /// are. `list` has room for all sessions.
    pub fn write(&self, list: &mut [u16]) -> usize
        requires room { self.now.room ≤ length list.old }
        ensures count { result ≡ length self.now.list }
        ensures list { take result list.new ≡ self.now.list }
        ensures len { length list.new ≡ length list.old }
    {
        write_marked(&self.words, self.room, list)
    }

    /// Removes all sessions.
    #[inline(always)]
    pub(crate) fn remove_all(&mut self)
        ensures { self.new ≡ record self.old { list = [] } }
    {
        if self.count == 0 {
            return;
        }
        clear(&mut self.words);
        self.count = 0;
    }

    /// Adds `session`, if it isn't in the set.
    // out of line, since most calls end no wait
    #[inline(never)]
    fn add(&mut self, session: u16)
        requires some { 1 ≤ session }
        requires within { session ≤ self.old.room }
        ensures room { self.new.room ≡ self.old.room }
        ensures members { (u : ℕ) → Contains self.new.list u ↔ (Contains self.old.list u ⊎ (u ≡ session)) }
    {
        let place = usize::from(session) - 1;
        if has(&self.words, place) {
            return;
        }
        set(&mut self.words, place);
        self.count += 1;
    }

    /// Adds these sessions, each if it isn't in the set.
    #[inline(always)]
    fn add_all(&mut self, sessions: &[u16])
        requires within { All (λ u. (1 ≤ u) × (u ≤ self.old.room)) sessions.now }
        ensures room { self.new.room ≡ self.old.room }
        ensures members { (u : ℕ) → Contains self.new.list u ↔ (Contains self.old.list u ⊎ Contains sessions.now u) }
        ensures once { IsOnce self.new.list }
    {
        for session in sessions {
            self.add(*session);
        }
        // shows that no session is in the list twice
        let _count = self.count;
    }

    /// Adds the sessions whose wait the last `served` calls have ended, by the object that served them. Adds none if it served
    /// none.
    #[inline(always)]
    pub(crate) fn add_ended<O: Telling>(&mut self, object: &O, served: u32)
        requires tells { 0 < served → (from : ℕ) × O.tells_from object.now from }
        requires within { O.sessions object.now ≤ self.old.room }
        ensures room { self.new.room ≡ self.old.room }
        ensures members { (from u : ℕ) → (0 < served → O.tells_from object.now from) → length (O.history object.now) ≡ from + served
            → Contains self.new.list u ↔ (Contains self.old.list u ⊎ IsEndedFrom O.ends (O.sessions object.now) (O.history object.now) from u) }
        ensures once { IsOnce self.old.list → IsOnce self.new.list }
    {
        if served > 0 {
            self.add_all(object.ended());
        }
    }
}
