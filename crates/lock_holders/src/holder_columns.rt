//! Several holders of one resource in two columns: session numbers, and beside them mode codes, so that one mask tests
//! a request against all holders. Columns of up to 8 holders take no memory.

ghost use Rattle.std.specs.Prelude.{◌≡◌, ℕ, ◌+◌, ◌<◌, ◌≤◌, ◌&&◌, ◌||◌, ◌==◌, List, [], ◌∷◌, ◌++◌, length, take, drop, insert, remove, set, map, OnOk, OnErr, vec_len, vec_capacity};
ghost use Rattle.smallvec.specs.SmallVec.{small_vec_len, HasRoomFor};
ghost use Rattle.std.specs.List.{list_any};
ghost use Rattle.mode_lanes.specs.Masks.{meets};
ghost use Rattle.waits_for.specs.Pairs.{pairs_of};
ghost use Rattle.lock_holders.specs.SessionModes.{has_session, mode_of, pair_of, with_holder, without, fits_among, holder_blocks, AreOfSessions};
ghost use Rattle.lock_holders.specs.inner.Columns.{side_by_side};
ghost use Rattle.lock_holders.specs.Holders.{IsPlaceOf};
ghost use Rattle.lock_holders.specs.declared.session_mode.SessionMode.{SessionMode as SessionModeValue};

use crate::positions::position_of;
use crate::session_mode::SessionMode;
use crate::session_rank::rank;
use lock_modes::Mode;
use mode_lanes::{any_meets, first_meets};
use smallvec::SmallVec;
use std::alloc::{AllocError, Global};
use std::default::MadeWith;
use std::marker::Model;
use waits_for::Rows;

/// Columns of up to this length are read and shifted one by one, without a call.
pub(crate) const SHORT: usize = 8;

/// Columns longer than this, which is a vector's worth, are searched for a conflict in one pass.
const CHUNK: usize = 16;

/// Where a session is among the holders, or would be inserted.
#[derive(Clone, Copy, Debug, PartialEq, Eq)]
pub enum HolderPlace {
    /// The session is the holder at this index.
    Own(usize),
    /// The session is no holder, and would be inserted at this index.
    Between(usize),
}

/// The holders of one resource, by session number. Both columns have the same length.
///
/// Up to 8 holders are kept inline. More take memory, which is kept when they leave.
#[derive(Drop)]
pub struct Columns {
    /// The session numbers, strictly increasing.
    sessions: SmallVec<u16, 8>,
    /// At index `i`, the code of the mode that the session `sessions[i]` holds.
    codes: SmallVec<u8, 8>,
}

impl Model for Columns {
    ghost use Rattle.lock_holders.specs.Holders.{HolderList};

    ghost Value = { HolderList };

    ghost use Rattle.lock_holders.specs.inner.Columns.{holders_of, AreColumns};

    ghost view = { holders_of };

    ghost invariant = { AreColumns };
}

impl HolderPlace {
    /// Whether the session is a holder.
    pub fn is_own(self) -> bool
        ensures { (s : ℕ) (hs : List SessionModeValue) → IsPlaceOf s hs self → result ≡ has_session s hs }
    {
        match self {
            HolderPlace::Own(_) => true,
            HolderPlace::Between(_) => false,
        }
    }
}

/// Whether a code has a bit of `mask`.
fn conflicts(codes: &[u8], mask: u8) -> bool
    ensures { result ≡ list_any (meets mask) codes.now }
{
    if codes.len() > SHORT {
        any_meets(codes, mask)
    } else {
        codes.iter().any(|code| *code & mask != 0)
    }
}

/// Whether a code at another index than `own` has a bit of `mask`.
fn others_conflict(codes: &[u8], own: usize, mask: u8) -> bool
    requires { own < length codes.now }
    ensures { result ≡ (list_any (meets mask) (take own codes.now) || list_any (meets mask) (drop (own + 1) codes.now)) }
{
    if codes.len() <= CHUNK {
        return conflicts(&codes[..own], mask) || conflicts(&codes[own + 1..], mask);
    }
    match first_meets(codes, mask) {
        Some(at) if at == own => conflicts(&codes[own + 1..], mask),
        Some(_) => true,
        None => false,
    }
}

/// Moves the items from `index` on up by one place, and writes `one` there. Returns the last item, which has no place.
fn shift_up<T: Copy>(items: &mut [T], index: usize, one: T) -> T
    requires { index ≤ length items.old }
    ensures { items.new ++ result ∷ [] ≡ insert items.old index one }
{
    let mut carried = one;
    for at in index..items.len() {
        let here = items[at];
        items[at] = carried;
        carried = here;
    }
    carried
}

/// Removes the item at `index` of a list that ends with `last`, by moving the later items down. `items` has the others.
fn shift_down<T: Copy>(items: &mut [T], index: usize, last: T)
    requires { index ≤ length items.old }
    ensures { items.new ≡ remove (items.old ++ last ∷ []) index }
{
    let mut carried = last;
    let mut at = items.len();
    while index < at {
        at -= 1;
        let here = items[at];
        items[at] = carried;
        carried = here;
    }
}

/// Inserts `one` at `index`. The list must have room.
fn insert_at<T: Copy + Drop + MadeWith<Global>>(list: &mut SmallVec<T, 8>, index: usize, one: T)
    requires index { index ≤ small_vec_len list.old }
    requires room { HasRoomFor list.old 1 }
    ensures items { list.new.items ≡ insert list.old.items index one }
    ensures capacity { list.old.capacity ≤ list.new.capacity }
{
    if index == list.len() {
        list.push_reserved(one);
    } else if list.len() < SHORT {
        let last = shift_up(list.as_mut_slice(), index, one);
        list.push_reserved(last);
    } else {
        // There is room, so it is inserted, and no memory is asked for.
        let _inserted = list.insert(index, one);
    }
}

/// Removes the item at `index`.
fn remove_at<T: Copy + Drop + MadeWith<Global>>(list: &mut SmallVec<T, 8>, index: usize)
    requires index { index < small_vec_len list.old }
    ensures items { list.new.items ≡ remove list.old.items index }
    ensures capacity { list.new.capacity ≡ list.old.capacity }
{
    if index == list.len() - 1 {
        let _last = list.pop();
    } else if list.len() > SHORT {
        let _removed = list.remove(index);
    } else if let Some(last) = list.pop() {
        shift_down(list.as_mut_slice(), index, last);
    }
}

/// Writes `code` at `index`.
fn write_at(codes: &mut SmallVec<u8, 8>, index: usize, code: u8)
    requires index { index < small_vec_len codes.old }
    ensures items { codes.new.items ≡ set codes.old.items index code }
    ensures capacity { codes.new.capacity ≡ codes.old.capacity }
{
    let codes = codes.as_mut_slice();
    codes[index] = code;
}

/// Appends the holders to `list`, which must have room for them.
fn write_list(sessions: &[u16], codes: &[u8], list: &mut Vec<(u16, Mode)>)
    requires long { length codes.now ≡ length sessions.now }
    requires room { vec_len list.old + length sessions.now ≤ vec_capacity list.old }
    ensures items { list.new.items ≡ list.old.items ++ map pair_of (side_by_side sessions.now codes.now) }
{
    for index in 0..sessions.len() {
        let session = sessions[index];
        let code = codes[index];
        list.push_reserved((session, Mode::from_code_or_nl(code)));
    }
}

impl Columns {
    /// No holders.
    pub(crate) fn new(alloc: Global) -> Columns
        ensures { result.items ≡ [] }
    {
        Columns {
            sessions: SmallVec::new(alloc),
            codes: SmallVec::new(alloc),
        }
    }

    /// The number of holders.
    pub(crate) fn len(&self) -> usize
        ensures { result ≡ length self.now.items }
    {
        self.sessions.len()
    }

    /// Reserves room for `more` further holders. The holders are unchanged, also if memory is refused.
    #[inline]
    pub(crate) fn reserve(&mut self, more: usize) -> Result<(), AllocError>
        ensures items { self.new.items ≡ self.old.items }
        ensures capacity { self.old.capacity ≤ self.new.capacity }
        ensures ok { OnOk result (length self.new.items + more ≤ self.new.capacity) }
    {
        let inline = self.inline_room();
        if more <= inline {
            return Ok(());
        }
        self.sessions.reserve(more)?;
        self.codes.reserve(more)
    }

    /// For how many further holders there is room inline, 0 if more than 8 are there.
    #[inline]
    fn inline_room(&self) -> usize
        ensures { length self.now.items + result ≤ self.now.capacity }
    {
        // No capacity is below the inline room or the length. These calls are made for the proof alone.
        let _inline = (self.sessions.capacity(), self.codes.capacity());
        let _long = self.codes.len();
        SHORT.saturating_sub(self.sessions.len())
    }

    /// The place of `session` among the holders.
    pub(crate) fn place_of(&self, session: u16) -> HolderPlace
        ensures { IsPlaceOf session self.now.items result }
    {
        let sessions = self.sessions.as_slice();
        let index = rank(sessions, session);
        if index == sessions.len() {
            return HolderPlace::Between(index);
        }
        let here = sessions[index];
        if here == session {
            HolderPlace::Own(index)
        } else {
            HolderPlace::Between(index)
        }
    }

    /// The mode that `session` holds, if it is a holder.
    #[inline(never)]
    pub(crate) fn mode_of(&self, session: u16) -> Option<Mode>
        ensures { result ≡ mode_of session self.now.items }
    {
        match self.place_of(session) {
            HolderPlace::Own(index) => {
                let codes = self.codes.as_slice();
                Some(Mode::from_code_or_nl(codes[index]))
            }
            HolderPlace::Between(_) => None,
        }
    }

    /// Whether the mode of `asker` is compatible with the modes of all other holders. `place` is the place of
    /// `asker`.
    pub(crate) fn fits(&self, place: HolderPlace, asker: SessionMode) -> bool
        requires place { IsPlaceOf asker.session self.now.items place }
        ensures { result ≡ fits_among asker self.now.items }
    {
        let mask = asker.mode.conflict_mask();
        match place {
            HolderPlace::Own(index) => !others_conflict(self.codes.as_slice(), index, mask),
            HolderPlace::Between(_) => !conflicts(self.codes.as_slice(), mask),
        }
    }

    /// Makes `holder` a holder at `place`, which is its place, or changes the mode that it holds. There must be
    /// room.
    #[inline]
    pub(crate) fn put(&mut self, place: HolderPlace, holder: SessionMode)
        requires place { IsPlaceOf holder.session self.old.items place }
        requires room { length self.old.items < self.old.capacity }
        ensures items { self.new.items ≡ with_holder holder self.old.items }
        ensures len { length self.new.items ≤ length self.old.items + 1 }
        ensures capacity { self.old.capacity ≤ self.new.capacity }
    {
        let code = holder.mode.code();
        match place {
            HolderPlace::Own(index) => write_at(&mut self.codes, index, code),
            HolderPlace::Between(index) => {
                insert_at(&mut self.sessions, index, holder.session);
                insert_at(&mut self.codes, index, code);
            }
        }
    }

    /// Removes `session` from the holders, if it is one.
    pub(crate) fn remove(&mut self, session: u16)
        ensures items { self.new.items ≡ without session self.old.items }
        ensures len { length self.new.items ≤ length self.old.items }
        ensures capacity { self.new.capacity ≡ self.old.capacity }
    {
        if let HolderPlace::Own(index) = self.place_of(session) {
            remove_at(&mut self.sessions, index);
            remove_at(&mut self.codes, index);
        }
    }

    /// Replaces the contents of `list` by the holders, by session number. Leaves `list` unchanged if memory is
    /// refused.
    pub(crate) fn list(&self, list: &mut Vec<(u16, Mode)>) -> Result<(), AllocError>
        ensures ok { OnOk result (list.new.items ≡ map pair_of self.now.items) }
        ensures err { OnErr result (list.new.items ≡ list.old.items) }
    {
        let more = self.sessions.len().saturating_sub(list.len());
        list.reserve(more)?;
        list.clear();
        write_list(self.sessions.as_slice(), self.codes.as_slice(), list);
        Ok(())
    }

    /// The holder at `index`.
    pub(crate) fn holder_at(&self, index: usize) -> SessionMode
        requires { index < length self.now.items }
        ensures { take (index + 1) self.now.items ≡ take index self.now.items ++ result ∷ [] }
    {
        let sessions = self.sessions.as_slice();
        let codes = self.codes.as_slice();
        SessionMode {
            session: sessions[index],
            mode: Mode::from_code_or_nl(codes[index]),
        }
    }

    /// Adds an edge from `session` to each other holder whose mode conflicts with `target`.
    pub(crate) fn write_edges(&self, rows: &mut Rows, session: u16, target: Mode)
        requires some { 1 ≤ session }
        requires within { session ≤ rows.old.sessions }
        requires numbered { AreOfSessions rows.old.sessions self.now.items }
        ensures sessions { rows.new.sessions ≡ rows.old.sessions }
        ensures pairs { (a b : ℕ) → pairs_of rows.new a b
            ≡ (pairs_of rows.old a b || ((a + 1 == session) && holder_blocks session target (b + 1) self.now.items)) }
    {
        let position = position_of(session);
        rows.set_met(
            position,
            self.sessions.as_slice(),
            self.codes.as_slice(),
            target.conflict_mask(),
        );
    }
}
