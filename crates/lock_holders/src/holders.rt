//! The holders of one resource: a single holder by itself, several in two columns.

ghost use Rattle.std.specs.Prelude.{◌≡◌, ℕ, ◌+◌, ◌<◌, ◌≤◌, ◌&&◌, ◌||◌, ◌==◌, true, false, [], ◌∷◌, ◌++◌, length, take, map, OnOk, OnErr};
ghost use Rattle.waits_for.specs.Pairs.{pairs_of};
ghost use Rattle.lock_holders.specs.SessionModes.{has_session, mode_of, pair_of, with_holder, without, fits_among, holder_blocks, AreOfSessions};
ghost use Rattle.lock_holders.specs.Holders.{IsPlaceOf};

use crate::holder_columns::{Columns, HolderPlace};
use crate::positions::position_of;
use crate::session_mode::SessionMode;
use lock_modes::Mode;
use std::alloc::{AllocError, Global};
use std::marker::Model;
use waits_for::Rows;

/// The holders of one resource with their modes, by session number.
///
/// Most resources have one holder at a time, which is kept by itself. When a second one comes, both move to the
/// columns, which take no memory for up to 8 holders. There they stay until all have left.
#[derive(Drop)]
pub struct Holders {
    /// The single holder, if it is kept by itself.
    single: Option<SessionMode>,
    /// The holders if none is kept by itself, else empty. Keeps the memory for more than 8 when it becomes empty.
    columns: Columns,
}

impl Model for Holders {
    ghost use Rattle.lock_holders.specs.Holders.{HolderList};

    ghost Value = { HolderList };

    ghost use Rattle.lock_holders.specs.inner.SingleHolder.{holders_of, IsSingleOrColumns};

    ghost view = { holders_of };

    ghost invariant = { IsSingleOrColumns };
}

/// Adds an edge from `session` to `holder`, if `holder` is another session and its mode conflicts with `target`.
fn write_edge(rows: &mut Rows, session: u16, target: Mode, holder: SessionMode)
    requires some { 1 ≤ session }
    requires within { session ≤ rows.old.sessions }
    requires numbered { AreOfSessions rows.old.sessions (holder ∷ []) }
    ensures sessions { rows.new.sessions ≡ rows.old.sessions }
    ensures pairs { (a b : ℕ) → pairs_of rows.new a b
        ≡ (pairs_of rows.old a b || ((a + 1 == session) && holder_blocks session target (b + 1) (holder ∷ []))) }
{
    if holder.session != session && !Mode::compatible(target, holder.mode) {
        rows.set(position_of(session), position_of(holder.session));
    }
}

/// Replaces the contents of `list` by this holder. Leaves `list` unchanged if memory is refused.
fn list_one(holder: SessionMode, list: &mut Vec<(u16, Mode)>) -> Result<(), AllocError>
    ensures ok { OnOk result (list.new.items ≡ pair_of holder ∷ []) }
    ensures err { OnErr result (list.new.items ≡ list.old.items) }
{
    let more = 1usize.saturating_sub(list.len());
    list.reserve(more)?;
    list.clear();
    list.push_reserved((holder.session, holder.mode));
    Ok(())
}

impl Holders {
    /// No holders.
    pub fn new(alloc: Global) -> Holders
        ensures { result.items ≡ [] }
    {
        Holders {
            single: None,
            columns: Columns::new(alloc),
        }
    }

    /// Makes `holder` the only holder. There must be none before.
    #[inline]
    pub fn set_first(&mut self, holder: SessionMode)
        requires nobody { self.old.items ≡ [] }
        ensures items { self.new.items ≡ holder ∷ [] }
        ensures room { 1 ≤ self.new.capacity }
    {
        self.single = Some(holder);
    }

    /// The number of holders.
    pub fn len(&self) -> usize
        ensures { result ≡ length self.now.items }
    {
        match self.single {
            Some(_) => 1,
            None => self.columns.len(),
        }
    }

    /// Reserves room for `more` further holders. The holders are unchanged, also if memory is refused.
    #[inline]
    pub fn reserve(&mut self, more: usize) -> Result<(), AllocError>
        ensures items { self.new.items ≡ self.old.items }
        ensures capacity { self.old.capacity ≤ self.new.capacity }
        ensures ok { OnOk result (length self.new.items + more ≤ self.new.capacity) }
    {
        if self.single.is_none() {
            return self.columns.reserve(more);
        }
        let Some(all) = more.checked_add(1) else {
            return Err(AllocError);
        };
        self.columns.reserve(all)
    }

    /// The place of `session` among the holders.
    #[inline]
    pub fn place_of(&self, session: u16) -> HolderPlace
        ensures { IsPlaceOf session self.now.items result }
    {
        let Some(holder) = self.single else {
            return self.columns.place_of(session);
        };
        if holder.session == session {
            return HolderPlace::Own(0);
        }
        if holder.session < session {
            HolderPlace::Between(1)
        } else {
            HolderPlace::Between(0)
        }
    }

    /// Whether `session` is a holder.
    pub fn has(&self, session: u16) -> bool
        ensures { result ≡ has_session session self.now.items }
    {
        self.place_of(session).is_own()
    }

    /// The mode that `session` holds, if it is a holder.
    #[inline]
    pub fn mode_of(&self, session: u16) -> Option<Mode>
        ensures { result ≡ mode_of session self.now.items }
    {
        match self.single {
            Some(holder) if holder.session == session => Some(holder.mode),
            Some(_) => None,
            None => self.columns.mode_of(session),
        }
    }

    /// Whether the mode of `asker` is compatible with the modes of all other holders. `place` is the place of
    /// `asker`.
    pub fn fits(&self, place: HolderPlace, asker: SessionMode) -> bool
        requires place { IsPlaceOf asker.session self.now.items place }
        ensures { result ≡ fits_among asker self.now.items }
    {
        match self.single {
            Some(holder) => {
                holder.session == asker.session || Mode::compatible(asker.mode, holder.mode)
            }
            None => self.columns.fits(place, asker),
        }
    }

    /// Makes `holder` a holder at `place`, which is its place, or changes the mode that it holds. There must be
    /// room.
    #[inline]
    pub fn put(&mut self, place: HolderPlace, holder: SessionMode)
        requires place { IsPlaceOf holder.session self.old.items place }
        requires room { length self.old.items < self.old.capacity }
        ensures items { self.new.items ≡ with_holder holder self.old.items }
        ensures len { length self.new.items ≤ length self.old.items + 1 }
        ensures capacity { self.old.capacity ≤ self.new.capacity }
    {
        let Some(first) = self.single else {
            if self.columns.len() == 0 {
                self.single = Some(holder);
            } else {
                self.columns.put(place, holder);
            }
            return;
        };
        match place {
            HolderPlace::Own(_) => self.single = Some(holder),
            HolderPlace::Between(_) => {
                self.columns.put(HolderPlace::Between(0), first);
                self.columns.put(place, holder);
                self.single = None;
            }
        }
    }

    /// Removes `session` from the holders, if it is one.
    #[inline]
    pub fn remove(&mut self, session: u16)
        ensures items { self.new.items ≡ without session self.old.items }
        ensures len { length self.new.items ≤ length self.old.items }
        ensures capacity { self.new.capacity ≡ self.old.capacity }
    {
        match self.single {
            Some(holder) if holder.session == session => self.single = None,
            Some(_) => {}
            None => self.columns.remove(session),
        }
    }

    /// Changes the held mode to that of `holder`, if its session is the single holder that is kept by itself. Returns
    /// whether it did; changes nothing else.
    #[inline]
    pub fn convert_if_single(&mut self, holder: SessionMode) -> bool
        ensures fits { result ≡ true → fits_among holder self.old.items ≡ true }
        ensures own { result ≡ true → has_session holder.session self.old.items ≡ true }
        ensures items { result ≡ true → self.new.items ≡ with_holder holder self.old.items }
        ensures len { result ≡ true → length self.new.items ≡ length self.old.items }
        ensures capacity { result ≡ true → self.new.capacity ≡ self.old.capacity }
        ensures same { result ≡ false → self.new ≡ self.old }
    {
        match self.single {
            Some(own) if own.session == holder.session => {
                self.single = Some(holder);
                true
            }
            _ => false,
        }
    }

    /// Replaces the contents of `list` by the holders, by session number. Leaves `list` unchanged if memory is
    /// refused.
    pub fn list(&self, list: &mut Vec<(u16, Mode)>) -> Result<(), AllocError>
        ensures ok { OnOk result (list.new.items ≡ map pair_of self.now.items) }
        ensures err { OnErr result (list.new.items ≡ list.old.items) }
    {
        match self.single {
            Some(holder) => list_one(holder, list),
            None => self.columns.list(list),
        }
    }

    /// The holder at `index`.
    pub fn holder_at(&self, index: usize) -> SessionMode
        requires { index < length self.now.items }
        ensures { take (index + 1) self.now.items ≡ take index self.now.items ++ result ∷ [] }
    {
        match self.single {
            Some(holder) => holder,
            None => self.columns.holder_at(index),
        }
    }

    /// Adds an edge from `session` to each other holder whose mode conflicts with `target`.
    pub fn write_edges(&self, rows: &mut Rows, session: u16, target: Mode)
        requires some { 1 ≤ session }
        requires within { session ≤ rows.old.sessions }
        requires numbered { AreOfSessions rows.old.sessions self.now.items }
        ensures sessions { rows.new.sessions ≡ rows.old.sessions }
        ensures pairs { (a b : ℕ) → pairs_of rows.new a b
            ≡ (pairs_of rows.old a b || ((a + 1 == session) && holder_blocks session target (b + 1) self.now.items)) }
    {
        match self.single {
            Some(holder) => write_edge(rows, session, target, holder),
            None => self.columns.write_edges(rows, session, target),
        }
    }
}
