//! The handle by which C holds a lock table: a book of its own, or that of an office, at which a session looks.

ghost use Rattle.std.specs.Prelude.{◌≡◌, ◌≢◌, ◌↔◌, ◌⊎◌, true, false, Some, None, IsSome, IfSome, IfNone, OnOk};
ghost use Rattle.library_sessions.specs.declared.session_share.SessionShare.{SessionShare as ShareValue};
ghost use Rattle.library_sessions.specs.Looks.{IsLook, look_props};

use crate::held_share::HeldShare;
use crate::pass_count_numbers::{NO_PASSES, PassCountNumbers};
use crate::session_share::SessionShare;
use library_books::held_book::HeldBook;
use library_books::raw_box::RawBox;
use library_books::status::{CLOSED, LOOKS};
use lock_desk::{Book, NoMemory};
use sequential::Tends;
use std::alloc::Global;
use std::mem;

/// What a handle has if it has a book of its own.
pub const OWN: u32 = 1;

/// What a handle has if it is a look.
pub const LOOK: u32 = 2;

/// A book's handle in C's memory: `pelgaisti_book` of the header. A handle whose bytes are all zero is closed.
#[repr(C)]
#[derive(Drop)]
pub struct BookHandle {
    /// 1 if the handle has a book of its own, 2 if it is a look. Any other number means closed.
    pub is_open: u32,
    /// The book of its own.
    pub held: HeldBook,
    /// The share of the session that looks.
    pub lent: HeldShare,
    ghost open: { is_open ≡ 1 → IsSome held.book },
    ghost closed: { is_open ≢ 1 → held.book ≡ None },
    ghost has_share: { is_open ≡ 2 → IsSome lent.share },
    ghost has_none: { is_open ≢ 2 → lent.share ≡ None },
    ghost looks: { (share : ShareValue) → lent.share ≡ Some share → IsLook share } by { Prim.hlevel look_props },
}

/// What an open handle has.
#[derive(Drop)]
pub enum Table {
    /// A book of its own.
    Own(Box<Book>),
    /// The share of a session that looks at the lock table of its office.
    Look(Box<SessionShare>),
}

impl BookHandle {
    ghost use Rattle.library_sessions.specs.Tables.{IsIn, IsClosed, IsOpen, share_of};

    /// A closed handle.
    fn nothing(alloc: Global) -> BookHandle
        ensures { (result.is_open ≡ 0) × (result.held.book ≡ None) × (result.lent.share ≡ None) }
    {
        BookHandle {
            is_open: 0,
            held: HeldBook::from_raw_box(RawBox::nothing(alloc)),
            lent: HeldShare::from_raw_box(RawBox::nothing(alloc)),
        }
    }

    /// Whether the handle is open: it has a book of its own, or is a look.
    pub fn has_table(&self) -> bool
        ensures open { result ≡ true → IsOpen self.now }
        ensures closed { result ≡ false → IsClosed self.now }
    {
        self.is_open == OWN || self.is_open == LOOK
    }

    /// Takes the book out of a handle that has one of its own, and leaves the handle closed. `None`: it has none.
    pub fn take_own(&mut self, alloc: Global) -> Option<Box<Book>>
        ensures some { IfSome result (λ book. self.old.held.book ≡ Some book.value) }
        ensures open { IfSome result (λ _. self.old.is_open ≡ 1) }
        ensures taken { IfSome result (λ _. (self.new.is_open ≡ 0) × (self.new.held.book ≡ None) × (self.new.lent.share ≡ None)) }
        ensures none { IfNone result (self.new ≡ self.old) }
        ensures closed { IfNone result (self.old.is_open ≢ 1) }
    {
        if self.is_open != OWN {
            return None;
        }
        let BookHandle {
            is_open: _,
            held,
            lent: _,
        } = mem::replace(self, BookHandle::nothing(alloc));
        Some(held.into_raw_box().into_box())
    }

    /// Takes the share out of a look, and leaves the handle closed. `None`: the handle is no look.
    pub fn take_look(&mut self, alloc: Global) -> Option<Box<SessionShare>>
        ensures some { IfSome result (λ share. self.old.lent.share ≡ Some share.value) }
        ensures looks { IfSome result (λ share. IsLook share.value) }
        ensures open { IfSome result (λ _. self.old.is_open ≡ 2) }
        ensures taken { IfSome result (λ _. (self.new.is_open ≡ 0) × (self.new.held.book ≡ None) × (self.new.lent.share ≡ None)) }
        ensures none { IfNone result (self.new ≡ self.old) }
        ensures closed { IfNone result (self.old.is_open ≢ 2) }
    {
        if self.is_open != LOOK {
            return None;
        }
        let BookHandle {
            is_open: _,
            held: _,
            lent,
        } = mem::replace(self, BookHandle::nothing(alloc));
        Some(lent.into_raw_box().into_box())
    }

    /// Takes out what an open handle has, and leaves the handle closed. `None`: it is closed.
    pub fn take(&mut self, alloc: Global) -> Option<Table>
        ensures some { IfSome result (λ table. IsIn table self.old) }
        ensures looks { IfSome result (λ table. IfSome (share_of table) IsLook) }
        ensures open { IfSome result (λ _. IsOpen self.old × ¬ (IsClosed self.old)) }
        ensures none { IfNone result (self.new ≡ self.old) }
        ensures closed { IfNone result (IsClosed self.old) }
    {
        if let Some(book) = self.take_own(alloc) {
            return Some(Table::Own(book));
        }
        match self.take_look(alloc) {
            Some(share) => Some(Table::Look(share)),
            None => None,
        }
    }

    /// Opens the handle with a book of its own. The handle should be closed: what it has is leaked.
    pub fn put_own(&mut self, alloc: Global, book: Box<Book>)
        ensures { (self.new.is_open ≡ 1) × (self.new.held.book ≡ Some book.value) × (self.new.lent.share ≡ None) }
    {
        *self = BookHandle {
            is_open: OWN,
            held: HeldBook::from_raw_box(RawBox::of(book)),
            lent: HeldShare::from_raw_box(RawBox::nothing(alloc)),
        };
    }

    /// Makes the handle a look of this share's session. The handle should be closed: what it has is leaked.
    pub fn put_look(&mut self, alloc: Global, share: Box<SessionShare>)
        requires looks { IsLook share.value }
        ensures { (self.new.is_open ≡ 2) × (self.new.held.book ≡ None) × (self.new.lent.share ≡ Some share.value) }
    {
        *self = BookHandle {
            is_open: LOOK,
            held: HeldBook::from_raw_box(RawBox::nothing(alloc)),
            lent: HeldShare::from_raw_box(RawBox::of(share)),
        };
    }

    /// Opens the handle with what `take` has taken. The handle should be closed: what it has is leaked.
    pub fn put(&mut self, alloc: Global, table: Table)
        requires looks { IfSome (share_of table) IsLook }
        ensures { IsIn table self.new }
    {
        match table {
            Table::Own(book) => self.put_own(alloc, book),
            Table::Look(share) => self.put_look(alloc, share),
        }
    }

    /// The status of a call that changes a book, of a handle that has none of its own.
    pub fn refusal(&self) -> u32
        requires none { self.now.is_open ≢ 1 }
        ensures looks { result ≡ LOOKS ↔ (self.now.is_open ≡ 2) }
        ensures closed { result ≡ CLOSED ↔ IsClosed self.now }
        ensures statuses { (result ≡ CLOSED) ⊎ (result ≡ LOOKS) }
    {
        if self.is_open == LOOK { LOOKS } else { CLOSED }
    }
}

impl Table {
    ghost use Rattle.library_sessions.specs.Tables.{number_of, own_of, share_of, shows};

    /// The book on which questions are answered.
    pub fn book(&self) -> &Book
        requires looks { IfSome (share_of self.now) IsLook }
        ensures { shows self.now ≡ Some result.now }
    {
        match self {
            Table::Own(book) => book,
            Table::Look(share) => share.book(),
        }
    }

    /// What the passes of the office have served. Zeros of a book of its own.
    pub fn passes(&self) -> PassCountNumbers
        requires looks { IfSome (share_of self.now) IsLook }
        ensures own { share_of self.now ≡ None → result ≡ NO_PASSES }
    {
        match self {
            Table::Own(_) => NO_PASSES,
            Table::Look(share) => share.passes(),
        }
    }

    /// Works on the book, and changes nothing that contracts see.
    pub fn tend<T: Tends<Book>>(&mut self, how: &mut T) -> Result<(), NoMemory>
        requires looks { IfSome (share_of self.old) IsLook }
        ensures number { number_of self.new ≡ number_of self.old }
        ensures own { own_of self.new ≡ own_of self.old }
        ensures share { share_of self.new ≡ share_of self.old }
    {
        match self {
            Table::Own(book) => how.tend(book),
            Table::Look(share) => share.tend(how),
        }
    }
}
