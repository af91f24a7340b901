//! Lists of C: a pointer and the number of the items behind it.

ghost use Rattle.std.specs.Prelude.{◌≡◌, ◌≢◌, ◌↔◌, ℕ, IsTrue, List};
ghost use Rattle.std.specs.Coded.{coded_list};
ghost use Rattle.std.specs.Borrow.{sem, Lends, Array};
ghost use denote.Builtin.{u32};
ghost use denote.RawPtr.{Testable, null_ptr};
ghost use Rattle.library_books.specs.declared.claims.ClaimNumbers.{ClaimNumbers};
ghost use Rattle.library_books.specs.declared.deadlock_numbers.DeadlockNumbers.{DeadlockNumbers};
ghost use Rattle.library_books.specs.declared.deadlock_numbers.MemberNumbers.{MemberNumbers};
ghost use Rattle.library_books.specs.declared.numbers.EntryNumbers.{EntryNumbers};
ghost use Rattle.library_books.specs.declared.numbers.HolderNumbers.{HolderNumbers};
ghost use Rattle.library_books.specs.Behind.{IsNullList, list_at};
ghost use Rattle.library_books.specs.contracts.claims.ClaimNumbers.{the_row as claim_row};
ghost use Rattle.library_books.specs.contracts.deadlock_numbers.DeadlockNumbers.{the_row as deadlock_row};
ghost use Rattle.library_books.specs.contracts.deadlock_numbers.MemberNumbers.{the_row as member_row};
ghost use Rattle.library_books.specs.contracts.numbers.EntryNumbers.{the_row as entry_row};
ghost use Rattle.library_books.specs.contracts.numbers.HolderNumbers.{the_row as holder_row};

use crate::claims::ClaimNumbers;
use crate::deadlock_numbers::{DeadlockNumbers, MemberNumbers};
use crate::numbers::{EntryNumbers, HolderNumbers};
use std::marker::Model;

/// A pointer of C to `room` locks, or null.
#[repr(C)]
pub struct ClaimList {
    pub at: *mut ClaimNumbers,
    pub room: usize,
    ghost testable: { Testable at },
    pub ghost behind: { List ClaimNumbers } by { coded_list claim_row.coded },
}

impl Model for ClaimList {
    ghost also_owns = { λ p. list_at claim_row p.room p.at p.behind };
}

impl ClaimList {
    ghost use Rattle.library_books.specs.contracts.pointers.lists.ClaimList.{the_row};

    /// Whether the pointer is null and `room` is not 0.
    pub fn is_null(&mut self) -> bool
        ensures value { IsTrue result ↔ IsNullList self.old.at self.old.room }
        ensures same { self.new ≡ self.old }
    {
        (self.room != 0) & (self.at == std::ptr::null_mut())
    }

    /// The `room` locks. If `room` is not 0, the pointer must not be null.
    pub fn items(&mut self) -> &mut [ClaimNumbers]
        requires not_null { ¬ (IsNullList self.old.at self.old.room) }
        ensures* lends { sem 𝓛 (Lends the_row (Array claim_row 0) self.entry result (λ xs. record self.entry.now { behind = xs })) }
        ensures value { result.now ≡ self.old.behind }
    {
        items_of!(self)
    }
}

/// A pointer of C to `room` deadlocks, or null.
#[repr(C)]
pub struct DeadlockList {
    pub at: *mut DeadlockNumbers,
    pub room: usize,
    ghost testable: { Testable at },
    pub ghost behind: { List DeadlockNumbers } by { coded_list deadlock_row.coded },
}

impl Model for DeadlockList {
    ghost also_owns = { λ p. list_at deadlock_row p.room p.at p.behind };
}

impl DeadlockList {
    ghost use Rattle.library_books.specs.contracts.pointers.lists.DeadlockList.{the_row};

    /// Whether the pointer is null and `room` is not 0.
    pub fn is_null(&mut self) -> bool
        ensures value { IsTrue result ↔ IsNullList self.old.at self.old.room }
        ensures same { self.new ≡ self.old }
    {
        (self.room != 0) & (self.at == std::ptr::null_mut())
    }

    /// The `room` deadlocks. If `room` is not 0, the pointer must not be null.
    pub fn items(&mut self) -> &mut [DeadlockNumbers]
        requires not_null { ¬ (IsNullList self.old.at self.old.room) }
        ensures* lends { sem 𝓛 (Lends the_row (Array deadlock_row 0) self.entry result (λ xs. record self.entry.now { behind = xs })) }
        ensures value { result.now ≡ self.old.behind }
    {
        items_of!(self)
    }
}

/// A pointer of C to `room` entries of the history, or null.
#[repr(C)]
pub struct EntryList {
    pub at: *mut EntryNumbers,
    pub room: usize,
    ghost testable: { Testable at },
    pub ghost behind: { List EntryNumbers } by { coded_list entry_row.coded },
}

impl Model for EntryList {
    ghost also_owns = { λ p. list_at entry_row p.room p.at p.behind };
}

impl EntryList {
    ghost use Rattle.library_books.specs.contracts.pointers.lists.EntryList.{the_row};

    /// Whether the pointer is null and `room` is not 0.
    pub fn is_null(&mut self) -> bool
        ensures value { IsTrue result ↔ IsNullList self.old.at self.old.room }
        ensures same { self.new ≡ self.old }
    {
        (self.room != 0) & (self.at == std::ptr::null_mut())
    }

    /// The `room` entries of the history. If `room` is not 0, the pointer must not be null.
    pub fn items(&mut self) -> &mut [EntryNumbers]
        requires not_null { ¬ (IsNullList self.old.at self.old.room) }
        ensures* lends { sem 𝓛 (Lends the_row (Array entry_row 0) self.entry result (λ xs. record self.entry.now { behind = xs })) }
        ensures value { result.now ≡ self.old.behind }
    {
        items_of!(self)
    }
}

/// A pointer of C to `room` holders, or null.
#[repr(C)]
pub struct HolderList {
    pub at: *mut HolderNumbers,
    pub room: usize,
    ghost testable: { Testable at },
    pub ghost behind: { List HolderNumbers } by { coded_list holder_row.coded },
}

impl Model for HolderList {
    ghost also_owns = { λ p. list_at holder_row p.room p.at p.behind };
}

impl HolderList {
    ghost use Rattle.library_books.specs.contracts.pointers.lists.HolderList.{the_row};

    /// Whether the pointer is null and `room` is not 0.
    pub fn is_null(&mut self) -> bool
        ensures value { IsTrue result ↔ IsNullList self.old.at self.old.room }
        ensures same { self.new ≡ self.old }
    {
        (self.room != 0) & (self.at == std::ptr::null_mut())
    }

    /// The `room` holders. If `room` is not 0, the pointer must not be null.
    pub fn items(&mut self) -> &mut [HolderNumbers]
        requires not_null { ¬ (IsNullList self.old.at self.old.room) }
        ensures* lends { sem 𝓛 (Lends the_row (Array holder_row 0) self.entry result (λ xs. record self.entry.now { behind = xs })) }
        ensures value { result.now ≡ self.old.behind }
    {
        items_of!(self)
    }
}

/// A pointer of C to `room` members of cycles, or null.
#[repr(C)]
pub struct MemberList {
    pub at: *mut MemberNumbers,
    pub room: usize,
    ghost testable: { Testable at },
    pub ghost behind: { List MemberNumbers } by { coded_list member_row.coded },
}

impl Model for MemberList {
    ghost also_owns = { λ p. list_at member_row p.room p.at p.behind };
}

impl MemberList {
    ghost use Rattle.library_books.specs.contracts.pointers.lists.MemberList.{the_row};

    /// Whether the pointer is null and `room` is not 0.
    pub fn is_null(&mut self) -> bool
        ensures value { IsTrue result ↔ IsNullList self.old.at self.old.room }
        ensures same { self.new ≡ self.old }
    {
        (self.room != 0) & (self.at == std::ptr::null_mut())
    }

    /// The `room` members of cycles. If `room` is not 0, the pointer must not be null.
    pub fn items(&mut self) -> &mut [MemberNumbers]
        requires not_null { ¬ (IsNullList self.old.at self.old.room) }
        ensures* lends { sem 𝓛 (Lends the_row (Array member_row 0) self.entry result (λ xs. record self.entry.now { behind = xs })) }
        ensures value { result.now ≡ self.old.behind }
    {
        items_of!(self)
    }
}

/// A pointer of C to `room` sessions, by their numbers, or null.
#[repr(C)]
pub struct SessionList {
    pub at: *mut u32,
    pub room: usize,
    ghost testable: { Testable at },
    pub ghost behind: { List ℕ } by { coded_list u32.coded },
}

impl Model for SessionList {
    ghost also_owns = { λ p. list_at u32 p.room p.at p.behind };
}

impl SessionList {
    ghost use Rattle.library_books.specs.contracts.pointers.lists.SessionList.{the_row};

    /// Whether the pointer is null and `room` is not 0.
    pub fn is_null(&mut self) -> bool
        ensures value { IsTrue result ↔ IsNullList self.old.at self.old.room }
        ensures same { self.new ≡ self.old }
    {
        (self.room != 0) & (self.at == std::ptr::null_mut())
    }

    /// The `room` sessions, by their numbers. If `room` is not 0, the pointer must not be null.
    pub fn items(&mut self) -> &mut [u32]
        requires not_null { ¬ (IsNullList self.old.at self.old.room) }
        ensures* lends { sem 𝓛 (Lends the_row (Array u32 0) self.entry result (λ xs. record self.entry.now { behind = xs })) }
        ensures value { result.now ≡ self.old.behind }
    {
        items_of!(self)
    }
}
