//! Pointers of C to handles, and to what passes have served. They are as `library_books::pointers` has them.

ghost use Rattle.std.specs.Prelude.{◌≡◌, ◌≢◌, ◌↔◌, IsTrue, List, MatchOption};
ghost use Rattle.std.specs.Coded.{coded_list};
ghost use Rattle.std.specs.Borrow.{sem, Lends, LendsIf, Array};
ghost use denote.RawPtr.{Testable, null_ptr};
ghost use Rattle.library_books.specs.Behind.{IsNullList, list_at, maybe_at};
ghost use Rattle.library_sessions.specs.declared.book_handle.BookHandle.{BookHandle};
ghost use Rattle.library_sessions.specs.contracts.book_handle.BookHandle.{the_row as book_handle_row};
ghost use Rattle.library_sessions.specs.declared.pass_count_numbers.PassCountNumbers.{PassCountNumbers};
ghost use Rattle.library_sessions.specs.contracts.pass_count_numbers.PassCountNumbers.{the_row as pass_counts_row};
ghost use Rattle.library_sessions.specs.declared.session_handle.SessionHandle.{SessionHandle};
ghost use Rattle.library_sessions.specs.contracts.session_handle.SessionHandle.{the_row as session_handle_row};

use crate::book_handle::BookHandle;
use crate::pass_count_numbers::PassCountNumbers;
use crate::session_handle::SessionHandle;
use library_books::{items_of, lent};
use std::marker::Model;

/// A pointer of C, null or to a book's handle.
#[repr(C)]
pub struct BookPointer {
    pub at: *mut BookHandle,
    ghost testable: { Testable at },
    pub ghost behind: { BookHandle } by { book_handle_row.coded },
}

impl Model for BookPointer {
    ghost also_owns = { λ p. maybe_at book_handle_row p.at p.behind };
}

impl BookPointer {
    ghost use Rattle.library_sessions.specs.contracts.pointers.BookPointer.{the_row};

    /// What lies behind the pointer, or `None` at null.
    pub fn get(&mut self) -> Option<&mut BookHandle>
        ensures* lends { sem 𝓛 (LendsIf the_row book_handle_row self.entry result (λ x. record self.entry.now { behind = x }) self.entry.now) }
        ensures value { MatchOption result (self.old.at ≡ null_ptr) (λ r. (self.old.at ≢ null_ptr) × (r.now ≡ self.old.behind)) }
    {
        lent!(self.at)
    }
}

/// A pointer of C, null or to a session's handle.
#[repr(C)]
pub struct SessionPointer {
    pub at: *mut SessionHandle,
    ghost testable: { Testable at },
    pub ghost behind: { SessionHandle } by { session_handle_row.coded },
}

impl Model for SessionPointer {
    ghost also_owns = { λ p. maybe_at session_handle_row p.at p.behind };
}

impl SessionPointer {
    ghost use Rattle.library_sessions.specs.contracts.pointers.SessionPointer.{the_row};

    /// What lies behind the pointer, or `None` at null.
    pub fn get(&mut self) -> Option<&mut SessionHandle>
        ensures* lends { sem 𝓛 (LendsIf the_row session_handle_row self.entry result (λ x. record self.entry.now { behind = x }) self.entry.now) }
        ensures value { MatchOption result (self.old.at ≡ null_ptr) (λ r. (self.old.at ≢ null_ptr) × (r.now ≡ self.old.behind)) }
    {
        lent!(self.at)
    }
}

/// A pointer of C, null or to what passes have served.
#[repr(C)]
pub struct PassCountsPointer {
    pub at: *mut PassCountNumbers,
    ghost testable: { Testable at },
    pub ghost behind: { PassCountNumbers } by { pass_counts_row.coded },
}

impl Model for PassCountsPointer {
    ghost also_owns = { λ p. maybe_at pass_counts_row p.at p.behind };
}

impl PassCountsPointer {
    ghost use Rattle.library_sessions.specs.contracts.pointers.PassCountsPointer.{the_row};

    /// What lies behind the pointer, or `None` at null.
    pub fn get(&mut self) -> Option<&mut PassCountNumbers>
        ensures* lends { sem 𝓛 (LendsIf the_row pass_counts_row self.entry result (λ x. record self.entry.now { behind = x }) self.entry.now) }
        ensures value { MatchOption result (self.old.at ≡ null_ptr) (λ r. (self.old.at ≢ null_ptr) × (r.now ≡ self.old.behind)) }
    {
        lent!(self.at)
    }
}

/// A pointer of C to `room` sessions' handles, or null.
#[repr(C)]
pub struct HandleList {
    pub at: *mut SessionHandle,
    pub room: usize,
    ghost testable: { Testable at },
    pub ghost behind: { List SessionHandle } by { coded_list session_handle_row.coded },
}

impl Model for HandleList {
    ghost also_owns = { λ p. list_at session_handle_row p.room p.at p.behind };
}

impl HandleList {
    ghost use Rattle.library_sessions.specs.contracts.pointers.HandleList.{the_row};

    /// Whether the pointer is null.
    pub fn is_null(&mut self) -> bool
        ensures value { IsTrue result ↔ (self.old.at ≡ null_ptr) }
        ensures same { self.new ≡ self.old }
    {
        self.at == std::ptr::null_mut()
    }

    /// The `room` sessions' handles. The pointer must not be null.
    pub fn items(&mut self) -> &mut [SessionHandle]
        requires not_null { self.old.at ≢ null_ptr }
        ensures* lends { sem 𝓛 (Lends the_row (Array session_handle_row 0) self.entry result (λ xs. record self.entry.now { behind = xs })) }
        ensures value { result.now ≡ self.old.behind }
    {
        items_of!(self)
    }
}
