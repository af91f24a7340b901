//! The pointer in a book's handle.

ghost use Rattle.std.specs.Prelude.{◌≡◌, Option};
ghost use Rattle.library_books.specs.inner.Held.{book_at, book_coded};
ghost use Rattle.lock_desk.specs.BookView.{BookView};

use crate::raw_box::{Opaque, RawBox};
use lock_desk::Book;
use std::alloc::Global;
use std::marker::Model;

/// A `RawBox<Book, Global>` that may cross to C, where no generic struct may. To drop it leaks its book.
#[repr(C)]
#[derive(Drop)]
pub struct HeldBook {
    at: *mut Opaque,
    alloc: Global,
    pub ghost book: { Option BookView } by { book_coded },
}

impl Model for HeldBook {
    ghost also_owns = { λ held. book_at held.alloc held.at held.book };
}

impl HeldBook {
    /// Takes over the book of `raw`, if there is one.
    pub fn from_raw_box(raw: RawBox<Book, Global>) -> HeldBook
        ensures { result.book ≡ raw.value }
    {
        let RawBox { at, alloc } = raw;
        HeldBook {
            at: at as *mut Opaque,
            alloc,
        }
    }

    /// Gives up the book, if there is one, to a raw box.
    pub fn into_raw_box(self) -> RawBox<Book, Global>
        ensures { result.value ≡ self.book }
    {
        let HeldBook { at, alloc } = self;
        RawBox {
            at: at as *mut Book,
            alloc,
        }
    }
}

unsafe impl Send for HeldBook {}
