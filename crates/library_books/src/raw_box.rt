//! A box as a raw pointer.

ghost use Rattle.std.specs.Prelude.{◌≡◌, Option, Some, None, IsSome};
ghost use Rattle.library_books.specs.inner.Held.{box_at};

use std::alloc::Allocator;
use std::marker::Model;

/// The pointee of a handle's pointer as C sees it. No value of this type exists.
#[repr(C)]
pub struct Opaque {
    nothing: u8,
}

/// The pointer and the allocator of a box, whose value it owns, or a null pointer.
pub struct RawBox<T, A: Allocator> {
    /// The value's address, or null.
    pub at: *mut T,
    pub alloc: A,
    pub ghost value: { Option T },
}

impl<T, A: Allocator> Model for RawBox<T, A> {
    ghost also_owns = { λ b. box_at (A.dealloc_token b.alloc) T.row b.at b.value };
}

impl<T, A: Allocator> RawBox<T, A> {
    /// A null pointer, which owns nothing.
    pub fn nothing(alloc: A) -> RawBox<T, A>
        ensures { result.value ≡ None }
    {
        RawBox {
            at: std::ptr::null_mut(),
            alloc,
        }
    }

    /// Takes the box apart.
    pub fn of(b: Box<T, A>) -> RawBox<T, A>
    where
        T: Drop,
        ensures { result.value ≡ Some b.value }
    {
        let (at, alloc) = Box::into_raw_with_allocator(b);
        RawBox { at, alloc }
    }

    /// Puts the box together again. Needs a value.
    pub fn into_box(self) -> Box<T, A>
        requires { IsSome self.value }
        ensures { self.value ≡ Some result.value }
    {
        let RawBox { at, alloc } = self;
        unsafe { Box::from_raw(alloc, at) }
    }
}
