//! Pointers of C to integers.

ghost use Rattle.std.specs.Prelude.{◌≡◌, ◌≢◌, ℕ, MatchOption};
ghost use Rattle.std.specs.Borrow.{sem, LendsIf};
ghost use denote.Builtin.{usize, u32, u64};
ghost use denote.RawPtr.{Testable, null_ptr};
ghost use Rattle.library_books.specs.Behind.{maybe_at};

use std::marker::Model;

/// A pointer of C, null or to a number of things in memory.
#[repr(C)]
pub struct SizePointer {
    pub at: *mut usize,
    ghost testable: { Testable at },
    pub ghost behind: { ℕ },
}

impl Model for SizePointer {
    ghost also_owns = { λ p. maybe_at usize p.at p.behind };
}

impl SizePointer {
    ghost use Rattle.library_books.specs.contracts.pointers.integers.SizePointer.{the_row};

    /// What lies behind the pointer, or `None` at null.
    pub fn get(&mut self) -> Option<&mut usize>
        ensures* lends { sem 𝓛 (LendsIf the_row usize self.entry result (λ x. record self.entry.now { behind = x }) self.entry.now) }
        ensures value { MatchOption result (self.old.at ≡ null_ptr) (λ r. (self.old.at ≢ null_ptr) × (r.now ≡ self.old.behind)) }
    {
        lent!(self.at)
    }
}

/// A pointer of C, null or to a number of 32 bits.
#[repr(C)]
pub struct U32Pointer {
    pub at: *mut u32,
    ghost testable: { Testable at },
    pub ghost behind: { ℕ },
}

impl Model for U32Pointer {
    ghost also_owns = { λ p. maybe_at u32 p.at p.behind };
}

impl U32Pointer {
    ghost use Rattle.library_books.specs.contracts.pointers.integers.U32Pointer.{the_row};

    /// What lies behind the pointer, or `None` at null.
    pub fn get(&mut self) -> Option<&mut u32>
        ensures* lends { sem 𝓛 (LendsIf the_row u32 self.entry result (λ x. record self.entry.now { behind = x }) self.entry.now) }
        ensures value { MatchOption result (self.old.at ≡ null_ptr) (λ r. (self.old.at ≢ null_ptr) × (r.now ≡ self.old.behind)) }
    {
        lent!(self.at)
    }
}

/// A pointer of C, null or to a number of 64 bits.
#[repr(C)]
pub struct U64Pointer {
    pub at: *mut u64,
    ghost testable: { Testable at },
    pub ghost behind: { ℕ },
}

impl Model for U64Pointer {
    ghost also_owns = { λ p. maybe_at u64 p.at p.behind };
}

impl U64Pointer {
    ghost use Rattle.library_books.specs.contracts.pointers.integers.U64Pointer.{the_row};

    /// What lies behind the pointer, or `None` at null.
    pub fn get(&mut self) -> Option<&mut u64>
        ensures* lends { sem 𝓛 (LendsIf the_row u64 self.entry result (λ x. record self.entry.now { behind = x }) self.entry.now) }
        ensures value { MatchOption result (self.old.at ≡ null_ptr) (λ r. (self.old.at ≢ null_ptr) × (r.now ≡ self.old.behind)) }
    {
        lent!(self.at)
    }
}
