//! Pointers of C to structs that are only read. Others may read them at the same time.

ghost use Rattle.std.specs.Prelude.{◌≡◌, ◌≢◌, MatchOption};
ghost use denote.RawPtr.{Testable, null_ptr};
ghost use Rattle.library_books.specs.declared.numbers.CallNumbers.{CallNumbers};
ghost use Rattle.library_books.specs.declared.numbers.ResourceNumbers.{ResourceNumbers};
ghost use Rattle.library_books.specs.declared.program_numbers.ProgramNumbers.{ProgramNumbers};
ghost use Rattle.library_books.specs.Behind.{maybe_shared};
ghost use Rattle.library_books.specs.contracts.numbers.CallNumbers.{the_row as call_row};
ghost use Rattle.library_books.specs.contracts.numbers.ResourceNumbers.{the_row as resource_row};
ghost use Rattle.library_books.specs.contracts.program_numbers.ProgramNumbers.{the_row as program_row};

use crate::numbers::{CallNumbers, ResourceNumbers};
use crate::program_numbers::ProgramNumbers;
use std::marker::Model;

/// A pointer of C, null or to a call that is only read.
#[repr(C)]
pub struct CallPointer {
    pub at: *const CallNumbers,
    ghost testable: { Testable at },
    pub ghost behind: { CallNumbers } by { call_row.coded },
}

impl Model for CallPointer {
    ghost also_owns = { λ p. maybe_shared call_row p.at p.behind };
}

impl CallPointer {
    /// A copy of what lies behind the pointer, or `None` at null.
    pub fn get(&mut self) -> Option<CallNumbers>
        ensures value { MatchOption result (self.old.at ≡ null_ptr) (λ r. (self.old.at ≢ null_ptr) × (r ≡ self.old.behind)) }
        ensures same { self.new ≡ self.old }
    {
        copied!(self.at)
    }
}

/// A pointer of C, null or to a program that is only read.
#[repr(C)]
pub struct ProgramPointer {
    pub at: *const ProgramNumbers,
    ghost testable: { Testable at },
    pub ghost behind: { ProgramNumbers } by { program_row.coded },
}

impl Model for ProgramPointer {
    ghost also_owns = { λ p. maybe_shared program_row p.at p.behind };
}

impl ProgramPointer {
    /// A copy of what lies behind the pointer, or `None` at null.
    pub fn get(&mut self) -> Option<ProgramNumbers>
        ensures value { MatchOption result (self.old.at ≡ null_ptr) (λ r. (self.old.at ≢ null_ptr) × (r ≡ self.old.behind)) }
        ensures same { self.new ≡ self.old }
    {
        copied!(self.at)
    }
}

/// A pointer of C, null or to a resource that is only read.
#[repr(C)]
pub struct ResourcePointer {
    pub at: *const ResourceNumbers,
    ghost testable: { Testable at },
    pub ghost behind: { ResourceNumbers } by { resource_row.coded },
}

impl Model for ResourcePointer {
    ghost also_owns = { λ p. maybe_shared resource_row p.at p.behind };
}

impl ResourcePointer {
    /// A copy of what lies behind the pointer, or `None` at null.
    pub fn get(&mut self) -> Option<ResourceNumbers>
        ensures value { MatchOption result (self.old.at ≡ null_ptr) (λ r. (self.old.at ≢ null_ptr) × (r ≡ self.old.behind)) }
        ensures same { self.new ≡ self.old }
    {
        copied!(self.at)
    }
}
