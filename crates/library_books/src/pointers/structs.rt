//! Pointers of C to structs of numbers that an export writes.

ghost use Rattle.std.specs.Prelude.{◌≡◌, ◌≢◌, MatchOption};
ghost use Rattle.std.specs.Borrow.{sem, LendsIf};
ghost use denote.RawPtr.{Testable, null_ptr};
ghost use Rattle.library_books.specs.declared.numbers.AnswerNumbers.{AnswerNumbers};
ghost use Rattle.library_books.specs.declared.claims.ClaimNumbers.{ClaimNumbers};
ghost use Rattle.library_books.specs.declared.count_numbers.CountNumbers.{CountNumbers};
ghost use Rattle.library_books.specs.declared.count_numbers.GaugeNumbers.{GaugeNumbers};
ghost use Rattle.library_books.specs.declared.numbers.PassNumbers.{PassNumbers};
ghost use Rattle.library_books.specs.declared.numbers.ReplyNumbers.{ReplyNumbers};
ghost use Rattle.library_books.specs.declared.claims.TransactionNumbers.{TransactionNumbers};
ghost use Rattle.library_books.specs.declared.program_numbers.ProgramAnswerNumbers.{ProgramAnswerNumbers};
ghost use Rattle.library_books.specs.Behind.{maybe_at};
ghost use Rattle.library_books.specs.contracts.claims.ClaimNumbers.{the_row as claim_row};
ghost use Rattle.library_books.specs.contracts.claims.TransactionNumbers.{the_row as transaction_row};
ghost use Rattle.library_books.specs.contracts.count_numbers.CountNumbers.{the_row as counts_row};
ghost use Rattle.library_books.specs.contracts.count_numbers.GaugeNumbers.{the_row as gauges_row};
ghost use Rattle.library_books.specs.contracts.numbers.AnswerNumbers.{the_row as answer_row};
ghost use Rattle.library_books.specs.contracts.numbers.PassNumbers.{the_row as pass_row};
ghost use Rattle.library_books.specs.contracts.numbers.ReplyNumbers.{the_row as reply_row};
ghost use Rattle.library_books.specs.contracts.program_numbers.ProgramAnswerNumbers.{the_row as program_answer_row};

use crate::claims::{ClaimNumbers, TransactionNumbers};
use crate::count_numbers::{CountNumbers, GaugeNumbers};
use crate::numbers::{AnswerNumbers, PassNumbers, ReplyNumbers};
use crate::program_numbers::ProgramAnswerNumbers;
use std::marker::Model;

/// A pointer of C, null or to an answer.
#[repr(C)]
pub struct AnswerPointer {
    pub at: *mut AnswerNumbers,
    ghost testable: { Testable at },
    pub ghost behind: { AnswerNumbers } by { answer_row.coded },
}

impl Model for AnswerPointer {
    ghost also_owns = { λ p. maybe_at answer_row p.at p.behind };
}

impl AnswerPointer {
    ghost use Rattle.library_books.specs.contracts.pointers.structs.AnswerPointer.{the_row};

    /// What lies behind the pointer, or `None` at null.
    pub fn get(&mut self) -> Option<&mut AnswerNumbers>
        ensures* lends { sem 𝓛 (LendsIf the_row answer_row self.entry result (λ x. record self.entry.now { behind = x }) self.entry.now) }
        ensures value { MatchOption result (self.old.at ≡ null_ptr) (λ r. (self.old.at ≢ null_ptr) × (r.now ≡ self.old.behind)) }
    {
        lent!(self.at)
    }
}

/// A pointer of C, null or to a lock or a waiting request.
#[repr(C)]
pub struct ClaimPointer {
    pub at: *mut ClaimNumbers,
    ghost testable: { Testable at },
    pub ghost behind: { ClaimNumbers } by { claim_row.coded },
}

impl Model for ClaimPointer {
    ghost also_owns = { λ p. maybe_at claim_row p.at p.behind };
}

impl ClaimPointer {
    ghost use Rattle.library_books.specs.contracts.pointers.structs.ClaimPointer.{the_row};

    /// What lies behind the pointer, or `None` at null.
    pub fn get(&mut self) -> Option<&mut ClaimNumbers>
        ensures* lends { sem 𝓛 (LendsIf the_row claim_row self.entry result (λ x. record self.entry.now { behind = x }) self.entry.now) }
        ensures value { MatchOption result (self.old.at ≡ null_ptr) (λ r. (self.old.at ≢ null_ptr) × (r.now ≡ self.old.behind)) }
    {
        lent!(self.at)
    }
}

/// A pointer of C, null or to counters.
#[repr(C)]
pub struct CountsPointer {
    pub at: *mut CountNumbers,
    ghost testable: { Testable at },
    pub ghost behind: { CountNumbers } by { counts_row.coded },
}

impl Model for CountsPointer {
    ghost also_owns = { λ p. maybe_at counts_row p.at p.behind };
}

impl CountsPointer {
    ghost use Rattle.library_books.specs.contracts.pointers.structs.CountsPointer.{the_row};

    /// What lies behind the pointer, or `None` at null.
    pub fn get(&mut self) -> Option<&mut CountNumbers>
        ensures* lends { sem 𝓛 (LendsIf the_row counts_row self.entry result (λ x. record self.entry.now { behind = x }) self.entry.now) }
        ensures value { MatchOption result (self.old.at ≡ null_ptr) (λ r. (self.old.at ≢ null_ptr) × (r.now ≡ self.old.behind)) }
    {
        lent!(self.at)
    }
}

/// A pointer of C, null or to gauges.
#[repr(C)]
pub struct GaugesPointer {
    pub at: *mut GaugeNumbers,
    ghost testable: { Testable at },
    pub ghost behind: { GaugeNumbers } by { gauges_row.coded },
}

impl Model for GaugesPointer {
    ghost also_owns = { λ p. maybe_at gauges_row p.at p.behind };
}

impl GaugesPointer {
    ghost use Rattle.library_books.specs.contracts.pointers.structs.GaugesPointer.{the_row};

    /// What lies behind the pointer, or `None` at null.
    pub fn get(&mut self) -> Option<&mut GaugeNumbers>
        ensures* lends { sem 𝓛 (LendsIf the_row gauges_row self.entry result (λ x. record self.entry.now { behind = x }) self.entry.now) }
        ensures value { MatchOption result (self.old.at ≡ null_ptr) (λ r. (self.old.at ≢ null_ptr) × (r.now ≡ self.old.behind)) }
    {
        lent!(self.at)
    }
}

/// A pointer of C, null or to the result of a pass.
#[repr(C)]
pub struct PassPointer {
    pub at: *mut PassNumbers,
    ghost testable: { Testable at },
    pub ghost behind: { PassNumbers } by { pass_row.coded },
}

impl Model for PassPointer {
    ghost also_owns = { λ p. maybe_at pass_row p.at p.behind };
}

impl PassPointer {
    ghost use Rattle.library_books.specs.contracts.pointers.structs.PassPointer.{the_row};

    /// What lies behind the pointer, or `None` at null.
    pub fn get(&mut self) -> Option<&mut PassNumbers>
        ensures* lends { sem 𝓛 (LendsIf the_row pass_row self.entry result (λ x. record self.entry.now { behind = x }) self.entry.now) }
        ensures value { MatchOption result (self.old.at ≡ null_ptr) (λ r. (self.old.at ≢ null_ptr) × (r.now ≡ self.old.behind)) }
    {
        lent!(self.at)
    }
}

/// A pointer of C, null or to the answer to a program.
#[repr(C)]
pub struct ProgramAnswerPointer {
    pub at: *mut ProgramAnswerNumbers,
    ghost testable: { Testable at },
    pub ghost behind: { ProgramAnswerNumbers } by { program_answer_row.coded },
}

impl Model for ProgramAnswerPointer {
    ghost also_owns = { λ p. maybe_at program_answer_row p.at p.behind };
}

impl ProgramAnswerPointer {
    ghost use Rattle.library_books.specs.contracts.pointers.structs.ProgramAnswerPointer.{the_row};

    /// What lies behind the pointer, or `None` at null.
    pub fn get(&mut self) -> Option<&mut ProgramAnswerNumbers>
        ensures* lends { sem 𝓛 (LendsIf the_row program_answer_row self.entry result (λ x. record self.entry.now { behind = x }) self.entry.now) }
        ensures value { MatchOption result (self.old.at ≡ null_ptr) (λ r. (self.old.at ≢ null_ptr) × (r.now ≡ self.old.behind)) }
    {
        lent!(self.at)
    }
}

/// A pointer of C, null or to a reply.
#[repr(C)]
pub struct ReplyPointer {
    pub at: *mut ReplyNumbers,
    ghost testable: { Testable at },
    pub ghost behind: { ReplyNumbers } by { reply_row.coded },
}

impl Model for ReplyPointer {
    ghost also_owns = { λ p. maybe_at reply_row p.at p.behind };
}

impl ReplyPointer {
    ghost use Rattle.library_books.specs.contracts.pointers.structs.ReplyPointer.{the_row};

    /// What lies behind the pointer, or `None` at null.
    pub fn get(&mut self) -> Option<&mut ReplyNumbers>
        ensures* lends { sem 𝓛 (LendsIf the_row reply_row self.entry result (λ x. record self.entry.now { behind = x }) self.entry.now) }
        ensures value { MatchOption result (self.old.at ≡ null_ptr) (λ r. (self.old.at ≢ null_ptr) × (r.now ≡ self.old.behind)) }
    {
        lent!(self.at)
    }
}

/// A pointer of C, null or to a transaction.
#[repr(C)]
pub struct TransactionPointer {
    pub at: *mut TransactionNumbers,
    ghost testable: { Testable at },
    pub ghost behind: { TransactionNumbers } by { transaction_row.coded },
}

impl Model for TransactionPointer {
    ghost also_owns = { λ p. maybe_at transaction_row p.at p.behind };
}

impl TransactionPointer {
    ghost use Rattle.library_books.specs.contracts.pointers.structs.TransactionPointer.{the_row};

    /// What lies behind the pointer, or `None` at null.
    pub fn get(&mut self) -> Option<&mut TransactionNumbers>
        ensures* lends { sem 𝓛 (LendsIf the_row transaction_row self.entry result (λ x. record self.entry.now { behind = x }) self.entry.now) }
        ensures value { MatchOption result (self.old.at ≡ null_ptr) (λ r. (self.old.at ≢ null_ptr) × (r.now ≡ self.old.behind)) }
    {
        lent!(self.at)
    }
}
