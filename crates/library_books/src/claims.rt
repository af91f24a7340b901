//! Transactions, locks and waiting requests in numbers, and how they are written to C's structs.

ghost use Rattle.std.specs.Prelude.{◌≡◌};
ghost use Rattle.library_books.specs.Claims.{number_of_kind, number_of_bool, numbers_of_claim, numbers_of_request, numbers_of_transaction};

use crate::arrays::NumbersOf;
use crate::numbers::{NOWHERE, ResourceNumbers, place_of};
use lock_rules::{Claim, ClaimKind, Transaction};

/// An open transaction: its number, and 1 if it is a deadlock victim, otherwise 0. Number 0 means that none is open.
#[repr(C)]
#[derive(Clone, Copy)]
pub struct TransactionNumbers {
    pub number: u64,
    pub doomed: u32,
}

/// A lock or a waiting request: the session, its transaction, the resource, the mode that is held or that was asked for, and
/// the number of its kind. Kind 0 means that there is none.
#[repr(C)]
#[derive(Clone, Copy)]
pub struct ClaimNumbers {
    pub session: u32,
    pub kind: u32,
    pub mode: u32,
    pub doomed: u32,
    pub transaction: u64,
    pub resource: ResourceNumbers,
}

/// The number of a kind of claims.
fn kind_number(kind: ClaimKind) -> u32
    ensures { result ≡ number_of_kind kind }
{
    match kind {
        ClaimKind::Held => 1,
        ClaimKind::Conversion => 2,
        ClaimKind::Fresh => 3,
    }
}

/// 1 for true, 0 for false.
fn bool_number(flag: bool) -> u32
    ensures { result ≡ number_of_bool flag }
{
    if flag { 1 } else { 0 }
}

/// The numbers of a session's open transaction, or of none.
pub fn transaction_numbers(transaction: Option<Transaction>) -> TransactionNumbers
    ensures { result ≡ numbers_of_transaction transaction }
{
    match transaction {
        Some(open) => TransactionNumbers {
            number: open.number,
            doomed: bool_number(open.doomed),
        },
        None => TransactionNumbers {
            number: 0,
            doomed: 0,
        },
    }
}

/// The numbers of a lock or a waiting request.
pub fn claim_numbers(claim: &Claim) -> ClaimNumbers
    ensures { result ≡ numbers_of_claim claim.now }
{
    ClaimNumbers {
        session: u32::from(claim.session),
        kind: kind_number(claim.kind),
        mode: u32::from(claim.mode.code()),
        doomed: bool_number(claim.transaction.doomed),
        transaction: claim.transaction.number,
        resource: place_of(&claim.resource),
    }
}

impl NumbersOf<Claim> for ClaimNumbers {
    ghost numbers = { numbers_of_claim };

    fn of(claim: &Claim) -> ClaimNumbers {
        claim_numbers(claim)
    }
}

impl NumbersOf<ClaimNumbers> for ClaimNumbers {
    ghost numbers = { λ row. row };

    fn of(row: &ClaimNumbers) -> ClaimNumbers {
        *row
    }
}

/// The numbers of a session's waiting request, or of none.
pub fn request_numbers(request: Option<Claim>) -> ClaimNumbers
    ensures { result ≡ numbers_of_request request }
{
    match request {
        Some(claim) => claim_numbers(&claim),
        None => ClaimNumbers {
            session: 0,
            kind: 0,
            mode: 0,
            doomed: 0,
            transaction: 0,
            resource: NOWHERE,
        },
    }
}
