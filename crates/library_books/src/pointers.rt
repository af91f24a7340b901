//! Pointers of C that may be null, and lists: a pointer with the number of its items. C passes the address of its own variable.
//!
//! What C must keep to: behind a pointer that isn't null lies a value of its type. Until the call returns it is the export's alone; of
//! `constants.rt` it is only read, by others too. No two arguments overlap.
//!
//! Each pointee has a type of its own, since no generic struct crosses to C. `get` and `is_null` take `&mut self`, since nothing is read
//! through a `&` to a struct that owns memory. Their proofs are alike: those of `proofs/Lending.antt`, `proofs/Copying.antt` and
//! `proofs/ItemLists.antt`.

/// A copy of what lies at the pointer that isn't written through. At null the caller returns `None`.
macro_rules! copied {
    ($at:expr) => {
        unsafe {
            let at = $at;
            if at == std::ptr::null() {
                return None;
            }
            Some(*at)
        }
    };
}

/// What lies at the pointer. At null the caller returns `None`.
#[macro_export]
macro_rules! lent {
    ($at:expr) => {
        unsafe {
            let at = $at;
            if at == std::ptr::null_mut() {
                return None;
            }
            Some(&mut *at)
        }
    };
}

/// The items of a list that isn't null.
#[macro_export]
macro_rules! items_of {
    ($list:expr) => {
        unsafe {
            let room = $list.room;
            let mut at = $list.at;
            if room == 0 {
                // A slice of no items must not begin at null either.
                at = $list as *mut Self as *mut _;
            }
            std::slice::from_raw_parts_mut(at, room)
        }
    };
}

mod constants;
mod integers;
mod lists;
mod structs;

pub use constants::{CallPointer, ProgramPointer, ResourcePointer};
pub use integers::{SizePointer, U32Pointer, U64Pointer};
pub use lists::{ClaimList, DeadlockList, EntryList, HolderList, MemberList, SessionList};
pub use structs::{
    AnswerPointer, ClaimPointer, CountsPointer, GaugesPointer, PassPointer, ProgramAnswerPointer,
    ReplyPointer, TransactionPointer,
};
