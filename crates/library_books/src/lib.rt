//! The library for C over a book: what the exports of `pelgaisti_c` do with the lock table of one thread, and the numbers and pointers in
//! which C speaks of it. It knows no office.
//!
//! Pointers of C and what lies behind them: `pointers.rt` and the files in `pointers/`. Numbers of C's structs: `numbers.rt`,
//! `program_numbers.rt`, `option_numbers.rt`, `claims.rt`, `count_numbers.rt`, `deadlock_numbers.rt`, `status.rt`; `arrays.rt` writes those of
//! many things. What a handle holds: `held_book.rt` over
//! `raw_box.rt`. The calls, on a book: `book_calls.rt`, `batch.rt`, `listing.rt`, `program_calls.rt`.
#![tactic(auto)]

pub mod arrays;
pub mod batch;
pub mod book_calls;
pub mod claims;
pub mod count_numbers;
pub mod deadlock_numbers;
pub mod held_book;
pub mod listing;
pub mod numbers;
pub mod option_numbers;
pub mod pointers;
pub mod program_calls;
pub mod program_numbers;
pub mod raw_box;
pub mod status;
