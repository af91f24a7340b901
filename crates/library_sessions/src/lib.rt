//! The library for C over the sessions of an office: what the exports of `pelgaisti_c` do with a session and its share of the office.
//!
//! The handles: `session_handle.rt`, and what is in it: `held_share.rt`, `session_share.rt`; and `book_handle.rt`, of a book or of a look.
//! Pointers of C to handles: `pointers.rt`. Opening and closing: `opening.rt`, `hand_in.rt`. The calls, on the share that a handle holds:
//! `session_calls.rt`, `turn_calls.rt`, `looks.rt`, `bounds.rt`. Questions of a book: `deadlocks.rt`, `pages.rt`, `dump.rt`.
#![tactic(auto)]

pub mod book_handle;
pub mod bounds;
pub mod deadlocks;
pub mod dump;
pub mod hand_in;
pub mod held_share;
pub mod looks;
pub mod opening;
pub mod pages;
pub mod pass_count_numbers;
pub mod pointers;
pub mod session_calls;
pub mod session_handle;
pub mod session_share;
pub mod turn_calls;
