//! The lock manager for C: exports over books and over the sessions of offices, which C holds by handles in its own memory. An export tests
//! the caller's pointers for null, which C gives by their addresses, takes the value out of the handle, makes one call of `library_books` or
//! `library_sessions`, puts the value back, and returns a status. `bindings/c` makes a whole call of turns. Begin with `book.rt`.
//!
//! - Over a book: `book.rt`, `book_program_exports.rt`, `path_step_exports.rt`. Over sessions: `office.rt`, `publish_exports.rt`,
//!   `turn_exports.rt`, and `bound`, `close`, `knowledge` and `look_exports.rt`. Over a book or a look: all others.
//!
//! Proved: each export states the clauses of its call again, in numbers; one that failed has changed nothing, but for the exceptions told
//! where `library_books` has the statuses. Of what it is given by reference C says that it isn't null: numbers that C keeps for itself, and
//! all of `path_step_exports.rt`. C must keep to the rules for callers in `include/pelgaisti.h`. Only tested: `bindings/c`, and that a
//! status of refused memory means refused memory.
#![tactic(auto)]

/// What the option has. If it has nothing, the export returns the status.
macro_rules! given {
    ($option:expr, $status:expr) => {
        match $option {
            Some(value) => value,
            None => return $status,
        }
    };
}

/// What lies behind each pointer, under the pointer's name. If one is null, or a list in brackets is, the export returns NULL_POINTER.
macro_rules! behind {
    ($pointer:ident) => {
        let $pointer = given!($pointer.get(), NULL_POINTER);
    };
    ([$list:ident]) => {
        if $list.is_null() {
            return NULL_POINTER;
        }
    };
    ($($one:tt),+) => {
        $(behind!($one);)+
    };
}

/// The status of a call on what the handle has, which is taken out of it and put back. If it has nothing, the export returns why.
macro_rules! on {
    ($share:ident held by $session:ident, $alloc:ident => $call:expr) => {
        on!($share, $session.take($alloc), CLOSED, $call, $session.put($share))
    };
    ($table:ident shown by $book:ident, $alloc:ident => $call:expr) => {
        on!($table, $book.take($alloc), CLOSED, $call, $book.put($alloc, $table))
    };
    ($boxed:ident owned by $book:ident, $alloc:ident => $call:expr) => {
        on!($boxed, $book.take_own($alloc), $book.refusal(), $call, $book.put_own($alloc, $boxed))
    };
    ($had:ident, $taken:expr, $refusal:expr, $call:expr, $put:expr) => {{
        let mut $had = given!($taken, $refusal);
        let status = $call;
        $put;
        status
    }};
}

mod book;
mod book_program_exports;
mod bound_exports;
mod close_exports;
mod counter_exports;
mod deadlock_exports;
mod dump_exports;
mod history_exports;
mod knowledge_exports;
mod listing_exports;
mod look_exports;
mod memory_exports;
mod office;
mod page_exports;
mod path_step_exports;
mod publish_exports;
mod turn_exports;
mod version;

pub use version::HEADER_VERSION;
