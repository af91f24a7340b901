//! What a book tells of numbers that no session has, which the library for C refuses by itself; its bound; and how much memory a program
//! and its answer take.

use lock_desk::{Book, NO_BOUND, Resource};
use lock_programs::{CALLS, Program, ProgramAnswer};
use std::mem::size_of;
use std::process::Abort;
use std::test::Fail;

/// Whether the book tells nothing of a session, in no direction.
fn has_nothing(book: &Book, session: u16, database: Resource) -> bool {
    let mut list = [9];
    let mut right = book.transaction(session).is_none() && book.request(session).is_none();
    right &= book.held(session, database).is_none() && !book.is_waiting(session);
    right &= !book.waits_for(session, 1) && !book.waits_for(1, session);
    right && book.blockers(session, &mut list) == 0 && list == [9]
}

/// Expects a book of two sessions to tell nothing of other numbers, and to have the bound that it was given.
fn want_nothing(rt: &impl Abort, book: &mut Book, database: Resource) {
    let mut right = book.bound() == NO_BOUND;
    for session in [0, 3, 65535] {
        right &= has_nothing(book, session, database);
    }
    book.keep_at_most(1);
    assert!(rt; right && book.bound() == 1);
}

/// A number that no session of a book has tells nothing.
#[test]
fn numbers_of_no_session_tell_nothing(rt: HostRuntime) -> Result<(), Fail> {
    let database = Resource::from_numbers(&[7]).ok_or("no resource")?;
    let mut book = Book::new(rt.alloc(), 2)?;
    want_nothing(&rt, &mut book, database);
    Ok(())
}

/// A program of seven calls takes 40 bytes, and its answer 48.
#[test]
fn programs_and_answers_are_small(rt: HostRuntime) -> Result<(), Fail> {
    assert!(rt; CALLS == 7 && size_of::<Program>() <= 40 && size_of::<ProgramAnswer>() <= 48);
    Ok(())
}
