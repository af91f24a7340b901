//! A storage engine that locks its files and pages in a book; docs/EMBEDDING.md shows parts of this code under "In Rattle".

ghost use Rattle.std.specs.Prelude.{◌≡◌, ◌≤◌};

use lock_desk::{Book, Call, Mode, NoMemory, Reply, Resource, Why};
use std::process::Abort;
use std::test::Fail;

/// Reacts to the reply to a session's request: waits, commits if it was granted, or else aborts.
fn settle(book: &mut Book, session: u16, reply: Reply) -> Result<Reply, NoMemory>
    requires some { 1 ≤ session }
    requires within { session ≤ book.old.sessions }
    ensures { book.new.sessions ≡ book.old.sessions }
{
    match reply {
        // other sessions go on, and this session polls again later
        Reply::Waiting => Ok(reply),
        // the engine can write the page: a request that waited is granted once a poll is answered Clear
        Reply::Granted(_) | Reply::Clear => book.serve(session, Call::Commit),
        // a victim, or refused: here the engine undoes what the transaction wrote; its locks are held until the abort
        _ => book.serve(session, Call::Abort),
    }
}

/// Begins a transaction and locks a page of database 1 for writing. Returns the reply to the page's lock.
fn lock_page(book: &mut Book, session: u16) -> Result<Reply, Fail>
    requires some { 1 ≤ session }
    requires within { session ≤ book.old.sessions }
    ensures { book.new.sessions ≡ book.old.sessions }
{
    let database = Resource::from_numbers(&[1]).ok_or("no resource")?;
    let file = Resource::from_numbers(&[1, 7]).ok_or("no resource")?;
    let page = Resource::from_numbers(&[1, 7, 40]).ok_or("no resource")?;
    book.serve(session, Call::Begin)?;
    book.serve(session, Call::Lock(database, Mode::IX))?;
    book.serve(session, Call::Lock(file, Mode::IX))?;
    let reply = book.serve(session, Call::Lock(page, Mode::X))?;
    Ok(reply)
}

/// Sessions 1 and 2 write the same page: session 2 waits, and has the page once session 1 has committed. Then session 1 converts a lock
/// that it doesn't have, which is refused, and aborts.
fn write_twice(rt: &impl Abort, book: &mut Book, database: Resource) -> Result<(), Fail>
    requires { 2 ≤ book.old.sessions }
{
    let granted = lock_page(book, 1)?;
    let waiting = lock_page(book, 2)?;
    let waits = settle(book, 2, waiting)?;
    let first = settle(book, 1, granted)?;
    let polled = book.serve(2, Call::Poll)?;
    let second = settle(book, 2, polled)?;
    book.serve(1, Call::Begin)?;
    let refused = book.serve(1, Call::Convert(database, Mode::S))?;
    let ended = settle(book, 1, refused)?;
    let made = [
        granted, waiting, waits, first, polled, second, refused, ended,
    ];
    let want = [
        Reply::Granted(Mode::X),
        Reply::Waiting,
        Reply::Waiting,
        Reply::Committed(3),
        Reply::Clear,
        Reply::Committed(3),
        Reply::Refused(Why::NotHeld),
        Reply::Aborted(0),
    ];
    assert!(rt; made.as_slice() == want.as_slice());
    Ok(())
}

/// An engine commits what was granted, waits, and aborts what was refused.
#[test]
fn an_engine_writes_a_page(rt: HostRuntime) -> Result<(), Fail> {
    let database = Resource::from_numbers(&[1]).ok_or("no resource")?;
    let mut book = Book::new(rt.alloc(), 2)?;
    write_twice(&rt, &mut book, database)
}
