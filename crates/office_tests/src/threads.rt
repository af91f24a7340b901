//! Sessions of the lock office that are lent to threads.

ghost use Rattle.std.specs.Prelude.{◌≡◌, All, IfOk};
ghost use Rattle.combining.specs.Sessions.{IsSessionOf, IsIdle};

use combining::{CloseFault, Nobody, Posted, UNBOUNDED, call};
use lock_desk::Book;
use lock_office::{Office, Program, Start, Ticket};
use programs::Programs;
use sequential::{Sequential, Trimming};
use std::alloc::{AllocError, Global};
use std::process::Abort;
use std::test::Fail;
use std::thread;
use std::thread::Threads;

/// The greatest number of turns for one answer.
const TURNS: u64 = 1_000_000_000;

/// Makes a program of no path, if the session is idle.
fn make(office: &Office, session: &mut Ticket, start: Start)
    requires ours { IsSessionOf office.now session.old }
    ensures ours { IsSessionOf office.now session.new }
{
    if session.is_idle() {
        let _called = call(
            office,
            session,
            Program::start(start),
            TURNS,
            UNBOUNDED,
            &mut Nobody,
        );
    }
}

/// Begins, commits and begins anew, and makes a program of no calls, which has no entry.
fn work(office: &Office, session: Ticket) -> Ticket
    requires ours { IsSessionOf office.now session × IsIdle session }
    ensures ours { IsSessionOf office.now result }
{
    let mut session = session;
    make(office, &mut session, Start::Begins);
    make(office, &mut session, Start::CommitsAndBegins);
    make(office, &mut session, Start::Nothing);
    session
}

/// Works in a thread for each session, and returns the sessions.
fn work_in_threads<R: Threads + Sync>(
    rt: &R,
    office: &Office,
    sessions: Vec<Ticket>,
) -> Result<Vec<Ticket>, AllocError>
    requires ours { All (λ session. IsSessionOf office.now session × IsIdle session) sessions.items }
    ensures ours { IfOk result (λ sessions. All (IsSessionOf office.now) sessions.items) }
{
    thread::map_vec(rt, sessions, &|session: Ticket| work(office, session))
}

/// Takes the history of 24 calls, and publishes a program of session 1.
fn take_and_post(rt: &impl Abort, alloc: Global, office: &Office, sessions: &mut Vec<Ticket>)
    requires ours { All (IsSessionOf office.now) sessions.old.items }
    ensures ours { All (IsSessionOf office.now) sessions.new.items }
{
    assert!(rt; sessions.len() == 8);
    let first = &mut sessions[0];
    let piece = office.take_history(alloc, first).expect(rt, "a piece");
    assert!(rt; piece.first == 0 && piece.lines.len() == 24 && piece.written == 24);
    assert!(rt; first.is_idle());
    assert!(rt; office.publish(first, Program::start(Start::Commits)) == Posted::Listed);
}

/// Wants the close to be refused with this fault. Returns the office and its sessions, unchanged.
fn refused(
    rt: &impl Abort,
    office: Office,
    sessions: Vec<Ticket>,
    wanted: CloseFault,
) -> (Office, Vec<Ticket>)
    requires ours { All (IsSessionOf office) sessions.items }
    ensures office { result.0 ≡ office }
    ensures sessions { result.1.items ≡ sessions.items }
{
    let (fault, office, sessions) = office.close(sessions).err().expect(rt, "a fault");
    assert!(rt; fault == wanted);
    (office, sessions)
}

/// Serves the program of session 1, which retires and becomes the last of the sessions.
fn settle(rt: &impl Abort, office: &Office, sessions: &mut Vec<Ticket>)
    requires ours { All (IsSessionOf office.now) sessions.old.items }
    ensures ours { All (IsSessionOf office.now) sessions.new.items }
{
    assert!(rt; sessions.len() == 8 && sessions[0].number() == 1);
    let mut first = sessions.remove(0);
    let _turn = office.serve(&mut first, UNBOUNDED, &mut Nobody);
    assert!(rt; office.collect(&mut first).is_some());
    assert!(rt; first.is_idle());
    office.retire(&mut first);
    assert!(rt; sessions.push(first).is_ok());
}

/// The closed office's object has served three programs of each session and one more, and keeps its last call.
fn want_served(rt: &impl Abort, object: &Programs<Book>) {
    assert!(rt; object.served() == 25 && object.kept_from() == 24 && object.kept().len() == 1);
}

/// Eight threads make three programs each, of which the history has three calls. The office isn't closed without its sessions, or while
/// a program is pending; then it is, with the sessions in another order.
#[test]
fn threads_make_programs(rt: HostRuntime) -> Result<(), Fail> {
    let (office, sessions) = Office::open(rt.alloc(), 8)?;
    let mut sessions = work_in_threads(&rt, &office, sessions)?;
    take_and_post(&rt, rt.alloc(), &office, &mut sessions);
    let (office, _none) = refused(&rt, office, Vec::new(rt.alloc()), CloseFault::Missing);
    let (office, mut sessions) = refused(&rt, office, sessions, CloseFault::Unsettled);
    settle(&rt, &office, &mut sessions);
    let object = office.close(sessions).ok().expect(&rt, "the object");
    want_served(&rt, &object);
    Ok(())
}
