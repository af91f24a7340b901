//! Offices of a counter, on one thread.

ghost use Rattle.combining.specs.Sessions.{IsSessionOf, IsIdle};

use combining::{Nobody, Office, OpenFault, Session, Turn, UNBOUNDED};
use flat_combining::examples::Counter;
use flat_combining::{Shared, apply, shared};
use lock_desk::Book;
use sequential::Sequential;
use std::process::Abort;
use std::test::Fail;

/// 0 and 1,025 sessions are refused, and 1,024 are opened.
#[test]
fn an_office_is_opened_for_1_to_1024_sessions(rt: HostRuntime) -> Result<(), Fail> {
    let alloc = rt.alloc();
    let none = Office::<Book>::open(alloc, 0).err();
    assert!(rt; none == Some(OpenFault::NoSessions));
    let many = Office::<Book>::open(alloc, 1025).err();
    assert!(rt; many == Some(OpenFault::TooManySessions));
    let (office, sessions) = Office::<Book>::open(alloc, 1024)?;
    assert!(rt; office.sessions() == 1024 && sessions.len() == 1024);
    Ok(())
}

/// Session 2 performs a call. Session 1 looks at the counter, which has served it. Meanwhile session 2 can't become the combiner.
fn want_look(
    rt: &impl Abort,
    office: &Office<Shared<Counter>>,
    first: &mut Session<Shared<Counter>>,
    second: &mut Session<Shared<Counter>>,
)
    requires first { IsSessionOf office.now first.old }
    requires second { IsSessionOf office.now second.old × IsIdle second.old }
    ensures first { IsSessionOf office.now first.new }
    ensures second { IsSessionOf office.now second.new }
{
    assert!(rt; apply(office, second, 7) == Ok(0));
    let load = office.look(first).expect(rt, "the counter");
    assert!(rt; load.object.served() == 1);
    assert!(rt; office.serve(second, UNBOUNDED, &mut Nobody) == Turn::Elsewhere);
    assert!(rt; office.end_look(first, load) == 1);
}

/// An office of a counter lets a session look at the counter, and gives it back when it is closed.
#[test]
fn an_office_is_looked_into_and_closed(rt: HostRuntime) -> Result<(), Fail> {
    let (office, mut sessions) = Office::share(rt.alloc(), shared(rt.alloc(), Counter::new(), 2))?;
    let mut second = sessions.pop().expect(&rt, "session 2");
    let mut first = sessions.pop().expect(&rt, "session 1");
    want_look(&rt, &office, &mut first, &mut second);
    sessions.push(second)?;
    sessions.push(first)?;
    let counter = office.close(sessions).ok().expect(&rt, "the counter");
    assert!(rt; counter.sessions() == 2 && counter.served() == 1);
    Ok(())
}
