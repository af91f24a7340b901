//! Bounded passes of an office of a counter, on one thread.

ghost use Rattle.std.specs.Prelude.{◌≡◌, ◌<◌, ◌≤◌, IfOk, All};
ghost use Rattle.publication.specs.Boards.{new_tickets};
ghost use Rattle.combining.specs.Sessions.{IsSessionOf, IsIdle};
ghost use Rattle.combining.specs.Rounds.{IsBound};

use combining::{Answer, Listener, Nobody, Office, PassBound, Session, TryOutcome, Turn};
use flat_combining::examples::Counter;
use flat_combining::{Shared, shared};
use sequential::MAX_SESSIONS;
use std::alloc::{AllocError, Global};
use std::process::Abort;
use std::test::Fail;

/// A counter that an office shares.
type Counting = Shared<Counter>;

/// Tells nobody, and weighs a call of the counter by what it adds, up to `MAX_WEIGHT`.
#[derive(Clone, Copy)]
struct Weighing;

impl Listener<Counting> for Weighing {
    ghost use Rattle.std.specs.Prelude.{[], None, min};

    ghost list = { λ _. [] };

    ghost room = { λ _. None };

    ghost ends = { λ _ _ _. ⊥ };

    ghost notes = { λ _ _. Unit };

    ghost weight = { λ _ _ adds. min adds 65535 };

    fn weigh(_object: &Counting, _session: u16, adds: &u32) -> u16 {
        u32::min(*adds, 65_535) as u16
    }

    fn clear(&mut self) {}

    fn add(&mut self, _object: &Counting, _served: u32) {}
}

/// Opens an office of a counter.
fn share_counter(
    alloc: Global,
    sessions: u16,
) -> Result<(Office<Counting>, Vec<Session<Counting>>), AllocError>
    requires some { (1 ≤ sessions) × (sessions ≤ MAX_SESSIONS) }
    ensures office { IfOk result (λ made. made.0.sessions ≡ sessions) }
    ensures sessions { IfOk result (λ made. made.1.items ≡ new_tickets made.0.id sessions sessions) }
    ensures ready { IfOk result (λ made. All (λ session. IsSessionOf made.0 session × IsIdle session) made.1.items) }
{
    Office::share(alloc, shared(alloc, Counter::new(), sessions))
}

/// A pass of the session in at most `rounds` rounds of at most `calls` calls each, whatever they weigh, has this outcome.
fn want_pass(
    rt: &impl Abort,
    office: &Office<Counting>,
    session: &mut Session<Counting>,
    calls: u16,
    rounds: u16,
    want: Turn,
)
    requires ours { IsSessionOf office.now session.old }
    requires some { (0 < calls) × (0 < rounds) }
    ensures ours { IsSessionOf office.now session.new }
{
    let bound = PassBound {
        calls,
        weight: u32::MAX,
        rounds,
    };
    assert!(rt; office.serve(session, bound, &mut Nobody) == want);
}

/// The outcome of a pass that served so many calls, and may have left some.
fn passed(served: u32, left: bool) -> Turn {
    Turn::Pass {
        served,
        starved: false,
        left,
    }
}

/// The session collects its answer, which has this place and reply.
fn want_answer(
    rt: &impl Abort,
    office: &Office<Counting>,
    session: &mut Session<Counting>,
    place: u64,
    reply: u64,
)
    requires ours { IsSessionOf office.now session.old }
    ensures ours { IsSessionOf office.now session.new }
{
    assert!(rt; office.collect(session) == Some(Answer { place, reply }));
}

/// Three sessions publish a call each. A round of one call serves that of its own session and leaves two; then two rounds of one call
/// serve these, the last published first, and a third pass finds none.
fn want_rounds(
    rt: &impl Abort,
    office: &Office<Counting>,
    first: &mut Session<Counting>,
    second: &mut Session<Counting>,
    third: &mut Session<Counting>,
)
    requires first { IsSessionOf office.now first.old × IsIdle first.old }
    requires second { IsSessionOf office.now second.old × IsIdle second.old }
    requires third { IsSessionOf office.now third.old × IsIdle third.old }
    ensures first { IsSessionOf office.now first.new }
    ensures second { IsSessionOf office.now second.new }
    ensures third { IsSessionOf office.now third.new }
{
    let _posted = office.publish(first, 1);
    let _posted = office.publish(second, 2);
    let _posted = office.publish(third, 4);
    want_pass(rt, office, first, 1, 1, passed(1, true));
    want_answer(rt, office, first, 0, 0);
    assert!(rt; office.collect(second) == None && office.collect(third) == None);
    want_pass(rt, office, first, 1, 2, passed(2, false));
    want_answer(rt, office, third, 1, 1);
    want_answer(rt, office, second, 2, 5);
    want_pass(rt, office, first, 1, 2, passed(0, false));
}

/// Rounds serve no more than their bound, the session's own call first, and what they leave is found by the next pass. While another
/// session has the counter, there is no pass.
#[test]
fn a_bounded_pass_serves_so_many_calls_and_tells_whether_some_are_left(
    rt: HostRuntime,
) -> Result<(), Fail> {
    let (office, mut sessions) = share_counter(rt.alloc(), 3)?;
    let mut third = sessions.pop().expect(&rt, "session 3");
    let mut second = sessions.pop().expect(&rt, "session 2");
    let mut first = sessions.pop().expect(&rt, "session 1");
    want_rounds(&rt, &office, &mut first, &mut second, &mut third);
    let load = office.look(&mut first).expect(&rt, "the counter");
    want_pass(&rt, &office, &mut second, 4, 4, Turn::Elsewhere);
    assert!(rt; office.end_look(&mut first, load) == 3);
    Ok(())
}

/// A round of the session that takes no call once those that it has taken weigh `weight` has this outcome.
fn want_weighed(
    rt: &impl Abort,
    office: &Office<Counting>,
    session: &mut Session<Counting>,
    weight: u32,
    want: Turn,
)
    requires ours { IsSessionOf office.now session.old }
    requires some { 0 < weight }
    ensures ours { IsSessionOf office.now session.new }
{
    let bound = PassBound {
        calls: 10,
        weight,
        rounds: 1,
    };
    assert!(rt; office.serve(session, bound, &mut Weighing) == want);
}

/// An idle session publishes a call that adds so much.
fn post(rt: &impl Abort, office: &Office<Counting>, session: &mut Session<Counting>, adds: u32)
    requires ours { IsSessionOf office.now session.old }
    ensures ours { IsSessionOf office.now session.new }
{
    assert!(rt; session.is_idle());
    let _posted = office.publish(session, adds);
}

/// Sessions 1 to 4 publish calls of the weights 3, 2, 4 and 1. A round up to a weight of 5 takes its own call of 3, that of session 4,
/// which makes 4, and that of session 3, which makes 8; session 2 is left.
fn want_round_of_weight(
    rt: &impl Abort,
    office: &Office<Counting>,
    first: &mut Session<Counting>,
    second: &mut Session<Counting>,
    third: &mut Session<Counting>,
    fourth: &mut Session<Counting>,
)
    requires first { IsSessionOf office.now first.old }
    requires second { IsSessionOf office.now second.old }
    requires third { IsSessionOf office.now third.old }
    requires fourth { IsSessionOf office.now fourth.old }
    ensures first { IsSessionOf office.now first.new }
    ensures second { IsSessionOf office.now second.new }
    ensures third { IsSessionOf office.now third.new }
    ensures fourth { IsSessionOf office.now fourth.new }
{
    post(rt, office, first, 3);
    post(rt, office, second, 2);
    post(rt, office, third, 4);
    post(rt, office, fourth, 1);
    want_weighed(rt, office, first, 5, passed(3, true));
    want_answer(rt, office, first, 0, 0);
    want_answer(rt, office, fourth, 1, 3);
    want_answer(rt, office, third, 2, 4);
    assert!(rt; office.collect(second) == None);
}

/// Behind `want_round_of_weight`, session 4 publishes a call without weight, and session 1 one of 5. Rounds up to a weight of 1 take
/// first the own call of session 1 alone; then that of session 4 and, since it weighs nothing, that of session 2; and then none.
fn want_rounds_of_weight_one(
    rt: &impl Abort,
    office: &Office<Counting>,
    first: &mut Session<Counting>,
    second: &mut Session<Counting>,
    fourth: &mut Session<Counting>,
)
    requires first { IsSessionOf office.now first.old }
    requires second { IsSessionOf office.now second.old }
    requires fourth { IsSessionOf office.now fourth.old }
    ensures first { IsSessionOf office.now first.new }
    ensures second { IsSessionOf office.now second.new }
    ensures fourth { IsSessionOf office.now fourth.new }
{
    post(rt, office, fourth, 0);
    post(rt, office, first, 5);
    want_weighed(rt, office, first, 1, passed(1, true));
    want_answer(rt, office, first, 3, 8);
    assert!(rt; office.collect(second) == None && office.collect(fourth) == None);
    want_weighed(rt, office, first, 1, passed(2, false));
    want_answer(rt, office, fourth, 4, 13);
    want_answer(rt, office, second, 5, 13);
    want_weighed(rt, office, first, 1, passed(0, false));
}

/// A round takes no further call once those that it has taken weigh as much as it may take, and it serves the one by which they do.
#[test]
fn a_round_stops_at_its_weight(rt: HostRuntime) -> Result<(), Fail> {
    let (office, mut sessions) = share_counter(rt.alloc(), 4)?;
    let mut fourth = sessions.pop().expect(&rt, "session 4");
    let mut third = sessions.pop().expect(&rt, "session 3");
    let mut second = sessions.pop().expect(&rt, "session 2");
    let mut first = sessions.pop().expect(&rt, "session 1");
    want_round_of_weight(
        &rt,
        &office,
        &mut first,
        &mut second,
        &mut third,
        &mut fourth,
    );
    want_rounds_of_weight_one(&rt, &office, &mut first, &mut second, &mut fourth);
    Ok(())
}

/// An idle session performs a call that adds 10 within a bound. The call has this answer, behind so many published ones.
fn want_performed(
    rt: &impl Abort,
    office: &Office<Counting>,
    session: &mut Session<Counting>,
    bound: PassBound,
    answer: Answer<u64>,
    served: u32,
)
    requires ours { IsSessionOf office.now session.old }
    requires bound { IsBound bound }
    ensures ours { IsSessionOf office.now session.new }
{
    assert!(rt; session.is_idle());
    let want = TryOutcome::Answered {
        answer,
        served,
        starved: false,
    };
    assert!(rt; office.perform(session, 10, bound, &mut Weighing) == want);
}

/// An answer that has this place and reply.
fn answer(place: u64, reply: u64) -> Answer<u64> {
    Answer { place, reply }
}

/// Sessions 2 to 4 publish calls. Session 1 performs one behind a round of two calls, of session 4 and 3; then, once session 3 has
/// published another, behind a round up to a weight of 5, which that call reaches; and then behind that of session 2, which is left.
fn want_bounded_calls(
    rt: &impl Abort,
    office: &Office<Counting>,
    first: &mut Session<Counting>,
    second: &mut Session<Counting>,
    third: &mut Session<Counting>,
    fourth: &mut Session<Counting>,
)
    requires first { IsSessionOf office.now first.old }
    requires second { IsSessionOf office.now second.old }
    requires third { IsSessionOf office.now third.old }
    requires fourth { IsSessionOf office.now fourth.old }
    ensures first { IsSessionOf office.now first.new }
    ensures second { IsSessionOf office.now second.new }
    ensures third { IsSessionOf office.now third.new }
    ensures fourth { IsSessionOf office.now fourth.new }
{
    post(rt, office, second, 1);
    post(rt, office, third, 2);
    post(rt, office, fourth, 4);
    let two = PassBound {
        calls: 2,
        weight: 100,
        rounds: 1,
    };
    want_performed(rt, office, first, two, answer(2, 6), 2);
    want_answer(rt, office, fourth, 0, 0);
    want_answer(rt, office, third, 1, 4);
    assert!(rt; office.collect(second) == None);
    post(rt, office, third, 5);
    let light = PassBound {
        calls: 2,
        weight: 5,
        rounds: 1,
    };
    want_performed(rt, office, first, light, answer(4, 21), 1);
    want_answer(rt, office, third, 3, 16);
    assert!(rt; office.collect(second) == None);
    want_performed(rt, office, first, light, answer(6, 32), 1);
    want_answer(rt, office, second, 5, 31);
}

/// A call that is performed with a bounded pass is behind no more published calls than the bound, and leaves the others.
#[test]
fn a_call_at_once_serves_no_more_than_its_bound(rt: HostRuntime) -> Result<(), Fail> {
    let (office, mut sessions) = share_counter(rt.alloc(), 4)?;
    let mut fourth = sessions.pop().expect(&rt, "session 4");
    let mut third = sessions.pop().expect(&rt, "session 3");
    let mut second = sessions.pop().expect(&rt, "session 2");
    let mut first = sessions.pop().expect(&rt, "session 1");
    want_bounded_calls(
        &rt,
        &office,
        &mut first,
        &mut second,
        &mut third,
        &mut fourth,
    );
    Ok(())
}
