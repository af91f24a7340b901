//! A whole call of a session, turn by turn: performed at once where the object is free, else published, served and collected. Which turns try
//! for the object is the caller's choice; `call` and `resume` make theirs by `backoff.rt`.

ghost use Rattle.std.specs.Prelude.{◌≡◌, ◌≢◌, ◌⊎◌, ◌+◌, ◌<◌, ◌≤◌, true, false, None, length};
ghost use Rattle.combining.specs.Sessions.{IsSessionOf, IsIdle, IsPendingServed};
ghost use Rattle.combining.specs.Calls.{IsCalled, IsCalling, IsAnswered, IsWaitingOn, HasStarved, HasStarvedCalling, HasGoneOn};
ghost use Rattle.combining.specs.Turns.{HasAttempted, HasAwaited};
ghost use Rattle.combining.specs.Woken.{AreToldBy, HasAddedTold, HasRoom, IsNotedUpTo, entered_since};
ghost use Rattle.combining.specs.Rounds.{most_of};

use crate::backoff::{back_off, tries_at};
use crate::bounds::PassBound;
use crate::listener::Listener;
use crate::office::{Answer, Office, TryOutcome, Turn};
use publication::Ticket as Session;
use sequential::Batching;

/// The outcome of one turn of a call, and of the turns of `call` and `resume`.
#[derive(Clone, Copy, Debug, PartialEq, Eq)]
pub enum CallOutcome<R> {
    /// The answer. The session is idle.
    Answered(Answer<R>),
    /// Memory was refused in a pass of the session, and the call has no answer yet. It is published and pending. Another turn goes
    /// on with it.
    Starved,
    /// No answer yet. Another turn goes on, after a wait. How long a session waits is not said here. After `call` and `resume` the call is
    /// published and pending.
    Wait,
}

/// Tries once to serve, if `tries`. Returns whether the session made a pass in which memory was refused.
fn pass_if<O: Batching, T: Listener<O>>(
    office: &Office<O>,
    session: &mut Session<O>,
    tries: bool,
    bound: PassBound,
    listener: &mut T,
) -> bool
    requires ours { IsSessionOf office.now session.old }
    requires pending { session.old.pending ≢ None }
    requires room { HasRoom (T.room listener.old) office.now.sessions }
    ensures ours { IsSessionOf office.now session.new }
    ensures waits { IsWaitingOn session.old session.new }
    ensures starved { result ≡ true → session.old.put_backs < session.new.put_backs }
    ensures served { result ≡ false → tries ≡ true → IsPendingServed session.new ⊎ (1 < office.now.sessions) }
    ensures few { length (entered_since session.old session.new) ≤ most_of bound }
    ensures told { HasAddedTold T.ends office.now.sessions session.new.front (entered_since session.old session.new) (T.list listener.old) (T.list listener.new) }
    ensures room { T.room listener.new ≡ T.room listener.old }
    ensures notes { T.notes listener.old session.old.front → T.notes listener.new session.new.front }
{
    if !tries {
        return false;
    }
    match office.pass(session, bound.at_least_one(), listener) {
        Turn::Pass { starved, .. } => starved,
        Turn::Elsewhere => false,
    }
}

/// Makes one turn of the pending call of a session: tries to serve first, if `tries`, and looks for the answer. It serves within the
/// bound, in which a 0 counts as 1, as `Office::serve` does.
///
/// Adds the sessions whose waits the pass has ended to those that were told.
#[inline(never)]
pub fn look<O: Batching, T: Listener<O>>(
    office: &Office<O>,
    session: &mut Session<O>,
    tries: bool,
    bound: PassBound,
    listener: &mut T,
) -> CallOutcome<O::Reply>
    requires ours { IsSessionOf office.now session.old }
    requires pending { session.old.pending ≢ None }
    requires room { HasRoom (T.room listener.old) office.now.sessions }
    ensures ours { IsSessionOf office.now session.new }
    ensures awaited { HasAwaited session.old session.new (IsAnswered O.Sequential session.old session.new) result }
    ensures others { result ≡ CallOutcome.Wait → tries ≡ true → 1 < office.now.sessions }
    ensures few { length (entered_since session.old session.new) ≤ most_of bound }
    ensures told { HasAddedTold T.ends office.now.sessions session.new.front (entered_since session.old session.new) (T.list listener.old) (T.list listener.new) }
    ensures room { T.room listener.new ≡ T.room listener.old }
    ensures noted { (answer : _) → result ≡ CallOutcome.Answered answer → T.notes listener.old session.old.front → IsNotedUpTo (T.notes listener.new) session.new.front (answer.place + 1) }
    ensures notes_starved { result ≡ CallOutcome.Starved → T.notes listener.old session.old.front → T.notes listener.new session.new.front }
    ensures notes_waits { result ≡ CallOutcome.Wait → T.notes listener.old session.old.front → T.notes listener.new session.new.front }
{
    let starved = pass_if(office, session, tries, bound, listener);
    if let Some(answer) = office.collect(session) {
        return CallOutcome::Answered(answer);
    }
    if starved {
        return CallOutcome::Starved;
    }
    CallOutcome::Wait
}

/// Tries once to perform the call of an idle session at once, and then also makes a pass within the bound, in which a 0 counts as 1. `Wait`:
/// another session had the object, and nothing has changed. A call for which memory was refused is published.
///
/// Adds the sessions whose waits the call and the pass have ended to those that were told.
#[inline(always)]
pub fn attempt<O: Batching, T: Listener<O>>(
    office: &Office<O>,
    session: &mut Session<O>,
    call: &O::Call,
    bound: PassBound,
    listener: &mut T,
) -> CallOutcome<O::Reply>
    requires ours { IsSessionOf office.now session.old }
    requires idle { IsIdle session.old }
    requires room { HasRoom (T.room listener.old) office.now.sessions }
    ensures ours { IsSessionOf office.now session.new }
    ensures attempted { HasAttempted session.old session.new office.now.sessions (IsCalled O.Sequential session.old session.new call.now)
        (IsCalling session.old session.new call.now) (HasStarvedCalling O.Sequential session.old session.new call.now) result }
    ensures few { length (entered_since session.old session.new) ≤ most_of bound + 1 }
    ensures told { HasAddedTold T.ends office.now.sessions session.new.front (entered_since session.old session.new) (T.list listener.old) (T.list listener.new) }
    ensures room { T.room listener.new ≡ T.room listener.old }
    ensures noted { (answer : _) → result ≡ CallOutcome.Answered answer → T.notes listener.old session.old.front → IsNotedUpTo (T.notes listener.new) session.new.front (answer.place + 1) }
    ensures notes_starved { result ≡ CallOutcome.Starved → T.notes listener.old session.old.front → T.notes listener.new session.new.front }
    ensures notes_waits { result ≡ CallOutcome.Wait → T.notes listener.old session.old.front → T.notes listener.new session.new.front }
{
    match office.perform_adding(session, call, bound.at_least_one(), listener) {
        TryOutcome::Answered { answer, .. } => CallOutcome::Answered(answer),
        TryOutcome::Elsewhere => CallOutcome::Wait,
        TryOutcome::Starved => {
            let _posted = office.publish(session, *call);
            CallOutcome::Starved
        }
    }
}

/// Publishes the call, unless the session has a call pending: it is unchanged then.
pub fn publish_if_idle<O: Batching>(office: &Office<O>, session: &mut Session<O>, call: O::Call)
    requires ours { IsSessionOf office.now session.old }
    requires live { session.old.retired ≡ false }
    ensures ours { IsSessionOf office.now session.new }
    ensures published { session.old.pending ≡ None → IsCalling session.old session.new call }
    ensures same { session.old.pending ≢ None → session.new ≡ session.old }
    ensures known { (session.new.front ≡ session.old.front) × (session.new.entered ≡ session.old.entered) }
{
    if session.is_idle() {
        let _posted = office.publish(session, call);
    }
}

/// Goes on with the pending call as `resume` does, and adds the sessions whose waits its passes have ended to those that were told.
fn go_on<O: Batching, T: Listener<O>>(
    office: &Office<O>,
    session: &mut Session<O>,
    turns: u64,
    bound: PassBound,
    listener: &mut T,
) -> CallOutcome<O::Reply>
    requires ours { IsSessionOf office.now session.old }
    requires pending { session.old.pending ≢ None }
    requires room { HasRoom (T.room listener.old) office.now.sessions }
    ensures ours { IsSessionOf office.now session.new }
    ensures answered { (answer : _) → result ≡ CallOutcome.Answered answer → IsAnswered O.Sequential session.old session.new answer.place answer.reply }
    ensures idle { (answer : _) → result ≡ CallOutcome.Answered answer → IsIdle session.new }
    ensures waits { result ≡ CallOutcome.Wait → IsWaitingOn session.old session.new }
    ensures starved { result ≡ CallOutcome.Starved → HasStarved session.old session.new }
    ensures others { result ≡ CallOutcome.Wait → 0 < turns → 1 < office.now.sessions }
    ensures on { HasGoneOn session.old session.new }
    ensures told { HasAddedTold T.ends office.now.sessions session.new.front (entered_since session.old session.new) (T.list listener.old) (T.list listener.new) }
    ensures room { T.room listener.new ≡ T.room listener.old }
    ensures noted { (answer : _) → result ≡ CallOutcome.Answered answer → T.notes listener.old session.old.front → IsNotedUpTo (T.notes listener.new) session.new.front (answer.place + 1) }
    ensures notes_starved { result ≡ CallOutcome.Starved → T.notes listener.old session.old.front → T.notes listener.new session.new.front }
    ensures notes_waits { result ≡ CallOutcome.Wait → T.notes listener.old session.old.front → T.notes listener.new session.new.front }
{
    for looked in 0..turns {
        match look(office, session, tries_at(looked), bound, listener) {
            CallOutcome::Answered(answer) => return CallOutcome::Answered(answer),
            CallOutcome::Starved => return CallOutcome::Starved,
            CallOutcome::Wait => back_off(looked),
        }
    }
    CallOutcome::Wait
}

/// Goes on with the pending call of a session: looks for the answer in at most `turns` turns, with waits between them. `Wait`: the
/// answer wasn't there, and `resume` goes on. `Starved`: the session made a pass in which memory was refused. Tells whose waits the
/// session's passes have ended, as `Office::serve` tells it of a pass.
pub fn resume<O: Batching, T: Listener<O>>(
    office: &Office<O>,
    session: &mut Session<O>,
    turns: u64,
    bound: PassBound,
    listener: &mut T,
) -> CallOutcome<O::Reply>
    requires ours { IsSessionOf office.now session.old }
    requires pending { session.old.pending ≢ None }
    requires room { HasRoom (T.room listener.old) office.now.sessions }
    ensures ours { IsSessionOf office.now session.new }
    ensures answered { (answer : _) → result ≡ CallOutcome.Answered answer → IsAnswered O.Sequential session.old session.new answer.place answer.reply }
    ensures idle { (answer : _) → result ≡ CallOutcome.Answered answer → IsIdle session.new }
    ensures waits { result ≡ CallOutcome.Wait → IsWaitingOn session.old session.new }
    ensures starved { result ≡ CallOutcome.Starved → HasStarved session.old session.new }
    ensures others { result ≡ CallOutcome.Wait → 0 < turns → 1 < office.now.sessions }
    ensures told { AreToldBy T.ends office.now.sessions session.new.front (entered_since session.old session.new) (T.list listener.new) }
    ensures room { T.room listener.new ≡ T.room listener.old }
    ensures noted { (answer : _) → result ≡ CallOutcome.Answered answer → T.notes listener.old session.old.front → IsNotedUpTo (T.notes listener.new) session.new.front (answer.place + 1) }
    ensures notes_starved { result ≡ CallOutcome.Starved → T.notes listener.old session.old.front → T.notes listener.new session.new.front }
    ensures notes_waits { result ≡ CallOutcome.Wait → T.notes listener.old session.old.front → T.notes listener.new session.new.front }
{
    listener.clear();
    go_on(office, session, turns, bound, listener)
}

/// Makes a call of an idle session: tries once to perform it at once, else publishes it, and then looks for the answer in at most `turns`
/// turns, as `resume` does.
///
/// `Answered`: the session is idle again. `Wait` and `Starved` leave the call published and pending. `Starved`: memory was
/// refused for the call, or in a pass of the session. Tells whose waits the call and the session's passes have ended, as
/// `Office::serve` tells it of a pass, whatever the outcome.
pub fn call<O: Batching, T: Listener<O>>(
    office: &Office<O>,
    session: &mut Session<O>,
    call: O::Call,
    turns: u64,
    bound: PassBound,
    listener: &mut T,
) -> CallOutcome<O::Reply>
    requires ours { IsSessionOf office.now session.old }
    requires idle { IsIdle session.old }
    requires room { HasRoom (T.room listener.old) office.now.sessions }
    ensures ours { IsSessionOf office.now session.new }
    ensures answered { (answer : _) → result ≡ CallOutcome.Answered answer → IsCalled O.Sequential session.old session.new call answer.place answer.reply }
    ensures idle { (answer : _) → result ≡ CallOutcome.Answered answer → IsIdle session.new }
    ensures waits { result ≡ CallOutcome.Wait → IsCalling session.old session.new call × (1 < office.now.sessions) }
    ensures starved { result ≡ CallOutcome.Starved → IsCalling session.old session.new call }
    ensures refused { result ≡ CallOutcome.Starved → HasStarvedCalling O.Sequential session.old session.new call }
    ensures told { AreToldBy T.ends office.now.sessions session.new.front (entered_since session.old session.new) (T.list listener.new) }
    ensures room { T.room listener.new ≡ T.room listener.old }
    ensures noted { (answer : _) → result ≡ CallOutcome.Answered answer → T.notes listener.old session.old.front → IsNotedUpTo (T.notes listener.new) session.new.front (answer.place + 1) }
    ensures notes_starved { result ≡ CallOutcome.Starved → T.notes listener.old session.old.front → T.notes listener.new session.new.front }
    ensures notes_waits { result ≡ CallOutcome.Wait → T.notes listener.old session.old.front → T.notes listener.new session.new.front }
{
    listener.clear();
    let asked = call;
    match attempt(office, session, &asked, bound, listener) {
        CallOutcome::Answered(answer) => CallOutcome::Answered(answer),
        CallOutcome::Starved => CallOutcome::Starved,
        CallOutcome::Wait => {
            publish_if_idle(office, session, asked);
            go_on(office, session, turns, bound, listener)
        }
    }
}
