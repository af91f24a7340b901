//! Whom the passes of a session tell, and how many calls of the history the session knows.

ghost use Rattle.std.specs.Prelude.{◌≡◌, ◌+◌, ◌-◌, ◌^◌, max, min, length};
ghost use Rattle.lock_programs.specs.Answers.{replies_of};
ghost use Rattle.lock_programs.specs.Calls.{calls_of};
ghost use Rattle.lock_office.specs.Weights.{begins_with_an_end};

use combining::{CallOutcome, Listener};
use lock_desk::{Book, Call};
use lock_programs::{Program, ProgramAnswer};
use programs::Programs;

/// Who is told whose waits a session's passes have ended. It has besides what a pass notes for the session. A program weighs as many locks
/// as it gives back.
#[derive(Drop)]
pub struct WithSeen<T> {
    /// Who is told.
    pub listener: T,
    /// How many calls the history had when it was told last.
    pub(crate) seen: u64,
}

impl<T> WithSeen<T> {
    /// Tells this one.
    #[inline(always)]
    pub fn new(listener: T) -> WithSeen<T>
        ensures { result.listener ≡ listener }
    {
        WithSeen { listener, seen: 0 }
    }
}

/// Whether the first call of the program gives back all locks of its session.
fn begins_with_an_end(program: &Program) -> bool
    ensures { result ≡ begins_with_an_end (calls_of program.now) }
{
    if program.length() == 0 {
        return false;
    }
    matches!(program.call(0), Call::Commit | Call::Abort | Call::Restart)
}

impl<T: Listener<Programs<Book>>> Listener<Programs<Book>> for WithSeen<T> {
    ghost use Rattle.std.specs.Prelude.{◌≡◌};
    ghost use Rattle.lock_office.specs.Seen.{number_of_calls};
    ghost use Rattle.lock_office.specs.Weights.{locks_given_back};

    ghost list = { λ c. T.list c.listener };

    ghost room = { λ c. T.room c.listener };

    ghost ends = { T.ends };

    ghost notes = { λ c history. c.seen ≡ number_of_calls history };

    ghost weight = { locks_given_back };

    #[inline(always)]
    fn weigh(object: &Programs<Book>, session: u16, program: &Program) -> u16 {
        if !begins_with_an_end(program) {
            return 0;
        }
        object.object().locks_held(session) as u16
    }

    #[inline(always)]
    fn clear(&mut self) {
        self.listener.clear();
    }

    #[inline(always)]
    fn add(&mut self, object: &Programs<Book>, served: u32) {
        self.listener.add(object, served);
        self.seen = object.object().served();
    }
}

/// How many calls of the history are known to one that knew `seen` of them, once it has the answer to its program.
#[inline(always)]
pub(crate) fn seen_behind(seen: u64, program: &Program, answer: &ProgramAnswer) -> u64
    ensures { result ≡ max seen (min (answer.now.first + length (replies_of program.now answer.now)) (2 ^ 64 - 1)) }
{
    let served = answer.served(program);
    u64::max(seen, answer.first().saturating_add(served as u64))
}

/// The same once it has the answer, if a turn has brought it.
#[inline(always)]
pub(crate) fn seen_next(seen: u64, program: &Program, next: &CallOutcome<ProgramAnswer>) -> u64
    ensures answered { (answer : _) → next.now ≡ CallOutcome.Answered answer
        → result ≡ max seen (min (answer.reply.first + length (replies_of program.now answer.reply)) (2 ^ 64 - 1)) }
    ensures starved { next.now ≡ CallOutcome.Starved → result ≡ seen }
    ensures waits { next.now ≡ CallOutcome.Wait → result ≡ seen }
{
    match next {
        CallOutcome::Answered(found) => seen_behind(seen, program, &found.reply),
        CallOutcome::Starved | CallOutcome::Wait => seen,
    }
}
