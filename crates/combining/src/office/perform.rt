//! A call that its own session performs, without publishing it.

ghost use Rattle.std.specs.Prelude.{◌≡◌, ◌+◌, ◌*◌, ◌<◌, ◌≤◌, ◌↔◌, [], ℕ, false, IsTrue, None, IfSome, length};
ghost use Rattle.sequential.specs.Histories.{calls_of};
ghost use Rattle.publication.specs.Boards.{HasCallsOf, heard_from};
ghost use Rattle.combining.specs.Sessions.{IsSessionOf, IsIdle, IsPerformed, IsRefused};
ghost use Rattle.combining.specs.Woken.{AreToldBy, HasAddedTold, HasRoom, entered_since};
ghost use Rattle.combining.specs.Rounds.{IsBound, IsUnmet};

use crate::bounds::PassBound;
use crate::listener::Listener;
use crate::office::{Answer, Office};
use crate::own_call::pass_with_own;
use publication::Ticket as Session;
use sequential::Batching;

/// The outcome of one call of `perform`.
#[derive(Clone, Copy, Debug, PartialEq, Eq)]
pub enum TryOutcome<R> {
    /// The session was the combiner: it performed the call, and made a pass.
    Answered {
        /// The place of the call's entry in the history, and the reply.
        answer: Answer<R>,
        /// How many published calls the pass served.
        served: u32,
        /// Whether the pass put published calls back, because memory was refused for one.
        starved: bool,
    },
    /// The session did not become the combiner, because another session had the object. Proved is that the office
    /// has more than one session; that another one had the object is tested, not proved.
    Elsewhere,
    /// The session was the combiner and made a pass, but memory was refused for the call, which was not performed. That
    /// memory was refused is tested, not proved.
    Starved,
}

impl<O: Batching> Office<O> {
    /// Tries once to become the combiner, and if it does, performs the call at once and makes a pass within the bound, as `serve` does.
    /// The call is not published: its entry joins the history and its answer is collected at one step, and the session's
    /// record stays as it is. A call that goes first is performed ahead of the published calls, any other call behind
    /// them.
    ///
    /// `Elsewhere`: nothing changed, and the call may be published instead. `Starved`: the call is not in the history, and
    /// may be performed again or published. The session is idle again in each case. Tells whose wait the pass and the call have ended, as
    /// `serve` does, also if memory was refused for the call. With `Nobody` it reports no ended waits: if threads sleep until a pass tells
    /// of them, every pass has to tell.
    pub fn perform<T: Listener<O>>(
        &self,
        session: &mut Session<O>,
        call: O::Call,
        bound: PassBound,
        listener: &mut T,
    ) -> TryOutcome<O::Reply>
        requires ours { IsSessionOf self.now session.old }
        requires idle { IsIdle session.old }
        requires bound { IsBound bound }
        requires room { HasRoom (T.room listener.old) self.now.sessions }
        ensures ours { IsSessionOf self.now session.new }
        ensures idle { IsIdle session.new }
        ensures answered { (answer : _) (served : _) (starved : _) → result ≡ TryOutcome.Answered answer served starved
            → IsPerformed O.Sequential (O.goes_first call) session.old session.new call answer.place answer.reply served }
        ensures put_back { (answer : _) (served : _) (starved : _) → result ≡ TryOutcome.Answered answer served starved
            → IsTrue starved ↔ (session.old.put_backs < session.new.put_backs) }
        ensures few { length (entered_since session.old session.new) ≤ bound.rounds * bound.calls + 1 }
        ensures heard { (answer : _) (served j : _) → IsUnmet bound → result ≡ TryOutcome.Answered answer served false → 0 < j → j ≤ self.now.sessions
            → heard_from session.old j ≤ length (calls_of j session.new.front) }
        ensures elsewhere { result ≡ TryOutcome.Elsewhere → (session.new ≡ session.old) × (1 < self.now.sessions) }
        ensures refused { result ≡ TryOutcome.Starved → IsRefused O.Sequential session.old session.new }
        ensures calls { HasCallsOf session.new.front session.new }
        ensures told { AreToldBy T.ends self.now.sessions session.new.front (entered_since session.old session.new) (T.list listener.new) }
        ensures none { result ≡ TryOutcome.Elsewhere → T.list listener.new ≡ [] }
        ensures room { T.room listener.new ≡ T.room listener.old }
        ensures notes { T.notes listener.old session.old.front → T.notes listener.new session.new.front }
    {
        listener.clear();
        self.perform_adding(session, &call, bound, listener)
    }

    /// Performs as `perform` does, and adds the sessions whose waits the pass and the call have ended to those that were told.
    #[inline(always)]
    pub(crate) fn perform_adding<T: Listener<O>>(
        &self,
        session: &mut Session<O>,
        call: &O::Call,
        bound: PassBound,
        listener: &mut T,
    ) -> TryOutcome<O::Reply>
        requires ours { IsSessionOf self.now session.old }
        requires idle { IsIdle session.old }
        requires bound { IsBound bound }
        requires room { HasRoom (T.room listener.old) self.now.sessions }
        ensures ours { IsSessionOf self.now session.new }
        ensures idle { IsIdle session.new }
        ensures answered { (answer : _) (served : _) (starved : _) → result ≡ TryOutcome.Answered answer served starved
            → IsPerformed O.Sequential (O.goes_first call.now) session.old session.new call.now answer.place answer.reply served }
        ensures put_back { (answer : _) (served : _) (starved : _) → result ≡ TryOutcome.Answered answer served starved
            → IsTrue starved ↔ (session.old.put_backs < session.new.put_backs) }
        ensures few { length (entered_since session.old session.new) ≤ bound.rounds * bound.calls + 1 }
        ensures heard { (answer : _) (served j : _) → IsUnmet bound → result ≡ TryOutcome.Answered answer served false → 0 < j → j ≤ self.now.sessions
            → heard_from session.old j ≤ length (calls_of j session.new.front) }
        ensures elsewhere { result ≡ TryOutcome.Elsewhere → (session.new ≡ session.old) × (1 < self.now.sessions) }
        ensures refused { result ≡ TryOutcome.Starved → IsRefused O.Sequential session.old session.new }
        ensures calls { HasCallsOf session.new.front session.new }
        ensures told { HasAddedTold T.ends self.now.sessions session.new.front (entered_since session.old session.new) (T.list listener.old) (T.list listener.new) }
        ensures none { result ≡ TryOutcome.Elsewhere → listener.new ≡ listener.old }
        ensures room { T.room listener.new ≡ T.room listener.old }
        ensures notes { T.notes listener.old session.old.front → T.notes listener.new session.new.front }
    {
        let Some(mut load) = self.board.seize(session) else {
            return TryOutcome::Elsewhere;
        };
        let (pass, own) = pass_with_own(&self.board, session, &mut load, call, bound, listener);
        self.board.release(session, load);
        match own {
            Some((place, reply)) => TryOutcome::Answered {
                answer: Answer { place, reply },
                served: pass.served,
                starved: pass.starved,
            },
            None => TryOutcome::Starved,
        }
    }
}
