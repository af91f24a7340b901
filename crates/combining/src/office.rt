//! The office and the calls of its sessions.

ghost use Rattle.std.specs.Prelude.{◌≡◌, ◌≢◌, ◌⊎◌, ◌+◌, ◌*◌, ◌<◌, ◌≤◌, ◌↔◌, [], true, false, IsTrue, Some, None, Err, IfOk, IfErr, IfSome, IfNone, length, max};
ghost use Rattle.std.specs.List.{All};
ghost use mathlib.Core.List.{IsPrefix};
ghost use Rattle.sequential.specs.Histories.{calls_of};
ghost use Rattle.publication.specs.StepKinds.{longer, maxes};
ghost use Rattle.publication.specs.Boards.{HasCallsOf, heard_from, published_by, publishing, enlisted, tried, IsUnlisted, new_tickets, IsEachOnce};
ghost use Rattle.combining.specs.Sessions.{IsSessionOf, IsIdle, HasNothingPending, IsPendingServed, HasTriedToList, IsPassed, IsCollected};
ghost use Rattle.combining.specs.Closed.{IsClosed};
ghost use Rattle.combining.specs.Woken.{AreToldBy, entered_since, HasRoom};
ghost use Rattle.combining.specs.Rounds.{IsBound, IsUnmet, AreRounds, IsFull};

mod looks;
mod passes;
mod perform;
mod taking;

use crate::bounds::PassBound;
use crate::listener::Listener;
pub use perform::TryOutcome;
use publication::{Board, CloseFault, Posted, Ticket as Session};
use sequential::{Batching, Fresh, MAX_SESSIONS};
use std::alloc::{AllocError as NoMemory, Global};
use std::marker::Model;
pub use taking::HistoryPiece;
use thiserror::Error;

/// Why an office was not opened.
#[derive(Clone, Copy, Debug, PartialEq, Eq, Error, Drop)]
pub enum OpenFault {
    /// `sessions` was 0.
    #[error("no sessions")]
    NoSessions = 1,
    /// `sessions` was above `MAX_SESSIONS`.
    #[error("too many sessions")]
    TooManySessions = 2,
    /// Memory was refused.
    #[error("out of memory")]
    NoMemory = 3,
}

/// The outcome of one call of `serve`.
#[derive(Clone, Copy, Debug, PartialEq, Eq)]
pub enum Turn {
    /// The session did not become the combiner, because another session had the object. Proved is that the office
    /// has more than one session; that another one had the object is tested, not proved.
    Elsewhere,
    /// The session was the combiner and made a pass.
    Pass {
        /// How many calls it served, in all rounds.
        served: u32,
        /// Whether calls stay published because memory was refused for one in the last round: that call, and those behind it in
        /// the round. What `false` implies is proved (clauses `own` and `heard` of `serve`). That `true` means refused memory is
        /// tested, not proved.
        starved: bool,
        /// Whether the last round saw a published call that it left, since it had taken as much as it may. What `false`
        /// implies is proved (clause `heard` of `serve`), and that a round which leaves a call is full. That `true` means a
        /// published call is tested, not proved.
        left: bool,
    },
}

/// The answer to a published call.
#[derive(Clone, Copy, Debug, PartialEq, Eq)]
pub struct Answer<R> {
    /// The place of the call's entry in the history, from 0 on.
    pub place: u64,
    /// The reply to the call.
    pub reply: R,
}

/// A sequential object that threads share by reference, each with sessions of its own.
///
/// A session publishes a call, then alternates `serve` and `collect` until it gets the answer. All answers belong to
/// one history, in which each reply is the one that the object gives at its place.
#[derive(Drop)]
pub struct Office<O: Batching> {
    /// The board of publication records, which has the object.
    board: Board<O>,
}

impl<O: Batching> Model for Office<O> {
    ghost use Rattle.publication.specs.Views.{BoardView};

    ghost Value = { BoardView };

    ghost use Rattle.combining.specs.declared.office.Office.TheInside.{Inside};

    ghost view = { λ (office : Inside). office.board };
}

impl<O: Batching> Office<O> {
    /// Opens an office of an object that has answered no calls, and returns it with the object's sessions, from 1 on, in order,
    /// all idle. Fails with `NoMemory` if memory is refused; the object is dropped then. Beside this call, only calls that serve
    /// take memory: what the object takes.
    pub fn share(alloc: Global, object: O) -> Result<(Office<O>, Vec<Session<O>>), NoMemory>
        requires empty { O.history object ≡ [] }
        ensures office { IfOk result (λ made. made.0.sessions ≡ O.sessions object) }
        ensures bound { IfOk result (λ made. made.0.bound ≡ O.bound object) }
        ensures sessions { IfOk result (λ made. made.1.items ≡ new_tickets made.0.id (O.sessions object) (O.sessions object)) }
        ensures ready { IfOk result (λ made. All (λ session. IsSessionOf made.0 session × IsIdle session) made.1.items) }
    {
        let (board, sessions) = Board::new(alloc, object)?;
        Ok((Office { board }, sessions))
    }

    /// The number of sessions.
    pub fn sessions(&self) -> u16
        ensures { result ≡ self.now.sessions }
    {
        self.board.sessions()
    }

    /// Publishes a call. The session is pending until it collects the answer. `Listed`: passes of every session visit
    /// its record. `Unlisted`: another session won the exchange of the publication list's head. Each `serve` of the
    /// session then tries the exchange once more, and a pass of its own visits its record in any case.
    pub fn publish(&self, session: &mut Session<O>, call: O::Call) -> Posted
        requires ours { IsSessionOf self.now session.old }
        requires idle { IsIdle session.old }
        ensures ours { IsSessionOf self.now session.new }
        ensures listed { result ≡ Posted.Listed → (session.new ≡ enlisted (publishing session.old call)) ⊎ (session.new ≡ tried (enlisted (publishing session.old call))) }
        ensures heard { result ≡ Posted.Listed → heard_from session.new session.new.number ≡ published_by session.new }
        ensures unlisted { result ≡ Posted.Unlisted → (session.new ≡ tried (publishing session.old call)) × (1 < self.now.sessions) }
    {
        self.board.post(session, call)
    }

    /// Tries once to become the combiner, and if it does, makes a pass: rounds in each of which it serves at most `bound.calls`
    /// calls, and takes no further one once those that it has taken weigh `bound.weight`, as `T` weighs them behind the history with which
    /// the round begins. It makes rounds until one finds no call or memory is refused for one, but at most `bound.rounds`. It has the
    /// object for all rounds. The session need not be pending. If its call isn't listed, it first tries once to have it listed.
    ///
    /// Within [`UNBOUNDED`](crate::UNBOUNDED) it serves every listed call and the session's own. Else a pass serves at most `bound.rounds`
    /// times `bound.calls` calls, however many are published; what it leaves stays published, and the next pass of any session finds it.
    /// More rounds serve more calls for each time that the object is taken, and hold up the session's own thread for longer.
    ///
    /// Calls that go first are served before the others of their round. Both groups are served in the order of the publication list,
    /// behind the session's own call.
    ///
    /// Tells whose wait a call of the pass has ended, as the object says: afterwards `listener` has each of these sessions once, also one that
    /// waits again since, and nobody else; with [`Nobody`](crate::Nobody) it tells nobody. A thread that waits need not ask until a pass
    /// tells its session: whoever made that pass wakes it. `listener` has room for all sessions of the office, so that telling takes no memory.
    /// That a pass tells whose wait it has ended is this project's own.
    pub fn serve<T: Listener<O>>(
        &self,
        session: &mut Session<O>,
        bound: PassBound,
        listener: &mut T,
    ) -> Turn
        requires ours { IsSessionOf self.now session.old }
        requires bound { IsBound bound }
        requires room { HasRoom (T.room listener.old) self.now.sessions }
        ensures ours { IsSessionOf self.now session.new }
        ensures elsewhere { result ≡ Turn.Elsewhere → HasTriedToList session.old session.new × (1 < self.now.sessions) }
        ensures pass { (served : _) (starved left : _) → result ≡ Turn.Pass served starved left → IsPassed O.Sequential session.old session.new served }
        ensures few { (served : _) (starved left : _) → result ≡ Turn.Pass served starved left → served ≤ bound.rounds * bound.calls }
        ensures rounds { (served : _) (left : _) → result ≡ Turn.Pass served false left → AreRounds T.weight bound served session.new.front }
        ensures full { (served : _) → result ≡ Turn.Pass served false true → IsFull T.weight bound served session.new.front }
        ensures all { (served : _) (starved left : _) → result ≡ Turn.Pass served starved left → IsUnmet bound → left ≡ false }
        ensures starved { (served : _) (starved left : _) → result ≡ Turn.Pass served starved left → IsTrue starved ↔ (session.old.put_backs < session.new.put_backs) }
        ensures rises { (j : _) → heard_from session.old j ≤ heard_from session.new j }
        ensures calls { HasCallsOf session.new.front session.new }
        ensures own { (served : _) (left : _) → result ≡ Turn.Pass served false left → session.old.pending ≢ None → IsPendingServed session.new }
        ensures heard { (served j : _) → result ≡ Turn.Pass served false false → 0 < j → j ≤ self.now.sessions
            → heard_from session.old j ≤ length (calls_of j session.new.front) }
        ensures told { AreToldBy T.ends self.now.sessions session.new.front (entered_since session.old session.new) (T.list listener.new) }
        ensures none { result ≡ Turn.Elsewhere → T.list listener.new ≡ [] }
        ensures room { T.room listener.new ≡ T.room listener.old }
        ensures notes { T.notes listener.old session.old.front → T.notes listener.new session.new.front }
    {
        listener.clear();
        self.pass(session, bound, listener)
    }

    /// Takes the answer to the session's published call; each answer is taken once. `None`, with nothing changed,
    /// means that the session isn't pending, or that its call isn't in what the session knows of the history.
    pub fn collect(&self, session: &mut Session<O>) -> Option<Answer<O::Reply>>
        requires ours { IsSessionOf self.now session.old }
        ensures ours { IsSessionOf self.now session.new }
        ensures some { IfSome result (λ answer. IsCollected O.Sequential session.old session.new answer.place answer.reply) }
        ensures idle { IfSome result (λ _. IsIdle session.new) }
        ensures none { IfNone result (session.new ≡ session.old) }
        ensures late { IfNone result (session.old.pending ≢ None → ¬ (IsPendingServed session.old)) }
    {
        let (place, reply) = self.board.take(session)?;
        Some(Answer { place, reply })
    }

    /// Lets `session` learn what `other` knows: the longer of their fronts of the history, one of which begins the
    /// other, and for each session the larger number of calls that either has heard of. `other` learns nothing. What
    /// `session` publishes from then on gets a place behind all that `other` knew. For two sessions that one thread has
    /// in hand.
    pub fn hear(&self, session: &mut Session<O>, other: &mut Session<O>)
        requires ours { IsSessionOf self.now session.old × IsSessionOf self.now other.old }
        ensures ours { IsSessionOf self.now session.new × IsSessionOf self.now other.new }
        ensures other { other.new ≡ other.old }
        ensures session { session.new ≡ record session.old {
          front = longer session.old.front other.old.front;
          heard = maxes session.old.heard other.old.heard;
        } }
        ensures fronts { IsPrefix session.old.front session.new.front × IsPrefix other.old.front session.new.front }
        ensures legal { O.is_legal session.new.front }
        ensures heard { (j : _) → heard_from session.new j ≡ max (heard_from session.old j) (heard_from other.old j) }
        ensures calls { HasCallsOf session.new.front session.new × HasCallsOf session.new.front other.new }
    {
        self.board.hear(session, other);
    }

    /// Retires the session: it publishes no more calls.
    pub fn retire(&self, session: &mut Session<O>)
        requires ours { IsSessionOf self.now session.old }
        requires idle { IsIdle session.old }
        ensures ours { IsSessionOf self.now session.new }
        ensures session { session.new ≡ record session.old { retired = true } }
    {
        self.board.retire(session);
    }

    /// Closes the office and returns the object. Needs each session of the office exactly once, in any order, and none pending. Otherwise it returns the office and the sessions, in their order: with
    /// `Missing` if the vector doesn't hold each session once, else with `Unsettled`. It takes no memory.
    /// `laws::closed_offices_have_one_history` says what the history then is.
    pub fn close(
        self,
        sessions: Vec<Session<O>>,
    ) -> Result<O, (CloseFault, Office<O>, Vec<Session<O>>)>
        requires ours { All (IsSessionOf self) sessions.items }
        ensures ok { IfOk result (λ object. IsClosed O.Sequential self sessions.items object) }
        ensures back { IfErr result (λ refused. (refused.1 ≡ self) × (refused.2.items ≡ sessions.items)) }
        ensures missing { IfErr result (λ refused. refused.0 ≡ CloseFault.Missing → ¬ (IsEachOnce self.sessions sessions.items)) }
        ensures unsettled { IfErr result (λ refused. refused.0 ≡ CloseFault.Unsettled → IsEachOnce self.sessions sessions.items × ¬ (All HasNothingPending sessions.items)) }
    {
        let Office { board } = self;
        match board.gather(sessions) {
            Ok(object) => {
                // every entry is of a session of the object
                let _served = object.served();
                Ok(object)
            }
            Err((fault, board, sessions)) => Err((fault, Office { board }, sessions)),
        }
    }
}

impl<O: Fresh> Office<O> {
    /// Opens an office of a new object for sessions 1 to `sessions`, and returns it with these sessions in order, all idle.
    pub fn open(alloc: Global, sessions: u16) -> Result<(Office<O>, Vec<Session<O>>), OpenFault>
        ensures none { (result ≡ Err OpenFault.NoSessions) ↔ (sessions ≡ 0) }
        ensures many { (result ≡ Err OpenFault.TooManySessions) ↔ (MAX_SESSIONS < sessions) }
        ensures office { IfOk result (λ made. made.0.sessions ≡ sessions) }
        ensures sessions { IfOk result (λ made. made.1.items ≡ new_tickets made.0.id sessions sessions) }
        ensures ready { IfOk result (λ made. All (λ session. IsSessionOf made.0 session × IsIdle session) made.1.items) }
    {
        if sessions == 0 {
            return Err(OpenFault::NoSessions);
        }
        if sessions > MAX_SESSIONS {
            return Err(OpenFault::TooManySessions);
        }
        let Ok(object) = O::fresh(alloc, sessions) else {
            return Err(OpenFault::NoMemory);
        };
        match Office::share(alloc, object) {
            Ok(made) => Ok(made),
            Err(NoMemory) => Err(OpenFault::NoMemory),
        }
    }
}
