//! What every way to serve has in common: the pass of a session, up to where it gives the object back, and its end.

ghost use Rattle.std.specs.Prelude.{◌≡◌, ◌≢◌, ◌+◌, ◌*◌, ◌<◌, ◌≤◌, ◌↔◌, [], true, false, IsTrue, None, IfSome, IfNone, length};
ghost use Rattle.sequential.specs.Histories.{calls_of};
ghost use Rattle.publication.specs.Rule.{IsHome};
ghost use Rattle.publication.specs.Boards.{IsOf, OpensNone, HasCallsOf, heard_from};
ghost use Rattle.combining.specs.Sessions.{IsSessionOf, IsPendingServed, HasTriedToList, IsPassed};
ghost use Rattle.combining.specs.Woken.{HasAddedTold, HasRoom, entered_since};
ghost use Rattle.combining.specs.Rounds.{IsBound, IsUnmet, AreRounds, IsFull};
ghost use Rattle.combining.specs.inner.Passes.{HasMadePass};

use crate::bounds::PassBound;
use crate::listener::Listener;
use crate::office::{Office, Turn};
use crate::rounds::{Pass, make_rounds};
use publication::{Load, Ticket as Session};
use sequential::Batching;

/// A pass that a session has made, and what it took from the object's slot and has to give back.
#[derive(Drop)]
struct MadePass<O: Batching> {
    /// The outcome.
    pass: Pass,
    /// The object, and what passes work with.
    load: Box<Load<O>>,
}

impl<O: Batching> Office<O> {
    /// Tries once to have the session's pending call listed, if it has one that isn't.
    pub(crate) fn enlist(&self, session: &mut Session<O>)
        requires ours { IsSessionOf self.now session.old }
        ensures ours { IsSessionOf self.now session.new }
        ensures tried { HasTriedToList session.old session.new }
        ensures heard { (j : _) → heard_from session.old j ≤ heard_from session.new j }
    {
        if session.is_unlisted() {
            self.board.enlist(session);
        }
    }

    /// Has the session's call listed, tries once to become the combiner, and if it does, makes a pass. The session then has the object.
    #[inline(always)]
    fn make_pass<T: Listener<O>>(
        &self,
        session: &mut Session<O>,
        bound: PassBound,
        listener: &mut T,
    ) -> Option<MadePass<O>>
        requires ours { IsSessionOf self.now session.old }
        requires bound { IsBound bound }
        requires room { HasRoom (T.room listener.old) self.now.sessions }
        ensures ours { IsOf self.now session.new }
        ensures made { IfSome result (λ made. HasMadePass O.Sequential self.now.sessions session.old session.new made.load.value made.pass.served) }
        ensures bound { IfSome result (λ made. O.bound made.load.value.object ≡ self.now.bound) }
        ensures has { IfSome result (λ made. (session.new.has_object ≡ true) × (session.new.taken ≡ made.load.value.pieces.items)) }
        ensures back { IfSome result (λ _. OpensNone session.new × (session.new.pending ≢ None → session.new.retired ≡ false)) }
        ensures none { IfNone result (IsSessionOf self.now session.new × HasTriedToList session.old session.new × (1 < self.now.sessions)) }
        ensures few { IfSome result (λ made. made.pass.served ≤ bound.rounds * bound.calls) }
        ensures rounds { IfSome result (λ made. made.pass.starved ≡ false → AreRounds T.weight bound made.pass.served session.new.front) }
        ensures full { IfSome result (λ made. made.pass.starved ≡ false → made.pass.left ≡ true → IsFull T.weight bound made.pass.served session.new.front) }
        ensures all { IfSome result (λ made. IsUnmet bound → made.pass.left ≡ false) }
        ensures starved { IfSome result (λ made. IsTrue made.pass.starved ↔ (session.old.put_backs < session.new.put_backs)) }
        ensures rises { (j : _) → heard_from session.old j ≤ heard_from session.new j }
        ensures calls { IfNone result (HasCallsOf session.new.front session.new) }
        ensures own { IfSome result (λ made. made.pass.starved ≡ false → session.old.pending ≢ None → IsPendingServed session.new) }
        ensures heard { IfSome result (λ made. made.pass.starved ≡ false → made.pass.left ≡ false → (j : _) → 0 < j → j ≤ self.now.sessions
            → heard_from session.old j ≤ length (calls_of j session.new.front)) }
        ensures told { IfSome result (λ _. HasAddedTold T.ends self.now.sessions session.new.front (entered_since session.old session.new) (T.list listener.old) (T.list listener.new)) }
        ensures untold { IfNone result (listener.new ≡ listener.old) }
        ensures room { T.room listener.new ≡ T.room listener.old }
        ensures noted { IfSome result (λ _. T.notes listener.new session.new.front) }
    {
        self.enlist(session);
        let mut load = self.board.seize(session)?;
        let pass = make_rounds(&self.board, session, &mut load, bound, listener);
        Some(MadePass { pass, load })
    }

    /// Gives the object back after a pass.
    fn end_pass(&self, session: &mut Session<O>, made: MadePass<O>) -> Turn
        requires ours { IsOf self.now session.old × (session.old.has_object ≡ true) × OpensNone session.old }
        requires live { session.old.pending ≢ None → session.old.retired ≡ false }
        requires home { IsHome O.Sequential session.old.front (self.now.sessions + 1) made.load.value }
        requires bound { O.bound made.load.value.object ≡ self.now.bound }
        requires taken { session.old.taken ≡ made.load.value.pieces.items }
        ensures ours { IsSessionOf self.now session.new }
        ensures session { session.new ≡ record session.old { has_object = false; route = []; taken = [] } }
        ensures calls { HasCallsOf session.new.front session.new }
        ensures turn { result ≡ Turn.Pass made.pass.served made.pass.starved made.pass.left }
    {
        let MadePass { pass, load } = made;
        self.board.release(session, load);
        Turn::Pass {
            served: pass.served,
            starved: pass.starved,
            left: pass.left,
        }
    }

    /// Serves as `serve` does, and adds the sessions whose waits the pass has ended to those that were told.
    #[inline(always)]
    pub(crate) fn pass<T: Listener<O>>(
        &self,
        session: &mut Session<O>,
        bound: PassBound,
        listener: &mut T,
    ) -> Turn
        requires ours { IsSessionOf self.now session.old }
        requires bound { IsBound bound }
        requires room { HasRoom (T.room listener.old) self.now.sessions }
        ensures ours { IsSessionOf self.now session.new }
        ensures elsewhere { result ≡ Turn.Elsewhere → HasTriedToList session.old session.new × (1 < self.now.sessions) }
        ensures pass { (served : _) (starved left : _) → result ≡ Turn.Pass served starved left → IsPassed O.Sequential session.old session.new served }
        ensures few { (served : _) (starved left : _) → result ≡ Turn.Pass served starved left → served ≤ bound.rounds * bound.calls }
        ensures rounds { (served : _) (left : _) → result ≡ Turn.Pass served false left → AreRounds T.weight bound served session.new.front }
        ensures full { (served : _) → result ≡ Turn.Pass served false true → IsFull T.weight bound served session.new.front }
        ensures all { (served : _) (starved left : _) → result ≡ Turn.Pass served starved left → IsUnmet bound → left ≡ false }
        ensures starved { (served : _) (starved left : _) → result ≡ Turn.Pass served starved left → IsTrue starved ↔ (session.old.put_backs < session.new.put_backs) }
        ensures rises { (j : _) → heard_from session.old j ≤ heard_from session.new j }
        ensures calls { HasCallsOf session.new.front session.new }
        ensures own { (served : _) (left : _) → result ≡ Turn.Pass served false left → session.old.pending ≢ None → IsPendingServed session.new }
        ensures heard { (served j : _) → result ≡ Turn.Pass served false false → 0 < j → j ≤ self.now.sessions
            → heard_from session.old j ≤ length (calls_of j session.new.front) }
        ensures told { HasAddedTold T.ends self.now.sessions session.new.front (entered_since session.old session.new) (T.list listener.old) (T.list listener.new) }
        ensures none { result ≡ Turn.Elsewhere → listener.new ≡ listener.old }
        ensures room { T.room listener.new ≡ T.room listener.old }
        ensures notes { T.notes listener.old session.old.front → T.notes listener.new session.new.front }
    {
        let Some(made) = self.make_pass(session, bound, listener) else {
            return Turn::Elsewhere;
        };
        self.end_pass(session, made)
    }
}
