//! A look at the object of an open office.

ghost use Rattle.std.specs.Prelude.{◌≡◌, ◌<◌, IfSome, IfNone, length};
ghost use Rattle.publication.specs.Boards.{HasCallsOf};
ghost use Rattle.combining.specs.Sessions.{IsSessionOf};
ghost use Rattle.combining.specs.Looks.{IsLooking, HasBegunToLook, HasLooked};

use crate::office::Office;
use publication::{Load, Ticket as Session};
use sequential::Batching;

impl<O: Batching> Office<O> {
    /// Tries once for the object, as `serve` does, to look at it: no calls are served. The session has it until `end_look`, and
    /// knows the whole history; meanwhile no other session can become the combiner. The session need not be idle. `None`, with
    /// nothing changed, means that another session had the object, as `Turn::Elsewhere` of `serve` does.
    pub fn look(&self, session: &mut Session<O>) -> Option<Box<Load<O>>>
        requires ours { IsSessionOf self.now session.old }
        ensures looks { IfSome result (λ load. IsLooking O.Sequential self.now session.new load.value) }
        ensures begun { IfSome result (λ _. HasBegunToLook O.Sequential session.old session.new) }
        ensures none { IfNone result ((session.new ≡ session.old) × (1 < self.now.sessions)) }
        ensures calls { HasCallsOf session.new.front session.new }
    {
        self.board.seize(session)
    }

    /// Gives the object back, as `look` has handed it out, and returns how many calls its history has.
    pub fn end_look(&self, session: &mut Session<O>, load: Box<Load<O>>) -> u64
        requires looks { IsLooking O.Sequential self.now session.old load.value }
        ensures ours { IsSessionOf self.now session.new }
        ensures looked { (before : _) → HasBegunToLook O.Sequential before session.old → HasLooked O.Sequential before session.new }
        ensures front { session.new.front ≡ O.history load.value.object }
        ensures length { result ≡ length session.new.front }
        ensures calls { HasCallsOf session.new.front session.new }
    {
        self.board.release(session, load);
        session.seen()
    }
}
