//! A look of a session at the lock table of its open office.

ghost use Rattle.std.specs.Prelude.{◌≡◌, ◌<◌, [], IfSome, IfNone};
ghost use Rattle.publication.specs.Boards.{HasCallsOf};
ghost use Rattle.lock_office.specs.ProgramBoards.{flat_history};
ghost use Rattle.lock_office.specs.Sessions.{IsSessionOf, IsLooking, HasBegunToLook, HasLooked};

use crate::Office;
use crate::session::Session;
use lock_desk::Book;
use programs::Programs;
use publication::Load;
use sequential::Sequential;

impl Session {
    /// Tries once for the lock table, to look at it, as `Office::look` does. The session has it until `end_look`, and knows the whole history;
    /// meanwhile no other session can become the combiner. The session need not be idle. `None`, with nothing changed, means that another
    /// session had the lock table.
    pub fn begin_look(&mut self, office: &Office) -> Option<Box<Load<Programs<Book>>>>
        requires ours { IsSessionOf office.now self.old }
        ensures looks { IfSome result (λ load. IsLooking office.now self.new load.value) }
        ensures begun { IfSome result (λ _. HasBegunToLook self.old self.new) }
        ensures history { IfSome result (λ load. load.value.object.object.history ≡ flat_history self.new.front) }
        ensures none { IfNone result ((self.new ≡ self.old) × (1 < office.now.sessions)) }
        ensures calls { HasCallsOf self.new.front self.new }
    {
        let load = office.look(&mut self.session)?;
        self.seen = load.object.object().served();
        Some(load)
    }

    /// Gives the lock table back, as `begin_look` has handed it out.
    pub fn end_look(&mut self, office: &Office, load: Box<Load<Programs<Book>>>)
        requires looks { IsLooking office.now self.old load.value }
        requires no_walk { self.old.route ≡ [] }
        ensures ours { IsSessionOf office.now self.new }
        ensures looked { (before : _) → HasBegunToLook before self.old → HasLooked before self.new }
        ensures calls { HasCallsOf self.new.front self.new }
    {
        // the history is legal
        let _programs = load.object.served();
        self.seen = load.object.object().served();
        office.end_look(&mut self.session, load);
    }
}
