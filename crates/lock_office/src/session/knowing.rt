//! What a session knows, as another session learns it.

ghost use Rattle.std.specs.Prelude.{◌≡◌, max};
ghost use mathlib.Core.List.{IsPrefix};
ghost use Rattle.publication.specs.StepKinds.{longer, maxes};
ghost use Rattle.publication.specs.Boards.{HasCallsOf, heard_from};
ghost use Rattle.lock_office.specs.ProgramBoards.{IsLegal};
ghost use Rattle.lock_office.specs.Sessions.{IsSessionOf};

use crate::Office;
use crate::session::Session;

impl Session {
    /// Learns what the other session knows, as `Office::hear` does.
    pub fn hear(&mut self, office: &Office, other: &mut Session)
        requires ours { IsSessionOf office.now self.old × IsSessionOf office.now other.old }
        ensures ours { IsSessionOf office.now self.new × IsSessionOf office.now other.new }
        ensures other { other.new ≡ other.old }
        ensures session { self.new ≡ record self.old {
          front = longer self.old.front other.old.front;
          heard = maxes self.old.heard other.old.heard;
        } }
        ensures fronts { IsPrefix self.old.front self.new.front × IsPrefix other.old.front self.new.front }
        ensures legal { IsLegal self.new.front }
        ensures heard { (j : _) → heard_from self.new j ≡ max (heard_from self.old j) (heard_from other.old j) }
        ensures calls { HasCallsOf self.new.front self.new × HasCallsOf self.new.front other.new }
    {
        office.hear(&mut self.session, &mut other.session);
        self.seen = u64::max(self.seen, other.seen);
    }
}
