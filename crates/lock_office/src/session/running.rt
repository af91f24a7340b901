//! A whole program of a session, turn by turn.

ghost use Rattle.std.specs.Prelude.{◌≡◌, ◌≢◌, ◌+◌, ◌<◌, ◌≤◌, ℕ, true, false, Some, None, length};
ghost use Rattle.publication.specs.Views.{asks};
ghost use Rattle.combining.specs.Calls.{IsCalling};
ghost use Rattle.combining.specs.Turns.{HasAttempted, HasAwaited};
ghost use Rattle.combining.specs.Woken.{HasAddedTold, HasRoom, entered_since};
ghost use Rattle.combining.specs.Rounds.{most_of};
ghost use Rattle.lock_programs.specs.declared.program.Program.{Program as ProgramValue};
ghost use Rattle.lock_programs.specs.Calls.{calls_of};
ghost use Rattle.lock_office.specs.Sessions.{IsSessionOf, IsIdle};
ghost use Rattle.lock_office.specs.ProgramTurns.{IsCalled, IsAnswered, HasStarvedCalling, IsPendingSingle, HasSeveralPending};

use crate::Office;
use crate::session::Session;
use crate::session::counting::{WithSeen, seen_next};
use combining::{CallOutcome, Listener, PassBound};
use lock_desk::Book;
use lock_programs::{Program, ProgramAnswer};
use programs::Programs;

impl Session {
    /// The program that is pending. If none is, it is any program.
    #[inline(always)]
    pub fn pending_program(&self) -> Program
        ensures { (program : ProgramValue) (floor : ℕ) → self.now.pending ≡ Some (asks program floor) → (program ≡ result) × (0 < length (calls_of program)) }
    {
        self.asked
    }

    /// Whether what is pending is a single call. If nothing is pending, it says nothing.
    #[inline(always)]
    pub fn is_single(&self) -> bool
        ensures single { result ≡ true → IsPendingSingle self.now }
        ensures several { result ≡ false → self.now.pending ≢ None → HasSeveralPending self.now }
    {
        self.pending_program().length() == 1
    }

    /// Tries once to perform the program of an idle session at once, as `combining::attempt` does. The program makes a call.
    #[inline(always)]
    pub fn run_attempt<T: Listener<Programs<Book>>>(
        &mut self,
        office: &Office,
        program: &Program,
        bound: PassBound,
        listener: &mut WithSeen<T>,
    ) -> CallOutcome<ProgramAnswer>
        requires ours { IsSessionOf office.now self.old }
        requires idle { IsIdle self.old }
        requires some { 0 < length (calls_of program.now) }
        requires room { HasRoom (T.room listener.old.listener) office.now.sessions }
        ensures ours { IsSessionOf office.now self.new }
        ensures attempted { HasAttempted self.old self.new office.now.sessions (IsCalled self.old self.new program.now)
            (IsCalling self.old self.new program.now) (HasStarvedCalling self.old self.new program.now) result }
        ensures few { length (entered_since self.old self.new) ≤ most_of bound + 1 }
        ensures told { HasAddedTold T.ends office.now.sessions self.new.front (entered_since self.old self.new) (T.list listener.old.listener) (T.list listener.new.listener) }
        ensures room { T.room listener.new.listener ≡ T.room listener.old.listener }
    {
        self.asked = *program;
        listener.seen = self.seen;
        let next = combining::attempt(office, &mut self.session, program, bound, listener);
        self.seen = seen_next(listener.seen, program, &next);
        next
    }

    /// Makes one turn of the pending program, as `combining::look` does. The answer is read by the program that is pending.
    pub fn run_look<T: Listener<Programs<Book>>>(
        &mut self,
        office: &Office,
        tries: bool,
        bound: PassBound,
        listener: &mut WithSeen<T>,
    ) -> CallOutcome<ProgramAnswer>
        requires ours { IsSessionOf office.now self.old }
        requires pending { self.old.pending ≢ None }
        requires room { HasRoom (T.room listener.old.listener) office.now.sessions }
        ensures ours { IsSessionOf office.now self.new }
        ensures awaited { HasAwaited self.old self.new (IsAnswered self.old self.new) result }
        ensures others { result ≡ CallOutcome.Wait → tries ≡ true → 1 < office.now.sessions }
        ensures few { length (entered_since self.old self.new) ≤ most_of bound }
        ensures told { HasAddedTold T.ends office.now.sessions self.new.front (entered_since self.old self.new) (T.list listener.old.listener) (T.list listener.new.listener) }
        ensures room { T.room listener.new.listener ≡ T.room listener.old.listener }
    {
        let asked = self.asked;
        listener.seen = self.seen;
        let next = combining::look(office, &mut self.session, tries, bound, listener);
        self.seen = seen_next(listener.seen, &asked, &next);
        next
    }

    /// Publishes the program of a session that has none pending, as `combining::publish_if_idle` does.
    pub fn publish_program_if_idle(&mut self, office: &Office, program: Program)
        requires ours { IsSessionOf office.now self.old }
        requires live { self.old.retired ≡ false }
        requires some { 0 < length (calls_of program) }
        ensures ours { IsSessionOf office.now self.new }
        ensures published { self.old.pending ≡ None → IsCalling self.old self.new program }
        ensures same { self.old.pending ≢ None → self.new ≡ self.old }
        ensures known { (self.new.front ≡ self.old.front) × (self.new.entered ≡ self.old.entered) }
    {
        if !self.session.is_idle() {
            return;
        }
        self.asked = program;
        let asked = self.asked;
        combining::publish_if_idle(office, &mut self.session, asked);
    }
}
