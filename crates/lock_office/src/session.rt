//! A session that makes single calls and programs at the office: each single call is a program of one call.
//!
//! `running.rt` makes a whole program, turn by turn. `looking.rt` hands out the lock table for questions.
//!
//! What is pending may be a program of several calls. A call that takes its answer as that of a single call tells the last reply and its place.

ghost use Rattle.std.specs.Prelude.{◌≡◌, ◌≢◌, ◌⊎◌, ◌+◌, ◌-◌, ◌*◌, ◌^◌, ◌<◌, ◌≤◌, ◌↔◌, ◌∷◌, ◌++◌, [], true, false, IsTrue, None, Some, Ok, IfOk, IfErr, IfSome, IfNone, List, length, slice_index, vec_len, min, max};
ghost use mathlib.Core.List.{IsPrefix};
ghost use Rattle.sequential.specs.Histories.{calls_of as calls_of_session};
ghost use Rattle.publication.specs.StepKinds.{longer, maxes};
ghost use Rattle.publication.specs.Boards.{HasCallsOf, heard_from, publishing, enlisted, tried};
ghost use Rattle.lock_programs.specs.declared.program.Program.{Program as ProgramValue};
ghost use Rattle.lock_programs.specs.Answers.{replies_of};
ghost use Rattle.lock_rules.specs.declared.calls.Reply.{Reply as ReplyValue};
ghost use Rattle.combining.specs.Sessions.{HasTriedToList};
ghost use Rattle.combining.specs.Woken.{AreToldBy, HasRoom, entered_since};
ghost use Rattle.combining.specs.Rounds.{IsBound, IsUnmet, AreRounds, IsFull};
ghost use Rattle.lock_office.specs.Weights.{locks_given_back};
ghost use Rattle.lock_office.specs.ProgramBoards.{IsLegal, flat_history};
ghost use Rattle.lock_office.specs.Seen.{number_of_calls};
ghost use Rattle.lock_office.specs.Sessions.{IsSessionOf, IsIdle, IsPendingServed, IsPassed, HasTakenPiece};
ghost use Rattle.lock_office.specs.SingleCalls.{MakesOneCall, IsCollected};

mod counting;
mod knowing;
mod looking;
mod running;

use crate::{CallAnswer as Answer, HistoryPiece, Office, Ticket};
use combining::{Listener, PassBound, Posted, Turn};
pub use counting::WithSeen;
use counting::seen_behind;
use lock_desk::{Book, Call, Reply};
use lock_programs::{Program, ProgramAnswer};
use programs::Programs;
use std::alloc::{AllocError as NoMemory, Global};
use std::marker::Model;

/// A session that makes single calls and programs.
#[derive(Drop)]
pub struct Session {
    /// The session as the office made it.
    session: Ticket,
    /// The program that is pending, by which its answer is read. It makes a call. If none is pending, nothing relies on it.
    asked: Program,
    /// How many calls of the history the session knows.
    seen: u64,
}

impl Model for Session {
    ghost use Rattle.lock_office.specs.ProgramBoards.{TicketView};
    ghost use Rattle.lock_office.specs.inner.Sessions.{session_of, IsKept};

    ghost Value = { TicketView };

    ghost view = { session_of };

    ghost invariant = { IsKept };
}

/// The last reply to a program of which a call was served, and its place in the history of calls.
#[inline(always)]
pub fn last_of(program: &Program, answer: &ProgramAnswer) -> Answer
    requires served { 0 < length (replies_of program.now answer.now) }
    ensures last { (earlier : List ReplyValue) × (replies_of program.now answer.now ≡ earlier ++ result.reply ∷ [])
        × (result.place ≡ min (answer.now.first + length earlier) (2 ^ 64 - 1)) }
    ensures first { length (replies_of program.now answer.now) ≡ 1 → answer.now.first ≡ result.place }
{
    let last = answer.served(program) - 1;
    combining::Answer {
        place: answer.first().saturating_add(last as u64),
        reply: answer.reply(program, last),
    }
}

impl Session {
    /// Makes calls by a session that has no program pending. `seen` is how many calls of the history it knows: none of a session
    /// as an office was opened with it; else what `seen` told before `into_session`.
    pub fn new(session: Ticket, seen: u64) -> Session
        requires none { session.pending ≡ None }
        requires seen { seen ≡ number_of_calls session.front }
        ensures { result ≡ session }
    {
        Session {
            session,
            asked: Program::one(Call::Poll),
            seen,
        }
    }

    /// Gives up the session as the office made it, for `Office::close`. What is pending stays pending, a single call as a program of one
    /// call.
    pub fn into_session(self) -> Ticket
        ensures { result ≡ self }
    {
        let Session {
            session,
            asked: _,
            seen: _,
        } = self;
        session
    }

    /// The session's number, from 1 on.
    pub fn number(&self) -> u16
        ensures { result ≡ self.now.number }
    {
        self.session.number()
    }

    /// Whether the session may make a call: none is pending, and it hasn't retired.
    pub fn is_idle(&self) -> bool
        ensures { IsTrue result ↔ ((self.now.pending ≡ None) × (self.now.retired ≡ false)) }
    {
        self.session.is_idle()
    }

    /// Whether the session has retired and makes no more calls.
    pub fn is_retired(&self) -> bool
        ensures { result ≡ self.now.retired }
    {
        self.session.is_retired()
    }

    /// How many calls of the history the session knows: those of the programs that stand in the front of the history that it knows.
    /// `u64::MAX` if it knows more.
    pub fn seen(&self) -> u64
        ensures { result ≡ number_of_calls self.now.front }
    {
        self.seen
    }

    /// Publishes a call, as `Office::publish` does.
    pub fn publish(&mut self, office: &Office, call: Call) -> Posted
        requires ours { IsSessionOf office.now self.old }
        requires idle { IsIdle self.old }
        ensures ours { IsSessionOf office.now self.new }
        ensures published { (program : ProgramValue) × MakesOneCall program call
            × (result ≡ Posted.Listed → (self.new ≡ enlisted (publishing self.old program)) ⊎ (self.new ≡ tried (enlisted (publishing self.old program))))
            × (result ≡ Posted.Unlisted → (self.new ≡ tried (publishing self.old program)) × (1 < office.now.sessions)) }
    {
        self.asked = Program::one(call);
        let asked = self.asked;
        office.publish(&mut self.session, asked)
    }

    /// Serves and tells within a bound, as `Office::serve` does. The bound counts programs, each of which is one call or several, and weighs
    /// the locks that they give back.
    pub fn serve<T: Listener<Programs<Book>>>(
        &mut self,
        office: &Office,
        bound: PassBound,
        listener: &mut WithSeen<T>,
    ) -> Turn
        requires ours { IsSessionOf office.now self.old }
        requires bound { IsBound bound }
        requires room { HasRoom (T.room listener.old.listener) office.now.sessions }
        ensures ours { IsSessionOf office.now self.new }
        ensures elsewhere { result ≡ Turn.Elsewhere → HasTriedToList self.old self.new × (1 < office.now.sessions) }
        ensures pass { (served : _) (starved left : _) → result ≡ Turn.Pass served starved left → IsPassed self.old self.new served }
        ensures few { (served : _) (starved left : _) → result ≡ Turn.Pass served starved left → served ≤ bound.rounds * bound.calls }
        ensures rounds { (served : _) (left : _) → result ≡ Turn.Pass served false left → AreRounds locks_given_back bound served self.new.front }
        ensures full { (served : _) → result ≡ Turn.Pass served false true → IsFull locks_given_back bound served self.new.front }
        ensures all { (served : _) (starved left : _) → result ≡ Turn.Pass served starved left → IsUnmet bound → left ≡ false }
        ensures starved { (served : _) (starved left : _) → result ≡ Turn.Pass served starved left → IsTrue starved ↔ (self.old.put_backs < self.new.put_backs) }
        ensures rises { (j : _) → heard_from self.old j ≤ heard_from self.new j }
        ensures calls { HasCallsOf self.new.front self.new }
        ensures own { (served : _) (left : _) → result ≡ Turn.Pass served false left → self.old.pending ≢ None → IsPendingServed self.new }
        ensures heard { (served j : _) → result ≡ Turn.Pass served false false → 0 < j → j ≤ office.now.sessions
            → heard_from self.old j ≤ length (calls_of_session j self.new.front) }
        ensures told { AreToldBy T.ends office.now.sessions self.new.front (entered_since self.old self.new) (T.list listener.new.listener) }
        ensures none { result ≡ Turn.Elsewhere → T.list listener.new.listener ≡ [] }
        ensures room { T.room listener.new.listener ≡ T.room listener.old.listener }
    {
        listener.seen = self.seen;
        let turn = office.serve(&mut self.session, bound, listener);
        self.seen = listener.seen;
        turn
    }

    /// Takes the answer to the pending call, as `Office::collect` does. Of a pending program of several calls it tells the last reply and its
    /// place.
    pub fn collect(&mut self, office: &Office) -> Option<Answer>
        requires ours { IsSessionOf office.now self.old }
        ensures ours { IsSessionOf office.now self.new }
        ensures some { IfSome result (λ answer. IsCollected self.old self.new answer.place answer.reply) }
        ensures idle { IfSome result (λ _. IsIdle self.new) }
        ensures none { IfNone result (self.new ≡ self.old) }
        ensures late { IfNone result (self.old.pending ≢ None → ¬ (IsPendingServed self.old)) }
    {
        let asked = self.asked;
        let found = office.collect(&mut self.session)?;
        self.seen = seen_behind(self.seen, &asked, &found.reply);
        Some(last_of(&asked, &found.reply))
    }

    /// Retires: the session makes no more calls.
    pub fn retire(&mut self, office: &Office)
        requires ours { IsSessionOf office.now self.old }
        requires idle { IsIdle self.old }
        ensures ours { IsSessionOf office.now self.new }
        ensures session { self.new ≡ record self.old { retired = true } }
    {
        office.retire(&mut self.session);
    }

    /// Takes the oldest entries of the history of calls that are kept, at most `most`, as `Office::take_oldest` does.
    pub fn take_oldest(
        &mut self,
        office: &Office,
        alloc: Global,
        most: usize,
    ) -> Result<Option<HistoryPiece>, NoMemory>
        requires ours { IsSessionOf office.now self.old }
        ensures ours { IsSessionOf office.now self.new }
        ensures some { (piece : _) → result ≡ Ok (Some piece) → HasTakenPiece self.old self.new piece.first piece.lines.items }
        ensures few { (piece : _) → result ≡ Ok (Some piece) → vec_len piece.lines ≤ most }
        ensures all { (piece : _) → result ≡ Ok (Some piece) → vec_len piece.lines < most → piece.first + vec_len piece.lines ≡ length (flat_history self.new.front) }
        ensures none { result ≡ Ok None → (self.new ≡ self.old) × (1 < office.now.sessions) }
        ensures err { IfErr result (λ _. self.new ≡ self.old) }
        ensures calls { IfOk result (λ _. HasCallsOf self.new.front self.new) }
    {
        let taken = office.take_oldest(alloc, &mut self.session, most)?;
        if let Some(piece) = &taken {
            self.seen = piece.written;
        }
        Ok(taken)
    }
}
