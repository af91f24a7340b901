//! The answer to a program.

ghost use Rattle.std.specs.Prelude.{◌≡◌, ◌<◌, ◌≤◌, [], ◌∷◌, ◌++◌, true, false, length, Some, slice_get};
ghost use Rattle.programs.specs.Form.{AllGoOn};
ghost use Rattle.lock_rules.specs.declared.calls.Call.{Call as CallValue};
ghost use Rattle.lock_programs.specs.declared.program.TheConstants.{CALLS};
ghost use Rattle.lock_programs.specs.declared.program.Program.{Program as ProgramValue};
ghost use Rattle.lock_rules.specs.declared.calls.Reply.{Reply as ReplyValue};
ghost use Rattle.lock_programs.specs.declared.answer.Replies.TheVariants.{One};
ghost use Rattle.lock_programs.specs.Calls.{calls_of};
ghost use Rattle.lock_programs.specs.Answers.{replies_of, replies_in, replies_told, stop_of, program_form};
ghost use Rattle.lock_programs.specs.Fits.{Fits};

use crate::notes::ReplyNotes;
use crate::noting::stop_after;
use crate::program::{CALLS, Program};
use crate::stop::Stop;
use lock_rules::Reply;
use std::alloc::AllocError as NoMemory;

/// What tells the replies to the calls of a program.
#[derive(Clone, Copy)]
enum Replies {
    /// No call was served.
    None,
    /// The reply to the call of a program of one.
    One(Reply),
    /// Notes of the replies to a program of several calls.
    Several(ReplyNotes),
}

/// The answer to a program: what was granted and done, and why it stopped. The replies to its calls follow from it and from the
/// program.
pub struct ProgramAnswer {
    /// The place of the first call in the history.
    first: u64,
    /// Whether memory was refused to the next call.
    is_refused: bool,
    /// What tells the replies.
    replies: Replies,
}

impl Clone for ProgramAnswer {
    fn clone(&self) -> Result<ProgramAnswer, NoMemory> {
        Ok(*self)
    }
}

impl Copy for ProgramAnswer {}

impl ProgramAnswer {
    /// The answer with no replies to a program whose first call has the place `first` in the history.
    #[inline(always)]
    pub fn none_served(first: u64) -> ProgramAnswer
        ensures first { result.first ≡ first }
        ensures none { (p : ProgramValue) → replies_of p result ≡ [] }
        ensures refused { result.is_refused ≡ false }
    {
        ProgramAnswer {
            first,
            is_refused: false,
            replies: Replies::None,
        }
    }

    /// The place of the first call in the history: if none was served, of the next one that is.
    #[inline(always)]
    pub fn first(&self) -> u64
        ensures { result ≡ self.now.first }
    {
        self.first
    }

    /// How many calls of its program were served.
    #[inline(always)]
    pub fn served(&self, program: &Program) -> usize
        ensures value { result ≡ length (replies_of program.now self.now) }
        ensures few { result ≤ CALLS }
    {
        match &self.replies {
            Replies::None => 0,
            Replies::One(_) => count_of_one(program),
            Replies::Several(notes) => notes.served(program),
        }
    }

    /// Whether memory was refused to the call behind those that were served.
    #[inline(always)]
    pub fn is_refused(&self) -> bool
        ensures { result ≡ self.now.is_refused }
    {
        self.is_refused
    }

    /// Why the program stopped at the last reply.
    #[inline(always)]
    pub fn stop(&self) -> Stop
        ensures { result ≡ stop_of self.now }
    {
        match &self.replies {
            Replies::None => Stop::GoesOn,
            Replies::One(reply) => stop_after(reply),
            Replies::Several(notes) => notes.stop(),
        }
    }

    /// The reply to the call at index `at` of its program, from 0 on, which was served.
    #[inline(always)]
    pub fn reply(&self, program: &Program, at: usize) -> Reply
        requires { at < length (replies_of program.now self.now) }
        ensures { slice_get (replies_of program.now self.now) at ≡ Some result }
    {
        match &self.replies {
            Replies::None => unreachable!(),
            Replies::One(reply) => *reply,
            Replies::Several(notes) => notes.reply(program, at),
        }
    }

    /// Appends the reply to the next call of the program, which goes on behind all replies before. The reply has to be one that
    /// the call can have, as each of a legal history is (`laws::replies_fit`).
    #[inline(always)]
    pub fn append(&mut self, program: &Program, reply: Reply)
        requires going { AllGoOn program_form (replies_of program.now self.old) }
        requires next { length (replies_of program.now self.old) < length (calls_of program.now) }
        requires fits { (c : CallValue) → slice_get (calls_of program.now) (length (replies_of program.now self.old)) ≡ Some c → Fits c reply }
        ensures replies { replies_of program.now self.new ≡ replies_of program.now self.old ++ reply ∷ [] }
        ensures first { self.new.first ≡ self.old.first }
        ensures refused { self.new.is_refused ≡ self.old.is_refused }
    {
        self.replies = self.replies.with(program, reply);
    }

    /// Notes that memory was refused to the next call.
    #[inline(always)]
    pub fn refuse(&mut self)
        ensures replies { (p : ProgramValue) → replies_of p self.new ≡ replies_of p self.old }
        ensures first { self.new.first ≡ self.old.first }
        ensures refused { self.new.is_refused ≡ true }
    {
        self.is_refused = true;
    }
}

impl Replies {
    /// The same with the reply to the next call of the program, as `ProgramAnswer::append` appends it.
    #[inline(always)]
    fn with(self, program: &Program, reply: Reply) -> Replies
        requires going { AllGoOn program_form (replies_in (calls_of program.now) self) }
        requires next { length (replies_in (calls_of program.now) self) < length (calls_of program.now) }
        requires fits { (c : CallValue) → slice_get (calls_of program.now) (length (replies_in (calls_of program.now) self)) ≡ Some c → Fits c reply }
        ensures { replies_in (calls_of program.now) result ≡ replies_in (calls_of program.now) self ++ reply ∷ [] }
    {
        match self {
            Replies::None => first_reply(program, reply),
            Replies::One(_) => first_reply(program, reply),
            Replies::Several(notes) => Replies::Several(noted(notes, program, reply)),
        }
    }
}

/// The number of replies that a single reply tells to the program: none if it has several calls, or none.
#[inline(always)]
fn count_of_one(program: &Program) -> usize
    ensures value { (r : ReplyValue) → result ≡ length (replies_in (calls_of program.now) (One r)) }
    ensures few { result ≤ 1 }
{
    if program.length() == 1 { 1 } else { 0 }
}

/// Notes with the reply to the next call of the program.
#[inline(always)]
fn noted(notes: ReplyNotes, program: &Program, reply: Reply) -> ReplyNotes
    requires going { AllGoOn program_form (replies_told (calls_of program.now) notes) }
    requires next { length (replies_told (calls_of program.now) notes) < length (calls_of program.now) }
    requires fits { (c : CallValue) → slice_get (calls_of program.now) (length (replies_told (calls_of program.now) notes)) ≡ Some c → Fits c reply }
    ensures { replies_told (calls_of program.now) result ≡ replies_told (calls_of program.now) notes ++ reply ∷ [] }
{
    let mut notes = notes;
    notes.append(program, reply);
    notes
}

/// What tells the reply to the first call of the program, and no other.
#[inline(always)]
fn first_reply(program: &Program, reply: Reply) -> Replies
    requires some { 0 < length (calls_of program.now) }
    requires fits { (c : CallValue) → slice_get (calls_of program.now) 0 ≡ Some c → Fits c reply }
    ensures { replies_in (calls_of program.now) result ≡ reply ∷ [] }
{
    if program.length() == 1 {
        return Replies::One(reply);
    }
    Replies::Several(noted(ReplyNotes::none(), program, reply))
}
