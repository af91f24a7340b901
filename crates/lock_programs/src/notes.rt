//! What an answer notes of the replies to a program of several calls.

ghost use Rattle.std.specs.Prelude.{◌≡◌, ◌<◌, ◌≤◌, [], ◌∷◌, ◌++◌, length, Some, slice_get};
ghost use Rattle.lock_programs.specs.declared.program.TheConstants.{CALLS};

use crate::noting::{began_after, ended_after, granted_after, stop_after, stop_reply};
use crate::program::{CALLS, Program};
use crate::stop::Stop;
use lock_modes::Mode;
use lock_rules::Reply;
use std::alloc::AllocError as NoMemory;

/// What tells the replies to the calls that were served, in a compact form: they follow from it and from the program.
pub struct ReplyNotes {
    /// The number of the transaction that was begun.
    began: u64,
    /// How many locks were released as a transaction ended or restarted.
    ended: u32,
    /// The mode granted to each call that was: a conversion's is the least at or above the mode held before and the one asked.
    granted: [Mode; CALLS],
    /// How many calls were served.
    served: u8,
    /// Why the program stopped at the last reply.
    stop: Stop,
    ghost few: { served ≤ CALLS },
}

impl Clone for ReplyNotes {
    fn clone(&self) -> Result<ReplyNotes, NoMemory> {
        Ok(*self)
    }
}

impl Copy for ReplyNotes {}

impl ReplyNotes {
    ghost use Rattle.programs.specs.Form.{AllGoOn};
    ghost use Rattle.lock_rules.specs.declared.calls.Call.{Call as CallValue};
    ghost use Rattle.lock_programs.specs.declared.program.Program.{Program as ProgramValue};
    ghost use Rattle.lock_programs.specs.Calls.{calls_of};
    ghost use Rattle.lock_programs.specs.Answers.{replies_told, program_form};
    ghost use Rattle.lock_programs.specs.Fits.{Fits};

    /// Notes of no reply.
    #[inline(always)]
    pub(crate) fn none() -> ReplyNotes
        ensures { (p : ProgramValue) → replies_told (calls_of p) result ≡ [] }
    {
        ReplyNotes {
            began: 0,
            ended: 0,
            granted: [Mode::NL; CALLS],
            served: 0,
            stop: Stop::GoesOn,
        }
    }

    /// How many calls of its program were served.
    #[inline(always)]
    pub(crate) fn served(&self, program: &Program) -> usize
        ensures value { result ≡ length (replies_told (calls_of program.now) self.now) }
        ensures few { result ≤ CALLS }
    {
        let served = self.served as usize;
        let length = program.length();
        if served < length { served } else { length }
    }

    /// Why the program stopped at the last reply.
    #[inline(always)]
    pub(crate) fn stop(&self) -> Stop
        ensures { result ≡ self.now.stop }
    {
        self.stop
    }

    /// The reply to the call at index `at` of its program, from 0 on, which was served.
    #[inline(always)]
    pub(crate) fn reply(&self, program: &Program, at: usize) -> Reply
        requires { at < length (replies_told (calls_of program.now) self.now) }
        ensures { slice_get (replies_told (calls_of program.now) self.now) at ≡ Some result }
    {
        let _served = self.served(program);
        let done = program.done(at, self.began, self.ended, self.granted[at]);
        if at + 1 == self.served as usize {
            return stop_reply(self.stop, done);
        }
        done
    }

    /// Notes the reply to the next call of the program, as `ProgramAnswer::append` appends it.
    #[inline(always)]
    pub(crate) fn append(&mut self, program: &Program, reply: Reply)
        requires going { AllGoOn program_form (replies_told (calls_of program.now) self.old) }
        requires next { length (replies_told (calls_of program.now) self.old) < length (calls_of program.now) }
        requires fits { (c : CallValue) → slice_get (calls_of program.now) (length (replies_told (calls_of program.now) self.old)) ≡ Some c → Fits c reply }
        ensures { replies_told (calls_of program.now) self.new ≡ replies_told (calls_of program.now) self.old ++ reply ∷ [] }
    {
        let at = self.served as usize;
        let mode = granted_after(self.granted[at], &reply);
        self.granted[at] = mode;
        self.began = began_after(self.began, &reply);
        self.ended = ended_after(self.ended, &reply);
        self.stop = stop_after(&reply);
        self.served += 1;
    }
}
