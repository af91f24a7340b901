//! The book as a sequential object: what threads need of it to share it.

ghost use Rattle.std.specs.Prelude.{◌≡◌};

use crate::book::{Book, Item};
use lock_programs::{Program, ProgramAnswer, goes_on_behind};
use lock_rules::{Call, Entry, Reply};
use programs::{Continuing, Programmed};
use sequential::{Batching, Fresh, Sequential, Serving, Telling, Trimming};
use std::alloc::{AllocError as NoMemory, Global};

impl Sequential for Book {
    type Call = Call;

    type Reply = Reply;

    ghost use Rattle.lock_rules.specs.declared.calls.Call.TheVariants.{Poll};
    ghost use Rattle.lock_rules.specs.declared.calls.Reply.TheVariants.{Clear};
    ghost use Rattle.lock_rules.specs.Legal.{IsLegal};
    ghost use Rattle.lock_rules.proofs.Histories.{legal-front};
    ghost use Rattle.lock_desk.specs.BookLaws.{replies_are_total, replies_are_determined};

    ghost sessions = { λ book. book.sessions };

    ghost history = { λ book. book.history };

    ghost cut = { λ book. book.cut };

    ghost bound = { λ book. record { lines = book.bound; notes = book.deadlocks } };

    ghost is_legal = { IsLegal };

    ghost agree = { λ _ reply other. reply ≡ other };

    ghost any_call = { Poll };

    ghost any_reply = { Clear };

    fn sessions(&self) -> u16 {
        self.sessions()
    }

    fn served(&self) -> u64 {
        // the history is legal, each entry is of a session of the book, and none is let go of an empty one
        let _history = self.history();
        let _first = self.first_kept();
        self.served()
    }

    ghost empty = { tt };

    ghost fronts = { legal-front };

    ghost total = { replies_are_total };

    ghost determined = { replies_are_determined };
}

impl Serving for Book {
    ghost use Rattle.lock_desk.specs.Batches.{makes_room, TellsFrom};

    ghost goes_first = { makes_room };

    ghost tells_from = { TellsFrom };

    /// Whether the call makes room for requests of others: it releases locks, or takes a request out of a queue.
    fn goes_first(call: &Call) -> bool {
        matches!(
            call,
            Call::Release(_) | Call::Commit | Call::Abort | Call::Withdraw | Call::Restart
        )
    }

    #[inline(always)]
    fn serve(&mut self, session: u16, call: Call) -> Result<Reply, NoMemory> {
        self.serve(session, call)
    }
}

impl Continuing for Book {
    fn tell_anew(&mut self) {
        self.forget_ended();
    }

    fn serve_on(&mut self, session: u16, call: Call) -> Result<Reply, NoMemory> {
        self.serve_on(session, call)
    }
}

/// Calls of a session that are made as one, in the form of `lock_programs`.
impl Programmed for Book {
    type Program = Program;

    type Answer = ProgramAnswer;

    ghost use Rattle.lock_rules.specs.State.{empty};
    ghost use Rattle.lock_programs.specs.Answers.{program_form};
    ghost use Rattle.lock_programs.specs.Fits.{Fits};
    ghost use Rattle.lock_programs.specs.Nothing.{no_calls, no_replies};
    ghost use Rattle.lock_programs.proofs.Steps.{last-fits};
    ghost use Rattle.lock_programs.proofs.NotedReplies.{runs_are_told};

    ghost form = { program_form };

    ghost fits = { Fits };

    ghost any_program = { no_calls };

    ghost any_answer = { no_replies };

    #[inline(always)]
    fn length(program: &Program) -> usize {
        program.length()
    }

    #[inline(always)]
    fn call(program: &Program, at: usize) -> Call {
        program.call(at)
    }

    #[inline(always)]
    fn goes_on(reply: &Reply) -> bool {
        goes_on_behind(reply)
    }

    #[inline(always)]
    fn none_served(_program: &Program, first: u64) -> ProgramAnswer {
        ProgramAnswer::none_served(first)
    }

    #[inline(always)]
    fn append(answer: &mut ProgramAnswer, program: &Program, reply: Reply) {
        answer.append(program, reply);
    }

    fn refuse(answer: &mut ProgramAnswer) {
        answer.refuse();
    }

    ghost replies_fit = { last-fits empty };

    ghost told = { runs_are_told };
}

impl Batching for Book {
    fn serve_batch(&mut self, items: &mut [Item]) -> usize {
        self.serve_batch(items)
    }
}

impl Trimming for Book {
    type Line = Entry;

    ghost use Rattle.std.proofs.Common.{refl};

    ghost lines = { λ history. history };

    fn kept_from(&self) -> u64 {
        // the length of the history fits into 64 bits
        let _served = self.served();
        self.first_kept()
    }

    fn kept(&self) -> &[Entry] {
        self.history()
    }

    fn let_go(&mut self, count: u64) -> u64 {
        self.let_go(count)
    }

    fn take_kept(&mut self, alloc: Global) -> Vec<Entry> {
        self.take_history(alloc)
    }

    ghost grows = { λ front rest. (rest, refl) };
}

impl Telling for Book {
    ghost use Rattle.lock_desk.specs.Batches.{ends_wait};

    ghost ends = { ends_wait };

    fn ended(&self) -> &[u16] {
        self.ended()
    }
}

impl Fresh for Book {
    fn fresh(alloc: Global, sessions: u16) -> Result<Book, NoMemory> {
        Book::new(alloc, sessions)
    }
}
