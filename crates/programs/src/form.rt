//! What an object says of programs of its calls.

ghost use Rattle.std.specs.Prelude.{◌≡◌, ◌<◌, ℕ, true, false, Bool, List, [], ◌∷◌, ◌++◌, length, slice_get, Some};
ghost use Rattle.sequential.specs.declared.entry.Entry.{Entry as EntryValue};
ghost use Rattle.programs.specs.Form.{Form, AllGoOn};
ghost use Rattle.programs.specs.Answers.{AreTold};

use crate::continuing::Continuing;

/// A sequential object of which several calls may be made as one program. A program is a list of calls, in any form, and an
/// answer to it has the replies to those that were served.
pub trait Programmed: Continuing {
    /// Several calls, in order. There may be none.
    type Program: Copy;
    /// The replies to those that were served.
    type Answer: Copy;

    // How programs and answers are read.
    ghost form: { Form Self.Program Self.Answer Self.Call Self.Reply };

    // A reply that the object can give to this call.
    ghost fits: { Self.Call → Self.Reply → Type 0 };

    // A program and an answer that stand where there is none, and on which nothing relies.
    ghost any_program: { Self.Program };

    ghost any_answer: { Self.Answer };

    /// The number of calls.
    fn length(program: &Self::Program) -> usize
        ensures { result ≡ length (form.calls program.now) };

    /// The call at index `at`, from 0 on.
    fn call(program: &Self::Program, at: usize) -> Self::Call
        requires { at < length (form.calls program.now) }
        ensures { slice_get (form.calls program.now) at ≡ Some result };

    /// Whether a program goes on behind this reply.
    fn goes_on(reply: &Self::Reply) -> bool
        ensures { result ≡ form.goes_on reply.now };

    /// The answer with no replies to a program whose first call has the place `first` in the history of calls.
    fn none_served(program: &Self::Program, first: u64) -> Self::Answer
        ensures first { form.first result ≡ first }
        ensures none { form.replies program.now result ≡ [] }
        ensures refused { form.refused result ≡ false };

    /// Appends the reply to the next call of the program, which goes on behind all replies before.
    fn append(answer: &mut Self::Answer, program: &Self::Program, reply: Self::Reply)
        requires going { AllGoOn form (form.replies program.now answer.old) }
        requires next { length (form.replies program.now answer.old) < length (form.calls program.now) }
        requires fits { (c : Self.Call) → slice_get (form.calls program.now) (length (form.replies program.now answer.old)) ≡ Some c → fits c reply }
        ensures replies { form.replies program.now answer.new ≡ form.replies program.now answer.old ++ reply ∷ [] }
        ensures first { form.first answer.new ≡ form.first answer.old }
        ensures refused { form.refused answer.new ≡ form.refused answer.old };

    /// Notes that memory was refused to the next call.
    fn refuse(answer: &mut Self::Answer)
        ensures replies { (p : Self.Program) → form.replies p answer.new ≡ form.replies p answer.old }
        ensures first { form.first answer.new ≡ form.first answer.old }
        ensures refused { form.refused answer.new ≡ true };

    // The last reply of a legal history is one that fits its call.
    ghost replies_fit: { (front : List (EntryValue Self.Call Self.Reply)) (e : EntryValue Self.Call Self.Reply) → Self.is_legal (front ++ e ∷ []) → fits e.call e.reply };

    // Each run of a program to its end or to a stop, with replies that fit, is told by some answer.
    ghost told: { AreTold form fits };
}
