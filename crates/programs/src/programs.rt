//! The object whose calls are programs.

ghost use Rattle.std.specs.Prelude.{◌≡◌, ◌≤◌, []};
ghost use Rattle.programs.specs.Flat.{flat};

mod fresh;
mod telling;
mod trimming;

use crate::continuing::{Continuing, serve_each_on};
use crate::counted::CountedList;
use crate::form::Programmed;
use crate::run_calls::{run, run_on};
use sequential::{Batching, Entry, Item, Sequential, Serving, Tends};
use std::alloc::AllocError as NoMemory;
use std::marker::Model;

/// An object whose calls are programs of calls of `O`. It serves 2^64 - 1 programs, and each later one as if memory were refused
/// for it.
#[derive(Drop)]
pub struct Programs<O: Programmed> {
    /// The object that serves the calls of the programs.
    object: O,
    /// All programs with their answers, of which memory has the number alone.
    history: CountedList<Entry<O::Program, O::Answer>>,
}

impl<O: Programmed> Model for Programs<O> {
    ghost use Rattle.programs.specs.Views.{ProgramsView};

    ghost Value = { ProgramsView O O.Program O.Answer };

    ghost use Rattle.programs.specs.inner.Inside.{programs_view_of, IsWhole};

    ghost view = { programs_view_of };

    ghost invariant = { λ p. IsWhole O.sessions O.history O.is_legal O.form p };
}

impl<O: Programmed> Programs<O> {
    /// Programs of an object that has served no calls yet.
    pub fn new(object: O) -> Programs<O>
        requires empty { O.history object ≡ [] }
        ensures { result ≡ record { object = object; history = [] } }
    {
        // the empty history is legal
        let _served = object.served();
        Programs {
            object,
            history: CountedList::new(),
        }
    }

    /// The object that serves the calls. Its history has the calls of all programs.
    pub fn object(&self) -> &O
        ensures object { result.now ≡ self.now.object }
        ensures history { O.history result.now ≡ flat O.form self.now.history }
    {
        &self.object
    }

    /// Works on the object that serves the calls, and changes nothing that contracts see.
    pub fn tend<T: Tends<O>>(&mut self, how: &mut T) -> Result<(), NoMemory>
        ensures same { self.new ≡ self.old }
    {
        how.tend(&mut self.object)
    }

    /// Gives up the programs for the object that served their calls.
    pub fn into_object(self) -> O
        ensures object { result ≡ self.object }
        ensures history { O.history result ≡ flat O.form self.history }
    {
        let Programs { object, history: _ } = self;
        object
    }
}

impl<O: Programmed> Sequential for Programs<O> {
    type Call = O::Program;

    type Reply = O::Answer;

    ghost use Rattle.programs.specs.Flat.{IsLegal};
    ghost use Rattle.programs.specs.Answers.{AnswersAgree};
    ghost use Rattle.programs.specs.Fronts.{fronts_are_legal};
    ghost use Rattle.programs.specs.Total.{answers_are_total};
    ghost use Rattle.programs.specs.Determined.{answers_are_determined};

    ghost sessions = { λ p. O.sessions p.object };

    ghost history = { λ p. p.history };

    ghost cut = { λ p. O.cut p.object };

    ghost bound = { λ p. O.bound p.object };

    ghost is_legal = { IsLegal O.form O.is_legal };

    ghost agree = { AnswersAgree O.form O.agree };

    ghost any_call = { O.any_program };

    ghost any_reply = { O.any_answer };

    fn sessions(&self) -> u16 {
        self.object.sessions()
    }

    fn served(&self) -> u64 {
        // nothing is let go of an empty history
        let _calls = self.object.served();
        self.history.count()
    }

    ghost empty = { (O.empty, tt) };

    ghost fronts = { fronts_are_legal O.form O.is_legal O.fronts };

    ghost total = { answers_are_total O.form O.is_legal O.fits O.total O.told O.replies_fit };

    ghost determined = { answers_are_determined O.form O.agree O.is_legal O.fronts O.determined };
}

impl<O: Programmed> Serving for Programs<O> {
    ghost use Rattle.programs.specs.Form.{first_goes_first};
    ghost use Rattle.programs.specs.Views.{place_of};

    ghost goes_first = { λ p. first_goes_first O.goes_first ((O.form).calls p) };

    ghost tells_from = { λ p from. O.tells_from p.object (place_of O.form from p.history) };

    /// Whether a combiner serves the program ahead of the others of its pass: if it does so with its first call. A program of no
    /// calls is served in its turn.
    #[inline(always)]
    fn goes_first(program: &O::Program) -> bool {
        if O::length(program) == 0 {
            return false;
        }
        let call = O::call(program, 0);
        O::goes_first(&call)
    }

    /// Serves a program: its calls, one after another, until the first reply behind which the object doesn't go on. If memory is
    /// refused to a later call than the first, the answer says so, and this call and those behind it are in no history. The answer
    /// to a program of no calls has no replies, and the place of the next call that is served.
    #[inline(always)]
    fn serve(&mut self, session: u16, program: O::Program) -> Result<O::Answer, NoMemory> {
        if self.history.is_full() {
            return Err(NoMemory);
        }
        let answer = run(&mut self.object, session, &program)?;
        self.history.push(&Entry {
            session,
            call: program,
            reply: answer,
        });
        Ok(answer)
    }
}

impl<O: Programmed> Continuing for Programs<O> {
    fn tell_anew(&mut self) {
        self.object.tell_anew();
    }

    fn serve_on(&mut self, session: u16, program: O::Program) -> Result<O::Answer, NoMemory> {
        if self.history.is_full() {
            return Err(NoMemory);
        }
        let answer = run_on(&mut self.object, session, &program)?;
        self.history.push(&Entry {
            session,
            call: program,
            reply: answer,
        });
        Ok(answer)
    }
}

impl<O: Programmed> Batching for Programs<O> {
    fn serve_batch(&mut self, items: &mut [Item<O::Program, O::Answer>]) -> usize {
        serve_each_on(self, items)
    }
}
