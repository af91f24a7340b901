//! Programs of an object that lets go of its history.

use crate::form::Programmed;
use crate::programs::Programs;
use sequential::Trimming;
use std::alloc::Global;

/// What is written down of the programs, kept, handed out and let go is what the object writes down of their calls.
impl<O: Programmed + Trimming> Trimming for Programs<O> {
    type Line = O::Line;

    ghost use Rattle.programs.specs.Flat.{flat};
    ghost use Rattle.programs.specs.Fronts.{lines_grow};

    ghost lines = { λ history. O.lines (flat O.form history) };

    fn kept_from(&self) -> u64 {
        self.object().kept_from()
    }

    fn kept(&self) -> &[O::Line] {
        self.object().kept()
    }

    fn let_go(&mut self, count: u64) -> u64 {
        self.object.let_go(count)
    }

    fn take_kept(&mut self, alloc: Global) -> Vec<O::Line> {
        self.object.take_kept(alloc)
    }

    ghost grows = { lines_grow O.form O.lines O.grows };
}
