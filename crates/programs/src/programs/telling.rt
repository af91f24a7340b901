//! Programs of an object whose calls end the waits of other sessions.

use crate::form::Programmed;
use crate::programs::Programs;
use sequential::Telling;

/// A program ends the waits that its calls end, and the object tells whose.
impl<O: Programmed + Telling> Telling for Programs<O> {
    ghost use Rattle.programs.specs.Ended.{EndsWait};

    ghost ends = { EndsWait O.form O.ends };

    fn ended(&self) -> &[u16] {
        self.object().ended()
    }
}
