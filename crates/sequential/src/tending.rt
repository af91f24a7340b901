//! What is done to an object without a change that contracts see.

use std::alloc::AllocError as NoMemory;

/// Work on an object that changes nothing that contracts see: it makes room, gives memory back, or looks at how much there is.
pub trait Tends<O> {
    ghost use Rattle.std.specs.Prelude.{◌≡◌};

    /// Does its work. Fails with `NoMemory` if memory is refused; a part of the work may be done then.
    fn tend(&mut self, object: &mut O) -> Result<(), NoMemory>
        ensures same { object.new ≡ object.old };
}
