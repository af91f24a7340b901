//! Programs of an object that is made for a number of sessions.

use crate::form::Programmed;
use crate::programs::Programs;
use sequential::Fresh;
use std::alloc::{AllocError as NoMemory, Global};

impl<O: Programmed + Fresh> Fresh for Programs<O> {
    fn fresh(alloc: Global, sessions: u16) -> Result<Programs<O>, NoMemory> {
        Ok(Programs::new(O::fresh(alloc, sessions)?))
    }
}
