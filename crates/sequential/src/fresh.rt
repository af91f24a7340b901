//! A sequential object that is made for a number of sessions.

ghost use Rattle.std.specs.Prelude.{◌≡◌, ◌≤◌, [], IfOk};

use crate::batching::Batching;
use crate::entry::MAX_SESSIONS;
use std::alloc::{AllocError as NoMemory, Global};

/// An object that needs only its number of sessions to be made.
pub trait Fresh: Batching {
    /// An object that has answered no calls, for sessions 1 to `sessions`. Fails with `NoMemory` if memory is refused.
    fn fresh(alloc: Global, sessions: u16) -> Result<Self, NoMemory>
        requires some { 1 ≤ sessions }
        requires few { sessions ≤ MAX_SESSIONS }
        ensures sessions { IfOk result (λ object. Self.sessions object ≡ sessions) }
        ensures empty { IfOk result (λ object. Self.history object ≡ []) };
}
