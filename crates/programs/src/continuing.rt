//! A sequential object that tells of several calls at once.

ghost use Rattle.std.specs.Prelude.{◌≡◌, ◌≤◌, ℕ, ◌++◌, ◌∷◌, [], IfOk, OnErr, length, All};
ghost use Rattle.sequential.specs.Batches.{IsItemWithin, IsBatch};

use sequential::{Item, Serving};
use std::alloc::AllocError as NoMemory;

/// A sequential object that can serve a call so that what it tells afterwards is of the calls before as well. `Serving::serve`
/// tells of its one call alone.
pub trait Continuing: Serving {
    /// Tells of no call, until the next one is served. Nothing else changes.
    fn tell_anew(&mut self)
        ensures tells { Self.tells_from self.new (length (Self.history self.new)) }
        ensures history { Self.history self.new ≡ Self.history self.old }
        ensures sessions { Self.sessions self.new ≡ Self.sessions self.old }
        ensures cut { Self.cut self.new ≡ Self.cut self.old }
        ensures bound { Self.bound self.new ≡ Self.bound self.old };

    /// Serves a call of a session as `Serving::serve` does, and goes on telling: if the object told of the calls from some place
    /// on, it tells of those and of this one. Fails with `NoMemory` if memory is refused; the object is unchanged then.
    fn serve_on(&mut self, session: u16, call: Self::Call) -> Result<Self::Reply, NoMemory>
        requires some { 1 ≤ session }
        requires within { session ≤ Self.sessions self.old }
        ensures entry { IfOk result (λ reply. Self.history self.new ≡ Self.history self.old ++ record { session = session; call = call; reply = reply } ∷ []) }
        ensures tells { IfOk result (λ _. (from : ℕ) → from ≤ length (Self.history self.old) → Self.tells_from self.old from → Self.tells_from self.new from) }
        ensures refused { OnErr result (self.new ≡ self.old) }
        ensures sessions { Self.sessions self.new ≡ Self.sessions self.old }
        ensures cut { Self.cut self.new ≡ Self.cut self.old }
        ensures bound { Self.bound self.new ≡ Self.bound self.old };
}

/// Serves the calls of `items` one after another, as `Batching::serve_batch` does. What the object tells afterwards is of all of
/// them.
pub fn serve_each_on<O: Continuing>(object: &mut O, items: &mut [Item<O::Call, O::Reply>]) -> usize
    requires within { All (IsItemWithin (O.sessions object.old)) items.old }
    ensures count { result ≤ length items.old }
    ensures batch { IsBatch (O.history object.old) (O.history object.new) items.old items.new result }
    ensures tells { O.tells_from object.new (length (O.history object.old)) }
    ensures sessions { O.sessions object.new ≡ O.sessions object.old }
    ensures cut { O.cut object.new ≡ O.cut object.old }
    ensures bound { O.bound object.new ≡ O.bound object.old }
{
    object.tell_anew();
    let mut served = 0;
    while served < items.len() {
        let asked = items[served];
        let Ok(reply) = object.serve_on(asked.session, asked.call) else {
            return served;
        };
        items[served].reply = Some(reply);
        served += 1;
    }
    served
}
