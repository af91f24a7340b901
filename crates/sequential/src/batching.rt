//! A sequential object that serves calls in batches.

ghost use Rattle.std.specs.Prelude.{◌≡◌, ◌≤◌, length, All};
ghost use Rattle.sequential.specs.Batches.{IsItemWithin, IsBatch};

use crate::entry::Item;
use crate::serving::Serving;

/// A sequential object that serves calls in batches: what a combiner needs of an object.
pub trait Batching: Serving {
    /// Serves the calls of `items` in order, and writes each reply into its item. Returns how many items it served. Stops at
    /// the first item for which memory is refused: this item and the later ones are unchanged, and may be served again. That
    /// it stops for no other reason is tested, not proved. An object that has no better way serves them by `serve_each`.
    fn serve_batch(&mut self, items: &mut [Item<Self::Call, Self::Reply>]) -> usize
        requires within { All (IsItemWithin (Self.sessions self.old)) items.old }
        ensures count { result ≤ length items.old }
        ensures batch { IsBatch (Self.history self.old) (Self.history self.new) items.old items.new result }
        ensures tells { Self.tells_from self.new (length (Self.history self.old)) }
        ensures sessions { Self.sessions self.new ≡ Self.sessions self.old }
        ensures cut { Self.cut self.new ≡ Self.cut self.old }
        ensures bound { Self.bound self.new ≡ Self.bound self.old };
}

/// Serves the calls of `items` one after another, as `serve_batch` does. What the object tells afterwards is of the last one.
pub fn serve_each<O: Serving>(object: &mut O, items: &mut [Item<O::Call, O::Reply>]) -> usize
    requires within { All (IsItemWithin (O.sessions object.old)) items.old }
    ensures count { result ≤ length items.old }
    ensures batch { IsBatch (O.history object.old) (O.history object.new) items.old items.new result }
    ensures sessions { O.sessions object.new ≡ O.sessions object.old }
    ensures cut { O.cut object.new ≡ O.cut object.old }
    ensures bound { O.bound object.new ≡ O.bound object.old }
{
    let mut served = 0;
    while served < items.len() {
        let asked = items[served];
        let Ok(reply) = object.serve(asked.session, asked.call) else {
            return served;
        };
        items[served].reply = Some(reply);
        served += 1;
    }
    served
}
