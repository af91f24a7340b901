//! Batches of a book: calls that are served one after another, and tell together whose wait they have ended.

ghost use Rattle.std.specs.Prelude.{◌≡◌, false, ◌+◌, ◌<◌, ◌≤◌, List, [], ◌++◌, if◌then◌else◌, length, map, take, drop};
ghost use Rattle.std.specs.List.{All};
ghost use Rattle.lock_rules.specs.Entries.{Entry as EntryValue};
ghost use Rattle.lock_rules.specs.Legal.{state_of};
ghost use Rattle.lock_desk.specs.Batches.{entries_from, ended_waits_in, Item as ItemValue};
ghost use Rattle.sequential.specs.Batches.{IsItemWithin, item_of};
ghost use Rattle.lock_desk.specs.inner.Served.{AreServed};

use crate::book::{Book, Item};
use crate::recording::serve_recorded;

impl Book {
    /// Serves the calls of `items` in order, and writes each reply into its item. Returns how many items it served.
    ///
    /// Replies and history are those of serving the calls one after another. The session of each item is from 1 to
    /// `sessions()`. Stops at the first item for which memory is refused: this item and the later ones are unchanged, and
    /// may be served again.
    pub fn serve_batch(&mut self, items: &mut [Item]) -> usize
        requires within { All (IsItemWithin self.old.sessions) items.old }
        ensures count { result ≤ length items.old }
        ensures history { self.new ≡ record self.old {
          history = self.old.history ++ entries_from (state_of self.old.history) (take result items.old);
          ended = ended_waits_in self.old.sessions (state_of self.old.history) (take result items.old);
        } }
        ensures items { items.new ≡ map item_of (entries_from (state_of self.old.history) (take result items.old)) ++ drop result items.old }
    {
        self.forget_ended();
        self.serve_items(items)
    }

    /// Serves the items in order, and returns how many it served.
    fn serve_items(&mut self, items: &mut [Item]) -> usize
        requires within { All (IsItemWithin self.old.sessions) items.old }
        requires none { self.old.ended ≡ [] }
        ensures sessions { self.new.sessions ≡ self.old.sessions }
        ensures cut { self.new.cut ≡ self.old.cut }
        ensures bound { self.new.bound ≡ self.old.bound }
        ensures deadlocks { self.new.deadlocks ≡ self.old.deadlocks }
        ensures served { AreServed self.old.sessions result items.old self.old.history self.new.ended self.new.history items.new }
    {
        for served in 0..items.len() {
            if !self.serve_item(items, served) {
                return served;
            }
        }
        items.len()
    }

    /// Serves `items[at]` and writes its reply. Returns false if memory is refused.
    #[inline(always)]
    fn serve_item(&mut self, items: &mut [Item], at: usize) -> bool
        requires within { All (IsItemWithin self.old.sessions) items.old }
        requires some { at < length items.old }
        ensures sessions { self.new.sessions ≡ self.old.sessions }
        ensures cut { self.new.cut ≡ self.old.cut }
        ensures bound { self.new.bound ≡ self.old.bound }
        ensures deadlocks { self.new.deadlocks ≡ self.old.deadlocks }
        ensures within { All (IsItemWithin self.new.sessions) items.new }
        ensures len { length items.new ≡ length items.old }
        ensures served { (batch : List ItemValue) (start : List EntryValue) → AreServed self.old.sessions at batch start self.old.ended self.old.history items.old
            → AreServed self.old.sessions (if result then at + 1 else at) batch start self.new.ended self.new.history items.new }
    {
        let asked = items[at];
        let Ok(reply) = serve_recorded(
            &mut *self.lock_table,
            &mut self.history,
            &mut self.notes,
            asked.session,
            asked.call,
        ) else {
            return false;
        };
        items[at].reply = Some(reply);
        true
    }
}
