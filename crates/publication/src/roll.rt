//! The test that each session is there once.

ghost use Rattle.std.specs.Prelude.{◌≡◌, ℕ, ◌<◌, ◌≤◌, ◌||◌, ◌==◌, true, false, replicate, IsTrue, ◌↔◌, length};
ghost use Rattle.sequential.specs.declared.entry.TheConstants.{MAX_SESSIONS};
ghost use Rattle.publication.specs.Rolls.{is_called};

use sequential::MAX_SESSIONS;

/// Which session numbers were called, a mark for each number up to `MAX_SESSIONS`. It takes no memory but its own 1,025
/// bytes, so that whoever closes an office needs none.
#[derive(Drop)]
pub struct Roll {
    /// The mark of each number, from 0 on.
    called: [bool; MAX_SESSIONS as usize + 1],
}

impl Roll {
    /// A roll with no number called.
    pub fn new() -> Roll
        ensures { (n : ℕ) → is_called result n ≡ false }
    {
        Roll {
            called: [false; MAX_SESSIONS as usize + 1],
        }
    }

    /// Calls a number. A number above `MAX_SESSIONS` leaves the roll as it is.
    pub fn call(&mut self, number: u16)
        ensures { (n : ℕ) → n ≤ MAX_SESSIONS → is_called self.new n ≡ (is_called self.old n || (number == n)) }
    {
        let at = usize::from(number);
        if at < self.called.len() {
            self.called[at] = true;
        }
    }

    /// Whether each number from 1 to `sessions` was called.
    pub fn has_all(&self, sessions: u16) -> bool
        ensures { IsTrue result ↔ ((n : ℕ) → 0 < n → n ≤ sessions → is_called self.now n ≡ true) }
    {
        for before in 0..sessions {
            let at = usize::from(before) + 1;
            if at >= self.called.len() || !self.called[at] {
                return false;
            }
        }
        true
    }
}
