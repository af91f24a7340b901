//! A look of a session at the lock table of its open office, on the session's share.

ghost use Rattle.std.specs.Prelude.{◌≡◌, ◌≤◌, true, false, None, Some, is_some};
ghost use Rattle.library_sessions.specs.Looks.{IsLook, HasBegunLook, HasEndedLook, book_in};

use crate::pass_count_numbers::PassCountNumbers;
use crate::session_share::SessionShare;
use lock_desk::{Book, NoMemory};
use sequential::Tends;
use std::mem;

impl SessionShare {
    /// Tries once for the lock table, to look at it. Whether the session has it.
    pub fn begin_look(&mut self) -> bool
        requires free { is_some self.old.looking ≡ false }
        ensures begun { result ≡ true → HasBegunLook self.old self.new }
        ensures none { result ≡ false → (self.new ≡ self.old) × (2 ≤ self.old.sessions) }
    {
        let Some(load) = self.session.begin_look(&self.office) else {
            return false;
        };
        self.looking = Some(load);
        true
    }

    /// Gives the lock table back at which the session looks.
    pub fn end_look(&mut self)
        requires looks { IsLook self.old }
        ensures { HasEndedLook self.old self.new }
    {
        match mem::replace(&mut self.looking, None) {
            Some(load) => self.session.end_look(&self.office, load),
            None => unreachable!(),
        }
    }

    /// The book at which the session looks.
    pub fn book(&self) -> &Book
        requires looks { IsLook self.now }
        ensures { book_in self.now.looking ≡ Some result.now }
    {
        match &self.looking {
            Some(load) => load.object.object(),
            None => unreachable!(),
        }
    }

    /// What the passes of the office have served. No clause says what the numbers are.
    pub fn passes(&self) -> PassCountNumbers
        requires looks { IsLook self.now }
    {
        match &self.looking {
            Some(load) => PassCountNumbers {
                made: load.passes,
                served: load.served,
                starved: load.starved,
            },
            None => unreachable!(),
        }
    }

    /// Works on the book at which the session looks, and changes nothing that contracts see.
    pub fn tend<T: Tends<Book>>(&mut self, how: &mut T) -> Result<(), NoMemory>
        requires looks { IsLook self.old }
        ensures { self.new ≡ self.old }
    {
        match &mut self.looking {
            Some(load) => load.object.tend(how),
            None => unreachable!(),
        }
    }
}
