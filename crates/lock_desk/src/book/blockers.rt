//! Whom a session of a book waits for.

ghost use Rattle.std.specs.Prelude.{◌≡◌, ◌++◌, length, take, drop, nat_lt, if◌then◌else◌, set};
ghost use Rattle.lock_rules.specs.Legal.{state_of};
ghost use Rattle.lock_desk.specs.Queries.{blockers_among};

use crate::book::Book;

/// Writes `session` to `list[at]`, if the list has this element.
fn write_at(list: &mut [u16], at: usize, session: u16)
    ensures { list.new ≡ (if nat_lt at (length list.old) then set list.old at session else list.old) }
{
    if at < list.len() {
        list[at] = session;
    }
}

impl Book {
    /// Writes the sessions for which `session` waits directly, by number, to the front of `list`, as many as it has elements
    /// for, and returns how many they are. The rest of `list` is unchanged.
    ///
    /// They are those of which `waits_for` is true. A session that doesn't wait, or that the book doesn't have, waits for none,
    /// and is answered at once; else the cost grows with `sessions()`. `list` needs no more than `sessions()` elements.
    pub fn blockers(&self, session: u16, list: &mut [u16]) -> usize
        ensures count { result ≡ length (blockers_among self.now.sessions (state_of self.now.history).table session) }
        ensures list { let all = blockers_among self.now.sessions (state_of self.now.history).table session in
            list.new ≡ take (length list.old) all ++ drop (length all) list.old }
    {
        if !self.lock_table.is_waiting(session) {
            return 0;
        }
        let mut count = 0;
        for before in 0..self.sessions() {
            let other = before + 1;
            if self.waits_for(session, other) {
                write_at(list, count, other);
                count += 1;
            }
        }
        count
    }
}
