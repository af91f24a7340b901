//! The gauges of a book.

ghost use Rattle.std.specs.Prelude.{◌≡◌, ◌≤◌};
ghost use Rattle.lock_rules.specs.State.{is_open, request_of};
ghost use Rattle.lock_rules.specs.Legal.{state_of};
ghost use Rattle.lock_rules.specs.Counts.{one_if};
ghost use Rattle.lock_desk.specs.Gauges.{open_up_to, locks_up_to, queue_length, longest_up_to, gauges_of};

use crate::book::Book;
use crate::gauges::Gauges;

/// 1 if `session` has an open transaction, else 0.
fn open_of(book: &Book, session: u16) -> u64
    ensures value { result ≡ one_if (is_open (state_of book.now.history) session) }
    ensures few { result ≤ 1 }
{
    match book.transaction(session) {
        Some(_) => 1,
        None => 0,
    }
}

/// How many sessions have an open transaction.
fn count_open(book: &Book) -> u64
    ensures { result ≡ open_up_to (state_of book.now.history) book.now.sessions }
{
    let mut open: u64 = 0;
    let sessions = book.sessions();
    for before in 0..sessions {
        open += open_of(book, before + 1);
    }
    open
}

/// How many locks all sessions hold.
fn count_locks(book: &Book) -> u64
    ensures { result ≡ locks_up_to (state_of book.now.history).table book.now.sessions }
{
    let mut locks: u64 = 0;
    let sessions = book.sessions();
    for before in 0..sessions {
        locks += book.locks_held(before + 1) as u64;
    }
    locks
}

/// The length of the longest queue.
fn longest_queue(book: &Book) -> u64
    ensures { result ≡ longest_up_to (state_of book.now.history).table book.now.sessions }
{
    let mut longest: u64 = 0;
    let sessions = book.sessions();
    for before in 0..sessions {
        longest = longest.max(book.queue_of(before + 1));
    }
    longest
}

impl Book {
    /// How many requests wait for the resource that `session` waits for, its own among them; 0 if it doesn't wait.
    fn queue_of(&self, session: u16) -> u64
        ensures { result ≡ queue_length (state_of self.now.history).table (request_of session (state_of self.now.history).table.requests) }
    {
        match self.lock_table.waiting_request(session) {
            Some(claim) => self.lock_table.queue_length(claim.resource) as u64,
            None => 0,
        }
    }

    /// The gauges: open transactions, locks held, waiting requests, and the most requests that wait for one resource.
    ///
    /// The lock table isn't walked: this grows with `sessions()`, and with the requests that are ahead of those that wait.
    pub fn gauges(&self) -> Gauges
        ensures { result ≡ gauges_of self.now.sessions (state_of self.now.history) }
    {
        let waiting = self.counts().waiting;
        Gauges {
            transactions: count_open(self),
            locks: count_locks(self),
            waiting,
            longest_queue: longest_queue(self),
        }
    }
}
