//! What a book's sessions hold and wait for, and whom they wait for, in numbers.

ghost use Rattle.std.specs.Prelude.{◌≡◌, ◌≢◌, ◌⊎◌, length};
ghost use Rattle.lock_rules.specs.Legal.{state_of};
ghost use Rattle.lock_rules.specs.Listing.{waiting_line};
ghost use Rattle.lock_desk.specs.Queries.{blockers_among};
ghost use Rattle.library_books.specs.Calls.{IsSession, are_written};
ghost use Rattle.library_books.specs.Claims.{numbers_of_request, numbers_of_transaction};

use crate::arrays::write_all;
use crate::book_calls::session_of;
use crate::claims::{ClaimNumbers, TransactionNumbers, request_numbers, transaction_numbers};
use crate::status::{NO_SUCH_SESSION, OK};
use lock_desk::Book;
use lock_rules::MAX_SESSIONS;

/// Writes the open transaction of the session.
pub fn transaction(book: &Book, session: u32, open: &mut TransactionNumbers) -> u32
    ensures ok { result ≡ OK → IsSession book.now session × (open.new ≡ numbers_of_transaction ((state_of book.now.history).begun session)) }
    ensures failed { result ≢ OK → open.new ≡ open.old }
    ensures session { result ≡ NO_SUCH_SESSION → ¬ (IsSession book.now session) }
    ensures statuses { (result ≡ OK) ⊎ (result ≡ NO_SUCH_SESSION) }
{
    let Some(number) = session_of(book, session) else {
        return NO_SUCH_SESSION;
    };
    *open = transaction_numbers(book.transaction(number));
    OK
}

/// Writes the waiting request of the session.
pub fn request(book: &Book, session: u32, waiting: &mut ClaimNumbers) -> u32
    ensures ok { result ≡ OK → IsSession book.now session × (waiting.new ≡ numbers_of_request (waiting_line (state_of book.now.history) session)) }
    ensures failed { result ≢ OK → waiting.new ≡ waiting.old }
    ensures session { result ≡ NO_SUCH_SESSION → ¬ (IsSession book.now session) }
    ensures statuses { (result ≡ OK) ⊎ (result ≡ NO_SUCH_SESSION) }
{
    let Some(number) = session_of(book, session) else {
        return NO_SUCH_SESSION;
    };
    *waiting = request_numbers(book.request(number));
    OK
}

/// Writes the sessions for which the session waits directly, by number, as many as `list` has room for, and the number of all of
/// them to `count`.
pub fn blockers(book: &Book, session: u32, list: &mut [u32], count: &mut usize) -> u32
    ensures ok { result ≡ OK → IsSession book.now session × (let all = blockers_among book.now.sessions (state_of book.now.history).table session in
        (list.new ≡ are_written (λ u. u) all list.old) × (count.new ≡ length all)) }
    ensures failed { result ≢ OK → (list.new ≡ list.old) × (count.new ≡ count.old) }
    ensures session { result ≡ NO_SUCH_SESSION → ¬ (IsSession book.now session) }
    ensures statuses { (result ≡ OK) ⊎ (result ≡ NO_SUCH_SESSION) }
{
    let Some(number) = session_of(book, session) else {
        return NO_SUCH_SESSION;
    };
    // a book has at most MAX_SESSIONS sessions
    let _sessions = book.sessions();
    let mut found = [0; MAX_SESSIONS as usize];
    let all = book.blockers(number, &mut found);
    write_all(&found[..all], list);
    *count = all;
    OK
}
