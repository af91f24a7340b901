//! How many locks a session holds, and pages of them, in numbers.

ghost use Rattle.std.specs.Prelude.{◌≡◌, ◌≢◌, ◌⊎◌, IfSome, IfNone, length};
ghost use Rattle.lock_rules.specs.Legal.{state_of};
ghost use Rattle.lock_rules.specs.State.{claims_of};
ghost use Rattle.library_books.specs.Calls.{IsSession};
ghost use Rattle.library_sessions.specs.Pages.{IsAfter, IsAfterLevel, IsPageOf};

use library_books::arrays::write_all;
use library_books::book_calls;
use library_books::claims::ClaimNumbers;
use library_books::numbers::{ResourceNumbers, read_resource};
use library_books::status::{NO_MEMORY, NO_SUCH_LEVEL, NO_SUCH_SESSION, OK};
use lock_desk::{Book, Resource};
use std::alloc::Global;

/// The resource behind which a page begins, `Some(None)` at level 0. Returns `None` if no resource has this level.
fn read_after(path: &ResourceNumbers) -> Option<Option<Resource>>
    ensures some { IfSome result (λ after. IsAfter path.now after) }
    ensures level { IfSome result (λ _. IsAfterLevel path.now.level) }
    ensures none { IfNone result (¬ (IsAfterLevel path.now.level)) }
{
    if path.level == 0 {
        return Some(None);
    }
    match read_resource(path) {
        Some(resource) => Some(Some(resource)),
        None => None,
    }
}

/// Writes how many locks the session holds.
pub fn locks_held(book: &Book, session: u32, count: &mut usize) -> u32
    ensures ok { result ≡ OK → IsSession book.now session × (count.new ≡ length (claims_of session (state_of book.now.history).table.held)) }
    ensures failed { result ≢ OK → count.new ≡ count.old }
    ensures session { result ≡ NO_SUCH_SESSION → ¬ (IsSession book.now session) }
    ensures statuses { (result ≡ OK) ⊎ (result ≡ NO_SUCH_SESSION) }
{
    let Some(number) = book_calls::session_of(book, session) else {
        return NO_SUCH_SESSION;
    };
    *count = book.locks_held(number);
    OK
}

/// Writes the first locks of the session behind the resource `after`, as many as `list` has room for, and how many they are to `count`.
pub fn locks_of(
    alloc: Global,
    book: &Book,
    session: u32,
    after: &ResourceNumbers,
    list: &mut [ClaimNumbers],
    count: &mut usize,
) -> u32
    ensures ok { result ≡ OK → IsSession book.now session × IsPageOf (state_of book.now.history) session after.now list.old list.new count.new }
    ensures failed { result ≢ OK → (list.new ≡ list.old) × (count.new ≡ count.old) }
    ensures session { result ≡ NO_SUCH_SESSION → ¬ (IsSession book.now session) }
    ensures level { result ≡ NO_SUCH_LEVEL → IsSession book.now session × ¬ (IsAfterLevel after.now.level) }
    ensures memory { result ≡ NO_MEMORY → IsSession book.now session × IsAfterLevel after.now.level }
    ensures statuses { (result ≡ OK) ⊎ ((result ≡ NO_MEMORY) ⊎ ((result ≡ NO_SUCH_SESSION) ⊎ (result ≡ NO_SUCH_LEVEL))) }
{
    let Some(number) = book_calls::session_of(book, session) else {
        return NO_SUCH_SESSION;
    };
    let Some(begin) = read_after(after) else {
        return NO_SUCH_LEVEL;
    };
    let mut page = Vec::new(alloc);
    if book
        .locks_of(alloc, number, begin, list.len(), &mut page)
        .is_err()
    {
        return NO_MEMORY;
    }
    write_all(page.as_slice(), list);
    *count = page.len();
    OK
}
