//! The calls of a book in numbers.

ghost use Rattle.std.specs.Prelude.{◌≡◌, ◌≢◌, ◌+◌, ◌<◌, ◌≤◌, ◌↔◌, ◌⊎◌, ℕ, List, IfSome, IfNone, length, drop, min};
ghost use Rattle.lock_modes.specs.Codes.{code_of};
ghost use Rattle.lock_rules.specs.Legal.{state_of};
ghost use Rattle.lock_rules.specs.State.{held_mode, mode_or_nothing, holders};
ghost use Rattle.lock_rules.specs.declared.calls.Call.{Call as CallValue};
ghost use Rattle.lock_rules.specs.declared.calls.TheConstants.{MAX_SESSIONS};
ghost use Rattle.lock_desk.specs.BookView.{first_kept_by, kept_by};
ghost use Rattle.library_books.specs.Numbers.{IsCall, IsCallFault, IsLevel, IsPath, numbers_of_entry, numbers_of_holder};
ghost use Rattle.library_books.specs.Calls.{IsSession, IsServed, opened_book, AreListedOnce, are_written};

use crate::arrays::write_all;
use crate::numbers::{
    CallNumbers, EntryNumbers, HolderNumbers, ReplyNumbers, ResourceNumbers, read_call,
    read_resource, reply_numbers,
};
use crate::option_numbers::OptionNumbers;
use crate::status::{
    LET_GO, NO_MEMORY, NO_SUCH_LEVEL, NO_SUCH_MODE, NO_SUCH_OP, NO_SUCH_SESSION, OK,
};
use lock_desk::Book;
use std::alloc::Global;

/// The session number as the book takes it. Returns `None` if the book has no such session.
pub fn session_of(book: &Book, session: u32) -> Option<u16>
    ensures some { IfSome result (λ number. (number ≡ session) × IsSession book.now session) }
    ensures none { IfNone result (¬ (IsSession book.now session)) }
{
    if session == 0 || session > u32::from(book.sessions()) {
        return None;
    }
    Some(session as u16)
}

/// An empty book for `sessions` sessions, with these options. Returns `None` if memory is refused.
pub fn new_book(alloc: Global, sessions: u16, options: &OptionNumbers) -> Option<Box<Book>>
    requires some { 1 ≤ sessions }
    requires few { sessions ≤ MAX_SESSIONS }
    ensures { IfSome result (λ book. book.value ≡ opened_book sessions options.now) }
{
    let Ok(mut book) = Book::with_seed(alloc, sessions, options.seed) else {
        return None;
    };
    if book
        .keep_deadlocks(alloc, options.deadlocks as usize)
        .is_err()
    {
        return None;
    }
    book.keep_at_most(options.keep);
    Box::new(alloc, book).ok()
}

/// Serves the call that the numbers encode.
pub fn serve(book: &mut Book, session: u32, asked: &CallNumbers, reply: &mut ReplyNumbers) -> u32
    ensures served { result ≡ OK → IsSession book.old session × IsServed book.old book.new session asked.now reply.new }
    ensures failed { result ≢ OK → (book.new ≡ book.old) × (reply.new ≡ reply.old) }
    ensures session { result ≡ NO_SUCH_SESSION → ¬ (IsSession book.old session) }
    ensures call { NO_SUCH_OP ≤ result → IsSession book.old session × IsCallFault asked.now result }
    ensures memory { result ≡ NO_MEMORY → IsSession book.old session × ((call : CallValue) × IsCall asked.now call) }
    ensures statuses { (result ≤ NO_MEMORY) ⊎ ((NO_SUCH_SESSION ≤ result) × (result ≤ NO_SUCH_MODE)) }
{
    let Some(number) = session_of(book, session) else {
        return NO_SUCH_SESSION;
    };
    let call = match read_call(asked) {
        Ok(call) => call,
        Err(fault) => return fault,
    };
    match book.serve(number, call) {
        Ok(outcome) => {
            *reply = reply_numbers(outcome);
            OK
        }
        Err(_) => NO_MEMORY,
    }
}

/// Writes the code of the mode that the session holds on the resource, or that of NL if it holds none.
pub fn held(book: &Book, session: u32, path: &ResourceNumbers, mode: &mut u32) -> u32
    ensures ok { result ≡ OK → IsSession book.now session
        × ((r : List ℕ) × IsPath path.now r × (mode.new ≡ code_of (mode_or_nothing (held_mode (state_of book.now.history).table session r)))) }
    ensures failed { result ≢ OK → mode.new ≡ mode.old }
    ensures session { result ≡ NO_SUCH_SESSION → ¬ (IsSession book.now session) }
    ensures level { result ≡ NO_SUCH_LEVEL → IsSession book.now session × ¬ (IsLevel path.now.level) }
    ensures statuses { (result ≡ OK) ⊎ ((result ≡ NO_SUCH_SESSION) ⊎ (result ≡ NO_SUCH_LEVEL)) }
{
    let Some(number) = session_of(book, session) else {
        return NO_SUCH_SESSION;
    };
    let Some(resource) = read_resource(path) else {
        return NO_SUCH_LEVEL;
    };
    *mode = match book.held(number, resource) {
        Some(held) => u32::from(held.code()),
        None => 0,
    };
    OK
}

/// Writes the holders of the resource, as many as `list` has room for, and the number of all holders to `count`.
pub fn holders(
    alloc: Global,
    book: &Book,
    path: &ResourceNumbers,
    list: &mut [HolderNumbers],
    count: &mut usize,
) -> u32
    ensures ok { result ≡ OK → (r : List ℕ) × IsPath path.now r × (let all = holders r (state_of book.now.history).table.held in
        (list.new ≡ are_written numbers_of_holder all list.old) × (count.new ≡ length all)) }
    ensures failed { result ≢ OK → (list.new ≡ list.old) × (count.new ≡ count.old) }
    ensures level { result ≡ NO_SUCH_LEVEL → ¬ (IsLevel path.now.level) }
    ensures memory { result ≡ NO_MEMORY → IsLevel path.now.level }
    ensures statuses { (result ≡ OK) ⊎ ((result ≡ NO_MEMORY) ⊎ (result ≡ NO_SUCH_LEVEL)) }
{
    let Some(resource) = read_resource(path) else {
        return NO_SUCH_LEVEL;
    };
    let mut found = Vec::new(alloc);
    if book.holders(resource, &mut found).is_err() {
        return NO_MEMORY;
    }
    write_all(found.as_slice(), list);
    *count = found.len();
    OK
}

/// Writes the sessions whose wait the last call or batch has ended, as many as `list` has room for, and the number of all of
/// them to `count`.
pub fn ended(book: &Book, list: &mut [u32], count: &mut usize)
    ensures { (told : List ℕ) × AreListedOnce book.now.ended told × (list.new ≡ are_written (λ u. u) told list.old) × (count.new ≡ length told) }
{
    let found = book.ended();
    write_all(found, list);
    *count = found.len();
}

/// Writes the entries of the history from index `first` on, as many as `places` has room for, and the number of entries
/// written to `count`. The entry at `first` must not have been let go.
pub fn history(book: &Book, first: u64, places: &mut [EntryNumbers], count: &mut usize) -> u32
    ensures ok { result ≡ OK → (let rest = drop first book.now.history in
        (places.new ≡ are_written numbers_of_entry rest places.old) × (count.new ≡ min (length rest) (length places.old))) }
    ensures failed { result ≢ OK → (places.new ≡ places.old) × (count.new ≡ count.old) }
    ensures let_go { result ≡ LET_GO ↔ (first < first_kept_by book.now) }
    ensures statuses { (result ≡ OK) ⊎ (result ≡ LET_GO) }
{
    let kept = book.history();
    let first_kept = book.first_kept();
    if first < first_kept {
        return LET_GO;
    }
    let start = u64::min(first - first_kept, kept.len() as u64) as usize;
    *count = write_all(&kept[start..], places);
    OK
}

/// Writes the oldest entries of the history that are kept, as many as `places` has room for, and lets go of them. Returns
/// how many there were.
pub fn take_history(book: &mut Book, places: &mut [EntryNumbers]) -> usize
    ensures count { result ≡ min (length (kept_by book.old)) (length places.old) }
    ensures entries { places.new ≡ are_written numbers_of_entry (kept_by book.old) places.old }
    ensures book { book.new ≡ record book.old { cut = first_kept_by book.old + result } }
{
    let count = write_all(book.history(), places);
    book.let_go(count as u64);
    count
}
