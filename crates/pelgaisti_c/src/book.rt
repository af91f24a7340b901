//! The exports over a book: the lock table for one thread.

ghost use Rattle.std.specs.Prelude.{◌≡◌, ◌≢◌, ◌-◌, ◌≤◌, ◌↔◌, ◌⊎◌, ℕ, List, Some, None, length};
ghost use denote.RawPtr.{null_ptr};
ghost use Rattle.lock_modes.specs.Codes.{code_of};
ghost use Rattle.lock_rules.specs.Legal.{state_of};
ghost use Rattle.lock_rules.specs.State.{held_mode, mode_or_nothing, holders};
ghost use Rattle.lock_rules.specs.declared.calls.Call.{Call};
ghost use Rattle.lock_desk.specs.BookView.{BookView};
ghost use Rattle.library_books.specs.Behind.{IsNullList};
ghost use Rattle.library_books.specs.Numbers.{IsCall, IsCallFault, IsLevel, IsPath, numbers_of_holder};
ghost use Rattle.library_books.specs.Calls.{IsSession, IsServed, AreListedOnce, are_written, opened_book};
ghost use Rattle.library_books.specs.Batches.{AreItems, IsBatchServed, IsFirstFault};
ghost use Rattle.lock_desk.specs.Batches.{Item};
ghost use Rattle.library_sessions.specs.Tables.{IsClosed, IsOpen, IsSameBook, shown};

use library_books::option_numbers::OptionNumbers;
use library_books::pointers::{
    CallPointer, EntryList, HolderList, ReplyPointer, ResourcePointer, SessionList, SizePointer,
    U32Pointer,
};
use library_books::status::{
    CLOSED, LOOKS, NO_MEMORY, NO_SUCH_COUNT, NO_SUCH_LEVEL, NO_SUCH_MODE, NO_SUCH_OP,
    NO_SUCH_SESSION, NULL_POINTER, OK, OPEN,
};
use library_books::{batch, book_calls};
use library_sessions::pointers::BookPointer;
use lock_rules::MAX_SESSIONS;
use std::alloc::Global;

/// Opens the handle with an empty book, which has these options. The handle must be closed.
#[unsafe(no_mangle)]
pub extern "C" fn pelgaisti_raw_book_open(
    alloc: Global,
    book: &mut BookPointer,
    options: &OptionNumbers,
) -> u32
    ensures null { result ≡ NULL_POINTER ↔ (book.old.at ≡ null_ptr) }
    ensures ok { result ≡ OK → (book.new.behind.is_open ≡ 1) × (book.new.behind.held.book ≡ Some (opened_book options.now.sessions options.now)) }
    ensures failed { result ≢ OK → book.new.behind ≡ book.old.behind }
    ensures open { result ≢ NULL_POINTER → (result ≡ OPEN ↔ IsOpen book.old.behind) }
    ensures count { result ≡ NO_SUCH_COUNT → IsClosed book.old.behind × ¬ ((1 ≤ options.now.sessions) × (options.now.sessions ≤ MAX_SESSIONS)) }
    ensures possible { (result ≤ NO_MEMORY) → IsClosed book.old.behind × (1 ≤ options.now.sessions) × (options.now.sessions ≤ MAX_SESSIONS) }
    ensures statuses { (result ≡ NULL_POINTER) ⊎ ((result ≤ NO_MEMORY) ⊎ ((result ≡ OPEN) ⊎ (result ≡ NO_SUCH_COUNT))) }
{
    behind!(book);
    if book.has_table() {
        return OPEN;
    }
    let sessions = options.sessions;
    if sessions == 0 || sessions > u32::from(MAX_SESSIONS) {
        return NO_SUCH_COUNT;
    }
    match book_calls::new_book(alloc, sessions as u16, options) {
        Some(boxed) => {
            book.put_own(alloc, boxed);
            OK
        }
        None => NO_MEMORY,
    }
}

/// Closes the handle and frees the book of its own.
#[unsafe(no_mangle)]
pub extern "C" fn pelgaisti_raw_book_close(alloc: Global, book: &mut BookPointer) -> u32
    ensures null { result ≡ NULL_POINTER ↔ (book.old.at ≡ null_ptr) }
    ensures after { result ≡ OK → IsClosed book.new.behind × (book.new.behind.held.book ≡ None) }
    ensures failed { result ≢ OK → book.new.behind ≡ book.old.behind }
    ensures closed { result ≢ NULL_POINTER → (result ≡ CLOSED ↔ IsClosed book.old.behind) }
    ensures looks { result ≢ NULL_POINTER → (result ≡ LOOKS ↔ (book.old.behind.is_open ≡ 2)) }
    ensures statuses { (result ≡ NULL_POINTER) ⊎ ((result ≡ OK) ⊎ ((result ≡ CLOSED) ⊎ (result ≡ LOOKS))) }
{
    behind!(book);
    match book.take_own(alloc) {
        Some(_) => OK,
        None => book.refusal(),
    }
}

/// Serves the call of `session` that the numbers encode, and writes the reply.
#[unsafe(no_mangle)]
pub extern "C" fn pelgaisti_raw_book_serve(
    alloc: Global,
    book: &mut BookPointer,
    session: u32,
    call: &mut CallPointer,
    reply: &mut ReplyPointer,
) -> u32
    ensures null { result ≡ NULL_POINTER ↔ ((book.old.at ≡ null_ptr) ⊎ ((call.old.at ≡ null_ptr) ⊎ (reply.old.at ≡ null_ptr))) }
    ensures served { result ≡ OK → (before after : BookView) × (book.old.behind.held.book ≡ Some before) × (book.new.behind.held.book ≡ Some after)
        × IsSession before session × IsServed before after session call.old.behind reply.new.behind }
    ensures failed { result ≢ OK → IsSameBook book.old.behind book.new.behind × (reply.new.behind ≡ reply.old.behind) }
    ensures open { book.new.behind.is_open ≡ book.old.behind.is_open }
    ensures closed { result ≢ NULL_POINTER → (result ≡ CLOSED ↔ IsClosed book.old.behind) }
    ensures looks { result ≢ NULL_POINTER → (result ≡ LOOKS ↔ (book.old.behind.is_open ≡ 2)) }
    ensures session { result ≡ NO_SUCH_SESSION → (view : BookView) × (book.old.behind.held.book ≡ Some view) × ¬ (IsSession view session) }
    ensures call { NO_SUCH_OP ≤ result → result ≤ NO_SUCH_MODE → (view : BookView) × (book.old.behind.held.book ≡ Some view) × IsSession view session × IsCallFault call.old.behind result }
    ensures memory { result ≡ NO_MEMORY → (view : BookView) × (book.old.behind.held.book ≡ Some view) × IsSession view session × ((asked : Call) × IsCall call.old.behind asked) }
    ensures statuses { (result ≡ NULL_POINTER) ⊎ ((result ≡ LOOKS) ⊎ (result ≤ NO_SUCH_MODE)) }
{
    behind!(book, call, reply);
    on!(boxed owned by book, alloc => book_calls::serve(&mut boxed, session, &call, reply))
}

/// Serves the calls that the numbers encode, in order, up to the first for which memory is refused. Writes the entry of each
/// call served to its place, and how many there are to `count`. Serves none if the numbers of one encode no call.
#[unsafe(no_mangle)]
pub extern "C" fn pelgaisti_raw_book_serve_batch(
    alloc: Global,
    book: &mut BookPointer,
    calls: &mut EntryList,
    count: &mut SizePointer,
) -> u32
    ensures null { result ≡ NULL_POINTER ↔ ((book.old.at ≡ null_ptr) ⊎ (IsNullList calls.old.at calls.old.room ⊎ (count.old.at ≡ null_ptr))) }
    ensures served { result ≡ OK → (before after : BookView) × (book.old.behind.held.book ≡ Some before) × (book.new.behind.held.book ≡ Some after)
        × IsBatchServed before after calls.old.behind calls.new.behind count.new.behind }
    ensures failed { result ≢ OK → IsSameBook book.old.behind book.new.behind × (calls.new.behind ≡ calls.old.behind) × (count.new.behind ≡ count.old.behind) }
    ensures open { book.new.behind.is_open ≡ book.old.behind.is_open }
    ensures closed { result ≢ NULL_POINTER → (result ≡ CLOSED ↔ IsClosed book.old.behind) }
    ensures looks { result ≢ NULL_POINTER → (result ≡ LOOKS ↔ (book.old.behind.is_open ≡ 2)) }
    ensures fault { NO_SUCH_SESSION ≤ result → result ≤ NO_SUCH_MODE → (view : BookView) × (book.old.behind.held.book ≡ Some view) × IsFirstFault view calls.old.behind result }
    ensures memory { result ≡ NO_MEMORY → (view : BookView) × (book.old.behind.held.book ≡ Some view) × ((items : List Item) × AreItems view calls.old.behind items) }
    ensures statuses { (result ≡ NULL_POINTER) ⊎ ((result ≡ LOOKS) ⊎ (result ≤ NO_SUCH_MODE)) }
{
    behind!(book, [calls], count);
    let calls = calls.items();
    on!(boxed owned by book, alloc => batch::serve(alloc, &mut boxed, calls, count))
}

/// Writes the code of the mode that `session` holds on the resource, or that of NL if it holds none. A waiting request
/// does not count.
#[unsafe(no_mangle)]
pub extern "C" fn pelgaisti_raw_book_held(
    alloc: Global,
    book: &mut BookPointer,
    session: u32,
    resource: &mut ResourcePointer,
    mode: &mut U32Pointer,
) -> u32
    ensures null { result ≡ NULL_POINTER ↔ ((book.old.at ≡ null_ptr) ⊎ ((resource.old.at ≡ null_ptr) ⊎ (mode.old.at ≡ null_ptr))) }
    ensures ok { result ≡ OK → (view : BookView) × (shown book.old.behind ≡ Some view) × IsSession view session
        × ((r : List ℕ) × IsPath resource.old.behind r × (mode.new.behind ≡ code_of (mode_or_nothing (held_mode (state_of view.history).table session r)))) }
    ensures failed { result ≢ OK → mode.new.behind ≡ mode.old.behind }
    ensures same { IsSameBook book.old.behind book.new.behind }
    ensures closed { result ≢ NULL_POINTER → (result ≡ CLOSED ↔ IsClosed book.old.behind) }
    ensures session { result ≡ NO_SUCH_SESSION → (view : BookView) × (shown book.old.behind ≡ Some view) × ¬ (IsSession view session) }
    ensures level { result ≡ NO_SUCH_LEVEL → (view : BookView) × (shown book.old.behind ≡ Some view) × IsSession view session × ¬ (IsLevel resource.old.behind.level) }
    ensures statuses { (result ≡ NULL_POINTER) ⊎ ((result ≡ OK) ⊎ ((result ≡ CLOSED) ⊎ ((result ≡ NO_SUCH_SESSION) ⊎ (result ≡ NO_SUCH_LEVEL)))) }
{
    behind!(book, resource, mode);
    on!(table shown by book, alloc => book_calls::held(table.book(), session, &resource, mode))
}

/// Writes the holders of the resource in the order of session numbers, as many as `list` has room for, and the number
/// of all holders to `count`.
#[unsafe(no_mangle)]
pub extern "C" fn pelgaisti_raw_book_holders(
    alloc: Global,
    book: &mut BookPointer,
    resource: &mut ResourcePointer,
    list: &mut HolderList,
    count: &mut SizePointer,
) -> u32
    ensures null { result ≡ NULL_POINTER ↔ ((book.old.at ≡ null_ptr) ⊎ ((resource.old.at ≡ null_ptr) ⊎ (IsNullList list.old.at list.old.room ⊎ (count.old.at ≡ null_ptr)))) }
    ensures ok { result ≡ OK → (view : BookView) × (shown book.old.behind ≡ Some view) × ((r : List ℕ) × IsPath resource.old.behind r
        × (let all = holders r (state_of view.history).table.held in
        (list.new.behind ≡ are_written numbers_of_holder all list.old.behind) × (count.new.behind ≡ length all))) }
    ensures failed { result ≢ OK → (list.new.behind ≡ list.old.behind) × (count.new.behind ≡ count.old.behind) }
    ensures same { IsSameBook book.old.behind book.new.behind }
    ensures closed { result ≢ NULL_POINTER → (result ≡ CLOSED ↔ IsClosed book.old.behind) }
    ensures level { result ≡ NO_SUCH_LEVEL → IsOpen book.old.behind × ¬ (IsLevel resource.old.behind.level) }
    ensures memory { result ≡ NO_MEMORY → IsOpen book.old.behind × IsLevel resource.old.behind.level }
    ensures statuses { (result ≡ NULL_POINTER) ⊎ ((result ≡ OK) ⊎ ((result ≡ NO_MEMORY) ⊎ ((result ≡ CLOSED) ⊎ (result ≡ NO_SUCH_LEVEL)))) }
{
    behind!(book, resource, [list], count);
    let list = list.items();
    on!(table shown by book, alloc => book_calls::holders(alloc, table.book(), &resource, list, count))
}

/// Writes the sessions whose wait the last call or batch has ended, each once, as many as `list` has room for, and the number
/// of all of them to `count`.
#[unsafe(no_mangle)]
pub extern "C" fn pelgaisti_raw_book_ended(
    alloc: Global,
    book: &mut BookPointer,
    list: &mut SessionList,
    count: &mut SizePointer,
) -> u32
    ensures null { result ≡ NULL_POINTER ↔ ((book.old.at ≡ null_ptr) ⊎ (IsNullList list.old.at list.old.room ⊎ (count.old.at ≡ null_ptr))) }
    ensures ok { result ≡ OK → (view : BookView) × (book.old.behind.held.book ≡ Some view) × ((told : List ℕ) × AreListedOnce view.ended told
        × (list.new.behind ≡ are_written (λ u. u) told list.old.behind) × (count.new.behind ≡ length told)) }
    ensures failed { result ≢ OK → (list.new.behind ≡ list.old.behind) × (count.new.behind ≡ count.old.behind) }
    ensures same { (book.new.behind.is_open ≡ book.old.behind.is_open) × (book.new.behind.held.book ≡ book.old.behind.held.book) }
    ensures closed { result ≢ NULL_POINTER → (result ≡ CLOSED ↔ IsClosed book.old.behind) }
    ensures looks { result ≢ NULL_POINTER → (result ≡ LOOKS ↔ (book.old.behind.is_open ≡ 2)) }
    ensures statuses { (result ≡ NULL_POINTER) ⊎ ((result ≡ LOOKS) ⊎ ((result ≡ OK) ⊎ (result ≡ CLOSED))) }
{
    behind!(book, [list], count);
    let list = list.items();
    let boxed = given!(book.take_own(alloc), book.refusal());
    book_calls::ended(&boxed, list, count);
    book.put_own(alloc, boxed);
    OK
}
