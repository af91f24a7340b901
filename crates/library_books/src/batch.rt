//! A batch of calls of a book in numbers, on the book that a handle holds.

ghost use Rattle.std.specs.Prelude.{◌≡◌, ◌≢◌, ◌≤◌, ◌⊎◌, List, [], ◌∷◌, ◌++◌, IfOk, IfErr, length};
ghost use Rattle.lock_desk.specs.Batches.{Item as ItemValue};
ghost use Rattle.library_books.specs.Batches.{IsItem, AreItems, IsItemFault, IsFirstFault, IsBatchServed};
ghost use Rattle.library_books.specs.Calls.{written};
ghost use Rattle.library_books.specs.inner.Items.{numbers_of_item, numbers_of_some_reply};

use crate::book_calls::session_of;
use crate::numbers::{EntryNumbers, ReplyNumbers, call_numbers, read_call, reply_numbers};
use crate::status::{NO_MEMORY, NO_SUCH_MODE, NO_SUCH_SESSION, OK};
use lock_desk::{Book, Item};
use lock_rules::Reply;
use std::alloc::Global;

/// Whether the numbers encode a call. On failure returns the status of the first test that fails.
fn check_item(book: &Book, numbers: &EntryNumbers) -> Result<(), u32>
    ensures ok { IfOk result (λ _. (item : ItemValue) × IsItem book.now numbers.now item) }
    ensures err { IfErr result (λ fault. IsItemFault book.now numbers.now fault) }
{
    let Some(_known) = session_of(book, numbers.session) else {
        return Err(NO_SUCH_SESSION);
    };
    match read_call(&numbers.call) {
        Ok(_) => Ok(()),
        Err(fault) => Err(fault),
    }
}

/// Whether all the numbers encode calls. On failure returns the status of the first that don't.
fn check_items(book: &Book, numbers: &[EntryNumbers]) -> Result<(), u32>
    ensures ok { IfOk result (λ _. (items : List ItemValue) × AreItems book.now numbers.now items) }
    ensures err { IfErr result (λ fault. IsFirstFault book.now numbers.now fault) }
{
    for k in 0..numbers.len() {
        if let Err(fault) = check_item(book, &numbers[k]) {
            return Err(fault);
        }
    }
    Ok(())
}

/// Appends the call that the numbers encode. On failure returns NO_MEMORY, or the status of the first test that fails.
fn push_item(book: &Book, numbers: &EntryNumbers, items: &mut Vec<Item>) -> Result<(), u32>
    ensures ok { IfOk result (λ _. (item : ItemValue) × IsItem book.now numbers.now item × (items.new.items ≡ items.old.items ++ item ∷ [])) }
    ensures err { IfErr result (λ fault. fault ≢ NO_MEMORY → IsItemFault book.now numbers.now fault) }
{
    let Some(session) = session_of(book, numbers.session) else {
        return Err(NO_SUCH_SESSION);
    };
    let call = read_call(&numbers.call)?;
    let item = Item {
        session,
        call,
        reply: None,
    };
    if items.push(item).is_err() {
        return Err(NO_MEMORY);
    }
    Ok(())
}

/// Appends the calls that the numbers encode to `items`, which is empty. On failure returns NO_MEMORY, or the status of the
/// first that encode no call.
fn read_items(book: &Book, numbers: &[EntryNumbers], items: &mut Vec<Item>) -> Result<(), u32>
    requires { items.old.items ≡ [] }
    ensures ok { IfOk result (λ _. AreItems book.now numbers.now items.new.items) }
    ensures err { IfErr result (λ fault. fault ≢ NO_MEMORY → IsFirstFault book.now numbers.now fault) }
{
    for k in 0..numbers.len() {
        if let Err(fault) = push_item(book, &numbers[k], items) {
            return Err(fault);
        }
    }
    Ok(())
}

/// The numbers of a reply, all 0 if there is none.
fn some_reply_numbers(reply: Option<Reply>) -> ReplyNumbers
    ensures { result ≡ numbers_of_some_reply reply }
{
    match reply {
        Some(reply) => reply_numbers(reply),
        None => ReplyNumbers { kind: 0, value: 0 },
    }
}

/// The numbers of an item.
fn item_numbers(item: &Item) -> EntryNumbers
    ensures { result ≡ numbers_of_item item.now }
{
    EntryNumbers {
        session: u32::from(item.session),
        call: call_numbers(&item.call),
        reply: some_reply_numbers(item.reply),
    }
}

/// Writes the numbers of the first `count` items.
fn write_items(items: &[Item], count: usize, places: &mut [EntryNumbers])
    requires items { count ≤ length items.now }
    requires places { count ≤ length places.old }
    ensures { places.new ≡ written numbers_of_item count items.now places.old }
{
    for k in 0..count {
        places[k] = item_numbers(&items[k]);
    }
}

/// Serves the items that the numbers encode, up to the first for which memory is refused, and writes the entry of each that was
/// served to its place. Returns how many there are.
fn serve_items(book: &mut Book, items: &mut [Item], places: &mut [EntryNumbers]) -> usize
    requires read { AreItems book.old places.old items.old }
    ensures { IsBatchServed book.old book.new places.old places.new result }
{
    let served = book.serve_batch(items);
    write_items(items, served, places);
    served
}

/// Serves the calls that the numbers encode, in order, up to the first for which memory is refused. Writes the entry of each
/// call served to its place, and how many there are to `count`.
pub fn serve(alloc: Global, book: &mut Book, places: &mut [EntryNumbers], count: &mut usize) -> u32
    ensures served { result ≡ OK → IsBatchServed book.old book.new places.old places.new count.new }
    ensures failed { result ≢ OK → (book.new ≡ book.old) × (places.new ≡ places.old) × (count.new ≡ count.old) }
    ensures fault { NO_SUCH_SESSION ≤ result → IsFirstFault book.old places.old result }
    ensures memory { result ≡ NO_MEMORY → (items : List ItemValue) × AreItems book.old places.old items }
    ensures statuses { (result ≤ NO_MEMORY) ⊎ ((NO_SUCH_SESSION ≤ result) × (result ≤ NO_SUCH_MODE)) }
{
    if let Err(fault) = check_items(book, places) {
        return fault;
    }
    let mut items = Vec::new(alloc);
    if items.reserve(places.len()).is_err() {
        return NO_MEMORY;
    }
    if let Err(fault) = read_items(book, places, &mut items) {
        return fault;
    }
    *count = serve_items(book, items.as_mut_slice(), places);
    OK
}
