//! The lock table of a shell: serves calls and says what each did, and takes calls back.

ghost use Rattle.std.specs.Prelude.{◌≡◌, ◌≤◌, ◌++◌, [], ◌∷◌, length, take, All, IfOk, OnOk};
ghost use Rattle.sequential.specs.Histories.{IsEntryWithin};
ghost use Rattle.lock_rules.specs.declared.calls.TheConstants.{MAX_SESSIONS};
ghost use Rattle.lock_rules.specs.Legal.{IsLegal};
ghost use Rattle.lock_trace.specs.Rows.{IsRow};
ghost use Rattle.lock_shell.specs.Replies.{text_of_reply};
ghost use Rattle.lock_shell.specs.Turns.{HasServed, HasServedPath, HasServedRows};
ghost use Rattle.lock_shell.specs.inner.Desks.{AreAlike};

use crate::reply_line::put_reply_text;
use lock_desk::{Book, Entry, Mode, NO_BOUND, NoMemory, Reply, Resource, grants, lock_of_level};
use lock_explain::{ExplainedCall, serve_explained};
use lock_trace::TraceRow;
use std::alloc::Global;

/// A lock table that has served some calls, as two books that have served the same: between the two, one serves a call before the
/// other, so that the call can be explained.
#[derive(Drop)]
pub(crate) struct Desk {
    /// Serves a call behind the other.
    pub(crate) before: Book,
    /// Serves a call first, and keeps the history in memory.
    pub(crate) after: Book,
}

/// A lock table that has served no call. Fails if memory is refused.
pub(crate) fn fresh_desk(alloc: Global, sessions: u16) -> Result<Desk, NoMemory>
    requires some { 1 ≤ sessions }
    requires few { sessions ≤ MAX_SESSIONS }
    ensures alike { IfOk result (λ desk. AreAlike sessions desk.before desk.after) }
    ensures empty { IfOk result (λ desk. desk.after.history ≡ []) }
{
    let before = Book::new(alloc, sessions)?;
    let after = Book::new(alloc, sessions)?;
    Ok(Desk { before, after })
}

/// Appends the line of the row's call, which `before` hasn't served. Fails if memory is refused.
fn tell(
    alloc: Global,
    before: &Book,
    row: &TraceRow,
    told: &ExplainedCall,
    text: &mut Vec<u8>,
) -> Result<(), NoMemory>
    ensures { OnOk result (text.new.items ≡ text.old.items ++ text_of_reply (length before.now.history) (record { session = row.now.session; call = row.now.call; reply = told.now.reply }) told.now.explanation) }
{
    let entry = Entry {
        session: row.session,
        call: row.call,
        reply: told.reply,
    };
    let mut line = String::new(alloc);
    put_reply_text(&mut line, before.served(), &entry, &told.explanation)?;
    text.extend_from_slice(line.as_bytes())
}

/// Serves the call of a row on both books, and appends its line to the text. Returns the reply. Fails if memory is refused; the books
/// may differ then.
pub(crate) fn serve_told(
    alloc: Global,
    before: &mut Book,
    after: &mut Book,
    row: &TraceRow,
    text: &mut Vec<u8>,
) -> Result<Reply, NoMemory>
    requires some { 1 ≤ row.now.session }
    requires within { row.now.session ≤ after.old.sessions }
    requires alike { AreAlike after.old.sessions before.old after.old }
    ensures alike { OnOk result (AreAlike after.old.sessions before.new after.new) }
    ensures served { IfOk result (λ reply. HasServed after.old.sessions after.old.history after.new.history (record { session = row.now.session; call = row.now.call; reply = reply } ∷ []) text.old.items text.new.items) }
{
    let told = serve_explained(alloc, before, after, row.session, &row.call)?;
    tell(alloc, before, row, &told, text)?;
    before.serve(row.session, row.call)?;
    Ok(told.reply)
}

/// Locks a path for a session, from the database down, as `Book::lock_path` does, and appends the lines of the calls to the text.
/// Stops at the first call that isn't granted. Fails if memory is refused; the books may differ then.
pub(crate) fn serve_path(
    alloc: Global,
    desk: &mut Desk,
    session: u16,
    resource: Resource,
    mode: Mode,
    text: &mut Vec<u8>,
) -> Result<(), NoMemory>
    requires some { 1 ≤ session }
    requires within { session ≤ desk.old.after.sessions }
    requires alike { AreAlike desk.old.after.sessions desk.old.before desk.old.after }
    ensures alike { OnOk result (AreAlike desk.old.after.sessions desk.new.before desk.new.after) }
    ensures served { OnOk result (HasServedPath desk.old.after.sessions session resource mode desk.old.after.history desk.new.after.history text.old.items text.new.items) }
{
    for level in 0..resource.level() {
        let row = TraceRow {
            session,
            call: lock_of_level(&resource, mode, level + 1),
        };
        let reply = serve_told(alloc, &mut desk.before, &mut desk.after, &row, text)?;
        if !grants(&reply) {
            return Ok(());
        }
    }
    Ok(())
}

/// Serves the calls of the rows, and appends their lines to the text. Fails if memory is refused; the books may differ then.
pub(crate) fn serve_rows(
    alloc: Global,
    before: &mut Book,
    after: &mut Book,
    rows: &[TraceRow],
    text: &mut Vec<u8>,
) -> Result<(), NoMemory>
    requires within { All (IsRow after.old.sessions) rows.now }
    requires alike { AreAlike after.old.sessions before.old after.old }
    ensures alike { OnOk result (AreAlike after.old.sessions before.new after.new) }
    ensures served { OnOk result (HasServedRows after.old.sessions rows.now after.old.history after.new.history text.old.items text.new.items) }
{
    for row in rows {
        serve_told(alloc, before, after, row, text)?;
    }
    Ok(())
}

/// Serves the calls of the first `upto` entries, which are of a legal history, on a book that has served none. Fails if memory is
/// refused.
pub(crate) fn serve_again(book: &mut Book, entries: &[Entry], upto: usize) -> Result<(), NoMemory>
    requires within { All (IsEntryWithin book.old.sessions) entries.now }
    requires legal { IsLegal entries.now }
    requires empty { book.old.history ≡ [] }
    requires few { upto ≤ length entries.now }
    ensures sessions { OnOk result (book.new.sessions ≡ book.old.sessions) }
    ensures cut { OnOk result (book.new.cut ≡ book.old.cut) }
    ensures bound { OnOk result (book.new.bound ≡ book.old.bound) }
    ensures served { OnOk result (book.new.history ≡ take upto entries.now) }
{
    for place in 0..upto {
        let entry = &entries[place];
        book.serve(entry.session, entry.call)?;
    }
    Ok(())
}

/// Serves the calls of the first `upto` entries, which are of a legal history, on both books of a desk that has served none. Fails if
/// memory is refused; the books may differ then.
fn serve_both_again(desk: &mut Desk, entries: &[Entry], upto: usize) -> Result<(), NoMemory>
    requires within { All (IsEntryWithin desk.old.after.sessions) entries.now }
    requires legal { IsLegal entries.now }
    requires alike { AreAlike desk.old.after.sessions desk.old.before desk.old.after }
    requires empty { desk.old.after.history ≡ [] }
    requires few { upto ≤ length entries.now }
    ensures alike { OnOk result (AreAlike desk.old.after.sessions desk.new.before desk.new.after) }
    ensures served { OnOk result (desk.new.after.history ≡ take upto entries.now) }
{
    serve_again(&mut desk.before, entries, upto)?;
    serve_again(&mut desk.after, entries, upto)
}

/// A lock table that has served the first `kept` entries of the book's history, all of which the book keeps in memory. Costs what
/// it costs to serve them. Fails if memory is refused.
pub(crate) fn desk_again(alloc: Global, after: &Book, kept: usize) -> Result<Desk, NoMemory>
    requires all { after.now.cut ≡ 0 }
    requires unbounded { after.now.bound ≡ NO_BOUND }
    requires few { kept ≤ length after.now.history }
    ensures alike { IfOk result (λ desk. AreAlike after.now.sessions desk.before desk.after) }
    ensures served { IfOk result (λ desk. desk.after.history ≡ take kept after.now.history) }
{
    let mut desk = fresh_desk(alloc, after.sessions())?;
    serve_both_again(&mut desk, after.history(), kept)?;
    Ok(desk)
}
