//! What a shell answers to a line.

ghost use Rattle.std.specs.Prelude.{◌≡◌, ◌<◌, length, All, IfOk, OnOk, string_bytes};
ghost use Rattle.history_commands.specs.Showing.{lines_in};
ghost use Rattle.lock_trace.specs.Rows.{IsRow};
ghost use Rattle.lock_shell.specs.Texts.{IsSaved, text_of_undo};
ghost use Rattle.lock_shell.specs.Turns.{HasLoaded, IsAnswer, IsLoaded, IsUndone};
ghost use Rattle.lock_shell.specs.declared.line.Asked.TheVariants as Asked;
ghost use Rattle.lock_shell.specs.inner.Asked.{IsAsked, IsSession};
ghost use Rattle.lock_shell.specs.inner.Desks.{AreAlike, kept_in};

use crate::desk::{Desk, desk_again, serve_path, serve_rows, serve_told};
use crate::files::{Loaded, load, save};
use crate::line::Asked;
use crate::texts::{HELP, text_of_unread};
use crate::why::why_text;
use history_commands::lines_text;
use lock_desk::{Book, Mode, NO_BOUND, NoMemory, Resource};
use lock_trace::TraceRow;
use std::alloc::Global;
use std::fs::Files;

/// The state of the lock table, as `show` writes it. The book keeps all of its history in memory. Fails if memory is refused.
fn state_shown(alloc: Global, after: &Book) -> Result<Vec<u8>, NoMemory>
    requires all { after.now.cut ≡ 0 }
    requires unbounded { after.now.bound ≡ NO_BOUND }
    ensures { IfOk result (λ text. text.items ≡ lines_in after.now.sessions (length after.now.history) after.now.history) }
{
    let place = after.served();
    let shown = lines_text(alloc, after, after.history(), place)?;
    Ok(shown.into_bytes())
}

/// Serves a call, and returns its line. Fails if memory is refused; the desk counts no more then.
fn answer_call(
    alloc: Global,
    desk: &mut Desk,
    marks: &mut Vec<u64>,
    row: &TraceRow,
) -> Result<Vec<u8>, NoMemory>
    requires alike { AreAlike desk.old.after.sessions desk.old.before desk.old.after }
    requires session { IsSession desk.old.after.sessions row.now.session }
    ensures alike { OnOk result (AreAlike desk.old.after.sessions desk.new.before desk.new.after) }
    ensures answer { IfOk result (λ text. IsAnswer desk.old.after.sessions (Asked.Call row.now) (kept_in desk.old.after marks.old.items) (kept_in desk.new.after marks.new.items) text.items) }
{
    marks.push(desk.after.served())?;
    let mut text = Vec::new(alloc);
    serve_told(alloc, &mut desk.before, &mut desk.after, row, &mut text)?;
    Ok(text)
}

/// Locks a path, and returns the lines of its calls. Fails if memory is refused; the desk counts no more then.
fn answer_path(
    alloc: Global,
    desk: &mut Desk,
    marks: &mut Vec<u64>,
    session: u16,
    resource: Resource,
    mode: Mode,
) -> Result<Vec<u8>, NoMemory>
    requires alike { AreAlike desk.old.after.sessions desk.old.before desk.old.after }
    requires session { IsSession desk.old.after.sessions session }
    ensures alike { OnOk result (AreAlike desk.old.after.sessions desk.new.before desk.new.after) }
    ensures answer { IfOk result (λ text. IsAnswer desk.old.after.sessions (Asked.Path session resource mode) (kept_in desk.old.after marks.old.items) (kept_in desk.new.after marks.new.items) text.items) }
{
    marks.push(desk.after.served())?;
    let mut text = Vec::new(alloc);
    serve_path(alloc, desk, session, resource, mode, &mut text)?;
    Ok(text)
}

/// Serves the calls of the rows, and returns their lines. Fails if memory is refused; the desk counts no more then.
fn answer_rows(
    alloc: Global,
    desk: &mut Desk,
    marks: &mut Vec<u64>,
    rows: &[TraceRow],
) -> Result<Vec<u8>, NoMemory>
    requires some { 0 < length rows.now }
    requires within { All (IsRow desk.old.after.sessions) rows.now }
    requires alike { AreAlike desk.old.after.sessions desk.old.before desk.old.after }
    ensures alike { OnOk result (AreAlike desk.old.after.sessions desk.new.before desk.new.after) }
    ensures loaded { IfOk result (λ text. HasLoaded desk.old.after.sessions rows.now (kept_in desk.old.after marks.old.items) (kept_in desk.new.after marks.new.items) text.items) }
{
    marks.push(desk.after.served())?;
    let mut text = Vec::new(alloc);
    serve_rows(alloc, &mut desk.before, &mut desk.after, rows, &mut text)?;
    Ok(text)
}

/// Serves the calls of the trace in the file at `path`, and returns their lines, or the line that says why none was served. Fails if
/// memory is refused; the desk counts no more then.
fn answer_load<T: Files>(
    files: &T,
    alloc: Global,
    desk: &mut Desk,
    marks: &mut Vec<u64>,
    path: &str,
) -> Result<Vec<u8>, NoMemory>
    requires alike { AreAlike desk.old.after.sessions desk.old.before desk.old.after }
    ensures alike { OnOk result (AreAlike desk.old.after.sessions desk.new.before desk.new.after) }
    ensures loaded { IfOk result (λ text. IsLoaded desk.old.after.sessions (kept_in desk.old.after marks.old.items) (kept_in desk.new.after marks.new.items) text.items) }
{
    match load(files, alloc, path, desk.after.sessions())? {
        Loaded::Rows(rows) => answer_rows(alloc, desk, marks, &rows),
        Loaded::Failed(line) => Ok(line.into_bytes()),
    }
}

/// Takes back the calls of the last line that served some. Fails if memory is refused; the desk counts no more then.
fn undo(alloc: Global, desk: &mut Desk, marks: &mut Vec<u64>) -> Result<(), NoMemory>
    requires alike { AreAlike desk.old.after.sessions desk.old.before desk.old.after }
    ensures alike { OnOk result (AreAlike desk.old.after.sessions desk.new.before desk.new.after) }
    ensures undone { OnOk result (IsUndone (kept_in desk.old.after marks.old.items) (kept_in desk.new.after marks.new.items)) }
{
    let Some(mark) = marks.pop() else {
        return Ok(());
    };
    let kept = mark.min(desk.after.served());
    let again = desk_again(alloc, &desk.after, kept as usize)?;
    *desk = again;
    Ok(())
}

/// The line that says how many calls were taken back. Fails if memory is refused.
fn undo_line(alloc: Global, count: u64) -> Result<String, NoMemory>
    ensures { IfOk result (λ line. string_bytes line ≡ text_of_undo count) }
{
    format!(in alloc; "calls taken back: {count}\n")
}

/// Takes back the calls of the last line that served some, and returns the line that says how many. Fails if memory is refused; the
/// desk counts no more then.
fn answer_undo(alloc: Global, desk: &mut Desk, marks: &mut Vec<u64>) -> Result<Vec<u8>, NoMemory>
    requires alike { AreAlike desk.old.after.sessions desk.old.before desk.old.after }
    ensures alike { OnOk result (AreAlike desk.old.after.sessions desk.new.before desk.new.after) }
    ensures answer { IfOk result (λ text. IsAnswer desk.old.after.sessions Asked.Undo (kept_in desk.old.after marks.old.items) (kept_in desk.new.after marks.new.items) text.items) }
{
    let before = desk.after.served();
    undo(alloc, desk, marks)?;
    let count = before.saturating_sub(desk.after.served());
    let line = undo_line(alloc, count)?;
    Ok(line.into_bytes())
}

/// Saves the calls so far to the file at `path`, and returns the line that says so, or what failed. The book keeps all of its history in
/// memory. Fails if memory is refused.
fn answer_save<T: Files>(
    files: &T,
    alloc: Global,
    after: &Book,
    path: &str,
) -> Result<Vec<u8>, NoMemory>
    requires all { after.now.cut ≡ 0 }
    requires unbounded { after.now.bound ≡ NO_BOUND }
    ensures { IfOk result (λ text. IsSaved (length after.now.history) text.items) }
{
    let line = save(files, alloc, path, after.history())?;
    Ok(line.into_bytes())
}

/// Answers what a line asks for: serves its calls on the desk, and returns the answer. `marks` has how many calls were served before
/// each line that served some. Fails if memory is refused; the desk counts no more then.
pub(crate) fn answer<T: Files>(
    files: &T,
    alloc: Global,
    desk: &mut Desk,
    marks: &mut Vec<u64>,
    asked: &Asked<'_>,
) -> Result<Vec<u8>, NoMemory>
    requires alike { AreAlike desk.old.after.sessions desk.old.before desk.old.after }
    requires asked { IsAsked desk.old.after.sessions asked.now }
    ensures alike { OnOk result (AreAlike desk.old.after.sessions desk.new.before desk.new.after) }
    ensures answer { IfOk result (λ text. IsAnswer desk.old.after.sessions asked.now (kept_in desk.old.after marks.old.items) (kept_in desk.new.after marks.new.items) text.items) }
{
    match asked {
        Asked::Nothing | Asked::Quit => Ok(Vec::new(alloc)),
        Asked::Call(row) => answer_call(alloc, desk, marks, row),
        Asked::Path(session, resource, mode) => {
            answer_path(alloc, desk, marks, *session, *resource, *mode)
        }
        Asked::Load(path) => answer_load(files, alloc, desk, marks, path),
        Asked::Undo => answer_undo(alloc, desk, marks),
        Asked::Show => state_shown(alloc, &desk.after),
        Asked::Why(session) => why_text(alloc, &desk.after, *session),
        Asked::Save(path) => answer_save(files, alloc, &desk.after, path),
        Asked::Help => Vec::from_slice(alloc, HELP.as_bytes()),
        Asked::Unreadable(unread) => Vec::from_slice(alloc, text_of_unread(*unread).as_bytes()),
    }
}
