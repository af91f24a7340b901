//! The command `check`: compares each reply of a history with the reply of a fresh lock table.

ghost use Rattle.std.specs.Prelude.{◌≡◌, ℕ, ◌+◌, ◌<◌, ◌≤◌, ◌↔◌, true, List, [], ◌∷◌, ◌++◌, Some, length, take, All, IfOk, IfErr, IfSome, IfNone, string_bytes};
ghost use Rattle.lock_rules.specs.declared.calls.TheConstants.{MAX_SESSIONS};
ghost use Rattle.lock_rules.specs.Legal.{IsLegal};
ghost use Rattle.lock_trace.specs.Entries.{IsEntry};
ghost use Rattle.replay_commands.specs.Verdicts.{Checks, Finds, IsFaultOfCheck, IsFinding, IsFirstWrong, IsVerdict, IsWrongReply, text_of_verdict, verdict_of};

use crate::finding::{Finding, WrongReply};
use crate::tool_fault::ToolFault;
use lock_desk::{Book, Entry, NoMemory, Reply};
use lock_trace::read_history;
use std::alloc::{AllocError, Global};
use std::io::Read;

/// The result of a check of a history.
#[derive(Clone, Copy, Debug, Drop, PartialEq, Eq)]
pub enum Verdict {
    /// Every reply equals the lock table's. Holds the number of entries.
    Legal(u64),
    /// Some reply differs from the lock table's. Holds the first such place, counted from 0.
    Illegal(u64),
}

/// Whether the two replies are equal, with their values.
pub fn is_same(served: Reply, recorded: Reply) -> bool
    ensures { (result ≡ true) ↔ (served ≡ recorded) }
{
    served == recorded
}

/// Serves the call of an entry. Returns the entry with the book's reply if the two replies differ. Fails if the book finds no
/// memory.
pub(crate) fn judge_entry(book: &mut Book, entry: &Entry) -> Result<Option<WrongReply>, NoMemory>
    requires some { 0 < entry.now.session }
    requires within { entry.now.session ≤ book.old.sessions }
    requires legal { IsLegal book.old.history }
    ensures sessions { IfOk result (λ _. book.new.sessions ≡ book.old.sessions) }
    ensures wrong { IfOk result (λ found. IfSome found (IsWrongReply (book.old.history ++ entry.now ∷ []))) }
    ensures served_wrong { IfOk result (λ found. IfSome found (λ wrong. length book.new.history ≡ wrong.place + 1)) }
    ensures legal { IfOk result (λ found. IfNone found (IsLegal (book.old.history ++ entry.now ∷ []))) }
    ensures served { IfOk result (λ found. IfNone found (book.new.history ≡ book.old.history ++ entry.now ∷ [])) }
{
    let place = book.served();
    let given = book.serve(entry.session, entry.call)?;
    if is_same(given, entry.reply) {
        return Ok(None);
    }
    Ok(Some(WrongReply {
        place,
        said: *entry,
        given,
    }))
}

/// Serves the calls of `entries[from..upto]` in order, on a book that has served those before, and stops at the first entry whose
/// recorded reply differs from the book's, which it returns. Fails if the book finds no memory for a call.
fn first_wrong_reply(
    book: &mut Book,
    entries: &[Entry],
    from: usize,
    upto: usize,
) -> Result<Option<WrongReply>, NoMemory>
    requires within { All (IsEntry book.old.sessions) entries.now }
    requires order { from ≤ upto }
    requires few { upto ≤ length entries.now }
    requires served { book.old.history ≡ take from entries.now }
    requires legal { IsLegal (take from entries.now) }
    ensures sessions { IfOk result (λ _. book.new.sessions ≡ book.old.sessions) }
    ensures wrong { IfOk result (λ found. IfSome found (IsWrongReply entries.now)) }
    ensures served_wrong { IfOk result (λ found. IfSome found (λ wrong. length book.new.history ≡ wrong.place + 1)) }
    ensures legal { IfOk result (λ found. IfNone found (IsLegal (take upto entries.now))) }
    ensures served { IfOk result (λ found. IfNone found (book.new.history ≡ take upto entries.now)) }
{
    for place in from..upto {
        let entry = &entries[place];
        if let Some(wrong) = judge_entry(book, entry)? {
            return Ok(Some(wrong));
        }
    }
    Ok(None)
}

/// Serves the calls of `entries[from..upto]` in order, on a book that has served those before, and stops at the first entry whose
/// recorded reply differs from the book's, whose place it returns. Fails if the book finds no memory for a call.
pub fn first_wrong(
    book: &mut Book,
    entries: &[Entry],
    from: usize,
    upto: usize,
) -> Result<Option<u64>, NoMemory>
    requires within { All (IsEntry book.old.sessions) entries.now }
    requires order { from ≤ upto }
    requires few { upto ≤ length entries.now }
    requires served { book.old.history ≡ take from entries.now }
    requires legal { IsLegal (take from entries.now) }
    ensures sessions { IfOk result (λ _. book.new.sessions ≡ book.old.sessions) }
    ensures wrong { IfOk result (λ found. IfSome found (IsFirstWrong entries.now)) }
    ensures served_wrong { IfOk result (λ found. IfSome found (λ place. length book.new.history ≡ place + 1)) }
    ensures legal { IfOk result (λ found. IfNone found (IsLegal (take upto entries.now))) }
    ensures served { IfOk result (λ found. IfNone found (book.new.history ≡ take upto entries.now)) }
{
    match first_wrong_reply(book, entries, from, upto)? {
        Some(wrong) => Ok(Some(wrong.place)),
        None => Ok(None),
    }
}

/// A fresh lock table of `sessions` sessions, at most `MAX_SESSIONS`, that keeps no history in memory. Fails if memory is refused.
pub fn fresh_book(alloc: Global, sessions: u16) -> Result<Book, NoMemory>
    requires some { 0 < sessions }
    requires few { sessions ≤ MAX_SESSIONS }
    ensures sessions { IfOk result (λ book. book.sessions ≡ sessions) }
    ensures empty { IfOk result (λ book. book.history ≡ []) }
{
    let mut book = Book::new(alloc, sessions)?;
    book.keep_at_most(0);
    Ok(book)
}

/// Serves the calls of the entries in order on a book that has served none, and returns what is found, as [`check_whole`] does of a
/// history that it reads. If the entries are legal, they are the book's history then. Fails only if the book finds no memory.
pub fn finding_by(book: &mut Book, entries: &[Entry]) -> Result<Finding, NoMemory>
    requires within { All (IsEntry book.old.sessions) entries.now }
    requires empty { book.old.history ≡ [] }
    ensures sessions { IfOk result (λ _. book.new.sessions ≡ book.old.sessions) }
    ensures finding { IfOk result (λ finding. IsFinding entries.now finding) }
    ensures served { IfOk result (λ finding. (count : ℕ) → finding ≡ Finding.Legal count → book.new.history ≡ entries.now) }
{
    match first_wrong_reply(book, entries, 0, entries.len())? {
        Some(wrong) => Ok(Finding::Wrong(wrong)),
        None => Ok(Finding::Legal(entries.len() as u64)),
    }
}

/// Serves the calls of the entries in order on a fresh lock table of `sessions` sessions, at most `MAX_SESSIONS`, and returns what is
/// found, as [`finding_by`] does. Fails only if the lock table finds no memory.
pub(crate) fn finding_on(
    alloc: Global,
    entries: &[Entry],
    sessions: u16,
) -> Result<Finding, NoMemory>
    requires some { 0 < sessions }
    requires few { sessions ≤ MAX_SESSIONS }
    requires within { All (IsEntry sessions) entries.now }
    ensures { IfOk result (λ finding. IsFinding entries.now finding) }
{
    let mut book = fresh_book(alloc, sessions)?;
    finding_by(&mut book, entries)
}

/// The finding of a history with this verdict. If a reply is wrong, the calls are served once more on a fresh lock table, for the reply
/// that it gives in its place. Fails if that lock table finds no memory.
pub fn finding_behind(
    alloc: Global,
    entries: &[Entry],
    sessions: u16,
    verdict: Verdict,
) -> Result<Finding, NoMemory>
    requires some { 0 < sessions }
    requires few { sessions ≤ MAX_SESSIONS }
    requires within { All (IsEntry sessions) entries.now }
    requires verdict { IsVerdict entries.now verdict }
    ensures finding { IfOk result (λ finding. IsFinding entries.now finding) }
    ensures verdict { IfOk result (λ finding. verdict_of finding ≡ verdict) }
{
    match verdict {
        Verdict::Legal(count) => Ok(Finding::Legal(count)),
        Verdict::Illegal(_) => finding_on(alloc, entries, sessions),
    }
}

/// Checks a history as [`check`] does, and returns what is found: the first reply that differs, beside the lock table's.
pub fn check_whole<R: Read + Drop>(
    alloc: Global,
    input: R,
    sessions: u16,
) -> Result<Finding, ToolFault>
    requires some { 0 < sessions }
    requires few { sessions ≤ MAX_SESSIONS }
    // holds for every reader
    ensures faults { IfErr result (λ fault. IsFaultOfCheck fault) }

    // holds for a reader whose bytes are known
    ensures finds { (bytes : List ℕ) → R.remaining input ≡ Some bytes → Finds sessions bytes result }
{
    let entries = match read_history(alloc, input, sessions) {
        Ok(entries) => entries,
        Err(fault) => return Err(ToolFault::Trace(fault)),
    };
    match finding_on(alloc, &entries, sessions) {
        Ok(finding) => Ok(finding),
        Err(_) => Err(ToolFault::NoMemory),
    }
}

/// Reads the whole text of a history of sessions 1 to `sessions`, at most `MAX_SESSIONS`, and serves its calls in order
/// on one lock table. The history is legal if every reply equals the lock table's, with its value. The check stops at
/// the first reply that differs.
///
/// All rows are read before any reply is compared. The fault `Trace` names the first faulty row and the first test that
/// the row fails. The fault `NoMemory` means that the lock table found no memory. No other fault is returned.
pub fn check<R: Read + Drop>(alloc: Global, input: R, sessions: u16) -> Result<Verdict, ToolFault>
    requires some { 0 < sessions }
    requires few { sessions ≤ MAX_SESSIONS }
    // holds for every reader
    ensures faults { IfErr result (λ fault. IsFaultOfCheck fault) }

    // holds for a reader whose bytes are known
    ensures checks { (bytes : List ℕ) → R.remaining input ≡ Some bytes → Checks sessions bytes result }
{
    let finding = check_whole(alloc, input, sessions)?;
    Ok(finding.verdict())
}

/// Returns the line that the program prints for a verdict. Fails if memory is refused.
pub fn verdict_line(alloc: Global, verdict: Verdict) -> Result<String, AllocError>
    ensures { IfOk result (λ line. string_bytes line ≡ text_of_verdict verdict) }
{
    match verdict {
        Verdict::Legal(entries) => format!(in alloc; "legal {entries}\n"),
        Verdict::Illegal(place) => format!(in alloc; "illegal {place}\n"),
    }
}
