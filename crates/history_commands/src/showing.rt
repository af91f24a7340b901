//! The command `show`: the state of the lock table at a place of a history, as text.

ghost use Rattle.std.specs.Prelude.{◌≡◌, ◌≢◌, ℕ, ◌<◌, ◌≤◌, List, [], Some, length, All, Ok, IfOk, IfErr, string_bytes};
ghost use Rattle.std.specs.Io.KnownBytes.{Keeps};
ghost use Rattle.lock_rules.specs.declared.calls.TheConstants.{MAX_SESSIONS};
ghost use Rattle.lock_trace.specs.Entries.{IsEntry};
ghost use Rattle.history_commands.specs.Showing.{HasShown, HasShownPart, Shows, place_shown, lines_in, text_in, text_shown};
ghost use Rattle.replay_commands.specs.Verdicts.{Finds, IsVerdict, text_of_verdict, verdict_in, verdict_of};

use crate::forms::form_text;
use crate::listing::lists_of;
use crate::show_fault::ShowFault;
use command_line::Form;
use lock_desk::{Book, Entry, NoMemory};
use lock_report::Moment;
use lock_trace::read_history;
use replay_commands::{
    Finding, Verdict, finding_behind, first_wrong, fresh_book, verdict_line, write_text,
};
use std::alloc::Global;
use std::io::{Read, Write};

/// The text that `show` or `timeline` writes of a history, and the verdict on the history.
#[derive(Drop)]
pub(crate) struct Shown {
    /// Whether the history is legal.
    pub(crate) verdict: Verdict,
    /// The state or the picture, or the line of the verdict.
    pub(crate) text: String,
}

/// The text of the book's state in this form, in front of the place, to which the entries have led. Fails if memory is refused.
fn book_text(
    alloc: Global,
    book: &Book,
    front: &[Entry],
    place: u64,
    form: Form,
) -> Result<String, NoMemory>
    requires served { book.now.history ≡ front.now }
    ensures { IfOk result (λ text. string_bytes text ≡ text_in form book.now.sessions place front.now) }
{
    // Called for its contract: only the book's sessions have transactions or wait.
    let _ = book.history();
    let lists = lists_of(alloc, book)?;
    let moment = Moment {
        sessions: book.sessions(),
        place: Some(place),
        waiting: book.gauges().waiting,
    };
    form_text(alloc, moment, front, &lists, form)
}

/// The text for people of the book's state, in front of the place, to which the entries have led. Fails if memory is refused.
pub fn lines_text(
    alloc: Global,
    book: &Book,
    front: &[Entry],
    place: u64,
) -> Result<String, NoMemory>
    requires served { book.now.history ≡ front.now }
    ensures { IfOk result (λ text. string_bytes text ≡ lines_in book.now.sessions place front.now) }
{
    book_text(alloc, book, front, place, Form::Lines)
}

/// The text of a history that isn't legal: the line of its verdict. Fails if memory is refused.
pub(crate) fn illegal_text(alloc: Global, first: u64) -> Result<Shown, NoMemory>
    ensures verdict { IfOk result (λ shown. shown.verdict ≡ Verdict.Illegal first) }
    ensures text { IfOk result (λ shown. string_bytes shown.text ≡ text_of_verdict (Verdict.Illegal first)) }
{
    let verdict = Verdict::Illegal(first);
    let text = verdict_line(alloc, verdict)?;
    Ok(Shown { verdict, text })
}

/// Serves the entries on the book, which has served none, makes the text of the state in front of `place` on the way, and goes on to
/// the first reply that isn't the book's. Fails if memory is refused.
#[tactic(auto, using(crate::proofs::WithinFront::within_front))]
fn shown_on(
    alloc: Global,
    book: &mut Book,
    entries: &[Entry],
    place: usize,
    form: Form,
) -> Result<Shown, NoMemory>
    requires within { All (IsEntry book.old.sessions) entries.now }
    requires empty { book.old.history ≡ [] }
    requires place { place ≤ length entries.now }
    ensures { IfOk result (λ shown. IsVerdict entries.now shown.verdict × (string_bytes shown.text ≡ text_shown form book.old.sessions place entries.now shown.verdict)) }
{
    if let Some(first) = first_wrong(book, entries, 0, place)? {
        return illegal_text(alloc, first);
    }
    let text = book_text(alloc, book, &entries[..place], place as u64, form)?;
    if let Some(first) = first_wrong(book, entries, place, entries.len())? {
        return illegal_text(alloc, first);
    }
    Ok(Shown {
        verdict: Verdict::Legal(entries.len() as u64),
        text,
    })
}

/// Shows the entries as `shown_on` does, on a fresh lock table. Fails if memory is refused.
fn shown_text(
    alloc: Global,
    entries: &[Entry],
    sessions: u16,
    place: usize,
    form: Form,
) -> Result<Shown, NoMemory>
    requires some { 0 < sessions }
    requires few { sessions ≤ MAX_SESSIONS }
    requires within { All (IsEntry sessions) entries.now }
    requires place { place ≤ length entries.now }
    ensures { IfOk result (λ shown. IsVerdict entries.now shown.verdict × (string_bytes shown.text ≡ text_shown form sessions place entries.now shown.verdict)) }
{
    let mut book = fresh_book(alloc, sessions)?;
    shown_on(alloc, &mut book, entries, place, form)
}

/// The place that is shown: the one that is asked for, or the end of the history.
fn place_asked(place: Option<u32>, entries: &[Entry]) -> usize
    ensures { result ≡ place_shown place entries.now }
{
    match place {
        Some(place) => place as usize,
        None => entries.len(),
    }
}

/// Shows a state of a history as [`show`] does, and returns what is found in the history: its first wrong reply beside the lock table's, if
/// there is one. An illegal history is served twice.
#[tactic(auto, using(crate::proofs::PartsWritten::show_part, crate::proofs::PartsWritten::show_part_known))]
pub fn show_found<R: Read + Drop, W: Write>(
    alloc: Global,
    input: R,
    output: &mut W,
    sessions: u16,
    place: Option<u32>,
    form: Form,
) -> Result<Finding, ShowFault>
    requires some { 0 < sessions }
    requires few { sessions ≤ MAX_SESSIONS }
    // hold for every reader
    ensures kept { IfErr result (λ fault. fault ≢ ShowFault.Device → Keeps (W.contents output.old) (W.contents output.new)) }
    ensures part { IfErr result (λ fault. fault ≡ ShowFault.Device → HasShownPart form sessions place (W.contents output.old) (W.contents output.new)) }
    ensures shown { IfOk result (λ finding. HasShown form sessions place (verdict_of finding) (W.contents output.old) (W.contents output.new)) }

    // hold for a reader whose bytes are known
    ensures finds { (bytes : List ℕ) → R.remaining input ≡ Some bytes → IfOk result (λ finding. Finds sessions bytes (Ok finding)) }
    ensures shows { (bytes : List ℕ) → R.remaining input ≡ Some bytes → Shows form sessions place bytes (W.contents output.old) (W.contents output.new) (verdict_in result) }
{
    let entries = match read_history(alloc, input, sessions) {
        Ok(entries) => entries,
        Err(fault) => return Err(ShowFault::Trace(fault)),
    };
    let shown_at = place_asked(place, &entries);
    if shown_at > entries.len() {
        return Err(ShowFault::NoPlace {
            place: shown_at as u64,
            entries: entries.len() as u64,
        });
    }
    let Ok(shown) = shown_text(alloc, &entries, sessions, shown_at, form) else {
        return Err(ShowFault::NoMemory);
    };
    let Ok(finding) = finding_behind(alloc, &entries, sessions, shown.verdict) else {
        return Err(ShowFault::NoMemory);
    };
    if write_text(output, shown.text.as_bytes()).is_err() {
        return Err(ShowFault::Device);
    }
    Ok(finding)
}

/// Reads the whole text of a history of sessions 1 to `sessions`, at most `MAX_SESSIONS`, checks it as [`check`] does, and writes
/// the state of the lock table in front of the entry at index `place`, `None` for the end of the history. If the history isn't legal, the
/// line of its verdict is written instead. Returns the verdict.
///
/// The whole text is made before its first byte is written. After every fault except `Device` nothing was written; after
/// `Device` the beginning of the text may have been written, and nothing else. The fault `Trace` names the first faulty row and
/// the first test that the row fails; `NoPlace` means that the history has fewer than `place` entries.
pub fn show<R: Read + Drop, W: Write>(
    alloc: Global,
    input: R,
    output: &mut W,
    sessions: u16,
    place: Option<u32>,
    form: Form,
) -> Result<Verdict, ShowFault>
    requires some { 0 < sessions }
    requires few { sessions ≤ MAX_SESSIONS }
    // hold for every reader
    ensures kept { IfErr result (λ fault. fault ≢ ShowFault.Device → Keeps (W.contents output.old) (W.contents output.new)) }
    ensures part { IfErr result (λ fault. fault ≡ ShowFault.Device → HasShownPart form sessions place (W.contents output.old) (W.contents output.new)) }
    ensures shown { IfOk result (λ verdict. HasShown form sessions place verdict (W.contents output.old) (W.contents output.new)) }

    // holds for a reader whose bytes are known
    ensures shows { (bytes : List ℕ) → R.remaining input ≡ Some bytes → Shows form sessions place bytes (W.contents output.old) (W.contents output.new) result }
{
    let finding = show_found(alloc, input, output, sessions, place, form)?;
    Ok(finding.verdict())
}
