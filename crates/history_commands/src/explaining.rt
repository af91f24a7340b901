//! The command `explain`: what the calls of a history did and why, as text.

ghost use Rattle.std.specs.Prelude.{◌≡◌, ◌≢◌, ℕ, ◌+◌, ◌<◌, ◌≤◌, ◌++◌, true, false, List, [], ◌∷◌, None, Some, length, take, All, Ok, IfOk, IfErr, IfSome, IfNone};
ghost use Rattle.std.specs.Io.KnownBytes.{Keeps};
ghost use Rattle.lock_rules.specs.declared.calls.TheConstants.{MAX_SESSIONS};
ghost use Rattle.lock_rules.specs.Legal.{IsLegal, state_of};
ghost use Rattle.lock_rules.specs.Step.{step};
ghost use Rattle.lock_trace.specs.Entries.{IsEntry};
ghost use Rattle.lock_explain.specs.Explanations.{IsExplanation};
ghost use Rattle.history_commands.specs.Explaining.{AreAccounts, Explains, HasExplained, HasExplainedPart, HasPlace, IsTextExplained};
ghost use Rattle.replay_commands.specs.Verdicts.{Finds, IsFirstWrong, IsVerdict, text_of_verdict, verdict_in, verdict_of};

use crate::accounts::{ServedCall, account, add_account_if_eventful};
use crate::show_fault::ShowFault;
use command_line::Form;
use lock_desk::{Book, Entry, NoMemory};
use lock_explain::{Explanation, serve_eventful, serve_explained};
use lock_trace::read_history;
use replay_commands::{
    Finding, Verdict, finding_behind, first_wrong, fresh_book, is_same, verdict_line, write_text,
};
use std::alloc::Global;
use std::io::{Read, Write};

/// The text that `explain` writes of a history, and the verdict on the history.
#[derive(Drop)]
struct Report {
    /// Whether the history is legal.
    verdict: Verdict,
    /// The accounts of its calls, or the line of the verdict.
    text: Vec<u8>,
}

/// A history whose calls are explained.
#[derive(Clone, Copy)]
struct ExplainedHistory<'a> {
    /// The entries of the history.
    entries: &'a [Entry],
    /// The form of the accounts.
    form: Form,
}

/// Serves the call of the entry on `after`, which has served what `before` has, and explains it. Returns `None` if the recorded reply isn't
/// the book's. Fails if memory is refused.
pub(crate) fn explain_next(
    alloc: Global,
    before: &Book,
    after: &mut Book,
    entry: &Entry,
) -> Result<Option<Explanation>, NoMemory>
    requires some { 1 ≤ entry.now.session }
    requires within { entry.now.session ≤ before.now.sessions }
    requires sessions { after.old.sessions ≡ before.now.sessions }
    requires same { after.old.history ≡ before.now.history }
    ensures sessions { IfOk result (λ told. after.new.sessions ≡ before.now.sessions) }
    ensures wrong { IfOk result (λ told. IfNone told ((step (state_of before.now.history) entry.now.session entry.now.call).reply ≢ entry.now.reply)) }
    ensures reply { IfOk result (λ told. IfSome told (λ _. (step (state_of before.now.history) entry.now.session entry.now.call).reply ≡ entry.now.reply)) }
    ensures served { IfOk result (λ told. IfSome told (λ _. after.new.history ≡ before.now.history ++ entry.now ∷ [])) }
    ensures explained { IfOk result (λ told. IfSome told (IsExplanation before.now.sessions (state_of before.now.history) entry.now.session entry.now.call)) }
{
    let told = serve_explained(alloc, before, after, entry.session, &entry.call)?;
    if !is_same(told.reply, entry.reply) {
        return Ok(None);
    }
    Ok(Some(told.explanation))
}

/// The line of the verdict on a history whose first wrong entry is at the place `first`. Fails if memory is refused.
fn illegal_report(alloc: Global, first: u64) -> Result<Report, NoMemory>
    ensures verdict { IfOk result (λ report. report.verdict ≡ Verdict.Illegal first) }
    ensures text { IfOk result (λ report. report.text.items ≡ text_of_verdict (Verdict.Illegal first)) }
{
    let verdict = Verdict::Illegal(first);
    let line = verdict_line(alloc, verdict)?;
    Ok(Report {
        verdict,
        text: line.into_bytes(),
    })
}

/// Serves the entries on the books, which have served none, makes the account of the entry at `place` on the way, and goes on to
/// the first reply that isn't the books'. Fails if memory is refused.
fn report_on_call(
    alloc: Global,
    before: &mut Book,
    after: &mut Book,
    entries: &[Entry],
    place: usize,
    form: Form,
) -> Result<Report, NoMemory>
    requires within { All (IsEntry before.old.sessions) entries.now }
    requires sessions { after.old.sessions ≡ before.old.sessions }
    requires behind { before.old.history ≡ [] }
    requires ahead { after.old.history ≡ [] }
    requires place { place < length entries.now }
    ensures verdict { IfOk result (λ report. IsVerdict entries.now report.verdict) }
    ensures text { IfOk result (λ report. IsTextExplained form before.old.sessions (Some place) entries.now report.verdict report.text.items) }
{
    if let Some(first) = first_wrong(before, entries, 0, place)? {
        return illegal_report(alloc, first);
    }
    if let Some(first) = first_wrong(after, entries, 0, place)? {
        return illegal_report(alloc, first);
    }
    let entry = &entries[place];
    let Some(told) = explain_next(alloc, before, after, entry)? else {
        return illegal_report(alloc, place as u64);
    };
    let call = ServedCall {
        before,
        front: &entries[..place],
        entry,
        place: place as u64,
    };
    let text = account(alloc, &call, &told, form)?;
    if let Some(first) = first_wrong(after, entries, place + 1, entries.len())? {
        return illegal_report(alloc, first);
    }
    Ok(Report {
        verdict: Verdict::Legal(entries.len() as u64),
        text,
    })
}

/// Serves the entry at `place` on both books, which have served those before it, and adds its account to the text if the call is
/// eventful. Returns whether the recorded reply is the books'; if it isn't, the history is illegal there, and the books serve no
/// more. Fails if memory is refused.
fn add_next_account(
    alloc: Global,
    before: &mut Book,
    after: &mut Book,
    history: ExplainedHistory<'_>,
    place: usize,
    text: &mut Vec<u8>,
) -> Result<bool, NoMemory>
    requires within { All (IsEntry before.old.sessions) history.entries.now }
    requires there { place < length history.entries.now }
    requires sessions { after.old.sessions ≡ before.old.sessions }
    requires behind { before.old.history ≡ take place history.entries.now }
    requires ahead { after.old.history ≡ take place history.entries.now }
    requires legal { IsLegal (take place history.entries.now) }
    requires accounts { AreAccounts history.form before.old.sessions [] (take place history.entries.now) text.old.items }
    ensures wrong { IfOk result (λ alike. alike ≡ false → IsFirstWrong history.entry.entries.now place) }
    ensures sessions { IfOk result (λ alike. alike ≡ true → before.new.sessions ≡ before.old.sessions) }
    ensures others { IfOk result (λ alike. alike ≡ true → after.new.sessions ≡ before.old.sessions) }
    ensures behind { IfOk result (λ alike. alike ≡ true → before.new.history ≡ take (place + 1) history.entry.entries.now) }
    ensures ahead { IfOk result (λ alike. alike ≡ true → after.new.history ≡ take (place + 1) history.entry.entries.now) }
    ensures legal { IfOk result (λ alike. alike ≡ true → IsLegal (take (place + 1) history.entry.entries.now)) }
    ensures accounts { IfOk result (λ alike. alike ≡ true → AreAccounts history.entry.form before.old.sessions [] (take (place + 1) history.entry.entries.now) text.new.items) }
{
    let entries = history.entries;
    let entry = &entries[place];
    let told = serve_eventful(alloc, before, after, entry.session, &entry.call)?;
    if !is_same(told.reply, entry.reply) {
        return Ok(false);
    }
    let call = ServedCall {
        before,
        front: &entries[..place],
        entry,
        place: place as u64,
    };
    add_account_if_eventful(alloc, &call, &told.explanation, history.form, text)?;
    before.serve(entry.session, entry.call)?;
    Ok(true)
}

/// Replays the entries on two fresh books, `before` one entry behind `after`, and appends the accounts of the eventful calls to
/// `text`. Returns the place of the first wrong reply, where it stops. Fails if memory is refused.
fn add_all_accounts(
    alloc: Global,
    before: &mut Book,
    after: &mut Book,
    history: ExplainedHistory<'_>,
    text: &mut Vec<u8>,
) -> Result<Option<u64>, NoMemory>
    requires within { All (IsEntry before.old.sessions) history.entries.now }
    requires sessions { after.old.sessions ≡ before.old.sessions }
    requires behind { before.old.history ≡ [] }
    requires ahead { after.old.history ≡ [] }
    requires empty { text.old.items ≡ [] }
    ensures wrong { IfOk result (λ found. IfSome found (IsFirstWrong history.entry.entries.now)) }
    ensures legal { IfOk result (λ found. IfNone found (IsLegal history.entry.entries.now)) }
    ensures accounts { IfOk result (λ found. IfNone found (AreAccounts history.entry.form before.old.sessions [] history.entry.entries.now text.new.items)) }
{
    for place in 0..history.entries.len() {
        let alike = add_next_account(alloc, before, after, history, place, text)?;
        if !alike {
            return Ok(Some(place as u64));
        }
    }
    Ok(None)
}

/// The report of all eventful calls, made on the books, which have served none. Fails if memory is refused.
fn report_on_all(
    alloc: Global,
    before: &mut Book,
    after: &mut Book,
    entries: &[Entry],
    form: Form,
) -> Result<Report, NoMemory>
    requires within { All (IsEntry before.old.sessions) entries.now }
    requires sessions { after.old.sessions ≡ before.old.sessions }
    requires behind { before.old.history ≡ [] }
    requires ahead { after.old.history ≡ [] }
    ensures verdict { IfOk result (λ report. IsVerdict entries.now report.verdict) }
    ensures text { IfOk result (λ report. IsTextExplained form before.old.sessions None entries.now report.verdict report.text.items) }
{
    let mut text = Vec::new(alloc);
    let history = ExplainedHistory { entries, form };
    let wrong = add_all_accounts(alloc, before, after, history, &mut text)?;
    if let Some(first) = wrong {
        return illegal_report(alloc, first);
    }
    Ok(Report {
        verdict: Verdict::Legal(entries.len() as u64),
        text,
    })
}

/// The report of a history that has the place, made on the book, which has served none, and on a second lock table that goes
/// ahead of it. Fails if memory is refused.
fn report_on_book(
    alloc: Global,
    before: &mut Book,
    entries: &[Entry],
    place: Option<u32>,
    form: Form,
) -> Result<Report, NoMemory>
    requires within { All (IsEntry before.old.sessions) entries.now }
    requires behind { before.old.history ≡ [] }
    requires place { HasPlace place entries.now }
    ensures verdict { IfOk result (λ report. IsVerdict entries.now report.verdict) }
    ensures text { IfOk result (λ report. IsTextExplained form before.old.sessions place entries.now report.verdict report.text.items) }
{
    let sessions = before.sessions();
    let mut after = fresh_book(alloc, sessions)?;
    let Some(place) = place else {
        return report_on_all(alloc, before, &mut after, entries, form);
    };
    report_on_call(alloc, before, &mut after, entries, place as usize, form)
}

/// The report of a history that has the place. Fails if memory is refused.
fn report_of(
    alloc: Global,
    entries: &[Entry],
    sessions: u16,
    place: Option<u32>,
    form: Form,
) -> Result<Report, NoMemory>
    requires some { 0 < sessions }
    requires few { sessions ≤ MAX_SESSIONS }
    requires within { All (IsEntry sessions) entries.now }
    requires place { HasPlace place entries.now }
    ensures verdict { IfOk result (λ report. IsVerdict entries.now report.verdict) }
    ensures text { IfOk result (λ report. IsTextExplained form sessions place entries.now report.verdict report.text.items) }
{
    let mut before = fresh_book(alloc, sessions)?;
    report_on_book(alloc, &mut before, entries, place, form)
}

/// The place that is asked for, if the history has no entry there, and else `None`.
pub(crate) fn place_missed(place: Option<u32>, entries: &[Entry]) -> Option<u64>
    ensures asked { IfSome result (λ missed. place ≡ Some missed) }
    ensures behind { IfSome result (λ missed. length entries.now ≤ missed) }
    ensures there { IfNone result (HasPlace place entries.now) }
{
    match place {
        Some(place) if place as usize >= entries.len() => Some(place as u64),
        _ => None,
    }
}

/// Explains calls of a history as [`explain`] does, and returns what is found in the history: its first wrong reply beside the lock
/// table's, if there is one. An illegal history is served twice.
#[tactic(auto, using(crate::proofs::ExplainedParts::explain_part, crate::proofs::ExplainedParts::explain_part_known))]
pub fn explain_found<R: Read + Drop, W: Write>(
    alloc: Global,
    input: R,
    output: &mut W,
    sessions: u16,
    place: Option<u32>,
    form: Form,
) -> Result<Finding, ShowFault>
    requires some { 0 < sessions }
    requires few { sessions ≤ MAX_SESSIONS }
    // hold for every reader
    ensures kept { IfErr result (λ fault. fault ≢ ShowFault.Device → Keeps (W.contents output.old) (W.contents output.new)) }
    ensures part { IfErr result (λ fault. fault ≡ ShowFault.Device → HasExplainedPart form sessions place (W.contents output.old) (W.contents output.new)) }
    ensures explained { IfOk result (λ finding. HasExplained form sessions place (verdict_of finding) (W.contents output.old) (W.contents output.new)) }

    // hold for a reader whose bytes are known
    ensures finds { (bytes : List ℕ) → R.remaining input ≡ Some bytes → IfOk result (λ finding. Finds sessions bytes (Ok finding)) }
    ensures explains { (bytes : List ℕ) → R.remaining input ≡ Some bytes → Explains form sessions place bytes (W.contents output.old) (W.contents output.new) (verdict_in result) }
{
    let entries = match read_history(alloc, input, sessions) {
        Ok(entries) => entries,
        Err(fault) => return Err(ShowFault::Trace(fault)),
    };
    if let Some(missed) = place_missed(place, &entries) {
        return Err(ShowFault::NoPlace {
            place: missed,
            entries: entries.len() as u64,
        });
    }
    let Ok(report) = report_of(alloc, &entries, sessions, place, form) else {
        return Err(ShowFault::NoMemory);
    };
    let Ok(finding) = finding_behind(alloc, &entries, sessions, report.verdict) else {
        return Err(ShowFault::NoMemory);
    };
    if write_text(output, &report.text).is_err() {
        return Err(ShowFault::Device);
    }
    Ok(finding)
}

/// Reads the whole text of a history of sessions 1 to `sessions`, at most `MAX_SESSIONS`, checks it as [`check`] does, and writes
/// what the call at index `place` did and why; of a poll also why its session waits or is a victim. With `None` it writes this of each
/// eventful call. If the history isn't legal, the line of its verdict is written instead. Returns the verdict.
///
/// The whole text is made before its first byte is written. After every fault except `Device` nothing was written; after
/// `Device` the beginning of the text may have been written, and nothing else. The fault `Trace` names the first faulty row and
/// the first test that the row fails; `NoPlace` means that the history has no entry at `place`.
pub fn explain<R: Read + Drop, W: Write>(
    alloc: Global,
    input: R,
    output: &mut W,
    sessions: u16,
    place: Option<u32>,
    form: Form,
) -> Result<Verdict, ShowFault>
    requires some { 0 < sessions }
    requires few { sessions ≤ MAX_SESSIONS }
    // hold for every reader
    ensures kept { IfErr result (λ fault. fault ≢ ShowFault.Device → Keeps (W.contents output.old) (W.contents output.new)) }
    ensures part { IfErr result (λ fault. fault ≡ ShowFault.Device → HasExplainedPart form sessions place (W.contents output.old) (W.contents output.new)) }
    ensures explained { IfOk result (λ verdict. HasExplained form sessions place verdict (W.contents output.old) (W.contents output.new)) }

    // holds for a reader whose bytes are known
    ensures explains { (bytes : List ℕ) → R.remaining input ≡ Some bytes → Explains form sessions place bytes (W.contents output.old) (W.contents output.new) result }
{
    let finding = explain_found(alloc, input, output, sessions, place, form)?;
    Ok(finding.verdict())
}
