//! The command `stats`: the counters of a history.

ghost use Rattle.std.specs.Prelude.{◌≡◌, ◌≢◌, ℕ, ◌<◌, ◌≤◌, List, [], Some, All, IfOk, IfErr, string_bytes};
ghost use Rattle.std.specs.Io.KnownBytes.{Keeps};
ghost use Rattle.lock_rules.specs.declared.calls.TheConstants.{MAX_SESSIONS};
ghost use Rattle.lock_trace.specs.Entries.{IsEntry};
ghost use Rattle.replay_commands.specs.Verdicts.{IsVerdict};
ghost use Rattle.replay_commands.specs.Replays.{IsFaultOfOneThread};
ghost use Rattle.replay_commands.specs.Stats.{Counts, HasCounted, HasCountedPart, text_counted};

use crate::checking::{Verdict, finding_by, fresh_book, verdict_line};
use crate::counters_text::stats_text;
use crate::finding::Finding;
use crate::tool_fault::ToolFault;
use crate::writing::write_text;
use command_line::Form;
use lock_desk::{Book, Entry, NoMemory};
use lock_trace::read_history;
use std::alloc::Global;
use std::io::{Read, Write};

/// What is written of a history, and the verdict on it.
#[derive(Drop)]
struct Tally {
    /// Whether the history is legal.
    verdict: Verdict,
    /// The counters, or the line of the verdict.
    text: String,
}

/// Serves the calls of a history on a book that has served none. Returns the counters if the history is legal, else the line of its
/// verdict. Fails if memory is refused.
fn told_by(alloc: Global, book: &mut Book, entries: &[Entry], form: Form) -> Result<Tally, NoMemory>
    requires within { All (IsEntry book.old.sessions) entries.now }
    requires empty { book.old.history ≡ [] }
    ensures { IfOk result (λ told. IsVerdict entries.now told.verdict × (string_bytes told.text ≡ text_counted form book.old.sessions entries.now told.verdict)) }
{
    match finding_by(book, entries)? {
        Finding::Wrong(wrong) => {
            let verdict = Verdict::Illegal(wrong.place);
            let text = verdict_line(alloc, verdict)?;
            Ok(Tally { verdict, text })
        }
        Finding::Legal(count) => {
            let text = stats_text(alloc, book, form)?;
            Ok(Tally {
                verdict: Verdict::Legal(count),
                text,
            })
        }
    }
}

/// What is written of a history, by a fresh lock table that serves it. Fails if memory is refused.
fn told_text(alloc: Global, entries: &[Entry], sessions: u16, form: Form) -> Result<Tally, NoMemory>
    requires some { 0 < sessions }
    requires few { sessions ≤ MAX_SESSIONS }
    requires within { All (IsEntry sessions) entries.now }
    ensures { IfOk result (λ told. IsVerdict entries.now told.verdict × (string_bytes told.text ≡ text_counted form sessions entries.now told.verdict)) }
{
    let mut book = fresh_book(alloc, sessions)?;
    told_by(alloc, &mut book, entries, form)
}

/// Reads the whole text of a history of sessions 1 to `sessions`, at most `MAX_SESSIONS`, checks it as
/// [`check`](replay_commands::check) does, and writes its counters: the calls by operation, how requests for locks were answered, how
/// waits ended, deadlocks, refusals by reason, and what the lock table has at the end. `form` is `Lines` for columns and `Rows` for rows
/// of three fields; the other forms are written as `Lines`. If the history isn't legal, the line of its verdict is written instead.
/// Returns the verdict.
///
/// The whole text is made before its first byte is written. After every fault except `Device` nothing was written; after `Device`
/// the beginning of the text may have been written, and nothing else. The fault `Trace` names the first faulty row and the first test
/// that the row fails. It costs a check of the history, since the lock table counts the calls that it serves, and [`stats_text`].
#[tactic(auto, using(crate::proofs::StatsParts::counted_part, crate::proofs::StatsParts::counted_part_known))]
pub fn stats<R: Read + Drop, W: Write>(
    alloc: Global,
    input: R,
    output: &mut W,
    sessions: u16,
    form: Form,
) -> Result<Verdict, ToolFault>
    requires some { 0 < sessions }
    requires few { sessions ≤ MAX_SESSIONS }
    // hold for every reader
    ensures kept { IfErr result (λ fault. fault ≢ ToolFault.Device → Keeps (W.contents output.old) (W.contents output.new)) }
    ensures part { IfErr result (λ fault. fault ≡ ToolFault.Device → HasCountedPart form sessions (W.contents output.old) (W.contents output.new)) }
    ensures counted { IfOk result (λ verdict. HasCounted form sessions verdict (W.contents output.old) (W.contents output.new)) }
    ensures faults { IfErr result (λ fault. IsFaultOfOneThread fault) }

    // holds for a reader whose bytes are known
    ensures counts { (bytes : List ℕ) → R.remaining input ≡ Some bytes → Counts form sessions bytes (W.contents output.old) (W.contents output.new) result }
{
    let entries = match read_history(alloc, input, sessions) {
        Ok(entries) => entries,
        Err(fault) => return Err(ToolFault::Trace(fault)),
    };
    let Ok(told) = told_text(alloc, &entries, sessions, form) else {
        return Err(ToolFault::NoMemory);
    };
    if write_text(output, told.text.as_bytes()).is_err() {
        return Err(ToolFault::Device);
    }
    Ok(told.verdict)
}
