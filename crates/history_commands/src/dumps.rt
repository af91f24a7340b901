//! The command `show --state`: a dump of a lock table in a form of `show`.

ghost use Rattle.std.specs.Prelude.{◌≡◌, ◌≢◌, ◌⊎◌, ℕ, ◌+◌, ◌<◌, ◌≤◌, List, Some, Err, IfSome, IfNone, IfOk, IfErr, take, string_bytes};
ghost use Rattle.std.specs.Io.KnownBytes.{Keeps};
ghost use Rattle.lock_rules.specs.declared.calls.TheConstants.{MAX_SESSIONS};
ghost use Rattle.lock_report.specs.ReadStates.{AreLists};
ghost use Rattle.history_commands.specs.declared.dump_fault.DumpFault.TheVariants as fault;
ghost use Rattle.lock_report.specs.Blocking.{rows_of_waits, waits_among};
ghost use Rattle.history_commands.specs.Dumps.{HasDump, HasDumpPart, IsDump, IsMistold, ReadsDump, ShowsDump, text_of_dump};

use crate::dump_fault::DumpFault;
use crate::forms::form_text;
use command_line::Form;
use lock_report::{
    FirstWait, Lists, Moment, StateFault, StateLists, first_waits, read_state, requests_among,
    told_waits, waits_among,
};
use replay_commands::write_text;
use std::alloc::Global;
use std::io::{ErrorKind, Read, Write};

/// All that the reader gives. Fails with `NoMemory` or `Unread`.
fn whole_text<R: Read + Drop>(alloc: Global, input: R) -> Result<Vec<u8>, DumpFault>
    ensures bytes { (bytes : List ℕ) → R.remaining input ≡ Some bytes → IfOk result (λ text. text.items ≡ bytes) }
    ensures faults { IfErr result (λ why. (why ≡ fault.NoMemory) ⊎ (why ≡ fault.Unread)) }
{
    let mut input = input;
    let mut text = Vec::new(alloc);
    match input.read_to_end(&mut text) {
        Ok(_) => Ok(text),
        Err(error) if error.kind() == ErrorKind::OutOfMemory => Err(DumpFault::NoMemory),
        Err(_) => Err(DumpFault::Unread),
    }
}

/// The rows of a dump that a text is. Fails with `Row` or `NoMemory`.
fn dump_in(alloc: Global, text: &[u8], sessions: u16) -> Result<StateLists, DumpFault>
    ensures { ReadsDump sessions text.now result }
{
    match read_state(alloc, text, sessions) {
        Ok(lists) => Ok(lists),
        Err(StateFault::Line(line)) => Err(DumpFault::Row(line)),
        Err(StateFault::NoMemory) => Err(DumpFault::NoMemory),
    }
}

/// Reads a dump of the sessions 1 to `sessions`. Fails with `Row`, `NoMemory` or `Unread`.
fn read_dump<R: Read + Drop>(
    alloc: Global,
    input: R,
    sessions: u16,
) -> Result<StateLists, DumpFault>
    ensures rows { IfOk result (λ lists. AreLists sessions lists) }
    ensures not_device { IfErr result (λ why. why ≢ fault.Device) }
    ensures reads { (bytes : List ℕ) → R.remaining input ≡ Some bytes → ReadsDump sessions bytes result }
{
    let text = whole_text(alloc, input)?;
    dump_in(alloc, &text, sessions)
}

/// How many rows are as wanted in front of the first that isn't, or that is missing or too much; `None` if all are.
fn first_difference(rows: &[FirstWait], wanted: &[FirstWait]) -> Option<usize>
    ensures none { IfNone result (rows.now ≡ wanted.now) }
    ensures some { IfSome result (λ k. (take k rows.now ≡ take k wanted.now) × (take (k + 1) rows.now ≢ take (k + 1) wanted.now)) }
{
    for index in 0..wanted.len() {
        if index >= rows.len() || rows[index] != wanted[index] {
            return Some(index);
        }
    }
    if rows.len() > wanted.len() {
        return Some(wanted.len());
    }
    None
}

/// The lists of a dump's rows, with who waits for whom. Fails with `NoMemory`, and with `Row` if the rows of waits don't follow from the
/// others.
fn lists_of(alloc: Global, rows: StateLists, sessions: u16) -> Result<Lists, DumpFault>
    ensures lists { IfOk result (λ lists. (lists.opens.items ≡ rows.opens.items) × (lists.claims.items ≡ rows.claims.items) × (lists.waits.items ≡ waits_among sessions rows.opens.items rows.claims.items)) }
    ensures told { IfOk result (λ _. rows.waits.items ≡ rows_of_waits sessions rows.opens.items rows.claims.items) }
    ensures row { (k : ℕ) → result ≡ Err (fault.Row k) → IsMistold sessions rows k }
    ensures faults { IfErr result (λ why. (why ≢ fault.Device) × (why ≢ fault.Unread)) }
{
    let Ok(waits) = waits_among(alloc, sessions, &rows.opens, &rows.claims) else {
        return Err(DumpFault::NoMemory);
    };
    let Ok(told) = told_waits(alloc, &rows.opens, &rows.claims, &waits) else {
        return Err(DumpFault::NoMemory);
    };
    let Ok(wanted) = first_waits(alloc, &told) else {
        return Err(DumpFault::NoMemory);
    };
    if let Some(before) = first_difference(&rows.waits, &wanted) {
        let ahead = rows.opens.len() as u64 + rows.claims.len() as u64;
        return Err(DumpFault::Row(ahead + before as u64 + 1));
    }
    Ok(Lists {
        opens: rows.opens,
        claims: rows.claims,
        waits,
    })
}

/// The text of a dump of the sessions 1 to `sessions`, at most `MAX_SESSIONS`, in this form. Fails as `lists_of` does.
fn dump_text(
    alloc: Global,
    rows: StateLists,
    sessions: u16,
    form: Form,
) -> Result<String, DumpFault>
    requires some { 0 < sessions }
    requires few { sessions ≤ MAX_SESSIONS }
    requires rows { AreLists sessions rows }
    ensures text { IfOk result (λ text. IsDump sessions rows × (string_bytes text ≡ text_of_dump form sessions rows)) }
    ensures row { (k : ℕ) → result ≡ Err (fault.Row k) → IsMistold sessions rows k }
    ensures faults { IfErr result (λ why. (why ≢ fault.Device) × (why ≢ fault.Unread)) }
{
    let lists = lists_of(alloc, rows, sessions)?;
    let Ok(requests) = requests_among(alloc, &lists.claims) else {
        return Err(DumpFault::NoMemory);
    };
    let moment = Moment {
        sessions,
        place: None,
        waiting: requests.len() as u64,
    };
    match form_text(alloc, moment, &[], &lists, form) {
        Ok(text) => Ok(text),
        Err(_) => Err(DumpFault::NoMemory),
    }
}

/// Reads a dump of the sessions 1 to `sessions`, at most `MAX_SESSIONS`: the rows that `glm show --csv` writes of a state and
/// `pelgaisti_dump_line` of a lock table in use, and no other text. Writes it in this form: what `glm show` writes of a state of a history,
/// but for the places, which a dump hasn't got.
///
/// The whole text is made before its first byte is written. After every fault except `Device` nothing was written; after `Device` the
/// beginning of the text may have been written, and nothing else. The fault `Row` names the first row with which the rows don't begin those
/// of any state that [`read_state`] reads; or else the first row of waits that doesn't follow from the locks and requests, or is missing.
pub fn show_dump<R: Read + Drop, W: Write>(
    alloc: Global,
    input: R,
    output: &mut W,
    sessions: u16,
    form: Form,
) -> Result<(), DumpFault>
    requires some { 0 < sessions }
    requires few { sessions ≤ MAX_SESSIONS }
    // hold for every reader
    ensures kept { IfErr result (λ why. why ≢ fault.Device → Keeps (W.contents output.old) (W.contents output.new)) }
    ensures part { IfErr result (λ why. why ≡ fault.Device → HasDumpPart form sessions (W.contents output.old) (W.contents output.new)) }
    ensures shown { IfOk result (λ _. HasDump form sessions (W.contents output.old) (W.contents output.new)) }

    // holds for a reader whose bytes are known
    ensures shows { (bytes : List ℕ) → R.remaining input ≡ Some bytes → ShowsDump form sessions bytes (W.contents output.old) (W.contents output.new) result }
{
    let rows = read_dump(alloc, input, sessions)?;
    let shown = dump_text(alloc, rows, sessions, form)?;
    if write_text(output, shown.as_bytes()).is_err() {
        return Err(DumpFault::Device);
    }
    Ok(())
}
