//! What a history is found to be, and the line that says so.

ghost use Rattle.std.specs.Prelude.{◌≡◌, ◌≢◌, ◌<◌, ◌≤◌, ℕ, List, Some, IfOk, IfErr};
ghost use Rattle.std.specs.Io.KnownBytes.{Keeps, Appends};
ghost use Rattle.lock_rules.specs.declared.calls.TheConstants.{MAX_SESSIONS};
ghost use Rattle.glm.specs.Outcomes.{HasPrintedPart, PrintsVerdict};
ghost use Rattle.replay_commands.specs.Verdicts.{Checks, Finds, IsFaultOfCheck, text_of_verdict};
ghost use Rattle.replay_commands.specs.Replays.{IsFaultOfOneThread};

use crate::wrong_replies::wrong_of;
use command_line::Delivery;
use replay_commands::{
    Finding, ToolFault, Verdict, WrongReply, check_by_row, check_whole, verdict_line, write_text,
};
use std::alloc::Global;
use std::io::{Read, Write};

/// Checks a history, whose rows are kept or not, and returns what is found.
fn finding_of<R: Read + Drop>(
    alloc: Global,
    input: R,
    sessions: u16,
    delivery: Delivery,
) -> Result<Finding, ToolFault>
    requires some { 0 < sessions }
    requires few { sessions ≤ MAX_SESSIONS }
    ensures faults { IfErr result (λ fault. IsFaultOfCheck fault) }
    ensures finds { (bytes : List ℕ) → R.remaining input ≡ Some bytes → Finds sessions bytes result }
{
    match delivery {
        Delivery::Whole => check_whole(alloc, input, sessions),
        Delivery::InPieces => check_by_row(alloc, input, sessions),
    }
}

/// Checks a history, and puts its first wrong reply, or that there is none, into `wrong`.
fn checked<R: Read + Drop>(
    alloc: Global,
    input: R,
    sessions: u16,
    delivery: Delivery,
    wrong: &mut Option<WrongReply>,
) -> Result<Verdict, ToolFault>
    requires some { 0 < sessions }
    requires few { sessions ≤ MAX_SESSIONS }
    ensures faults { IfErr result (λ fault. IsFaultOfCheck fault) }
    ensures checks { (bytes : List ℕ) → R.remaining input ≡ Some bytes → Checks sessions bytes result }
{
    let finding = finding_of(alloc, input, sessions, delivery)?;
    *wrong = wrong_of(&finding);
    Ok(finding.verdict())
}

/// Checks a history and writes the verdict to `output`. Puts the first wrong reply, if there is one, into `wrong`. The fault is that of
/// the check, or `NoMemory` if there is no memory for the line, or `Device` if the writer fails.
#[tactic(auto, using(crate::proofs::PartsWritten::check_part))]
pub(crate) fn write_verdict<R: Read + Drop, W: Write>(
    alloc: Global,
    input: R,
    output: &mut W,
    sessions: u16,
    delivery: Delivery,
    wrong: &mut Option<WrongReply>,
) -> Result<Verdict, ToolFault>
    requires some { 0 < sessions }
    requires few { sessions ≤ MAX_SESSIONS }
    ensures kept { IfErr result (λ fault. fault ≢ ToolFault.Device → Keeps (W.contents output.old) (W.contents output.new)) }
    ensures part { IfErr result (λ fault. fault ≡ ToolFault.Device → HasPrintedPart sessions (R.remaining input) (W.contents output.old) (W.contents output.new)) }
    ensures faults { IfErr result (λ fault. IsFaultOfOneThread fault) }
    ensures written { IfOk result (λ verdict. Appends (W.contents output.old) (W.contents output.new) (text_of_verdict verdict)) }
    ensures checks { (bytes : List ℕ) → R.remaining input ≡ Some bytes → PrintsVerdict sessions bytes result }
{
    let verdict = checked(alloc, input, sessions, delivery, wrong)?;
    let Ok(line) = verdict_line(alloc, verdict) else {
        return Err(ToolFault::NoMemory);
    };
    if write_text(output, line.as_bytes()).is_err() {
        return Err(ToolFault::Device);
    }
    Ok(verdict)
}
