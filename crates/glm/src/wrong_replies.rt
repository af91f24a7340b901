//! The commands `show` and `explain` with the wrong reply that they find, for the hints.

ghost use Rattle.std.specs.Prelude.{◌≡◌, ◌≢◌, ◌<◌, ◌≤◌, ℕ, List, Some, IfOk, IfErr};
ghost use Rattle.std.specs.Io.KnownBytes.{Keeps};
ghost use Rattle.lock_rules.specs.declared.calls.TheConstants.{MAX_SESSIONS};
ghost use Rattle.history_commands.specs.Explaining.{Explains, HasExplained, HasExplainedPart};
ghost use Rattle.history_commands.specs.Showing.{HasShown, HasShownPart, Shows};

use command_line::Form;
use history_commands::{ShowFault, explain_found, show_found};
use replay_commands::{Finding, Verdict, WrongReply};
use std::alloc::Global;
use std::io::{Read, Write};

/// What `show` or `explain` is to report of a history.
#[derive(Clone, Copy)]
pub(crate) struct ReportRequest {
    /// The place in the history; with `None` the end for `show`, and every place for `explain`.
    pub(crate) place: Option<u32>,
    /// The form of the report.
    pub(crate) form: Form,
}

/// The wrong reply of a finding, if there is one.
pub(crate) fn wrong_of(finding: &Finding) -> Option<WrongReply> {
    match finding {
        Finding::Wrong(reply) => Some(*reply),
        Finding::Legal(_) => None,
    }
}

/// Shows a state of a history, and puts the history's first wrong reply, or that there is none, into `wrong`.
pub(crate) fn shown<R: Read + Drop, W: Write>(
    alloc: Global,
    input: R,
    output: &mut W,
    sessions: u16,
    asked: ReportRequest,
    wrong: &mut Option<WrongReply>,
) -> Result<Verdict, ShowFault>
    requires some { 0 < sessions }
    requires few { sessions ≤ MAX_SESSIONS }
    ensures kept { IfErr result (λ fault. fault ≢ ShowFault.Device → Keeps (W.contents output.old) (W.contents output.new)) }
    ensures part { IfErr result (λ fault. fault ≡ ShowFault.Device → HasShownPart asked.form sessions asked.place (W.contents output.old) (W.contents output.new)) }
    ensures shown { IfOk result (λ verdict. HasShown asked.form sessions asked.place verdict (W.contents output.old) (W.contents output.new)) }
    ensures shows { (bytes : List ℕ) → R.remaining input ≡ Some bytes → Shows asked.form sessions asked.place bytes (W.contents output.old) (W.contents output.new) result }
{
    let finding = show_found(alloc, input, output, sessions, asked.place, asked.form)?;
    *wrong = wrong_of(&finding);
    Ok(finding.verdict())
}

/// Explains calls of a history, and puts the history's first wrong reply, or that there is none, into `wrong`.
pub(crate) fn explained<R: Read + Drop, W: Write>(
    alloc: Global,
    input: R,
    output: &mut W,
    sessions: u16,
    asked: ReportRequest,
    wrong: &mut Option<WrongReply>,
) -> Result<Verdict, ShowFault>
    requires some { 0 < sessions }
    requires few { sessions ≤ MAX_SESSIONS }
    ensures kept { IfErr result (λ fault. fault ≢ ShowFault.Device → Keeps (W.contents output.old) (W.contents output.new)) }
    ensures part { IfErr result (λ fault. fault ≡ ShowFault.Device → HasExplainedPart asked.form sessions asked.place (W.contents output.old) (W.contents output.new)) }
    ensures explained { IfOk result (λ verdict. HasExplained asked.form sessions asked.place verdict (W.contents output.old) (W.contents output.new)) }
    ensures explains { (bytes : List ℕ) → R.remaining input ≡ Some bytes → Explains asked.form sessions asked.place bytes (W.contents output.old) (W.contents output.new) result }
{
    let finding = explain_found(alloc, input, output, sessions, asked.place, asked.form)?;
    *wrong = wrong_of(&finding);
    Ok(finding.verdict())
}
