//! What a request asks for, and whom it waits for or would wait for, as lines for people.

ghost use Rattle.std.specs.Prelude.{◌≡◌, ◌++◌, OnOk, string_bytes};
ghost use Rattle.std.specs.List.{flat_map};
ghost use Rattle.lock_modes.specs.Codes.{name_of};
ghost use Rattle.lock_explain.specs.ExplanationText.{words_of_party, request_word, target_word, words_of_request, line_of_request, words_of_holding, link_word, words_of_ahead, line_of_blocker};

use crate::explanation::{Blocker, Party};
use lock_modes::Mode;
use lock_report::put_words;
use lock_rules::{Claim, ClaimKind};
use std::alloc::AllocError as NoMemory;
use std::fmt::Write;

/// Writes a session with its transaction.
pub(crate) fn put_party(out: &mut String, party: &Party) -> Result<(), NoMemory>
    ensures { OnOk result (string_bytes out.new ≡ string_bytes out.old ++ words_of_party party.now) }
{
    write!(
        out,
        "session {}, transaction {}",
        party.session, party.transaction
    )
}

/// Writes the words and the name of the mode.
pub(crate) fn put_words_and_mode(out: &mut String, words: &str, mode: Mode) -> Result<(), NoMemory>
    ensures { OnOk result (string_bytes out.new ≡ string_bytes out.old ++ (words.now ++ name_of mode)) }
{
    put_words(out, words)?;
    put_words(out, mode.name())
}

/// The words before the resource of a request.
fn request_word(kind: ClaimKind) -> &'static str
    ensures { result.now ≡ request_word kind }
{
    match kind {
        ClaimKind::Held | ClaimKind::Fresh => "for",
        ClaimKind::Conversion => "to convert",
    }
}

/// The word before the target of a request.
fn target_word(kind: ClaimKind) -> &'static str
    ensures { result.now ≡ target_word kind }
{
    match kind {
        ClaimKind::Held | ClaimKind::Fresh => "in",
        ClaimKind::Conversion => "to",
    }
}

/// Writes what a request asks for: the resource and the mode. Fails if memory is refused.
pub fn put_request(out: &mut String, request: &Claim) -> Result<(), NoMemory>
    ensures { OnOk result (string_bytes out.new ≡ string_bytes out.old ++ words_of_request request.now) }
{
    let verb = request_word(request.kind);
    let resource = request.resource;
    let word = target_word(request.kind);
    let mode = request.mode.name();
    write!(out, "{verb} {resource} {word} {mode}")
}

/// Writes the line of a request that waits or would wait, with the words at its start.
pub(crate) fn put_line_of_request(
    out: &mut String,
    start: &str,
    request: &Claim,
) -> Result<(), NoMemory>
    ensures { OnOk result (string_bytes out.new ≡ string_bytes out.old ++ line_of_request start.now request.now) }
{
    put_words(out, start)?;
    put_request(out, request)?;
    put_words(out, "\n")
}

/// Writes the lock of a blocker, nothing if it doesn't conflict.
fn put_holding(out: &mut String, held: Option<Mode>) -> Result<(), NoMemory>
    ensures { OnOk result (string_bytes out.new ≡ string_bytes out.old ++ words_of_holding held) }
{
    match held {
        None => Ok(()),
        Some(mode) => put_words_and_mode(out, ", which holds it in ", mode),
    }
}

/// The words before a blocker's request ahead.
fn link_word(held: Option<Mode>) -> &'static str
    ensures { result.now ≡ link_word held }
{
    match held {
        None => ", which",
        Some(_) => " and",
    }
}

/// Writes the mode of a blocker's request ahead, nothing if none is ahead. `held` is the mode in which the blocker holds the resource in
/// conflict. Fails if memory is refused.
pub fn put_ahead(out: &mut String, held: Option<Mode>, ahead: Option<Mode>) -> Result<(), NoMemory>
    ensures { OnOk result (string_bytes out.new ≡ string_bytes out.old ++ words_of_ahead held ahead) }
{
    match ahead {
        None => Ok(()),
        Some(mode) => {
            put_words(out, link_word(held))?;
            put_words_and_mode(out, " waits ahead for ", mode)
        }
    }
}

/// Writes the line of a session that a request waits for or would wait for, with the words at its start.
fn put_blocker(out: &mut String, start: &str, blocker: &Blocker) -> Result<(), NoMemory>
    ensures { OnOk result (string_bytes out.new ≡ string_bytes out.old ++ line_of_blocker start.now blocker.now) }
{
    put_words(out, start)?;
    put_party(out, &blocker.party)?;
    put_holding(out, blocker.held)?;
    put_ahead(out, blocker.held, blocker.ahead)?;
    put_words(out, "\n")
}

/// Writes the lines of the sessions that a request waits for or would wait for, each with the words at its start.
pub(crate) fn put_blockers(
    out: &mut String,
    start: &str,
    blockers: &[Blocker],
) -> Result<(), NoMemory>
    ensures { OnOk result (string_bytes out.new ≡ string_bytes out.old ++ flat_map (line_of_blocker start.now) blockers.now) }
{
    for blocker in blockers {
        put_blocker(out, start, blocker)?;
    }
    Ok(())
}
