//! Reads single fields of a row.

ghost use Rattle.std.specs.Prelude.{◌≡◌, ◌<◌, ◌≤◌, Bool, true, false, IfOk, IfSome, IfNone};
ghost use Rattle.std.specs.Str.{is_utf8};
ghost use Rattle.lock_tree.specs.Readings.{reading_of};
ghost use Rattle.lock_trace.specs.Fields.{session_in, op_in, resource_in, mode_in, place_in, reply_kind_in, number_in, granted_in, why_in, max_u32};

use crate::fast_path::{fast_number, fast_resource};
use crate::faults::TraceKind;
use itoa::Buffer;
use lock_modes::{MODES, Mode};
use lock_rules::{OPS, Op, REPLY_KINDS, ReplyKind, Why};
use lock_tree::{PathFault, Resource, parse_numeral};
use std::str;

/// Reads a session number from any field. Fails with `Session` unless the field is the decimal text of a number
/// from 1 to `sessions`.
fn slow_session(field: &[u8], sessions: u16) -> Result<u16, TraceKind>
    ensures value { result ≡ session_in sessions field.now }
    ensures range { IfOk result (λ session. (0 < session) × (session ≤ sessions)) }
{
    let Ok(session) = parse_numeral(field, sessions as u64) else {
        return Err(TraceKind::Session);
    };
    if session == 0 {
        return Err(TraceKind::Session);
    }
    Ok(session as u16)
}

/// Reads a session number, from 1 to `sessions`. Fails with `Session`. Tries the fast path first.
#[inline(always)]
pub(crate) fn session_of(field: &[u8], sessions: u16) -> Result<u16, TraceKind>
    ensures value { result ≡ session_in sessions field.now }
    ensures range { IfOk result (λ session. (0 < session) × (session ≤ sessions)) }
{
    match fast_number(field) {
        Some(session) if session != 0 && session <= sessions as u32 => Ok(session as u16),
        _ => slow_session(field, sessions),
    }
}

/// The operation whose word is the field. Fails with `Op` if there is none.
#[inline(always)]
pub(crate) fn op_of(field: &[u8]) -> Result<Op, TraceKind>
    ensures { result ≡ op_in field.now }
{
    for op in OPS {
        if field == op.word().as_bytes() {
            return Ok(op);
        }
    }
    Err(TraceKind::Op)
}

/// The field as text, or `None` if it is not UTF-8.
fn text_in(field: &[u8]) -> Option<&str>
    ensures some { IfSome result (λ text. (text.now ≡ field.now) × (is_utf8 field.now ≡ true)) }
    ensures none { IfNone result (is_utf8 field.now ≡ false) }
{
    match str::from_utf8(field) {
        Ok(text) => Some(text),
        Err(_) => None,
    }
}

/// Parses a resource path. Fails with the fault that `lock_tree` finds.
fn resource_in_text(text: &str) -> Result<Resource, PathFault>
    ensures { result ≡ reading_of text.now }
{
    Resource::parse(text)
}

/// Reads a resource path from any field. Fails with `Path` and the fault of the text. A field that is not UTF-8
/// has the fault `NotANumber`.
fn slow_resource(field: &[u8]) -> Result<Resource, TraceKind>
    ensures { result ≡ resource_in field.now }
{
    let Some(text) = text_in(field) else {
        return Err(TraceKind::Path(PathFault::NotANumber));
    };
    match resource_in_text(text) {
        Ok(resource) => Ok(resource),
        Err(fault) => Err(TraceKind::Path(fault)),
    }
}

/// Reads a resource path. Fails with `Path`. Tries the fast path first.
pub(crate) fn resource_of(field: &[u8]) -> Result<Resource, TraceKind>
    ensures { result ≡ resource_in field.now }
{
    match fast_resource(field) {
        Some(resource) => Ok(resource),
        None => slow_resource(field),
    }
}

/// The mode whose name is the field. Fails with `Mode` if there is none.
#[inline(always)]
pub(crate) fn mode_of(field: &[u8]) -> Result<Mode, TraceKind>
    ensures { result ≡ mode_in field.now }
{
    for mode in MODES {
        if field == mode.name().as_bytes() {
            return Ok(mode);
        }
    }
    Err(TraceKind::Mode)
}

/// Checks that the field is the decimal text of `place`. Fails with `Place`.
pub(crate) fn check_place(field: &[u8], place: u64) -> Result<(), TraceKind>
    ensures { result ≡ place_in place field.now }
{
    let mut buffer = Buffer::new();
    if field != buffer.format(place).as_bytes() {
        return Err(TraceKind::Place);
    }
    Ok(())
}

/// The kind of replies whose word is the field. Fails with `Reply` if there is none.
pub(crate) fn reply_kind_of(field: &[u8]) -> Result<ReplyKind, TraceKind>
    ensures { result ≡ reply_kind_in field.now }
{
    for kind in REPLY_KINDS {
        if field == kind.word().as_bytes() {
            return Ok(kind);
        }
    }
    Err(TraceKind::Reply)
}

/// Reads a decimal number of at most `most`. Fails with `Value`.
pub(crate) fn number_of(field: &[u8], most: u64) -> Result<u64, TraceKind>
    ensures { result ≡ number_in most field.now }
{
    match parse_numeral(field, most) {
        Ok(number) => Ok(number),
        Err(_) => Err(TraceKind::Value),
    }
}

/// Reads a count of locks, a number of 32 bits. Fails with `Value`.
pub(crate) fn count_of(field: &[u8]) -> Result<u32, TraceKind>
    ensures { result ≡ number_in max_u32 field.now }
{
    let count = number_of(field, u32::MAX as u64)?;
    Ok(count as u32)
}

/// Reads the mode that was granted. Fails with `Value`.
pub(crate) fn granted_of(field: &[u8]) -> Result<Mode, TraceKind>
    ensures { result ≡ granted_in field.now }
{
    match mode_of(field) {
        Ok(mode) => Ok(mode),
        Err(_) => Err(TraceKind::Value),
    }
}

/// Reads the reason of a refusal by its name. Fails with `Value`.
pub(crate) fn why_of(field: &[u8]) -> Result<Why, TraceKind>
    ensures { result ≡ why_in field.now }
{
    let Some(text) = text_in(field) else {
        return Err(TraceKind::Value);
    };
    match Why::parse(text) {
        Some(why) => Ok(why),
        None => Err(TraceKind::Value),
    }
}
