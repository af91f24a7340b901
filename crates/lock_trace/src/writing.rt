//! Writes histories as text.

ghost use Rattle.std.specs.Prelude.{◌≡◌, ◌+◌, ◌^◌, ◌<◌, ◌≤◌, ◌++◌, List, [], ◌∷◌, OnOk, IfOk, decimal, length, take};
ghost use Rattle.lock_modes.specs.Codes.{name_of};
ghost use Rattle.lock_tree.specs.Text.{text_of};
ghost use Rattle.lock_trace.specs.Rows.{resource_field, mode_field, fields_of_call};
ghost use Rattle.lock_trace.specs.Histories.{value_field, fields_of_reply, fields_of_entry, after_commas, line_of, text_of_history, text_of_piece};

use crate::line::{NUMBER_BYTES, TOKEN_BYTES, put_byte, put_number, put_text, put_token};
use crate::tokens::{mode_token, op_token, reply_token};
use lock_modes::Mode;
use lock_rules::{Call, Entry, Reply};
use lock_tree::{LEVELS, Resource};
use std::alloc::{AllocError as NoMemory, Global};

/// The length of a common row of a history, in bytes, for the first allocation. The text grows if rows are longer.
const TYPICAL_ROW_BYTES: usize = 40;

/// The room that a resource path needs, in bytes: a number for each level, and a `/` beside each.
const RESOURCE_BYTES: usize = LEVELS * (NUMBER_BYTES + 1);

/// The room that a call needs, in bytes, with its commas. A token is copied whole, so this is more than the text
/// of a call.
const CALL_BYTES: usize = RESOURCE_BYTES + 40;

/// The room that a reply needs, in bytes, with its commas.
const REPLY_BYTES: usize = 64;

/// The room that a line needs, in bytes.
const LINE_BYTES: usize = 256;

/// Writes a resource path: its numbers, with a `/` between them.
#[inline(always)]
fn put_resource(line: &mut [u8], at: usize, resource: &Resource) -> usize
    requires room { at + RESOURCE_BYTES ≤ length line.old }
    ensures text { take result line.new ≡ take at line.old ++ text_of resource.now }
    ensures room { length line.new ≡ length line.old }
    ensures few { result ≤ at + RESOURCE_BYTES }
{
    let numbers = resource.numbers();
    let mut end = put_number(line, at, numbers[0] as u64);
    for level in 1..numbers.len() {
        end = put_byte(line, end, b'/');
        end = put_number(line, end, numbers[level] as u64);
    }
    end
}

/// Writes the resource that the call names, or nothing.
#[inline(always)]
fn put_resource_field(line: &mut [u8], at: usize, call: &Call) -> usize
    requires room { at + RESOURCE_BYTES ≤ length line.old }
    ensures text { take result line.new ≡ take at line.old ++ resource_field call.now }
    ensures room { length line.new ≡ length line.old }
    ensures few { result ≤ at + RESOURCE_BYTES }
{
    match call {
        Call::Lock(resource, _)
        | Call::Convert(resource, _)
        | Call::Release(resource)
        | Call::Try(resource, _) => put_resource(line, at, resource),
        Call::Begin | Call::Poll | Call::Commit | Call::Abort | Call::Withdraw | Call::Restart =>
            at,
    }
}

/// Writes the name of the mode.
#[inline(always)]
fn put_mode(line: &mut [u8], at: usize, mode: Mode) -> usize
    requires room { at + TOKEN_BYTES ≤ length line.old }
    ensures text { take result line.new ≡ take at line.old ++ name_of mode }
    ensures room { length line.new ≡ length line.old }
    ensures few { result ≤ at + 3 }
{
    let (token, count) = mode_token(mode);
    put_token(line, at, token, count)
}

/// Writes the mode that the call asks for, or nothing.
#[inline(always)]
fn put_mode_field(line: &mut [u8], at: usize, call: &Call) -> usize
    requires room { at + TOKEN_BYTES ≤ length line.old }
    ensures text { take result line.new ≡ take at line.old ++ mode_field call.now }
    ensures room { length line.new ≡ length line.old }
    ensures few { result ≤ at + 3 }
{
    match call {
        Call::Lock(_, mode) | Call::Convert(_, mode) | Call::Try(_, mode) => put_mode(
            line, at, *mode,
        ),
        Call::Begin
        | Call::Poll
        | Call::Release(_)
        | Call::Commit
        | Call::Abort
        | Call::Withdraw
        | Call::Restart => at,
    }
}

/// Writes the operation, the resource and the mode of the call, with a comma before each.
#[inline(always)]
fn put_call(line: &mut [u8], at: usize, call: &Call) -> usize
    requires room { at + CALL_BYTES ≤ length line.old }
    ensures text { take result line.new ≡ take at line.old ++ after_commas (fields_of_call call.now) }
    ensures room { length line.new ≡ length line.old }
    ensures few { result ≤ at + RESOURCE_BYTES + 14 }
{
    let (token, count) = op_token(call);
    let after_op = put_token(line, at, token, count);
    let after_resource = put_resource_field(line, after_op, call);
    let after_comma = put_byte(line, after_resource, b',');
    put_mode_field(line, after_comma, call)
}

/// Writes the value of the reply: a transaction number, a mode, a count of locks or the name of a refusal; or
/// nothing.
#[inline(always)]
fn put_value(line: &mut [u8], at: usize, reply: &Reply) -> usize
    requires room { at + NUMBER_BYTES ≤ length line.old }
    ensures text { take result line.new ≡ take at line.old ++ value_field reply.now }
    ensures room { length line.new ≡ length line.old }
    ensures few { result ≤ at + NUMBER_BYTES }
{
    match reply {
        Reply::Granted(mode) => put_mode(line, at, *mode),
        Reply::Began(number) => put_number(line, at, *number),
        Reply::Committed(locks) | Reply::Aborted(locks) | Reply::Restarted(locks) => put_number(
            line,
            at,
            *locks as u64,
        ),
        Reply::Refused(why) => put_text(line, at, why.name().as_bytes()),
        Reply::Waiting | Reply::Deadlock | Reply::Clear | Reply::Released | Reply::Withdrawn => at,
    }
}

/// Writes the word and the value of the reply, with a comma before each.
#[inline(always)]
fn put_reply(line: &mut [u8], at: usize, reply: &Reply) -> usize
    requires room { at + REPLY_BYTES ≤ length line.old }
    ensures text { take result line.new ≡ take at line.old ++ after_commas (fields_of_reply reply.now) }
    ensures room { length line.new ≡ length line.old }
    ensures few { result ≤ at + NUMBER_BYTES + 11 }
{
    let (token, count) = reply_token(reply);
    let after_word = put_token(line, at, token, count);
    put_value(line, after_word, reply)
}

/// Writes the line of the entry at index `place` at the front of `line`, and returns its length.
#[inline(always)]
fn put_entry(line: &mut [u8], place: u64, entry: &Entry) -> usize
    requires room { LINE_BYTES ≤ length line.old }
    ensures text { take result line.new ≡ line_of (fields_of_entry place entry.now) }
    ensures room { length line.new ≡ length line.old }
    ensures few { result ≤ length line.new }
{
    let after_place = put_number(line, 0, place);
    let after_comma = put_byte(line, after_place, b',');
    let after_session = put_number(line, after_comma, entry.session as u64);
    let after_call = put_call(line, after_session, &entry.call);
    let after_reply = put_reply(line, after_call, &entry.reply);
    put_byte(line, after_reply, b'\n')
}

/// The text of a history: one row of seven fields for each entry, in order. The fields are the entry's place,
/// counted from 0, its session, operation, resource, mode, reply and value. Fields are joined by single commas,
/// and each row ends with one LF. An empty history is no bytes. Fails only with `NoMemory`. The format is this
/// project's own choice; see docs/FORMATS.md.
pub fn history_text(alloc: Global, entries: &[Entry]) -> Result<Vec<u8>, NoMemory>
    ensures { IfOk result (λ text. text.items ≡ text_of_history entries.now) }
{
    piece_text(alloc, 0, entries)
}

/// The text of a piece of a history, whose first entry is at the place `first`. It has the form of
/// [`history_text`], so that the texts of pieces that follow one another, one after another, are the text of the
/// whole (`laws::pieces_make_the_text`). Fails only with `NoMemory`.
pub fn piece_text(alloc: Global, first: u64, entries: &[Entry]) -> Result<Vec<u8>, NoMemory>
    requires places { first + length entries.now ≤ 2 ^ 64 }
    ensures { IfOk result (λ text. text.items ≡ text_of_piece first entries.now) }
{
    let mut out = Vec::with_capacity(alloc, entries.len().saturating_mul(TYPICAL_ROW_BYTES))?;
    let mut line = [0; LINE_BYTES];
    for (index, entry) in entries.iter().enumerate() {
        let end = put_entry(&mut line, first + index as u64, entry);
        out.extend_from_slice(&line[..end])?;
    }
    Ok(out)
}
