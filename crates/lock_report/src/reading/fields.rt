//! Reads single fields of a row of a state. Each reader takes exactly the texts that the writer makes.

ghost use Rattle.std.specs.Prelude.{◌≡◌, ◌≢◌, ◌<◌, ◌≤◌, ◌↔◌, ◌^◌, ℕ, Bool, true, false, List, Some, IfSome, IfNone, length, decimal};
ghost use Rattle.std.specs.List.{position_or_len};
ghost use Rattle.std.specs.Str.{is_utf8};
ghost use Rattle.lock_modes.specs.declared.Mode.{Mode as ModeValue};
ghost use Rattle.lock_modes.specs.Codes.{name_of};
ghost use Rattle.lock_tree.specs.Paths.{IsResource};
ghost use Rattle.lock_tree.specs.Text.{text_of};
ghost use Rattle.lock_rules.specs.declared.listing.ClaimKind.{ClaimKind as KindValue};
ghost use Rattle.lock_report.specs.Claims.{word_of_kind};
ghost use Rattle.lock_report.specs.StateRows.{others_text};
ghost use Rattle.lock_report.specs.ReadRows.{IsSession, victim_text};
ghost use Rattle.lock_report.specs.inner.ReadFields.{is_plus};

use lock_modes::Mode;
use lock_rules::ClaimKind;
use lock_tree::{Resource, numerals_are_decimals, parse_numeral};
use std::str;

/// The session of a field, one of the sessions 1 to `sessions`.
pub(crate) fn session_of(field: &[u8], sessions: u16) -> Option<u16>
    ensures { (s : ℕ) → (result ≡ Some s) ↔ (IsSession sessions s × (field.now ≡ decimal s)) }
{
    numerals_are_decimals();
    match parse_numeral(field, u64::from(sessions)) {
        Ok(session) if session != 0 => Some(session as u16),
        _ => None,
    }
}

/// The number of a transaction in a field.
pub(crate) fn number_of(field: &[u8]) -> Option<u64>
    ensures { (n : ℕ) → (result ≡ Some n) ↔ ((n < 2 ^ 64) × (field.now ≡ decimal n)) }
{
    numerals_are_decimals();
    parse_numeral(field, u64::MAX).ok()
}

/// How many bytes of a field are in front of its first `+`: all, if it has none.
pub(crate) fn front_of_plus(field: &[u8]) -> usize
    ensures front { result ≡ position_or_len is_plus field.now }
    ensures within { result ≤ length field.now }
{
    for index in 0..field.len() {
        if field[index] == b'+' {
            return index;
        }
    }
    field.len()
}

/// The number of others behind the first blocker: 0 of nothing, else a number behind `+`.
pub(crate) fn others_of(field: &[u8]) -> Option<u64>
    ensures { (n : ℕ) → (result ≡ Some n) ↔ ((n < 2 ^ 64) × (field.now ≡ others_text n)) }
{
    if field.is_empty() {
        return Some(0);
    }
    if field[0] != b'+' {
        return None;
    }
    match number_of(&field[1..]) {
        Some(others) if others != 0 => Some(others),
        _ => None,
    }
}

/// Whether a field is the mark of a victim, `None` if it is neither the mark nor empty.
pub(crate) fn victim_of(field: &[u8]) -> Option<bool>
    ensures { (doomed : Bool) → (result ≡ Some doomed) ↔ (field.now ≡ victim_text doomed) }
{
    if field.is_empty() {
        return Some(false);
    }
    if field == b"victim".as_slice() {
        return Some(true);
    }
    None
}

/// The text of a field, `None` if it isn't UTF-8.
fn text_in(field: &[u8]) -> Option<&str>
    ensures some { IfSome result (λ text. (text.now ≡ field.now) × (is_utf8 field.now ≡ true)) }
    ensures none { IfNone result (is_utf8 field.now ≡ false) }
{
    match str::from_utf8(field) {
        Ok(text) => Some(text),
        Err(_) => None,
    }
}

/// The resource of a field.
pub(crate) fn resource_of(field: &[u8]) -> Option<Resource>
    ensures { (r : List ℕ) → (result ≡ Some r) ↔ (IsResource r × (field.now ≡ text_of r)) }
{
    Resource::parse(text_in(field)?).ok()
}

/// The mode of a field, `None` also for NL, which is the mode of no lock.
pub(crate) fn mode_of(field: &[u8]) -> Option<Mode>
    ensures { (m : ModeValue) → (result ≡ Some m) ↔ ((m ≢ ModeValue.NL) × (field.now ≡ name_of m)) }
{
    let mode = Mode::parse(text_in(field)?)?;
    if mode == Mode::NL { None } else { Some(mode) }
}

/// The kind of claims whose word is the field.
pub(crate) fn kind_of(field: &[u8]) -> Option<ClaimKind>
    ensures { (k : KindValue) → (result ≡ Some k) ↔ (field.now ≡ word_of_kind k) }
{
    if field == b"held".as_slice() {
        return Some(ClaimKind::Held);
    }
    if field == b"conversion".as_slice() {
        return Some(ClaimKind::Conversion);
    }
    if field == b"fresh".as_slice() {
        return Some(ClaimKind::Fresh);
    }
    None
}
