//! What is wrong with words that the parser takes but that make no request.

ghost use Rattle.std.specs.Prelude.{◌≡◌, if◌then◌else◌, codes};
ghost use Rattle.std.specs.List.{list_any};
ghost use Rattle.std.specs.Str.{bytes_eq};
ghost use Rattle.command_line.specs.CommandLine.{wants_two_forms};

use crate::texts::{NOT_A_NUMERAL, STATE_ALONE, TWO_FORMS};

/// Whether one of the words is `word`.
fn has_word(words: &[&str], word: &str) -> bool
    ensures { result ≡ list_any (λ given. bytes_eq given.now word.now) words.now }
{
    words.iter().any(|given| *given == word)
}

/// Whether more than one of the flags for a form is given.
fn wants_two_forms(csv: bool, dot: bool, waits: bool) -> bool
    ensures { result ≡ wants_two_forms csv dot waits }
{
    (csv && dot) || ((csv || dot) && waits)
}

/// The message for words that make no request: that of a dump if the flag `--state` is given.
fn other_text(state: bool) -> &'static str
    ensures { result.now ≡ (if state then STATE_ALONE.now else NOT_A_NUMERAL.now) }
{
    if state { STATE_ALONE } else { NOT_A_NUMERAL }
}

/// The message for words that the parser takes but that make no request: [`TWO_FORMS`] if more than one of `--csv`, `--dot` and
/// `--waits` are among them, else [`STATE_ALONE`] if `--state` is, and else [`NOT_A_NUMERAL`].
pub fn usage_text(words: &[&str]) -> &'static str
    ensures { result.now ≡ (if wants_two_forms (list_any (λ given. bytes_eq given.now (codes "--csv")) words.now) (list_any (λ given. bytes_eq given.now (codes "--dot")) words.now) (list_any (λ given. bytes_eq given.now (codes "--waits")) words.now) then TWO_FORMS.now
        else (if list_any (λ given. bytes_eq given.now (codes "--state")) words.now then STATE_ALONE.now else NOT_A_NUMERAL.now)) }
{
    let csv = has_word(words, "--csv");
    let dot = has_word(words, "--dot");
    let waits = has_word(words, "--waits");
    let state = has_word(words, "--state");
    if wants_two_forms(csv, dot, waits) {
        TWO_FORMS
    } else {
        other_text(state)
    }
}
