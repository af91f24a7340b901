//! Numerals: decimal numbers without leading zeros.

ghost use Rattle.std.specs.Prelude.{◌≡◌, ℕ, List, ◌<◌, ◌+◌, ◌*◌, ◌^◌, ◌++◌, [], ◌∷◌};
ghost use Rattle.std.specs.Option.{SomeIff};
ghost use Rattle.lock_tree.specs.Numerals.{reading_of_numeral};
ghost use Rattle.lock_tree.specs.inner.NumeralScan.{IsScanOf};

/// The fault of a text that is no numeral: the first of these tests that it fails.
///
/// Leading zeros are refused so that each number has exactly one text. This and the order of the tests are this
/// project's own choice.
#[derive(Clone, Copy, Debug, PartialEq, Eq)]
pub enum NumeralFault {
    /// The text is empty.
    Empty,
    /// The text has a byte other than `0` to `9`: a sign, a space, a letter.
    NotANumber,
    /// The number is above the greatest one allowed, with or without leading zeros.
    TooLarge,
    /// The text has two or more digits, and the first is `0`.
    LeadingZero,
}

/// What is known of the bytes of a numeral scanned so far.
#[derive(Clone, Copy)]
pub(crate) struct NumeralScan {
    /// Whether all bytes are digits.
    are_digits: bool,
    /// The number, `None` if it is above 18446744073709551615. Without meaning once a byte isn't a digit.
    number: Option<u64>,
}

impl NumeralScan {
    /// A scan of no bytes yet.
    pub(crate) fn new() -> NumeralScan
        ensures { IsScanOf result [] }
    {
        NumeralScan {
            are_digits: true,
            number: Some(0),
        }
    }

    /// Adds the next byte.
    pub(crate) fn push(self, byte: u8) -> NumeralScan
        ensures { (text : List ℕ) → IsScanOf self text → IsScanOf result (text ++ byte ∷ []) }
    {
        NumeralScan {
            are_digits: self.are_digits & byte.is_ascii_digit(),
            number: with_digit(self.number, byte.saturating_sub(b'0')),
        }
    }

    /// Returns the number, or the first fault, of the scanned text.
    pub(crate) fn finish(self, text: &[u8], greatest: u64) -> Result<u64, NumeralFault>
        requires { IsScanOf self text.now }
        ensures { result ≡ reading_of_numeral greatest text.now }
    {
        if text.is_empty() {
            return Err(NumeralFault::Empty);
        }
        if !self.are_digits {
            return Err(NumeralFault::NotANumber);
        }
        match self.number {
            Some(number) if number <= greatest => {
                if text.len() > 1 && text[0] == b'0' {
                    Err(NumeralFault::LeadingZero)
                } else {
                    Ok(number)
                }
            }
            _ => Err(NumeralFault::TooLarge),
        }
    }
}

/// Appends a digit to the number. `None` once it is above 18446744073709551615.
fn with_digit(number: Option<u64>, digit: u8) -> Option<u64>
    ensures { (n : ℕ) → SomeIff number (n < 2 ^ 64) n
        → SomeIff result (n * 10 + digit < 2 ^ 64) (n * 10 + digit) }
{
    number?.checked_mul(10)?.checked_add(digit as u64)
}

/// Reads a decimal number of at most `greatest`: digits alone, without leading zeros. On failure returns the first test
/// that the text fails.
///
/// Reads the text in one pass, without memory.
pub fn parse_numeral(text: &[u8], greatest: u64) -> Result<u64, NumeralFault>
    ensures { result ≡ reading_of_numeral greatest text.now }
{
    let mut scan = NumeralScan::new();
    for byte in text {
        scan = scan.push(*byte);
    }
    scan.finish(text, greatest)
}
