//! Writes one line of a history into a buffer that is used again for each line. Each function writes at index
//! `at`, keeps what is before it, and returns the index after what it wrote.

ghost use Rattle.std.specs.Prelude.{◌≡◌, ℕ, ◌+◌, ◌/◌, ◌%◌, ◌<◌, ◌≤◌, ◌++◌, [], ◌∷◌, length, take, decimal};

use itoa::Buffer;

/// The room that a token needs, in bytes. A token is copied whole, whatever its length.
pub(crate) const TOKEN_BYTES: usize = 16;

/// The room that a number needs, in bytes: the 20 digits of the largest `u64`.
pub(crate) const NUMBER_BYTES: usize = 20;

/// Writes one byte.
#[inline(always)]
pub(crate) fn put_byte(line: &mut [u8], at: usize, byte: u8) -> usize
    requires room { at < length line.old }
    ensures text { take result line.new ≡ take at line.old ++ byte ∷ [] }
    ensures room { length line.new ≡ length line.old }
    ensures end { result ≡ at + 1 }
{
    line[at] = byte;
    at + 1
}

/// Writes the first `count` bytes of the token. All 16 bytes are copied, in one move; the next write overwrites
/// the surplus.
#[inline(always)]
pub(crate) fn put_token(line: &mut [u8], at: usize, token: &[u8; 16], count: usize) -> usize
    requires room { at + TOKEN_BYTES ≤ length line.old }
    requires few { count ≤ TOKEN_BYTES }
    ensures text { take result line.new ≡ take at line.old ++ take count token.now }
    ensures room { length line.new ≡ length line.old }
    ensures end { result ≡ at + count }
{
    line[at..at + TOKEN_BYTES].copy_from_slice(token.as_slice());
    at + count
}

/// Writes a text.
#[inline(always)]
pub(crate) fn put_text(line: &mut [u8], at: usize, text: &[u8]) -> usize
    requires room { at + length text.now ≤ length line.old }
    ensures text { take result line.new ≡ take at line.old ++ text.now }
    ensures room { length line.new ≡ length line.old }
    ensures end { result ≡ at + length text.now }
{
    let end = at + text.len();
    line[at..end].copy_from_slice(text);
    end
}

/// Writes a number below 100 as two digits, the first of which may be 0.
#[inline(always)]
fn put_two_digits(line: &mut [u8], at: usize, number: u8) -> usize
    requires room { at + 2 ≤ length line.old }
    requires two { number < 100 }
    ensures text { take result line.new ≡ take at line.old ++ (48 + number / 10) ∷ (48 + number % 10) ∷ [] }
    ensures room { length line.new ≡ length line.old }
    ensures end { result ≡ at + 2 }
{
    let next = put_byte(line, at, b'0' + number / 10);
    put_byte(line, next, b'0' + number % 10)
}

/// Writes a number of one or two digits.
#[inline(always)]
fn put_below_100(line: &mut [u8], at: usize, number: u8) -> usize
    requires room { at + 2 ≤ length line.old }
    requires two { number < 100 }
    ensures text { take result line.new ≡ take at line.old ++ decimal number }
    ensures room { length line.new ≡ length line.old }
    ensures few { result ≤ at + 2 }
{
    if number < 10 {
        return put_byte(line, at, b'0' + number);
    }
    put_two_digits(line, at, number)
}

/// Writes a number of at most four digits.
#[inline(always)]
fn put_below_10000(line: &mut [u8], at: usize, number: u16) -> usize
    requires room { at + 4 ≤ length line.old }
    requires four { number < 10000 }
    ensures text { take result line.new ≡ take at line.old ++ decimal number }
    ensures room { length line.new ≡ length line.old }
    ensures few { result ≤ at + 4 }
{
    if number < 100 {
        return put_below_100(line, at, number as u8);
    }
    let next = put_below_100(line, at, (number / 100) as u8);
    put_two_digits(line, next, (number % 100) as u8)
}

/// Writes a number of five to eight digits.
fn put_5_to_8_digits(line: &mut [u8], at: usize, number: u32) -> usize
    requires room { at + 8 ≤ length line.old }
    requires five { 10000 ≤ number }
    requires eight { number < 100000000 }
    ensures text { take result line.new ≡ take at line.old ++ decimal number }
    ensures room { length line.new ≡ length line.old }
    ensures few { result ≤ at + 8 }
{
    let front = number / 100;
    let next = put_below_10000(line, at, (front / 100) as u16);
    let last = put_two_digits(line, next, (front % 100) as u8);
    put_two_digits(line, last, (number % 100) as u8)
}

/// Writes any number, through a buffer of itoa. Never inlined, so that the paths for short numbers stay small.
#[inline(never)]
fn put_with_itoa(line: &mut [u8], at: usize, number: u64) -> usize
    requires room { at + NUMBER_BYTES ≤ length line.old }
    ensures text { take result line.new ≡ take at line.old ++ decimal number }
    ensures room { length line.new ≡ length line.old }
    ensures few { result ≤ at + NUMBER_BYTES }
{
    let mut buffer = Buffer::new();
    put_text(line, at, buffer.format(number).as_bytes())
}

/// Writes any number. `put_number` calls it for three digits or more.
fn put_large(line: &mut [u8], at: usize, number: u64) -> usize
    requires room { at + NUMBER_BYTES ≤ length line.old }
    ensures text { take result line.new ≡ take at line.old ++ decimal number }
    ensures room { length line.new ≡ length line.old }
    ensures few { result ≤ at + NUMBER_BYTES }
{
    if number < 10_000 {
        return put_below_10000(line, at, number as u16);
    }
    if number < 100_000_000 {
        return put_5_to_8_digits(line, at, number as u32);
    }
    put_with_itoa(line, at, number)
}

/// Writes a number in decimal. Most numbers of a history have one or two digits, so that case is tested first,
/// inline.
#[inline(always)]
pub(crate) fn put_number(line: &mut [u8], at: usize, number: u64) -> usize
    requires room { at + NUMBER_BYTES ≤ length line.old }
    ensures text { take result line.new ≡ take at line.old ++ decimal number }
    ensures room { length line.new ≡ length line.old }
    ensures few { result ≤ at + NUMBER_BYTES }
{
    if number < 100 {
        return put_below_100(line, at, number as u8);
    }
    put_large(line, at, number)
}
