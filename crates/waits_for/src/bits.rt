//! Rows of bits, in words of 64.

ghost use Rattle.std.specs.Prelude.{◌≡◌, ◌↔◌, ◌⊎◌, Bool, true, false, IsTrue, ℕ, ◌+◌, ◌-◌, ◌*◌, ◌/◌, ◌<◌, ◌≤◌, ◌&&◌, ◌||◌, not, ◌==◌, nat_le, nat_lt, IfSome, IfNone, EachIndex, slice_index, length, if◌then◌else◌};
ghost use Rattle.std.specs.Simd.Lanes.{chunk};
ghost use Rattle.mode_lanes.specs.Masks.{meets};
ghost use Rattle.waits_for.specs.Pairs.{is_met};
ghost use Rattle.waits_for.specs.inner.Bits.{has_bit, words_for, HasSetMet};

use mode_lanes::{any_common, mark_meets, or_into};

/// A row of at most this many words is cleared word by word.
const FEW_WORDS: usize = 4;

/// The holders that are marked at a time: the lanes of one vector of codes.
const CHUNK: usize = 16;

/// The number of words of a row with a bit for each session.
pub(crate) fn words_for(sessions: u16) -> usize
    ensures { result ≡ words_for sessions }
{
    (sessions as usize + 63) / 64
}

/// Whether bit `k` is set.
pub(crate) fn has(words: &[u64], k: usize) -> bool
    requires { k / 64 < length words.now }
    ensures { result ≡ has_bit words.now k }
{
    (words[k / 64] >> (k % 64)) & 1 == 1
}

/// Sets bit `k`.
pub(crate) fn set(words: &mut [u64], k: usize)
    requires { k / 64 < length words.old }
    ensures { (j : ℕ) → has_bit words.new j ≡ (has_bit words.old j || (j == k)) }
{
    let word = words[k / 64];
    words[k / 64] = word | (1 << (k % 64));
}

/// The mark of a code: 1 if it has a bit of the mask, else 0.
#[inline(always)]
fn mark_of(code: u8, mask: u8) -> u8
    ensures { result ≡ (if meets mask code then 1 else 0) }
{
    if code & mask != 0 { 1 } else { 0 }
}

/// Sets bit `from + number - 1` if the mark is 1. Marks are 0 or 1, and no branch asks which.
#[inline(always)]
fn set_marked(words: &mut [u64], from: usize, number: u16, mark: u8)
    requires small { from < 4294967296 }
    requires some { 1 ≤ number }
    requires zero_or_one { mark ≤ 1 }
    requires room { (from + number - 1) / 64 < length words.old }
    ensures { (j : ℕ) → has_bit words.new j ≡ (has_bit words.old j
        || (nat_le from j && ((number == j - from + 1) && meets 1 mark))) }
{
    let k = from + number as usize - 1;
    let word = words[k / 64];
    words[k / 64] = word | ((mark as u64) << (k % 64));
}

/// Sets bit `from + n - 1` for each of the `CHUNK` numbers n at index `at` whose code has a bit of the mask. One masked
/// vector tells which codes have one.
fn set_chunk(words: &mut [u64], from: usize, numbers: &[u16], codes: &[u8], mask: u8, at: usize)
    requires a_code_each { length codes.now ≡ length numbers.now }
    requires small { from < 4294967296 }
    requires some { EachIndex numbers.now (λ k. 1 ≤ slice_index numbers.now k) }
    requires room { EachIndex numbers.now (λ k. (from + slice_index numbers.now k - 1) / 64 < length words.old) }
    requires chunk { at + CHUNK ≤ length numbers.now }
    ensures { (was : ℕ → Bool) → HasSetMet was from mask at numbers.now codes.now words.old
        → HasSetMet was from mask (at + CHUNK) numbers.now codes.now words.new }
{
    let mut marks = [0; CHUNK];
    mark_meets(&codes[at..at + CHUNK], mask, &mut marks);
    for k in 0..CHUNK {
        let number = numbers[at + k];
        let mark = marks[k];
        set_marked(words, from, number, mark);
    }
}

/// Sets bit `from + n - 1` for each number n whose code has a bit of the mask, except bit `from + own`. `codes[k]`
/// belongs to `numbers[k]`.
pub(crate) fn set_met(
    words: &mut [u64],
    from: usize,
    own: usize,
    numbers: &[u16],
    codes: &[u8],
    mask: u8,
)
    requires a_code_each { length codes.now ≡ length numbers.now }
    requires small { from < 4294967296 }
    requires small_too { own < 65536 }
    requires own_room { (from + own) / 64 < length words.old }
    requires some { EachIndex numbers.now (λ k. 1 ≤ slice_index numbers.now k) }
    requires room { EachIndex numbers.now (λ k. (from + slice_index numbers.now k - 1) / 64 < length words.old) }
    ensures { (j : ℕ) → has_bit words.new j ≡ (has_bit words.old j
        || (nat_le from j && (not (j - from == own) && is_met mask (j - from) numbers.now codes.now))) }
{
    // the session's own bit is set as any other, and then put back
    let had = has(words, from + own);
    let mut at = 0;
    while numbers.len() - at >= CHUNK {
        set_chunk(words, from, numbers, codes, mask, at);
        at += CHUNK;
    }
    for index in at..numbers.len() {
        let number = numbers[index];
        let mark = mark_of(codes[index], mask);
        set_marked(words, from, number, mark);
    }
    if !had {
        unset(words, from + own);
    }
}

/// Clears bit `k`.
pub(crate) fn unset(words: &mut [u64], k: usize)
    requires { k / 64 < length words.old }
    ensures { (j : ℕ) → has_bit words.new j ≡ (has_bit words.old j && not (j == k)) }
{
    let word = words[k / 64];
    words[k / 64] = word & !(1 << (k % 64));
}

/// Whether two rows have a bit in common.
pub(crate) fn have_common(row: &[u64], other: &[u64]) -> bool
    requires { length row.now ≡ length other.now }
    ensures { IsTrue result ↔
        ((j : ℕ) × (has_bit row.now j ≡ true) × (has_bit other.now j ≡ true)) }
{
    any_common(row, other)
}

/// Clears all bits of `count` words, beginning at word `from`.
pub(crate) fn clear(words: &mut [u64], from: usize, count: usize)
    requires { from + count ≤ length words.old }
    ensures { (j : ℕ) → has_bit words.new j
        ≡ (has_bit words.old j && not (nat_le (64 * from) j && nat_lt j (64 * (from + count)))) }
{
    if count <= FEW_WORDS {
        clear_few(words, from, count);
    } else {
        clear_many(words, from, count);
    }
}

/// Clears at most `FEW_WORDS` words, one after another. LLVM turns a loop into a call of `memset`, which takes
/// longer for so short a row.
#[inline(always)]
fn clear_few(words: &mut [u64], from: usize, count: usize)
    requires room { from + count ≤ length words.old }
    requires few { count ≤ FEW_WORDS }
    ensures { (j : ℕ) → has_bit words.new j
        ≡ (has_bit words.old j && not (nat_le (64 * from) j && nat_lt j (64 * (from + count)))) }
{
    if count == 0 {
        return;
    }
    words[from] = 0;
    if count == 1 {
        return;
    }
    words[from + 1] = 0;
    if count == 2 {
        return;
    }
    words[from + 2] = 0;
    if count == 3 {
        return;
    }
    words[from + 3] = 0;
}

/// Clears any number of words, in a loop.
fn clear_many(words: &mut [u64], from: usize, count: usize)
    requires { from + count ≤ length words.old }
    ensures { (j : ℕ) → has_bit words.new j
        ≡ (has_bit words.old j && not (nat_le (64 * from) j && nat_lt j (64 * (from + count)))) }
{
    for i in 0..count {
        words[from + i] = 0;
    }
}

/// Adds the bits of `other` to `row`.
fn unite(row: &mut [u64], other: &[u64])
    requires { length row.old ≡ length other.now }
    ensures { (j : ℕ) → has_bit row.new j ≡ (has_bit row.old j || has_bit other.now j) }
{
    or_into(row, other);
}

/// Adds the bits of the `count` words at word `other` to the `count` words at word `from`. The two ranges must not
/// overlap.
pub(crate) fn or_within(words: &mut [u64], from: usize, other: usize, count: usize)
    requires room { from + count ≤ length words.old }
    requires room_too { other + count ≤ length words.old }
    requires apart { (from + count ≤ other) ⊎ (other + count ≤ from) }
    ensures { (j : ℕ) → has_bit words.new j
        ≡ (has_bit words.old j || ((nat_le (64 * from) j && nat_lt j (64 * (from + count))) && has_bit (chunk other count words.old) (j - 64 * from))) }
{
    if from < other {
        let (before, after) = words.split_at_mut(other);
        unite(&mut before[from..from + count], &after[..count]);
    } else {
        let (before, after) = words.split_at_mut(from);
        unite(&mut after[..count], &before[other..other + count]);
    }
}

/// A bit that is set in `row` and in `among`, but not in `known`. `None` if there is none.
pub(crate) fn first_new(row: &[u64], among: &[u64], known: &[u64]) -> Option<usize>
    requires same { length among.now ≡ length row.now }
    requires same_too { length known.now ≡ length row.now }
    requires few { length row.now ≤ 1024 }
    ensures some { IfSome result (λ k. (has_bit row.now k ≡ true) × (has_bit among.now k ≡ true) × (has_bit known.now k ≡ false)) }
    ensures none { IfNone result ((k : ℕ) → has_bit row.now k ≡ true → has_bit among.now k ≡ true → has_bit known.now k ≡ true) }
{
    for w in 0..row.len() {
        let both = row[w] & among[w];
        let new = both ^ (both & known[w]);
        if new != 0 {
            return Some(w * 64 + new.trailing_zeros() as usize);
        }
    }
    None
}

/// The least bit at or behind `from` that two rows have in common. `None` if there is none.
#[inline]
pub(crate) fn next_common(row: &[u64], other: &[u64], from: usize) -> Option<usize>
    requires same { length other.now ≡ length row.now }
    requires few { length row.now ≤ 1024 }
    ensures some { IfSome result (λ k. (from ≤ k) × (has_bit row.now k ≡ true) × (has_bit other.now k ≡ true)) }
    ensures least { IfSome result (λ k. (j : ℕ) → from ≤ j → j < k → has_bit row.now j ≡ true → has_bit other.now j ≡ false) }
    ensures none { IfNone result ((j : ℕ) → from ≤ j → has_bit row.now j ≡ true → has_bit other.now j ≡ false) }
{
    let first = from / 64;
    if first >= row.len() {
        return None;
    }
    let rest = (row[first] & other[first]) >> (from % 64);
    if rest != 0 {
        return Some(from + rest.trailing_zeros() as usize);
    }
    let mut at = first + 1;
    while at + 4 <= row.len() && are_apart(row, other, at) {
        at += 4;
    }
    for w in at..row.len() {
        let both = row[w] & other[w];
        if both != 0 {
            return Some(w * 64 + both.trailing_zeros() as usize);
        }
    }
    None
}

/// Whether two rows have no bit in common in the four words from word `at` on.
#[inline(always)]
fn are_apart(row: &[u64], other: &[u64], at: usize) -> bool
    requires same { length other.now ≡ length row.now }
    requires few { length row.now ≤ 1024 }
    requires room { at + 4 ≤ length row.now }
    ensures { result ≡ true → (j : ℕ) → at ≤ j / 64 → j / 64 < at + 4 → has_bit row.now j ≡ true → has_bit other.now j ≡ false }
{
    let first = (row[at] & other[at]) | (row[at + 1] & other[at + 1]);
    let second = (row[at + 2] & other[at + 2]) | (row[at + 3] & other[at + 3]);
    (first | second) == 0
}

/// Makes `row` the bits of `all` that `other` does not have.
pub(crate) fn set_without(row: &mut [u64], all: &[u64], other: &[u64])
    requires same { length all.now ≡ length row.old }
    requires same_too { length other.now ≡ length row.old }
    ensures { (j : ℕ) → has_bit row.new j ≡ (has_bit all.now j && not (has_bit other.now j)) }
{
    for k in 0..row.len() {
        let word = all[k];
        row[k] = word ^ (word & other[k]);
    }
}

/// The least bit at or behind `from` and below `end` that is set in `row`, but not in `known`; `end` if there is
/// none.
#[inline]
pub(crate) fn next_new(row: &[u64], known: &[u64], from: usize, end: usize) -> usize
    requires from_within { from ≤ end }
    requires small { end + 64 ≤ usize.MAX }
    requires room { words_for end ≤ length row.now }
    requires room_too { words_for end ≤ length known.now }
    ensures behind { from ≤ result }
    ensures within { result ≤ end }
    ensures new { result < end → (has_bit row.now result ≡ true) × (has_bit known.now result ≡ false) }
    ensures known { (j : ℕ) → from ≤ j → j < result → has_bit row.now j ≡ true → has_bit known.now j ≡ true }
{
    let mut at = from;
    while at < end {
        let word = row[at / 64];
        let rest = (word ^ (word & known[at / 64])) >> (at % 64);
        if rest != 0 {
            return (at + rest.trailing_zeros() as usize).min(end);
        }
        at = at / 64 * 64 + 64;
    }
    end
}
