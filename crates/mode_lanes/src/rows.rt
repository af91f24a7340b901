//! Kernels over rows: words of 64 bits, a bit for each member of a set.

ghost use Rattle.std.specs.Prelude.{◌≡◌, ◌≢◌, ◌↔◌, ℕ, ◌+◌, ◌≤◌, IsTrue, length, slice_index, EachIndex, SomeIndex, bit_and, bit_or};
ghost use Rattle.std.specs.Simd.Lanes.{zip2};
ghost use Rattle.mode_lanes.specs.Masks.{union_of};

use std::simd::prelude::*;

/// The words of one chunk: 256 bits, which is one row of a waits-for graph of 256 sessions.
const LANES: usize = 4;

/// Adds the bits of `other` to `row`. Returns whether `row` has changed.
#[inline]
pub fn or_into(row: &mut [u64], other: &[u64]) -> bool
    requires { length row.old ≡ length other.now }
    ensures words { EachIndex row.new (λ k.
        slice_index row.new k ≡ bit_or (slice_index row.old k) (slice_index other.now k)) }
    ensures changed { IsTrue result ↔ (row.new ≢ row.old) }
{
    let mut changed = u64x4::splat(0);
    let mut at = 0;
    while other.len() - at >= LANES {
        let before = u64x4::from_slice(&row[at..]);
        let after = before | u64x4::from_slice(&other[at..]);
        changed |= before ^ after;
        after.copy_to_slice(&mut row[at..]);
        at += LANES;
    }
    let mut changes = changed.reduce_or();
    for k in at..other.len() {
        let before = row[k];
        let after = before | other[k];
        changes |= before ^ after;
        row[k] = after;
    }
    changes != 0
}

/// Clears the bits of `row` that `other` does not have.
#[inline]
pub fn and_into(row: &mut [u64], other: &[u64])
    requires { length row.old ≡ length other.now }
    ensures { EachIndex row.new (λ k.
        slice_index row.new k ≡ bit_and (slice_index row.old k) (slice_index other.now k)) }
{
    let mut at = 0;
    while other.len() - at >= LANES {
        let both = u64x4::from_slice(&row[at..]) & u64x4::from_slice(&other[at..]);
        both.copy_to_slice(&mut row[at..]);
        at += LANES;
    }
    for k in at..other.len() {
        row[k] &= other[k];
    }
}

/// Whether two rows have a bit in common. Reads both rows whole, even after such a bit.
#[inline]
pub fn any_common(row: &[u64], other: &[u64]) -> bool
    requires { length row.now ≡ length other.now }
    ensures { IsTrue result ↔ SomeIndex row.now (λ k.
        bit_and (slice_index row.now k) (slice_index other.now k) ≢ 0) }
{
    let mut common = u64x4::splat(0);
    let mut at = 0;
    while other.len() - at >= LANES {
        common |= u64x4::from_slice(&row[at..]) & u64x4::from_slice(&other[at..]);
        at += LANES;
    }
    let tail = common_in_tail(&row[at..], &other[at..]);
    (common.reduce_or() | tail) != 0
}

/// The or of `row[k] & other[k]` over all words of the two tails.
#[inline(always)]
fn common_in_tail(row: &[u64], other: &[u64]) -> u64
    requires { length row.now ≡ length other.now }
    ensures { result ≡ union_of (zip2 bit_and row.now other.now) }
{
    let mut common = 0;
    for k in 0..other.len() {
        common |= row[k] & other[k];
    }
    common
}
