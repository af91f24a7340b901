//! Kernels over columns: bytes, each with a few bits set, and masks that ask for some of these bits.

ghost use Rattle.std.specs.Prelude.{◌≡◌, ℕ, ◌+◌, ◌<◌, ◌≤◌, not, false, if◌then◌else◌, length, slice_index, EachIndex, position};
ghost use Rattle.std.specs.List.{list_any, prefix_len};
ghost use Rattle.std.specs.Simd.Lanes.{chunk};
ghost use Rattle.mode_lanes.specs.Masks.{union_of, meets};

use std::simd::prelude::*;

/// The bytes of one vector register that every 64-bit x86 processor has. Wider vectors brought no lasting gain.
const LANES: usize = 16;

/// The bits that are set in any byte of the column; 0 if it is empty.
#[inline]
fn union(column: &[u8]) -> u8
    ensures { result ≡ union_of column.now }
{
    let mut all = u8x16::splat(0);
    let mut at = 0;
    while column.len() - at >= LANES {
        all |= u8x16::from_slice(&column[at..]);
        at += LANES;
    }
    all.reduce_or() | union_of_tail(&column[at..])
}

/// The bits that are set in any byte of the tail, one byte at a time.
#[inline(always)]
fn union_of_tail(tail: &[u8]) -> u8
    ensures { result ≡ union_of tail.now }
{
    let mut union = 0;
    for &byte in tail {
        union |= byte;
    }
    union
}

/// Whether any byte of the column has a bit of the mask.
///
/// Reads the whole column, even after such a byte: one test at the end is faster than one test for each chunk.
#[inline]
pub fn any_meets(column: &[u8], mask: u8) -> bool
    ensures { result ≡ list_any (meets mask) column.now }
{
    union(column) & mask != 0
}

/// The position of the first byte that has a bit of the mask, or `None` if there is none. Reads no chunk after
/// that byte's chunk.
#[inline]
pub fn first_meets(column: &[u8], mask: u8) -> Option<usize>
    ensures { result ≡ position (meets mask) column.now }
{
    let mut at = 0;
    while column.len() - at >= LANES {
        let misses = leading_misses(column, at, mask);
        if misses < LANES {
            return Some(at + misses);
        }
        at += LANES;
    }
    first_in_tail(column, mask, at)
}

/// The number of bytes of the chunk at `at` before the first byte that has a bit of the mask; `LANES` if there is
/// none.
#[inline(always)]
fn leading_misses(column: &[u8], at: usize, mask: u8) -> usize
    requires { at + LANES ≤ length column.now }
    ensures { result ≡ prefix_len (λ byte. not (meets mask byte)) (chunk at LANES column.now) }
{
    let bits = u8x16::from_slice(&column[at..]) & u8x16::splat(mask);
    let hits = bits.simd_ne(u8x16::splat(0)).to_bitmask();
    if hits == 0 {
        LANES
    } else {
        hits.trailing_zeros() as usize
    }
}

/// The position of the first byte that has a bit of the mask, from position `from` on. No byte before `from` may
/// have one.
#[inline(always)]
fn first_in_tail(column: &[u8], mask: u8, from: usize) -> Option<usize>
    requires within { from ≤ length column.now }
    requires before { (k : ℕ) → k < from → meets mask (slice_index column.now k) ≡ false }
    ensures { result ≡ position (meets mask) column.now }
{
    for k in from..column.len() {
        if column[k] & mask != 0 {
            return Some(k);
        }
    }
    None
}

/// Sets `marks[k]` to 1 if byte k of the column has a bit of the mask, and to 0 if not.
#[inline]
pub fn mark_meets(column: &[u8], mask: u8, marks: &mut [u8])
    requires { length marks.old ≡ length column.now }
    ensures { EachIndex marks.new (λ k.
        slice_index marks.new k ≡ (if meets mask (slice_index column.now k) then 1 else 0)) }
{
    let mut at = 0;
    while column.len() - at >= LANES {
        let bits = u8x16::from_slice(&column[at..]) & u8x16::splat(mask);
        let hits = bits.simd_ne(u8x16::splat(0));
        hits.select(u8x16::splat(1), u8x16::splat(0))
            .copy_to_slice(&mut marks[at..]);
        at += LANES;
    }
    for k in at..column.len() {
        marks[k] = if column[k] & mask != 0 { 1 } else { 0 };
    }
}
