//! The byte columns and bit rows of `mode_lanes`: examples by hand, and many lengths compared with plain loops.

ghost use Rattle.std.specs.Prelude.{◌≡◌, ◌<◌, ◌≤◌, length};

use mode_lanes::{and_into, any_common, any_meets, first_meets, mark_meets, or_into};

/// The greatest length that is tried.
const LONGEST: usize = 1025;

/// Whether a byte of a column meets the mask, and the first that does. Marks those that do.
fn told(column: &[u8], mask: u8, marks: &mut [u8]) -> (bool, Option<usize>)
    requires { length marks.old ≡ length column.now }
    ensures { length marks.new ≡ length marks.old }
{
    mark_meets(column, mask, marks);
    let is_met = any_meets(column, mask);
    (is_met, first_meets(column, mask))
}

/// A byte past the last whole chunk is found, and marked; another mask meets no byte. Empty columns have no bits.
#[test]
fn columns_by_hand(rt: HostRuntime) {
    let mut column = [1; 33];
    column[32] = 3;
    let mut wanted = [0; 33];
    wanted[32] = 1;
    let mut marks = [7; 33];
    let mut right = told(&column, 2, &mut marks) == (true, Some(32));
    right &= marks == wanted;
    right &= told(&column, 4, &mut marks) == (false, None);
    right &= marks == [0; 33];
    right &= told(&[], 2, &mut []) == (false, None);
    assert!(rt; right);
}

/// Or, and, and the test for a common bit on rows of five words. Empty rows have no bits.
#[test]
fn rows_by_hand(rt: HostRuntime) {
    let mut row = [1, 0, 0, 0, 4];
    let other = [3, 0, 0, 0, 8];
    let mut right = any_common(&row, &other);
    right &= !any_common(&[0, 1, 2, 4, 8], &[0, 2, 4, 8, 16]);
    right &= or_into(&mut row, &other);
    right &= row == [3, 0, 0, 0, 12];
    right &= !or_into(&mut row, &other);
    and_into(&mut row, &other);
    right &= row == other;
    right &= !or_into(&mut [], &[]);
    right &= !any_common(&[], &[]);
    and_into(&mut [], &[]);
    assert!(rt; right);
}

/// Whether the calls for a column and a mask agree with a plain loop.
fn is_column_as_by_loop(column: &[u8], mask: u8) -> bool
    requires { length column.now ≤ LONGEST }
{
    let mut marks = [7; LONGEST];
    let marks = &mut marks[..column.len()];
    let answers = told(column, mask, marks);
    let mut first = None;
    let mut right = true;
    for k in 0..column.len() {
        let meets = column[k] & mask != 0;
        right &= marks[k] == meets as u8;
        if meets && first.is_none() {
            first = Some(k);
        }
    }
    right & (answers == (first.is_some(), first))
}

/// Whether `or_into`, `and_into` and `any_common` are right: a row of twos becomes `other`, which has a 3 in one word and twos
/// elsewhere, and then the and of `other` and ones.
fn is_row_as_by_loop(row: &mut [u64], other: &[u64], ones: &[u64]) -> bool
    requires other { length row.old ≡ length other.now }
    requires ones { length row.old ≡ length ones.now }
{
    let mut right = !any_common(row, ones);
    right &= any_common(other, ones);
    right &= or_into(row, other);
    right &= &*row == other;
    right &= !or_into(row, other);
    and_into(row, ones);
    for k in 0..other.len() {
        right &= row[k] == other[k] & 1;
    }
    right
}

/// Whether columns of ones and rows of twos of this length are right, with another item at index `at`: 6 and 13, the code of U,
/// in a column, and 3 in a row.
fn is_item_as_by_loop(length: usize, at: usize) -> bool
    requires at { at < length }
    requires length { length ≤ LONGEST }
{
    let mut right = true;
    let mut column = [1; LONGEST];
    for byte in [6, 13] {
        column[at] = byte;
        for mask in [1, 2, 8, 10] {
            right &= is_column_as_by_loop(&column[..length], mask);
        }
    }
    let mut other = [2; LONGEST];
    other[at] = 3;
    let mut row = [2; LONGEST];
    let ones = [1; LONGEST];
    right & is_row_as_by_loop(&mut row[..length], &other[..length], &ones[..length])
}

/// All short lengths, with and without whole chunks, and lengths around 1,024, the greatest number of sessions.
#[test]
fn lengths_to_1025_match_plain_loops(rt: HostRuntime) {
    for length in 0..LONGEST + 1 {
        if length < 71 || length > 1022 {
            for at in 0..length {
                assert!(rt; is_item_as_by_loop(length, at), "{length} {at}");
            }
        }
    }
}
