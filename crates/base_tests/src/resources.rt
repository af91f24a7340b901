//! Resources and numerals: each call with success, order and size. Texts of paths and their faults are in `checks/program-tables`.

use lock_tree::{LEVELS, NumeralFault, PathFault, Resource, parse_numeral};
use std::cmp::Ordering;
use std::test::Fail;

/// A number of 100 digits.
const HUNDRED_DIGITS: &str = "99999999999999999999999999999999999999999999999999\
    99999999999999999999999999999999999999999999999999";

/// Whether a resource has the numbers of `4294967295/0/3/4/10`, which give it again, and its parent.
fn is_last_field(field: Resource) -> bool {
    let mut right = field.numbers() == [4294967295, 0, 3, 4, 10].as_slice();
    right &= field.level() == 5;
    right &= Resource::from_numbers(field.numbers()) == Some(field);
    right & (field.parent() == Resource::parse("4294967295/0/3/4").ok())
}

/// A path is read as its numbers, and printed again.
#[test]
fn a_path_is_read_and_printed(rt: HostRuntime) -> Result<(), Fail> {
    let field = Resource::parse("4294967295/0/3/4/10")?;
    let printed = field.to_string(rt.alloc())?;
    assert!(rt; is_last_field(field) & (printed.as_str() == "4294967295/0/3/4/10"));
    Ok(())
}

/// No path has no level, or more than five; a resource is small. Each fault of a path has its number.
#[test]
fn paths_have_five_levels_at_most_and_faults_their_numbers(rt: HostRuntime) {
    let mut right = LEVELS == 5;
    right &= size_of::<Resource>() <= 24;
    right &= Resource::from_numbers(&[]).is_none();
    right &= Resource::from_numbers(&[1; LEVELS + 1]).is_none();
    right &= PathFault::Empty as u8 == 1;
    right &= PathFault::TooDeep as u8 == 2;
    right &= PathFault::NotANumber as u8 == 3;
    right &= PathFault::TooLarge as u8 == 4;
    right &= PathFault::LeadingZero as u8 == 5;
    assert!(rt; right);
}

/// A database, a file in it, a page of the file, and another database, in their order.
const PATHS: [&str; 4] = ["9", "9/4294967295", "9/4294967295/7", "10"];

/// Whether the resource of path `k` has that before as its parent, unless it is a database, is an ancestor of those between it
/// and the other database, and is before those behind it.
fn is_in_its_place(k: usize, resource: Resource) -> bool {
    let mut before = None;
    let mut right = true;
    for (at, path) in PATHS.into_iter().enumerate() {
        if let Ok(other) = Resource::parse(path) {
            right &= resource.is_ancestor_of(&other) == (k < at && at < 3);
            right &= (resource < other) == (k < at);
            right &= (resource.cmp(&other) == Ordering::Equal) == (k == at);
            if k == at {
                right &= resource.parent() == before;
            }
            before = if at < 2 { Some(other) } else { None };
        }
    }
    right
}

/// A page has its file and its database as ancestors, and no other database. Ancestors come first in the order, and
/// databases are ordered by number, not by text.
#[test]
fn parents_ancestors_and_order(rt: HostRuntime) -> Result<(), Fail> {
    for (k, path) in PATHS.into_iter().enumerate() {
        assert!(rt; is_in_its_place(k, Resource::parse(path)?), "{path}");
    }
    Ok(())
}

/// Numerals up to a greatest value, in digits without a leading zero.
#[test]
fn reads_numerals(rt: HostRuntime) {
    for (text, greatest, reading) in [
        ("0", 0, Ok(0)),
        ("10", 256, Ok(10)),
        ("256", 256, Ok(256)),
        ("257", 256, Err(NumeralFault::TooLarge)),
        ("18446744073709551615", u64::MAX, Ok(18446744073709551615)),
        (
            "18446744073709551616",
            u64::MAX,
            Err(NumeralFault::TooLarge),
        ),
        (HUNDRED_DIGITS, u64::MAX, Err(NumeralFault::TooLarge)),
        ("", 256, Err(NumeralFault::Empty)),
        ("1/2", 256, Err(NumeralFault::NotANumber)),
        ("010", 256, Err(NumeralFault::LeadingZero)),
    ] {
        let read = parse_numeral(text.as_bytes(), greatest);
        assert!(rt; read == reading, "at {text}");
    }
}
