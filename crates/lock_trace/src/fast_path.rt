//! The fast path for numbers and resource paths without a fault: one pass over the bytes. Only digits and `/`
//! pass, so UTF-8 needs no test. A field that is declined here is read again by the slow path, which finds its
//! fault.

ghost use Rattle.std.specs.Prelude.{◌≡◌, ◌≤◌, ◌++◌, length, take, IfSome, Ok, decimal};
ghost use Rattle.lock_trace.specs.Fields.{resource_in};

use lock_tree::{LEVELS, Resource};

/// The largest number that may take any further digit and stay within 32 bits. The six numbers from 4294967290 on
/// are left to the slow path.
const MAX_PREFIX: u32 = 429_496_728;

/// Reads the decimal number that begins at index `start`. Returns the number and the index after its last digit.
/// Returns `None` if there is no digit, if the number has a leading zero, or if it is above 4294967289.
#[inline(always)]
fn number_from(field: &[u8], start: usize) -> Option<(u32, usize)>
    requires { start ≤ length field.now }
    ensures end { IfSome result (λ found. found.1 ≤ length field.now) }
    ensures text { IfSome result (λ found. take found.1 field.now ≡ take start field.now ++ decimal found.0) }
{
    let mut number = 0;
    let mut end = start;
    for at in start..field.len() {
        let byte = field[at];
        if byte < b'0' || byte > b'9' {
            break;
        }
        if number > MAX_PREFIX {
            return None;
        }
        if number == 0 && end != start {
            return None;
        }
        number = number * 10 + (byte - b'0') as u32;
        end = at + 1;
    }
    if end == start {
        return None;
    }
    Some((number, end))
}

/// The number whose decimal text is the whole field. Returns `None` if there is none or if it is above 4294967289.
#[inline(always)]
pub(crate) fn fast_number(field: &[u8]) -> Option<u32>
    ensures { IfSome result (λ number. field.now ≡ decimal number) }
{
    let (number, end) = number_from(field, 0)?;
    if end != field.len() {
        return None;
    }
    Some(number)
}

/// The resource whose text is the whole field. Returns `None` if the field is faulty or has a number above
/// 4294967289.
pub(crate) fn fast_resource(field: &[u8]) -> Option<Resource>
    ensures { IfSome result (λ resource. resource_in field.now ≡ Ok resource) }
{
    let mut numbers = [0; LEVELS];
    let mut start = 0;
    for level in 0..LEVELS {
        let (number, end) = number_from(field, start)?;
        numbers[level] = number;
        if end == field.len() {
            return Resource::from_prefix(&numbers, level + 1);
        }
        if field[end] != b'/' {
            return None;
        }
        start = end + 1;
    }
    None
}
