//! One piece of a resource's text: the number between two `/`.

ghost use Rattle.std.specs.Prelude.{◌≡◌, length};
ghost use Rattle.lock_tree.specs.inner.Pieces.{first_piece, reading_of_piece};
ghost use Rattle.lock_tree.specs.inner.NumeralScan.{IsScanOf};
ghost use Rattle.lock_tree.specs.Faults.{path_fault_of};

use crate::numeral::{NumeralFault, NumeralScan};
use crate::path_fault::PathFault;

/// The greatest number of a piece.
const MAX_NUMBER: u64 = u32::MAX as u64;

/// Returns the bytes before the first `/`, or all of them, and their scan.
fn next_piece(bytes: &[u8]) -> (&[u8], NumeralScan)
    ensures piece { result.0.now ≡ first_piece bytes.now }
    ensures scan { IsScanOf result.1 (first_piece bytes.now) }
{
    let mut length = 0;
    let mut scan = NumeralScan::new();
    for byte in bytes {
        if *byte == b'/' {
            break;
        }
        scan = scan.push(*byte);
        length += 1;
    }
    (&bytes[..length], scan)
}

/// The fault of a path whose piece has this fault.
fn path_fault(fault: NumeralFault) -> PathFault
    ensures { result ≡ path_fault_of fault }
{
    match fault {
        NumeralFault::Empty => PathFault::Empty,
        NumeralFault::NotANumber => PathFault::NotANumber,
        NumeralFault::TooLarge => PathFault::TooLarge,
        NumeralFault::LeadingZero => PathFault::LeadingZero,
    }
}

/// Reads the first piece, which ends before the first `/` or at the end. Returns its number or its fault, and its
/// length in bytes.
pub(crate) fn read_piece(bytes: &[u8]) -> (Result<u32, PathFault>, usize)
    ensures number { result.0 ≡ reading_of_piece (first_piece bytes.now) }
    ensures length { result.1 ≡ length (first_piece bytes.now) }
{
    let (piece, scan) = next_piece(bytes);
    let number = match scan.finish(piece, MAX_NUMBER) {
        Ok(number) => Ok(number as u32),
        Err(fault) => Err(path_fault(fault)),
    };
    (number, piece.len())
}
