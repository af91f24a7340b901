//! A resource: the path of numbers from the top of the lock tree down to a node.

ghost use Rattle.std.specs.Prelude.{◌≡◌, ◌*◌, ◌<◌, ◌≤◌, ◌↔◌, ℕ, List, Some, Ok, Err, true, length, take, IsTrue, IsSome, IfSome};
ghost use Rattle.lock_tree.specs.Paths.{IsResource, IsAncestor, is_ancestor, is_proper_prefix, has_parent, parent_of};
ghost use Rattle.lock_tree.specs.Text.{text_of};
ghost use Rattle.lock_tree.specs.Faults.{fault_of};
ghost use Rattle.lock_tree.specs.Hashes.{word_at, hash_input_of};
ghost use Rattle.lock_tree.specs.Readings.{reading_of};
ghost use Rattle.lock_tree.specs.declared.path_fault.PathFault.{PathFault as FaultValue};

use crate::levels::LEVELS;
use crate::path_fault::PathFault;
use crate::piece::read_piece;
use std::fmt;
use std::hash::{Hash, Hasher};
use std::marker::Model;

/// A node of the lock tree: the 1 to `LEVELS` numbers on the path to it, from the top, each from 0 to 4294967295.
///
/// It is small and `Copy`. Resources are ordered number by number, and a prefix comes before what continues it, so an
/// ancestor comes before its descendants.
#[derive(Clone, Copy, Debug, PartialEq, Eq, PartialOrd, Ord)]
pub struct Resource {
    /// The numbers, padded with 0.
    numbers: [u32; LEVELS],
    /// How many numbers there are. As wide as a number, so that the struct has no padding to copy.
    level: u32,
}

/// In contracts a resource is the list of its numbers.
impl Model for Resource {
    ghost use Rattle.std.specs.Prelude.{ℕ, List};
    ghost use Rattle.lock_tree.specs.Fields.{path_of, fields_of, fields_again, ArePadded};

    ghost Value = { List ℕ };

    ghost view = { path_of };

    ghost invariant = { ArePadded };

    ghost inverse = { fields_of };

    ghost inverse_ok = { fields_again };
}

impl Resource {
    /// Reads a resource from the text that `Display` writes, and from no other text. `PathFault` says which fault is
    /// returned if there are several.
    ///
    /// Reads the text in one pass, without memory.
    pub fn parse(text: &str) -> Result<Resource, PathFault>
        ensures ok { (r : List ℕ)
            → (result ≡ Ok r) ↔ (IsResource r × (text_of r ≡ text.now)) }
        ensures fault { (f : FaultValue) → (result ≡ Err f) ↔ (fault_of text.now ≡ Some f) }
    {
        Resource::read(text.as_bytes())
    }

    /// Reads a resource from bytes. Goes on after a faulty piece, since `TooDeep` comes before the faults of pieces.
    fn read(bytes: &[u8]) -> Result<Resource, PathFault>
        ensures { result ≡ reading_of bytes.now }
    {
        let mut numbers = [0; LEVELS];
        let mut fault = None;
        let mut rest = bytes;
        for level in 0..LEVELS {
            let (number, length) = read_piece(rest);
            numbers[level] = number.unwrap_or(0);
            fault = fault.or(number.err());
            if length == rest.len() {
                return match fault {
                    Some(fault) => Err(fault),
                    None => Ok(Resource::prefix(&numbers, level + 1)),
                };
            }
            let after = &rest[length..];
            rest = &after[1..];
        }
        Err(PathFault::TooDeep)
    }

    /// The resource with the first `level` of these numbers.
    ///
    /// The loop goes over all numbers, so that it compiles to moves and masks of vectors; a copy of `level` numbers would
    /// be a call.
    #[inline(always)]
    fn prefix(numbers: &[u32; LEVELS], level: usize) -> Resource
        requires some { 0 < level }
        requires few { level ≤ LEVELS }
        ensures { result ≡ take level numbers.now }
    {
        let numbers = *numbers;
        let mut padded = [0; LEVELS];
        for k in 0..LEVELS {
            padded[k] = if k < level { numbers[k] } else { 0 };
        }
        Resource {
            numbers: padded,
            level: level as u32,
        }
    }

    /// Returns the resource with the first `level` of these numbers. `None` unless `level` is from 1 to `LEVELS`.
    #[inline]
    pub fn from_prefix(numbers: &[u32; LEVELS], level: usize) -> Option<Resource>
        ensures found { IsSome result ↔ ((0 < level) × (level ≤ LEVELS)) }
        ensures value { IfSome result (λ resource. resource ≡ take level numbers.now) }
        ensures resource { IfSome result IsResource }
    {
        if level == 0 || level > LEVELS {
            return None;
        }
        Some(Resource::prefix(numbers, level))
    }

    /// Returns the resource with these numbers. `None` if there are no numbers, or more than `LEVELS`.
    pub fn from_numbers(numbers: &[u32]) -> Option<Resource>
        ensures found { IsSome result ↔ IsResource numbers.now }
        ensures value { IfSome result (λ resource. resource ≡ numbers.now) }
    {
        if numbers.len() > LEVELS {
            return None;
        }
        let mut padded = [0; LEVELS];
        padded[..numbers.len()].copy_from_slice(numbers);
        Resource::from_prefix(&padded, numbers.len())
    }

    /// The level of the resource: 1 for a database, 2 for a file, 3 for a page, 4 for a record.
    pub fn level(&self) -> u8
        ensures { result ≡ length self.now }
    {
        self.level as u8
    }

    /// The parent: all numbers but the last. `None` for a database.
    pub fn parent(&self) -> Option<Resource>
        ensures some { IsSome result ↔ (has_parent self.now ≡ true) }
        ensures value { IfSome result (λ parent. parent ≡ parent_of self.now) }
    {
        if self.level <= 1 {
            return None;
        }
        let last = self.level - 1;
        let mut numbers = self.numbers;
        numbers[last as usize] = 0;
        Some(Resource {
            numbers,
            level: last,
        })
    }

    /// The resource of the first `level` of its numbers: an ancestor, or this resource itself.
    #[inline(always)]
    pub fn at_level(&self, level: usize) -> Resource
        requires some { 0 < level }
        requires within { level ≤ length self.now }
        ensures { result ≡ take level self.now }
    {
        Resource::prefix(&self.numbers, level)
    }

    /// Whether this resource is an ancestor of the other, at any height. No resource is its own ancestor.
    pub fn is_ancestor_of(&self, other: &Resource) -> bool
        ensures value { result ≡ is_ancestor self.now other.now }
        ensures relation { IsTrue result ↔ IsAncestor self.now other.now }
    {
        let numbers = self.numbers();
        let others = other.numbers();
        is_proper_prefix(numbers, others)
    }

    /// The numbers at `2k` and `2k + 1` in one word, the first in the lower half.
    fn word(&self, k: usize) -> u64
        requires { 2 * k < LEVELS }
        ensures { result ≡ word_at self.now k }
    {
        let lower = self.numbers[2 * k] as u64;
        let upper = if 2 * k + 1 < LEVELS {
            self.numbers[2 * k + 1] as u64
        } else {
            0
        };
        (upper << 32) + lower
    }

    /// The numbers on the path to the resource, from the top.
    pub fn numbers(&self) -> &[u32]
        ensures value { result.now ≡ self.now }
        ensures resource { IsResource self.now }
    {
        &self.numbers[..self.level as usize]
    }
}

/// Whether `others` begins with `numbers` and is longer.
fn is_proper_prefix(numbers: &[u32], others: &[u32]) -> bool
    ensures { result ≡ is_proper_prefix numbers.now others.now }
{
    let count = numbers.len();
    count < others.len() && numbers == &others[..count]
}

/// Feeds two numbers in each write, since most hashers multiply once for each write. The level is left out, so a resource
/// of an odd level has the hash of the one below it whose last number is 0. This is this project's own choice.
impl Hash for Resource {
    ghost use Rattle.lock_tree.specs.Hashes.{equal_hash_alike};

    ghost hash_input = { hash_input_of };

    ghost respects_eq = { equal_hash_alike };

    fn hash<H: Hasher>(&self, state: &mut H) {
        for k in 0..(self.level as usize + 1) / 2 {
            state.write_u64(self.word(k));
        }
    }
}

/// Writes the numbers in decimal, separated by `/`. The format is this project's own choice.
impl fmt::Display for Resource {
    ghost output = { λ r. Some (text_of r) };

    fn fmt<W: fmt::Write>(&self, f: &mut fmt::Formatter<W>) -> fmt::Result {
        let numbers = self.numbers();
        let first = numbers[0];
        write!(f, "{first}")?;
        for number in &numbers[1..] {
            write!(f, "/{number}")?;
        }
        Ok(())
    }
}
