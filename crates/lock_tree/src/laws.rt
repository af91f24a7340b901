//! The laws of resources and of their text. Each is the contract of a function with an empty body.

ghost use Rattle.std.specs.Prelude.{◌≡◌, ℕ, ◌+◌, ◌/◌, ◌<◌, ◌≤◌, ◌^◌, ◌↔◌, ◌⊎◌, List, length, true, None, Ok, decimal};
ghost use Rattle.lock_tree.specs.Numerals.{fault_of_numeral, reading_of_numeral};
ghost use Rattle.lock_tree.specs.Paths.{IsResource, IsAncestor, IsLongestAncestor, is_ancestor, has_parent, parent_of, same_path, path_cmp};
ghost use Rattle.lock_tree.specs.Text.{text_of};
ghost use Rattle.lock_tree.specs.Faults.{fault_of};
ghost use Rattle.lock_tree.specs.Hashes.{hash_input_of};

use crate::levels::LEVELS;
use crate::resource::Resource;
use std::hash::Hash;

/// Two resources are the same exactly if all their numbers are, and `==` tests this.
pub fn same_path_is_equality()
    ensures numbers { (a b : List ℕ) → (same_path a b ≡ true) ↔ (a ≡ b) }
    ensures code { (a b : List ℕ) → ⟦<Resource as PartialEq>⟧.eq a b ≡ same_path a b }
{}

/// The texts without a numeral's fault are exactly the decimal texts of the numbers up to `greatest`, and each is read
/// as its number.
pub fn numerals_are_decimals()
    ensures faultless { (text : List ℕ) (greatest : ℕ) → greatest < 2 ^ 64
        → (fault_of_numeral greatest text ≡ None)
        ↔ ((n : ℕ) × (n ≤ greatest) × (text ≡ decimal n)) }
    ensures read { (text : List ℕ) (greatest n : ℕ) → greatest < 2 ^ 64
        → (reading_of_numeral greatest text ≡ Ok n) ↔ ((n ≤ greatest) × (text ≡ decimal n)) }
{}

/// The texts without a fault are exactly the texts of resources, and no two resources have the same text.
pub fn texts_are_of_resources()
    ensures faultless { (t : List ℕ)
        → (fault_of t ≡ None) ↔ ((r : List ℕ) × IsResource r × (text_of r ≡ t)) }
    ensures determined { (a b : List ℕ)
        → IsResource a → IsResource b → text_of a ≡ text_of b → a ≡ b }
{}

/// A resource has a parent exactly if it has an ancestor. The parent is the longest ancestor, and every other ancestor
/// is an ancestor of the parent.
pub fn parents_are_the_longest_ancestors()
    ensures test { (a r : List ℕ) → (is_ancestor a r ≡ true) ↔ IsAncestor a r }
    ensures some { (r : List ℕ)
        → (has_parent r ≡ true) ↔ ((a : List ℕ) × IsAncestor a r) }
    ensures longest { (r : List ℕ)
        → has_parent r ≡ true → IsLongestAncestor (parent_of r) r }
    ensures above { (a r : List ℕ)
        → IsAncestor a r → (a ≡ parent_of r) ⊎ IsAncestor a (parent_of r) }
{}

/// Equal resources hash alike, since what is fed to a hasher follows from the numbers. It is one write for every two
/// numbers that the resource has.
pub fn equal_resources_hash_alike()
    ensures alike { (a b : List ℕ) → same_path a b ≡ true
        → ⟦<Resource as Hash>⟧.hash_input a ≡ ⟦<Resource as Hash>⟧.hash_input b }
    ensures words { (r : List ℕ) → ⟦<Resource as Hash>⟧.hash_input r ≡ hash_input_of r }
    ensures writes { (r : List ℕ) → length (hash_input_of r) ≡ (length r + 1) / 2 }
{}

/// Resources are ordered number by number, and a prefix comes before what continues it.
pub fn order_is_by_numbers()
    ensures { (a b : List ℕ)
        → IsResource a → IsResource b → ⟦<Resource as Ord>⟧.cmp a b ≡ path_cmp a b }
{}
