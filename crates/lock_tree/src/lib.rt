//! Resources, which are the nodes of the lock tree, their text, and the reader of decimal numerals.
//!
//! A resource is a path of 1 to [`LEVELS`] numbers; its text is `1/4/20`, say. `resource.rt` has the type with its
//! parent, ancestors, order, hash and text; `piece.rt` reads the number between two `/`, `numeral.rt` any decimal
//! numeral without leading zeros; `path_fault.rt` names what is wrong with a text; `laws.rt` has the laws.
//!
//! [`Resource::parse`] reads the text piece by piece. It notes the first fault and reads on, since a text that is too
//! deep is reported as such, whatever its pieces are.
//!
//! Proved: a text is read exactly if it is the text of a resource, as that resource, and every other text gets the
//! fault that the rule names; resources are equal, ordered and hashed by their numbers. Only tested: the names of the
//! faults, and that a resource takes at most 24 bytes. No call takes memory.
#![tactic(auto)]

mod laws;
mod levels;
mod numeral;
mod path_fault;
mod piece;
mod resource;

pub use laws::{
    equal_resources_hash_alike, numerals_are_decimals, order_is_by_numbers,
    parents_are_the_longest_ancestors, same_path_is_equality, texts_are_of_resources,
};
pub use levels::LEVELS;
pub use numeral::{NumeralFault, parse_numeral};
pub use path_fault::PathFault;
pub use resource::Resource;
