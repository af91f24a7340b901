//! Vector kernels over columns of bytes, such as the modes of a resource's holders, and over rows of words, such as the
//! rows of a waits-for graph.
//!
//! `columns.rt` has the kernels over bytes: whether and where one meets a mask, and a mark for each that does. `rows.rt` has those over words: or and and of two rows, and whether two rows have a common bit.
//!
//! Each kernel takes a chunk of items at a time, 16 bytes or 4 words, one in each lane of a vector, and then the tail
//! that fills no whole chunk, one item at a time.
//!
//! Proved: contracts speak of single items and hold for every length; two lists must have the same length. Only
//! measured: that a kernel is faster than a loop over single items. No kernel takes memory. The crate knows nothing of
//! modes or waits.
#![tactic(auto)]

pub use columns::{any_meets, first_meets, mark_meets};
pub use rows::{and_into, any_common, or_into};

mod columns;
mod rows;
