//! The waits-for graph of sessions, and the search for its cycles, which are deadlocks. It knows nothing of locks or modes.
//!
//! A session is given by its position, which is its session number less 1. Begin with `rows.rt`: [`Rows`] holds the edges, pairs (t, u)
//! such that t waits for u, and its queries search walks along them. Below it are `matrix.rt` (the edges as bits), `circle_search.rt`
//! (the search with its memory), `search.rt` (its steps), `choice.rt` (the youngest) and `bits.rt` (rows of bits). `marks.rt` is a set of
//! sessions, `shortest_cycle.rt` writes out a cycle of a graph in order, `laws.rt` has the laws of edges and walks.
//!
//! [`Rows::youngest_on_circle`] searches depth first from the session that asks, and returns the youngest session on a cycle with it. It
//! keeps what it found, so the next victim of the same request seldom needs a search.
//!
//! Proved: each update changes exactly the edges that it names, and each query answers by walks, in every graph. Only measured: the
//! time of a search. Memory is taken by [`Rows::new`], [`Marks::new`] and [`CycleSearch::new`] alone.
#![tactic(auto)]

pub use marks::Marks;
pub use rows::Rows;
pub use shortest_cycle::CycleSearch;
pub use std::alloc::AllocError as NoMemory;

mod bits;
mod choice;
mod circle_search;
pub mod laws;
mod marks;
mod matrix;
mod rows;
mod search;
mod shortest_cycle;

/// The largest number of sessions of a [`Rows`]. This project's own limit.
pub const MAX_SESSIONS: u16 = 1024;
