//! Tests of sequential objects: each call of the traits once with success, of a counter, a queue, a map and a book; a board and an
//! office of a counter; calls and batches that are refused memory; and threads that share a counter, a queue and a map.
#![tactic(auto)]

#[cfg(test)]
mod asking;
#[cfg(test)]
mod boards;
#[cfg(test)]
mod bounded;
#[cfg(test)]
mod calls;
#[cfg(test)]
mod choices;
#[cfg(test)]
mod offices;
#[cfg(test)]
mod refusals;
#[cfg(test)]
mod threads;
