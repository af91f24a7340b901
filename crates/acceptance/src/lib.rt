//! Tests of what the bytes of the built program don't show: readers and writers that fail, gates, threads, and the results of
//! the public calls. Cases of the program itself are in `checks/`.
#![tactic(auto)]

#[cfg(test)]
mod call_gates;
#[cfg(test)]
mod examples;
#[cfg(test)]
mod harness;
#[cfg(test)]
mod hints;
#[cfg(test)]
mod pieces;
#[cfg(test)]
mod reader_faults;
#[cfg(test)]
mod runs_in_pieces;
#[cfg(test)]
mod threaded_runs;
#[cfg(test)]
mod writer_faults;
