//! The command `run` of `glm`: performs a trace by threads, and writes the history that came about, whole or in pieces.
//!
//! A run has a thread for each session with rows (`threads.rt`, `workers.rt`), whose calls pass a gate (`call_gate.rt`).
//! `running.rt` writes the whole history at the end, `running_in_pieces.rt` writes it meanwhile (by `streaming.rt`,
//! `pacing.rt`).
//!
//! Proved: what is written, with the result, for every input, also after a fault. Only tested: when a history is written in
//! pieces. Not claimed: that a run on threads returns.
#![tactic(auto)]

mod call_gate;
mod pacing;
mod running;
mod running_in_pieces;
mod streaming;
mod threads;
mod workers;

pub use call_gate::{Gate, OpenGate};
pub use running::run;
pub use running_in_pieces::run_in_pieces;
