//! Gates: hooks by which the caller of `run` delays, orders or stops the calls of the threads.

/// A hook before and after each call of a run. A caller that needs the calls of several threads in a certain order, or at
/// the same time, passes a gate of its own; the program passes `OpenGate`. Sessions are numbered from 1. The calls of a
/// session are numbered from 0, in the order of its rows.
pub trait Gate: Sync {
    /// Runs before the call is made. It may wait for a limited time. Returns false if the gate stayed shut; the
    /// thread of the session then stops, and the reason is the fault `GateShut`.
    fn enter(&self, session: u16, call: u64) -> bool;

    /// Runs after the answer to the call was collected.
    fn leave(&self, session: u16, call: u64);
}

/// A gate that is always open.
#[derive(Clone, Copy, Debug, Drop)]
pub struct OpenGate;

impl Gate for OpenGate {
    /// Lets every call through at once.
    fn enter(&self, _session: u16, _call: u64) -> bool {
        true
    }

    /// Does nothing.
    fn leave(&self, _session: u16, _call: u64) {}
}
