//! A machine with a law.

ghost use Rattle.std.specs.Prelude.{ℕ};

use crate::machine::Machine;

/// A machine with a law: what holds of the initial state and is kept by each call, and so holds behind every history.
pub trait Lawful: Machine {
    // What holds of a state.
    ghost holds: { Self → Type 0 };

    // It holds of the initial state.
    ghost initially: { holds Self.initial };

    // Each call keeps it.
    ghost kept: { (state : Self) (session : ℕ) (call : Self.Call) → holds state → holds (Self.after state session call) };
}
