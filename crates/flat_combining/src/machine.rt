//! A state machine, which answers one call after another.

ghost use Rattle.std.specs.Prelude.{◌≡◌, ℕ, IfOk, OnErr};

use std::alloc::AllocError as NoMemory;

/// A state machine: from its state, each call of a session leads to a state and has a reply. Its state is what contracts see of it.
pub trait Machine: Drop {
    /// What a session may call.
    type Call: Copy;
    /// What it gets back.
    type Reply: Copy;

    // The state before the first call.
    ghost initial: { Self };

    // The state after a call of a session.
    ghost after: { Self → ℕ → Self.Call → Self };

    // The reply to a call of a session.
    ghost reply: { Self → ℕ → Self.Call → Self.Reply };

    // Some call, on which nothing relies.
    ghost any_call: { Self.Call };

    /// Answers a call of a session, numbered from 1. Fails with `NoMemory` if memory is refused; the state is unchanged then.
    fn step(&mut self, session: u16, call: Self::Call) -> Result<Self::Reply, NoMemory>
        ensures reply { IfOk result (λ given. given ≡ reply self.old session call) }
        ensures after { IfOk result (λ _. self.new ≡ after self.old session call) }
        ensures refused { OnErr result (self.new ≡ self.old) };
}
