//! A counter for several sessions.

ghost use Rattle.std.specs.Prelude.{◌≡◌};

use crate::machine::Machine;
use std::alloc::AllocError as NoMemory;
use std::marker::Model;

/// A counter modulo 2^64. A call adds an amount, and the reply is the value before.
#[derive(Drop)]
pub struct Counter {
    /// The value.
    value: u64,
}

impl Model for Counter {
    ghost use Rattle.std.specs.Prelude.{ℕ};

    ghost Value = { ℕ };

    ghost use Rattle.flat_combining.specs.declared.examples.counter.Counter.TheInside.{Inside};

    ghost view = { λ (counter : Inside). counter.value };
}

impl Counter {
    /// A counter at 0.
    pub fn new() -> Counter
        ensures { result ≡ 0 }
    {
        Counter { value: 0 }
    }
}

impl Machine for Counter {
    type Call = u32;

    type Reply = u64;

    ghost use Rattle.std.specs.Prelude.{◌+◌, ◌%◌, ◌^◌};

    ghost initial = { 0 };

    ghost after = { λ value _ amount. (value + amount) % 2 ^ 64 };

    ghost reply = { λ value _ _. value };

    ghost any_call = { 0 };

    fn step(&mut self, _session: u16, amount: u32) -> Result<u64, NoMemory> {
        let before = self.value;
        self.value = before.wrapping_add(u64::from(amount));
        Ok(before)
    }
}
