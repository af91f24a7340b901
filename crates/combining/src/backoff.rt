//! How a session waits between two turns of `call` and `resume`, and which of them try for the object. Each number stands here, with its
//! reason; bench/README.md has the figures. No contract rests on them.

ghost use Rattle.std.specs.Prelude.{◌≡◌, true};

use std::{hint, thread};

/// The looks for an answer between two tries to become the combiner, since each try takes a cache line from it.
const LOOKS_PER_TRY: u64 = 8;

/// The pause instructions between two looks.
const PAUSES: u32 = 256;

/// The looks between two yields of the processor.
const LOOKS_PER_YIELD: u64 = 64;

/// Whether a look for an answer, of which `looked` came before, tries for the object: the first one does.
pub fn tries_at(looked: u64) -> bool
    ensures { looked ≡ 0 → result ≡ true }
{
    looked % LOOKS_PER_TRY == 0
}

/// Waits after a look for an answer, of which `looked` came before: yields the processor after every `LOOKS_PER_YIELD` looks, and pauses
/// after the others.
pub fn back_off(looked: u64) {
    if looked % LOOKS_PER_YIELD == LOOKS_PER_YIELD - 1 {
        thread::yield_now();
        return;
    }
    for _pause in 0..PAUSES {
        hint::spin_loop();
    }
}
