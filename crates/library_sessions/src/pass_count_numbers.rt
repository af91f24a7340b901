//! What the passes of an office have served in numbers, as C's struct has them.

/// What the passes of an office have served so far. A round of a bounded pass counts as a pass. Each number stops at the greatest u64.
#[repr(C)]
#[derive(Clone, Copy)]
pub struct PassCountNumbers {
    /// How many passes were made.
    pub made: u64,
    /// How many published calls and programs they served. What a session performs at once is not among them.
    pub served: u64,
    /// How many of them put calls back, because memory was refused.
    pub starved: u64,
}

/// What passes have served of a book, which has none.
pub const NO_PASSES: PassCountNumbers = PassCountNumbers {
    made: 0,
    served: 0,
    starved: 0,
};
