//! Why a program stops.

use lock_rules::Why;

/// Why a program stopped at its last reply.
#[derive(Clone, Copy, Debug, PartialEq, Eq)]
pub enum Stop {
    /// It didn't: its last call was granted or done, or none was served.
    GoesOn,
    /// The request waits.
    Waits,
    /// The transaction was chosen as a deadlock victim.
    IsVictim,
    /// The call was refused.
    IsRefused(Why),
}
