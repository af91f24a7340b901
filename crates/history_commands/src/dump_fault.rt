//! Why a dump wasn't shown.

use thiserror::Error;

/// Why `show_dump` failed. The program prints its text on standard error after `glm: `.
#[derive(Clone, Copy, Debug, Drop, PartialEq, Eq, Error)]
pub enum DumpFault {
    /// With the row of this number, counted from 1, the rows aren't the beginning of those of any state, or it has no line feed.
    #[error("row {0}: State")]
    Row(u64),
    /// Memory was refused.
    #[error("out of memory")]
    NoMemory,
    /// The reader failed.
    #[error("device")]
    Unread,
    /// The writer failed.
    #[error("device")]
    Device,
}
