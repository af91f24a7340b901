//! Why a state of the lock table wasn't shown, calls of a history weren't explained, or a history wasn't drawn.

use lock_trace::TraceFault;
use thiserror::Error;

/// Why `show`, `explain` or `timeline` failed. The program prints its text on standard error after `glm: `, except that a row that failed for the
/// device or for memory is printed like `Device` or `NoMemory`, without its number.
#[derive(Clone, Copy, Debug, Drop, PartialEq, Eq, Error)]
pub enum ShowFault {
    /// A row of the history was refused, or couldn't be read.
    #[error("{0}")]
    Trace(TraceFault),
    /// The place that was asked for isn't in the history.
    #[error("no place {place}: the history has {entries} entries")]
    NoPlace {
        /// The place that was asked for.
        place: u64,
        /// The number of entries of the history, which is the last place.
        entries: u64,
    },
    /// Memory was refused.
    #[error("out of memory")]
    NoMemory,
    /// The writer failed.
    #[error("device")]
    Device,
}
