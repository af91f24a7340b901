//! A session with a mode.

use lock_modes::Mode;

/// A session with a mode: the mode that it holds, or the target of its waiting request.
#[derive(Clone, Copy, Debug, PartialEq, Eq)]
pub struct SessionMode {
    /// The session, numbered from 1.
    pub session: u16,
    /// The held mode or the target.
    pub mode: Mode,
}
