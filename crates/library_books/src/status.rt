//! The statuses that exports return. A status other than `OK` means that nothing was written and nothing has changed,
//! with three exceptions: `ELSEWHERE` of a pass may leave a pending call listed that was not, and empties the list of whom to wake;
//! `NOT_SERVED` and `NO_MEMORY` of a turn leave the call pending; and `COPIED` closes the session's handle.

/// The call succeeded.
pub const OK: u32 = 0;

/// Memory was refused. The caller may make the same call again.
pub const NO_MEMORY: u32 = 1;

/// The handle is closed.
pub const CLOSED: u32 = 2;

/// The book has no session with this number.
pub const NO_SUCH_SESSION: u32 = 3;

/// No kind of call has this number.
pub const NO_SUCH_OP: u32 = 4;

/// No resource has this level.
pub const NO_SUCH_LEVEL: u32 = 5;

/// No mode has this code.
pub const NO_SUCH_MODE: u32 = 6;

/// The handle is already open.
pub const OPEN: u32 = 7;

/// The number of sessions is not in 1 to `MAX_SESSIONS`, or a bound has a number that is 0 or too large.
pub const NO_SUCH_COUNT: u32 = 8;

/// The session has a pending call.
pub const PENDING: u32 = 9;

/// The session has no pending call.
pub const NOTHING_PENDING: u32 = 10;

/// The session knows no answer to its pending call.
pub const NOT_SERVED: u32 = 11;

/// The session has retired.
pub const RETIRED: u32 = 12;

/// Another session has the lock table.
pub const ELSEWHERE: u32 = 13;

/// The sessions have different marks, so they belong to different offices.
pub const OTHER_OFFICE: u32 = 14;

/// A session of the office was not handed in.
pub const MISSING: u32 = 15;

/// Another share of the office still exists, which means that a handle was copied.
pub const COPIED: u32 = 16;

/// A pointer is null and must not be.
pub const NULL_POINTER: u32 = 17;

/// The entry at this place of the history was let go. (18 is a status of the header's own functions.)
pub const LET_GO: u32 = 19;

/// The array has room for fewer sessions than the office has.
pub const NO_ROOM: u32 = 20;

/// A program begins with nothing that has this number.
pub const NO_SUCH_START: u32 = 21;

/// The level from which a program's path is to be locked isn't one of the path.
pub const NOT_ON_PATH: u32 = 22;

/// No mode has the code that a program has for the ancestors.
pub const NO_SUCH_ABOVE: u32 = 23;

/// The handle is a look at the lock table of an office, which this call would change.
pub const LOOKS: u32 = 28;

/// The handle is no look, but a book of its own. (24 is retired; 25 to 27 are statuses of the header's own functions.)
pub const NOT_A_LOOK: u32 = 29;
