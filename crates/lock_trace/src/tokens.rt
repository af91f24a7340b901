//! The words of histories with the commas beside them, each at the front of 16 bytes, so that one move copies it.

ghost use Rattle.std.specs.Prelude.{◌≡◌, ◌≤◌, ◌++◌, [], ◌∷◌, take};
ghost use Rattle.lock_modes.specs.Codes.{name_of};
ghost use Rattle.lock_rules.specs.Kinds.{op_of_call, kind_of_reply, word_of, word_of_reply};

use crate::line::TOKEN_BYTES;
use lock_modes::Mode;
use lock_rules::{Call, Reply};

/// The word of the call's operation between commas, padded to 16 bytes, and its length with the commas.
#[inline(always)]
pub(crate) fn op_token(call: &Call) -> (&'static [u8; 16], usize)
    ensures text { take result.1 result.0.now ≡ 44 ∷ (word_of (op_of_call call.now) ++ 44 ∷ []) }
    ensures few { result.1 ≤ 10 }
{
    match call {
        Call::Begin => (b",begin,.........", 7),
        Call::Lock(_, _) => (b",lock,..........", 6),
        Call::Convert(_, _) => (b",convert,.......", 9),
        Call::Poll => (b",poll,..........", 6),
        Call::Release(_) => (b",release,.......", 9),
        Call::Commit => (b",commit,........", 8),
        Call::Abort => (b",abort,.........", 7),
        Call::Try(_, _) => (b",try,...........", 5),
        Call::Withdraw => (b",withdraw,......", 10),
        Call::Restart => (b",restart,.......", 9),
    }
}

/// The name of the mode, padded to 16 bytes, and its length.
#[inline(always)]
pub(crate) fn mode_token(mode: Mode) -> (&'static [u8; 16], usize)
    ensures text { take result.1 result.0.now ≡ name_of mode }
    ensures few { result.1 ≤ 3 }
{
    match mode {
        Mode::NL => (b"NL..............", 2),
        Mode::IS => (b"IS..............", 2),
        Mode::IX => (b"IX..............", 2),
        Mode::S => (b"S...............", 1),
        Mode::SIX => (b"SIX.............", 3),
        Mode::U => (b"U...............", 1),
        Mode::X => (b"X...............", 1),
    }
}

/// The word of the reply between commas, padded to 16 bytes, and its length with the commas.
#[inline(always)]
pub(crate) fn reply_token(reply: &Reply) -> (&'static [u8; 16], usize)
    ensures text { take result.1 result.0.now ≡ 44 ∷ (word_of_reply (kind_of_reply reply.now) ++ 44 ∷ []) }
    ensures few { result.1 ≤ 11 }
{
    match reply {
        Reply::Began(_) => (b",began,.........", 7),
        Reply::Granted(_) => (b",granted,.......", 9),
        Reply::Waiting => (b",waiting,.......", 9),
        Reply::Deadlock => (b",deadlock,......", 10),
        Reply::Clear => (b",clear,.........", 7),
        Reply::Released => (b",released,......", 10),
        Reply::Committed(_) => (b",committed,.....", 11),
        Reply::Aborted(_) => (b",aborted,.......", 9),
        Reply::Refused(_) => (b",refused,.......", 9),
        Reply::Withdrawn => (b",withdrawn,.....", 11),
        Reply::Restarted(_) => (b",restarted,.....", 11),
    }
}
