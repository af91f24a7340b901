//! What an answer notes of one more reply, and the reply that follows from what it has noted.

ghost use Rattle.std.specs.Prelude.{◌≡◌};
ghost use Rattle.lock_programs.specs.Fits.{goes_on_behind};
ghost use Rattle.lock_programs.specs.Answers.{done_with, stop_at, stop_reply};
ghost use Rattle.lock_programs.specs.inner.Noting.{began_after, ended_after, granted_after};

use crate::stop::Stop;
use lock_modes::Mode;
use lock_rules::{Call, Reply};

/// Whether a program goes on behind this reply: the call was granted or done.
#[inline(always)]
pub fn goes_on_behind(reply: &Reply) -> bool
    ensures { result ≡ goes_on_behind reply.now }
{
    !matches!(reply, Reply::Waiting | Reply::Deadlock | Reply::Refused(_))
}

/// The number of the transaction that was begun, after this reply.
#[inline(always)]
pub(crate) fn began_after(number: u64, reply: &Reply) -> u64
    ensures { result ≡ began_after number reply.now }
{
    match reply {
        Reply::Began(number) => *number,
        _ => number,
    }
}

/// How many locks were released as a transaction ended or restarted, after this reply.
#[inline(always)]
pub(crate) fn ended_after(locks: u32, reply: &Reply) -> u32
    ensures { result ≡ ended_after locks reply.now }
{
    match reply {
        Reply::Committed(locks) | Reply::Aborted(locks) | Reply::Restarted(locks) => *locks,
        _ => locks,
    }
}

/// The mode granted, after this reply.
#[inline(always)]
pub(crate) fn granted_after(mode: Mode, reply: &Reply) -> Mode
    ensures { result ≡ granted_after mode reply.now }
{
    match reply {
        Reply::Granted(mode) => *mode,
        _ => mode,
    }
}

/// Why the program stops at this reply.
#[inline(always)]
pub(crate) fn stop_after(reply: &Reply) -> Stop
    ensures { result ≡ stop_at reply.now }
{
    match reply {
        Reply::Waiting => Stop::Waits,
        Reply::Deadlock => Stop::IsVictim,
        Reply::Refused(why) => Stop::IsRefused(*why),
        _ => Stop::GoesOn,
    }
}

/// The reply to a call that was granted or done: `began` is the number of the transaction begun, `ended` how many locks were
/// released as one ended or restarted, `mode` the mode granted.
#[inline(always)]
pub(crate) fn done_with(began: u64, ended: u32, mode: Mode, call: &Call) -> Reply
    ensures { result ≡ done_with began ended mode call.now }
{
    match call {
        Call::Begin => Reply::Began(began),
        Call::Lock(_, _) | Call::Convert(_, _) | Call::Try(_, _) => Reply::Granted(mode),
        Call::Commit => Reply::Committed(ended),
        Call::Abort => Reply::Aborted(ended),
        Call::Poll => Reply::Clear,
        Call::Release(_) => Reply::Released,
        Call::Withdraw => Reply::Withdrawn,
        Call::Restart => Reply::Restarted(ended),
    }
}

/// The last reply, if it is `reply` where the program went on behind it.
#[inline(always)]
pub(crate) fn stop_reply(stop: Stop, reply: Reply) -> Reply
    ensures { result ≡ stop_reply stop reply }
{
    match stop {
        Stop::GoesOn => reply,
        Stop::Waits => Reply::Waiting,
        Stop::IsVictim => Reply::Deadlock,
        Stop::IsRefused(why) => Reply::Refused(why),
    }
}
