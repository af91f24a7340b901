//! Counters of how waits end: of victims, and of the waits that their own sessions give up.

ghost use Rattle.std.specs.Prelude.{◌≡◌, ◌||◌, ◌==◌};
ghost use Rattle.lock_desk.specs.inner.WaitCounts.{up_if, with_victim, with_abort, with_restart};

/// Counters of victims and of the waits that ended with an abort or a restart of their own session.
///
/// They change only in calls that do one of these things. Their 64 bits hold whatever a history of 2^64 calls can bring about.
#[derive(Clone, Copy, Debug, PartialEq, Eq)]
pub struct WaitCounts {
    /// How many sessions were made deadlock victims.
    pub(crate) victims: u64,
    /// How many calls made victims.
    pub(crate) closing: u64,
    /// The place of the last call that made victims.
    pub(crate) last: u64,
    /// How many waits ended with an abort of their own session.
    pub(crate) aborted: u64,
    /// How many waits ended with a restart of their own session.
    pub(crate) restarted: u64,
}

/// One more, if the test holds.
#[inline(always)]
pub(crate) fn up_if(test: bool, count: u64) -> u64
    ensures { result ≡ up_if test count }
{
    if test { count.wrapping_add(1) } else { count }
}

impl WaitCounts {
    /// Counters of no wait.
    pub(crate) const NONE: WaitCounts = WaitCounts {
        victims: 0,
        closing: 0,
        last: 0,
        aborted: 0,
        restarted: 0,
    };

    /// The counters after one more victim, which the call at `place` made.
    pub(crate) fn with_victim(self, place: u64) -> WaitCounts
        ensures { result ≡ with_victim place self }
    {
        let closes = self.victims == 0 || self.last != place;
        WaitCounts {
            victims: self.victims.wrapping_add(1),
            closing: up_if(closes, self.closing),
            last: place,
            aborted: self.aborted,
            restarted: self.restarted,
        }
    }

    /// The counters after an abort of a session that waits, or doesn't.
    pub(crate) fn with_abort(self, waits: bool) -> WaitCounts
        ensures { result ≡ with_abort waits self }
    {
        WaitCounts {
            victims: self.victims,
            closing: self.closing,
            last: self.last,
            aborted: up_if(waits, self.aborted),
            restarted: self.restarted,
        }
    }

    /// The counters after a restart of a session that waits, or doesn't.
    pub(crate) fn with_restart(self, waits: bool) -> WaitCounts
        ensures { result ≡ with_restart waits self }
    {
        WaitCounts {
            victims: self.victims,
            closing: self.closing,
            last: self.last,
            aborted: self.aborted,
            restarted: up_if(waits, self.restarted),
        }
    }
}
