//! Where a session is in a list of session numbers that increases.

ghost use Rattle.std.specs.Prelude.{◌≤◌, length};
ghost use Rattle.lock_holders.specs.inner.Columns.{DoRise, AreBelow, AreNotBelow};

use crate::holder_columns::SHORT;

/// The number of sessions below `session`, found one by one. `sessions` increases.
fn rank_among_few(sessions: &[u16], session: u16) -> usize
    requires rising { DoRise sessions.now }
    ensures within { result ≤ length sessions.now }
    ensures below { AreBelow session result sessions.now }
    ensures others { AreNotBelow session result sessions.now }
{
    for index in 0..sessions.len() {
        let here = sessions[index];
        if here >= session {
            return index;
        }
    }
    sessions.len()
}

/// The number of sessions below `session`, found by binary search. `sessions` increases.
fn rank_among_many(sessions: &[u16], session: u16) -> usize
    requires rising { DoRise sessions.now }
    ensures within { result ≤ length sessions.now }
    ensures below { AreBelow session result sessions.now }
    ensures others { AreNotBelow session result sessions.now }
{
    let mut low = 0;
    let mut high = sessions.len();
    while low < high {
        let middle = low + (high - low) / 2;
        if sessions[middle] < session {
            low = middle + 1;
        } else {
            high = middle;
        }
    }
    low
}

/// The number of sessions below `session`. `sessions` increases.
pub(crate) fn rank(sessions: &[u16], session: u16) -> usize
    requires rising { DoRise sessions.now }
    ensures within { result ≤ length sessions.now }
    ensures below { AreBelow session result sessions.now }
    ensures others { AreNotBelow session result sessions.now }
{
    if sessions.len() > SHORT {
        rank_among_many(sessions, session)
    } else {
        rank_among_few(sessions, session)
    }
}
