//! The entries of a history, and the items of a batch.

ghost use Rattle.std.specs.Prelude.{◌≡◌, ◌≤◌, true, false, All};
ghost use Rattle.sequential.specs.Batches.{IsItemWithin};

/// The greatest number of sessions of one object. Sessions are numbered from 1.
pub const MAX_SESSIONS: u16 = 1024;

/// One call of one session, with its reply. A list of entries, oldest first, is a history.
#[derive(Clone, Copy, Debug, PartialEq, Eq, Hash)]
pub struct Entry<C, R> {
    /// The session that called, numbered from 1.
    pub session: u16,
    /// What it called.
    pub call: C,
    /// The reply to it.
    pub reply: R,
}

/// One call of a batch, with its reply once it is served.
#[derive(Clone, Copy, Debug, PartialEq, Eq, Hash)]
pub struct Item<C, R> {
    /// The session that calls, from 1 to the number of sessions.
    pub session: u16,
    /// The call to serve.
    pub call: C,
    /// Where the reply is written. What is there before is not read.
    pub reply: Option<R>,
}

/// Whether the session of each item is from 1 to `sessions`, as batches need it.
pub fn are_within<C: Copy, R: Copy>(items: &[Item<C, R>], sessions: u16) -> bool
    ensures yes { result ≡ true → All (IsItemWithin sessions) items.now }
    ensures no { result ≡ false → ¬ (All (IsItemWithin sessions) items.now) }
{
    for item in items {
        if item.session < 1 || sessions < item.session {
            return false;
        }
    }
    true
}
