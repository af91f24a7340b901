//! What a session's handle holds.

ghost use Rattle.std.specs.Prelude.{◌≡◌, ◌≤◌, All, false, is_some};
ghost use Rattle.lock_rules.specs.declared.calls.TheConstants.{MAX_SESSIONS};
ghost use Rattle.lock_office.specs.Sessions.{IsSessionOf, HasNothingPending};

use lock_desk::Book;
use lock_office::{Office, PassBound, Session, Ticket, WithSeen, WokenSet};
use programs::Programs;
use publication::Load;
use std::sync::Arc;

/// A session and its share of the office.
#[derive(Drop)]
pub struct SessionShare {
    /// The office, which all shares of its sessions own together.
    pub office: Arc<Office>,
    /// The handle's session.
    pub session: Session,
    /// The sessions that were handed in to this one.
    pub handed: Vec<Ticket>,
    /// The number of sessions of the office.
    pub sessions: u16,
    /// The caller's number for the office. The caller gives no two open offices the same.
    pub mark: u64,
    /// The address of what wakes the office's sessions, for the caller alone.
    pub waker: u64,
    /// How much a pass in a whole call of the session serves at most.
    pub bound: PassBound,
    /// The sessions whose wait the session's last pass has ended.
    pub told: WithSeen<WokenSet>,
    /// The lock table of the office, while the session looks at it.
    pub looking: Option<Box<Load<Programs<Book>>>>,
    ghost ours: { is_some looking ≡ false → IsSessionOf office.value session },
    ghost theirs: { All (λ one. IsSessionOf office.value one × HasNothingPending one) handed.items },
    ghost count: { sessions ≡ office.value.sessions },
    ghost few: { sessions ≤ MAX_SESSIONS },
    ghost telling: { told.listener.room ≡ sessions },
}
