//! The locks of one session of a book: how many they are, and pages of them.

ghost use Rattle.std.specs.Prelude.{◌≡◌, ℕ, ◌≤◌, List, Option, take, length, OnOk, OnErr};
ghost use Rattle.lock_rules.specs.Entries.{Entry as EntryValue};
ghost use Rattle.lock_rules.specs.State.{claims_of};
ghost use Rattle.lock_rules.specs.Legal.{state_of};
ghost use Rattle.lock_desk.specs.Pages.{locks_of, AreLocksTold, DoPagesTell, Look};

use crate::book::Book;
use lock_rules::{Claim, MAX_LOCKS};
use lock_tree::Resource;
use std::alloc::{AllocError as NoMemory, Global};

/// The locks of a session by pages: what one look tells, and what pages that are read one after another tell.
///
/// `locks_of` tells exactly the locks of the session behind a resource, and all its locks are as many as `locks_held` says.
/// Pages that are read one after another, each behind the last lock of the page before, tell no resource twice, whatever is
/// called between the looks. Once a page is short, each lock that the session held at all these looks was told exactly once,
/// even if its mode changed. Each line told is a lock at its own look. A lock that was taken or released between two looks may
/// be told or not.
pub fn pages_tell_each_lock_once()
    ensures look { (history : List EntryValue) (session : ℕ) → AreLocksTold (state_of history) session }
    ensures looks { (session : ℕ) (after : Option (List ℕ)) (looks : List Look) → DoPagesTell session after looks }
{}

impl Book {
    /// How many locks `session` holds, at most `MAX_LOCKS`. A session that the book doesn't have holds none.
    ///
    /// An engine asks it to escalate in time: a lock beyond `MAX_LOCKS` is refused. Its cost is constant.
    pub fn locks_held(&self, session: u16) -> usize
        ensures count { result ≡ length (claims_of session (state_of self.now.history).table.held) }
        ensures few { result ≤ MAX_LOCKS }
    {
        self.lock_table.locks_held(session)
    }

    /// Replaces the contents of `list` by the first `most` locks of `session` on resources that come behind `after`, in the order of
    /// resources; behind `None` all resources come. Each line is as in `locks`. Waiting requests aren't among them: `request` tells
    /// that of a session. A session that the book doesn't have holds none.
    ///
    /// The resource of the last line is the `after` of the next page, and a page of fewer than `most` lines is the last one.
    /// `pages_tell_each_lock_once` says what pages tell together when calls are served between them. Pages by key are as in
    /// databases, which call this keyset pagination.
    ///
    /// Its cost grows with the locks of the session, at most `MAX_LOCKS`, as sorting those behind `after` does, and with the length of the
    /// page. It doesn't grow with the number of locks in the table. Fails with `NoMemory` if memory is refused; the contents of `list` are
    /// unchanged then.
    pub fn locks_of(
        &self,
        alloc: Global,
        session: u16,
        after: Option<Resource>,
        most: usize,
        list: &mut Vec<Claim>,
    ) -> Result<(), NoMemory>
        ensures ok { OnOk result (list.new.items ≡ take most (locks_of (state_of self.now.history) session after)) }
        ensures err { OnErr result (list.new.items ≡ list.old.items) }
    {
        self.lock_table.locks_of(alloc, session, after, most, list)
    }
}
