//! The book: the lock table with the history of its calls.

ghost use Rattle.std.specs.Prelude.{◌≡◌, ◌≢◌, ℕ, ◌↔◌, ◌+◌, ◌-◌, ◌<◌, ◌≤◌, List, [], ◌∷◌, ◌++◌, length, min, Contains, slice_index, vec_len, IfOk, OnOk, OnErr};
ghost use Rattle.std.specs.List.{All};
ghost use Rattle.lock_rules.specs.State.{held_mode, holders, is_waiting};
ghost use Rattle.lock_rules.specs.Step.{step};
ghost use Rattle.lock_rules.specs.Ended.{ended_waits};
ghost use Rattle.lock_rules.specs.Waits.{waits_for};
ghost use Rattle.lock_rules.specs.Entries.{Entry as EntryValue};
ghost use Rattle.lock_rules.specs.Legal.{state_of, IsLegal};
ghost use Rattle.lock_rules.specs.Listing.{listing_of, waiting_line};
ghost use Rattle.lock_rules.specs.Laws.{DoesGrantStand, DoesDoomStand, DoesRequestStand};
ghost use Rattle.lock_rules.specs.Lawful.{IsLawfulState};
ghost use Rattle.lock_rules.specs.State.{empty};
ghost use Rattle.lock_table.specs.Changes.{IsWhole};
ghost use Rattle.lock_table.specs.Ready.{IsReadyTable};
ghost use Rattle.lock_table.specs.Shows.{Shows};
ghost use Rattle.lock_desk.specs.Batches.{ended_waits_beside};
ghost use Rattle.lock_desk.specs.BookView.{first_kept_by, kept_by};
ghost use Rattle.sequential.specs.Histories.{IsEntryWithin};

mod batches;
mod blockers;
mod counts;
mod deadlocks;
mod gauges;
mod memory;
mod pages;
mod paths;

use crate::call_counts::CallCounts;
use crate::deadlock_log::DeadlockLog;
use crate::notes::BookNotes;
use crate::recording::serve_recorded;
use lock_modes::Mode;
use lock_rules::{Call, Claim, Entry, MAX_SESSIONS, Reply, Transaction, laws};
use lock_table::LockTable;
use lock_tree::Resource;
pub use pages::pages_tell_each_lock_once;
pub use paths::{grants, lock_of_level};
use sequential::{MOST_DROPPED, NO_BOUND, TrimmedList};
use std::alloc::{AllocError as NoMemory, Global};
use std::marker::Model;

/// A lock table with the history of the calls that it has served.
///
/// Contracts see a book as its number of sessions, its history, which entries of the history are kept in memory: those
/// behind a cut, and of these the newest up to a bound, the sessions whose wait the last call has ended, and how many deadlocks are kept. The history is always legal: each reply is the one that the
/// sequential lock manager of `lock_rules` gives in the state that the earlier entries lead to. Entries that are let go stay
/// in the history that contracts see.
///
/// ```text
/// Book ── history: TrimmedList<Entry>
///  ├── notes: BookNotes ── the newest deadlocks and how waits ended; calls by operation and reply
///  └─ LockTable, in a box
/// ```
#[derive(Drop)]
pub struct Book {
    /// Sessions are numbered from 1 to this number, which is from 1 to `MAX_SESSIONS`.
    sessions: u16,
    /// Represents the state that the history leads to.
    lock_table: Box<LockTable>,
    /// All served calls with their replies, oldest first. Only those that are kept can be read from memory.
    history: TrimmedList<Entry>,
    /// What is noted of the served calls.
    notes: BookNotes,
}

/// An empty lock table, as `LockTable::new` makes it, in memory of its own. Fails if memory is refused.
fn boxed_table(alloc: Global, sessions: u16, seed: u64) -> Result<Box<LockTable>, NoMemory>
    requires some { 1 ≤ sessions }
    requires few { sessions ≤ MAX_SESSIONS }
    ensures shows { IfOk result (λ made. Shows made.value empty) }
    ensures whole { IfOk result (λ made. IsWhole made.value) }
    ensures ready { IfOk result (λ made. IsReadyTable made.value) }
    ensures lockers { IfOk result (λ made. vec_len made.value.lockers ≡ sessions) }
    ensures none { IfOk result (λ made. made.value.ended.count ≡ 0) }
{
    match Box::new(alloc, LockTable::new(alloc, sessions, seed)?) {
        Ok(made) => Ok(made),
        Err(_) => Err(NoMemory),
    }
}

/// One call of a batch, with its reply once it is served.
pub type Item = sequential::Item<Call, Reply>;

impl Model for Book {
    ghost use Rattle.lock_desk.specs.BookView.{BookView};
    ghost use Rattle.lock_desk.specs.inner.Invariant.{book_view_of, IsKept};

    ghost Value = { BookView };

    ghost view = { book_view_of };

    ghost invariant = { IsKept };
}

impl Book {
    /// Creates an empty lock table for sessions 1 to `sessions`.
    ///
    /// `sessions` is from 1 to `MAX_SESSIONS`, which is this project's own limit. Fails with `NoMemory` if memory is
    /// refused for the table.
    ///
    /// Resources are hashed with the seed 0: who knows that, and chooses the names of resources, can choose names that collide, and
    /// calls on them are dear. Where strangers choose names, use `with_seed`.
    pub fn new(alloc: Global, sessions: u16) -> Result<Book, NoMemory>
        requires some { 1 ≤ sessions }
        requires few { sessions ≤ MAX_SESSIONS }
        ensures sessions { IfOk result (λ book. book.sessions ≡ sessions) }
        ensures empty { IfOk result (λ book. book.history ≡ []) }
        ensures cut { IfOk result (λ book. book.cut ≡ 0) }
        ensures bound { IfOk result (λ book. book.bound ≡ NO_BOUND) }
        ensures ended { IfOk result (λ book. book.ended ≡ []) }
        ensures deadlocks { IfOk result (λ book. book.deadlocks ≡ 0) }
    {
        Book::with_seed(alloc, sessions, 0)
    }

    /// Creates an empty lock table as `new` does, whose resources are hashed with this seed. No reply and no history depends on it.
    ///
    /// With a seed that is drawn by chance and kept secret, who chooses names doesn't know which of them collide.
    pub fn with_seed(alloc: Global, sessions: u16, seed: u64) -> Result<Book, NoMemory>
        requires some { 1 ≤ sessions }
        requires few { sessions ≤ MAX_SESSIONS }
        ensures sessions { IfOk result (λ book. book.sessions ≡ sessions) }
        ensures empty { IfOk result (λ book. book.history ≡ []) }
        ensures cut { IfOk result (λ book. book.cut ≡ 0) }
        ensures bound { IfOk result (λ book. book.bound ≡ NO_BOUND) }
        ensures ended { IfOk result (λ book. book.ended ≡ []) }
        ensures deadlocks { IfOk result (λ book. book.deadlocks ≡ 0) }
    {
        let lock_table = boxed_table(alloc, sessions, seed)?;
        let log = DeadlockLog::none(alloc)?;
        Ok(Book {
            sessions,
            lock_table,
            history: TrimmedList::new(alloc),
            notes: BookNotes {
                log,
                counts: CallCounts::new(),
            },
        })
    }

    /// The number of sessions that was given at its creation, from 1 to `MAX_SESSIONS`.
    pub fn sessions(&self) -> u16
        ensures sessions { result ≡ self.now.sessions }
        ensures some { 1 ≤ result }
        ensures few { result ≤ MAX_SESSIONS }
    {
        self.sessions
    }

    /// The served calls with their replies that are kept, oldest first: all, unless some were let go.
    ///
    /// The whole history is legal. The state between any two calls is lawful: no two sessions ever have incompatible
    /// access to a resource, neither by a lock on the resource nor by a lock on an ancestor, and no request waits
    /// that is first in its queue and fits. A session keeps at least the mode that it was granted until it releases
    /// the lock or restarts, or its transaction ends. A victim stays doomed until it aborts or restarts. A request
    /// waits until it is granted, its session becomes a victim, or it withdraws, restarts or aborts. Which modes are
    /// compatible, and what a lock gives below its resource, is from Gray, Lorie, Putzolu and Traiger (1976), except
    /// for U, which is this project's own.
    pub fn history(&self) -> &[Entry]
        ensures history { result.now ≡ kept_by self.now }
        ensures all { self.now.cut ≡ 0 → self.now.bound ≡ NO_BOUND → result.now ≡ self.now.history }
        ensures legal { IsLegal self.now.history }
        ensures within { All (IsEntryWithin self.now.sessions) self.now.history }
        ensures lawful { (front rest : List EntryValue) → self.now.history ≡ front ++ rest → IsLawfulState (state_of front) }
        ensures grants { (front later rest : List EntryValue) → self.now.history ≡ front ++ later ++ rest → DoesGrantStand front later }
        ensures dooms { (front later rest : List EntryValue) → self.now.history ≡ front ++ later ++ rest → DoesDoomStand front later }
        ensures requests { (front later rest : List EntryValue) → self.now.history ≡ front ++ later ++ rest → DoesRequestStand front later }
    {
        laws::states_are_lawful();
        laws::grants_stand();
        laws::dooms_stand();
        laws::requests_stand();
        self.history.kept()
    }

    /// How many calls the book has served: the place that the next one gets in the history.
    pub fn served(&self) -> u64
        ensures count { result ≡ length self.now.history }
    {
        self.history.count()
    }

    /// The place of the first entry that `history` shows: how many entries were let go.
    pub fn first_kept(&self) -> u64
        ensures place { result ≡ first_kept_by self.now }
        ensures within { result ≤ length self.now.history }
    {
        self.history.first_kept()
    }

    /// How many entries of the history are kept at most, `NO_BOUND` unless `keep_at_most` has set a bound.
    pub fn bound(&self) -> u64
        ensures bound { result ≡ self.now.bound }
    {
        self.history.bound()
    }

    /// Lets go of the oldest `count` entries of the history that are kept, or of all that are if these are fewer, and
    /// returns how many they were. The history stays what it is, and their memory serves for later entries.
    pub fn let_go(&mut self, count: u64) -> u64
        ensures count { result ≡ min count (length self.old.history - first_kept_by self.old) }
        ensures cut { self.new ≡ record self.old { cut = first_kept_by self.old + result } }
    {
        self.history.let_go(count)
    }

    /// Keeps at most the newest `bound` entries of the history from now on, and lets go of older ones as calls are served.
    /// What was let go before doesn't come back. With a bound the memory of the history is that of at most four times as
    /// many entries.
    pub fn keep_at_most(&mut self, bound: u64)
        ensures bound { self.new ≡ record self.old { cut = first_kept_by self.old; bound = bound } }
    {
        self.history.keep_at_most(bound);
    }

    /// Hands out the entries of the history that are kept, the first of which is at the place `first_kept()`, and lets go of
    /// them: the next call of this kind hands out those that follow. The history stays what it is.
    ///
    /// Takes no memory, and moves no entry unless some were let go before. A book that has served more than `MOST_DROPPED`
    /// calls hands out none.
    pub fn take_history(&mut self, alloc: Global) -> Vec<Entry>
        ensures cut { self.new ≡ record self.old { cut = first_kept_by self.old + length result.items } }
        ensures all { length self.old.history ≤ MOST_DROPPED → result.items ≡ kept_by self.old }
        ensures none { MOST_DROPPED < length self.old.history → result.items ≡ [] }
    {
        self.history.take_kept(alloc)
    }

    /// The mode of the lock that `session` holds on `resource`, `None` if it holds none.
    ///
    /// Only an explicit lock counts, in the sense of Gray, Lorie, Putzolu and Traiger (1976): neither what a lock on
    /// an ancestor implies, nor the target of a waiting request. A session that the book doesn't have holds nothing.
    pub fn held(&self, session: u16, resource: Resource) -> Option<Mode>
        ensures { result ≡ held_mode (state_of self.now.history).table session resource }
    {
        self.lock_table.held(session, resource)
    }

    /// Whether `session` waits for `other` directly: whether the waits-for graph has this edge.
    ///
    /// It has the edge if `session` has a waiting request, and `other` holds the requested resource in a mode that
    /// conflicts with the request, or has a request ahead of it in the queue. With it, an engine reports who blocks
    /// whom. Returns false if the book has no such session.
    pub fn waits_for(&self, session: u16, other: u16) -> bool
        ensures { result ≡ waits_for (state_of self.now.history).table session other }
    {
        self.lock_table.waits_for(session, other)
    }

    /// The sessions whose wait the last served call or batch has ended: their waiting request was granted, or their
    /// transaction was made a deadlock victim. Each is there once, in no particular order.
    ///
    /// An engine wakes the threads of these sessions alone; a poll tells each of them which of the two it was. The session
    /// of the call itself isn't among them: its reply tells. After a batch or calls of `serve_on`: every session whose
    /// wait another session's call has ended, even if it waits again. A batch of which nothing was served leaves
    /// none, a call whose memory was refused leaves them as they were. That a call tells whose wait it ended is this project's
    /// own.
    pub fn ended(&self) -> &[u16]
        ensures ended { (u : ℕ) → Contains result.now u ↔ Contains self.now.ended u }
        ensures once { (j k : ℕ) → j < k → k < length result.now → slice_index result.now j ≢ slice_index result.now k }
    {
        self.lock_table.ended()
    }

    /// Replaces the contents of `list` by the sessions that hold `resource`, each with its mode, by session number.
    ///
    /// Fails with `NoMemory` if `list` would have to grow and memory is refused; its contents are unchanged then.
    pub fn holders(&self, resource: Resource, list: &mut Vec<(u16, Mode)>) -> Result<(), NoMemory>
        ensures ok { OnOk result (list.new.items ≡ holders resource (state_of self.now.history).table.held) }
        ensures err { OnErr result (list.new.items ≡ list.old.items) }
    {
        self.lock_table.holders(resource, list)
    }

    /// Replaces the contents of `list` by all locks and all waiting requests: resource by resource, in the order of
    /// resources; on each its holders by session number, then its queue in the order in which it is granted. Each line has
    /// the open transaction of its session, and a request has its target mode.
    ///
    /// An engine shows with it what its sessions hold and wait for. What a lock implies below its resource isn't listed. What
    /// a listing shows, and its order, is this project's own. Its cost grows with the number of lines, and with the number of
    /// resources as sorting them does. Fails with `NoMemory` if memory is refused; the contents of `list` are unchanged then.
    pub fn locks(&self, alloc: Global, list: &mut Vec<Claim>) -> Result<(), NoMemory>
        ensures ok { OnOk result (list.new.items ≡ listing_of (state_of self.now.history)) }
        ensures err { OnErr result (list.new.items ≡ list.old.items) }
    {
        self.lock_table.locks(alloc, list)
    }

    /// The open transaction of `session`, `None` if it has none: its number, and whether it is a deadlock victim that hasn't
    /// aborted yet. A session that the book doesn't have has none.
    pub fn transaction(&self, session: u16) -> Option<Transaction>
        ensures { result ≡ (state_of self.now.history).begun session }
    {
        self.lock_table.transaction(session)
    }

    /// The waiting request of `session` as a line of the listing, `None` if it doesn't wait: its resource, its target mode, and
    /// whether it is a conversion. A session that the book doesn't have doesn't wait.
    pub fn request(&self, session: u16) -> Option<Claim>
        ensures { result ≡ waiting_line (state_of self.now.history) session }
    {
        self.lock_table.waiting_request(session)
    }

    /// Whether a request of `session` waits. A session that the book doesn't have doesn't wait.
    pub fn is_waiting(&self, session: u16) -> bool
        ensures { result ≡ is_waiting (state_of self.now.history) session }
    {
        self.lock_table.is_waiting(session)
    }

    /// Serves one call of `session`, and adds the call with its reply to the history.
    ///
    /// The reply is the one that the sequential lock manager of `lock_rules` gives in the state that the history
    /// leads to. docs/RULES.md tells its rules, and which are from Gray, Lorie, Putzolu and Traiger (1976) and which
    /// are this project's own choice. `session` is from 1 to `sessions()`. `ended` tells whose wait the call has ended.
    ///
    /// Fails with `NoMemory` only if memory is refused. Every growth comes before the first change, so the book is
    /// unchanged then, and the same call may be made again. Begin, Poll, Release, Commit, Abort, Withdraw, Restart and refused
    /// calls need memory for the history alone.
    #[inline(always)]
    pub fn serve(&mut self, session: u16, call: Call) -> Result<Reply, NoMemory>
        requires some { 1 ≤ session }
        requires within { session ≤ self.old.sessions }
        ensures reply { let outcome = step (state_of self.old.history) session call in
            IfOk result (λ reply. reply ≡ outcome.reply) }
        ensures entry { IfOk result (λ reply. self.new ≡ record self.old {
          history = self.old.history ++ record { session = session; call = call; reply = reply } ∷ [];
          ended = ended_waits self.old.sessions session (state_of self.old.history) (step (state_of self.old.history) session call).state;
        }) }
        ensures err { OnErr result (self.new ≡ self.old) }
    {
        let waits_ended = self.lock_table.clear_ended();
        match serve_recorded(
            &mut *self.lock_table,
            &mut self.history,
            &mut self.notes,
            session,
            call,
        ) {
            Ok(reply) => Ok(reply),
            Err(refused) => {
                self.lock_table.restore_ended(waits_ended);
                Err(refused)
            }
        }
    }

    /// Serves one call of `session` as `serve` does, and goes on telling: `ended` tells the sessions that it told before, and
    /// those whose wait this call has ended. `session` is from 1 to `sessions()`.
    ///
    /// With it and `forget_ended`, several calls one after another tell together whose wait they have ended, as a batch does.
    /// Fails with `NoMemory` only if memory is refused. The book is unchanged then.
    pub fn serve_on(&mut self, session: u16, call: Call) -> Result<Reply, NoMemory>
        requires some { 1 ≤ session }
        requires within { session ≤ self.old.sessions }
        ensures reply { let outcome = step (state_of self.old.history) session call in
            IfOk result (λ reply. reply ≡ outcome.reply) }
        ensures entry { IfOk result (λ reply. self.new ≡ record self.old {
          history = self.old.history ++ record { session = session; call = call; reply = reply } ∷ [];
          ended = ended_waits_beside self.old.sessions self.old.ended session (state_of self.old.history) (step (state_of self.old.history) session call).state;
        }) }
        ensures err { OnErr result (self.new ≡ self.old) }
    {
        let reply = serve_recorded(
            &mut *self.lock_table,
            &mut self.history,
            &mut self.notes,
            session,
            call,
        )?;
        Ok(reply)
    }

    /// Forgets whose wait has ended: `ended` tells no session until the next call is served.
    #[inline(always)]
    pub fn forget_ended(&mut self)
        ensures { self.new ≡ record self.old { ended = [] } }
    {
        let _waits_ended = self.lock_table.clear_ended();
    }
}
