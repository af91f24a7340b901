//! The counters of a book.

ghost use Rattle.std.specs.Prelude.{◌≡◌, ◌<◌, ◌^◌, List, length};
ghost use Rattle.lock_rules.specs.Entries.{Entry as EntryValue};
ghost use Rattle.lock_rules.specs.Legal.{IsLegal};
ghost use Rattle.lock_rules.specs.Counts.{still_waiting};
ghost use Rattle.lock_desk.specs.Counts.{calls_of, refusals_of, counts_of};
ghost use Rattle.lock_desk.specs.inner.Counting.{AreCallsCounted, AreWaitsCounted};

use crate::book::Book;
use crate::call_counts::CallCounts;
use crate::counts::{Calls, Counts, Refusals};
use crate::wait_counts::WaitCounts;
use lock_rules::{Op, ReplyKind, Why};

/// The calls of each operation.
fn calls_of(counts: &CallCounts) -> Calls
    ensures { (history : List EntryValue) → AreCallsCounted history counts.now → length history < 2 ^ 64 → result ≡ calls_of history }
{
    Calls {
        begin: counts.called(Op::Begin),
        lock: counts.called(Op::Lock),
        convert: counts.called(Op::Convert),
        poll: counts.called(Op::Poll),
        release: counts.called(Op::Release),
        commit: counts.called(Op::Commit),
        abort: counts.called(Op::Abort),
        try_lock: counts.called(Op::Try),
        withdraw: counts.called(Op::Withdraw),
        restart: counts.called(Op::Restart),
    }
}

/// The refused calls, by reason.
fn refusals_of(counts: &CallCounts) -> Refusals
    ensures { (history : List EntryValue) → AreCallsCounted history counts.now → result ≡ refusals_of history }
{
    Refusals {
        already_open: counts.refused(Why::AlreadyOpen),
        no_transaction: counts.refused(Why::NoTransaction),
        is_waiting: counts.refused(Why::IsWaiting),
        is_doomed: counts.refused(Why::IsDoomed),
        nothing_asked: counts.refused(Why::NothingAsked),
        not_held: counts.refused(Why::NotHeld),
        parent_not_held: counts.refused(Why::ParentNotHeld),
        child_held: counts.refused(Why::ChildHeld),
        too_many_locks: counts.refused(Why::TooManyLocks),
        would_wait: counts.refused(Why::WouldWait),
        not_waiting: counts.refused(Why::NotWaiting),
    }
}

/// All counters of a history of `served` calls, with those of its calls and of the waits that ended, and how many sessions wait.
fn counts_told(calls: &CallCounts, ended: WaitCounts, waiting: u64, served: u64) -> Counts
    ensures { (history : List EntryValue) → IsLegal history → AreCallsCounted history calls.now → AreWaitsCounted history ended
        → waiting ≡ still_waiting history → served ≡ length history → result ≡ counts_of history }
{
    let granted_at_once = calls.requests_replied(ReplyKind::Granted);
    let requests_refused = calls.requests_replied(ReplyKind::Refused);
    let told_waiting = calls.requests_replied(ReplyKind::Waiting);
    let told_doomed = calls.requests_replied(ReplyKind::Deadlock);
    let waits_begun = told_waiting.saturating_add(told_doomed);
    let withdrawn = calls.replied(Op::Withdraw, ReplyKind::Withdrawn);
    let doomed_or_withdrawn = ended.victims.saturating_add(withdrawn);
    let own = ended.aborted.saturating_add(ended.restarted);
    let not_granted = doomed_or_withdrawn.saturating_add(own);
    let otherwise = not_granted.saturating_add(waiting);
    let waits_granted = waits_begun.saturating_sub(otherwise);
    let not_refused = granted_at_once.saturating_add(waits_begun);
    let requests = not_refused.saturating_add(requests_refused);
    Counts {
        calls: calls_of(calls),
        refusals: refusals_of(calls),
        requests,
        granted_at_once,
        requests_refused,
        waits_begun,
        waits_granted,
        victims: ended.victims,
        waits_withdrawn: withdrawn,
        waits_aborted: ended.aborted,
        waits_restarted: ended.restarted,
        waiting,
        deadlocks: ended.closing,
    }
}

impl Book {
    /// The counters of the history: calls by kind, requests and how they were answered, waits and how they ended, deadlocks and
    /// victims, refusals by reason. What was let go of the history is counted, too.
    ///
    /// They are kept on the way, so that this grows with `sessions()` alone: the sessions that wait are counted. That a book counts
    /// what it serves is this project's own.
    pub fn counts(&self) -> Counts
        ensures { result ≡ counts_of self.now.history }
    {
        // the length of the history fits into 64 bits
        let served = self.history.count();
        let ended = self.notes.log.counts();
        let waiting = self.lock_table.waiting();
        counts_told(&self.notes.counts, ended, waiting, served)
    }
}
