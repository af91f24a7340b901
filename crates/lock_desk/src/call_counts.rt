//! Counters of calls, by their operation and the kind of their reply, and of refusals, by their reason.

ghost use Rattle.std.specs.Prelude.{◌≡◌, ℕ, ◌+◌, ◌-◌, ◌%◌, ◌^◌, ◌<◌, ◌&&◌, ◌==◌, if◌then◌else◌, List, [], ◌∷◌, ◌++◌, length, slice_index_or};
ghost use Rattle.lock_rules.specs.Kinds.{number_of_kind, op_of_call};
ghost use Rattle.lock_rules.specs.Entries.{Entry as EntryValue};
ghost use Rattle.lock_rules.specs.declared.calls.Call.{Call as CallValue};
ghost use Rattle.lock_rules.specs.Counts.{count_if, is_kind, is_request, is_refusal_numbered, calls, replies, refusals};
ghost use Rattle.lock_rules.specs.CountTallies.{cell_of};
ghost use Rattle.lock_desk.specs.inner.Counting.{AreCallsCounted};

use lock_rules::{Op, Reply, ReplyKind, Why};

/// How many counters of replies an operation has: one for each kind of replies, by its number, and one that stays 0.
const KINDS: usize = 12;

/// How many counters of replies there are: those of each operation, by its number, and some that stay 0.
const CELLS: usize = 11 * KINDS;

/// How many counters of refusals there are: one for each reason, by its number, and two that stay 0.
const REASONS: usize = 13;

/// Counters of the calls of a history.
///
/// A call that isn't refused costs one increment, one that is refused two. The counters have 64 bits, so they hold as many calls as a
/// history can have.
#[derive(Clone, Copy)]
pub struct CallCounts {
    /// How many calls of each operation got each kind of replies.
    replies: [u64; CELLS],
    /// How many calls were refused for each reason.
    refusals: [u64; REASONS],
}

/// The index of a counter of replies.
#[tactic(auto, using(lock_rules::proofs::CountNumbers::op_few, lock_rules::proofs::CountNumbers::kind_few))]
#[inline(always)]
fn cell(op: Op, kind: ReplyKind) -> usize
    ensures cell { result ≡ cell_of op (number_of_kind kind) }
    ensures few { result < 132 }
{
    op.number() as usize * KINDS + kind.number() as usize
}

impl CallCounts {
    /// Counters of no calls.
    pub(crate) fn new() -> CallCounts
        ensures { AreCallsCounted [] result }
    {
        CallCounts {
            replies: [0; CELLS],
            refusals: [0; REASONS],
        }
    }

    /// Counts a call of this operation with a reply of this kind.
    #[inline(always)]
    fn note_reply(&mut self, op: Op, kind: ReplyKind)
        ensures counted { (n : ℕ) → slice_index_or self.new.replies n 0
            ≡ (if n == cell_of op (number_of_kind kind) then (slice_index_or self.old.replies n 0 + 1) % 2 ^ 64 else slice_index_or self.old.replies n 0) }
        ensures others { self.new ≡ record self.old { replies = self.new.replies } }
    {
        let at = cell(op, kind);
        self.replies[at] = self.replies[at].wrapping_add(1);
    }

    /// Counts a refusal, if the reply is one.
    #[inline(always)]
    fn note_refusal(&mut self, reply: &Reply)
        ensures counted { (n : ℕ) → n < 13 → slice_index_or self.new.refusals n 0
            ≡ (if is_refusal_numbered n reply.now then (slice_index_or self.old.refusals n 0 + 1) % 2 ^ 64 else slice_index_or self.old.refusals n 0) }
        ensures others { self.new ≡ record self.old { refusals = self.new.refusals } }
    {
        match reply {
            Reply::Refused(why) => {
                let at = why.number() as usize;
                self.refusals[at] = self.refusals[at].wrapping_add(1);
            }
            Reply::Began(_) | Reply::Granted(_) | Reply::Waiting | Reply::Deadlock => {}
            Reply::Clear | Reply::Released | Reply::Committed(_) | Reply::Aborted(_) => {}
            Reply::Withdrawn | Reply::Restarted(_) => {}
        }
    }

    /// Counts one call more, of this operation and with this reply.
    // Who knows the operation when it compiles pays for no test of the call.
    #[inline(always)]
    pub(crate) fn note(&mut self, op: Op, reply: &Reply)
        ensures { (history : List EntryValue) (session : ℕ) (call : CallValue) → op ≡ op_of_call call
            → AreCallsCounted history self.old → length history < 2 ^ 64 - 1
            → AreCallsCounted (history ++ record { session = session; call = call; reply = reply.now } ∷ []) self.new }
    {
        self.note_reply(op, reply.kind());
        self.note_refusal(reply);
    }

    /// How many calls of this operation got a reply of this kind.
    pub(crate) fn replied(&self, op: Op, kind: ReplyKind) -> u64
        ensures { (history : List EntryValue) → AreCallsCounted history self.now → result ≡ replies op kind history }
    {
        self.replies[cell(op, kind)]
    }

    /// How many calls of this operation there were.
    pub(crate) fn called(&self, op: Op) -> u64
        ensures { (history : List EntryValue) → AreCallsCounted history self.now → length history < 2 ^ 64 → result ≡ calls op history }
    {
        let first = op.number() as usize * KINDS;
        let mut total: u64 = 0;
        for number in 0..KINDS {
            total = total.saturating_add(self.replies[first + number]);
        }
        total
    }

    /// How many calls were refused for this reason.
    pub(crate) fn refused(&self, why: Why) -> u64
        ensures { (history : List EntryValue) → AreCallsCounted history self.now → result ≡ refusals why history }
    {
        self.refusals[why.number() as usize]
    }

    /// How many requests for locks got a reply of this kind.
    pub(crate) fn requests_replied(&self, kind: ReplyKind) -> u64
        ensures { (history : List EntryValue) → AreCallsCounted history self.now → length history < 2 ^ 64
            → result ≡ count_if (λ e. is_request e && is_kind kind e) history }
    {
        let lock = self.replied(Op::Lock, kind);
        let convert = self.replied(Op::Convert, kind);
        let tried = self.replied(Op::Try, kind);
        lock.saturating_add(convert).saturating_add(tried)
    }
}
