//! One call with its entry: serves it in the lock table, and adds it with its reply to the history.

ghost use Rattle.std.specs.Prelude.{◌≡◌, ℕ, ◌≤◌, ◌||◌, [], ◌∷◌, ◌++◌, IfOk, OnErr, vec_len};
ghost use Rattle.lock_rules.specs.Step.{step};
ghost use Rattle.lock_rules.specs.Ended.{has_ended};
ghost use Rattle.lock_rules.specs.Legal.{state_of};
ghost use Rattle.lock_desk.specs.Deadlocks.{AreDeadlocksTold, deadlocks_in, newest};
ghost use Rattle.lock_holders.specs.Woken.{is_ended};
ghost use Rattle.lock_desk.specs.inner.Counting.{AreCallsCounted, AreWaitsCounted};
ghost use Rattle.lock_desk.specs.inner.Noting.{IsLogFor};
ghost use Rattle.lock_desk.specs.inner.Served.{AreKept};

use crate::notes::BookNotes;
use crate::serving::serve_call;
use lock_rules::{Call, Entry, Reply};
use lock_table::LockTable;
use sequential::TrimmedList;
use std::alloc::AllocError;

/// Serves one call of `session`, adds the call with its reply to the history, and lists the other sessions whose wait it has
/// ended, notes the deadlocks that it made, and counts it. If memory is refused, history, list, log and counters are unchanged, and
/// nothing that contracts see of the table changes.
#[inline(always)]
pub(crate) fn serve_recorded(
    table: &mut LockTable,
    history: &mut TrimmedList<Entry>,
    notes: &mut BookNotes,
    session: u16,
    call: Call,
) -> Result<Reply, AllocError>
    requires some { 1 ≤ session }
    requires within { session ≤ vec_len table.old.lockers }
    requires kept { AreKept table.old history.old.items }
    requires log { IsLogFor (vec_len table.old.lockers) notes.old.log }
    requires told { AreDeadlocksTold (newest notes.old.log.most (deadlocks_in history.old.items)) notes.old.log.told }
    requires calls { AreCallsCounted history.old.items notes.old.counts }
    requires waits { AreWaitsCounted history.old.items notes.old.log.counts }
    ensures kept { AreKept table.new history.new.items }
    ensures lockers { vec_len table.new.lockers ≡ vec_len table.old.lockers }
    ensures cut { history.new.cut ≡ history.old.cut }
    ensures bound { history.new.bound ≡ history.old.bound }
    ensures reply { let outcome = step (state_of history.old.items) session call in
        IfOk result (λ reply. reply ≡ outcome.reply) }
    ensures entry { IfOk result (λ reply. history.new.items
        ≡ history.old.items ++ record { session = session; call = call; reply = reply } ∷ []) }
    ensures ended { let outcome = step (state_of history.old.items) session call in
        IfOk result (λ _. (u : ℕ) → is_ended table.new.ended u
        ≡ (is_ended table.old.ended u || has_ended session (state_of history.old.items) outcome.state u)) }
    ensures err { OnErr result (history.new.items ≡ history.old.items) }
    ensures ended_kept { OnErr result (table.new.ended ≡ table.old.ended) }
    ensures most { notes.new.log.most ≡ notes.old.log.most }
    ensures log { IsLogFor (vec_len table.new.lockers) notes.new.log }
    ensures told { AreDeadlocksTold (newest notes.new.log.most (deadlocks_in history.new.items)) notes.new.log.told }
    ensures calls { AreCallsCounted history.new.items notes.new.counts }
    ensures waits { AreWaitsCounted history.new.items notes.new.log.counts }
{
    history.reserve(1)?;
    let asked = call;
    let served = history.count();
    let reply = serve_call(table, session, call, served, notes)?;
    history.push_reserved(Entry {
        session,
        call: asked,
        reply,
    });
    Ok(reply)
}
