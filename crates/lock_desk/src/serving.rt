//! One call of the lock table: serves it by its kind, and counts it.

ghost use Rattle.std.specs.Prelude.{◌≡◌, ◌+◌, ◌-◌, ◌^◌, ◌<◌, ◌≤◌, List, [], ◌∷◌, ◌++◌, length, IfOk, OnErr, vec_len};
ghost use Rattle.lock_rules.specs.State.{State, is_waiting};
ghost use Rattle.lock_rules.specs.Entries.{Entry as EntryValue};
ghost use Rattle.lock_rules.specs.Step.{step};
ghost use Rattle.lock_rules.specs.Sound.{IsNumbered, IsSound};
ghost use Rattle.lock_table.specs.Deadlocks.{deadlocks_of, moments_at};
ghost use Rattle.lock_table.specs.Changes.{DoesKeep, MayServe, HasNotedEnded};
ghost use Rattle.lock_desk.specs.inner.Noting.{HasNoted, IsLogFor};
ghost use Rattle.lock_table.specs.Shows.{Shows, DoesAnswer};
ghost use Rattle.lock_desk.specs.inner.Counting.{with_own_wait, AreCallsCounted};

use crate::notes::BookNotes;
use lock_rules::{Call, Op, Reply};
use lock_table::LockTable;
use std::alloc::AllocError;

/// Serves one call of `session`, and notes the deadlocks that it makes, the wait that it gives up, and the call with its
/// reply; `served` is the place of the call in the history. If memory is refused, nothing that contracts see changes.
pub(crate) fn serve_call(
    table: &mut LockTable,
    session: u16,
    call: Call,
    served: u64,
    notes: &mut BookNotes,
) -> Result<Reply, AllocError>
    requires may_serve { MayServe session table.old }
    requires log { IsLogFor (vec_len table.old.lockers) notes.old.log }
    requires room { table.old.count < 18446744073709551615 }
    ensures step { (st : State) → IsSound st.table → IsNumbered st → Shows table.old st
        → IfOk result (DoesAnswer (step st session call) table.new) }
    ensures err { (st : State) → Shows table.old st → OnErr result (Shows table.new st) }
    ensures ended_kept { OnErr result (table.new.ended ≡ table.old.ended) }
    ensures waits_ended { HasNotedEnded session table.old table.new }
    ensures count { table.new.count ≤ table.old.count + 1 }
    ensures kept { DoesKeep table.old table.new }
    ensures log { IsLogFor (vec_len table.old.lockers) notes.new.log }
    ensures noted { (st : State) → IsSound st.table → IsNumbered st → Shows table.old st
        → IfOk result (λ _. HasNoted (moments_at served session (deadlocks_of st session call))
        (record notes.old.log { counts = with_own_wait (is_waiting st session) call notes.old.log.counts }) notes.new.log) }
    ensures unnoted { OnErr result (notes.new.log ≡ notes.old.log) }
    ensures counted { (history : List EntryValue) → AreCallsCounted history notes.old.counts → length history < 2 ^ 64 - 1
        → IfOk result (λ reply. AreCallsCounted (history ++ record { session = session; call = call; reply = reply } ∷ []) notes.new.counts) }
    ensures uncounted { OnErr result (notes.new.counts ≡ notes.old.counts) }
{
    match call {
        Call::Begin => {
            let reply = table.serve_begin(session);
            notes.counts.note(Op::Begin, &reply);
            Ok(reply)
        }
        Call::Lock(resource, mode) => {
            let reply = table.serve_lock(session, resource, mode, served, &mut notes.log)?;
            notes.counts.note(Op::Lock, &reply);
            Ok(reply)
        }
        Call::Convert(resource, mode) => {
            let reply = table.serve_convert(session, resource, mode, served, &mut notes.log)?;
            notes.counts.note(Op::Convert, &reply);
            Ok(reply)
        }
        Call::Poll => {
            let reply = table.serve_poll(session);
            notes.counts.note(Op::Poll, &reply);
            Ok(reply)
        }
        Call::Release(resource) => {
            let reply = table.serve_release(session, resource);
            notes.counts.note(Op::Release, &reply);
            Ok(reply)
        }
        Call::Commit => {
            let reply = table.serve_commit(session);
            notes.counts.note(Op::Commit, &reply);
            Ok(reply)
        }
        Call::Abort => {
            notes.log.count_abort(table.is_waiting(session));
            let reply = table.serve_abort(session);
            notes.counts.note(Op::Abort, &reply);
            Ok(reply)
        }
        Call::Try(resource, mode) => {
            let reply = table.serve_try(session, resource, mode, served, &mut notes.log)?;
            notes.counts.note(Op::Try, &reply);
            Ok(reply)
        }
        Call::Withdraw => {
            let reply = table.serve_withdraw(session);
            notes.counts.note(Op::Withdraw, &reply);
            Ok(reply)
        }
        Call::Restart => {
            notes.log.count_restart(table.is_waiting(session));
            let reply = table.serve_restart(session);
            notes.counts.note(Op::Restart, &reply);
            Ok(reply)
        }
    }
}
