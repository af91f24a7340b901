//! A pass in which the combiner performs a call of its own session, without its record, and tells whose waits the calls have ended.

ghost use Rattle.std.specs.Prelude.{◌≡◌, ◌+◌, ◌*◌, ◌<◌, ◌≤◌, true, false, None, IfSome, IfNone, length};
ghost use Rattle.combining.specs.Sessions.{IsIdle};
ghost use Rattle.combining.specs.inner.OwnCalls.{IsOwnEntered, IsPassWithOwn};
ghost use Rattle.combining.specs.inner.Passes.{IsAtWork, HasPassed, HasServed};
ghost use Rattle.combining.specs.Woken.{HasAddedTold, HasRoom, entered_since};
ghost use Rattle.combining.specs.Rounds.{IsBound, IsUnmet};

use crate::bounds::PassBound;
use crate::listener::Listener;
use crate::rounds::{Pass, make_rounds};
use publication::{Board, Load, Ticket};
use sequential::Batching;

/// Performs a call of the combiner's own session, which has not published it, and enters it into the history. Returns its
/// place in the history and the reply; `None`, with nothing changed, if memory is refused.
#[inline(always)]
fn perform_own<O: Batching>(
    board: &Board<O>,
    session: &mut Ticket<O>,
    load: &mut Load<O>,
    call: &O::Call,
) -> Option<(u64, O::Reply)>
    requires work { IsAtWork O.Sequential board.now session.old load.old }
    requires idle { IsIdle session.old }
    ensures some { IfSome result (λ r. IsOwnEntered session.old session.new call.now r.0 r.1) }
    ensures none { IfNone result (session.new ≡ session.old) }
    ensures work { IsAtWork O.Sequential board.now session.new load.new }
    ensures taken { load.new.pieces.items ≡ load.old.pieces.items }
    ensures tells { IfSome result (λ _. O.tells_from load.new.object (length session.old.front)) }
{
    let Ok(reply) = load.object.serve(session.number(), *call) else {
        return None;
    };
    // the history is legal, and its length fits into 64 bits, so there is room for this entry
    let _served = load.object.served();
    let place = board.enter(session, *call, reply);
    Some((place, reply))
}

/// Performs a call as `perform_own` does, and tells whose wait it has ended.
#[inline(always)]
pub(crate) fn perform_own_telling<O: Batching, T: Listener<O>>(
    board: &Board<O>,
    session: &mut Ticket<O>,
    load: &mut Load<O>,
    call: &O::Call,
    listener: &mut T,
) -> Option<(u64, O::Reply)>
    requires work { IsAtWork O.Sequential board.now session.old load.old }
    requires idle { IsIdle session.old }
    requires room { HasRoom (T.room listener.old) board.now.sessions }
    ensures some { IfSome result (λ r. IsOwnEntered session.old session.new call.now r.0 r.1) }
    ensures none { IfNone result (session.new ≡ session.old) }
    ensures work { IsAtWork O.Sequential board.now session.new load.new }
    ensures taken { load.new.pieces.items ≡ load.old.pieces.items }
    ensures told { HasAddedTold T.ends board.now.sessions session.new.front (entered_since session.old session.new) (T.list listener.old) (T.list listener.new) }
    ensures room { T.room listener.new ≡ T.room listener.old }
    ensures notes { T.notes listener.old session.old.front → T.notes listener.new session.new.front }
{
    let answer = perform_own(board, session, load, call)?;
    listener.add(&load.object, 1);
    Some(answer)
}

/// Makes a pass as `make_rounds` does if `test` holds. Else it serves nothing, and changes nothing.
#[inline(always)]
fn make_rounds_if<O: Batching, T: Listener<O>>(
    test: bool,
    board: &Board<O>,
    session: &mut Ticket<O>,
    load: &mut Load<O>,
    bound: PassBound,
    listener: &mut T,
) -> Pass
    requires bound { IsBound bound }
    requires work { IsAtWork O.Sequential board.now session.old load.old }
    requires room { HasRoom (T.room listener.old) board.now.sessions }
    ensures work { IsAtWork O.Sequential board.now session.new load.new }
    ensures passed { test ≡ true → HasPassed session.old session.new result.served }
    ensures served { test ≡ true → HasServed board.now.sessions session.old session.new load.old load.new result.starved result.left }
    ensures few { result.served ≤ bound.rounds * bound.calls }
    ensures all { IsUnmet bound → result.left ≡ false }
    ensures told { test ≡ true → HasAddedTold T.ends board.now.sessions session.new.front (entered_since session.old session.new) (T.list listener.old) (T.list listener.new) }
    ensures noted { test ≡ true → T.notes listener.new session.new.front }
    ensures room { T.room listener.new ≡ T.room listener.old }
    ensures none { test ≡ false → (session.new ≡ session.old) × (load.new ≡ load.old) × (listener.new ≡ listener.old) }
{
    if test {
        if board.walk(session, None).is_some() {
            return make_rounds(board, session, load, bound, listener);
        }
        // no record is listed, and the session has none of its own to serve: this is all that a round does then
        load.passes = load.passes.saturating_add(1);
        listener.add(&load.object, 0);
    }
    Pass {
        served: 0,
        starved: false,
        left: false,
    }
}

/// Runs a pass within the bound, in which the combiner performs a call of its own, which it has not published: ahead of the others if the
/// call goes first, else behind them. Returns the pass, and of the own call what `perform_own` does. Tells whose waits they have ended.
#[inline(always)]
pub(crate) fn pass_with_own<O: Batching, T: Listener<O>>(
    board: &Board<O>,
    session: &mut Ticket<O>,
    load: &mut Load<O>,
    call: &O::Call,
    bound: PassBound,
    listener: &mut T,
) -> (Pass, Option<(u64, O::Reply)>)
    requires bound { IsBound bound }
    requires work { IsAtWork O.Sequential board.now session.old load.old }
    requires idle { IsIdle session.old }
    requires room { HasRoom (T.room listener.old) board.now.sessions }
    ensures performed { IfSome result.1 (λ r. IsPassWithOwn (O.goes_first call.now) session.old session.new call.now r.0 r.1 result.0.served) }
    ensures refused { IfNone result.1 (HasPassed session.old session.new result.0.served) }
    ensures work { IsAtWork O.Sequential board.now session.new load.new }
    ensures served { HasServed board.now.sessions session.old session.new load.old load.new result.0.starved result.0.left }
    ensures all { IsUnmet bound → result.0.left ≡ false }
    ensures few { result.0.served ≤ bound.rounds * bound.calls }
    ensures told { HasAddedTold T.ends board.now.sessions session.new.front (entered_since session.old session.new) (T.list listener.old) (T.list listener.new) }
    ensures room { T.room listener.new ≡ T.room listener.old }
    ensures noted { T.notes listener.new session.new.front }
{
    let goes_first = O::goes_first(call);
    let ahead = make_rounds_if(!goes_first, board, session, load, bound, listener);
    let answer = perform_own_telling(board, session, load, call, listener);
    let behind = make_rounds_if(goes_first, board, session, load, bound, listener);
    if goes_first {
        return (behind, answer);
    }
    (ahead, answer)
}
