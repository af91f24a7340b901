//! A pass of the combiner, in rounds: each serves published calls within a bound, and says whether it saw a call that it left.

ghost use Rattle.std.specs.Prelude.{◌≡◌, ◌≢◌, ◌⊎◌, ◌+◌, ◌*◌, ℕ, ◌<◌, ◌≤◌, ◌↔◌, [], true, false, IsTrue, None, Some, length, vec_len, vec_capacity, ◌-◌, ◌^◌, min, if◌then◌else◌};
ghost use mathlib.Core.List.{IsPrefix};
ghost use Rattle.sequential.specs.Histories.{calls_of};
ghost use Rattle.publication.specs.Boards.{IsOf, IsNumber, OpensNone, heard_from, published_by};
ghost use Rattle.publication.specs.List.{IsOn};
ghost use Rattle.publication.specs.StepKinds.{IsRoute};
ghost use Rattle.combining.specs.Woken.{HasAddedTold, HasRoom, entered_since};
ghost use Rattle.combining.specs.Rounds.{IsBound, IsUnmet, IsRound, IsFull};
ghost use Rattle.combining.specs.declared.bounds.TheConstants.{MAX_WEIGHT};
ghost use Rattle.combining.specs.inner.Ages.{sessions_since, noted};
ghost use Rattle.combining.specs.inner.Passes.{AreOpened, HasInserted, HasCalls, KeepsCalls, IsVisited, HasVisitedOpened, IsNext, HasMet, IsSameSession, HasPassed, IsAtWork, HasServed};
ghost use Rattle.combining.specs.inner.BoundedPasses.{IsWithin, IsFilled, HasServedWithin};

use crate::bounds::PassBound;
use crate::clean_up::clean_up;
use crate::listener::Listener;
use crate::pass::{close_round_if_any, one_more_if, open_record};
use publication::{Board, Load, Ticket};
use sequential::Batching;

/// What a round has opened.
#[derive(Drop)]
struct Opening {
    /// How many of its calls go first.
    going_first: usize,
    /// How much its calls weigh.
    weight: u64,
}

/// The outcome of a round, or of all rounds of a pass.
#[derive(Clone, Copy)]
pub(crate) struct Pass {
    /// How many calls they served.
    pub served: u32,
    /// Whether the last one put calls back, because memory was refused for one.
    pub starved: bool,
    /// Whether the last one saw a call posted that it didn't open.
    pub left: bool,
}

/// Whether a call is posted in record `whose`, which is left as it is.
#[inline(always)]
fn is_left<O: Batching>(board: &Board<O>, session: &mut Ticket<O>, whose: u16) -> bool
    requires ours { IsOf board.now session.old × (session.old.has_object ≡ true) }
    requires whose { IsNumber board.now whose }
    requires visited { HasVisitedOpened session.old }
    ensures same { session.new ≡ session.old }
    ensures met { result ≡ false → IsVisited whose session.new }
{
    board.is_posted(session, whose)
}

/// Opens record `whose` as `open_record` does, and adds the weight of its call.
#[inline(always)]
fn open_weighed<O: Batching, T: Listener<O>>(
    board: &Board<O>,
    session: &mut Ticket<O>,
    load: &mut Load<O>,
    opening: &mut Opening,
    whose: u16,
)
    requires ours { IsOf board.now session.old × (session.old.has_object ≡ true) }
    requires whose { IsNumber board.now whose }
    requires row { AreOpened board.now.sessions session.old.opened load.old.row.items }
    requires room { (board.now.sessions ≤ vec_capacity load.old.row) × (opening.old.going_first ≤ vec_len load.old.row) }
    requires visited { HasVisitedOpened session.old }
    requires sessions { O.sessions load.old.object ≡ board.now.sessions }
    requires light { opening.old.weight < 2 ^ 32 }
    ensures session { IsSameSession session.old session.new × (session.new.front ≡ session.old.front) × (session.new.route ≡ session.old.route) }
    ensures row { AreOpened board.now.sessions session.new.opened load.new.row.items }
    ensures room { (board.now.sessions ≤ vec_capacity load.new.row) × (opening.new.going_first ≤ vec_len load.new.row) }
    ensures calls { KeepsCalls session.old session.new }
    ensures visited { HasVisitedOpened session.new }
    ensures met { IsVisited whose session.new }
    ensures opened { ((load.new.row ≡ load.old.row) × (opening.new.weight ≡ opening.old.weight))
        ⊎ ((call : O.Call) × HasInserted whose call load.old.row.items load.new.row.items
        × (opening.new.weight ≡ opening.old.weight + T.weight (O.history load.old.object) whose call)
        × (T.weight (O.history load.old.object) whose call ≤ MAX_WEIGHT)) }
    ensures grows { vec_len load.new.row ≤ vec_len load.old.row + 1 }
    ensures load { load.new ≡ record load.old { row = load.new.row } }
{
    let Some(call) = open_record(
        board,
        session,
        &mut load.row,
        &mut opening.going_first,
        whose,
    ) else {
        return;
    };
    opening.weight += u64::from(T::weigh(&load.object, whose, &call));
}

/// Opens record `whose` as `open_record` does, if the round may take one more call. Returns whether it left a call that is posted.
#[inline(always)]
fn open_if_room<O: Batching, T: Listener<O>>(
    board: &Board<O>,
    session: &mut Ticket<O>,
    load: &mut Load<O>,
    opening: &mut Opening,
    whose: u16,
    bound: PassBound,
) -> bool
    requires ours { IsOf board.now session.old × (session.old.has_object ≡ true) }
    requires whose { IsNumber board.now whose }
    requires row { AreOpened board.now.sessions session.old.opened load.old.row.items }
    requires room { (board.now.sessions ≤ vec_capacity load.old.row) × (opening.old.going_first ≤ vec_len load.old.row) }
    requires visited { HasVisitedOpened session.old }
    requires sessions { O.sessions load.old.object ≡ board.now.sessions }
    requires within { IsWithin T.weight bound (O.history load.old.object) load.old.row opening.old.weight }
    ensures session { IsSameSession session.old session.new × (session.new.front ≡ session.old.front) × (session.new.route ≡ session.old.route) }
    ensures row { AreOpened board.now.sessions session.new.opened load.new.row.items }
    ensures room { (board.now.sessions ≤ vec_capacity load.new.row) × (opening.new.going_first ≤ vec_len load.new.row) }
    ensures calls { KeepsCalls session.old session.new }
    ensures visited { HasVisitedOpened session.new }
    ensures met { result ≡ false → IsVisited whose session.new }
    ensures within { IsWithin T.weight bound (O.history load.old.object) load.new.row opening.new.weight }
    ensures filled { result ≡ true → IsFilled bound (vec_len load.new.row) opening.new.weight }
    ensures load { load.new ≡ record load.old { row = load.new.row } }
{
    if load.row.len() < usize::from(bound.calls) && opening.weight < u64::from(bound.weight) {
        open_weighed::<O, T>(board, session, load, opening, whose);
        return false;
    }
    is_left(board, session, whose)
}

/// Visits the records of the walk from `next` on, and opens each in which a call is posted, until the round may take no more. Then it only
/// looks for a call that is left, and returns whether it found one.
#[inline(always)]
fn open_walked<O: Batching, T: Listener<O>>(
    board: &Board<O>,
    session: &mut Ticket<O>,
    load: &mut Load<O>,
    opening: &mut Opening,
    next: Option<u16>,
    bound: PassBound,
) -> bool
    requires ours { IsOf board.now session.old × (session.old.has_object ≡ true) }
    requires route { IsRoute (board.now.sessions + 1) session.old.route }
    requires next { IsNext next session.old.route × HasMet next session.old }
    requires row { AreOpened board.now.sessions session.old.opened load.old.row.items }
    requires room { (board.now.sessions ≤ vec_capacity load.old.row) × (opening.old.going_first ≤ vec_len load.old.row) }
    requires visited { HasVisitedOpened session.old }
    requires sessions { O.sessions load.old.object ≡ board.now.sessions }
    requires within { IsWithin T.weight bound (O.history load.old.object) load.old.row opening.old.weight }
    ensures session { IsSameSession session.old session.new × (session.new.front ≡ session.old.front) }
    ensures row { AreOpened board.now.sessions session.new.opened load.new.row.items }
    ensures room { (board.now.sessions ≤ vec_capacity load.new.row) × (opening.new.going_first ≤ vec_len load.new.row) }
    ensures calls { KeepsCalls session.old session.new }
    ensures visited { HasVisitedOpened session.new }
    ensures met { result ≡ false → (j : _) → IsOn j session.old.route → IsVisited j session.new }
    ensures within { IsWithin T.weight bound (O.history load.old.object) load.new.row opening.new.weight }
    ensures filled { result ≡ true → IsFilled bound (vec_len load.new.row) opening.new.weight }
    ensures load { load.new ≡ record load.old { row = load.new.row } }
{
    let mut next = next;
    while let Some(whose) = next {
        if open_if_room::<O, T>(board, session, load, opening, whose, bound) {
            return true;
        }
        next = board.walk(session, Some(whose));
    }
    false
}

/// Walks the publication list from the head word, and opens each record in which a call is posted, until the round may take no more. Then
/// it only looks for a call that is left, and returns whether it found one.
#[inline(always)]
fn open_listed<O: Batching, T: Listener<O>>(
    board: &Board<O>,
    session: &mut Ticket<O>,
    load: &mut Load<O>,
    opening: &mut Opening,
    bound: PassBound,
) -> bool
    requires ours { IsOf board.now session.old × (session.old.has_object ≡ true) }
    requires row { AreOpened board.now.sessions session.old.opened load.old.row.items }
    requires room { (board.now.sessions ≤ vec_capacity load.old.row) × (opening.old.going_first ≤ vec_len load.old.row) }
    requires visited { HasVisitedOpened session.old }
    requires sessions { O.sessions load.old.object ≡ board.now.sessions }
    requires within { IsWithin T.weight bound (O.history load.old.object) load.old.row opening.old.weight }
    ensures session { IsSameSession session.old session.new × (session.new.front ≡ session.old.front) }
    ensures row { AreOpened board.now.sessions session.new.opened load.new.row.items }
    ensures room { board.now.sessions ≤ vec_capacity load.new.row }
    ensures calls { KeepsCalls session.old session.new }
    ensures visited { HasVisitedOpened session.new }
    ensures met { result ≡ false → (j : _) → 0 < j → j ≤ board.now.sessions → HasCalls (heard_from session.old j) j session.new }
    ensures within { IsWithin T.weight bound (O.history load.old.object) load.new.row opening.new.weight }
    ensures filled { result ≡ true → IsFilled bound (vec_len load.new.row) opening.new.weight }
    ensures load { load.new ≡ record load.old { row = load.new.row } }
{
    let next = board.walk(session, None);
    if next.is_none() {
        return false;
    }
    open_walked::<O, T>(board, session, load, opening, next, bound)
}

/// Visits the combiner's own record first, and then those on the publication list, and opens each in which a call is posted, until the
/// round may take no more. Returns whether it saw a call that it left.
#[inline(always)]
fn open_records<O: Batching, T: Listener<O>>(
    board: &Board<O>,
    session: &mut Ticket<O>,
    load: &mut Load<O>,
    bound: PassBound,
) -> bool
    requires ours { IsOf board.now session.old × (session.old.has_object ≡ true) }
    requires number { IsNumber board.now session.old.number }
    requires none { OpensNone session.old }
    requires row { (vec_len load.old.row ≡ 0) × (board.now.sessions ≤ vec_capacity load.old.row) }
    requires sessions { O.sessions load.old.object ≡ board.now.sessions }
    requires some { (0 < bound.calls) × (0 < bound.weight) }
    ensures session { IsSameSession session.old session.new × (session.new.front ≡ session.old.front) }
    ensures row { AreOpened board.now.sessions session.new.opened load.new.row.items }
    ensures room { board.now.sessions ≤ vec_capacity load.new.row }
    ensures heard { result ≡ false → (j : _) → 0 < j → j ≤ board.now.sessions → HasCalls (heard_from session.old j) j session.new }
    ensures own { session.old.pending ≢ None → HasCalls (published_by session.old) session.old.number session.new }
    ensures all { IsUnmet bound → result ≡ false }
    ensures within { (weight : ℕ) × IsWithin T.weight bound (O.history load.old.object) load.new.row weight × (result ≡ true → IsFilled bound (vec_len load.new.row) weight) }
    ensures load { load.new ≡ record load.old { row = load.new.row } }
{
    let mut opening = Opening {
        going_first: 0,
        weight: 0,
    };
    // an object has at most MAX_SESSIONS sessions, so an unmet bound has room for a call of each
    let _sessions = load.object.sessions();
    let own = session.number();
    open_weighed::<O, T>(board, session, load, &mut opening, own);
    open_listed::<O, T>(board, session, load, &mut opening, bound)
}

/// Makes a round for a combiner that has the load, and leaves the load fit to be given back: serves the session's own published call,
/// and others within the bound.
#[inline(always)]
fn make_round<O: Batching, T: Listener<O>>(
    board: &Board<O>,
    session: &mut Ticket<O>,
    load: &mut Load<O>,
    bound: PassBound,
) -> Pass
    requires work { IsAtWork O.Sequential board.now session.old load.old }
    requires some { (0 < bound.calls) × (0 < bound.weight) }
    ensures work { IsAtWork O.Sequential board.now session.new load.new }
    ensures pass { HasPassed session.old session.new result.served }
    ensures longer { IsPrefix session.old.front session.new.front }
    ensures few { result.served ≤ bound.calls }
    ensures round { result.starved ≡ false → IsRound T.weight bound session.old.front session.new.front }
    ensures full { result.starved ≡ false → result.left ≡ true → IsFull T.weight bound result.served session.new.front }
    ensures all { IsUnmet bound → result.left ≡ false }
    ensures put_back { IsTrue result.starved ↔ (session.old.put_backs < session.new.put_backs) }
    ensures kept { result.starved ≡ false → session.new.put_backs ≡ session.old.put_backs }
    ensures own { result.starved ≡ false → session.old.pending ≢ None → published_by session.old ≤ length (calls_of session.old.number session.new.front) }
    ensures heard { result.starved ≡ false → result.left ≡ false → (j : _) → 0 < j → j ≤ board.now.sessions
        → heard_from session.old j ≤ length (calls_of j session.new.front) }
    ensures taken { load.new.pieces.items ≡ load.old.pieces.items }
    ensures passes { load.new.passes ≡ min (load.old.passes + 1) (2 ^ 64 - 1) }
    ensures served_in_all { load.new.served ≡ min (load.old.served + result.served) (2 ^ 64 - 1) }
    ensures starved_in_all { load.new.starved ≡ (if result.starved then min (load.old.starved + 1) (2 ^ 64 - 1) else load.old.starved) }
    ensures ages { load.new.ages.items ≡ noted load.old.ages.items (sessions_since (length session.old.front) session.new.front) load.new.passes }
    ensures tells { 0 < result.served → O.tells_from load.new.object (length session.old.front) }
{
    load.passes = load.passes.saturating_add(1);
    let left = open_records::<O, T>(board, session, load, bound);
    let pass = close_round_if_any(board, session, load);
    load.row.clear();
    load.served = load.served.saturating_add(u64::from(pass.served));
    load.starved = one_more_if(pass.starved, load.starved);
    clean_up(board, session, load.ages.as_slice(), load.passes);
    Pass {
        served: pass.served,
        starved: pass.starved,
        left,
    }
}

/// Makes a round as `make_round` does, and tells whose waits it has ended.
#[inline(always)]
fn make_round_telling<O: Batching, T: Listener<O>>(
    board: &Board<O>,
    session: &mut Ticket<O>,
    load: &mut Load<O>,
    bound: PassBound,
    listener: &mut T,
) -> Pass
    requires work { IsAtWork O.Sequential board.now session.old load.old }
    requires some { (0 < bound.calls) × (0 < bound.weight) }
    requires room { HasRoom (T.room listener.old) board.now.sessions }
    ensures work { IsAtWork O.Sequential board.now session.new load.new }
    ensures round { HasServedWithin T.weight board.now.sessions bound 1 session.old session.new load.old load.new result.served result.starved result.left }
    ensures told { HasAddedTold T.ends board.now.sessions session.new.front (entered_since session.old session.new) (T.list listener.old) (T.list listener.new) }
    ensures room { T.room listener.new ≡ T.room listener.old }
    ensures noted { T.notes listener.new session.new.front }
{
    let round = make_round::<O, T>(board, session, load, bound);
    listener.add(&load.object, round.served);
    round
}

/// Makes a pass: rounds as `make_round` makes them, until one serves no call or has to put calls back, but no more than the bound has.
/// Tells whose waits they have ended.
pub(crate) fn make_rounds<O: Batching, T: Listener<O>>(
    board: &Board<O>,
    session: &mut Ticket<O>,
    load: &mut Load<O>,
    bound: PassBound,
    listener: &mut T,
) -> Pass
    requires work { IsAtWork O.Sequential board.now session.old load.old }
    requires bound { IsBound bound }
    requires room { HasRoom (T.room listener.old) board.now.sessions }
    ensures work { IsAtWork O.Sequential board.now session.new load.new }
    ensures rounds { (made : ℕ) × (made ≤ bound.rounds)
        × HasServedWithin T.weight board.now.sessions bound made session.old session.new load.old load.new result.served result.starved result.left }
    ensures pass { HasPassed session.old session.new result.served }
    ensures served { HasServed board.now.sessions session.old session.new load.old load.new result.starved result.left }
    ensures few { result.served ≤ bound.rounds * bound.calls }
    ensures told { HasAddedTold T.ends board.now.sessions session.new.front (entered_since session.old session.new) (T.list listener.old) (T.list listener.new) }
    ensures room { T.room listener.new ≡ T.room listener.old }
    ensures noted { T.notes listener.new session.new.front }
{
    let known = session.seen();
    let mut made = 0;
    loop {
        let last = make_round_telling(board, session, load, bound, listener);
        made += 1;
        if made >= bound.rounds || last.served == 0 || last.starved {
            return Pass {
                served: (session.seen() - known) as u32,
                starved: last.starved,
                left: last.left,
            };
        }
    }
}
