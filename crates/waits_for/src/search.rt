//! The search for the sessions that a session reaches, and for those among them that reach it. `choice.rt` chooses among these.

ghost use Rattle.std.specs.Prelude.{◌≡◌, ℕ, ◌+◌, ◌<◌, ◌≤◌, ◌↔◌, true, false, ◌&&◌, ◌||◌, ◌==◌, ◌/◌, Some, IsTrue, length};
ghost use Rattle.std.specs.Int.{bit_at};
ghost use Rattle.waits_for.specs.Pairs.{pairs_of};
ghost use Rattle.waits_for.specs.Walks.{Reaches, AreOnCircle};
ghost use Rattle.waits_for.specs.inner.Bits.{has_bit, words_for, unset_below};
ghost use Rattle.waits_for.specs.inner.Search.{HasAllWaiting, DoesAddLead, IsClosedBack, IsFrom, IsTo, AddsPredecessors};

use crate::bits::{
    clear, first_new, has, have_common, next_common, next_new, set, set_without, unset,
};
use crate::matrix::Matrix;
use mode_lanes::{and_into, or_into};

/// The steps of a search from a session that it met.
#[derive(Clone, Copy)]
pub(crate) struct Links {
    /// A session that it waits for directly, as a rule one nearer to the session that was asked for.
    pub(crate) hop: usize,
    /// The session in whose row it was found, but of the session that was asked for.
    pub(crate) parent: usize,
}

/// Removes from `circle`, which has `t` and sessions that reach it, those that are on no cycle with `t`, and adds all
/// others that are on one. Returns whether there are any. `unseen` has the waiting sessions that `t` doesn't reach.
/// `reached` is scratch.
pub(crate) fn keep_on_circle(
    matrix: &Matrix,
    waiting: &[u64],
    t: usize,
    reached: &mut [u64],
    unseen: &[u64],
    circle: &mut [u64],
) -> bool
    requires t_below { t < matrix.now.sessions }
    requires waiting_room { length waiting.now ≡ words_for matrix.now.sessions }
    requires waiting { HasAllWaiting (pairs_of matrix.now) waiting.now }
    requires reached_room { length reached.old ≡ words_for matrix.now.sessions }
    requires unseen_room { length unseen.now ≡ words_for matrix.now.sessions }
    requires circle_room { length circle.old ≡ words_for matrix.now.sessions }
    requires seen { (u : ℕ) → has_bit waiting.now u ≡ true → has_bit unseen.now u ≡ false →
        IsFrom (pairs_of matrix.now) t u }
    requires all { (u : ℕ) → IsFrom (pairs_of matrix.now) t u → has_bit unseen.now u ≡ false }
    requires own { has_bit circle.old t ≡ true }
    requires lead { (u : ℕ) → has_bit circle.old u ≡ true → IsTo (pairs_of matrix.now) t u }
    ensures found { IsTrue result ↔ Reaches (pairs_of matrix.now) t t }
    ensures circle { result ≡ true →
        (u : ℕ) → IsTrue (has_bit circle.new u) ↔ AreOnCircle (pairs_of matrix.now) t u }
{
    set_without(reached, waiting, unseen);
    add_all_predecessors(matrix, waiting, t, reached, circle);
    if !have_common(matrix.row(t), circle) {
        return false;
    }
    and_into(circle, reached);
    true
}

/// Finds the sessions that position `t` reaches, which become the bits of `reached`. Each round adds the row of a
/// session that is reached and waiting and was not expanded before, so each row is added at most once, and empty
/// rows are left out. `expanded` is scratch: the sessions whose rows were added.
pub(crate) fn find_reached(
    matrix: &Matrix,
    waiting: &[u64],
    t: usize,
    reached: &mut [u64],
    expanded: &mut [u64],
)
    requires t_below { t < matrix.now.sessions }
    requires waiting_room { length waiting.now ≡ words_for matrix.now.sessions }
    requires waiting { HasAllWaiting (pairs_of matrix.now) waiting.now }
    requires reached_room { length reached.old ≡ words_for matrix.now.sessions }
    requires expanded_room { length expanded.old ≡ words_for matrix.now.sessions }
    ensures reached { (u : ℕ) →
        IsTrue (has_bit reached.new u) ↔ Reaches (pairs_of matrix.now) t u }
{
    clear(reached, 0, reached.len());
    clear(expanded, 0, expanded.len());
    or_into(reached, matrix.row(t));
    while let Some(v) = first_new(reached, waiting, expanded) {
        set(expanded, v);
        or_into(reached, matrix.row(v));
    }
}

/// Takes the sessions that position `t` reaches, and `t` itself, out of `unseen`, which has all that wait. The bits of
/// `circle` become `t` and sessions that reach it: of those that `t` reaches all, if the only cycles are those through
/// `t`, though no contract says so. In `links` each of them, but `t`, has a session that it waits for directly and by
/// which it reaches `t`, and each session that was taken out, but `t`, the session in whose row it was found. They may
/// hold anything before. `stack` is scratch.
///
/// The search goes depth first: it is done with a session once it is done with all that this waits for. By then it
/// knows from one of these whether the session reaches `t`. The search of a row goes on where it has come to.
pub(crate) fn search_depth_first(
    matrix: &Matrix,
    t: usize,
    unseen: &mut [u64],
    circle: &mut [u64],
    stack: &mut [usize],
    links: &mut [Links],
)
    requires t_below { t < matrix.now.sessions }
    requires unseen_room { length unseen.old ≡ words_for matrix.now.sessions }
    requires unseen { HasAllWaiting (pairs_of matrix.now) unseen.old }
    requires circle_room { length circle.old ≡ words_for matrix.now.sessions }
    requires stack_room { length stack.old ≡ matrix.now.sessions }
    requires links_room { length links.old ≡ matrix.now.sessions }
    ensures seen { (u : ℕ) → has_bit unseen.old u ≡ true → has_bit unseen.new u ≡ false →
        IsFrom (pairs_of matrix.now) t u }
    ensures all { (u : ℕ) → IsFrom (pairs_of matrix.now) t u → has_bit unseen.new u ≡ false }
    ensures own { has_bit circle.new t ≡ true }
    ensures lead { (u : ℕ) → has_bit circle.new u ≡ true → IsTo (pairs_of matrix.now) t u }
{
    let sessions = matrix.sessions() as usize;
    unset(unseen, t);
    clear(circle, 0, circle.len());
    set(circle, t);
    stack[0] = t;
    let mut depth = 1;
    let mut from = 0;
    while depth > 0 {
        let v = stack[depth - 1];
        let row = matrix.row(v);
        if let Some(u) = next_common(row, unseen, from) {
            unset(unseen, u);
            links[u].parent = v;
            stack[depth] = u;
            depth += 1;
            from = 0;
        } else {
            depth -= 1;
            from = v + 1;
            if note_if_leads(row, circle, links, v) && depth > 0 {
                note_lead(circle, links, stack[depth - 1], v);
            }
        }
    }
}

/// Adds position `v` to `circle`: it waits directly for position `u`, a member.
#[inline(always)]
fn note_lead(circle: &mut [u64], links: &mut [Links], v: usize, u: usize)
    requires circle_room { v / 64 < length circle.old }
    requires links_room { v < length links.old }
    ensures { (j : ℕ) → has_bit circle.new j ≡ (has_bit circle.old j || (j == v)) }
{
    set(circle, v);
    links[v].hop = u;
}

/// Adds position `v`, whose row is `row`, to `circle` if it waits directly for a member. Returns whether it is a member
/// now.
#[inline(always)]
fn note_if_leads(row: &[u64], circle: &mut [u64], links: &mut [Links], v: usize) -> bool
    requires same { length circle.old ≡ length row.now }
    requires few { length row.now ≤ 1024 }
    requires circle_room { v / 64 < length circle.old }
    requires links_room { v < length links.old }
    ensures leads { result ≡ true → has_bit circle.new v ≡ true }
    ensures adds { DoesAddLead row.now circle.old circle.new v }
{
    if has(circle, v) {
        return true;
    }
    if let Some(u) = next_common(row, circle, 0) {
        note_lead(circle, links, v, u);
        return true;
    }
    false
}

/// Adds to `reaching`, which has `t` and else only sessions that reach it, all sessions that position `t` reaches and
/// that reach `t`. Passes over the reached sessions until a pass adds none.
fn add_all_predecessors(
    matrix: &Matrix,
    waiting: &[u64],
    t: usize,
    reached: &[u64],
    reaching: &mut [u64],
)
    requires waiting { HasAllWaiting (pairs_of matrix.now) waiting.now }
    requires reached_room { length reached.now ≡ words_for matrix.now.sessions }
    requires room { length reaching.old ≡ words_for matrix.now.sessions }
    requires reached { (u : ℕ) → has_bit waiting.now u ≡ true → Reaches (pairs_of matrix.now) t u → has_bit reached.now u ≡ true }
    requires own { has_bit reaching.old t ≡ true }
    requires lead { (u : ℕ) → has_bit reaching.old u ≡ true → IsTo (pairs_of matrix.now) t u }
    ensures own { has_bit reaching.new t ≡ true }
    ensures lead { (u : ℕ) → has_bit reaching.new u ≡ true → IsTo (pairs_of matrix.now) t u }
    ensures all { (u : ℕ) → Reaches (pairs_of matrix.now) t u →
        Reaches (pairs_of matrix.now) u t → has_bit reaching.new u ≡ true }
{
    while add_predecessors(matrix, reached, reaching) {}
}

/// Adds to `reaching` each reached session with an edge to a member. Returns whether it added any. Looks only at the
/// reached sessions that are no members yet.
fn add_predecessors(matrix: &Matrix, reached: &[u64], reaching: &mut [u64]) -> bool
    requires reached_room { length reached.now ≡ words_for matrix.now.sessions }
    requires room { length reaching.old ≡ words_for matrix.now.sessions }
    ensures adds { AddsPredecessors (pairs_of matrix.now) reaching.old reaching.new }
    ensures more { result ≡ true →
        unset_below matrix.now.sessions reaching.new < unset_below matrix.now.sessions reaching.old }
    ensures closed { result ≡ false → IsClosedBack (pairs_of matrix.now) reached.now reaching.new }
{
    let sessions = matrix.sessions() as usize;
    let mut grew = false;
    let mut u = next_new(reached, reaching, 0, sessions);
    while u < sessions {
        if add_predecessor(matrix, reaching, u) {
            grew = true;
        }
        u = next_new(reached, reaching, u + 1, sessions);
    }
    grew
}

/// Adds position `u` to `reaching` if it has an edge to a member and is no member. Returns whether it added it.
fn add_predecessor(matrix: &Matrix, reaching: &mut [u64], u: usize) -> bool
    requires u_below { u < matrix.now.sessions }
    requires room { length reaching.old ≡ words_for matrix.now.sessions }
    ensures adds { AddsPredecessors (pairs_of matrix.now) reaching.old reaching.new }
    ensures more { result ≡ true →
        unset_below matrix.now.sessions reaching.new < unset_below matrix.now.sessions reaching.old }
    ensures same { result ≡ false → reaching.new ≡ reaching.old }
    ensures closed { result ≡ false → (v : ℕ) → pairs_of matrix.now u v ≡ true →
        has_bit reaching.old v ≡ true → has_bit reaching.old u ≡ true }
{
    if has(reaching, u) || !have_common(matrix.row(u), reaching) {
        return false;
    }
    set(reaching, u);
    true
}

/// Whether a session waits directly for position `t`. Looks only at the rows of those in `waiting`.
pub(crate) fn is_waited_for(matrix: &Matrix, waiting: &[u64], t: usize) -> bool
    requires t_below { t < matrix.now.sessions }
    requires waiting_room { length waiting.now ≡ words_for matrix.now.sessions }
    requires waiting { HasAllWaiting (pairs_of matrix.now) waiting.now }
    ensures { IsTrue result ↔ ((u : ℕ) × (pairs_of matrix.now u t ≡ true)) }
{
    let sessions = matrix.sessions() as usize;
    for w in 0..(sessions + 63) / 64 {
        if is_waited_for_in_word(matrix, waiting[w], w * 64, t) {
            return true;
        }
    }
    false
}

/// Whether one of the sessions that the bits of `word` stand for, from position `first` on, waits directly for position
/// `t`.
#[inline(always)]
fn is_waited_for_in_word(matrix: &Matrix, word: u64, first: usize, t: usize) -> bool
    requires t_below { t < matrix.now.sessions }
    requires small { first + 64 ≤ usize.MAX }
    ensures some { result ≡ true → ((u : ℕ) × (pairs_of matrix.now u t ≡ true)) }
    ensures none { result ≡ false → (i : ℕ) → i < 64 → bit_at word i ≡ 1 → pairs_of matrix.now (first + i) t ≡ false }
{
    let mut rest = word;
    while rest != 0 {
        let low = rest.trailing_zeros() as usize;
        if has_edge(matrix, first + low, t) {
            return true;
        }
        rest &= !(1 << low);
    }
    false
}

/// Whether position `u` is a session's, and this waits directly for position `t`.
#[inline(always)]
fn has_edge(matrix: &Matrix, u: usize, t: usize) -> bool
    requires t_below { t < matrix.now.sessions }
    ensures { result ≡ pairs_of matrix.now u t }
{
    if u >= matrix.sessions() as usize {
        return false;
    }
    has(matrix.row(u), t)
}
