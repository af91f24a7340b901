//! The youngest session on a cycle with a given one.

ghost use Rattle.std.specs.Prelude.{◌≡◌, ℕ, ◌+◌, ◌<◌, ◌≤◌, true, false, ◌&&◌, ◌||◌, ◌==◌, ◌/◌, Bool, Some, IfSome, length};
ghost use Rattle.std.specs.Option.{ForSome};
ghost use Rattle.waits_for.specs.Pairs.{pairs_of};
ghost use Rattle.waits_for.specs.Walks.{Reaches, IsYoungestOnCircle};
ghost use Rattle.waits_for.specs.inner.Bits.{has_bit, words_for};
ghost use Rattle.waits_for.specs.inner.Search.{HasAllOnCircle, IsBestBelow, IsTestOf, IsTo, younger};

use crate::bits::{has, next_common};
use crate::matrix::Matrix;
use crate::search::Links;

/// The position in the set with the greatest age, and the least of two positions of one age. `None` if the set has
/// no position that has an age.
pub(crate) fn youngest_in(set: &[u64], ages: &[u64]) -> Option<usize>
    requires { words_for (length ages.now) ≤ length set.now }
    ensures { IsBestBelow (has_bit set.now) ages.now (length ages.now) result }
{
    let mut best = None;
    for w in 0..(ages.len() + 63) / 64 {
        best = youngest_in_word(set[w], w * 64, ages, best);
    }
    best
}

/// The best of the best position so far, which is before `first`, and the positions from `first` on that the bits of
/// `word` stand for and that have an age.
#[inline(always)]
fn youngest_in_word(word: u64, first: usize, ages: &[u64], best: Option<usize>) -> Option<usize>
    requires small { first + 64 ≤ usize.MAX }
    requires below { ForSome best (λ v. v < length ages.now) }
    ensures below { ForSome result (λ v. v < length ages.now) }
    ensures best { (test : ℕ → Bool) → IsTestOf test word first (length ages.now) → IsBestBelow test ages.now first best → IsBestBelow test ages.now (first + 64) result }
{
    let mut rest = word;
    let mut best = best;
    while rest != 0 {
        let low = rest.trailing_zeros() as usize;
        best = younger_within(ages, best, first + low);
        rest &= !(1 << low);
    }
    best
}

/// The younger of the best position so far and position `u`, if that has an age; the best so far on a tie.
#[inline(always)]
fn younger_within(ages: &[u64], best: Option<usize>, u: usize) -> Option<usize>
    requires below { ForSome best (λ v. v < length ages.now) }
    ensures below { ForSome result (λ v. v < length ages.now) }
    ensures within { u < length ages.now → result ≡ Some (younger ages.now best u) }
    ensures past { length ages.now ≤ u → result ≡ best }
{
    if u < ages.len() {
        return Some(younger_of(ages, best, u));
    }
    best
}

/// The younger of the best position so far and position `u`; the best so far on a tie.
fn younger_of(ages: &[u64], best: Option<usize>, u: usize) -> usize
    requires u_below { u < length ages.now }
    requires best_below { ForSome best (λ v. v < length ages.now) }
    ensures { result ≡ younger ages.now best u }
{
    match best {
        Some(v) if ages[u] <= ages[v] => v,
        _ => u,
    }
}

/// The youngest session on a cycle with position `t`, if it is found without a search. `circle` must have all
/// sessions on a cycle with `t`.
///
/// If steps lead from `t` to the youngest member, and steps through `circle` back to `t`, it is the one.
pub(crate) fn youngest_at_hand(
    matrix: &Matrix,
    t: usize,
    circle: &[u64],
    links: &[Links],
    ages: &[u64],
) -> Option<usize>
    requires t_below { t < matrix.now.sessions }
    requires circle_room { length circle.now ≡ words_for matrix.now.sessions }
    requires circle { HasAllOnCircle (pairs_of matrix.now) t circle.now }
    requires links_room { length links.now ≡ matrix.now.sessions }
    requires an_age_each { length ages.now ≡ matrix.now.sessions }
    ensures youngest { IfSome result (IsYoungestOnCircle (pairs_of matrix.now) ages.now t) }
{
    let v = youngest_in(circle, ages)?;
    if is_led_to(matrix, links, t, v) && leads_to(matrix, circle, links, v, t) {
        return Some(v);
    }
    None
}

/// Whether steps lead from position `t` to `u`, found backwards: each from `t` if it waits directly, and else from the
/// first session that does of its parent in `links`, the parent of that, and so on. There may be other walks.
fn is_led_to(matrix: &Matrix, links: &[Links], t: usize, u: usize) -> bool
    requires t_below { t < matrix.now.sessions }
    requires u_below { u < matrix.now.sessions }
    requires links_room { length links.now ≡ matrix.now.sessions }
    ensures { result ≡ true → IsTo (pairs_of matrix.now) u t }
{
    if u == t {
        return true;
    }
    let row = matrix.row(t);
    let mut at = u;
    let mut by = u;
    for _step in 0..matrix.sessions() {
        if has(row, at) {
            return true;
        }
        by = links[by].parent;
        if by == t || by >= links.len() {
            return false;
        }
        if has(matrix.row(by), at) {
            at = by;
        }
    }
    false
}

/// Whether steps through `circle` lead from position `u` to `t`: each to its hop in `links`, if that is one that is
/// waited for directly, and else to the least member that is. There may be other walks.
fn leads_to(matrix: &Matrix, circle: &[u64], links: &[Links], u: usize, t: usize) -> bool
    requires u_below { u < matrix.now.sessions }
    requires t_below { t < matrix.now.sessions }
    requires circle_room { length circle.now ≡ words_for matrix.now.sessions }
    requires links_room { length links.now ≡ matrix.now.sessions }
    ensures { result ≡ true → Reaches (pairs_of matrix.now) u t }
{
    let mut at = u;
    for _step in 0..matrix.sessions() {
        let row = matrix.row(at);
        if has(row, t) {
            return true;
        }
        let hop = links[at].hop;
        match next_member(row, circle, hop) {
            Some(next) => at = next,
            None => return false,
        }
    }
    false
}

/// A common member of `row` and `circle`: `hop` if it is one, and else the least. `None` if there is none.
fn next_member(row: &[u64], circle: &[u64], hop: usize) -> Option<usize>
    requires same { length circle.now ≡ length row.now }
    requires few { length row.now ≤ 1024 }
    ensures { IfSome result (λ k. (has_bit row.now k ≡ true) × (has_bit circle.now k ≡ true)) }
{
    if hop / 64 < row.len() && has(row, hop) && has(circle, hop) {
        return Some(hop);
    }
    next_common(row, circle, 0)
}
