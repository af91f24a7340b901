//! The ages of publication records, in rounds of passes, and the clean-up: a record that no round has served for a while is taken off the
//! publication list.

ghost use Rattle.std.specs.Prelude.{◌≡◌, ◌≢◌, ◌≤◌, ◌<◌, ◌+◌, ◌%◌, ◌⊎◌, ◌↔◌, true, false, Some, IsTrue, length, vec_len, All};
ghost use Rattle.sequential.specs.Batches.{IsItemWithin};
ghost use Rattle.publication.specs.Boards.{IsOf, IsNumber};
ghost use Rattle.publication.specs.List.{IsOn, first_of, behind};
ghost use Rattle.publication.specs.StepKinds.{IsRoute};
ghost use Rattle.combining.specs.inner.Ages.{sessions_of, noted, IsUnused, IsCleaned};

use publication::{Board, Ticket};
use sequential::{Batching, Item};

/// The clean-up runs every `PASSES_KEPT` rounds, and takes off the records that were last served more than `PASSES_KEPT` rounds ago.
const PASSES_KEPT: u64 = 64;

/// Sets the age of each session that a round served to the number of that round. The other ages stay.
pub(crate) fn note_served<C: Copy, R: Copy>(ages: &mut Vec<u64>, served: &[Item<C, R>], passes: u64)
    requires within { All (IsItemWithin (vec_len ages.old)) served.now }
    ensures ages { ages.new.items ≡ noted ages.old.items (sessions_of served.now) passes }
    ensures len { vec_len ages.new ≡ vec_len ages.old }
{
    for item in served {
        ages[usize::from(item.session) - 1] = passes;
    }
}

/// Whether record `whose` was last served more than `PASSES_KEPT` rounds ago.
fn is_unused(ages: &[u64], whose: u16, passes: u64) -> bool
    requires whose { (0 < whose) × (whose ≤ length ages.now) }
    ensures { IsTrue result ↔ IsUnused ages.now passes whose }
{
    ages[usize::from(whose) - 1].saturating_add(PASSES_KEPT) < passes
}

/// Takes the record `whose`, behind `before`, off the publication list if it is `unused` and no call is pending in
/// it. Returns the record behind which the walk goes on.
fn unlink_if_unused<O: Batching>(
    board: &Board<O>,
    session: &mut Ticket<O>,
    before: u16,
    whose: u16,
    unused: bool,
) -> u16
    requires ours { IsOf board.now session.old × (session.old.has_object ≡ true) }
    requires before { IsNumber board.now before × IsOn before session.old.route }
    requires whose { IsNumber board.now whose × (first_of (behind before session.old.route) ≡ Some whose) }
    requires route { IsRoute (board.now.sessions + 1) session.old.route }
    ensures session { session.new ≡ record session.old { route = session.new.route } }
    ensures in_use { unused ≡ false → session.new ≡ session.old }
    ensures first { first_of session.new.route ≡ first_of session.old.route }
    ensures left { (j : _) → IsOn j session.old.route → IsOn j session.new.route ⊎ ((j ≡ whose) × (unused ≡ true)) }
    ensures on { IsNumber board.now result × IsOn result session.new.route }
    ensures shorter { length (behind result session.new.route) < length (behind before session.old.route) }
{
    if unused && board.unlink(session, before, whose) {
        return before;
    }
    whose
}

/// Walks on from the first record of the publication list, and takes off each unused record behind it.
#[inline(never)]
fn unlink_unused<O: Batching>(
    board: &Board<O>,
    session: &mut Ticket<O>,
    first: u16,
    ages: &[u64],
    passes: u64,
)
    requires ours { IsOf board.now session.old × (session.old.has_object ≡ true) }
    requires ages { length ages.now ≡ board.now.sessions }
    requires route { IsRoute (board.now.sessions + 1) session.old.route }
    requires first { first_of session.old.route ≡ Some first }
    ensures session { session.new ≡ record session.old { route = session.new.route } }
    ensures route { IsRoute (board.now.sessions + 1) session.new.route }
    ensures left { IsCleaned ages.now passes session.old.route session.new.route }
{
    let mut before = first;
    let mut next = board.walk(session, Some(before));
    while let Some(whose) = next {
        let unused = is_unused(ages, whose, passes);
        before = unlink_if_unused(board, session, before, whose, unused);
        next = board.walk(session, Some(before));
    }
}

/// Every `PASSES_KEPT` rounds, walks the publication list once and takes off each unused record but the first, which can't be taken off.
pub(crate) fn clean_up<O: Batching>(
    board: &Board<O>,
    session: &mut Ticket<O>,
    ages: &[u64],
    passes: u64,
)
    requires ours { IsOf board.now session.old × (session.old.has_object ≡ true) }
    requires ages { length ages.now ≡ board.now.sessions }
    ensures session { session.new ≡ record session.old { route = session.new.route } }
    ensures not_due { passes % PASSES_KEPT ≢ 0 → session.new ≡ session.old }
    ensures due { passes % PASSES_KEPT ≡ 0 → IsRoute (board.now.sessions + 1) session.new.route }
{
    if passes % PASSES_KEPT != 0 {
        return;
    }
    let Some(first) = board.walk(session, None) else {
        return;
    };
    unlink_unused(board, session, first, ages, passes);
}
