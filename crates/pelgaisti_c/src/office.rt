//! The export that opens an office.

ghost use Rattle.std.specs.Prelude.{◌≡◌, ◌≢◌, ◌≤◌, ◌⊎◌, ◌↔◌, All, Any, length};
ghost use denote.RawPtr.{null_ptr};
ghost use Rattle.lock_rules.specs.declared.calls.TheConstants.{MAX_SESSIONS};
ghost use Rattle.combining.specs.declared.bounds.PassBound.{PassBound};
ghost use Rattle.publication.specs.Views.{BoardView};
ghost use Rattle.library_sessions.specs.Bounds.{IsBoundOf, IsNoBound};
ghost use Rattle.library_sessions.specs.Offices.{AreSessionsOf};

use library_books::option_numbers::OptionNumbers;
use library_books::status::{NO_MEMORY, NO_SUCH_COUNT, NULL_POINTER, OK, OPEN};
use library_sessions::bounds::bound_of;
use library_sessions::opening::{has_open, open_handles, shares_of};
use library_sessions::pointers::HandleList;
use lock_office::open_telling;
use lock_rules::MAX_SESSIONS;
use std::alloc::Global;

/// Opens the handles as the sessions of a new office, in their order. The handles must be closed. No other open office
/// should have this mark. The address of what wakes threads is the caller's alone to use; 0 means that there is none.
#[unsafe(no_mangle)]
pub extern "C" fn pelgaisti_raw_office_open(
    alloc: Global,
    sessions: &mut HandleList,
    mark: u64,
    options: &OptionNumbers,
) -> u32
    ensures null { result ≡ NULL_POINTER ↔ (sessions.old.at ≡ null_ptr) }
    ensures ok { result ≡ OK → (office : BoardView) × (office.sessions ≡ length sessions.old.behind)
        × (office.bound ≡ record { lines = options.now.keep; notes = options.now.deadlocks })
        × ((bound : PassBound) × IsBoundOf options.now.pass_calls options.now.pass_locks options.now.pass_rounds bound × AreSessionsOf office mark options.now.waker bound sessions.new.behind) }
    ensures failed { result ≢ OK → sessions.new.behind ≡ sessions.old.behind }
    ensures count { result ≡ NO_SUCH_COUNT → ¬ ((1 ≤ length sessions.old.behind) × (length sessions.old.behind ≤ MAX_SESSIONS)) ⊎ IsNoBound options.now.pass_calls options.now.pass_locks options.now.pass_rounds }
    ensures counted { (result ≤ NO_MEMORY) ⊎ (result ≡ OPEN) → (1 ≤ length sessions.old.behind) × (length sessions.old.behind ≤ MAX_SESSIONS) × ¬ (IsNoBound options.now.pass_calls options.now.pass_locks options.now.pass_rounds) }
    ensures open { result ≡ OPEN → Any (λ handle. handle.is_open ≡ 1) sessions.old.behind }
    ensures closed { result ≤ NO_MEMORY → All (λ handle. handle.is_open ≢ 1) sessions.old.behind }
    ensures statuses { (result ≡ NULL_POINTER) ⊎ ((result ≤ NO_MEMORY) ⊎ ((result ≡ NO_SUCH_COUNT) ⊎ (result ≡ OPEN))) }
{
    if sessions.is_null() {
        return NULL_POINTER;
    }
    let sessions = sessions.items();
    let count = sessions.len();
    if count == 0 || count > usize::from(MAX_SESSIONS) {
        return NO_SUCH_COUNT;
    }
    let bound = given!(
        bound_of(options.pass_calls, options.pass_locks, options.pass_rounds),
        NO_SUCH_COUNT
    );
    if has_open(sessions) {
        return OPEN;
    }
    let Ok((office, made)) = open_telling(
        alloc,
        count as u16,
        options.keep,
        options.seed,
        options.deadlocks as usize,
    ) else {
        return NO_MEMORY;
    };
    let Ok(shares) = shares_of(
        alloc,
        office,
        made,
        count as u16,
        mark,
        options.waker,
        bound,
    ) else {
        return NO_MEMORY;
    };
    open_handles(sessions, shares);
    OK
}
