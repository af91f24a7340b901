//! Deadlocks in numbers, and how they are written to C's structs.

ghost use Rattle.std.specs.Prelude.{◌≡◌, ◌≢◌, ◌⊎◌, IfOk, length};
ghost use Rattle.lock_modes.specs.Codes.{code_of};
ghost use Rattle.lock_rules.specs.State.{mode_or_nothing};
ghost use Rattle.library_books.specs.Calls.{are_written};
ghost use Rattle.library_books.specs.Deadlocks.{members_of, numbers_of_deadlock, numbers_of_member};

use crate::arrays::{NumbersOf, write_all};
use crate::claims::{ClaimNumbers, claim_numbers};
use crate::status::{NO_MEMORY, OK};
use lock_desk::{Deadlock, Member, Mode};
use std::alloc::{AllocError, Global};

/// A deadlock: the place in the history of the call that made it, the session of that call, and how many sessions are on its cycle.
#[repr(C)]
#[derive(Clone, Copy)]
pub struct DeadlockNumbers {
    pub place: u64,
    pub session: u32,
    pub members: usize,
}

/// A session on the cycle of a deadlock: the request that it waited with, and the code of the mode in which the next session held the
/// requested resource, 0 if it held none.
#[repr(C)]
#[derive(Clone, Copy)]
pub struct MemberNumbers {
    pub request: ClaimNumbers,
    pub held: u32,
}

/// The code of the mode, or that of NL for `None`.
fn held_number(held: Option<Mode>) -> u32
    ensures { result ≡ code_of (mode_or_nothing held) }
{
    match held {
        Some(mode) => u32::from(mode.code()),
        None => 0,
    }
}

impl NumbersOf<Member> for MemberNumbers {
    ghost numbers = { numbers_of_member };

    fn of(member: &Member) -> MemberNumbers {
        MemberNumbers {
            request: claim_numbers(&member.request),
            held: held_number(member.held),
        }
    }
}

impl NumbersOf<Deadlock> for DeadlockNumbers {
    ghost numbers = { numbers_of_deadlock };

    fn of(deadlock: &Deadlock) -> DeadlockNumbers {
        DeadlockNumbers {
            place: deadlock.place,
            session: u32::from(deadlock.session),
            members: deadlock.cycle.len(),
        }
    }
}

/// How many members the cycles have together.
fn count_members(deadlocks: &[Deadlock]) -> usize {
    let mut count: usize = 0;
    for deadlock in deadlocks {
        count = count.saturating_add(deadlock.cycle.len());
    }
    count
}

/// The members of all cycles, one deadlock's behind another's. Fails if memory is refused.
fn all_members(alloc: Global, deadlocks: &[Deadlock]) -> Result<Vec<Member>, AllocError>
    ensures { IfOk result (λ members. members.items ≡ members_of deadlocks.now) }
{
    let mut members = Vec::new(alloc);
    // all at once, so that nothing is copied as the list grows
    members.reserve(count_members(deadlocks))?;
    for deadlock in deadlocks {
        members.extend_from_slice(&deadlock.cycle)?;
    }
    Ok(members)
}

/// Writes the first of these deadlocks, as many as `list` has room for, and the first members of their cycles, one deadlock's behind
/// another's, as many as `places` has room for, and the number of all these members to `member_count`.
pub fn write_told(
    alloc: Global,
    deadlocks: &[Deadlock],
    list: &mut [DeadlockNumbers],
    places: &mut [MemberNumbers],
    member_count: &mut usize,
) -> u32
    ensures list { result ≡ OK → list.new ≡ are_written numbers_of_deadlock deadlocks.now list.old }
    ensures members { result ≡ OK → places.new ≡ are_written numbers_of_member (members_of deadlocks.now) places.old }
    ensures member_count { result ≡ OK → member_count.new ≡ length (members_of deadlocks.now) }
    ensures failed { result ≢ OK → (list.new ≡ list.old) × (places.new ≡ places.old) × (member_count.new ≡ member_count.old) }
    ensures statuses { (result ≡ OK) ⊎ (result ≡ NO_MEMORY) }
{
    let Ok(members) = all_members(alloc, deadlocks) else {
        return NO_MEMORY;
    };
    write_all(deadlocks, list);
    write_all(members.as_slice(), places);
    *member_count = members.len();
    OK
}
