//! The deadlocks that a book tells, in numbers.

ghost use Rattle.std.specs.Prelude.{◌≡◌, ◌≢◌, ◌⊎◌};
ghost use Rattle.lock_desk.specs.Deadlocks.{deadlocks_in, newest};
ghost use Rattle.library_books.specs.Deadlocks.{AreDeadlocksWritten};

use library_books::deadlock_numbers::{DeadlockNumbers, MemberNumbers, write_told};
use library_books::status::{NO_MEMORY, OK};
use lock_desk::Book;
use std::alloc::Global;

/// Writes the newest `most` deadlocks that the book tells, as many as `list` has room for, and the members of their cycles, as many as
/// `members` has room for; how many the book tells in all, and how many members the newest `most` have.
pub fn told(
    alloc: Global,
    book: &Book,
    most: usize,
    list: &mut [DeadlockNumbers],
    count: &mut usize,
    members: &mut [MemberNumbers],
    member_count: &mut usize,
) -> u32
    ensures ok { result ≡ OK → AreDeadlocksWritten most (newest book.now.deadlocks (deadlocks_in book.now.history)) list.old list.new count.new members.old members.new member_count.new }
    ensures failed { result ≢ OK → (list.new ≡ list.old) × (count.new ≡ count.old) × (members.new ≡ members.old) × (member_count.new ≡ member_count.old) }
    ensures statuses { (result ≡ OK) ⊎ (result ≡ NO_MEMORY) }
{
    let told = book.newest_deadlocks(most);
    let status = write_told(alloc, told, list, members, member_count);
    if status != OK {
        return status;
    }
    *count = book.deadlock_count();
    OK
}
