//! The export that tells the deadlocks that a book keeps.

ghost use Rattle.std.specs.Prelude.{◌≡◌, ◌≢◌, ◌↔◌, ◌⊎◌, Some};
ghost use denote.RawPtr.{null_ptr};
ghost use Rattle.lock_desk.specs.BookView.{BookView};
ghost use Rattle.lock_desk.specs.Deadlocks.{deadlocks_in, newest};
ghost use Rattle.library_books.specs.Behind.{IsNullList};
ghost use Rattle.library_books.specs.Deadlocks.{AreDeadlocksWritten};
ghost use Rattle.library_sessions.specs.Tables.{IsClosed, IsSameBook, shown};

use library_books::pointers::{DeadlockList, MemberList, SizePointer};
use library_books::status::{CLOSED, NO_MEMORY, NULL_POINTER, OK};
use library_sessions::deadlocks;
use library_sessions::pointers::BookPointer;
use std::alloc::Global;

/// Writes the newest `most` deadlocks that the book keeps, oldest first, as many as `list` has room for, and the number of all that it keeps
/// to `count`; and the members of these `most`, one deadlock's behind another's, as many as `members` has room for, and their number to
/// `member_count`. It takes memory for these members meanwhile.
#[unsafe(no_mangle)]
pub extern "C" fn pelgaisti_raw_book_deadlocks(
    alloc: Global,
    book: &mut BookPointer,
    most: usize,
    list: &mut DeadlockList,
    count: &mut SizePointer,
    members: &mut MemberList,
    member_count: &mut SizePointer,
) -> u32
    ensures null { result ≡ NULL_POINTER ↔ ((book.old.at ≡ null_ptr) ⊎ (IsNullList list.old.at list.old.room ⊎ ((count.old.at ≡ null_ptr) ⊎ (IsNullList members.old.at members.old.room ⊎ (member_count.old.at ≡ null_ptr))))) }
    ensures ok { result ≡ OK → (view : BookView) × (shown book.old.behind ≡ Some view)
        × AreDeadlocksWritten most (newest view.deadlocks (deadlocks_in view.history)) list.old.behind list.new.behind count.new.behind members.old.behind members.new.behind member_count.new.behind }
    ensures failed { result ≢ OK → (list.new.behind ≡ list.old.behind) × (count.new.behind ≡ count.old.behind) × (members.new.behind ≡ members.old.behind) × (member_count.new.behind ≡ member_count.old.behind) }
    ensures same { IsSameBook book.old.behind book.new.behind }
    ensures closed { result ≢ NULL_POINTER → (result ≡ CLOSED ↔ IsClosed book.old.behind) }
    ensures statuses { (result ≡ NULL_POINTER) ⊎ ((result ≡ OK) ⊎ ((result ≡ NO_MEMORY) ⊎ (result ≡ CLOSED))) }
{
    behind!(book, [list], count, [members], member_count);
    let list = list.items();
    let members = members.items();
    on!(table shown by book, alloc => deadlocks::told(alloc, table.book(), most, list, count, members, member_count))
}
