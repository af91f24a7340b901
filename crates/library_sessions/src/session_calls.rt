//! The calls of a session in numbers, on the share that a handle holds.

ghost use Rattle.std.specs.Prelude.{◌≡◌, ◌≢◌, ◌<◌, ◌≤◌, ◌⊎◌, ◌↔◌, ◌==◌, true, false, [], None, IsTrue, length, drop, is_some};
ghost use Rattle.combining.specs.Woken.{entered_since};
ghost use Rattle.lock_office.specs.Sessions.{IsPassed, IsPendingServed};
ghost use Rattle.lock_office.specs.ProgramTurns.{HasSeveralPending};
ghost use Rattle.lock_office.specs.Ended.{AreToldBy};
ghost use Rattle.sequential.specs.Histories.{calls_of};
ghost use Rattle.publication.specs.Boards.{HasCallsOf, heard_from};
ghost use Rattle.lock_rules.specs.declared.calls.Call.{Call as CallValue};
ghost use Rattle.lock_rules.specs.declared.calls.TheConstants.{MAX_SESSIONS};
ghost use Rattle.library_books.specs.Calls.{are_written};
ghost use Rattle.library_books.specs.Numbers.{IsCall, IsCallFault};
ghost use Rattle.library_sessions.specs.Sessions.{IsSameOffice, IsPublished, IsElsewhere, AreToWake, IsAnswered, IsPieceTaken, IsHeard, IsRetired};

use crate::session_share::SessionShare;
use library_books::arrays::write_all;
use library_books::numbers::{
    AnswerNumbers, CallNumbers, EntryNumbers, PassNumbers, read_call, reply_numbers,
};
use library_books::status::{
    ELSEWHERE, NO_MEMORY, NO_SUCH_MODE, NO_SUCH_OP, NOT_SERVED, NOTHING_PENDING, OK, OTHER_OFFICE,
    PENDING, RETIRED,
};
use lock_office::{Posted, Turn, UNBOUNDED};
use lock_rules::MAX_SESSIONS;
use std::alloc::Global;

/// The session's record is on the publication list.
const LISTED: u32 = 1;

/// The session's record is not on the publication list yet. Only passes of the session visit it.
const UNLISTED: u32 = 2;

/// The number of `posted`.
fn posted_number(posted: Posted) -> u32
    ensures some { (LISTED ≤ result) × (result ≤ UNLISTED) }
    ensures listed { result ≡ LISTED → posted ≡ Posted.Listed }
    ensures unlisted { result ≡ UNLISTED → posted ≡ Posted.Unlisted }
{
    match posted {
        Posted::Listed => LISTED,
        Posted::Unlisted => UNLISTED,
    }
}

/// Publishes the call that the numbers encode.
pub fn publish(share: &mut SessionShare, asked: &CallNumbers, posted: &mut u32) -> u32
    requires free { is_some share.old.looking ≡ false }
    ensures free { is_some share.new.looking ≡ false }
    ensures ok { result ≡ OK → IsPublished share.old share.new asked.now posted.new }
    ensures posted { result ≡ OK → (LISTED ≤ posted.new) × (posted.new ≤ UNLISTED) }
    ensures failed { result ≢ OK → (share.new ≡ share.old) × (posted.new ≡ posted.old) }
    ensures call { NO_SUCH_OP ≤ result → result ≤ NO_SUCH_MODE → IsCallFault asked.now result }
    ensures retired { result ≡ RETIRED → (share.old.session.retired ≡ true) × ((call : CallValue) × IsCall asked.now call) }
    ensures pending { result ≡ PENDING → (share.old.session.pending ≢ None) × ((call : CallValue) × IsCall asked.now call) }
    ensures statuses { (result ≡ OK) ⊎ ((result ≡ RETIRED) ⊎ ((result ≡ PENDING) ⊎ ((NO_SUCH_OP ≤ result) × (result ≤ NO_SUCH_MODE)))) }
{
    let call = match read_call(asked) {
        Ok(call) => call,
        Err(fault) => return fault,
    };
    if share.session.is_retired() {
        return RETIRED;
    }
    if !share.session.is_idle() {
        return PENDING;
    }
    *posted = posted_number(share.session.publish(&share.office, call));
    OK
}

/// Writes the numbers of a pass. Returns the status of the turn.
fn write_turn(turn: Turn, pass: &mut PassNumbers) -> u32
    ensures ok { result ≡ OK → (left : _) × (turn ≡ Turn.Pass pass.new.served (pass.new.starved == 1) left) }
    ensures starved { result ≡ OK → pass.new.starved ≤ 1 }
    ensures failed { result ≢ OK → (turn ≡ Turn.Elsewhere) × (pass.new ≡ pass.old) }
    ensures statuses { (result ≡ OK) ⊎ (result ≡ ELSEWHERE) }
{
    match turn {
        Turn::Elsewhere => ELSEWHERE,
        Turn::Pass {
            served,
            starved: true,
            ..
        } => {
            *pass = PassNumbers { served, starved: 1 };
            OK
        }
        Turn::Pass {
            served,
            starved: false,
            ..
        } => {
            *pass = PassNumbers { served, starved: 0 };
            OK
        }
    }
}

/// Tries once to become the combiner, and makes a pass if that succeeds. Writes how many sessions are to be woken to `told`: the share lists
/// them.
pub fn serve(share: &mut SessionShare, pass: &mut PassNumbers, told: &mut usize) -> u32
    requires free { is_some share.old.looking ≡ false }
    ensures free { is_some share.new.looking ≡ false }
    ensures passed { result ≡ OK → IsPassed share.old.session share.new.session pass.new.served }
    ensures starved { result ≡ OK → pass.new.starved ≤ 1 }
    ensures put_back { result ≡ OK → (pass.new.starved ≡ 1) ↔ (share.old.session.put_backs < share.new.session.put_backs) }
    ensures rises { (j : _) → heard_from share.old.session j ≤ heard_from share.new.session j }
    ensures calls { HasCallsOf share.new.session.front share.new.session }
    ensures own { result ≡ OK → pass.new.starved ≡ 0 → share.old.session.pending ≢ None → IsPendingServed share.new.session }
    ensures heard { (j : _) → result ≡ OK → pass.new.starved ≡ 0 → 0 < j → j ≤ share.old.sessions
        → heard_from share.old.session j ≤ length (calls_of j share.new.session.front) }
    ensures same { IsSameOffice share.old share.new }
    ensures told { result ≡ OK → AreToWake share.old share.new told.new }
    ensures failed { result ≢ OK → pass.new ≡ pass.old }
    ensures elsewhere { result ≡ ELSEWHERE → IsElsewhere share.old share.new × (told.new ≡ 0) }
    ensures statuses { (result ≡ OK) ⊎ (result ≡ ELSEWHERE) }
{
    let turn = share
        .session
        .serve(&share.office, UNBOUNDED, &mut share.told);
    *told = share.told.listener.count();
    write_turn(turn, pass)
}

/// Writes the sessions that the share lists to be woken, from index `first` on, as many as `list` has room for, and the number of all
/// of them to `count`.
pub fn told(share: &SessionShare, first: usize, list: &mut [u32], count: &mut usize)
    ensures list { list.new ≡ are_written (λ u. u) (drop first share.now.told.listener.list) list.old }
    ensures count { count.new ≡ length share.now.told.listener.list }
{
    let mut all = [0; MAX_SESSIONS as usize];
    let told = share.told.listener.write(&mut all);
    let sessions = &all[..told];
    let start = usize::min(first, sessions.len());
    write_all(&sessions[start..], list);
    *count = sessions.len();
}

/// Takes the oldest entries of the history that the lock table keeps, as many as `places` has room for, and writes them there,
/// the place of the first one to `first`, and how many they are to `count`.
pub fn take_history(
    alloc: Global,
    share: &mut SessionShare,
    first: &mut u64,
    places: &mut [EntryNumbers],
    count: &mut usize,
) -> u32
    requires free { is_some share.old.looking ≡ false }
    ensures free { is_some share.new.looking ≡ false }
    ensures ok { result ≡ OK → IsPieceTaken share.old share.new first.new count.new places.old places.new }
    ensures failed { result ≢ OK → (share.new ≡ share.old) × (first.new ≡ first.old) × (places.new ≡ places.old) × (count.new ≡ count.old) }
    ensures elsewhere { result ≡ ELSEWHERE → 2 ≤ share.old.sessions }
    ensures statuses { (result ≡ OK) ⊎ ((result ≡ NO_MEMORY) ⊎ (result ≡ ELSEWHERE)) }
{
    let Ok(taken) = share
        .session
        .take_oldest(&share.office, alloc, places.len())
    else {
        return NO_MEMORY;
    };
    let Some(piece) = taken else {
        return ELSEWHERE;
    };
    *first = piece.first;
    *count = write_all(piece.lines.as_slice(), places);
    OK
}

/// Takes the answer to the pending call. A pending program of several calls is refused.
pub fn collect(share: &mut SessionShare, answer: &mut AnswerNumbers) -> u32
    requires free { is_some share.old.looking ≡ false }
    ensures free { is_some share.new.looking ≡ false }
    ensures ok { result ≡ OK → IsAnswered share.old share.new answer.new }
    ensures failed { result ≢ OK → (share.new ≡ share.old) × (answer.new ≡ answer.old) }
    ensures nothing { result ≡ NOTHING_PENDING → share.old.session.pending ≡ None }
    ensures late { result ≡ NOT_SERVED → (share.old.session.pending ≢ None) × ¬ (IsPendingServed share.old.session) }
    ensures several { result ≡ PENDING → HasSeveralPending share.old.session }
    ensures statuses { (result ≡ OK) ⊎ ((result ≡ NOTHING_PENDING) ⊎ ((result ≡ PENDING) ⊎ (result ≡ NOT_SERVED))) }
{
    if share.session.is_idle() || share.session.is_retired() {
        return NOTHING_PENDING;
    }
    if !share.session.is_single() {
        return PENDING;
    }
    match share.session.collect(&share.office) {
        Some(found) => {
            *answer = AnswerNumbers {
                place: found.place,
                reply: reply_numbers(found.reply),
            };
            OK
        }
        None => NOT_SERVED,
    }
}

/// Retires the session.
pub fn retire(share: &mut SessionShare) -> u32
    requires free { is_some share.old.looking ≡ false }
    ensures free { is_some share.new.looking ≡ false }
    ensures ok { result ≡ OK → IsRetired share.old share.new }
    ensures failed { result ≢ OK → share.new ≡ share.old }
    ensures retired { result ≡ RETIRED → share.old.session.retired ≡ true }
    ensures pending { result ≡ PENDING → share.old.session.pending ≢ None }
    ensures statuses { (result ≡ OK) ⊎ ((result ≡ RETIRED) ⊎ (result ≡ PENDING)) }
{
    if share.session.is_retired() {
        return RETIRED;
    }
    if !share.session.is_idle() {
        return PENDING;
    }
    share.session.retire(&share.office);
    OK
}

/// Makes what `other` knows of the history known to `share`.
pub fn hear(share: &mut SessionShare, other: &mut SessionShare) -> u32
    requires free { is_some share.old.looking ≡ false }
    requires free_other { is_some other.old.looking ≡ false }
    requires one_office { share.old.mark ≡ other.old.mark → share.old.office.value ≡ other.old.office.value }
    ensures free { is_some share.new.looking ≡ false }
    ensures ok { result ≡ OK → (share.old.mark ≡ other.old.mark) × IsHeard share.old other.old share.new }
    ensures failed { result ≢ OK → (result ≡ OTHER_OFFICE) × (share.old.mark ≢ other.old.mark) × (share.new ≡ share.old) }
    ensures other { other.new ≡ other.old }
{
    if share.mark != other.mark {
        return OTHER_OFFICE;
    }
    share.session.hear(&share.office, &mut other.session);
    OK
}
