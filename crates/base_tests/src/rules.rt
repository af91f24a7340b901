//! The numbers of operations, kinds of replies and refusals, the limits, and that each law of `lock_rules` can be cited.

use lock_modes::Mode;
use lock_rules::{
    Call, Entry, MAX_LOCKS, MAX_SESSIONS, OPS, Op, REFUSALS, REPLY_KINDS, Reply, ReplyKind, Why,
    laws, restart_laws, update_laws,
};

/// The operation of each number from 0 to 11.
const OP_OF_NUMBER: [Option<Op>; 12] = [
    None,
    Some(Op::Begin),
    Some(Op::Lock),
    Some(Op::Convert),
    Some(Op::Poll),
    Some(Op::Release),
    Some(Op::Commit),
    Some(Op::Abort),
    Some(Op::Try),
    Some(Op::Withdraw),
    Some(Op::Restart),
    None,
];

/// The numbers of the operations, which the library for C passes on; no other number is of an operation.
#[test]
fn operations_have_their_numbers(rt: HostRuntime) {
    for number in 0..12u32 {
        assert!(rt;
            Op::from_number(number) == OP_OF_NUMBER[number as usize],
            "{number}"
        );
    }
    for k in 0..10 {
        assert!(rt; OPS[k].number() == k as u32 + 1, "{k}");
        assert!(rt; OP_OF_NUMBER[k + 1] == Some(OPS[k]), "{k}");
    }
    let has_abort = Call::Abort.op() == Op::Abort;
    assert!(rt; has_abort && Call::Restart.op() == Op::Restart && OPS.len() == 10);
}

/// The numbers of the kinds of replies, which the library for C passes on.
#[test]
fn kinds_of_replies_have_their_numbers(rt: HostRuntime) {
    assert!(rt; REPLY_KINDS.len() == 11);
    for k in 0..11 {
        assert!(rt; REPLY_KINDS[k].number() == k as u32 + 1, "{k}");
    }
    let refused = Reply::Refused(Why::ChildHeld).kind() == ReplyKind::Refused;
    let restarted = Reply::Restarted(4096).kind() == ReplyKind::Restarted;
    let number = ReplyKind::Restarted.number();
    assert!(rt; refused && restarted && number == 11);
}

/// The name and the number of each refusal, in the order of `REFUSALS`.
const NAMES: [(&str, u32); 11] = [
    ("AlreadyOpen", 1),
    ("NoTransaction", 2),
    ("IsWaiting", 3),
    ("IsDoomed", 4),
    ("NothingAsked", 5),
    ("NotHeld", 6),
    ("ParentNotHeld", 7),
    ("ChildHeld", 8),
    ("TooManyLocks", 9),
    ("WouldWait", 11),
    ("NotWaiting", 12),
];

/// Whether a refusal has this name and this number, and is read from the name.
fn has_name(why: Why, (name, number): (&str, u32)) -> bool {
    let mut right = why.name() == name;
    right &= why.number() == number;
    right & (Why::parse(name) == Some(why))
}

/// The name and the number of each refusal, which the interfaces pass on.
#[test]
fn refusals_have_their_names_and_numbers(rt: HostRuntime) {
    assert!(rt; NAMES.len() == REFUSALS.len());
    for k in 0..11 {
        assert!(rt; has_name(REFUSALS[k], NAMES[k]), "row {k}");
    }
}

/// 1,024 sessions, and 4,096 locks of a transaction. Entries are copied and compared by value.
#[test]
fn limits_are_as_documented_and_entries_plain_values(rt: HostRuntime) {
    let entry = Entry {
        session: 1,
        call: Call::Begin,
        reply: Reply::Began(1),
    };
    let copy = entry;
    let is_plain = entry == copy && entry.reply != Reply::Granted(Mode::S);
    assert!(rt; is_plain && MAX_SESSIONS == 1024 && MAX_LOCKS == 4096);
}

/// Every law can be called; the calls do nothing at run time.
#[test]
fn laws_can_be_cited() {
    laws::histories_are_legal_by_steps();
    laws::states_follow_by_steps();
    laws::histories_are_determined_by_calls();
    laws::calls_are_in_order();
    laws::refusals_keep_the_state();
    laws::refusals_mean_what_they_say();
    laws::tests_are_made_by_number();
    laws::limits_are_as_documented();
    laws::begins_open_one_transaction();
    laws::polls_tell_how_sessions_stand();
    laws::grants_change_one_lock();
    laws::requests_are_granted_or_wait();
    laws::granted_locks_are_held();
    laws::tries_never_wait();
    laws::withdrawals_take_one_request();
    laws::promotions_grant_the_longest_front();
    laws::holders_are_listed_by_session();
    laws::locks_stand_once();
    laws::sessions_have_one_request();
    laws::locks_are_few();
    laws::fits_is_compatible_with_others();
    laws::holders_are_compatible();
    laws::nobody_waits_needlessly();
    laws::locks_stand_under_parents();
    laws::children_are_held();
    laws::no_incompatible_access();
    laws::releases_take_one_lock();
    laws::ends_take_all_locks();
    laws::grants_stand();
    laws::dooms_stand();
    laws::requests_stand();
    laws::transactions_are_apart();
    laws::waits_are_for_holders_and_earlier_requests();
    laws::no_waits_form_a_circle();
    laws::doomed_transactions_wait_for_nothing();
    laws::victims_are_determined();
    laws::victims_keep_their_locks();
    laws::states_are_lawful();
    laws::kinds_are_listed_once();
    laws::examples_are_legal();
    restart_laws::restarts_take_all_locks_and_keep_the_number();
    restart_laws::restart_examples_are_legal();
    update_laws::updates_are_alone();
    update_laws::update_examples_are_legal();
}
