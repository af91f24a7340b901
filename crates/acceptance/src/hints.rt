//! Hints, and what the calls of a check find, by row or whole.

use crate::harness::limited;
use glm::{
    Finding, Form, Hints, OpenGate, ToolFault, WrongReply, check_by_row, check_whole,
    explain_found, program, program_with_hints, show_found,
};
use lock_modes::Mode;
use lock_rules::{Call, Entry, Reply};
use lock_trace::{TraceFault, TraceKind};
use lock_tree::Resource;
use std::fs::Files;
use std::sync::Wait;
use std::test::Fail;
use std::thread::Threads;

/// A history whose third reply is another than the lock table's.
const ILLEGAL: &str =
    "0,1,begin,,,began,1\n1,2,begin,,,began,2\n2,1,lock,1,S,waiting,\n3,2,lock,1,IX,granted,S\n";

/// What a check tells of it behind the verdict.
const TOLD: &str = "glm: place 2: the reply isn't the lock table's
  in the history:   2,1,lock,1,S,waiting,
                                 ^~~~~~~~
  the lock table's: 2,1,lock,1,S,granted,S
                                 ^~~~~~~~~
";

/// Whether the program, at a terminal or not, has this status and writes these lines on standard error.
fn tells(
    rt: &(impl AllocGlobal + Files + Threads + Wait),
    words: &[&str],
    input: &str,
    hints: Hints,
    wanted: u8,
    text: &str,
) -> bool {
    let (mut output, mut errors) = (Vec::new(rt.alloc()), Vec::new(rt.alloc()));
    let status = program_with_hints(
        rt,
        rt.alloc(),
        words,
        input.as_bytes(),
        &mut output,
        &mut errors,
        &OpenGate,
        hints,
    );
    status == wanted && errors.as_slice() == text.as_bytes()
}

/// A hint is written at a terminal, or if the words ask for it, and else the line of the fault alone.
#[test]
fn hints_are_for_terminals_and_for_those_who_ask(rt: HostRuntime) {
    let line = "glm: row 1: Op\n";
    let hint = "glm: row 1: Op
  line 2: 1,LOCK,7,S
            ^~~~
  expected begin, lock, convert, poll, release, commit, abort, try, withdraw or restart\n";
    let (plain, asked) = (["glm", "run"], ["glm", "run", "--hints"]);
    let text = "\n1,LOCK,7,S\n";
    assert!(rt;
        tells(&rt, &plain, text, Hints::AsAsked, 1, line),
        "not asked"
    );
    assert!(rt; tells(&rt, &asked, text, Hints::AsAsked, 1, hint), "asked");
    assert!(rt;
        tells(&rt, &plain, text, Hints::Always, 1, hint),
        "at a terminal"
    );
    assert!(rt;
        tells(&rt, &asked, text, Hints::Always, 1, hint),
        "asked at a terminal"
    );
}

/// A wrong reply is shown beside the lock table's, also if the rows aren't kept.
#[test]
fn a_check_shows_the_wrong_reply(rt: HostRuntime) {
    let (plain, asked) = (["glm", "check"], ["glm", "check", "--stream", "--hints"]);
    assert!(rt;
        tells(&rt, &plain, ILLEGAL, Hints::AsAsked, 3, ""),
        "not asked"
    );
    assert!(rt;
        tells(&rt, &plain, ILLEGAL, Hints::Always, 3, TOLD),
        "at a terminal"
    );
    assert!(rt;
        tells(&rt, &asked, ILLEGAL, Hints::AsAsked, 3, TOLD),
        "asked"
    );
}

/// A state that is shown and calls that are explained have it too, behind the place or in front of it.
#[test]
fn show_and_explain_show_the_wrong_reply(rt: HostRuntime) {
    let (before, behind) = (["glm", "show", "--at=1"], ["glm", "show", "--hints"]);
    assert!(rt;
        tells(&rt, &before, ILLEGAL, Hints::AsAsked, 3, ""),
        "not asked"
    );
    assert!(rt;
        tells(&rt, &before, ILLEGAL, Hints::Always, 3, TOLD),
        "a state in front of it"
    );
    assert!(rt;
        tells(&rt, &behind, ILLEGAL, Hints::AsAsked, 3, TOLD),
        "a state behind it"
    );
    let (call, all) = (
        ["glm", "explain", "--hints", "--at=0"],
        ["glm", "explain", "--hints"],
    );
    assert!(rt;
        tells(&rt, &call, ILLEGAL, Hints::AsAsked, 3, TOLD),
        "a call"
    );
    assert!(rt;
        tells(&rt, &all, ILLEGAL, Hints::AsAsked, 3, TOLD),
        "all calls"
    );
}

/// A state that is shown, and calls that are explained, come with the history's first wrong reply, or the number of its entries.
#[test]
fn show_and_explain_find_the_first_wrong_reply(rt: HostRuntime) -> Result<(), Fail> {
    let said = Entry {
        session: 1,
        call: Call::Lock(Resource::parse("1")?, Mode::S),
        reply: Reply::Waiting,
    };
    let given = Reply::Granted(Mode::S);
    let place = 2;
    let wrong = Ok(Finding::Wrong(WrongReply { place, said, given }));
    let mut output = Vec::new(rt.alloc());
    let text = ILLEGAL.as_bytes();
    assert!(rt;
        show_found(rt.alloc(), text, &mut output, 2, Some(1), Form::Rows) == wrong,
        "shown"
    );
    assert!(rt;
        explain_found(rt.alloc(), text, &mut output, 2, None, Form::Rows) == wrong,
        "explained"
    );
    let legal = b"0,1,begin,,,began,1\n".as_slice();
    assert!(rt;
        show_found(rt.alloc(), legal, &mut output, 1, None, Form::Rows) == Ok(Finding::Legal(1)),
        "a legal history is shown"
    );
    assert!(rt;
        explain_found(rt.alloc(), legal, &mut output, 1, None, Form::Rows) == Ok(Finding::Legal(1)),
        "a legal history is explained"
    );
    Ok(())
}

/// Standard error that fails changes neither the status nor the verdict, with hints or without.
#[test]
fn a_failing_writer_of_hints_changes_nothing(rt: HostRuntime) {
    for calls in 0..3 {
        let (mut output, mut errors) = (Vec::new(rt.alloc()), limited(&rt, calls, 7));
        let words = ["glm", "check", "--hints"];
        let input = ILLEGAL.as_bytes();
        let status = program(
            &rt,
            rt.alloc(),
            &words,
            input,
            &mut output,
            &mut errors,
            &OpenGate,
        );
        assert!(rt;
            status == 3 && output.as_slice() == b"illegal 2\n".as_slice(),
            "{calls}"
        );
    }
}

/// A check finds the first wrong reply, or counts the entries of a legal history.
#[test]
fn a_check_finds_the_first_wrong_reply(rt: HostRuntime) -> Result<(), Fail> {
    let said = Entry {
        session: 1,
        call: Call::Lock(Resource::parse("1")?, Mode::S),
        reply: Reply::Waiting,
    };
    let given = Reply::Granted(Mode::S);
    let place = 2;
    let wrong = Ok(Finding::Wrong(WrongReply { place, said, given }));
    assert!(rt;
        check_whole(rt.alloc(), ILLEGAL.as_bytes(), 2) == wrong,
        "whole"
    );
    assert!(rt;
        check_by_row(rt.alloc(), ILLEGAL.as_bytes(), 2) == wrong,
        "by row"
    );
    let legal = b"0,1,begin,,,began,1\n\n1,1,poll,,,clear,\n".as_slice();
    assert!(rt;
        check_by_row(rt.alloc(), legal, 1) == Ok(Finding::Legal(2)),
        "legal"
    );
    assert!(rt;
        check_by_row(rt.alloc(), b"".as_slice(), 1) == Ok(Finding::Legal(0)),
        "empty"
    );
    Ok(())
}

/// A row that is refused behind a wrong reply is the fault, also if rows aren't kept.
#[test]
fn a_bad_row_behind_a_wrong_reply_is_the_fault(rt: HostRuntime) {
    let text = b"0,1,begin,,,began,7\n1,1,poll,,,clear,\n1,1,poll,,,clear,\n".as_slice();
    let fault = Err(ToolFault::Trace(TraceFault {
        row: 3,
        kind: TraceKind::Place,
    }));
    assert!(rt; check_whole(rt.alloc(), text, 1) == fault, "whole");
    assert!(rt; check_by_row(rt.alloc(), text, 1) == fault, "by row");
}
