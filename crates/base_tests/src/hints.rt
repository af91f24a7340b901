//! Hints to faults of long rows, and of rows behind many others. What hints say is in `checks/program-tables`.

use lock_trace::{KEPT_BYTES, Kept, RowForm, hint_text, read_trace};
use std::alloc::{AllocError, Global};
use std::test::Fail;

/// The hint to a row of which only the front is shown.
const FRONT: &str =
    "  line 1: 1,lock,77777777777777777777777777777777777777777777777777777777777777777..
                 ^~~~~~~~~~~~~~~~~~~~~~~~~~~~~~~~~~~~~~~~~~~~~~~~~~~~~~~~~~~~~~~~~
  expected 1 to 5 numbers up to 4294967295 without leading zeros, joined by '/'\n";

/// The hint to a row of which only the end is shown.
const END: &str =
    "  line 1: ..77777777777777777777777777777777777777777777777777777777777777777777,S,X
                                                                                   ^
  expected 4 fields: session,op,resource,mode\n";

/// The hint to a row that isn't kept to its end.
const LONG: &str =
    "  line 3: 111111111111111111111111111111111111111111111111111111111111111111111111..
          ^~~~~~~~~~~~~~~~~~~~~~~~~~~~~~~~~~~~~~~~~~~~~~~~~~~~~~~~~~~~~~~~~~~~~~~~
  expected 4 fields: session,op,resource,mode\n";

/// The hint to a row behind 9999 rows of two lines each, one of which is empty.
const FAR: &str = "  line 20001: 1,wait,,
                ^~~~
  expected begin, lock, convert, poll, release, commit, abort, try, withdraw or restart\n";

/// Traces, each of a front, so many times a middle, and a back, with the hint to the first fault.
const TRACES: [(&str, &str, usize, &str, &str); 6] = [
    ("1,lock,", "7", 200, ",S", FRONT),
    ("1,lock,", "7", 100, ",S,X\n", END),
    ("1,begin,,\n\n", "1", 3 * KEPT_BYTES, "\n", LONG),
    ("\n\n", "1,poll,,\n\n", 9999, "1,wait,,", FAR),
    ("\u{feff}\n\n", "1,poll,,\n\r\n", 9999, "1,wait,,", FAR),
    ("1,begin,,\n", "", 0, "\r\n", ""),
];

/// The hint to the first fault of a trace. Empty if it has none.
fn hint_to(alloc: Global, text: &str) -> Result<Vec<u8>, AllocError> {
    let mut kept = Kept::new(alloc, text.as_bytes(), true);
    match read_trace(alloc, &mut kept, 256) {
        Ok(_rows) => Ok(Vec::new(alloc)),
        Err(fault) => hint_text(alloc, kept.rows(), &fault, RowForm::Trace, 256),
    }
}

/// Of a long row a part is shown; rows and lines are counted of what is no longer kept.
#[test]
fn a_faulty_row_is_shown(rt: HostRuntime) -> Result<(), Fail> {
    for (front, middle, count, back, want) in TRACES {
        let middles = middle.repeat(rt.alloc(), count)?;
        let text = format!(in rt.alloc(); "{front}{middles}{back}")?;
        let hint = hint_to(rt.alloc(), text.as_str())?;
        assert!(rt; hint.as_slice() == want.as_bytes(), "{front}{middle}{back}");
    }
    Ok(())
}
