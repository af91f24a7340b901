//! The counters and the gauges of a book, a line for each.

ghost use Rattle.std.specs.Prelude.{◌≡◌, ◌++◌, OnOk, IfOk, codes, string_bytes};
ghost use Rattle.lock_rules.specs.Kinds.{word_of};
ghost use Rattle.lock_rules.specs.Names.{name_of_why};
ghost use Rattle.replay_commands.specs.StatsText.{padded, line_of, lines_of_calls, lines_of_requests, lines_of_waits, lines_of_deadlocks, lines_of_refusals, lines_of_gauges, text_of_stats};

use command_line::Form;
use lock_desk::{Book, Calls, Counts, Gauges, NoMemory, Refusals};
use lock_rules::{Op, Why};
use std::alloc::Global;
use std::fmt::Write;

/// The width of the column of groups.
const GROUP_WIDTH: usize = 11;

/// The width of the column of names.
const NAME_WIDTH: usize = 15;

/// Writes a word, and spaces up to this width.
fn put_padded(out: &mut String, word: &str, width: usize) -> Result<(), NoMemory>
    ensures { OnOk result (string_bytes out.new ≡ string_bytes out.old ++ padded width word.now) }
{
    out.push_str(word)?;
    let gap = width.saturating_sub(word.len());
    for _space in 0..gap {
        out.push_str(" ")?;
    }
    Ok(())
}

/// Writes the line of a counter in columns.
fn put_line(out: &mut String, group: &str, name: &str, number: u64) -> Result<(), NoMemory>
    ensures { OnOk result (string_bytes out.new ≡ string_bytes out.old ++ line_of Form.Lines group.now name.now number) }
{
    put_padded(out, group, GROUP_WIDTH)?;
    put_padded(out, name, NAME_WIDTH)?;
    writeln!(out, "{number}")
}

/// Writes the row of a counter.
fn put_row(out: &mut String, group: &str, name: &str, number: u64) -> Result<(), NoMemory>
    ensures { OnOk result (string_bytes out.new ≡ string_bytes out.old ++ line_of Form.Rows group.now name.now number) }
{
    writeln!(out, "{group},{name},{number}")
}

/// Writes a counter in this form.
fn put_counter(
    out: &mut String,
    form: Form,
    group: &str,
    name: &str,
    number: u64,
) -> Result<(), NoMemory>
    ensures { OnOk result (string_bytes out.new ≡ string_bytes out.old ++ line_of form group.now name.now number) }
{
    match form {
        Form::Rows => put_row(out, group, name, number),
        Form::Lines | Form::Graph | Form::Waits => put_line(out, group, name, number),
    }
}

/// Writes how many calls of an operation there were.
fn put_op(out: &mut String, form: Form, op: Op, number: u64) -> Result<(), NoMemory>
    ensures { OnOk result (string_bytes out.new ≡ string_bytes out.old ++ line_of form (codes "calls") (word_of op) number) }
{
    put_counter(out, form, "calls", op.word(), number)
}

/// Writes how many calls of each operation there were.
fn put_calls(out: &mut String, form: Form, calls: &Calls) -> Result<(), NoMemory>
    ensures { OnOk result (string_bytes out.new ≡ string_bytes out.old ++ lines_of_calls form calls.now) }
{
    put_op(out, form, Op::Begin, calls.begin)?;
    put_op(out, form, Op::Lock, calls.lock)?;
    put_op(out, form, Op::Convert, calls.convert)?;
    put_op(out, form, Op::Poll, calls.poll)?;
    put_op(out, form, Op::Release, calls.release)?;
    put_op(out, form, Op::Commit, calls.commit)?;
    put_op(out, form, Op::Abort, calls.abort)?;
    put_op(out, form, Op::Try, calls.try_lock)?;
    put_op(out, form, Op::Withdraw, calls.withdraw)?;
    put_op(out, form, Op::Restart, calls.restart)
}

/// Writes how requests were answered.
fn put_requests(out: &mut String, form: Form, counts: &Counts) -> Result<(), NoMemory>
    ensures { OnOk result (string_bytes out.new ≡ string_bytes out.old ++ lines_of_requests form counts.now) }
{
    put_counter(out, form, "requests", "all", counts.requests)?;
    put_counter(out, form, "requests", "granted", counts.granted_at_once)?;
    put_counter(out, form, "requests", "waiting", counts.waits_begun)?;
    put_counter(out, form, "requests", "refused", counts.requests_refused)
}

/// Writes how waits ended.
fn put_waits(out: &mut String, form: Form, counts: &Counts) -> Result<(), NoMemory>
    ensures { OnOk result (string_bytes out.new ≡ string_bytes out.old ++ lines_of_waits form counts.now) }
{
    put_counter(out, form, "waits", "begun", counts.waits_begun)?;
    put_counter(out, form, "waits", "granted", counts.waits_granted)?;
    put_counter(out, form, "waits", "doomed", counts.victims)?;
    put_counter(out, form, "waits", "withdrawn", counts.waits_withdrawn)?;
    put_counter(out, form, "waits", "aborted", counts.waits_aborted)?;
    put_counter(out, form, "waits", "restarted", counts.waits_restarted)?;
    put_counter(out, form, "waits", "waiting", counts.waiting)
}

/// Writes how many calls closed a cycle of waits, and how many victims there were.
fn put_deadlocks(out: &mut String, form: Form, counts: &Counts) -> Result<(), NoMemory>
    ensures { OnOk result (string_bytes out.new ≡ string_bytes out.old ++ lines_of_deadlocks form counts.now) }
{
    put_counter(out, form, "deadlocks", "calls", counts.deadlocks)?;
    put_counter(out, form, "deadlocks", "victims", counts.victims)
}

/// Writes how many calls were refused for a reason.
fn put_why(out: &mut String, form: Form, why: Why, number: u64) -> Result<(), NoMemory>
    ensures { OnOk result (string_bytes out.new ≡ string_bytes out.old ++ line_of form (codes "refusals") (name_of_why why) number) }
{
    put_counter(out, form, "refusals", why.name(), number)
}

/// Writes how many calls were refused, by reason.
fn put_refusals(out: &mut String, form: Form, refusals: &Refusals) -> Result<(), NoMemory>
    ensures { OnOk result (string_bytes out.new ≡ string_bytes out.old ++ lines_of_refusals form refusals.now) }
{
    put_why(out, form, Why::AlreadyOpen, refusals.already_open)?;
    put_why(out, form, Why::NoTransaction, refusals.no_transaction)?;
    put_why(out, form, Why::IsWaiting, refusals.is_waiting)?;
    put_why(out, form, Why::IsDoomed, refusals.is_doomed)?;
    put_why(out, form, Why::NothingAsked, refusals.nothing_asked)?;
    put_why(out, form, Why::NotHeld, refusals.not_held)?;
    put_why(out, form, Why::ParentNotHeld, refusals.parent_not_held)?;
    put_why(out, form, Why::ChildHeld, refusals.child_held)?;
    put_why(out, form, Why::TooManyLocks, refusals.too_many_locks)?;
    put_why(out, form, Why::WouldWait, refusals.would_wait)?;
    put_why(out, form, Why::NotWaiting, refusals.not_waiting)
}

/// Writes what the lock table has now.
fn put_gauges(out: &mut String, form: Form, gauges: &Gauges) -> Result<(), NoMemory>
    ensures { OnOk result (string_bytes out.new ≡ string_bytes out.old ++ lines_of_gauges form gauges.now) }
{
    put_counter(out, form, "now", "transactions", gauges.transactions)?;
    put_counter(out, form, "now", "locks", gauges.locks)?;
    put_counter(out, form, "now", "waiting", gauges.waiting)?;
    put_counter(out, form, "now", "longest_queue", gauges.longest_queue)
}

/// The counters of a book's history, and what its lock table has now. `form` is `Lines` for columns and `Rows` for rows of three fields;
/// the other forms are written as `Lines`. Fails only if memory is refused.
///
/// Neither the history nor the locks are walked: it costs what [`Book::counts`] and [`Book::gauges`] cost.
pub fn stats_text(alloc: Global, book: &Book, form: Form) -> Result<String, NoMemory>
    ensures { IfOk result (λ text. string_bytes text ≡ text_of_stats form book.now.sessions book.now.history) }
{
    let counts = book.counts();
    let gauges = book.gauges();
    let mut out = String::new(alloc);
    put_calls(&mut out, form, &counts.calls)?;
    put_requests(&mut out, form, &counts)?;
    put_waits(&mut out, form, &counts)?;
    put_deadlocks(&mut out, form, &counts)?;
    put_refusals(&mut out, form, &counts.refusals)?;
    put_gauges(&mut out, form, &gauges)?;
    Ok(out)
}
