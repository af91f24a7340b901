//! The texts of answers that tell of no call.

ghost use Rattle.std.specs.Prelude.{◌≡◌, ◌++◌, OnOk, codes, decimal, string_bytes};
ghost use Rattle.lock_shell.specs.Texts.{name_of_kind, name_of_path_fault, text_of_unread};

use crate::line::Unread;
use lock_trace::TraceKind;
use lock_tree::PathFault;
use std::alloc::AllocError as NoMemory;
use std::fmt::Write;

/// The first line of a shell.
pub(crate) const GREETING: &str =
    "glm shell: a call a line, as '1 lock 1/2 S'; 'help' lists the words, 'quit' ends\n";

/// The answer to `help`.
pub(crate) const HELP: &str =
    "a line is a call of a session, or one of the words below; blanks or commas between, any case
  1 begin              opens a transaction of session 1
  1 lock 1/2 S         asks for file 2 of database 1
  1 path 1/2/3 X       asks for page 3 of it, and first for what its ancestors need
  1 convert 1/2 X      asks for more of what is held
  1 try 1/3 S          asks as lock does, and is refused if it would wait
  1 poll               asks how a request that waits stands
  1 withdraw           takes a request that waits back
  1 release 1/2        gives one lock back
  1 commit             gives all back; so does abort
  1 restart            gives all back, and begins the same transaction anew
resources are 1 to 5 numbers joined by '/'; modes are IS, IX, S, SIX, U and X
  show                 who holds what, and who waits for whom
  why 2                why session 2 waits, was refused or is a deadlock victim
  undo                 takes the calls of the last line back
  save FILE            writes the calls so far as a trace
  load FILE            serves the calls of a trace after those so far, as one line
  help                 these words
  quit                 ends, as the end of the input does
";

/// The answer to a line that can't be read: what is wrong, and what would help.
pub(crate) fn text_of_unread(unread: Unread) -> &'static str
    ensures { result.now ≡ text_of_unread unread }
{
    match unread {
        Unread::Long => "can't read this: more words than a call has, as in '1 lock 1/2 S'\n",
        Unread::Word =>
            "can't read this: a line begins with a session, as in '1 begin'; 'help' lists the words\n",
        Unread::Session => "can't read this: 'why' takes one of the sessions, as in 'why 1'\n",
        Unread::Name => "can't read this: a file is named by one word, as in 'save calls.csv'\n",
        Unread::Call(kind) => match kind {
            TraceKind::Session =>
                "can't read this: a line begins with one of the sessions, as in '1 begin'; 'help' lists the words\n",
            TraceKind::Op =>
                "can't read this: calls are begin, lock, path, convert, try, release, poll, withdraw, commit, abort and restart\n",
            TraceKind::Path(_) =>
                "can't read this: a resource is 1 to 5 numbers joined by '/', as in 1/2/3\n",
            TraceKind::Mode =>
                "can't read this: a mode is IS, IX, S, SIX, U or X, as in '1 lock 1/2 S'\n",
            TraceKind::Extra => "can't read this: this call takes fewer words; 'help' shows each\n",
            _ => "can't read this: 'help' shows what can be typed\n",
        },
    }
}

/// The answer to `why` for a session without a call.
pub(crate) const NO_CALL: &str = "this session has made no call\n";

/// The answer to `load` for a trace without rows.
pub(crate) const NO_CALLS: &str = "this trace has no calls\n";

/// The name of the fault of a path, behind the name of the kind.
fn path_name(fault: PathFault) -> &'static str
    ensures { result.now ≡ codes "Path " ++ name_of_path_fault fault }
{
    match fault {
        PathFault::Empty => "Path Empty",
        PathFault::TooDeep => "Path TooDeep",
        PathFault::NotANumber => "Path NotANumber",
        PathFault::TooLarge => "Path TooLarge",
        PathFault::LeadingZero => "Path LeadingZero",
    }
}

/// The name of a fault of a row, as other commands write it.
pub(crate) fn kind_name(kind: TraceKind) -> &'static str
    ensures { result.now ≡ name_of_kind kind }
{
    match kind {
        TraceKind::Shape => "Shape",
        TraceKind::Session => "Session",
        TraceKind::Op => "Op",
        TraceKind::Path(fault) => path_name(fault),
        TraceKind::Mode => "Mode",
        TraceKind::Extra => "Extra",
        TraceKind::Device => "Device",
        TraceKind::NoMemory => "NoMemory",
        TraceKind::Place => "Place",
        TraceKind::Reply => "Reply",
        TraceKind::Value => "Value",
    }
}

/// Writes the number of a row that can't be read.
pub(crate) fn put_bad_row(out: &mut String, row: u64) -> Result<(), NoMemory>
    ensures { OnOk result (string_bytes out.new ≡ string_bytes out.old ++ (codes "can't load this trace: row " ++ decimal row)) }
{
    write!(out, "can't load this trace: row {row}")
}

/// Writes the name of a fault, behind the number of its row.
pub(crate) fn put_fault(out: &mut String, name: &str) -> Result<(), NoMemory>
    ensures { OnOk result (string_bytes out.new ≡ string_bytes out.old ++ (codes ": " ++ name.now ++ codes "\n")) }
{
    writeln!(out, ": {name}")
}
