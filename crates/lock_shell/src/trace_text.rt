//! The calls of a history as the text of a trace.

ghost use Rattle.std.specs.Prelude.{◌≡◌, ◌++◌, IfOk, OnOk, string_bytes};
ghost use Rattle.std.specs.List.{flat_map};
ghost use Rattle.lock_shell.specs.inner.Traces.{row_of_call};

use lock_rules::{Call, Entry};
use std::alloc::{AllocError as NoMemory, Global};
use std::fmt::Write;

/// Writes the row of an entry's call.
fn put_row(out: &mut String, entry: &Entry) -> Result<(), NoMemory>
    ensures { OnOk result (string_bytes out.new ≡ string_bytes out.old ++ row_of_call entry.now) }
{
    let session = entry.session;
    let op = entry.call.op().word();
    match entry.call {
        Call::Lock(resource, mode) | Call::Convert(resource, mode) | Call::Try(resource, mode) => {
            let name = mode.name();
            writeln!(out, "{session},{op},{resource},{name}")
        }
        Call::Release(resource) => writeln!(out, "{session},{op},{resource},"),
        Call::Begin | Call::Poll | Call::Commit | Call::Abort | Call::Withdraw | Call::Restart => {
            writeln!(out, "{session},{op},,")
        }
    }
}

/// The calls of the entries as a trace: a row of four fields each. Fails if memory is refused.
pub(crate) fn trace_text(alloc: Global, entries: &[Entry]) -> Result<String, NoMemory>
    ensures { IfOk result (λ text. string_bytes text ≡ flat_map row_of_call entries.now) }
{
    let mut out = String::new(alloc);
    for entry in entries {
        put_row(&mut out, entry)?;
    }
    Ok(out)
}
