//! Nodes and edges of a graph of sessions, as Graphviz reads them.

ghost use Rattle.std.specs.Prelude.{◌≡◌, ◌++◌, OnOk, string_bytes};
ghost use Rattle.lock_report.specs.Nodes.{start_of_node, edge_with};

use std::alloc::AllocError as NoMemory;
use std::fmt::Write;

/// Appends the node of a session with the number of its transaction, up to the end of its label's second line.
pub fn put_start_of_node(out: &mut String, session: u16, number: u64) -> Result<(), NoMemory>
    ensures { OnOk result (string_bytes out.new ≡ string_bytes out.old ++ start_of_node session number) }
{
    write!(
        out,
        "  {session} [label=\"session {session}\\ntransaction {number}"
    )
}

/// Appends an edge from one session to another, with these words behind it.
pub fn put_edge_with(out: &mut String, session: u16, other: u16, end: &str) -> Result<(), NoMemory>
    ensures { OnOk result (string_bytes out.new ≡ string_bytes out.old ++ edge_with session other end.now) }
{
    write!(out, "  {session} -> {other}{end}")
}
