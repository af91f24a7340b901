//! The waits-for graph for Graphviz.

ghost use Rattle.std.specs.Prelude.{◌≡◌, ◌++◌, IfOk, OnOk, string_bytes};
ghost use Rattle.std.specs.List.{flat_map};
ghost use Rattle.lock_report.specs.Dot.{end_of_node, node_of, edge_of, dot_of_waits};

use crate::nodes::{put_edge_with, put_start_of_node};
use crate::snapshot::{OpenTransaction, WaitFor};
use lock_rules::Transaction;
use std::alloc::{AllocError as NoMemory, Global};

/// Writes the end of a node: of a victim, the mark in its label and its color.
fn put_end_of_node(out: &mut String, transaction: Transaction) -> Result<(), NoMemory>
    ensures { OnOk result (string_bytes out.new ≡ string_bytes out.old ++ end_of_node transaction) }
{
    if transaction.doomed {
        out.push_str("\\nvictim\", style=filled, fillcolor=lightgray];\n")
    } else {
        out.push_str("\"];\n")
    }
}

/// Writes the node of a session.
fn put_node(out: &mut String, begun: &OpenTransaction) -> Result<(), NoMemory>
    ensures { OnOk result (string_bytes out.new ≡ string_bytes out.old ++ node_of begun.now) }
{
    put_start_of_node(out, begun.session, begun.transaction.number)?;
    put_end_of_node(out, begun.transaction)
}

/// Writes the edge of a wait.
pub(crate) fn put_edge(out: &mut String, wait: &WaitFor) -> Result<(), NoMemory>
    ensures { OnOk result (string_bytes out.new ≡ string_bytes out.old ++ edge_of wait.now) }
{
    put_edge_with(out, wait.session, wait.other, ";\n")
}

/// Writes the nodes.
pub(crate) fn put_nodes(out: &mut String, opens: &[OpenTransaction]) -> Result<(), NoMemory>
    ensures { OnOk result (string_bytes out.new ≡ string_bytes out.old ++ flat_map node_of opens.now) }
{
    for begun in opens {
        put_node(out, begun)?;
    }
    Ok(())
}

/// Writes the edges.
fn put_edges(out: &mut String, waits: &[WaitFor]) -> Result<(), NoMemory>
    ensures { OnOk result (string_bytes out.new ≡ string_bytes out.old ++ flat_map edge_of waits.now) }
{
    for wait in waits {
        put_edge(out, wait)?;
    }
    Ok(())
}

/// The waits-for graph as a directed graph of Graphviz: a node for each open transaction, filled if it is a victim, and
/// an edge for each wait. Fails only with `NoMemory`.
pub fn waits_dot(
    alloc: Global,
    opens: &[OpenTransaction],
    waits: &[WaitFor],
) -> Result<String, NoMemory>
    ensures { IfOk result (λ text. string_bytes text ≡ dot_of_waits opens.now waits.now) }
{
    let mut out = String::new(alloc);
    out.push_str("digraph waits {\n")?;
    put_nodes(&mut out, opens)?;
    put_edges(&mut out, waits)?;
    out.push_str("}\n")?;
    Ok(out)
}
