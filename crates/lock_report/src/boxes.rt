//! The contended resources and who waits for whom first, for Graphviz.

ghost use Rattle.std.specs.Prelude.{◌≡◌, ◌++◌, None, IfOk, OnOk, string_bytes};
ghost use Rattle.std.specs.List.{flat_map};
ghost use Rattle.lock_report.specs.LocksDot.{box_at, box_of, boxed_graph, boxes_behind, dot_of_locks, edge_if_first, line_if_lock, numbered_line, queue_lines, start_of_label, words_of_claim};

use crate::claims::{is_lock_kind, is_request_kind};
use crate::dot::{put_edge, put_nodes};
use crate::queues::{begins_queue, claims_on, waited};
use crate::rows_of_boxes::{put_name, put_places};
use crate::snapshot::{OpenTransaction, WaitLine};
use crate::text::{mode_word, resource_verb};
use lock_rules::{Claim, ClaimKind};
use lock_tree::Resource;
use std::alloc::{AllocError as NoMemory, Global};
use std::fmt::Write;

/// The first lines of the graph.
const START: &str =
    "digraph locks {\n  graph [rankdir=LR, pack=true, nodesep=0.1];\n  node [margin=\"0.05,0.02\"];\n";

/// Writes the claim in words, and the end of its line in a label.
fn put_words(out: &mut String, claim: &Claim) -> Result<(), NoMemory>
    ensures { OnOk result (string_bytes out.new ≡ string_bytes out.old ++ words_of_claim claim.now) }
{
    let session = claim.session;
    let verb = resource_verb(claim.kind);
    let word = mode_word(claim.kind);
    let mode = claim.mode.name();
    write!(out, "session {session} {verb} {word} {mode}\\l")
}

/// Writes the line of a lock.
fn put_if_lock(out: &mut String, claim: &Claim) -> Result<(), NoMemory>
    ensures { OnOk result (string_bytes out.new ≡ string_bytes out.old ++ line_if_lock claim.now) }
{
    if is_lock_kind(claim.kind) {
        put_words(out, claim)?;
    }
    Ok(())
}

/// Writes the lines of the locks.
fn put_locks(out: &mut String, claims: &[Claim]) -> Result<(), NoMemory>
    ensures { OnOk result (string_bytes out.new ≡ string_bytes out.old ++ flat_map line_if_lock claims.now) }
{
    for claim in claims {
        put_if_lock(out, claim)?;
    }
    Ok(())
}

/// Writes the line of a request.
fn put_numbered(out: &mut String, number: usize, claim: &Claim) -> Result<(), NoMemory>
    ensures { OnOk result (string_bytes out.new ≡ string_bytes out.old ++ numbered_line number claim.now) }
{
    write!(out, "{number}. ")?;
    put_words(out, claim)
}

/// Writes the lines of the requests.
fn put_queue(out: &mut String, claims: &[Claim]) -> Result<(), NoMemory>
    ensures { OnOk result (string_bytes out.new ≡ string_bytes out.old ++ queue_lines 1 claims.now) }
{
    let mut ahead = 0;
    for claim in claims {
        if is_request_kind(claim.kind) {
            ahead += 1;
            put_numbered(out, ahead, claim)?;
        }
    }
    Ok(())
}

/// Writes the attributes of the node of a resource, up to the end of its label's first line.
fn put_start_of_label(out: &mut String, resource: Resource) -> Result<(), NoMemory>
    ensures { OnOk result (string_bytes out.new ≡ string_bytes out.old ++ start_of_label resource) }
{
    write!(out, " [shape=box, label=\"{resource}\\l")
}

/// Writes the node of a resource with these claims.
fn put_box(out: &mut String, resource: Resource, claims: &[Claim]) -> Result<(), NoMemory>
    ensures { OnOk result (string_bytes out.new ≡ string_bytes out.old ++ box_of resource claims.now) }
{
    out.push_str("  ")?;
    put_name(out, resource)?;
    put_start_of_label(out, resource)?;
    put_locks(out, claims)?;
    put_queue(out, claims)?;
    out.push_str("\"];\n")
}

/// Writes the box of the resource if the claims begin with its queue.
fn put_box_at(
    out: &mut String,
    last: Option<Resource>,
    resource: Resource,
    claims: &[Claim],
) -> Result<(), NoMemory>
    ensures { OnOk result (string_bytes out.new ≡ string_bytes out.old ++ box_at last resource claims.now) }
{
    if begins_queue(last, resource, claims) {
        put_box(out, resource, claims_on(claims, resource))?;
    }
    Ok(())
}

/// Writes the boxes of a listing.
fn put_boxes(out: &mut String, claims: &[Claim]) -> Result<(), NoMemory>
    ensures { OnOk result (string_bytes out.new ≡ string_bytes out.old ++ boxes_behind None claims.now) }
{
    let mut last = None;
    for index in 0..claims.len() {
        let resource = claims[index].resource;
        put_box_at(out, last, resource, &claims[index..])?;
        last = Some(resource);
    }
    Ok(())
}

/// Writes the edge of a wait for a first blocker.
fn put_edge_if_first(out: &mut String, told: &WaitLine) -> Result<(), NoMemory>
    ensures { OnOk result (string_bytes out.new ≡ string_bytes out.old ++ edge_if_first told.now) }
{
    if told.first {
        put_edge(out, &told.wait)?;
    }
    Ok(())
}

/// Writes the edges.
fn put_first_edges(out: &mut String, waits: &[WaitLine]) -> Result<(), NoMemory>
    ensures { OnOk result (string_bytes out.new ≡ string_bytes out.old ++ flat_map edge_if_first waits.now) }
{
    for told in waits {
        put_edge_if_first(out, told)?;
    }
    Ok(())
}

/// Writes the graph up to its edges.
fn put_boxed(
    alloc: Global,
    out: &mut String,
    opens: &[OpenTransaction],
    claims: &[Claim],
) -> Result<(), NoMemory>
    ensures { OnOk result (string_bytes out.new ≡ string_bytes out.old ++ boxed_graph opens.now claims.now) }
{
    let boxed = waited(alloc, claims)?;
    out.push_str(START)?;
    put_nodes(out, opens)?;
    put_boxes(out, claims)?;
    put_places(out, &boxed)?;
    Ok(())
}

/// The contended resources and the waits for first blockers as a directed graph of Graphviz: a node for each open transaction,
/// filled if it is a victim; a box for each resource with a waiting request, with its holders and its queue, in rows; and an edge for
/// each wait for a first blocker. `claims` has the order of a listing: resource by resource. Its cost grows with the number of claims.
/// Fails only with `NoMemory`.
pub fn locks_dot(
    alloc: Global,
    opens: &[OpenTransaction],
    claims: &[Claim],
    waits: &[WaitLine],
) -> Result<String, NoMemory>
    ensures { IfOk result (λ text. string_bytes text ≡ dot_of_locks opens.now claims.now waits.now) }
{
    let mut out = String::new(alloc);
    put_boxed(alloc, &mut out, opens, claims)?;
    put_first_edges(&mut out, waits)?;
    out.push_str("}\n")?;
    Ok(out)
}
