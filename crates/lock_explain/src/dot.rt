//! What a request waits for or would wait for and the cycles that it closed, as a graph for Graphviz.

ghost use Rattle.std.specs.Prelude.{◌≡◌, ◌++◌, IfOk, OnOk, string_bytes};
ghost use Rattle.std.specs.List.{flat_map};
ghost use Rattle.lock_explain.specs.ExplanationDot.{node_of_request, node_of_blocker, node_of_member, node_of_victim, edge_of_blocker, edge_of_cycle, nodes_of_wait, edges_of_wait, graph_of_wait, graph_part, nodes_of_asked, graph_of_asked, graph_if_asked, graph_of_refusal, dot_of_explanation};

use crate::explanation::{Blocker, Edge, Explanation, Party, Refusal, Wait};
use lock_report::{put_edge_with, put_start_of_node, put_words};
use lock_rules::Claim;
use std::alloc::{AllocError as NoMemory, Global};
use std::fmt::Write;

/// Writes the node of the session that waits or would wait.
fn put_node_of_request(out: &mut String, request: &Claim) -> Result<(), NoMemory>
    ensures { OnOk result (string_bytes out.new ≡ string_bytes out.old ++ node_of_request request.now) }
{
    put_start_of_node(out, request.session, request.transaction.number)?;
    put_words(out, "\"];\n")
}

/// Writes the node of a session that the request waits for or would wait for.
fn put_node_of_blocker(out: &mut String, blocker: &Blocker) -> Result<(), NoMemory>
    ensures { OnOk result (string_bytes out.new ≡ string_bytes out.old ++ node_of_blocker blocker.now) }
{
    put_start_of_node(out, blocker.party.session, blocker.party.transaction)?;
    put_words(out, "\"];\n")
}

/// Writes the nodes of the sessions that the request waits for or would wait for.
fn put_nodes_of_blockers(out: &mut String, blockers: &[Blocker]) -> Result<(), NoMemory>
    ensures { OnOk result (string_bytes out.new ≡ string_bytes out.old ++ flat_map node_of_blocker blockers.now) }
{
    for blocker in blockers {
        put_node_of_blocker(out, blocker)?;
    }
    Ok(())
}

/// Writes the node of a session on a cycle.
fn put_node_of_member(out: &mut String, member: &Party) -> Result<(), NoMemory>
    ensures { OnOk result (string_bytes out.new ≡ string_bytes out.old ++ node_of_member member.now) }
{
    put_start_of_node(out, member.session, member.transaction)?;
    put_words(out, "\", color=red];\n")
}

/// Writes the nodes of the sessions on a cycle.
fn put_nodes_of_members(out: &mut String, members: &[Party]) -> Result<(), NoMemory>
    ensures { OnOk result (string_bytes out.new ≡ string_bytes out.old ++ flat_map node_of_member members.now) }
{
    for member in members {
        put_node_of_member(out, member)?;
    }
    Ok(())
}

/// Writes the node of a deadlock victim.
fn put_node_of_victim(out: &mut String, victim: &Party) -> Result<(), NoMemory>
    ensures { OnOk result (string_bytes out.new ≡ string_bytes out.old ++ node_of_victim victim.now) }
{
    put_start_of_node(out, victim.session, victim.transaction)?;
    put_words(
        out,
        "\\nvictim\", style=filled, fillcolor=lightgray, color=red];\n",
    )
}

/// Writes the nodes of the victims.
fn put_nodes_of_victims(out: &mut String, victims: &[Party]) -> Result<(), NoMemory>
    ensures { OnOk result (string_bytes out.new ≡ string_bytes out.old ++ flat_map node_of_victim victims.now) }
{
    for victim in victims {
        put_node_of_victim(out, victim)?;
    }
    Ok(())
}

/// Writes the edge from the asker, which waits or would wait, to one of its blockers.
fn put_edge_of_blocker(out: &mut String, session: u16, blocker: &Blocker) -> Result<(), NoMemory>
    ensures { OnOk result (string_bytes out.new ≡ string_bytes out.old ++ edge_of_blocker session blocker.now) }
{
    put_edge_with(out, session, blocker.party.session, ";\n")
}

/// Writes an edge from the asker to each blocker.
fn put_edges_of_blockers(
    out: &mut String,
    session: u16,
    blockers: &[Blocker],
) -> Result<(), NoMemory>
    ensures { OnOk result (string_bytes out.new ≡ string_bytes out.old ++ flat_map (edge_of_blocker session) blockers.now) }
{
    for blocker in blockers {
        put_edge_of_blocker(out, session, blocker)?;
    }
    Ok(())
}

/// Writes the edge of a wait of one session on a cycle for another.
fn put_edge_of_cycle(out: &mut String, edge: &Edge) -> Result<(), NoMemory>
    ensures { OnOk result (string_bytes out.new ≡ string_bytes out.old ++ edge_of_cycle edge.now) }
{
    put_edge_with(out, edge.session, edge.other, " [color=red];\n")
}

/// Writes the edges of the waits on a cycle.
fn put_edges_of_cycle(out: &mut String, edges: &[Edge]) -> Result<(), NoMemory>
    ensures { OnOk result (string_bytes out.new ≡ string_bytes out.old ++ flat_map edge_of_cycle edges.now) }
{
    for edge in edges {
        put_edge_of_cycle(out, edge)?;
    }
    Ok(())
}

/// Writes the nodes, of which the later ones decide how a session that comes more than once is drawn.
fn put_nodes(out: &mut String, wait: &Wait, victims: &[Party]) -> Result<(), NoMemory>
    ensures { OnOk result (string_bytes out.new ≡ string_bytes out.old ++ nodes_of_wait wait.now victims.now) }
{
    put_node_of_request(out, &wait.request)?;
    put_nodes_of_blockers(out, &wait.blockers)?;
    put_nodes_of_members(out, &wait.cycle)?;
    put_nodes_of_victims(out, victims)
}

/// Writes the edges.
fn put_edges(out: &mut String, wait: &Wait) -> Result<(), NoMemory>
    ensures { OnOk result (string_bytes out.new ≡ string_bytes out.old ++ edges_of_wait wait.now) }
{
    put_edges_of_blockers(out, wait.request.session, &wait.blockers)?;
    put_edges_of_cycle(out, &wait.edges)
}

/// Writes the graph of a request that began to wait.
fn put_graph(out: &mut String, place: u64, wait: &Wait, victims: &[Party]) -> Result<(), NoMemory>
    ensures { OnOk result (string_bytes out.new ≡ string_bytes out.old ++ graph_of_wait place wait.now victims.now) }
{
    put_words(out, "strict digraph place_")?;
    write!(out, "{place}")?;
    put_words(out, " {\n")?;
    put_nodes(out, wait, victims)?;
    put_edges(out, wait)?;
    put_words(out, "}\n")
}

/// Writes the graph, nothing if no request began to wait.
fn put_graph_part(
    out: &mut String,
    place: u64,
    wait: &Option<Wait>,
    victims: &[Party],
) -> Result<(), NoMemory>
    ensures { OnOk result (string_bytes out.new ≡ string_bytes out.old ++ graph_part place wait.now victims.now) }
{
    match wait {
        None => Ok(()),
        Some(wait) => put_graph(out, place, wait, victims),
    }
}

/// Writes the node of the session that would wait, and those of the sessions that it would wait for.
fn put_nodes_of_asked(
    out: &mut String,
    request: &Claim,
    blockers: &[Blocker],
) -> Result<(), NoMemory>
    ensures { OnOk result (string_bytes out.new ≡ string_bytes out.old ++ nodes_of_asked request.now blockers.now) }
{
    put_node_of_request(out, request)?;
    put_nodes_of_blockers(out, blockers)
}

/// Writes the graph of a request that would wait.
fn put_graph_of_asked(
    out: &mut String,
    place: u64,
    request: &Claim,
    blockers: &[Blocker],
) -> Result<(), NoMemory>
    ensures { OnOk result (string_bytes out.new ≡ string_bytes out.old ++ graph_of_asked place request.now blockers.now) }
{
    put_words(out, "strict digraph place_")?;
    write!(out, "{place}")?;
    put_words(out, " {\n")?;
    put_nodes_of_asked(out, request, blockers)?;
    put_edges_of_blockers(out, request.session, blockers)?;
    put_words(out, "}\n")
}

/// Writes the graph of a request that would wait, nothing for `None`.
fn put_graph_if_asked(
    out: &mut String,
    place: u64,
    request: &Option<Claim>,
    blockers: &[Blocker],
) -> Result<(), NoMemory>
    ensures { OnOk result (string_bytes out.new ≡ string_bytes out.old ++ graph_if_asked place request.now blockers.now) }
{
    match request {
        None => Ok(()),
        Some(request) => put_graph_of_asked(out, place, request, blockers),
    }
}

/// Writes the graph of a refusal, nothing for `None`.
fn put_graph_of_refusal(
    out: &mut String,
    place: u64,
    refusal: &Option<Refusal>,
) -> Result<(), NoMemory>
    ensures { OnOk result (string_bytes out.new ≡ string_bytes out.old ++ graph_of_refusal place refusal.now) }
{
    match refusal {
        None => Ok(()),
        Some(refusal) => put_graph_if_asked(out, place, &refusal.request, &refusal.blockers),
    }
}

/// What the request of the call at index `place` waits for or would wait for, and the cycles that it closed, as a directed graph
/// of Graphviz: sessions and waits on a cycle are red, and victims are filled. Empty if no request began to wait and none was
/// refused since it would wait. Fails only with `NoMemory`.
pub fn explanation_dot(
    alloc: Global,
    place: u64,
    explanation: &Explanation,
) -> Result<String, NoMemory>
    ensures { IfOk result (λ text. string_bytes text ≡ dot_of_explanation place explanation.now) }
{
    let mut out = String::new(alloc);
    put_graph_of_refusal(&mut out, place, &explanation.refusal)?;
    put_graph_part(&mut out, place, &explanation.wait, &explanation.victims)?;
    Ok(out)
}
