// The items of a report, printed.
ghost use Rattle.std.specs.Prelude.{ℕ, ◌≡◌, ◌<◌, ◌++◌, false, OnOk, length, map};
ghost use Rattle.std.specs.List.{All, flat_map};
ghost use Rattle.reverse_flood.specs.declared.Node.{Node};
ghost use Rattle.reverse_flood.specs.declared.Edge.{Edge};
ghost use Rattle.report_text.specs.declared.Item.TheVariants.{NodeLine, EdgeLine, UnknownLine};
ghost use Rattle.report_text.specs.Report.{item_text, IsNamed};
ghost use Rattle.trace_history.specs.Report.{answer_item, graph_items, watch_item};
ghost use Rattle.trace_replay.specs.Printing.{AddsItems, IsNodeNamed, IsEdgeNamed, IsGraphNamed, is_archival};
ghost use Rattle.trace_replay.specs.Segments.{Splits, item_by};

use crate::state::Answer;
use report_text::{Item, push_entered, push_item};
use reverse_flood::{Edge, Graph, Node};
use router_account::Watch;
use spie_base::NoMemory;
use topology::Topology;

fn watched(line: u64, answer: Watch) -> Item
    ensures { result ≡ watch_item line answer }
{
    match answer {
        Watch::Seen => Item::Seen { line },
        Watch::NotSeen => Item::NotSeen { line },
        Watch::Unknown => Item::Unknown { line },
    }
}

/// Appends the line of an answer that is no archival.
#[inline]
pub fn push_plain(
    out: &mut Vec<u8>,
    topology: &Topology,
    line: u64,
    answer: Answer,
) -> Result<(), NoMemory>
    requires { is_archival answer ≡ false }
    ensures { (f : Splits) → OnOk result
        (out.new.items ≡ out.old.items ++ item_text topology.now.names (item_by f line answer)) }
{
    match answer {
        Answer::Entered(page) => push_entered(out, line, page),
        Answer::Opened(page) => push_item(out, topology, &Item::Opened { line, page }),
        Answer::Watched(answer) => push_item(out, topology, &watched(line, answer)),
        Answer::Archived(_) => unreachable!(),
    }
}

fn push_nodes(
    out: &mut Vec<u8>,
    topology: &Topology,
    line: u64,
    nodes: &[Node],
) -> Result<(), NoMemory>
    requires { All (IsNodeNamed topology.now.names) nodes.now }
    ensures { OnOk result (AddsItems topology.now.names (map (NodeLine line) nodes.now) out.old.items out.new.items) }
{
    for node in nodes {
        push_item(out, topology, &Item::NodeLine { line, node: *node })?;
    }
    Ok(())
}

fn push_unknowns(
    out: &mut Vec<u8>,
    topology: &Topology,
    line: u64,
    nodes: &[Node],
) -> Result<(), NoMemory>
    requires { All (IsNodeNamed topology.now.names) nodes.now }
    ensures { OnOk result (AddsItems topology.now.names
        (map (UnknownLine line) nodes.now) out.old.items out.new.items) }
{
    for node in nodes {
        push_item(out, topology, &Item::UnknownLine { line, node: *node })?;
    }
    Ok(())
}

fn push_edges(
    out: &mut Vec<u8>,
    topology: &Topology,
    line: u64,
    edges: &[Edge],
) -> Result<(), NoMemory>
    requires { All (IsEdgeNamed topology.now.names) edges.now }
    ensures { OnOk result (AddsItems topology.now.names (map (EdgeLine line) edges.now) out.old.items out.new.items) }
{
    for edge in edges {
        push_item(out, topology, &Item::EdgeLine { line, edge: *edge })?;
    }
    Ok(())
}

fn push_answer(
    out: &mut Vec<u8>,
    topology: &Topology,
    line: u64,
    graph: &Graph,
) -> Result<(), NoMemory>
    ensures { OnOk result (out.new.items ≡ out.old.items ++ item_text topology.now.names (answer_item line graph.now)) }
{
    let answer = Item::Answer {
        line,
        nodes: graph.nodes.items().len() as u64,
        edges: graph.edges.items().len() as u64,
        unknown: graph.unknown.items().len() as u64,
        clear: graph.clear.items().len() as u64,
    };
    push_item(out, topology, &answer)?;
    Ok(())
}

/// Appends the lines of a graph.
pub fn push_graph(
    out: &mut Vec<u8>,
    topology: &Topology,
    line: u64,
    graph: &Graph,
) -> Result<(), NoMemory>
    requires { IsGraphNamed topology.now.names graph.now }
    ensures { OnOk result (AddsItems topology.now.names (graph_items line graph.now) out.old.items out.new.items) }
{
    push_nodes(out, topology, line, graph.nodes.items())?;
    push_edges(out, topology, line, graph.edges.items())?;
    push_unknowns(out, topology, line, graph.unknown.items())?;
    push_answer(out, topology, line, graph)?;
    Ok(())
}
