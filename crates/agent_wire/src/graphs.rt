// The graph of the accepted parts.
ghost use Rattle.std.specs.Prelude.{◌≡◌, ◌++◌, IfOk, OnOk};
ghost use Rattle.std.specs.List.{filter, flat_map};
ghost use Rattle.std.specs.List.Sorted.{IsStrictlySortedBy};
ghost use Rattle.reverse_flood.specs.Flood.{node_cmp};
ghost use Rattle.agent_wire.specs.Told.{all_told, exits_among, leads_to, told_by};
ghost use Rattle.agent_wire.specs.Union.{first_open, IsUnion};
ghost use Rattle.agent_wire.specs.Sets.{AreSettled};

use crate::Asked;
use crate::searching::is_among;
use reverse_flood::{Edge, Graph, Node, Part};
use spie_base::{NoMemory, ascending};
use std::alloc::Global;

// The lists of all accepted parts, one behind the other.
#[derive(Drop)]
struct Told {
    nodes: Vec<Node>,
    edges: Vec<Edge>,
    unknown: Vec<Node>,
    clear: Vec<Node>,
}

/// The number of the first request without a part, or how many requests there are, where all below a number have one.
pub(crate) fn first_open(made: &[Asked], from: usize) -> usize
    requires { AreSettled made.now from }
    ensures { result ≡ first_open made.now }
{
    for place in from..made.len() {
        if made[place].part.is_none() {
            return place;
        }
    }
    made.len()
}

// Puts the lists of a part behind the others.
fn tell(told: &mut Told, part: &Option<Part>) -> Result<(), NoMemory>
    ensures nodes { OnOk result (told.new.nodes.items ≡ told.old.nodes.items ++ told_by (λ p. p.nodes) part.now) }
    ensures edges { OnOk result (told.new.edges.items ≡ told.old.edges.items ++ told_by (λ p. p.edges) part.now) }
    ensures unknown { OnOk result (told.new.unknown.items ≡ told.old.unknown.items ++ told_by (λ p. p.unknown) part.now) }
    ensures clear { OnOk result (told.new.clear.items ≡ told.old.clear.items ++ told_by (λ p. p.clear) part.now) }
{
    if let Some(part) = part {
        told.nodes.extend_from_slice(part.nodes.items())?;
        told.edges.extend_from_slice(part.edges.items())?;
        told.unknown.extend_from_slice(part.unknown.items())?;
        told.clear.extend_from_slice(part.clear.items())?;
    }
    Ok(())
}

fn tell_all(alloc: Global, made: &[Asked]) -> Result<Told, NoMemory>
    ensures nodes { IfOk result (λ told. told.nodes.items ≡ all_told (λ p. p.nodes) made.now) }
    ensures edges { IfOk result (λ told. told.edges.items ≡ all_told (λ p. p.edges) made.now) }
    ensures unknown { IfOk result (λ told. told.unknown.items ≡ all_told (λ p. p.unknown) made.now) }
    ensures clear { IfOk result (λ told. told.clear.items ≡ all_told (λ p. p.clear) made.now) }
{
    let mut told = Told {
        nodes: Vec::new(alloc),
        edges: Vec::new(alloc),
        unknown: Vec::new(alloc),
        clear: Vec::new(alloc),
    };
    for asked in made {
        tell(&mut told, &asked.part)?;
    }
    Ok(told)
}

// Puts those exits behind the edges that lead to a node.
fn push_exits(edges: &mut Vec<Edge>, nodes: &[Node], exits: &[Edge]) -> Result<(), NoMemory>
    requires { IsStrictlySortedBy node_cmp nodes.now }
    ensures { OnOk result (edges.new.items ≡ edges.old.items ++ filter (leads_to nodes.now) exits.now) }
{
    for exit in exits {
        if is_among(nodes, &exit.up) {
            edges.push(*exit)?;
        }
    }
    Ok(())
}

fn push_exits_of(edges: &mut Vec<Edge>, nodes: &[Node], asked: &Asked) -> Result<(), NoMemory>
    requires { IsStrictlySortedBy node_cmp nodes.now }
    ensures { OnOk result (edges.new.items ≡ edges.old.items ++ exits_among nodes.now asked.now) }
{
    if let Some(part) = &asked.part {
        push_exits(edges, nodes, part.exits.items())?;
    }
    Ok(())
}

fn push_all_exits(edges: &mut Vec<Edge>, nodes: &[Node], made: &[Asked]) -> Result<(), NoMemory>
    requires { IsStrictlySortedBy node_cmp nodes.now }
    ensures { OnOk result (edges.new.items ≡ edges.old.items ++ flat_map (exits_among nodes.now) made.now) }
{
    for asked in made {
        push_exits_of(edges, nodes, asked)?;
    }
    Ok(())
}

/// The union of the accepted parts, with an exit as an edge where it leads to a node. Costs a sort of what they tell.
pub(crate) fn union(alloc: Global, made: &[Asked]) -> Result<Graph, NoMemory>
    ensures { IfOk result (IsUnion made.now) }
{
    let told = tell_all(alloc, made)?;
    let nodes = ascending(told.nodes);
    let mut edges = told.edges;
    push_all_exits(&mut edges, nodes.items(), made)?;
    Ok(Graph {
        nodes,
        edges: ascending(edges),
        unknown: ascending(told.unknown),
        clear: ascending(told.clear),
    })
}
