// The requests that follow from an accepted part.
ghost use Rattle.std.specs.Prelude.{◌≡◌, ◌<◌, ◌++◌, length, IfOk, OnOk};
ghost use Rattle.std.specs.List.{Contains};
ghost use Rattle.reverse_flood.specs.Flood.{IsListOf, node_cmp};
ghost use Rattle.reverse_flood.specs.declared.graphs.Node.{Node};
ghost use Rattle.regional_agent.specs.Desks.{lying};
ghost use Rattle.agent_wire.specs.Accepting.{IsNew, request_of, requests_below, requests_for};
ghost use Rattle.agent_wire.specs.Sets.{is_new, news};

use crate::Asked;
use reverse_flood::{Edge, Node, Part};
use spie_base::{List, NoMemory, ascending};
use std::alloc::Global;
use std::collections::BTreeSet;
use topology::Topology;

// Whether a pair's router exists, and the pair is not known.
fn is_new(topology: &Topology, known: &BTreeSet<Node>, node: &Node) -> bool
    ensures { result ≡ is_new topology.now known.now node.now }
{
    node.router.number < topology.routers() && !known.contains(node)
}

// The new pairs to which exits lead, in the order of the exits.
fn news(
    alloc: Global,
    topology: &Topology,
    known: &BTreeSet<Node>,
    exits: &[Edge],
) -> Result<Vec<Node>, NoMemory>
    ensures { IfOk result (λ found. found.items ≡ news topology.now known.now exits.now) }
{
    let mut found = Vec::new(alloc);
    for exit in exits {
        if is_new(topology, known, &exit.up) {
            found.push(exit.up)?;
        }
    }
    Ok(found)
}

/// The pairs of routers that exist to which a part's exits lead and that are not known. Ascending, each once.
pub(crate) fn new_pairs(
    alloc: Global,
    topology: &Topology,
    known: &BTreeSet<Node>,
    part: &Part,
) -> Result<List<Node>, NoMemory>
    ensures { IfOk result (IsListOf node_cmp (IsNew topology.now (λ n. Contains known.now.keys n) part.now)) }
{
    let found = news(alloc, topology, known, part.exits.items())?;
    Ok(ascending(found))
}

// Picks the pairs that lie in a region.
fn pick(
    picked: &mut Vec<Node>,
    topology: &Topology,
    region: u32,
    pairs: &[Node],
) -> Result<(), NoMemory>
    requires exist { (n : Node) → Contains pairs.now n → n.router.number < length topology.now.names }
    ensures { OnOk result (picked.new.items ≡ picked.old.items ++ lying topology.now region pairs.now) }
{
    for pair in pairs {
        if topology.region(pair.router) == region {
            picked.push(*pair)?;
        }
    }
    Ok(())
}

// Adds the request to a region, where there is one.
fn push_request(
    alloc: Global,
    made: &mut Vec<Asked>,
    topology: &Topology,
    region: u32,
    pairs: &[Node],
) -> Result<(), NoMemory>
    requires exist { (n : Node) → Contains pairs.now n → n.router.number < length topology.now.names }
    ensures { OnOk result (made.new.items ≡ made.old.items ++ request_of region (lying topology.now region pairs.now)) }
{
    let mut entries = Vec::new(alloc);
    pick(&mut entries, topology, region, pairs)?;
    if !entries.is_empty() {
        let entries = List::of(entries);
        made.push(Asked {
            region,
            entries,
            part: None,
        })?;
    }
    Ok(())
}

/// The requests for some pairs: to each region for those that lie in it, in rising order of the regions.
#[tactic(auto, unfolding(crate::specs::Accepting::requests_below))]
pub(crate) fn requests_for(
    alloc: Global,
    topology: &Topology,
    pairs: &[Node],
) -> Result<Vec<Asked>, NoMemory>
    requires exist { (n : Node) → Contains pairs.now n → n.router.number < length topology.now.names }
    ensures { IfOk result (λ made. made.items ≡ requests_for topology.now pairs.now) }
{
    let mut made = Vec::new(alloc);
    for region in 0..topology.regions() {
        push_request(alloc, &mut made, topology, region, pairs)?;
    }
    Ok(made)
}
