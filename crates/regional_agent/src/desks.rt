// A region that is asked beside others: it keeps a search of its own from round to round.
ghost use Rattle.std.specs.Prelude.{◌≡◌, ◌<◌, [], length, OnOk};
ghost use Rattle.std.specs.List.{Contains};
ghost use Rattle.regional_agent.specs.Desks.{lying, HasServed, IsBlank, IsReady};
ghost use Rattle.reverse_flood.specs.Flood.{net_of};
ghost use Rattle.reverse_flood.specs.declared.graphs.Node.{Node};

use crate::follows::follow_region;
use reverse_flood::{Leads, Node, Search, enter, no_names};
use spie_base::{NoMemory, Sighting};
use std::alloc::Global;
use topology::Topology;

/// What a region keeps of a traceback in which all regions are asked at once.
#[derive(Drop)]
pub struct Desk {
    /// The region's number.
    pub region: u32,
    /// Which pairs it named, and what it knows of its own.
    pub search: Search,
    /// After a round, the pairs of other regions that it named in it.
    pub leads: Leads,
}

/// The desk of a region that was asked nothing yet.
pub fn open_desk(alloc: Global, region: u32) -> Desk
    ensures region { result.region ≡ region }
    ensures blank { IsBlank result }
{
    Desk {
        region,
        search: no_names(alloc),
        leads: Leads::new(alloc),
    }
}

// Picks the pairs that lie in a region.
fn pick(
    picked: &mut Vec<Node>,
    topology: &Topology,
    region: u32,
    round: &[Node],
) -> Result<(), NoMemory>
    requires empty { picked.old.items ≡ [] }
    requires exist { (n : Node) → Contains round.now n → n.router.number < length topology.now.names }
    ensures { OnOk result (picked.new.items ≡ lying topology.now region round.now) }
{
    for node in round {
        if topology.region(node.router) == region {
            picked.push(*node)?;
        }
    }
    Ok(())
}

/// Asks a region for the pairs of a round that lie in it, and for those of its own to which they lead. The pairs of
/// other regions that are named by that come out as leads that are away. There is one sight of each router, in the order
/// of the routers. Looks at each pair of the round; what was asked before costs nothing more.
pub fn ask_desk<S: Sighting>(
    alloc: Global,
    topology: &Topology,
    sights: &[S],
    round: &[Node],
    desk: &mut Desk,
) -> Result<(), NoMemory>
    requires sights { length sights.now ≡ length topology.now.names }
    requires exist { (n : Node) → Contains round.now n → n.router.number < length topology.now.names }
    requires ready { IsReady desk.old }
    ensures { OnOk result
        (HasServed (net_of S.shown sights.now topology.now) topology.now round.now desk.old desk.new) }
{
    desk.leads.away.clear();
    let mut picked = Vec::new(alloc);
    pick(&mut picked, topology, desk.region, round)?;
    enter(topology, &picked, &mut desk.search, &mut desk.leads)?;
    follow_region(
        alloc,
        topology,
        sights,
        desk.region,
        &mut desk.search,
        &mut desk.leads,
    )?;
    Ok(())
}
