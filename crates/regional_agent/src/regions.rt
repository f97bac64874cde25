// Floods within one region.
ghost use Rattle.std.specs.Prelude.{◌≡◌, ◌<◌, ◌↔◌, IsTrue, length, IfOk};
ghost use Rattle.std.specs.List.{Contains};
ghost use Rattle.regional_agent.specs.Answers.{IsHome, AreHome};
ghost use Rattle.reverse_flood.specs.Flood.{net_of, in_region, IsPart};
ghost use Rattle.reverse_flood.specs.declared.graphs.Node.{Node};

use reverse_flood::{Node, Part, flood_within};
use spie_base::{NoMemory, Sighting};
use std::alloc::Global;
use topology::Topology;

// Whether a pair's router exists and lies in a region.
fn is_home(topology: &Topology, region: u32, node: &Node) -> bool
    ensures { IsTrue result ↔ IsHome topology.now region node.now }
{
    node.router.number < topology.routers() && topology.region(node.router) == region
}

/// Whether all of some pairs are at routers of a region, and so can be asked of it.
pub fn lie_in(topology: &Topology, region: u32, entries: &[Node]) -> bool
    ensures { IsTrue result ↔ AreHome topology.now region entries.now }
{
    for entry in entries {
        if !is_home(topology, region, entry) {
            return false;
        }
    }
    true
}

/// The flood from all of some entries at once that stays in their region. Its exits are the steps from a node of the
/// region to a pair of another region, which is not asked. There is one sight of each router, in the order of the
/// routers. Costs what `flood_within` does.
pub fn flood_region<S: Sighting>(
    alloc: Global,
    topology: &Topology,
    sights: &[S],
    region: u32,
    entries: &[Node],
) -> Result<Part, NoMemory>
    requires sights { length sights.now ≡ length topology.now.names }
    requires home { AreHome topology.now region entries.now }
    ensures part { IfOk result
        (IsPart (net_of S.shown sights.now topology.now) (in_region topology.now region) entries.now) }
{
    flood_within(alloc, topology, sights, Some(region), entries)
}
