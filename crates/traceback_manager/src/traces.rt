// The flood, asked of the regions in rounds.
ghost use Rattle.std.specs.Prelude.{◌≡◌, ◌<◌, length, IfOk};
ghost use Rattle.reverse_flood.specs.Flood.{net_of, IsFlood};

use crate::rounds::ask_regions;
use reverse_flood::{Graph, Leads, Node, begin, graph_of};
use spie_base::{NoMemory, Sighting};
use std::alloc::Global;
use std::mem;
use topology::Topology;

/// The flood from one pair, asked of the regions in rounds until no new pair comes. There is one sight of each router,
/// in the order of the routers. Its graph is that of `flood`, which looks over the borders of regions. A pair is
/// named once, and a region is asked for what is new alone, so that all rounds together ask what `flood` asks; besides,
/// each pair that comes into a region from another is looked at once for each region. No round is empty, so the number
/// of rounds has no bound but memory.
pub fn trace<S: Sighting>(
    alloc: Global,
    topology: &Topology,
    sights: &[S],
    start: &Node,
) -> Result<Graph, NoMemory>
    requires sights { length sights.now ≡ length topology.now.names }
    requires exists { start.now.router.number < length topology.now.names }
    ensures graph { IfOk result (IsFlood (net_of S.shown sights.now topology.now) start.now) }
{
    let mut leads = Leads::new(alloc);
    let mut search = begin(alloc, topology, &[*start], &mut leads)?;
    let mut round = Vec::new(alloc);
    mem::swap(&mut round, &mut leads.home);
    for _turn in 0..u64::MAX {
        if round.is_empty() {
            let graph = graph_of(alloc, topology, sights, &search)?;
            return Ok(graph);
        }
        ask_regions(alloc, topology, sights, &mut search, &round, &mut leads)?;
        round.clear();
        mem::swap(&mut round, &mut leads.away);
    }
    Err(NoMemory)
}
