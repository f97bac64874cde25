// How a replay asks the regions for the flood of a query.
ghost use Rattle.std.specs.Prelude.{◌≡◌, ◌<◌, length, IfOk};
ghost use Rattle.reverse_flood.specs.Flood.{net_of, IsFlood};
ghost use Rattle.data_agent.specs.Seeing.{shown_by};
ghost use Rattle.std.specs.Thread.{IsSync};

use data_agent::Sight;
use reverse_flood::{Graph, Node};
use spie_base::NoMemory;
use std::alloc::Global;
use std::marker::Sync;
use std::thread::Threads;
use topology::Topology;
use traceback_manager::{trace, trace_joined};

/// Finds the flood of a query. There is one sight of each router, in the order of the routers. How the regions are asked
/// changes nothing of the graph.
pub trait Finder {
    /// The finder can be used.
    ghost ready: { Self → Type 0 };

    fn find(
        &self,
        alloc: Global,
        topology: &Topology,
        sights: &[Sight<'_>],
        start: &Node,
    ) -> Result<Graph, NoMemory>
        requires ready { ready self.now }
        requires sights { length sights.now ≡ length topology.now.names }
        requires exists { start.now.router.number < length topology.now.names }
        ensures graph { IfOk result (IsFlood (net_of shown_by sights.now topology.now) start.now) };
}

/// Asks one region after another. Takes no handle, and never waits.
#[derive(Drop)]
pub struct InTurn;

impl Finder for InTurn {
    ghost ready = { λ _. Unit {0} };

    fn find(
        &self,
        alloc: Global,
        topology: &Topology,
        sights: &[Sight<'_>],
        start: &Node,
    ) -> Result<Graph, NoMemory> {
        trace(alloc, topology, sights, start)
    }
}

/// Asks all regions of a round at once, each in a thread of its own.
#[derive(Drop)]
pub struct AtOnce<'a, R> {
    pub rt: &'a R,
}

impl<R: Threads + Sync> Finder for AtOnce<'_, R> {
    ghost ready = { λ _. IsSync R.row };

    fn find(
        &self,
        alloc: Global,
        topology: &Topology,
        sights: &[Sight<'_>],
        start: &Node,
    ) -> Result<Graph, NoMemory> {
        trace_joined(self.rt, alloc, topology, sights, start)
    }
}
