// The flood, with all regions of a round asked at once.
ghost use Rattle.std.specs.Prelude.{◌≡◌, ◌<◌, length, IfOk, OnOk};
ghost use Rattle.reverse_flood.specs.Flood.{net_of, IsFlood};
ghost use Rattle.traceback_manager.specs.Beside.{AreAllAsked, AreBlank};

use crate::beside::{Seat, ask_at_once, gather, open_seats, unite};
use reverse_flood::{Graph, Node, graph_of};
use spie_base::{NoMemory, Sighting};
use std::alloc::Global;
use std::marker::Sync;
use std::thread::Threads;
use topology::{Topology, topology_is_sound};

// Asks all regions at once, round by round, until no new pair comes.
fn ask_rounds<R: Threads + Sync, S: Sighting + Sync>(
    rt: &R,
    alloc: Global,
    topology: &Topology,
    sights: &[S],
    start: &Node,
    seats: &mut [Seat],
) -> Result<(), NoMemory>
    requires sights { length sights.now ≡ length topology.now.names }
    requires exists { start.now.router.number < length topology.now.names }
    requires blank { AreBlank topology.now seats.old }
    ensures { OnOk result
        (AreAllAsked (net_of S.shown sights.now topology.now) topology.now start.now seats.new) }
{
    topology_is_sound(topology);
    let mut round = Vec::new(alloc);
    round.push(*start)?;
    for _turn in 0..u64::MAX {
        if round.is_empty() {
            return Ok(());
        }
        ask_at_once(rt, alloc, topology, sights, &round, seats);
        gather(&mut round, seats)?;
    }
    Err(NoMemory)
}

/// The flood from one pair, with the regions of a round asked at once, each in a thread of its own. There is one sight of
/// each router, in the order of the routers. Its graph is that of `trace`. Each region names pairs in a search of its own,
/// so a pair on a border may be named by several regions, and is asked by its own region alone; at the end the searches
/// are made one. A round whose pairs lie in one region starts no thread. Waits for its threads.
pub fn trace_joined<R: Threads + Sync, S: Sighting + Sync>(
    rt: &R,
    alloc: Global,
    topology: &Topology,
    sights: &[S],
    start: &Node,
) -> Result<Graph, NoMemory>
    requires sights { length sights.now ≡ length topology.now.names }
    requires exists { start.now.router.number < length topology.now.names }
    ensures graph { IfOk result (IsFlood (net_of S.shown sights.now topology.now) start.now) }
{
    topology_is_sound(topology);
    let mut seats = open_seats(alloc, topology)?;
    ask_rounds(rt, alloc, topology, sights, start, &mut seats)?;
    let search = unite(alloc, topology, seats)?;
    let graph = graph_of(alloc, topology, sights, &search)?;
    Ok(graph)
}
