//! flood_bench: floods for a stopwatch that stands outside (`bench/floods.py`).
//!
//! `flood_bench WHAT REACH SIGNATURES TIMES` floods so often from one pair over 64 routers in a ring, in 16 regions of four,
//! each linked with the next REACH, and prints how many nodes and edges it found. WHAT is `flood`, or `trace` for the same
//! asked of the regions. The first router changed the packet from any of so many SIGNATURES, so that 64 pairs are asked for
//! each. It ends with 0, with 2 for other words, 5 where it can't print, and 6 where there is no memory. Nothing is proved
//! of it but that it is safe: what floods find is the contract of `reverse_flood`.
#![tactic(auto)]

mod sights;
mod words;

use crate::sights::{Recorder, sights_of, signature};
use crate::words::{What, Work, read_words};
use reverse_flood::{Graph, Node, flood};
use spie_base::{NoMemory, RouterId};
use std::alloc::Global;
use std::marker::Sync;
use std::process::ExitCode;
use std::thread::Threads;
use topology::{ROUTERS_MOST, Topology};
use traceback_manager::{trace, trace_joined};

/// What the last of the floods found.
#[derive(Clone, Copy)]
struct Counts {
    nodes: usize,
    edges: usize,
}

// A ring of routers, each linked with the next ones, in regions of four.
fn wired(alloc: Global, reach: u8) -> Option<Topology> {
    let mut topology = Topology::new(alloc).ok()?;
    for i in 0..64u8 {
        let _id = topology.add_router(alloc, &[i], &[i / 4]).ok()?;
    }
    for step in 0..reach {
        for i in 0..64u8 {
            let other = i.wrapping_add(step).wrapping_add(1) % 64;
            let _added = topology.add_link(alloc, &[i], &[other]).is_ok();
        }
    }
    Some(topology)
}

fn once<R: Threads + Sync>(
    rt: &R,
    alloc: Global,
    what: What,
    topology: &Topology,
    sights: &[Recorder],
    start: &Node,
) -> Result<Option<Graph>, NoMemory> {
    if topology.routers() as usize != ROUTERS_MOST || sights.len() != ROUTERS_MOST {
        return Ok(None);
    }
    if start.router.number >= topology.routers() {
        return Ok(None);
    }
    let graph = match what {
        What::Flood => flood(alloc, topology, sights, start)?,
        What::Trace => trace(alloc, topology, sights, start)?,
        What::Joined => trace_joined(rt, alloc, topology, sights, start)?,
    };
    Ok(Some(graph))
}

fn done<R: Threads + Sync>(rt: &R, alloc: Global, work: &Work) -> Result<Option<Counts>, NoMemory> {
    let Some(topology) = wired(alloc, work.reach) else {
        return Ok(None);
    };
    let sights = sights_of(alloc, work.signatures)?;
    let start = Node {
        router: RouterId { number: 0 },
        sig: signature(0),
    };
    let mut counts = Counts { nodes: 0, edges: 0 };
    for _ in 0..work.times {
        let Some(graph) = once(rt, alloc, work.what, &topology, &sights, &start)? else {
            return Ok(None);
        };
        counts = Counts {
            nodes: graph.nodes.items().len(),
            edges: graph.edges.items().len(),
        };
    }
    Ok(Some(counts))
}

fn main(rt: HostRuntime) -> ExitCode {
    let alloc = rt.alloc();
    let work = match read_words(&rt, alloc) {
        Ok(Some(work)) => work,
        Ok(None) => return ExitCode::from(2),
        Err(_) => return ExitCode::from(6),
    };
    match done(&rt, alloc, &work) {
        Ok(Some(counts)) => {
            if println!(rt; "{} {}", counts.nodes, counts.edges).is_ok() {
                ExitCode::from(0)
            } else {
                ExitCode::from(5)
            }
        }
        Ok(None) => ExitCode::from(2),
        Err(_) => ExitCode::from(6),
    }
}
