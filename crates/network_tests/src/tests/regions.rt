use super::nets::{Recorder, at, edge, recorders, wired};
use regional_agent::{RegionAnswer, answer_region, flood_region, lie_in};
use reverse_flood::{Node, Part, flood, one_flood};
use spie_base::NoMemory;
use std::alloc::Global;
use std::test::Fail;
use topology::Topology;
use traceback_manager::{trace, trace_joined};

// Three routers in a ring, each in a region of its own.
const ROUTERS: [(&[u8], &[u8]); 3] = [(b"a", b"r1"), (b"b", b"r2"), (b"c", b"r3")];

const LINKS: [(&[u8], &[u8]); 3] = [(b"a", b"b"), (b"b", b"c"), (b"c", b"a")];

// All three have recorded the packet.
const RECORDERS: [(u8, bool); 3] = [(7, false), (7, false), (7, false)];

#[test]
fn ring_over_three_regions(rt: HostRuntime) -> Result<(), Fail> {
    let alloc = rt.alloc();
    let topology = wired(alloc, &ROUTERS, &LINKS)?;
    let sights = recorders(alloc, &RECORDERS)?;
    if topology.routers() != 3 || sights.len() != 3 {
        assert!(rt; false, "routers");
        return Ok(());
    }
    let graph = trace(alloc, &topology, &sights, &at(2))?;
    let (a, b, c) = (at(0), at(1), at(2));
    let edges = [
        edge(a, b),
        edge(a, c),
        edge(b, a),
        edge(b, c),
        edge(c, a),
        edge(c, b),
    ];
    assert_eq!(rt; graph.nodes.items(), [a, b, c].as_slice());
    assert_eq!(rt; graph.edges.items(), edges.as_slice());
    assert!(rt; graph.unknown.items().is_empty() && graph.clear.items().is_empty());
    let whole = flood(alloc, &topology, &sights, &at(2))?;
    let joined = trace_joined(&rt, alloc, &topology, &sights, &at(2))?;
    one_flood();
    assert!(rt; graph == whole && graph == joined);
    Ok(())
}

// What a region answers, where there is a sight of each router and the entries lie in it.
fn answered(
    alloc: Global,
    topology: &Topology,
    sights: &[Recorder],
    region: u32,
    entries: Vec<Node>,
) -> Result<Option<RegionAnswer>, NoMemory> {
    if topology.routers() as usize != sights.len() {
        return Ok(None);
    }
    if lie_in(topology, region, &entries) {
        return Ok(Some(answer_region(alloc, topology, sights, region, entries)?));
    }
    Ok(None)
}

// The flood within it.
fn flooded(
    alloc: Global,
    topology: &Topology,
    sights: &[Recorder],
    region: u32,
    entries: &[Node],
) -> Result<Option<Part>, NoMemory> {
    if topology.routers() as usize != sights.len() {
        return Ok(None);
    }
    if lie_in(topology, region, entries) {
        return Ok(Some(flood_region(alloc, topology, sights, region, entries)?));
    }
    Ok(None)
}

#[test]
fn answers_for_a_region(rt: HostRuntime) -> Result<(), Fail> {
    let alloc = rt.alloc();
    let topology = wired(alloc, &ROUTERS, &LINKS)?;
    let sights = recorders(alloc, &RECORDERS)?;
    assert!(rt; flooded(alloc, &topology, &sights, 1, &[at(2)])?.is_none());
    let part = flooded(alloc, &topology, &sights, 2, &[at(2)])?.ok_or("home")?;
    assert_eq!(rt; part.nodes.items(), [at(2)].as_slice());
    assert!(rt; part.edges.items().is_empty());
    let exits = [edge(at(2), at(0)), edge(at(2), at(1))];
    assert_eq!(rt; part.exits.items(), exits.as_slice());
    let mut entries = Vec::new(alloc);
    entries.push(at(2))?;
    let answer = answered(alloc, &topology, &sights, 2, entries)?.ok_or("home")?;
    assert_eq!(rt; answer.region, 2);
    assert_eq!(rt; answer.entries.items(), [at(2)].as_slice());
    assert!(rt; answer.part == part);
    Ok(())
}
