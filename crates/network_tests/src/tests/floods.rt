use super::nets::{at, edge, recorders, wired};
use reverse_flood::{flood, flood_within, one_flood, one_part};
use std::test::Fail;

// Four routers in a line with their regions, the last one in a region of its own.
const ROUTERS: [(&[u8], &[u8]); 4] = [(b"a", b"e"), (b"b", b"e"), (b"c", b"e"), (b"d", b"w")];

const LINKS: [(&[u8], &[u8]); 3] = [(b"a", b"b"), (b"b", b"c"), (b"c", b"d")];

// What each has recorded, and whether it misses pages: the first misses pages, the second and the third have recorded
// the packet.
const RECORDERS: [(u8, bool); 4] = [(1, true), (7, true), (7, false), (1, false)];

#[test]
fn floods_a_line(rt: HostRuntime) -> Result<(), Fail> {
    let alloc = rt.alloc();
    let topology = wired(alloc, &ROUTERS, &LINKS)?;
    let sights = recorders(alloc, &RECORDERS)?;
    if topology.routers() != 4 || sights.len() != 4 {
        assert!(rt; false, "routers");
        return Ok(());
    }
    let graph = flood(alloc, &topology, &sights, &at(2))?;
    assert_eq!(rt; graph.nodes.items(), [at(1), at(2)].as_slice());
    let edges = [edge(at(1), at(2)), edge(at(2), at(1))];
    assert_eq!(rt; graph.edges.items(), edges.as_slice());
    assert_eq!(rt; graph.unknown.items(), [at(0)].as_slice());
    assert_eq!(rt; graph.clear.items(), [at(3)].as_slice());
    one_flood();
    assert!(rt; graph == graph);
    let start_alone = flood(alloc, &topology, &sights, &at(3))?;
    assert_eq!(rt; start_alone.clear.items(), [at(3)].as_slice());
    assert!(rt; start_alone.nodes.items().is_empty());
    Ok(())
}

#[test]
fn stays_in_a_region(rt: HostRuntime) -> Result<(), Fail> {
    let alloc = rt.alloc();
    let topology = wired(alloc, &ROUTERS, &LINKS)?;
    let sights = recorders(alloc, &RECORDERS)?;
    if topology.routers() != 4 || sights.len() != 4 {
        assert!(rt; false, "routers");
        return Ok(());
    }
    let start = at(2);
    let part = flood_within(alloc, &topology, &sights, Some(0), &[start])?;
    assert_eq!(rt; part.nodes.items(), [at(1), at(2)].as_slice());
    assert_eq!(rt; part.unknown.items(), [at(0)].as_slice());
    assert!(rt; part.clear.items().is_empty());
    assert_eq!(rt; part.exits.items(), [edge(at(2), at(3))].as_slice());
    one_part();
    assert!(rt; part == part);
    Ok(())
}
