use super::nets::wired;
use spie_base::{NoMemory, RouterId};
use std::alloc::Global;
use std::test::Fail;
use topology::{Topology, TopologyRefused};

const A: RouterId = RouterId { number: 0 };

const B: RouterId = RouterId { number: 1 };

const C: RouterId = RouterId { number: 2 };

const D: RouterId = RouterId { number: 3 };

const ROUTERS: [(&[u8], &[u8]); 4] = [
    (b"a", b"east"),
    (b"b", b"east"),
    (b"c", b"west"),
    (b"d", b"west"),
];

// The delay of the link between two routers, where both exist.
fn link_delay(topology: &Topology, a: RouterId, b: RouterId) -> Option<u32> {
    if a.number < topology.routers() && b.number < topology.routers() {
        return topology.delay(a, b);
    }
    None
}

// The delays from a router, where it exists.
fn delays_from(
    alloc: Global,
    topology: &Topology,
    from: RouterId,
) -> Result<Vec<Option<u64>>, NoMemory> {
    if from.number < topology.routers() {
        return topology.delays(alloc, from);
    }
    Ok(Vec::new(alloc))
}

#[test]
fn sums_delays_of_the_shortest_walks(rt: HostRuntime) -> Result<(), Fail> {
    let alloc = rt.alloc();
    // three routers in a line, and one that is linked with none
    let mut topology = wired(alloc, &ROUTERS, &[])?;
    assert_eq!(rt; topology.add_link_delayed(alloc, b"a", b"b", 5), Ok(()));
    assert_eq!(rt; topology.add_link_delayed(alloc, b"b", b"c", 3), Ok(()));
    assert_eq!(rt; link_delay(&topology, B, A), Some(5));
    assert_eq!(rt; link_delay(&topology, A, C), None);
    let line = delays_from(alloc, &topology, C)?;
    assert_eq!(rt;
        line.as_slice(),
        [Some(8), Some(3), Some(0), None].as_slice()
    );
    // a link that takes longer than the way over b changes nothing
    assert_eq!(rt; topology.add_link_delayed(alloc, b"a", b"c", 100), Ok(()));
    let longer = delays_from(alloc, &topology, C)?;
    assert_eq!(rt;
        longer.as_slice(),
        [Some(8), Some(3), Some(0), None].as_slice()
    );
    // from d to c it is shorter over a and b than over the link of both
    assert_eq!(rt;
        topology.add_link_delayed(alloc, b"d", b"c", u32::MAX),
        Ok(())
    );
    assert_eq!(rt; topology.add_link(alloc, b"d", b"a"), Ok(()));
    let round = delays_from(alloc, &topology, D)?;
    assert_eq!(rt;
        round.as_slice(),
        [Some(0), Some(5), Some(8), Some(0)].as_slice()
    );
    assert_eq!(rt;
        topology.add_link_delayed(alloc, b"c", b"d", 1),
        Err(TopologyRefused::DoubleLink)
    );
    Ok(())
}
