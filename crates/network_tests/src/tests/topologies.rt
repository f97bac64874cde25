use spie_base::RouterId;
use std::test::Fail;
use topology::{
    LINKS_MOST, REGIONS_MOST, ROUTERS_MOST, Topology, TopologyRefused, sound_is_kept,
    topology_is_sound,
};

// routers with their regions, and the numbers of these
const ROUTERS: [(&[u8], &[u8], u32); 3] = [
    (b"a", b"east", 0),
    (b"bb", b"west", 1),
    (b"c", b"east", 0),
];

// names with the numbers of the routers linked with them
const LINKED: [(&[u8], &[u32]); 3] = [(b"a", &[1]), (b"b", &[0, 2]), (b"c", &[1])];

const NAMES: [&[u8]; 3] = [b"a", b"b", b"c"];

// links that are refused where a and b are linked
const REFUSED: [(&[u8], &[u8], TopologyRefused); 5] = [
    (b"d", b"d", TopologyRefused::NoSuchName),
    (b"a", b"d", TopologyRefused::NoSuchName),
    (b"a", b"a", TopologyRefused::SelfLink),
    (b"a", b"b", TopologyRefused::DoubleLink),
    (b"b", b"a", TopologyRefused::DoubleLink),
];

// names of one length and one sum of their last two bytes, so that a guess by these is wrong for all but one
const ALIKE: [&[u8]; 4] = [b"xaa", b"yaa", b"zaa", b"x`k"];

#[test]
fn numbers_routers_and_regions(rt: HostRuntime) -> Result<(), Fail> {
    let alloc = rt.alloc();
    let mut topology = Topology::new(alloc)?;
    for (place, (name, region, home)) in (0u32..).zip(ROUTERS) {
        let id = RouterId { number: place };
        assert_eq!(rt; topology.add_router(alloc, name, region), Ok(id));
        assert_eq!(rt; topology.find(name), Some(id));
        assert_eq!(rt; topology.name(id), name);
        assert_eq!(rt; topology.region(id), home);
    }
    assert_eq!(rt; topology.routers(), 3);
    assert_eq!(rt; topology.regions(), 2);
    assert_eq!(rt; topology.find(b"b"), None);
    Ok(())
}

#[test]
fn finds_names_that_are_alike(rt: HostRuntime) -> Result<(), Fail> {
    let alloc = rt.alloc();
    let mut topology = Topology::new(alloc)?;
    for (number, name) in (0u32..).zip(ALIKE) {
        assert_eq!(rt; topology.find(name), None);
        assert_eq!(rt;
            topology.add_router(alloc, name, b"east"),
            Ok(RouterId { number })
        );
    }
    for (number, name) in (0u32..).zip(ALIKE) {
        assert_eq!(rt; topology.find(name), Some(RouterId { number }));
    }
    Ok(())
}

#[test]
fn links_both_ways(rt: HostRuntime) -> Result<(), Fail> {
    let alloc = rt.alloc();
    let mut topology = Topology::new(alloc)?;
    for name in NAMES {
        assert!(rt; topology.add_router(alloc, name, b"east").is_ok());
    }
    assert_eq!(rt; topology.add_link(alloc, b"c", b"b"), Ok(()));
    assert_eq!(rt; topology.add_link(alloc, b"a", b"b"), Ok(()));
    for (name, others) in LINKED {
        if let Some(id) = topology.find(name) {
            let near = topology.linked(id).iter().map(|id| id.number);
            assert!(rt; near.eq(others.iter().copied()));
        } else {
            assert!(rt; false, "a router is missing");
        }
    }
    Ok(())
}

#[test]
fn refuses_in_order(rt: HostRuntime) -> Result<(), Fail> {
    let alloc = rt.alloc();
    let mut topology = Topology::new(alloc)?;
    for name in NAMES {
        assert!(rt; topology.add_router(alloc, name, b"east").is_ok());
    }
    assert_eq!(rt; topology.add_link(alloc, b"a", b"b"), Ok(()));
    assert_eq!(rt;
        topology.add_router(alloc, b"a", b"west"),
        Err(TopologyRefused::DoubleName)
    );
    for (a, b, refused) in REFUSED {
        assert_eq!(rt; topology.add_link(alloc, a, b), Err(refused));
    }
    Ok(())
}

#[test]
fn holds_64_routers_of_16_regions(rt: HostRuntime) -> Result<(), Fail> {
    let alloc = rt.alloc();
    let mut topology = Topology::new(alloc)?;
    for place in 0u8..64 {
        assert!(rt; topology.add_router(alloc, &[place], &[place % 16]).is_ok());
        if place == 15 {
            assert_eq!(rt;
                topology.add_router(alloc, b"new", b"new"),
                Err(TopologyRefused::TooMany)
            );
        }
    }
    assert_eq!(rt;
        topology.add_router(alloc, b"new", &[0]),
        Err(TopologyRefused::TooMany)
    );
    assert_eq!(rt;
        topology.add_router(alloc, &[7], &[0]),
        Err(TopologyRefused::DoubleName)
    );
    Ok(())
}

#[test]
fn holds_512_links(rt: HostRuntime) -> Result<(), Fail> {
    let alloc = rt.alloc();
    let mut topology = Topology::new(alloc)?;
    for place in 0u8..64 {
        assert!(rt; topology.add_router(alloc, &[place], b"east").is_ok());
    }
    for step in 1u8..9 {
        for place in 0u8..64 {
            let other = (place + step) % 64;
            assert_eq!(rt; topology.add_link(alloc, &[place], &[other]), Ok(()));
        }
    }
    assert_eq!(rt;
        topology.add_link(alloc, &[0], &[32]),
        Err(TopologyRefused::TooMany)
    );
    assert_eq!(rt;
        topology.add_link(alloc, &[8], &[0]),
        Err(TopologyRefused::DoubleLink)
    );
    assert_eq!(rt; (ROUTERS_MOST, REGIONS_MOST, LINKS_MOST), (64, 16, 512));
    Ok(())
}

fn is_shared<T: Send + Sync>(_shared: &T) -> bool {
    true
}

#[test]
fn threads_share_it(rt: HostRuntime) -> Result<(), Fail> {
    let topology = Topology::new(rt.alloc())?;
    assert!(rt; is_shared(&topology));
    topology_is_sound(&topology);
    sound_is_kept();
    Ok(())
}
