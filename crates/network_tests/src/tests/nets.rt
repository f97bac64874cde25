// Nets for tests.
ghost use Rattle.std.specs.Prelude.{◌≡◌, ◌==◌, ◌∷◌, [], slice_index};

use reverse_flood::{Edge, Node};
use spie_base::{NoMemory, RouterId, Sig, Sighting};
use std::alloc::Global;
use std::test::Fail;
use topology::Topology;

// Has recorded what begins with one byte, and has transformed nothing.
#[derive(Drop)]
pub struct Recorder {
    pub first: u8,
    pub missing: bool,
}

impl Sighting for Recorder {
    ghost shown = { λ s. record { hit = λ x. slice_index x.bytes 0 == s.first; origins = λ x. x ∷ []; missing = s.missing } };

    fn hit(&self, sig: &Sig) -> bool {
        sig.bytes[0] == self.first
    }

    fn origins(&self, alloc: Global, sig: &Sig) -> Result<Vec<Sig>, NoMemory> {
        let mut found = Vec::new(alloc);
        found.push(*sig)?;
        Ok(found)
    }

    fn has_missing(&self) -> bool {
        self.missing
    }
}

// The packet at a router.
pub fn at(number: u32) -> Node
    ensures { result.router.number ≡ number }
{
    let mut bytes = [0; 28];
    bytes[0] = 7;
    Node {
        router: RouterId { number },
        sig: Sig { bytes },
    }
}

pub fn edge(down: Node, up: Node) -> Edge {
    Edge { down, up }
}

// Routers with their regions, and links between them.
pub fn wired(
    alloc: Global,
    routers: &[(&[u8], &[u8])],
    links: &[(&[u8], &[u8])],
) -> Result<Topology, Fail> {
    let mut topology = Topology::new(alloc)?;
    for (name, region) in routers {
        topology
            .add_router(alloc, name, region)
            .ok()
            .ok_or("router")?;
    }
    for (a, b) in links {
        topology.add_link(alloc, a, b).ok().ok_or("link")?;
    }
    Ok(topology)
}

// What each has recorded, and whether it misses pages.
pub fn recorders(alloc: Global, kept: &[(u8, bool)]) -> Result<Vec<Recorder>, Fail> {
    let mut sights = Vec::new(alloc);
    for (first, missing) in kept {
        sights.push(Recorder {
            first: *first,
            missing: *missing,
        })?;
    }
    Ok(sights)
}
