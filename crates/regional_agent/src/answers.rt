// Answers that say what they answer.
ghost use Rattle.std.specs.Prelude.{◌≡◌, length, IfOk};
ghost use Rattle.regional_agent.specs.Answers.{AreHome, IsAnswer};
ghost use Rattle.reverse_flood.specs.Flood.{net_of};

use crate::regions::flood_region;
use reverse_flood::{Node, Part};
use spie_base::{List, NoMemory, Sighting};
use std::alloc::Global;
use topology::Topology;

/// What a region was asked, and what it answered.
#[derive(PartialEq, Eq, Debug, Drop)]
pub struct RegionAnswer {
    /// The region's number.
    pub region: u32,
    /// The pairs from which it flooded, as they were asked.
    pub entries: List<Node>,
    pub part: Part,
}

/// The flood within a region from all of some entries at once, with what was asked. There is one sight of each
/// router, in the order of the routers. Costs what `flood_region` does; the entries are kept and not copied.
pub fn answer_region<S: Sighting>(
    alloc: Global,
    topology: &Topology,
    sights: &[S],
    region: u32,
    entries: Vec<Node>,
) -> Result<RegionAnswer, NoMemory>
    requires sights { length sights.now ≡ length topology.now.names }
    requires home { AreHome topology.now region entries.items }
    ensures region { IfOk result (λ answer. answer.region ≡ region) }
    ensures entries { IfOk result (λ answer. answer.entries ≡ entries.items) }
    ensures part { IfOk result (IsAnswer (net_of S.shown sights.now topology.now) topology.now) }
{
    let part = flood_region(alloc, topology, sights, region, &entries)?;
    Ok(RegionAnswer {
        region,
        entries: List::of(entries),
        part,
    })
}
