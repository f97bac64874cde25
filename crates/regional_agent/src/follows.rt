// Searches that go on in one region.
ghost use Rattle.std.specs.Prelude.{◌≡◌, [], length, OnOk};
ghost use Rattle.regional_agent.specs.Answers.{AreHome};
ghost use Rattle.reverse_flood.specs.Flood.{net_of, everywhere, in_region};
ghost use Rattle.reverse_flood.specs.Leads.{nodes_of, AreLeads, GoesOn, KeepsNames, LeadsOut, NamesWithin};
ghost use Rattle.reverse_flood.specs.Search.{IsFine};

use reverse_flood::{Leads, Search, follow_in};
use spie_base::{NoMemory, Sighting};
use std::alloc::Global;
use topology::Topology;

/// Goes on with a search in one region, from leads that lie in it: asks them, and the pairs of the region that are named
/// by that, each once. The pairs of other regions that are named come out as leads that are away. What was asked before
/// costs nothing. There is one sight of each router, in the order of the routers.
pub fn follow_region<S: Sighting>(
    alloc: Global,
    topology: &Topology,
    sights: &[S],
    region: u32,
    search: &mut Search,
    leads: &mut Leads,
) -> Result<(), NoMemory>
    requires sights { length sights.now ≡ length topology.now.names }
    requires fine { IsFine search.old }
    requires home { AreLeads topology.now search.old leads.old.home.items }
    requires region { AreHome topology.now region (nodes_of leads.old.home.items) }
    requires away { AreLeads topology.now search.old leads.old.away.items }
    ensures fine { OnOk result (IsFine search.new) }
    ensures kept { OnOk result (KeepsNames search.old search.new) }
    ensures home { OnOk result (leads.new.home.items ≡ []) }
    ensures away { OnOk result (AreLeads topology.now search.new leads.new.away.items) }
    ensures elsewhere { OnOk result
        (LeadsOut (in_region topology.now region) leads.old.away.items leads.new.away.items) }
    ensures within { OnOk result
        (NamesWithin (in_region topology.now region) search.old search.new leads.new.away.items) }
    ensures under_way { OnOk result
        (GoesOn (net_of S.shown sights.now topology.now) everywhere search.old search.new leads.old leads.new) }
{
    follow_in(alloc, topology, sights, region, search, leads)?;
    Ok(())
}
