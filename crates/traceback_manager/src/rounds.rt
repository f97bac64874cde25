// One round: each region is asked for the leads that lie in it.
ghost use Rattle.std.specs.Prelude.{◌≡◌, ◌<◌, [], length, OnOk};
ghost use Rattle.std.specs.List.{Contains};
ghost use Rattle.reverse_flood.specs.Flood.{net_of};
ghost use Rattle.reverse_flood.specs.Leads.{AreLeads, KeepsNames};
ghost use Rattle.reverse_flood.specs.Search.{IsFine};
ghost use Rattle.reverse_flood.specs.declared.leads.Lead.{Lead};
ghost use Rattle.traceback_manager.specs.Rounds.{batch, AsksAll, AsksRegion};

use regional_agent::follow_region;
use reverse_flood::{Lead, Leads, Search};
use spie_base::{NoMemory, Sighting};
use std::alloc::Global;
use topology::{Topology, topology_is_sound};

/// Picks the leads that lie in a region.
fn pick(
    picked: &mut Vec<Lead>,
    topology: &Topology,
    region: u32,
    leads: &[Lead],
) -> Result<(), NoMemory>
    requires empty { picked.old.items ≡ [] }
    requires exist { (l : Lead) → Contains leads.now l → l.node.router.number < length topology.now.names }
    ensures { OnOk result (picked.new.items ≡ batch topology.now region leads.now) }
{
    for lead in leads {
        if topology.region(lead.node.router) == region {
            picked.push(*lead)?;
        }
    }
    Ok(())
}

/// Asks a region for the leads of a round that lie in it.
fn ask_region<S: Sighting>(
    alloc: Global,
    topology: &Topology,
    sights: &[S],
    region: u32,
    search: &mut Search,
    round: &[Lead],
    leads: &mut Leads,
) -> Result<(), NoMemory>
    requires sights { length sights.now ≡ length topology.now.names }
    requires fine { IsFine search.old }
    requires round { AreLeads topology.now search.old round.now }
    requires home { leads.old.home.items ≡ [] }
    requires away { AreLeads topology.now search.old leads.old.away.items }
    ensures fine { OnOk result (IsFine search.new) }
    ensures kept { OnOk result (KeepsNames search.old search.new) }
    ensures home { OnOk result (leads.new.home.items ≡ []) }
    ensures away { OnOk result (AreLeads topology.now search.new leads.new.away.items) }
    ensures under_way { OnOk result (AsksRegion (net_of S.shown sights.now topology.now) topology.now region
        round.now search.old search.new leads.old leads.new) }
{
    pick(&mut leads.home, topology, region, round)?;
    follow_region(alloc, topology, sights, region, search, leads)?;
    Ok(())
}

/// Asks each region for the leads of a round that lie in it. What leads on comes out as leads that are away.
pub(crate) fn ask_regions<S: Sighting>(
    alloc: Global,
    topology: &Topology,
    sights: &[S],
    search: &mut Search,
    round: &[Lead],
    leads: &mut Leads,
) -> Result<(), NoMemory>
    requires sights { length sights.now ≡ length topology.now.names }
    requires fine { IsFine search.old }
    requires round { AreLeads topology.now search.old round.now }
    requires home { leads.old.home.items ≡ [] }
    requires away { leads.old.away.items ≡ [] }
    ensures fine { OnOk result (IsFine search.new) }
    ensures home { OnOk result (leads.new.home.items ≡ []) }
    ensures away { OnOk result (AreLeads topology.now search.new leads.new.away.items) }
    ensures under_way { OnOk result
        (AsksAll (net_of S.shown sights.now topology.now) round.now search.old search.new leads.new) }
{
    topology_is_sound(topology);
    for region in 0..topology.regions() {
        ask_region(alloc, topology, sights, region, search, round, leads)?;
    }
    Ok(())
}
