// Which pairs are asked, and which of them are hit.
ghost use Rattle.std.specs.Prelude.{◌≡◌, ◌<◌, ◌≤◌, [], length, slice_index_or, None, OnOk};
ghost use Rattle.reverse_flood.specs.Flood.{net_of, is_within};
ghost use Rattle.reverse_flood.specs.Leads.{AreLeads, Asks, GoesOn, IsLead, KeepsNames, LeadsOut, NamesWithin};
ghost use Rattle.reverse_flood.specs.Search.{IsFine};

use crate::cells::{Search, note_found, note_unseen};
use crate::leads::{Lead, Leads, add_steps};
use spie_base::{NoMemory, Sighting};
use std::alloc::Global;
use topology::{ROUTERS_MOST, Topology, topology_is_sound};

/// Asks a pair. If it is hit, names the pairs inside one step back from it.
fn ask_one<S: Sighting>(
    alloc: Global,
    topology: &Topology,
    sights: &[S],
    bound: Option<u32>,
    lane: Option<u32>,
    search: &mut Search,
    leads: &mut Leads,
    lead: Lead,
) -> Result<(), NoMemory>
    requires sights { length sights.now ≡ length topology.now.names }
    requires few { length topology.now.names ≤ ROUTERS_MOST }
    requires fine { IsFine search.old }
    requires lead { IsLead topology.now search.old lead }
    ensures { OnOk result (Asks lane (net_of S.shown sights.now topology.now) topology.now
        (is_within topology.now bound) lead.node search.old search.new leads.old leads.new) }
{
    let sight = &sights[lead.node.router.number as usize];
    if sight.hit(&lead.node.sig) {
        let origins = sight.origins(alloc, &lead.node.sig)?;
        let near = topology.linked(lead.node.router);
        add_steps(search, leads, topology, bound, lane, near, &lead, &origins)?;
        note_found(search, lead.row, &lead.node, origins)?;
    } else {
        note_unseen(search, lead.row, &lead.node);
    }
    Ok(())
}

// The lead at a place.
fn lead_at(leads: &Leads, place: usize) -> Lead
    requires { place < length leads.now.home.items }
    ensures { result ≡ slice_index_or leads.now.home.items place result }
{
    leads.home[place]
}

/// Asks the pairs at home, and those that are named by that and are at home: the routers within `lane`. Pairs beyond
/// `bound` are not named.
pub(crate) fn follow<S: Sighting>(
    alloc: Global,
    topology: &Topology,
    sights: &[S],
    bound: Option<u32>,
    lane: Option<u32>,
    search: &mut Search,
    leads: &mut Leads,
) -> Result<(), NoMemory>
    requires sights { length sights.now ≡ length topology.now.names }
    requires fine { IsFine search.old }
    requires home { AreLeads topology.now search.old leads.old.home.items }
    requires away { AreLeads topology.now search.old leads.old.away.items }
    ensures fine { OnOk result (IsFine search.new) }
    ensures kept { OnOk result (KeepsNames search.old search.new) }
    ensures home { OnOk result (leads.new.home.items ≡ []) }
    ensures away { OnOk result (AreLeads topology.now search.new leads.new.away.items) }
    ensures stays { OnOk result (lane ≡ None → leads.new.away.items ≡ leads.old.away.items) }
    ensures elsewhere { OnOk result (LeadsOut (is_within topology.now lane) leads.old.away.items leads.new.away.items) }
    ensures within { OnOk result
        (NamesWithin (is_within topology.now lane) search.old search.new leads.new.away.items) }
    ensures under_way { OnOk result (GoesOn (net_of S.shown sights.now topology.now)
        (is_within topology.now bound) search.old search.new leads.old leads.new) }
{
    topology_is_sound(topology);
    let mut next = 0;
    while next < leads.home.len() {
        let lead = lead_at(leads, next);
        ask_one(alloc, topology, sights, bound, lane, search, leads, lead)?;
        next += 1;
    }
    leads.home.clear();
    Ok(())
}
