// Floods.
ghost use Rattle.std.specs.Prelude.{◌≡◌, ◌<◌, [], length, IfOk, OnOk};
ghost use Rattle.std.specs.List.{Contains};
ghost use Rattle.reverse_flood.specs.Flood.{net_of, everywhere, in_region, is_within, IsFlood, IsPart};
ghost use Rattle.reverse_flood.specs.Leads.{AreLeads, Enters, GoesOn, HasBegun, HomeFrom, KeepsNames, LeadsOut, NamesThese, NamesWithin};
ghost use Rattle.reverse_flood.specs.Search.{IsFine, IsGraphOf};
ghost use Rattle.reverse_flood.specs.declared.graphs.Node.{Node};

use crate::asks::follow;
use crate::cells::{Search, no_names};
use crate::leads::{Leads, add_each};
use crate::tells::part_of;
use crate::{Graph, Node, Part};
use spie_base::{NoMemory, Sighting};
use std::alloc::Global;
use topology::{Topology, topology_is_sound};

/// A search from some entries. Each of them is named, and is a lead at home.
pub fn begin(
    alloc: Global,
    topology: &Topology,
    entries: &[Node],
    leads: &mut Leads,
) -> Result<Search, NoMemory>
    requires exist { (n : Node) → Contains entries.now n → n.router.number < length topology.now.names }
    requires home { leads.old.home.items ≡ [] }
    requires away { leads.old.away.items ≡ [] }
    ensures fine { IfOk result IsFine }
    ensures home { IfOk result (λ search. AreLeads topology.now search leads.new.home.items) }
    ensures away { OnOk result (leads.new.away.items ≡ []) }
    ensures under_way { IfOk result (HasBegun entries.now leads.new.home.items) }
{
    topology_is_sound(topology);
    let mut search = no_names(alloc);
    add_each(&mut search, leads, topology, entries)?;
    Ok(search)
}

/// Names further entries of a search, which may have named some of them before. Those that were not named are leads at
/// home.
pub fn enter(
    topology: &Topology,
    entries: &[Node],
    search: &mut Search,
    leads: &mut Leads,
) -> Result<(), NoMemory>
    requires exist { (n : Node) → Contains entries.now n → n.router.number < length topology.now.names }
    requires fine { IsFine search.old }
    requires home { leads.old.home.items ≡ [] }
    ensures fine { OnOk result (IsFine search.new) }
    ensures kept { OnOk result (KeepsNames search.old search.new) }
    ensures home { OnOk result (AreLeads topology.now search.new leads.new.home.items) }
    ensures away { OnOk result (leads.new.away.items ≡ leads.old.away.items) }
    ensures from { OnOk result (HomeFrom entries.now [] leads.new.home.items) }
    ensures only { OnOk result (NamesThese entries.now search.old search.new) }
    ensures under_way { OnOk result (Enters topology.now entries.now leads.new.home.items search.old search.new) }
{
    topology_is_sound(topology);
    add_each(search, leads, topology, entries)?;
    Ok(())
}

/// Goes on with a search in one region: asks the leads at home, and the pairs of the region that are named by that. The
/// pairs of other regions that are named by it come out as leads that are away, and none of them twice, since each is
/// marked in the search.
pub fn follow_in<S: Sighting>(
    alloc: Global,
    topology: &Topology,
    sights: &[S],
    region: u32,
    search: &mut Search,
    leads: &mut Leads,
) -> Result<(), NoMemory>
    requires sights { length sights.now ≡ length topology.now.names }
    requires fine { IsFine search.old }
    requires home { AreLeads topology.now search.old leads.old.home.items }
    requires away { AreLeads topology.now search.old leads.old.away.items }
    ensures fine { OnOk result (IsFine search.new) }
    ensures kept { OnOk result (KeepsNames search.old search.new) }
    ensures home { OnOk result (leads.new.home.items ≡ []) }
    ensures away { OnOk result (AreLeads topology.now search.new leads.new.away.items) }
    ensures elsewhere { OnOk result
        (LeadsOut (in_region topology.now region) leads.old.away.items leads.new.away.items) }
    ensures within { OnOk result
        (NamesWithin (in_region topology.now region) search.old search.new leads.new.away.items) }
    ensures under_way { OnOk result
        (GoesOn (net_of S.shown sights.now topology.now) everywhere search.old search.new leads.old leads.new) }
{
    follow(alloc, topology, sights, None, Some(region), search, leads)?;
    Ok(())
}

/// The flood from all entries of a search, to all routers, once no lead is left.
pub fn graph_of<S: Sighting>(
    alloc: Global,
    topology: &Topology,
    sights: &[S],
    search: &Search,
) -> Result<Graph, NoMemory>
    requires fine { IsFine search.now }
    ensures { IfOk result (IsGraphOf (net_of S.shown sights.now topology.now) topology.now search.now) }
{
    let part = part_of(alloc, topology, sights, None, search)?;
    Ok(Graph {
        nodes: part.nodes,
        edges: part.edges,
        unknown: part.unknown,
        clear: part.clear,
    })
}

/// The flood from all of some entries at once: to all routers, or within the region `within` alone.
/// There is one sight of each router, in the order of the routers. Costs one `hit` of each asked pair,
/// the `origins` of each node, time that is linear in the asked pairs and the steps from nodes, a read for
/// each router and signature, and a look-up in an ordered map for each origin that is not the pair's own signature.
pub fn flood_within<S: Sighting>(
    alloc: Global,
    topology: &Topology,
    sights: &[S],
    within: Option<u32>,
    entries: &[Node],
) -> Result<Part, NoMemory>
    requires sights { length sights.now ≡ length topology.now.names }
    requires exist { (n : Node) → Contains entries.now n → n.router.number < length topology.now.names }
    ensures part { IfOk result
        (IsPart (net_of S.shown sights.now topology.now) (is_within topology.now within) entries.now) }
{
    let mut leads = Leads::new(alloc);
    let mut search = begin(alloc, topology, entries, &mut leads)?;
    follow(
        alloc,
        topology,
        sights,
        within,
        None,
        &mut search,
        &mut leads,
    )?;
    let part = part_of(alloc, topology, sights, within, &search)?;
    Ok(part)
}

/// The flood from one pair, to all routers. There is one sight of each router, in the order of the
/// routers.
pub fn flood<S: Sighting>(
    alloc: Global,
    topology: &Topology,
    sights: &[S],
    start: &Node,
) -> Result<Graph, NoMemory>
    requires sights { length sights.now ≡ length topology.now.names }
    requires exists { start.now.router.number < length topology.now.names }
    ensures graph { IfOk result (IsFlood (net_of S.shown sights.now topology.now) start.now) }
{
    let part = flood_within(alloc, topology, sights, None, &[*start])?;
    Ok(Graph {
        nodes: part.nodes,
        edges: part.edges,
        unknown: part.unknown,
        clear: part.clear,
    })
}
