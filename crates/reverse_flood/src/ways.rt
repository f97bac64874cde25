// The steps from nodes.
ghost use Rattle.std.specs.Prelude.{◌≡◌, ◌<◌, ◌≤◌, ◌++◌, filter, map, OnOk, length, [], Some, unwrap_or};
ghost use Rattle.std.specs.List.{Contains};
ghost use Rattle.std.specs.List.Sorted.{IsStrictlySortedBy};
ghost use Rattle.reverse_flood.specs.Flood.{is_within};
ghost use Rattle.reverse_flood.specs.Found.{edge_from, found_net, is_inner, is_outer, AddsWays};
ghost use Rattle.reverse_flood.specs.Search.{found_in, is_known, rows_in, IsFine};
ghost use Rattle.reverse_flood.specs.Steps.{origin_at, origin_cmp, AppendsWays};
ghost use Rattle.reverse_flood.specs.declared.ways.Origin.{Origin};

use crate::cells::{Cell, Search, is_found, read_cell};
use crate::leads::Lead;
use crate::steps::is_inside;
use crate::{Edge, Node};
use spie_base::{NoMemory, RouterId, Sig};
use topology::{ROUTERS_MOST, Topology, topology_is_sound};

/// The steps from nodes to pairs inside that were found, and to pairs that are not inside.
#[derive(Drop)]
pub(crate) struct Ways {
    pub(crate) inner: Vec<Edge>,
    pub(crate) outer: Vec<Edge>,
}

/// A signature that a packet may have had, and where its row begins.
#[derive(Clone, Copy)]
pub(crate) struct Origin {
    sig: Sig,
    row: Option<usize>,
}

/// Where the row of an origin of a pair begins: mostly it is the pair's own signature.
fn row_from(search: &Search, lead: &Lead, sig: &Sig) -> Option<usize>
    requires { rows_in search.now lead.now.node.sig ≡ Some lead.now.row }
    ensures { result ≡ rows_in search.now sig.now }
{
    if *sig == lead.node.sig {
        return Some(lead.row);
    }
    search.rows.get(sig).copied()
}

/// Puts some origins of a pair, each with its row, in the place of others.
fn put_each(
    origins: &mut Vec<Origin>,
    search: &Search,
    lead: &Lead,
    sigs: &[Sig],
) -> Result<(), NoMemory>
    requires { rows_in search.now lead.now.node.sig ≡ Some lead.now.row }
    ensures { OnOk result (origins.new.items ≡ map (λ s. record { sig = s; row = rows_in search.now s }) sigs.now) }
{
    origins.clear();
    for sig in sigs {
        let row = row_from(search, lead, sig);
        origins.push(Origin { sig: *sig, row })?;
    }
    Ok(())
}

/// Puts the origins that were found of a pair, each with its row, in the place of others.
fn put_origins(origins: &mut Vec<Origin>, search: &Search, lead: &Lead) -> Result<(), NoMemory>
    requires fine { IsFine search.now }
    requires row { rows_in search.now lead.now.node.sig ≡ Some lead.now.row }
    requires few { lead.now.node.router.number < ROUTERS_MOST }
    ensures { OnOk result (origins.new.items ≡ map (λ s. record { sig = s; row = rows_in search.now s }) (unwrap_or
        (found_in search.now lead.now.node) [])) }
{
    match read_cell(search, lead.row, &lead.node) {
        Cell::Changed(place) => match search.changed.get(place as usize) {
            Some(sigs) => put_each(origins, search, lead, sigs.items()),
            None => put_each(origins, search, lead, &[]),
        },
        Cell::Alone => put_each(origins, search, lead, &[lead.node.sig]),
        Cell::Free => put_each(origins, search, lead, &[]),
        Cell::Waiting => put_each(origins, search, lead, &[]),
        Cell::Unseen => put_each(origins, search, lead, &[]),
    }
}

/// Appends the steps from a node to the pairs of a router that were found.
fn push_inner(
    edges: &mut Vec<Edge>,
    search: &Search,
    down: Node,
    router: RouterId,
    origins: &[Origin],
) -> Result<(), NoMemory>
    requires fine { IsFine search.now }
    requires few { router.number < ROUTERS_MOST }
    requires origins { (o : Origin) → Contains origins.now o → rows_in search.now o.sig ≡ o.row }
    ensures { OnOk result (edges.new.items ≡ edges.old.items ++ map (edge_from down) (filter (is_known search.now)
        (map (origin_at router) origins.now))) }
{
    for origin in origins {
        let up = Node {
            router,
            sig: origin.sig,
        };
        if is_found(search, origin.row, &up) {
            edges.push(Edge { down, up })?;
        }
    }
    Ok(())
}

/// Appends the steps from a node to the pairs of a router.
fn push_outer(
    edges: &mut Vec<Edge>,
    down: Node,
    router: RouterId,
    origins: &[Origin],
) -> Result<(), NoMemory>
    ensures { OnOk result (edges.new.items ≡ edges.old.items ++ map (edge_from down) (map (origin_at router)
        origins.now)) }
{
    for origin in origins {
        let outside = Node {
            router,
            sig: origin.sig,
        };
        edges.push(Edge { down, up: outside })?;
    }
    Ok(())
}

/// Appends the steps from a node to the pairs of a router.
fn push_ways(
    ways: &mut Ways,
    topology: &Topology,
    search: &Search,
    bound: Option<u32>,
    down: Node,
    router: RouterId,
    origins: &[Origin],
) -> Result<(), NoMemory>
    requires exists { router.number < length topology.now.names }
    requires few { length topology.now.names ≤ ROUTERS_MOST }
    requires fine { IsFine search.now }
    requires origins { (o : Origin) → Contains origins.now o → rows_in search.now o.sig ≡ o.row }
    ensures inner { OnOk result (ways.new.inner.items ≡ ways.old.inner.items ++ map (edge_from down) (filter
        (is_inner (is_within topology.now bound) (is_known search.now)) (map (origin_at router) origins.now))) }
    ensures outer { OnOk result (ways.new.outer.items ≡ ways.old.outer.items ++ map (edge_from down) (filter
        (is_outer (is_within topology.now bound)) (map (origin_at router) origins.now))) }
{
    if is_inside(topology, bound, router) {
        push_inner(&mut ways.inner, search, down, router, origins)?;
    } else {
        push_outer(&mut ways.outer, down, router, origins)?;
    }
    Ok(())
}

/// Appends the steps from a node to the pairs of the routers that are linked with its own.
fn push_all_ways(
    ways: &mut Ways,
    topology: &Topology,
    search: &Search,
    bound: Option<u32>,
    down: Node,
    origins: &[Origin],
) -> Result<(), NoMemory>
    requires exists { down.router.number < length topology.now.names }
    requires few { length topology.now.names ≤ ROUTERS_MOST }
    requires fine { IsFine search.now }
    requires origins { (o : Origin) → Contains origins.now o → rows_in search.now o.sig ≡ o.row }
    requires ascend { IsStrictlySortedBy origin_cmp origins.now }
    ensures inner { OnOk result (AppendsWays topology.now.links (is_inner (is_within topology.now bound) (is_known
        search.now)) down origins.now ways.old.inner.items ways.new.inner.items) }
    ensures outer { OnOk result (AppendsWays topology.now.links (is_outer (is_within topology.now bound)) down
        origins.now ways.old.outer.items ways.new.outer.items) }
{
    for beside in topology.linked(down.router) {
        push_ways(ways, topology, search, bound, down, *beside, origins)?;
    }
    Ok(())
}

/// Appends the steps from a node, by the origins that were found of it. What `origins` had is lost.
pub(crate) fn push_ways_from(
    origins: &mut Vec<Origin>,
    ways: &mut Ways,
    topology: &Topology,
    search: &Search,
    bound: Option<u32>,
    lead: Lead,
) -> Result<(), NoMemory>
    requires exists { lead.node.router.number < length topology.now.names }
    requires few { length topology.now.names ≤ ROUTERS_MOST }
    requires fine { IsFine search.now }
    requires row { rows_in search.now lead.node.sig ≡ Some lead.row }
    ensures inner { OnOk result (AddsWays (found_net (found_in search.now) topology.now) (is_inner (is_within
        topology.now bound) (is_known search.now)) lead.node ways.old.inner.items ways.new.inner.items) }
    ensures outer { OnOk result (AddsWays (found_net (found_in search.now) topology.now) (is_outer (is_within
        topology.now bound)) lead.node ways.old.outer.items ways.new.outer.items) }
{
    topology_is_sound(topology);
    put_origins(origins, search, &lead)?;
    push_all_ways(ways, topology, search, bound, lead.node, origins)?;
    Ok(())
}
