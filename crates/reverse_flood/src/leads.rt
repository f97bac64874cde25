// The pairs that are still to be asked.
ghost use Rattle.std.specs.Prelude.{◌≡◌, ◌<◌, ◌≤◌, ◌∷◌, [], None, Some, cond, filter, length, IfOk, OnOk};
ghost use Rattle.std.specs.List.{Contains, flat_map};
ghost use Rattle.spie_base.specs.declared.RouterId.{RouterId};
ghost use Rattle.reverse_flood.specs.Flood.{is_within};
ghost use Rattle.reverse_flood.specs.Leads.{pairs_with, HomeFrom, Names, PushesLead};
ghost use Rattle.reverse_flood.specs.Rows.{KeepsRows};
ghost use Rattle.reverse_flood.specs.Search.{cell_at, rows_in, IsFine};
ghost use Rattle.reverse_flood.specs.declared.graphs.Node.{Node};

use crate::Node;
use crate::cells::{Search, name, row_of};
use crate::steps::is_inside;
use spie_base::{NoMemory, RouterId, Sig};
use std::alloc::Global;
use topology::{ROUTERS_MOST, Topology};

/// A pair that was named and is to be asked.
#[derive(Clone, Copy)]
pub struct Lead {
    pub node: Node,
    // where the row of its signature begins
    pub(crate) row: usize,
}

/// The pairs that are to be asked: those of the routers that are asked now, and those of others.
#[derive(Drop)]
pub struct Leads {
    pub home: Vec<Lead>,
    pub away: Vec<Lead>,
}

impl Leads {
    /// None.
    pub fn new(alloc: Global) -> Self
        ensures home { result.home.items ≡ [] }
        ensures away { result.away.items ≡ [] }
    {
        Leads {
            home: Vec::new(alloc),
            away: Vec::new(alloc),
        }
    }
}

// Appends a lead.
fn push_lead(
    leads: &mut Leads,
    topology: &Topology,
    lane: Option<u32>,
    lead: Lead,
) -> Result<(), NoMemory>
    requires { lead.node.router.number < length topology.now.names }
    ensures { OnOk result (PushesLead lane topology.now lead leads.old leads.new) }
{
    if is_inside(topology, lane, lead.node.router) {
        leads.home.push(lead)?;
        return Ok(());
    }
    leads.away.push(lead)?;
    Ok(())
}

// Names a pair, by the row of its signature.
fn add_lead(
    search: &mut Search,
    leads: &mut Leads,
    topology: &Topology,
    lane: Option<u32>,
    row: usize,
    node: Node,
) -> Result<(), NoMemory>
    requires fine { IsFine search.old }
    requires row { rows_in search.old node.sig ≡ Some row }
    requires exists { node.router.number < length topology.now.names }
    requires few { length topology.now.names ≤ ROUTERS_MOST }
    ensures names { OnOk result (Names lane topology.now (node ∷ []) search.old search.new leads.old leads.new) }
    ensures from { OnOk result (HomeFrom (node ∷ []) leads.old.home.items leads.new.home.items) }
{
    if !name(search, row, &node) {
        return Ok(());
    }
    push_lead(leads, topology, lane, Lead { node, row })?;
    Ok(())
}

// Names a router with a signature, if the router is inside.
fn add_inside(
    search: &mut Search,
    leads: &mut Leads,
    topology: &Topology,
    bound: Option<u32>,
    lane: Option<u32>,
    row: usize,
    node: Node,
) -> Result<(), NoMemory>
    requires fine { IsFine search.old }
    requires row { rows_in search.old node.sig ≡ Some row }
    requires exists { node.router.number < length topology.now.names }
    requires few { length topology.now.names ≤ ROUTERS_MOST }
    ensures { OnOk result (Names lane topology.now (cond (is_within topology.now bound node.router.number) (node ∷
        []) []) search.old search.new leads.old leads.new) }
{
    if !is_inside(topology, bound, node.router) {
        return Ok(());
    }
    add_lead(search, leads, topology, lane, row, node)?;
    Ok(())
}

// Names each of some routers with a signature, if the router is inside.
fn add_beside(
    search: &mut Search,
    leads: &mut Leads,
    topology: &Topology,
    bound: Option<u32>,
    lane: Option<u32>,
    near: &[RouterId],
    row: usize,
    sig: &Sig,
) -> Result<(), NoMemory>
    requires fine { IsFine search.old }
    requires row { rows_in search.old sig.now ≡ Some row }
    requires exist { (q : RouterId) → Contains near.now q → q.number < length topology.now.names }
    requires few { length topology.now.names ≤ ROUTERS_MOST }
    ensures { OnOk result (Names lane topology.now (pairs_with (filter (λ (q : RouterId). is_within topology.now
        bound q.number) near.now) sig.now) search.old search.new leads.old leads.new) }
{
    for router in near {
        let node = Node {
            router: *router,
            sig: *sig,
        };
        add_inside(search, leads, topology, bound, lane, row, node)?;
    }
    Ok(())
}

// Where the row of an origin of a pair begins: mostly it is the pair's own signature.
fn row_from(search: &mut Search, lead: &Lead, sig: &Sig) -> Result<usize, NoMemory>
    requires fine { IsFine search.old }
    requires known { rows_in search.old lead.now.node.sig ≡ Some lead.now.row }
    ensures fine { OnOk result (IsFine search.new) }
    ensures same { OnOk result ((n : Node) → n.router.number < ROUTERS_MOST → cell_at search.new n ≡ cell_at
        search.old n) }
    ensures changed { search.new.changed ≡ search.old.changed }
    ensures row { IfOk result (λ row. rows_in search.new sig.now ≡ Some row) }
    ensures kept { OnOk result (KeepsRows (rows_in search.old) (rows_in search.new)) }
{
    if *sig == lead.node.sig {
        return Ok(lead.row);
    }
    row_of(search, sig)
}

/// Names each of some routers with each of a pair's origins, if the router is inside.
pub(crate) fn add_steps(
    search: &mut Search,
    leads: &mut Leads,
    topology: &Topology,
    bound: Option<u32>,
    lane: Option<u32>,
    near: &[RouterId],
    lead: &Lead,
    origins: &[Sig],
) -> Result<(), NoMemory>
    requires fine { IsFine search.old }
    requires known { rows_in search.old lead.now.node.sig ≡ Some lead.now.row }
    requires exist { (q : RouterId) → Contains near.now q → q.number < length topology.now.names }
    requires few { length topology.now.names ≤ ROUTERS_MOST }
    ensures { OnOk result (Names lane topology.now (flat_map (pairs_with (filter (λ (q : RouterId). is_within
        topology.now bound q.number) near.now)) origins.now) search.old search.new leads.old leads.new) }
{
    for sig in origins {
        let row = row_from(search, lead, sig)?;
        add_beside(search, leads, topology, bound, lane, near, row, sig)?;
    }
    Ok(())
}

/// Names each of some pairs.
pub(crate) fn add_each(
    search: &mut Search,
    leads: &mut Leads,
    topology: &Topology,
    nodes: &[Node],
) -> Result<(), NoMemory>
    requires fine { IsFine search.old }
    requires exist { (n : Node) → Contains nodes.now n → n.router.number < length topology.now.names }
    requires few { length topology.now.names ≤ ROUTERS_MOST }
    ensures names { OnOk result (Names None topology.now nodes.now search.old search.new leads.old leads.new) }
    ensures from { OnOk result (HomeFrom nodes.now leads.old.home.items leads.new.home.items) }
{
    for node in nodes {
        let row = row_of(search, &node.sig)?;
        add_lead(search, leads, topology, None, row, *node)?;
    }
    Ok(())
}
