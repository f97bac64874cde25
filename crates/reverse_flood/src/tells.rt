// What is told of the pairs that a search named, router by router and signature by signature, so that nothing is sorted.
ghost use Rattle.std.specs.Prelude.{ℕ, Bool, List, ◌≡◌, ◌<◌, ◌≤◌, ◌+◌, ◌++◌, ◌∷◌, ◌&&◌, [], Some, true, false, cond, not, length, IfOk, OnOk};
ghost use Rattle.std.specs.BTreeMap.{IsOrdered};
ghost use Rattle.std.specs.List.{Contains};
ghost use Rattle.std.specs.List.Sorted.{IsStrictlySortedBy};
ghost use Rattle.spie_base.specs.Order.{sig_cmp};
ghost use Rattle.spie_base.specs.declared.Sig.{Sig};
ghost use Rattle.reverse_flood.specs.Flood.{net_of, is_missing, is_within};
ghost use Rattle.reverse_flood.specs.Found.{found_net, is_inner, is_outer};
ghost use Rattle.reverse_flood.specs.Search.{found_in, is_known, is_named, rows_in, IsFine, IsPartOf};
ghost use Rattle.reverse_flood.specs.Told.{line_cmp, pairs_below, IsTold, AddsWaysIf};
ghost use Rattle.reverse_flood.specs.declared.graphs.Node.{Node};

use crate::cells::{Search, is_found, is_there};
use crate::leads::Lead;
use crate::ways::{Origin, Ways, push_ways_from};
use crate::{Node, Part};
use spie_base::{List, NoMemory, RouterId, Sig, Sighting};
use std::alloc::Global;
use std::collections::BTreeMap;
use topology::{ROUTERS_MOST, Topology, topology_is_sound};

/// Whether a router misses pages.
fn missing_at<S: Sighting>(sights: &[S], router: RouterId) -> bool
    ensures { result ≡ is_missing S.shown sights.now router.number }
{
    match sights.get(router.number as usize) {
        Some(sight) => sight.has_missing(),
        None => false,
    }
}

/// What is told: the pairs that were found, the others at routers that miss pages and at those that miss none, and the
/// steps from those that were found.
#[derive(Drop)]
pub(crate) struct Told {
    pub(crate) nodes: Vec<Node>,
    pub(crate) unknown: Vec<Node>,
    pub(crate) clear: Vec<Node>,
    pub(crate) ways: Ways,
}

/// Nothing is told.
fn nothing(alloc: Global) -> Told
    ensures nodes { result.nodes.items ≡ [] }
    ensures unknown { result.unknown.items ≡ [] }
    ensures clear { result.clear.items ≡ [] }
    ensures inner { result.ways.inner.items ≡ [] }
    ensures outer { result.ways.outer.items ≡ [] }
{
    Told {
        nodes: Vec::new(alloc),
        unknown: Vec::new(alloc),
        clear: Vec::new(alloc),
        ways: Ways {
            inner: Vec::new(alloc),
            outer: Vec::new(alloc),
        },
    }
}

/// Appends a pair to one of the lists, if it is named.
fn tell(
    told: &mut Told,
    known: bool,
    named: bool,
    missing: bool,
    node: Node,
) -> Result<(), NoMemory>
    ensures nodes { OnOk result (told.new.nodes.items ≡ told.old.nodes.items ++ cond known (node ∷ []) []) }
    ensures unknown { OnOk result (told.new.unknown.items ≡ told.old.unknown.items ++ cond (named && (not known &&
        missing)) (node ∷ []) []) }
    ensures clear { OnOk result (told.new.clear.items ≡ told.old.clear.items ++ cond (named && (not known && not
        missing)) (node ∷ []) []) }
    ensures ways { told.new.ways ≡ told.old.ways }
{
    if known {
        told.nodes.push(node)?;
    } else if named {
        if missing {
            told.unknown.push(node)?;
        } else {
            told.clear.push(node)?;
        }
    }
    Ok(())
}

/// Tells of a pair, and the steps from it if it was found.
fn tell_pair(
    told: &mut Told,
    origins: &mut Vec<Origin>,
    topology: &Topology,
    search: &Search,
    bound: Option<u32>,
    missing: bool,
    lead: Lead,
) -> Result<(), NoMemory>
    requires exists { lead.node.router.number < length topology.now.names }
    requires few { length topology.now.names ≤ ROUTERS_MOST }
    requires fine { IsFine search.now }
    requires row { rows_in search.now lead.node.sig ≡ Some lead.row }
    ensures nodes { OnOk result (told.new.nodes.items ≡ told.old.nodes.items ++ cond (is_known search.now lead.node)
        (lead.node ∷ []) []) }
    ensures unknown { OnOk result (told.new.unknown.items ≡ told.old.unknown.items ++ cond (is_named search.now
        lead.node && (not (is_known search.now lead.node) && missing)) (lead.node ∷ []) []) }
    ensures clear { OnOk result (told.new.clear.items ≡ told.old.clear.items ++ cond (is_named search.now lead.node
        && (not (is_known search.now lead.node) && not missing)) (lead.node ∷ []) []) }
    ensures inner { OnOk result (AddsWaysIf (is_known search.now lead.node) (found_net (found_in search.now)
        topology.now) (is_inner (is_within topology.now bound) (is_known search.now)) lead.node
        told.old.ways.inner.items told.new.ways.inner.items) }
    ensures outer { OnOk result (AddsWaysIf (is_known search.now lead.node) (found_net (found_in search.now)
        topology.now) (is_outer (is_within topology.now bound)) lead.node told.old.ways.outer.items
        told.new.ways.outer.items) }
{
    let known = is_found(search, Some(lead.row), &lead.node);
    let named = is_there(search, lead.row, &lead.node);
    tell(told, known, named, missing, lead.node)?;
    if known {
        push_ways_from(origins, &mut told.ways, topology, search, bound, lead)?;
    }
    Ok(())
}

/// Tells of a router's pairs, behind those of the routers below it.
fn tell_router<S: Sighting>(
    told: &mut Told,
    origins: &mut Vec<Origin>,
    topology: &Topology,
    sights: &[S],
    bound: Option<u32>,
    search: &Search,
    router: RouterId,
    lines: &[(Sig, usize)],
) -> Result<(), NoMemory>
    requires exists { router.number < length topology.now.names }
    requires few { length topology.now.names ≤ ROUTERS_MOST }
    requires fine { IsFine search.now }
    requires rows { (l : Sig × ℕ) → Contains lines.now l → rows_in search.now l.0 ≡ Some l.1 }
    requires ordered { IsStrictlySortedBy line_cmp lines.now }
    requires told { IsTold search.now topology.now (is_within topology.now bound) (is_missing S.shown sights.now)
        (pairs_below lines.now router.number) told.old }
    ensures { OnOk result (IsTold search.now topology.now (is_within topology.now bound) (is_missing S.shown
        sights.now) (pairs_below lines.now (router.number + 1)) told.new) }
{
    let missing = missing_at(sights, router);
    for line in lines {
        let node = Node {
            router,
            sig: line.0,
        };
        tell_pair(
            told,
            origins,
            topology,
            search,
            bound,
            missing,
            Lead { node, row: line.1 },
        )?;
    }
    Ok(())
}

/// The signatures in ascending order, each with the beginning of its row.
pub(crate) fn lines_of(
    alloc: Global,
    rows: &BTreeMap<Sig, usize>,
) -> Result<Vec<(Sig, usize)>, NoMemory>
    ensures lines { IfOk result (λ lines. lines.items ≡ rows.now.entries) }
    ensures ordered { OnOk result (IsOrdered sig_cmp rows.now) }
{
    let mut lines = Vec::with_capacity(alloc, rows.len())?;
    for (sig, row) in rows {
        lines.push((*sig, *row))?;
    }
    Ok(lines)
}

/// What is told of all routers' pairs. Costs a read for each router and signature, and for each step from a node.
fn tell_all<S: Sighting>(
    alloc: Global,
    topology: &Topology,
    sights: &[S],
    bound: Option<u32>,
    search: &Search,
) -> Result<Told, NoMemory>
    requires few { length topology.now.names ≤ ROUTERS_MOST }
    requires fine { IsFine search.now }
    ensures ordered { OnOk result (IsOrdered sig_cmp search.now.rows) }
    ensures told { IfOk result (IsTold search.now topology.now (is_within topology.now bound) (is_missing S.shown
        sights.now) (pairs_below search.now.rows.entries (length topology.now.names))) }
{
    let lines = lines_of(alloc, &search.rows)?;
    let mut told = nothing(alloc);
    let mut origins = Vec::new(alloc);
    for number in 0..topology.routers() {
        let router = RouterId { number };
        tell_router(
            &mut told,
            &mut origins,
            topology,
            sights,
            bound,
            search,
            router,
            &lines,
        )?;
    }
    Ok(told)
}

/// The flood within `bound`, once no lead is left.
pub(crate) fn part_of<S: Sighting>(
    alloc: Global,
    topology: &Topology,
    sights: &[S],
    bound: Option<u32>,
    search: &Search,
) -> Result<Part, NoMemory>
    requires fine { IsFine search.now }
    ensures { IfOk result (IsPartOf (net_of S.shown sights.now topology.now) topology.now
        (is_within topology.now bound) search.now) }
{
    topology_is_sound(topology);
    let told = tell_all(alloc, topology, sights, bound, search)?;
    let Told {
        nodes,
        unknown,
        clear,
        ways,
    } = told;
    let Ways { inner, outer } = ways;
    Ok(Part {
        nodes: List::of(nodes),
        edges: List::of(inner),
        unknown: List::of(unknown),
        clear: List::of(clear),
        exits: List::of(outer),
    })
}
