// Judges the last line: whether each step between nodes has an edge line.
ghost use Rattle.std.specs.Prelude.{ℕ, ◌≡◌, ◌<◌, ◌≤◌, ◌↔◌, IfOk, IsTrue, length};
ghost use Rattle.std.specs.List.{Contains, flat_map};
ghost use Rattle.std.specs.List.Sorted.{IsStrictlySortedBy};
ghost use Rattle.reverse_flood.specs.Flood.{IsStep, edge_cmp, net_of};
ghost use Rattle.reverse_flood.specs.Leads.{pairs_with};
ghost use Rattle.evidence_check.specs.Evidence.{stated_links};
ghost use Rattle.evidence_check.specs.Lines.{Exist, ExistNamed};
ghost use Rattle.evidence_check.specs.Pairs.{HasWay, HaveWays, IsFine, WaysAt};
ghost use Rattle.evidence_check.specs.Steps.{AreFewRouters, AreNear, LinksExist};

use crate::pairs::Pairs;
use crate::walk::{beside, origins_of, pairs_beside};
use evidence_text::{Link, Named};
use reverse_flood::{Edge, Node};
use spie_base::{List, NoMemory, RouterId, Sig, Sighting};
use std::alloc::Global;
use topology::ROUTERS_MOST;

// Whether an edge is one of some that ascend.
fn has_edge(edges: &[Edge], edge: &Edge) -> bool
    requires { IsStrictlySortedBy edge_cmp edges.now }
    ensures { IsTrue result ↔ Contains edges.now edge.now }
{
    match edges.binary_search(edge) {
        Ok(_) => true,
        Err(_) => false,
    }
}

// Whether a step from a node has an edge line, if it leads to a node.
fn has_way(pairs: &Pairs, edges: &[Edge], down: &Node, up: &Node) -> bool
    requires fine { IsFine pairs.now }
    requires few { up.now.router.number < ROUTERS_MOST }
    requires sorted { IsStrictlySortedBy edge_cmp edges.now }
    ensures { IsTrue result ↔ HasWay pairs.now edges.now down.now up.now }
{
    if !pairs.is_node(up) {
        return true;
    }
    has_edge(
        edges,
        &Edge {
            down: *down,
            up: *up,
        },
    )
}

// Whether each of some steps from a node has an edge line, if it leads to a node.
fn have_ways(pairs: &Pairs, edges: &[Edge], down: &Node, steps: &[Node]) -> bool
    requires fine { IsFine pairs.now }
    requires few { Exist ROUTERS_MOST steps.now }
    requires sorted { IsStrictlySortedBy edge_cmp edges.now }
    ensures { IsTrue result ↔ HaveWays pairs.now edges.now down.now (Contains steps.now) }
{
    let mut next = 0;
    while next < steps.len() {
        if !has_way(pairs, edges, down, &steps[next]) {
            return false;
        }
        next += 1;
    }
    true
}

// The same of the steps to some routers with some signatures.
fn origins_have_ways(
    alloc: Global,
    near: &[RouterId],
    origins: &[Sig],
    down: &Node,
    pairs: &Pairs,
    edges: &[Edge],
) -> Result<bool, NoMemory>
    requires few { AreFewRouters near.now }
    requires fine { IsFine pairs.now }
    requires sorted { IsStrictlySortedBy edge_cmp edges.now }
    ensures { IfOk result (λ said. IsTrue said ↔ HaveWays pairs.now edges.now down.now
        (Contains (flat_map (pairs_with near.now) origins.now))) }
{
    let mut next = 0;
    while next < origins.len() {
        let steps = pairs_beside(alloc, near, &origins[next])?;
        let told = have_ways(pairs, edges, down, &steps);
        if !told {
            return Ok(false);
        }
        next += 1;
    }
    Ok(true)
}

// Whether each step from a node has an edge line, if it leads to a node.
fn steps_have_ways<S: Sighting>(
    alloc: Global,
    sights: &[S],
    links: &[Link],
    near: &[List<RouterId>],
    node: &Node,
    pairs: &Pairs,
    edges: &[Edge],
) -> Result<bool, NoMemory>
    requires near { AreNear links.now near.now }
    requires sights { length near.now ≡ length sights.now }
    requires few { length sights.now ≤ ROUTERS_MOST }
    requires links { LinksExist (length sights.now) links.now }
    requires exists { node.now.router.number < length sights.now }
    requires fine { IsFine pairs.now }
    requires sorted { IsStrictlySortedBy edge_cmp edges.now }
    ensures { IfOk result (λ said. IsTrue said ↔ HaveWays pairs.now edges.now node.now
        (IsStep (net_of S.shown sights.now (stated_links links.now)) node.now)) }
{
    let origins = origins_of(alloc, sights, links, node)?;
    let routers = beside(links, near, node.router);
    let told = origins_have_ways(alloc, routers, &origins, node, pairs, edges)?;
    Ok(told)
}

/// Whether each step from a node to a node has an edge line.
pub(crate) fn all_ways<S: Sighting>(
    alloc: Global,
    sights: &[S],
    links: &[Link],
    near: &[List<RouterId>],
    nodes: &[Named],
    pairs: &Pairs,
    edges: &[Edge],
) -> Result<bool, NoMemory>
    requires near { AreNear links.now near.now }
    requires sights { length near.now ≡ length sights.now }
    requires few { length sights.now ≤ ROUTERS_MOST }
    requires links { LinksExist (length sights.now) links.now }
    requires exist { ExistNamed (length sights.now) nodes.now }
    requires fine { IsFine pairs.now }
    requires sorted { IsStrictlySortedBy edge_cmp edges.now }
    ensures { IfOk result (λ said. IsTrue said ↔ ((place : ℕ) → WaysAt (net_of S.shown sights.now
        (stated_links links.now)) pairs.now edges.now nodes.now place)) }
{
    let mut place = 0;
    while place < nodes.len() {
        let node = &nodes[place].node;
        let told = steps_have_ways(alloc, sights, links, near, node, pairs, edges)?;
        if !told {
            return Ok(false);
        }
        place += 1;
    }
    Ok(true)
}
