// Judges the lines of nodes.
ghost use Rattle.std.specs.Prelude.{◌≡◌, ◌<◌, ◌≤◌, ◌↔◌, IfOk, OnOk, IsTrue, None, length, map, take};
ghost use Rattle.reverse_flood.specs.Flood.{net_of, IsHit};
ghost use Rattle.evidence_check.specs.Evidence.{stated_links};
ghost use Rattle.evidence_check.specs.Judging.{named_node, IsFrom, IsLed, NodeAt, NodeHolds};
ghost use Rattle.evidence_check.specs.Lines.{ExistNamed, IsFirstBad};
ghost use Rattle.evidence_check.specs.Pairs.{AreNoted, IsFine, IsFresh};
ghost use Rattle.evidence_check.specs.Steps.{AreNear, Knows};

use crate::last::LastOrigins;
use crate::pairs::{Cell, Pairs};
use evidence_text::{Link, Named};
use reverse_flood::Node;
use spie_base::{List, NoMemory, RouterId, Sighting};
use std::alloc::Global;
use topology::ROUTERS_MOST;

// Whether a pair is hit.
fn is_hit<S: Sighting>(sights: &[S], links: &[Link], node: &Node) -> bool
    requires exists { node.now.router.number < length sights.now }
    ensures { IsTrue result ↔ IsHit (net_of S.shown sights.now (stated_links links.now)) node.now }
{
    sights[node.router.number as usize].hit(&node.sig)
}

// Whether a pair is one step back from the node that its line names, one of those before a place.
fn comes_from<S: Sighting>(
    alloc: Global,
    sights: &[S],
    links: &[Link],
    near: &[List<RouterId>],
    nodes: &[Named],
    place: usize,
    from: Option<u32>,
    node: &Node,
    last: &mut LastOrigins,
) -> Result<bool, NoMemory>
    requires near { AreNear links.now near.now }
    requires sights { length near.now ≡ length sights.now }
    requires exist { ExistNamed (length sights.now) nodes.now }
    requires within { place ≤ length nodes.now }
    requires knows { Knows (net_of S.shown sights.now (stated_links links.now)) last.old }
    ensures knows { OnOk result (Knows (net_of S.shown sights.now (stated_links links.now)) last.new) }
    ensures from { IfOk result (λ said. IsTrue said ↔ IsFrom (net_of S.shown sights.now (stated_links links.now))
        (take place (map named_node nodes.now)) node.now from) }
{
    let Some(from) = from else {
        return Ok(false);
    };
    let earlier = from as usize;
    if earlier >= place {
        return Ok(false);
    }
    last.is_step(alloc, sights, links, near, &nodes[earlier].node, node)
}

// Whether a line names the start without another node.
fn begins(start: &Node, named: &Named) -> bool
    ensures forth { IsTrue result → named.now.node ≡ start.now }
    ensures alone { IsTrue result → named.now.from ≡ None }
    ensures back { named.now.node ≡ start.now → named.now.from ≡ None → IsTrue result }
{
    named.node == *start && named.from.is_none()
}

// Whether a line names the start as the first node, or a later one that is one step back from an earlier one.
fn is_led<S: Sighting>(
    alloc: Global,
    sights: &[S],
    links: &[Link],
    near: &[List<RouterId>],
    start: &Node,
    nodes: &[Named],
    place: usize,
    named: &Named,
    last: &mut LastOrigins,
) -> Result<bool, NoMemory>
    requires near { AreNear links.now near.now }
    requires sights { length near.now ≡ length sights.now }
    requires exist { ExistNamed (length sights.now) nodes.now }
    requires within { place ≤ length nodes.now }
    requires knows { Knows (net_of S.shown sights.now (stated_links links.now)) last.old }
    ensures knows { OnOk result (Knows (net_of S.shown sights.now (stated_links links.now)) last.new) }
    ensures led { IfOk result (λ said. IsTrue said ↔ IsLed (net_of S.shown sights.now (stated_links links.now)) start.now
        (take place (map named_node nodes.now)) named.now) }
{
    if place == 0 {
        return Ok(begins(start, named));
    }
    comes_from(
        alloc,
        sights,
        links,
        near,
        nodes,
        place,
        named.from,
        &named.node,
        last,
    )
}

// Whether the line of a node holds.
fn node_holds<S: Sighting>(
    alloc: Global,
    sights: &[S],
    links: &[Link],
    near: &[List<RouterId>],
    start: &Node,
    nodes: &[Named],
    pairs: &Pairs,
    place: usize,
    named: &Named,
    last: &mut LastOrigins,
) -> Result<bool, NoMemory>
    requires near { AreNear links.now near.now }
    requires sights { length near.now ≡ length sights.now }
    requires few { length sights.now ≤ ROUTERS_MOST }
    requires exist { ExistNamed (length sights.now) nodes.now }
    requires exists { named.now.node.router.number < length sights.now }
    requires within { place ≤ length nodes.now }
    requires fine { IsFine pairs.now }
    requires noted { AreNoted pairs.now (take place (map named_node nodes.now)) }
    requires knows { Knows (net_of S.shown sights.now (stated_links links.now)) last.old }
    ensures knows { OnOk result (Knows (net_of S.shown sights.now (stated_links links.now)) last.new) }
    ensures holds { IfOk result (λ said. IsTrue said ↔ NodeHolds (net_of S.shown sights.now (stated_links links.now)) start.now
        (take place (map named_node nodes.now)) named.now) }
{
    if pairs.is_node(&named.node) {
        return Ok(false);
    }
    if !is_hit(sights, links, &named.node) {
        return Ok(false);
    }
    is_led(alloc, sights, links, near, start, nodes, place, named, last)
}

/// The first node whose line fails. Where there is none, the nodes are noted.
pub(crate) fn first_bad_node<S: Sighting>(
    alloc: Global,
    sights: &[S],
    links: &[Link],
    near: &[List<RouterId>],
    start: &Node,
    nodes: &[Named],
    pairs: &mut Pairs,
) -> Result<Option<usize>, NoMemory>
    requires near { AreNear links.now near.now }
    requires sights { length near.now ≡ length sights.now }
    requires few { length sights.now ≤ ROUTERS_MOST }
    requires exist { ExistNamed (length sights.now) nodes.now }
    requires fine { IsFine pairs.old }
    requires none { AreNoted pairs.old (take 0 (map named_node nodes.now)) }
    requires fresh { IsFresh pairs.old }
    ensures first { IfOk result (λ bad. IsFirstBad (length nodes.now)
        (NodeAt (net_of S.shown sights.now (stated_links links.now)) start.now nodes.now) bad) }
    ensures fine { OnOk result (IsFine pairs.new) }
    ensures fresh { OnOk result (IsFresh pairs.new) }
    ensures noted { IfOk result (λ bad. bad ≡ None → AreNoted pairs.new (map named_node nodes.now)) }
{
    let mut last = LastOrigins::none(alloc);
    let mut place = 0;
    while place < nodes.len() {
        let named = nodes[place];
        let right = node_holds(
            alloc, sights, links, near, start, nodes, pairs, place, &named, &mut last,
        )?;
        if !right {
            return Ok(Some(place));
        }
        pairs.note(&named.node, Cell::Node)?;
        place += 1;
    }
    Ok(None)
}
