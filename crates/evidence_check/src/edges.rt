// Judges the lines of edges.
ghost use Rattle.std.specs.Prelude.{◌≡◌, ◌<◌, ◌≤◌, ◌↔◌, IfOk, OnOk, IsTrue, List as Items, Some, length, slice_get};
ghost use Rattle.reverse_flood.specs.declared.graphs.Node.{Node as TheNode};
ghost use Rattle.reverse_flood.specs.Flood.{net_of};
ghost use Rattle.evidence_check.specs.Evidence.{stated_links};
ghost use Rattle.evidence_check.specs.Judging.{EdgeAt, IsAbove};
ghost use Rattle.evidence_check.specs.Lines.{ExistEnds, IsFirstBad};
ghost use Rattle.evidence_check.specs.Pairs.{AreNoted, IsFine, IsWayIn};
ghost use Rattle.evidence_check.specs.Steps.{AreNear, Knows};

use crate::last::LastOrigins;
use crate::pairs::Pairs;
use evidence_text::Link;
use reverse_flood::Edge;
use spie_base::{List, NoMemory, RouterId, Sighting};
use std::alloc::Global;
use std::cmp::Ordering;
use topology::ROUTERS_MOST;

/// Whether an item is above the one before it.
pub(crate) fn is_above<T: Ord>(items: &[T], place: usize) -> bool
    requires { place < length items.now }
    ensures { (x : T) → slice_get items.now place ≡ Some x → IsTrue result ↔ IsAbove T.cmp items.now place x }
{
    if place == 0 {
        return true;
    }
    match items[place - 1].cmp(&items[place]) {
        Ordering::Less => true,
        Ordering::Equal => false,
        Ordering::Greater => false,
    }
}

// Whether a pair is one step back from another, and both are nodes.
fn is_way<S: Sighting>(
    alloc: Global,
    sights: &[S],
    links: &[Link],
    near: &[List<RouterId>],
    pairs: &Pairs,
    edge: &Edge,
    last: &mut LastOrigins,
) -> Result<bool, NoMemory>
    requires near { AreNear links.now near.now }
    requires sights { length near.now ≡ length sights.now }
    requires few { length sights.now ≤ ROUTERS_MOST }
    requires down { edge.now.down.router.number < length sights.now }
    requires up { edge.now.up.router.number < length sights.now }
    requires fine { IsFine pairs.now }
    requires knows { Knows (net_of S.shown sights.now (stated_links links.now)) last.old }
    ensures knows { OnOk result (Knows (net_of S.shown sights.now (stated_links links.now)) last.new) }
    ensures way { IfOk result (λ said. IsTrue said ↔ IsWayIn (net_of S.shown sights.now (stated_links links.now)) pairs.now
        edge.now) }
{
    if !pairs.is_node(&edge.down) {
        return Ok(false);
    }
    if !pairs.is_node(&edge.up) {
        return Ok(false);
    }
    last.is_step(alloc, sights, links, near, &edge.down, &edge.up)
}

/// The first edge whose line fails.
pub(crate) fn first_bad_edge<S: Sighting>(
    alloc: Global,
    sights: &[S],
    links: &[Link],
    near: &[List<RouterId>],
    pairs: &Pairs,
    edges: &[Edge],
) -> Result<Option<usize>, NoMemory>
    requires near { AreNear links.now near.now }
    requires sights { length near.now ≡ length sights.now }
    requires few { length sights.now ≤ ROUTERS_MOST }
    requires exist { ExistEnds (length sights.now) edges.now }
    requires fine { IsFine pairs.now }
    ensures { IfOk result (λ bad. (nodes : Items TheNode) → AreNoted pairs.now nodes → IsFirstBad
        (length edges.now) (EdgeAt (net_of S.shown sights.now (stated_links links.now)) nodes edges.now) bad) }
{
    let mut last = LastOrigins::none(alloc);
    let mut place = 0;
    while place < edges.len() {
        if !is_above(edges, place) {
            return Ok(Some(place));
        }
        let way = is_way(alloc, sights, links, near, pairs, &edges[place], &mut last)?;
        if !way {
            return Ok(Some(place));
        }
        place += 1;
    }
    Ok(None)
}
