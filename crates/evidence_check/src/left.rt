// Judges the lines of pairs that are no hit.
ghost use Rattle.std.specs.Prelude.{◌≡◌, ◌<◌, ◌≤◌, ◌↔◌, IfOk, OnOk, IsTrue, None, length};
ghost use Rattle.reverse_flood.specs.Flood.{net_of};
ghost use Rattle.evidence_check.specs.Evidence.{stated_links};
ghost use Rattle.evidence_check.specs.Lines.{Exist, IsFirstBad};
ghost use Rattle.evidence_check.specs.Pairs.{IsFine, IsLeftIn, LeftAtIn, Tells};

use crate::edges::is_above;
use crate::pairs::{Cell, Pairs};
use evidence_text::Link;
use reverse_flood::Node;
use spie_base::{NoMemory, Sighting};
use std::alloc::Global;
use topology::ROUTERS_MOST;

// Whether a pair is hit.
fn is_seen<S: Sighting>(sights: &[S], links: &[Link], node: &Node) -> bool
    requires exists { node.now.router.number < length sights.now }
    ensures { result ≡ (net_of S.shown sights.now (stated_links links.now)).hit node.now }
{
    sights[node.router.number as usize].hit(&node.sig)
}

// Whether its router misses pages.
fn misses_pages<S: Sighting>(sights: &[S], links: &[Link], node: &Node) -> bool
    requires exists { node.now.router.number < length sights.now }
    ensures { result ≡ (net_of S.shown sights.now (stated_links links.now)).missing node.now.router.number }
{
    sights[node.router.number as usize].has_missing()
}

fn is_same(one: bool, other: bool) -> bool
    ensures { IsTrue result ↔ (one ≡ other) }
{
    one == other
}

// Whether a pair was asked and is no hit, at a router that misses pages, or that misses none.
fn is_left<S: Sighting>(
    sights: &[S],
    links: &[Link],
    pairs: &Pairs,
    misses: bool,
    node: &Node,
) -> bool
    requires few { length sights.now ≤ ROUTERS_MOST }
    requires exists { node.now.router.number < length sights.now }
    requires fine { IsFine pairs.now }
    ensures { IsTrue result ↔ IsLeftIn (net_of S.shown sights.now (stated_links links.now)) pairs.now misses node.now }
{
    if is_seen(sights, links, node) {
        return false;
    }
    if !is_same(misses_pages(sights, links, node), misses) {
        return false;
    }
    pairs.is_asked(node)
}

/// The first pair whose line fails. Where there is none, the pairs are told.
pub(crate) fn first_bad_left<S: Sighting>(
    sights: &[S],
    links: &[Link],
    misses: bool,
    left: &[Node],
    pairs: &mut Pairs,
) -> Result<Option<usize>, NoMemory>
    requires few { length sights.now ≤ ROUTERS_MOST }
    requires exist { Exist (length sights.now) left.now }
    requires fine { IsFine pairs.old }
    ensures first { IfOk result (λ bad. IsFirstBad (length left.now)
        (LeftAtIn (net_of S.shown sights.now (stated_links links.now)) pairs.old misses left.now) bad) }
    ensures fine { OnOk result (IsFine pairs.new) }
    ensures told { IfOk result (λ bad. bad ≡ None → Tells left.now pairs.old pairs.new) }
{
    let mut place = 0;
    while place < left.len() {
        if !is_above(left, place) {
            return Ok(Some(place));
        }
        if !is_left(sights, links, pairs, misses, &left[place]) {
            return Ok(Some(place));
        }
        pairs.note(&left[place], Cell::Told)?;
        place += 1;
    }
    Ok(None)
}
