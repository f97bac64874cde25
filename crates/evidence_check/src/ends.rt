// Judges the last line: whether each pair that is asked stands in a line.
ghost use Rattle.std.specs.Prelude.{◌≡◌, ◌<◌, ◌≤◌, ◌↔◌, IfOk, IsTrue, length, map};
ghost use Rattle.std.specs.List.{Contains, flat_map};
ghost use Rattle.reverse_flood.specs.Flood.{IsStep, net_of};
ghost use Rattle.reverse_flood.specs.Leads.{pairs_with};
ghost use Rattle.evidence_check.specs.Evidence.{stated_links};
ghost use Rattle.evidence_check.specs.Judging.{named_node, IsAskedBy};
ghost use Rattle.evidence_check.specs.Lines.{Exist, ExistNamed};
ghost use Rattle.evidence_check.specs.Pairs.{AreListed, IsFine};
ghost use Rattle.evidence_check.specs.Steps.{AreFewRouters, AreNear, LinksExist};

use crate::pairs::Pairs;
use crate::walk::{beside, origins_of, pairs_beside};
use evidence_text::{Link, Named};
use reverse_flood::Node;
use spie_base::{List, NoMemory, RouterId, Sig, Sighting};
use std::alloc::Global;
use topology::ROUTERS_MOST;

// Whether each of some pairs stands in a line.
fn are_listed(pairs: &Pairs, steps: &[Node]) -> bool
    requires fine { IsFine pairs.now }
    requires few { Exist ROUTERS_MOST steps.now }
    ensures { IsTrue result ↔ AreListed pairs.now (Contains steps.now) }
{
    let mut next = 0;
    while next < steps.len() {
        if !pairs.is_listed(&steps[next]) {
            return false;
        }
        next += 1;
    }
    true
}

// Whether each of some routers with each of some signatures stands in a line.
fn origins_listed(
    alloc: Global,
    near: &[RouterId],
    origins: &[Sig],
    pairs: &Pairs,
) -> Result<bool, NoMemory>
    requires few { AreFewRouters near.now }
    requires fine { IsFine pairs.now }
    ensures { IfOk result (λ said. IsTrue said ↔ AreListed pairs.now
        (Contains (flat_map (pairs_with near.now) origins.now))) }
{
    let mut next = 0;
    while next < origins.len() {
        let steps = pairs_beside(alloc, near, &origins[next])?;
        let listed = are_listed(pairs, &steps);
        if !listed {
            return Ok(false);
        }
        next += 1;
    }
    Ok(true)
}

// Whether each pair one step back from another stands in a line.
fn steps_listed<S: Sighting>(
    alloc: Global,
    sights: &[S],
    links: &[Link],
    near: &[List<RouterId>],
    node: &Node,
    pairs: &Pairs,
) -> Result<bool, NoMemory>
    requires near { AreNear links.now near.now }
    requires sights { length near.now ≡ length sights.now }
    requires few { length sights.now ≤ ROUTERS_MOST }
    requires links { LinksExist (length sights.now) links.now }
    requires exists { node.now.router.number < length sights.now }
    requires fine { IsFine pairs.now }
    ensures { IfOk result (λ said. IsTrue said ↔ AreListed pairs.now
        (IsStep (net_of S.shown sights.now (stated_links links.now)) node.now)) }
{
    let origins = origins_of(alloc, sights, links, node)?;
    let listed = origins_listed(alloc, beside(links, near, node.router), &origins, pairs)?;
    Ok(listed)
}

/// Whether the start and each pair one step back from a node stand in a line.
pub(crate) fn all_listed<S: Sighting>(
    alloc: Global,
    sights: &[S],
    links: &[Link],
    near: &[List<RouterId>],
    start: &Node,
    nodes: &[Named],
    pairs: &Pairs,
) -> Result<bool, NoMemory>
    requires near { AreNear links.now near.now }
    requires sights { length near.now ≡ length sights.now }
    requires few { length sights.now ≤ ROUTERS_MOST }
    requires links { LinksExist (length sights.now) links.now }
    requires begins { start.now.router.number < length sights.now }
    requires exist { ExistNamed (length sights.now) nodes.now }
    requires fine { IsFine pairs.now }
    ensures { IfOk result (λ said. IsTrue said ↔ AreListed pairs.now
        (IsAskedBy (net_of S.shown sights.now (stated_links links.now)) start.now (map named_node nodes.now))) }
{
    if !pairs.is_listed(start) {
        return Ok(false);
    }
    let mut place = 0;
    while place < nodes.len() {
        let listed = steps_listed(alloc, sights, links, near, &nodes[place].node, pairs)?;
        if !listed {
            return Ok(false);
        }
        place += 1;
    }
    Ok(true)
}
