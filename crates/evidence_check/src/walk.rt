// Notes which pairs are asked.
ghost use Rattle.std.specs.Prelude.{◌≡◌, ◌<◌, ◌≤◌, ◌↔◌, ◌⊎◌, IfOk, IsTrue, OnOk, length, map};
ghost use Rattle.std.specs.List.{Contains, flat_map};
ghost use Rattle.reverse_flood.specs.Flood.{net_of, IsStep};
ghost use Rattle.reverse_flood.specs.declared.graphs.Node.{Node as TheNode};
ghost use Rattle.reverse_flood.specs.Leads.{pairs_with};
ghost use Rattle.spie_base.specs.declared.RouterId.{RouterId as TheRouter};
ghost use Rattle.topology.specs.Layout.{is_linked};
ghost use Rattle.evidence_check.specs.Evidence.{stated_link, stated_links};
ghost use Rattle.evidence_check.specs.Judging.{named_node, IsAskedBy};
ghost use Rattle.evidence_check.specs.Lines.{Exist, ExistNamed};
ghost use Rattle.evidence_check.specs.Pairs.{Asks, IsFine};
ghost use Rattle.evidence_check.specs.Steps.{AreFewRouters, AreNear, LinksExist};

use crate::pairs::{Cell, Pairs};
use evidence_text::{Link, Named};
use reverse_flood::Node;
use spie_base::{List, NoMemory, RouterId, Sig, Sighting};
use std::alloc::Global;
use topology::ROUTERS_MOST;

/// Each of some routers with a signature.
pub(crate) fn pairs_beside(
    alloc: Global,
    near: &[RouterId],
    sig: &Sig,
) -> Result<Vec<Node>, NoMemory>
    ensures { IfOk result (λ pairs. pairs.items ≡ pairs_with near.now sig.now) }
{
    let mut pairs = Vec::new(alloc);
    for router in near {
        pairs.push(Node {
            router: *router,
            sig: *sig,
        })?;
    }
    Ok(pairs)
}

/// The origins of a pair.
pub(crate) fn origins_of<S: Sighting>(
    alloc: Global,
    sights: &[S],
    links: &[Link],
    node: &Node,
) -> Result<Vec<Sig>, NoMemory>
    requires exists { node.now.router.number < length sights.now }
    ensures { IfOk result (λ origins. origins.items ≡ (net_of S.shown sights.now (stated_links links.now)).origins
        node.now) }
{
    let origins = sights[node.router.number as usize].origins(alloc, &node.sig)?;
    Ok(origins)
}

/// The routers beside one.
pub(crate) fn beside<'a>(
    links: &[Link],
    near: &'a [List<RouterId>],
    router: RouterId,
) -> &'a [RouterId]
    requires near { AreNear links.now near.now }
    requires exists { router.number < length near.now }
    ensures { (q : TheRouter) → Contains result.now q ↔ IsTrue (is_linked (map stated_link links.now) router.number
        q.number) }
{
    near[router.number as usize].items()
}

// Notes a pair as asked, if nothing is known of it.
fn ask(pairs: &mut Pairs, node: &Node) -> Result<(), NoMemory>
    requires fine { IsFine pairs.old }
    requires few { node.now.router.number < ROUTERS_MOST }
    ensures fine { OnOk result (IsFine pairs.new) }
    ensures asks { OnOk result (Asks (λ n. node.now ≡ n) pairs.old pairs.new) }
{
    if !pairs.is_free(node) {
        return Ok(());
    }
    pairs.note(node, Cell::Asked)?;
    Ok(())
}

// Notes some pairs as asked.
fn ask_each(pairs: &mut Pairs, steps: &[Node]) -> Result<(), NoMemory>
    requires fine { IsFine pairs.old }
    requires few { Exist ROUTERS_MOST steps.now }
    ensures fine { OnOk result (IsFine pairs.new) }
    ensures asks { OnOk result (Asks (Contains steps.now) pairs.old pairs.new) }
{
    let mut next = 0;
    while next < steps.len() {
        ask(pairs, &steps[next])?;
        next += 1;
    }
    Ok(())
}

// Notes the pairs of some routers and some signatures as asked, those of one signature at a time: all of them would take
// more memory than the rows that tell the signatures.
fn ask_origins(
    alloc: Global,
    near: &[RouterId],
    origins: &[Sig],
    pairs: &mut Pairs,
) -> Result<(), NoMemory>
    requires few { AreFewRouters near.now }
    requires fine { IsFine pairs.old }
    ensures fine { OnOk result (IsFine pairs.new) }
    ensures asks { OnOk result (Asks (Contains (flat_map (pairs_with near.now) origins.now)) pairs.old pairs.new) }
{
    let mut next = 0;
    while next < origins.len() {
        let steps = pairs_beside(alloc, near, &origins[next])?;
        ask_each(pairs, &steps)?;
        next += 1;
    }
    Ok(())
}

// Notes the pairs one step back from another as asked.
fn ask_steps<S: Sighting>(
    alloc: Global,
    sights: &[S],
    links: &[Link],
    near: &[List<RouterId>],
    node: &Node,
    pairs: &mut Pairs,
) -> Result<(), NoMemory>
    requires near { AreNear links.now near.now }
    requires sights { length near.now ≡ length sights.now }
    requires few { length sights.now ≤ ROUTERS_MOST }
    requires links { LinksExist (length sights.now) links.now }
    requires exists { node.now.router.number < length sights.now }
    requires fine { IsFine pairs.old }
    ensures fine { OnOk result (IsFine pairs.new) }
    ensures asks { OnOk result (Asks (IsStep (net_of S.shown sights.now (stated_links links.now)) node.now) pairs.old
        pairs.new) }
{
    let origins = origins_of(alloc, sights, links, node)?;
    ask_origins(alloc, beside(links, near, node.router), &origins, pairs)?;
    Ok(())
}

/// Notes the start and the pairs one step back from nodes as asked, where they are no nodes.
pub(crate) fn mark_asked<S: Sighting>(
    alloc: Global,
    sights: &[S],
    links: &[Link],
    near: &[List<RouterId>],
    start: &Node,
    nodes: &[Named],
    pairs: &mut Pairs,
) -> Result<(), NoMemory>
    requires near { AreNear links.now near.now }
    requires sights { length near.now ≡ length sights.now }
    requires few { length sights.now ≤ ROUTERS_MOST }
    requires links { LinksExist (length sights.now) links.now }
    requires begins { start.now.router.number < length sights.now }
    requires exist { ExistNamed (length sights.now) nodes.now }
    requires fine { IsFine pairs.old }
    ensures fine { OnOk result (IsFine pairs.new) }
    ensures asks { OnOk result (Asks (IsAskedBy (net_of S.shown sights.now (stated_links links.now)) start.now
        (map named_node nodes.now)) pairs.old pairs.new) }
{
    ask(pairs, start)?;
    let mut place = 0;
    while place < nodes.len() {
        ask_steps(alloc, sights, links, near, &nodes[place].node, pairs)?;
        place += 1;
    }
    Ok(())
}
