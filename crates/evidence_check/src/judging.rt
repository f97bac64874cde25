// Judges an answer, part by part.
ghost use Rattle.std.specs.Prelude.{◌≡◌, ◌↔◌, IfOk, OnOk, IsTrue, None, length, take};
ghost use Rattle.reverse_flood.specs.Flood.{net_of};
ghost use Rattle.evidence_text.specs.Judgeable.{IsJudgeable};
ghost use Rattle.evidence_check.specs.Answer.{Certifies};
ghost use Rattle.evidence_check.specs.Checking.{IsJudged, is_yes};
ghost use Rattle.evidence_check.specs.declared.verdicts.Verdict.TheVariants.{Yes};
ghost use Rattle.evidence_check.specs.Evidence.{stated_links, stated_net};
ghost use Rattle.evidence_check.specs.Firsts.{AreRouters, EdgesHold, Finds, LeftHold, NodesHold};
ghost use Rattle.evidence_check.specs.Judging.{AllHold, named_nodes};
ghost use Rattle.evidence_check.specs.Pairs.{AreKept, AreNoted, IsFine, IsFresh, IsMarked};
ghost use Rattle.evidence_check.specs.Steps.{AreNear};

use crate::Verdict;
use crate::edges::first_bad_edge;
use crate::ends::all_listed;
use crate::failing::Failing;
use crate::left::first_bad_left;
use crate::lines::line_number;
use crate::near::near_all;
use crate::nodes::first_bad_node;
use crate::pairs::Pairs;
use crate::sights::sights_of;
use crate::walk::mark_asked;
use crate::ways::all_ways;
use evidence_text::Certificate;
use spie_base::{List, NoMemory, RouterId, Sighting};
use std::alloc::Global;

// Finds the first node whose line fails. Where there is none, the nodes are noted and the pairs that are asked.
fn judge_nodes<S: Sighting>(
    alloc: Global,
    sights: &[S],
    near: &[List<RouterId>],
    certificate: &Certificate,
    pairs: &mut Pairs,
) -> Result<Option<Failing>, NoMemory>
    requires near { AreNear certificate.now.links near.now }
    requires sights { length near.now ≡ length sights.now }
    requires routers { AreRouters (length sights.now) certificate.now }
    requires fine { IsFine pairs.old }
    requires none { AreNoted pairs.old (take 0 (named_nodes certificate.now)) }
    requires fresh { IsFresh pairs.old }
    ensures found { IfOk result (λ found. let net = net_of S.shown sights.now (stated_links certificate.now.links) in
        Finds net certificate.now (NodesHold net certificate.now) found) }
    ensures fine { OnOk result (IsFine pairs.new) }
    ensures marked { IfOk result (λ found. found ≡ None
        → IsMarked (net_of S.shown sights.now (stated_links certificate.now.links)) certificate.now.start
        (named_nodes certificate.now) pairs.new) }
{
    let links = certificate.links.items();
    let nodes = certificate.nodes.items();
    let bad = first_bad_node(alloc, sights, links, near, &certificate.start, nodes, pairs)?;
    match bad {
        Some(place) => Ok(Some(Failing::Node(place))),
        None => {
            mark_asked(alloc, sights, links, near, &certificate.start, nodes, pairs)?;
            Ok(None)
        }
    }
}

// Finds the first edge whose line fails, where nodes have none.
fn judge_edges<S: Sighting>(
    alloc: Global,
    sights: &[S],
    near: &[List<RouterId>],
    certificate: &Certificate,
    pairs: &Pairs,
) -> Result<Option<Failing>, NoMemory>
    requires near { AreNear certificate.now.links near.now }
    requires sights { length near.now ≡ length sights.now }
    requires routers { AreRouters (length sights.now) certificate.now }
    requires fine { IsFine pairs.now }
    requires nodes { NodesHold (net_of S.shown sights.now (stated_links certificate.now.links)) certificate.now }
    requires marked { IsMarked (net_of S.shown sights.now (stated_links certificate.now.links)) certificate.now.start
        (named_nodes certificate.now) pairs.now }
    ensures { IfOk result (λ found. let net = net_of S.shown sights.now (stated_links certificate.now.links) in
        Finds net certificate.now (EdgesHold net certificate.now) found) }
{
    let links = certificate.links.items();
    let edges = certificate.edges.items();
    let bad = first_bad_edge(alloc, sights, links, near, pairs, edges)?;
    match bad {
        Some(place) => Ok(Some(Failing::Edge(place))),
        None => Ok(None),
    }
}

// Finds the first pair that is no hit and whose line fails, where nodes and edges have none. Where there is none, the pairs
// are told.
fn judge_left<S: Sighting>(
    sights: &[S],
    certificate: &Certificate,
    pairs: &mut Pairs,
) -> Result<Option<Failing>, NoMemory>
    requires routers { AreRouters (length sights.now) certificate.now }
    requires fine { IsFine pairs.old }
    requires nodes { NodesHold (net_of S.shown sights.now (stated_links certificate.now.links)) certificate.now }
    requires edges { EdgesHold (net_of S.shown sights.now (stated_links certificate.now.links)) certificate.now }
    requires marked { IsMarked (net_of S.shown sights.now (stated_links certificate.now.links)) certificate.now.start
        (named_nodes certificate.now) pairs.old }
    ensures found { IfOk result (λ found. let net = net_of S.shown sights.now (stated_links certificate.now.links) in
        Finds net certificate.now (LeftHold net certificate.now) found) }
    ensures fine { OnOk result (IsFine pairs.new) }
    ensures kept { IfOk result (λ found. found ≡ None
        → AreKept (net_of S.shown sights.now (stated_links certificate.now.links)) certificate.now.start
        (named_nodes certificate.now) certificate.now.unknown certificate.now.clear pairs.new) }
{
    let links = certificate.links.items();
    let unknown = certificate.unknown.items();
    let clear = certificate.clear.items();
    let bad = first_bad_left(sights, links, true, unknown, pairs)?;
    match bad {
        Some(place) => Ok(Some(Failing::Unknown(place))),
        None => {
            let other = first_bad_left(sights, links, false, clear, pairs)?;
            match other {
                Some(place) => Ok(Some(Failing::Clear(place))),
                None => Ok(None),
            }
        }
    }
}

// Finds whether the last line fails, where no other does.
fn judge_end<S: Sighting>(
    alloc: Global,
    sights: &[S],
    near: &[List<RouterId>],
    certificate: &Certificate,
    pairs: &Pairs,
) -> Result<Option<Failing>, NoMemory>
    requires near { AreNear certificate.now.links near.now }
    requires sights { length near.now ≡ length sights.now }
    requires routers { AreRouters (length sights.now) certificate.now }
    requires fine { IsFine pairs.now }
    requires nodes { NodesHold (net_of S.shown sights.now (stated_links certificate.now.links)) certificate.now }
    requires edges { EdgesHold (net_of S.shown sights.now (stated_links certificate.now.links)) certificate.now }
    requires left { LeftHold (net_of S.shown sights.now (stated_links certificate.now.links)) certificate.now }
    requires kept { AreKept (net_of S.shown sights.now (stated_links certificate.now.links)) certificate.now.start
        (named_nodes certificate.now) certificate.now.unknown certificate.now.clear pairs.now }
    ensures { IfOk result (λ found. let net = net_of S.shown sights.now (stated_links certificate.now.links) in
        Finds net certificate.now (AllHold net certificate.now) found) }
{
    let links = certificate.links.items();
    let nodes = certificate.nodes.items();
    let edges = certificate.edges.items();
    let listed = all_listed(alloc, sights, links, near, &certificate.start, nodes, pairs)?;
    if !listed {
        return Ok(Some(Failing::End));
    }
    let told = all_ways(alloc, sights, links, near, nodes, pairs, edges)?;
    if !told {
        return Ok(Some(Failing::End));
    }
    Ok(None)
}

// Finds the first line that fails.
fn first_failing<S: Sighting>(
    alloc: Global,
    sights: &[S],
    near: &[List<RouterId>],
    certificate: &Certificate,
) -> Result<Option<Failing>, NoMemory>
    requires near { AreNear certificate.now.links near.now }
    requires sights { length near.now ≡ length sights.now }
    requires routers { AreRouters (length sights.now) certificate.now }
    ensures { IfOk result (λ found. let net = net_of S.shown sights.now (stated_links certificate.now.links) in
        Finds net certificate.now (AllHold net certificate.now) found) }
{
    let mut pairs = Pairs::new(alloc);
    let in_nodes = judge_nodes(alloc, sights, near, certificate, &mut pairs)?;
    match in_nodes {
        Some(failing) => Ok(Some(failing)),
        None => {
            let in_edges = judge_edges(alloc, sights, near, certificate, &pairs)?;
            match in_edges {
                Some(failing) => Ok(Some(failing)),
                None => {
                    let in_left = judge_left(sights, certificate, &mut pairs)?;
                    match in_left {
                        Some(failing) => Ok(Some(failing)),
                        None => judge_end(alloc, sights, near, certificate, &pairs),
                    }
                }
            }
        }
    }
}

// Says yes, with the lengths of the lists.
fn accepted(certificate: &Certificate) -> Verdict
    requires judgeable { IsJudgeable certificate.now }
    ensures { result ≡ Yes (length certificate.now.nodes) (length certificate.now.edges) (length certificate.now.unknown)
        (length certificate.now.clear) }
{
    Verdict::Yes {
        nodes: certificate.nodes.items().len() as u32,
        edges: certificate.edges.items().len() as u32,
        unknown: certificate.unknown.items().len() as u32,
        clear: certificate.clear.items().len() as u32,
    }
}

/// Judges the answer of a certificate line by line. It says yes exactly where the lists of the answer are those of the flood
/// from the start over the pages and links of the certificate, and else which line is the first that fails.
///
/// Makes no search for nodes. Costs a look at a router's pages for each node and each pair that is no hit, and two walks over
/// the steps from each node. A node line asks for the origins of the node that it names, unless the line before named the
/// same. Memory is as the bytes of the certificate's text, whatever the numbers in it say.
pub fn judge(alloc: Global, certificate: &Certificate) -> Result<Verdict, NoMemory>
    requires judgeable { IsJudgeable certificate.now }
    ensures yes { IfOk result (λ verdict. IsTrue (is_yes verdict)
        ↔ Certifies (stated_net certificate.now) certificate.now) }
    ensures exact { IfOk result (λ verdict. IsJudged certificate.now verdict) }
{
    let routers = certificate.routers.items();
    let near = near_all(alloc, certificate.links.items(), routers.len())?;
    let sights = sights_of(alloc, routers)?;
    let found = first_failing(alloc, &sights, &near, certificate)?;
    match found {
        Some(failing) => Ok(Verdict::No {
            line: line_number(certificate, failing),
        }),
        None => Ok(accepted(certificate)),
    }
}
