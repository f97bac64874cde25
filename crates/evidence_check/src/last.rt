// The origins of the pair that was looked at last. Edges with one downstream end stand together, since edges ascend, and
// nodes that name one earlier node mostly do: so its origins are asked for once, and each line costs a binary search in them.
ghost use Rattle.std.specs.Prelude.{◌≡◌, ◌<◌, ◌↔◌, IfOk, OnOk, IsTrue, Some, length};
ghost use Rattle.std.specs.List.{Contains};
ghost use Rattle.std.specs.List.Sorted.{IsStrictlySortedBy};
ghost use Rattle.spie_base.specs.Order.{sig_cmp};
ghost use Rattle.reverse_flood.specs.Flood.{IsStep, Net as TheNet, net_of};
ghost use Rattle.evidence_check.specs.Evidence.{stated_links};
ghost use Rattle.evidence_check.specs.Steps.{AreNear, Knows};

use crate::steps::is_beside;
use evidence_text::Link;
use reverse_flood::Node;
use spie_base::{List, NoMemory, RouterId, Sig, Sighting};
use std::alloc::Global;

/// The pair that was looked at last, and its origins.
#[derive(Drop)]
pub(crate) struct LastOrigins {
    pub(crate) node: Option<Node>,
    pub(crate) origins: Vec<Sig>,
}

// Whether a signature is one of some that ascend.
fn is_among(sigs: &[Sig], sig: &Sig) -> bool
    requires { IsStrictlySortedBy sig_cmp sigs.now }
    ensures { IsTrue result ↔ Contains sigs.now sig.now }
{
    match sigs.binary_search(sig) {
        Ok(_) => true,
        Err(_) => false,
    }
}

impl LastOrigins {
    /// None was looked at.
    pub(crate) fn none(alloc: Global) -> LastOrigins
        ensures { (net : TheNet) → Knows net result }
    {
        LastOrigins {
            node: None,
            origins: Vec::new(alloc),
        }
    }

    // Whether the pair is the one that was looked at last.
    fn is_last(&self, node: &Node) -> bool
        ensures { IsTrue result → self.now.node ≡ Some node.now }
    {
        match self.node {
            Some(last) => last == *node,
            None => false,
        }
    }

    // Looks at a pair, unless it was looked at last.
    fn look<S: Sighting>(
        &mut self,
        alloc: Global,
        sights: &[S],
        links: &[Link],
        node: &Node,
    ) -> Result<(), NoMemory>
        requires exists { node.now.router.number < length sights.now }
        requires knows { Knows (net_of S.shown sights.now (stated_links links.now)) self.old }
        ensures knows { OnOk result (Knows (net_of S.shown sights.now (stated_links links.now)) self.new) }
        ensures node { OnOk result (self.new.node ≡ Some node.now) }
    {
        if self.is_last(node) {
            return Ok(());
        }
        self.origins = sights[node.router.number as usize].origins(alloc, &node.sig)?;
        self.node = Some(*node);
        Ok(())
    }

    /// Whether a pair is one step back from another.
    pub(crate) fn is_step<S: Sighting>(
        &mut self,
        alloc: Global,
        sights: &[S],
        links: &[Link],
        near: &[List<RouterId>],
        from: &Node,
        to: &Node,
    ) -> Result<bool, NoMemory>
        requires near { AreNear links.now near.now }
        requires sights { length near.now ≡ length sights.now }
        requires exists { from.now.router.number < length sights.now }
        requires knows { Knows (net_of S.shown sights.now (stated_links links.now)) self.old }
        ensures knows { OnOk result (Knows (net_of S.shown sights.now (stated_links links.now)) self.new) }
        ensures step { IfOk result (λ said. IsTrue said ↔ IsStep (net_of S.shown sights.now (stated_links links.now))
            from.now to.now) }
    {
        if !is_beside(links, near, from.router, to.router) {
            return Ok(false);
        }
        self.look(alloc, sights, links, from)?;
        Ok(is_among(&self.origins, &to.sig))
    }
}
