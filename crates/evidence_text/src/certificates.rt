// What a certificate tells.

use bloom_page::Page;
use packet_signature::Row;
use reverse_flood::{Edge, Node};
use spie_base::{List, PageNo, PageShape, RouterId};

/// What a used page holds: the positions that are set, and the transforms in their order.
#[derive(Drop)]
pub struct PageEvidence {
    pub page: PageNo,
    pub bits: Page,
    pub rows: List<Row>,
}

/// What a query reads of a router: the shape of its pages, whether one of its window is missing, and its used pages,
/// ascending.
#[derive(Drop)]
pub struct RouterPages {
    pub shape: PageShape,
    pub missing: bool,
    pub pages: List<PageEvidence>,
}

/// A link of two routers, of which the one with the lower number is named first.
#[derive(Clone, Copy, PartialEq, Eq, Debug)]
pub struct Link {
    pub low: RouterId,
    pub high: RouterId,
}

/// A node of the answer, and the place of an earlier node from which it is one step back. The start has none.
#[derive(Clone, Copy, PartialEq, Eq, Debug)]
pub struct Named {
    pub node: Node,
    pub from: Option<u32>,
}

/// What a certificate tells: what the answer was read from, and the answer.
#[derive(Drop)]
pub struct Certificate {
    pub links: List<Link>,
    pub start: Node,
    /// One of each router, in the order of their numbers.
    pub routers: List<RouterPages>,
    pub nodes: List<Named>,
    pub edges: List<Edge>,
    /// The asked pairs that are no hit, at routers that miss pages.
    pub unknown: List<Node>,
    /// The asked pairs that are no hit, at routers that miss none.
    pub clear: List<Node>,
}
