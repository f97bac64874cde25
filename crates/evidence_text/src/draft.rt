// What is known of a certificate after some of its lines.
mod accepts;
mod lines;
mod pages;

ghost use Rattle.std.specs.Prelude.{◌≡◌, ◌<◌, ◌^◌, ◌+◌, [], map};
ghost use Rattle.evidence_text.specs.Before.{known_of, certificate_in};
ghost use Rattle.evidence_text.specs.Outcomes.{Gives};
ghost use Rattle.evidence_text.specs.Reading as reading;

use crate::certificates::{Certificate, Link, Named, RouterPages};
use crate::refused::CheckWhy;
use crate::stops::Stop;
use crate::words::{Stage, Word, word_of};
use line_text::split_into;
use reverse_flood::{Edge, Node};
use spie_base::{List, RouterId, Sig};
use std::alloc::Global;
use std::marker::Model;

// What stands for the start until it is read.
const NO_NODE: Node = Node {
    router: RouterId { number: 0 },
    sig: Sig { bytes: [0; 28] },
};

/// What is known of a certificate after some of its lines. After a `Stop` it is of no more use.
#[derive(Drop)]
pub struct Draft {
    stage: Stage,
    read: u64,
    // how many routers there are to be, and how many were told
    count: Option<u32>,
    told: u32,
    // the bits of a position in the pages of the latest router
    n: Option<u8>,
    // the latest link, and the latest page of the latest router
    link: Option<Link>,
    page: Option<u32>,
    links: Vec<Link>,
    start: Node,
    routers: Vec<RouterPages>,
    nodes: Vec<Named>,
    edges: Vec<Edge>,
    unknown: Vec<Node>,
    clear: Vec<Node>,
}

impl Model for Draft {
    ghost use Rattle.evidence_text.specs.Before.{Known, IsSize};

    ghost Value = { Known };

    ghost view = { λ d. record { stage = d.stage; read = d.read; count = d.count; told = d.told; n = d.n; link = d.link; page = d.page; links = d.links.items; start = d.start; routers = d.routers.items; nodes = d.nodes.items; edges = d.edges.items; unknown = d.unknown.items; clear = d.clear.items } };

    ghost invariant = { λ d. IsSize d.n };
}

impl Draft {
    /// Before the first line.
    pub fn new(alloc: Global) -> Draft
        ensures { result ≡ known_of [] }
    {
        Draft {
            stage: Stage::Version,
            read: 0,
            count: None,
            told: 0,
            n: None,
            link: None,
            page: None,
            links: Vec::new(alloc),
            start: NO_NODE,
            routers: Vec::new(alloc),
            nodes: Vec::new(alloc),
            edges: Vec::new(alloc),
            unknown: Vec::new(alloc),
            clear: Vec::new(alloc),
        }
    }

    /// How far the certificate is.
    pub fn stage(&self) -> Stage
        ensures { result ≡ self.now.stage }
    {
        self.stage
    }

    /// The number of the next line.
    pub fn next_line(&self) -> u64
        requires { self.now.read < 2 ^ 41 }
        ensures { result ≡ self.now.read + 1 }
    {
        self.read + 1
    }

    /// The certificate, where all its lines were read.
    pub fn into_certificate(self) -> Certificate
        ensures { result ≡ certificate_in self }
    {
        Certificate {
            links: List::of(self.links),
            start: self.start,
            routers: List::of(self.routers),
            nodes: List::of(self.nodes),
            edges: List::of(self.edges),
            unknown: List::of(self.unknown),
            clear: List::of(self.clear),
        }
    }

    /// Reads one line. `found` is room for its fields, of any content.
    #[tactic(auto, unfolding(crate::specs::Reading::read_line))]
    pub fn read_line<'a>(
        &mut self,
        alloc: Global,
        found: &mut Vec<&'a [u8]>,
        text: &'a [u8],
    ) -> Result<(), Stop>
        requires { self.old.read < 2 ^ 40 }
        ensures { Gives (λ _. self.new) result (reading.read_line self.old text.now) }
    {
        split_into(found, text)?;
        let [first, rest @ ..] = found.as_slice() else {
            return Err(Stop::Rule(CheckWhy::Word));
        };
        match word_of(first) {
            Some(word) => self.line_by(alloc, word, rest),
            None => Err(Stop::Rule(CheckWhy::Word)),
        }
    }

    // Reads the fields behind a word.
    #[tactic(auto, unfolding(crate::specs::Reading::line_by))]
    fn line_by(&mut self, alloc: Global, word: Word, rest: &[&[u8]]) -> Result<(), Stop>
        requires { self.old.read < 2 ^ 40 }
        ensures { Gives (λ _. self.new) result (reading.line_by self.old word (map (λ f. f.now) rest.now)) }
    {
        match word {
            Word::Version => self.version_line(rest),
            Word::Routers => self.routers_line(rest),
            Word::Link => self.link_line(rest),
            Word::Start => self.start_line(rest),
            Word::Router => self.router_line(alloc, rest),
            Word::Page => self.page_line(alloc, rest),
            Word::Row => self.row_line(rest),
            Word::Node => self.node_line(rest),
            Word::Edge => self.edge_line(rest),
            Word::Unknown => self.unknown_line(rest),
            Word::Clear => self.clear_line(rest),
            Word::End => self.end_line(rest),
        }
    }
}
