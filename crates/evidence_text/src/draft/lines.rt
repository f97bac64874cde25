// One function for each kind of line: its form, and then whether it may stand here.
ghost use Rattle.std.specs.Prelude.{◌<◌, ◌^◌, map};
ghost use Rattle.evidence_text.specs.Outcomes.{Gives};
ghost use Rattle.evidence_text.specs.Reading as reading;

use crate::draft::Draft;
use crate::early::early_why;
use crate::rests::{
    edge_rest, end_rest, link_rest, node_rest, page_rest, pair_rest, router_rest, routers_rest,
    row_rest, version_rest,
};
use crate::stops::Stop;
use crate::words::Word;
use std::alloc::Global;

impl Draft {
    #[tactic(auto, unfolding(crate::specs::Reading::version_line))]
    pub fn version_line(&mut self, rest: &[&[u8]]) -> Result<(), Stop>
        requires { self.old.read < 2 ^ 40 }
        ensures { Gives (λ _. self.new) result (reading.version_line self.old (map (λ f. f.now) rest.now)) }
    {
        version_rest(rest)?;
        self.accept_version()
    }

    #[tactic(auto, unfolding(crate::specs::Reading::routers_line))]
    pub fn routers_line(&mut self, rest: &[&[u8]]) -> Result<(), Stop>
        requires { self.old.read < 2 ^ 40 }
        ensures { Gives (λ _. self.new) result (reading.routers_line self.old (map (λ f. f.now) rest.now)) }
    {
        let count = routers_rest(rest)?;
        self.accept_routers(count)
    }

    #[tactic(auto, unfolding(crate::specs::Reading::link_line))]
    pub fn link_line(&mut self, rest: &[&[u8]]) -> Result<(), Stop>
        requires { self.old.read < 2 ^ 40 }
        ensures { Gives (λ _. self.new) result (reading.link_line self.old self.old.count (map (λ f. f.now) rest.now)) }
    {
        let Some(count) = self.count else {
            return Err(Stop::Rule(early_why(Word::Link, rest)));
        };
        let link = link_rest(count, rest)?;
        self.accept_link(link)
    }

    #[tactic(auto, unfolding(crate::specs::Reading::start_line))]
    pub fn start_line(&mut self, rest: &[&[u8]]) -> Result<(), Stop>
        requires { self.old.read < 2 ^ 40 }
        ensures { Gives (λ _. self.new) result (reading.start_line self.old self.old.count (map (λ f. f.now) rest.now)) }
    {
        let Some(count) = self.count else {
            return Err(Stop::Rule(early_why(Word::Start, rest)));
        };
        let start = pair_rest(count, rest)?;
        self.accept_start(start)
    }

    #[tactic(auto, unfolding(crate::specs::Reading::router_line))]
    pub fn router_line(&mut self, alloc: Global, rest: &[&[u8]]) -> Result<(), Stop>
        requires { self.old.read < 2 ^ 40 }
        ensures { Gives (λ _. self.new) result (reading.router_line self.old self.old.count (map (λ f. f.now) rest.now)) }
    {
        let Some(count) = self.count else {
            return Err(Stop::Rule(early_why(Word::Router, rest)));
        };
        let (shape, missing) = router_rest(count, rest)?;
        self.accept_router(alloc, shape, missing)
    }

    #[tactic(auto, unfolding(crate::specs::Reading::page_line))]
    pub fn page_line(&mut self, alloc: Global, rest: &[&[u8]]) -> Result<(), Stop>
        requires { self.old.read < 2 ^ 40 }
        ensures { Gives (λ _. self.new) result (reading.page_line self.old self.old.n (map (λ f. f.now) rest.now)) }
    {
        let Some(n) = self.n else {
            return Err(Stop::Rule(early_why(Word::Page, rest)));
        };
        let (page, words) = page_rest(alloc, n, rest)?;
        self.accept_page(alloc, page, n, words)
    }

    #[tactic(auto, unfolding(crate::specs::Reading::row_line))]
    pub fn row_line(&mut self, rest: &[&[u8]]) -> Result<(), Stop>
        requires { self.old.read < 2 ^ 40 }
        ensures { Gives (λ _. self.new) result (reading.row_line self.old (map (λ f. f.now) rest.now)) }
    {
        let row = row_rest(rest)?;
        self.accept_row(row)
    }

    #[tactic(auto, unfolding(crate::specs::Reading::node_line))]
    pub fn node_line(&mut self, rest: &[&[u8]]) -> Result<(), Stop>
        requires { self.old.read < 2 ^ 40 }
        ensures { Gives (λ _. self.new) result (reading.node_line self.old self.old.count (map (λ f. f.now) rest.now)) }
    {
        let Some(count) = self.count else {
            return Err(Stop::Rule(early_why(Word::Node, rest)));
        };
        let named = node_rest(count, rest)?;
        self.accept_node(named)
    }

    #[tactic(auto, unfolding(crate::specs::Reading::edge_line))]
    pub fn edge_line(&mut self, rest: &[&[u8]]) -> Result<(), Stop>
        requires { self.old.read < 2 ^ 40 }
        ensures { Gives (λ _. self.new) result (reading.edge_line self.old self.old.count (map (λ f. f.now) rest.now)) }
    {
        let Some(count) = self.count else {
            return Err(Stop::Rule(early_why(Word::Edge, rest)));
        };
        let edge = edge_rest(count, rest)?;
        self.accept_edge(edge)
    }

    #[tactic(auto, unfolding(crate::specs::Reading::unknown_line))]
    pub fn unknown_line(&mut self, rest: &[&[u8]]) -> Result<(), Stop>
        requires { self.old.read < 2 ^ 40 }
        ensures { Gives (λ _. self.new) result (reading.unknown_line self.old self.old.count (map (λ f. f.now) rest.now)) }
    {
        let Some(count) = self.count else {
            return Err(Stop::Rule(early_why(Word::Unknown, rest)));
        };
        let node = pair_rest(count, rest)?;
        self.accept_unknown(node)
    }

    #[tactic(auto, unfolding(crate::specs::Reading::clear_line))]
    pub fn clear_line(&mut self, rest: &[&[u8]]) -> Result<(), Stop>
        requires { self.old.read < 2 ^ 40 }
        ensures { Gives (λ _. self.new) result (reading.clear_line self.old self.old.count (map (λ f. f.now) rest.now)) }
    {
        let Some(count) = self.count else {
            return Err(Stop::Rule(early_why(Word::Clear, rest)));
        };
        let node = pair_rest(count, rest)?;
        self.accept_clear(node)
    }

    #[tactic(auto, unfolding(crate::specs::Reading::end_line))]
    pub fn end_line(&mut self, rest: &[&[u8]]) -> Result<(), Stop>
        requires { self.old.read < 2 ^ 40 }
        ensures { Gives (λ _. self.new) result (reading.end_line self.old (map (λ f. f.now) rest.now)) }
    {
        end_rest(rest)?;
        self.accept_end()
    }
}
