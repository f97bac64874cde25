// Whether a line of its form may stand here, and what is known with it.
ghost use Rattle.std.specs.Prelude.{◌≡◌, ◌<◌, ◌≤◌, ◌-◌, ◌^◌, vec_len, Some};
ghost use Rattle.spie_base.specs.declared.types.TheConstants.{N_LEAST, N_MOST};
ghost use Rattle.evidence_text.specs.Before.{told_in};
ghost use Rattle.evidence_text.specs.Order as order;
ghost use Rattle.evidence_text.specs.Outcomes.{Gives};
ghost use Rattle.evidence_text.specs.Reading as reading;
ghost use Rattle.evidence_text.specs.Said as said;

use crate::certificates::{Link, Named, RouterPages};
use crate::draft::Draft;
use crate::draft::pages::{add_page, add_row};
use crate::refused::CheckWhy;
use crate::stops::Stop;
use crate::words::Stage;
use packet_signature::Row;
use reverse_flood::{Edge, Node};
use spie_base::{List, PageNo, PageShape};
use std::alloc::Global;

impl Draft {
    // Whether a link is greater than the latest.
    fn is_link_above(&self, link: &Link) -> bool
        ensures { result ≡ order.is_link_above self.now.link link.now }
    {
        match &self.link {
            None => true,
            Some(latest) => (latest.low, latest.high) < (link.low, link.high),
        }
    }

    // Whether a page is greater than the latest of its router.
    fn is_page_above(&self, page: PageNo) -> bool
        ensures { result ≡ order.is_page_above self.now.page page.number }
    {
        match self.page {
            None => true,
            Some(latest) => latest < page.number,
        }
    }

    // Whether a part of the answer may begin or go on: all routers were told, and no later part has begun.
    fn may_answer(&self, part: u8) -> bool
        ensures { result ≡ order.may_answer (told_in self.now) part }
    {
        match self.count {
            None => false,
            Some(count) => count == self.told && self.stage.rank() <= part,
        }
    }

    #[tactic(auto, unfolding(crate::specs::Reading::accept, crate::specs::Reading::grown))]
    pub fn accept_version(&mut self) -> Result<(), Stop>
        requires short { self.old.read < 2 ^ 40 }
        ensures { Gives (λ _. self.new) result (reading.accept self.old said.VersionLine) }
    {
        if !self.stage.at_version() {
            return Err(Stop::Rule(CheckWhy::Order));
        }
        self.stage = Stage::Routers;
        self.read += 1;
        Ok(())
    }

    #[tactic(auto, unfolding(crate::specs::Reading::accept, crate::specs::Reading::grown))]
    pub fn accept_routers(&mut self, count: u32) -> Result<(), Stop>
        requires short { self.old.read < 2 ^ 40 }
        ensures { Gives (λ _. self.new) result (reading.accept self.old (said.RoutersLine count)) }
    {
        if !self.stage.at_routers() {
            return Err(Stop::Rule(CheckWhy::Order));
        }
        self.count = Some(count);
        self.stage = Stage::Links;
        self.read += 1;
        Ok(())
    }

    #[tactic(auto, unfolding(crate::specs::Reading::accept, crate::specs::Reading::grown))]
    pub fn accept_link(&mut self, link: Link) -> Result<(), Stop>
        requires short { self.old.read < 2 ^ 40 }
        ensures { Gives (λ _. self.new) result (reading.accept self.old (said.LinkLine link)) }
    {
        if !self.stage.at_links() || !self.is_link_above(&link) {
            return Err(Stop::Rule(CheckWhy::Order));
        }
        self.links.push(link)?;
        self.link = Some(link);
        self.stage = Stage::Links;
        self.read += 1;
        Ok(())
    }

    #[tactic(auto, unfolding(crate::specs::Reading::accept, crate::specs::Reading::grown))]
    pub fn accept_start(&mut self, start: Node) -> Result<(), Stop>
        requires short { self.old.read < 2 ^ 40 }
        ensures { Gives (λ _. self.new) result (reading.accept self.old (said.StartLine start)) }
    {
        if !self.stage.at_links() {
            return Err(Stop::Rule(CheckWhy::Order));
        }
        self.start = start;
        self.stage = Stage::Pages;
        self.read += 1;
        Ok(())
    }

    #[tactic(auto, unfolding(crate::specs::Reading::accept, crate::specs::Reading::grown))]
    pub fn accept_router(
        &mut self,
        alloc: Global,
        shape: PageShape,
        missing: bool,
    ) -> Result<(), Stop>
        requires short { self.old.read < 2 ^ 40 }
        requires size { (N_LEAST ≤ shape.n) × (shape.n ≤ N_MOST) }
        requires router { shape.router.number < 4294967295 }
        ensures { Gives (λ _. self.new) result (reading.accept self.old (said.RouterLine shape missing)) }
    {
        if !self.stage.at_pages() || shape.router.number != self.told {
            return Err(Stop::Rule(CheckWhy::Order));
        }
        self.routers.push(RouterPages {
            shape,
            missing,
            pages: List::of(Vec::new(alloc)),
        })?;
        self.told += 1;
        self.n = Some(shape.n);
        self.page = None;
        self.stage = Stage::Pages;
        self.read += 1;
        Ok(())
    }

    #[tactic(auto, unfolding(crate::specs::Reading::accept, crate::specs::Reading::grown))]
    pub fn accept_page(
        &mut self,
        alloc: Global,
        page: PageNo,
        n: u8,
        words: Vec<u64>,
    ) -> Result<(), Stop>
        requires short { self.old.read < 2 ^ 40 }
        requires n { self.old.n ≡ Some n }
        requires size { (N_LEAST ≤ n) × (n ≤ N_MOST) }
        requires count { vec_len words ≡ 2 ^ (n - 6) }
        ensures { Gives (λ _. self.new) result (reading.accept self.old (said.PageLine page words.items)) }
    {
        if !self.stage.at_pages() || !self.is_page_above(page) {
            return Err(Stop::Rule(CheckWhy::Order));
        }
        add_page(alloc, &mut self.routers, page, n, words)?;
        self.page = Some(page.number);
        self.stage = Stage::Pages;
        self.read += 1;
        Ok(())
    }

    #[tactic(auto, unfolding(crate::specs::Reading::accept, crate::specs::Reading::grown))]
    pub fn accept_row(&mut self, row: Row) -> Result<(), Stop>
        requires short { self.old.read < 2 ^ 40 }
        ensures { Gives (λ _. self.new) result (reading.accept self.old (said.RowLine row)) }
    {
        if !self.stage.at_pages() || self.page.is_none() {
            return Err(Stop::Rule(CheckWhy::Order));
        }
        add_row(&mut self.routers, row)?;
        self.stage = Stage::Pages;
        self.read += 1;
        Ok(())
    }

    #[tactic(auto, unfolding(crate::specs::Reading::accept, crate::specs::Reading::grown))]
    pub fn accept_node(&mut self, named: Named) -> Result<(), Stop>
        requires short { self.old.read < 2 ^ 40 }
        ensures { Gives (λ _. self.new) result (reading.accept self.old (said.NodeLine named)) }
    {
        if !self.may_answer(2) {
            return Err(Stop::Rule(CheckWhy::Order));
        }
        self.nodes.push(named)?;
        self.stage = Stage::Nodes;
        self.read += 1;
        Ok(())
    }

    #[tactic(auto, unfolding(crate::specs::Reading::accept, crate::specs::Reading::grown))]
    pub fn accept_edge(&mut self, edge: Edge) -> Result<(), Stop>
        requires short { self.old.read < 2 ^ 40 }
        ensures { Gives (λ _. self.new) result (reading.accept self.old (said.EdgeLine edge)) }
    {
        if !self.may_answer(3) {
            return Err(Stop::Rule(CheckWhy::Order));
        }
        self.edges.push(edge)?;
        self.stage = Stage::Edges;
        self.read += 1;
        Ok(())
    }

    #[tactic(auto, unfolding(crate::specs::Reading::accept, crate::specs::Reading::grown))]
    pub fn accept_unknown(&mut self, node: Node) -> Result<(), Stop>
        requires short { self.old.read < 2 ^ 40 }
        ensures { Gives (λ _. self.new) result (reading.accept self.old (said.UnknownLine node)) }
    {
        if !self.may_answer(4) {
            return Err(Stop::Rule(CheckWhy::Order));
        }
        self.unknown.push(node)?;
        self.stage = Stage::Unknown;
        self.read += 1;
        Ok(())
    }

    #[tactic(auto, unfolding(crate::specs::Reading::accept, crate::specs::Reading::grown))]
    pub fn accept_clear(&mut self, node: Node) -> Result<(), Stop>
        requires short { self.old.read < 2 ^ 40 }
        ensures { Gives (λ _. self.new) result (reading.accept self.old (said.ClearLine node)) }
    {
        if !self.may_answer(5) {
            return Err(Stop::Rule(CheckWhy::Order));
        }
        self.clear.push(node)?;
        self.stage = Stage::Clear;
        self.read += 1;
        Ok(())
    }

    #[tactic(auto, unfolding(crate::specs::Reading::accept, crate::specs::Reading::grown))]
    pub fn accept_end(&mut self) -> Result<(), Stop>
        requires short { self.old.read < 2 ^ 40 }
        ensures { Gives (λ _. self.new) result (reading.accept self.old said.EndLine) }
    {
        if !self.may_answer(6) {
            return Err(Stop::Rule(CheckWhy::Order));
        }
        self.stage = Stage::Over;
        self.read += 1;
        Ok(())
    }
}
