// Pages are opened, and the open one is copied for a query.
//
// A plane has four slots: one for the open page, and three for closed ones, which are collected at the latest when their
// slot is needed, the oldest first. All memory is taken before a page leaves its slot.
ghost use Rattle.std.specs.Prelude.{◌≡◌, ◌<◌, ◌≤◌, ◌+◌, ◌-◌, ◌^◌, ℕ, IfOk, OnOk, OnErr, length};
ghost use Rattle.spie_base.specs.declared.Rules.{Rules as TheRules};
ghost use Rattle.page_catalogue.specs.Pages.{open_page};
ghost use Rattle.page_gate.specs.Slots.{free_count};
ghost use Rattle.router_account.specs.Ledger.{Ledger, Unfinished, turned_at};
ghost use Rattle.data_agent.specs.Archiving.{KeepsStanding};
ghost use Rattle.data_agent.specs.Beside.{Away, KeepsReads, MindsPages, StandsBeside, out_of};
ghost use Rattle.data_agent.specs.Calls.{HasRoom, IsLate, MayTurn};
ghost use Rattle.data_agent.specs.Planes.{IsOwnPlane, IsPrepared, entries_of};
ghost use Rattle.data_agent.specs.Standing.{StandsFor};

use crate::resident::hashes;
use crate::slots::{copy_page, turn_page, turn_page_alone};
use crate::{Agent, Resident};
use page_gate::Plane;
use spie_base::{NoMemory, PageNo};
use std::alloc::Global;
use std::sync::Wait;

impl Agent {
    // Makes sure that a slot is free, where no pass is out.
    fn make_room(&mut self, alloc: Global, plane: &Plane) -> Result<(), NoMemory>
        requires own { IsOwnPlane plane.now self.old }
        requires minds { MindsPages self.old }
        requires alone { out_of self.old ≡ 0 }
        ensures own { IsOwnPlane plane.now self.new }
        ensures minds { MindsPages self.new }
        ensures keeps { KeepsStanding self.old self.new }
        ensures free { OnOk result (1 ≤ free_count self.new.keeper.view.duties) }
    {
        if self.keeper.free() > 0 {
            return Ok(());
        }
        self.is_oldest_quiet(plane);
        self.collect_oldest(alloc, plane)
    }

    // Makes sure that a slot is free. Waits until nobody is inside the page that stands in one longest.
    fn wait_for_room<R: Wait>(
        &mut self,
        rt: &R,
        alloc: Global,
        plane: &Plane,
    ) -> Result<(), NoMemory>
        requires own { IsOwnPlane plane.now self.old }
        requires minds { MindsPages self.old }
        ensures own { IsOwnPlane plane.now self.new }
        ensures minds { MindsPages self.new }
        ensures keeps { KeepsStanding self.old self.new }
        ensures free { OnOk result (1 ≤ free_count self.new.keeper.view.duties) }
    {
        if self.keeper.free() > 0 {
            return Ok(());
        }
        self.wait_for_oldest(rt, plane);
        self.collect_oldest(alloc, plane)
    }

    /// Closes the open page at this clock, and opens the next, whose number is the answer. Where no slot of the plane is
    /// free, the page that stands in one longest is settled and collected first, at 2^(n-6) swaps; with no pass out it is always quiet. Only
    /// then it takes memory for a page, and else for the catalogue alone; all of it before it changes what it stands for.
    pub fn rotate_alone(
        &mut self,
        alloc: Global,
        plane: &Plane,
        clock: u64,
    ) -> Result<PageNo, NoMemory>
        requires own { IsOwnPlane plane.now self.old }
        requires ready { MayTurn (StandsFor self.old) clock }
        ensures own { IsOwnPlane plane.now self.new }
        ensures entries { entries_of self.new ≡ entries_of self.old }
        ensures page { IfOk result (λ page. (rules : TheRules) (l : Ledger) (u : Unfinished)
            → StandsFor self.old rules l u → page.number ≡ open_page l.account.closings + 1) }
        ensures turned { OnOk result ((rules : TheRules) (l : Ledger) (u : Unfinished) → StandsFor self.old rules l u
            → StandsFor self.new rules (turned_at l clock) u) }
        ensures same { OnErr result ((rules : TheRules) (l : Ledger) (u : Unfinished) → StandsFor self.old rules l u
            → StandsFor self.new rules l u) }
    {
        self.make_room(alloc, plane)?;
        self.catalogue.reserve(alloc, 1)?;
        turn_page_alone(plane, &mut self.keeper);
        self.marked = 0;
        self.copied = None;
        self.page = self.catalogue.turn(clock);
        Ok(self.page)
    }

    /// What `rotate_alone` does, also while passes are out: closes the open page at this clock, and opens the next, whose
    /// number is the answer. Records that are inside the closed page finish there. Where no slot of the plane is free, waits
    /// until nobody is inside the page that stands in one longest, and collects it, at 2^(n-6) swaps; a record leaves its page
    /// without waiting. May also wait for slow records, as `Plane::rotate` does. Takes memory as `rotate_alone` does.
    pub fn rotate<R: Wait>(
        &mut self,
        rt: &R,
        alloc: Global,
        plane: &Plane,
        clock: u64,
    ) -> Result<PageNo, NoMemory>
        requires own { IsOwnPlane plane.now self.old }
        requires ready { (rules : TheRules) × (l : Ledger) × (u : Unfinished) × (away : Away)
            × StandsBeside self.old rules l u away × IsLate l clock × HasRoom l }
        ensures own { IsOwnPlane plane.now self.new }
        ensures entries { entries_of self.new ≡ entries_of self.old }
        ensures page { IfOk result (λ page. (rules : TheRules) (l : Ledger) (u : Unfinished) (away : Away)
            → StandsBeside self.old rules l u away
            → page.number ≡ open_page l.account.closings + 1) }
        ensures turned { OnOk result ((rules : TheRules) (l : Ledger) (u : Unfinished) (away : Away)
            → StandsBeside self.old rules l u away
            → StandsBeside self.new rules (turned_at l clock) u away) }
        ensures same { OnErr result ((rules : TheRules) (l : Ledger) (u : Unfinished) (away : Away)
            → StandsBeside self.old rules l u away
            → StandsBeside self.new rules l u away) }
        ensures reads { KeepsReads self.old self.new }
    {
        self.wait_for_room(rt, alloc, plane)?;
        self.catalogue.reserve(alloc, 1)?;
        turn_page(rt, plane, &mut self.keeper);
        self.marked = 0;
        self.copied = None;
        self.page = self.catalogue.turn(clock);
        Ok(self.page)
    }

    /// Makes ready for a query: collects the closed pages that stand in slots, and copies the open page where there is no copy
    /// yet. Until something is recorded or a page is opened, `sight` may borrow them, and the copy stays. Takes memory for a page,
    /// costs 2^(n-6) loads where it copies, and copies no closed page.
    pub fn prepare(&mut self, alloc: Global, plane: &Plane) -> Result<(), NoMemory>
        requires own { IsOwnPlane plane.now self.old }
        requires stands { (rules : TheRules) × (l : Ledger) × (u : Unfinished) × StandsFor self.old rules l u }
        ensures own { IsOwnPlane plane.now self.new }
        ensures entries { entries_of self.new ≡ entries_of self.old }
        ensures same { (rules : TheRules) (l : Ledger) (u : Unfinished) → StandsFor self.old rules l u
            → StandsFor self.new rules l u }
        ensures prepared { OnOk result (IsPrepared self.new) }
    {
        self.collect_quiet(alloc, plane)?;
        if self.copied.is_some() {
            return Ok(());
        }
        let page = self.page;
        let family = hashes(alloc, &self.rules, self.router, page)?;
        let bits = copy_page(alloc, plane, &mut self.keeper, page)?;
        self.copied = Some(Resident { family, page: bits });
        Ok(())
    }
}
