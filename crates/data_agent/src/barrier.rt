// A barrier: the segment's archival is finished, a tick closes the open page where it is due, and then pages expire.
ghost use Rattle.std.specs.Prelude.{◌≡◌, ◌≤◌, ◌<◌, ◌+◌, ◌-◌, ◌^◌, ◌&&◌, [], nat_le, nat_lt, ℕ, true, not, IfOk, OnOk, OnErr, length, drop, if◌then◌else◌};
ghost use Rattle.std.specs.List.{Contains};
ghost use Rattle.spie_base.specs.Causes.{RoseBy};
ghost use Rattle.spie_base.specs.declared.Rules.{Rules as TheRules};
ghost use Rattle.page_shelf.specs.Shelves.{ChangesOnly};
ghost use Rattle.router_account.specs.Ledger.{Ledger, Unfinished, nothing_unfinished, behind_barrier, turned_at};
ghost use Rattle.router_account.specs.Records.{Holds, HoldsBits, ArePageBits, KeepsOthers};
ghost use Rattle.shelved_page.specs.Shelving.{view_of};
ghost use Rattle.transform_table.specs.Tables.{rows_of_page};
ghost use Rattle.data_agent.specs.Calls.{MayPass, MayTurn, IsPassed, IsPassedName, split_of, left_of, marks_of};
ghost use Rattle.data_agent.specs.Expiring.{Discards, DiscardsOne, covers_at, IsExpiredBy, expired_with};
ghost use Rattle.data_agent.specs.Planes.{IsOwnPlane, IsPlaneSame, entries_of};
ghost use Rattle.data_agent.specs.Standing.{Stands, StandsFor, StandsWhole, StillStands};
ghost use Rattle.data_agent.specs.Passing.{IsDueBits, IsTicked, StandsForSame};

use crate::closed_page::ClosedPage;
use crate::slots::fill_page;
use crate::{Agent, Barrier, Closed};
use page_gate::Plane;
use page_shelf::Shelf;
use shelved_page::discard_both;
use spie_base::{List, NoMemory, PageNo, PageRange, RouterId};
use std::alloc::Global;
use std::collections::VecDeque;
use transform_table::Table;

// Lets go of so many pages at the front.
fn let_go(pages: &mut VecDeque<ClosedPage>, count: usize)
    ensures { pages.new.items ≡ drop count pages.old.items }
{
    'pages: for _ in 0..count {
        let _ = pages.pop_front();
    }
}

// Leaves out the rows of these pages, and no others.
fn drop_rows(table: &mut Table, pages: &PageRange)
    requires some { pages.now.first.number ≤ pages.now.last.number }
    ensures { (page : ℕ) → rows_of_page page table.new
        ≡ (if nat_le pages.now.first.number page && nat_lt page (pages.now.last.number + 1) then []
        else rows_of_page page table.old) }
{
    'pages: for number in pages.first.number..pages.last.number {
        table.drop_page(PageNo { number });
    }
    table.drop_page(pages.last);
}

// Discards the records of an expired page, where an archival covered it. Says whether one of them is left.
fn discard_one<H: Shelf>(
    alloc: Global,
    shelf: &mut H,
    router: RouterId,
    page: PageNo,
    covered: bool,
) -> Result<bool, NoMemory>
    ensures later { H.faults shelf.old ≤ H.faults shelf.new }
    ensures still { H.tells shelf.new ≡ H.tells shelf.old }
    ensures discarded { let before = view_of H.tells H.contents H.faults shelf.old in
        let after = view_of H.tells H.contents H.faults shelf.new in
        IfOk result (λ left. DiscardsOne router.number page.number covered left before after) }
{
    if !covered {
        return Ok(false);
    }
    let cleared = discard_both(alloc, shelf, router, page)?;
    Ok(!cleared)
}

// Discards the records of these expired pages, the first ones among the closed, where an archival covered them. Gives
// the pages of which a record is left.
fn discard_pages<H: Shelf>(
    alloc: Global,
    shelf: &mut H,
    router: RouterId,
    pages: &PageRange,
    closed: &VecDeque<ClosedPage>,
) -> Result<Vec<PageNo>, NoMemory>
    requires some { pages.now.first.number ≤ pages.now.last.number }
    requires fits { pages.now.last.number + 1 < 2 ^ 32 }
    requires there { pages.now.last.number - pages.now.first.number < length closed.now.items }
    ensures later { H.faults shelf.old ≤ H.faults shelf.new }
    ensures still { H.tells shelf.new ≡ H.tells shelf.old }
    ensures discarded { let before = view_of H.tells H.contents H.faults shelf.old in
        let after = view_of H.tells H.contents H.faults shelf.new in
        IfOk result (λ left. Discards router.number
        (covers_at pages.now.first.number closed.now.items) pages.now.first.number
        (pages.now.last.number + 1) left.items before after) }
{
    let mut left = Vec::new(alloc);
    'pages: for number in pages.first.number..pages.last.number + 1 {
        let page = PageNo { number };
        let covered = closed[(number - pages.first.number) as usize].covered;
        if discard_one(alloc, shelf, router, page, covered)? {
            left.push(page)?;
        }
    }
    Ok(left)
}

impl Agent {
    // How many bits of the open page are set, where a tick of this time closes it. They are counted only where as many
    // marks as the limit were set since the last count, or the page is closed.
    fn due_bits(&mut self, plane: &Plane, clock: u64) -> Option<u32>
        requires own { IsOwnPlane plane.now self.old }
        requires later { self.old.catalogue.clock ≤ clock }
        requires stands { (rules : TheRules) × (l : Ledger) × Stands self.old rules l }
        ensures own { IsOwnPlane plane.now self.new }
        ensures entries { entries_of self.new ≡ entries_of self.old }
        ensures bits { (rules : TheRules) (l : Ledger) (u : Unfinished) → StandsWhole self.old rules l u
            → IsDueBits rules l.account clock result }
        ensures same { (rules : TheRules) (l : Ledger) (u : Unfinished) → StandsWhole self.old rules l u
            → StandsWhole self.new rules l u }
        ensures rest { (self.new.catalogue ≡ self.old.catalogue) × (self.new.page ≡ self.old.page) }
    {
        if self.catalogue.due(clock, self.marked).is_none() {
            return None;
        }
        let bits = fill_page(plane, &mut self.keeper, self.page);
        self.marked = bits;
        if self.catalogue.due(clock, bits).is_none() {
            return None;
        }
        Some(bits)
    }

    // Closes the open page, which leaves its slot at once.
    fn renew(&mut self, alloc: Global, plane: &Plane, clock: u64) -> Result<(), NoMemory>
        requires own { IsOwnPlane plane.now self.old }
        requires ready { MayTurn (StandsWhole self.old) clock }
        ensures own { IsOwnPlane plane.now self.new }
        ensures entries { entries_of self.new ≡ entries_of self.old }
        ensures turned { OnOk result ((rules : TheRules) (l : Ledger) (u : Unfinished) → StandsWhole self.old rules l u
            → StandsWhole self.new rules (turned_at l clock) u) }
        ensures recorded { OnErr result ((rules : TheRules) (l : Ledger) (u : Unfinished)
            → StandsWhole self.old rules l u → StandsForSame self.new rules l clock) }
    {
        self.rotate_alone(alloc, plane, clock)?;
        self.collect_quiet(alloc, plane)
    }

    // Closes the open page where a tick of this time does.
    fn close(
        &mut self,
        alloc: Global,
        plane: &Plane,
        clock: u64,
        tick: bool,
    ) -> Result<Option<Closed>, NoMemory>
        requires own { IsOwnPlane plane.now self.old }
        requires ready { MayPass (StandsWhole self.old) clock tick }
        ensures own { IsOwnPlane plane.now self.new }
        ensures entries { entries_of self.new ≡ entries_of self.old }
        ensures ticked { IfOk result (λ closed. (rules : TheRules) (l : Ledger) (u : Unfinished)
            → StandsWhole self.old rules l u → IsTicked rules l u clock tick closed self.new) }
        ensures later { OnOk result (self.new.catalogue.clock ≤ clock) }
        ensures recorded { OnErr result ((rules : TheRules) (l : Ledger) (u : Unfinished)
            → StandsWhole self.old rules l u → StandsForSame self.new rules l clock) }
    {
        if !tick {
            return Ok(None);
        }
        let page = self.page;
        let Some(bits) = self.due_bits(plane, clock) else {
            return Ok(None);
        };
        self.renew(alloc, plane, clock)?;
        Ok(Some(Closed { page, bits }))
    }

    // Lets go of the pages that expire at this clock, and gives those of which a record is left on the shelf.
    fn expire<H: Shelf>(
        &mut self,
        alloc: Global,
        shelf: &mut H,
        clock: u64,
    ) -> Result<Vec<PageNo>, NoMemory>
        requires later { self.old.catalogue.clock ≤ clock }
        requires stands { (rules : TheRules) × (l : Ledger) × Stands self.old rules l }
        ensures later { H.faults shelf.old ≤ H.faults shelf.new }
        ensures still { H.tells shelf.new ≡ H.tells shelf.old }
        ensures expired { (rules : TheRules) (l : Ledger) → Stands self.old rules l
            → Stands self.new rules (expired_with l clock []) }
        ensures noted { self.new.noted ≡ self.old.noted }
        ensures plane { IsPlaneSame self.old self.new }
        ensures discarded { let before = view_of H.tells H.contents H.faults shelf.old in
            let after = view_of H.tells H.contents H.faults shelf.new in
            IfOk result (λ left. (rules : TheRules) (l : Ledger) → Stands self.old rules l
            → IsExpiredBy rules l clock left.items before after) }
    {
        let Some(pages) = self.catalogue.expire(clock) else {
            return Ok(Vec::new(alloc));
        };
        let left = discard_pages(alloc, shelf, self.router, &pages, &self.closed);
        let_go(
            &mut self.closed,
            (pages.last.number - pages.first.number) as usize + 1,
        );
        drop_rows(&mut self.table, &pages);
        left
    }

    // A barrier where all closed pages have left their slots.
    fn pass<H: Shelf>(
        &mut self,
        alloc: Global,
        plane: &Plane,
        shelf: &mut H,
        clock: u64,
        tick: bool,
    ) -> Result<Barrier, NoMemory>
        requires own { IsOwnPlane plane.now self.old }
        requires ready { MayPass (StandsWhole self.old) clock tick }
        ensures own { IsOwnPlane plane.now self.new }
        ensures entries { entries_of self.new ≡ entries_of self.old }
        ensures later { H.faults shelf.old ≤ H.faults shelf.new }
        ensures still { H.tells shelf.new ≡ H.tells shelf.old }
        ensures told { IfOk result (λ b. (rules : TheRules) (l : Ledger) (u : Unfinished)
            → StandsWhole self.old rules l u → IsPassed rules l clock tick b) }
        ensures passed { IfOk result (λ b. (rules : TheRules) (l : Ledger) (u : Unfinished)
            → StandsWhole self.old rules l u
            → StandsWhole self.new rules (behind_barrier rules l clock tick (split_of b)
            (left_of b)) nothing_unfinished) }
        ensures paid { IfOk result (λ b. (rules : TheRules) (l : Ledger) (u : Unfinished)
            → StandsWhole self.old rules l u
            → RoseBy (marks_of b - u.refused) (H.faults shelf.old) (H.faults shelf.new)) }
        ensures holds { IfOk result (λ b. (rules : TheRules) (l : Ledger) (u : Unfinished)
            → StandsWhole self.old rules l u → H.tells shelf.old ≡ true
            → Holds rules (H.contents shelf.old) l → HoldsBits rules (H.contents shelf.old) l.account u
            → ArePageBits rules l.account u
            → Holds rules (H.contents shelf.new) (behind_barrier rules l clock tick (split_of b) (left_of b))) }
        ensures others { OnOk result ((rules : TheRules) (l : Ledger) (u : Unfinished) → StandsWhole self.old rules l u
            → H.tells shelf.old ≡ true → KeepsOthers l.account.router (H.contents shelf.old) (H.contents shelf.new)) }
        ensures untouched { IfOk result (λ b. (rules : TheRules) (l : Ledger) (u : Unfinished)
            → StandsWhole self.old rules l u → H.tells shelf.old ≡ true
            → ChangesOnly (IsPassedName rules l (behind_barrier rules l clock tick (split_of b) (left_of b)) (split_of b))
            (H.contents shelf.old) (H.contents shelf.new)) }
        ensures recorded { OnErr result ((rules : TheRules) (l : Ledger) (u : Unfinished)
            → StandsWhole self.old rules l u → StandsForSame self.new rules l clock) }
    {
        let archived = self.finish(alloc, shelf)?;
        let closed = self.close(alloc, plane, clock, tick)?;
        let left = self.expire(alloc, shelf, clock)?;
        Ok(Barrier {
            archived,
            closed,
            left: List::of(left),
        })
    }

    /// The barrier's part at this router. First the closed pages that stand in slots are collected. Then the segment's archival
    /// is finished: bits records that it deferred are put, and of each page that it covers whose bits record was put the rows
    /// record is put too, and where that worked the page leaves memory. Then a tick closes the open page where it is due, and collects it, and then pages expire, and
    /// the shelf's records of these are discarded. The bits of the open page are counted only where as many marks as the
    /// limit were set since the last count, or where it closes.
    pub fn barrier<H: Shelf>(
        &mut self,
        alloc: Global,
        plane: &Plane,
        shelf: &mut H,
        clock: u64,
        tick: bool,
    ) -> Result<Barrier, NoMemory>
        requires own { IsOwnPlane plane.now self.old }
        requires ready { MayPass (StandsFor self.old) clock tick }
        ensures own { IsOwnPlane plane.now self.new }
        ensures entries { entries_of self.new ≡ entries_of self.old }
        ensures later { H.faults shelf.old ≤ H.faults shelf.new }
        ensures still { H.tells shelf.new ≡ H.tells shelf.old }
        ensures told { IfOk result (λ b. (rules : TheRules) (l : Ledger) (u : Unfinished) → StandsFor self.old rules l u
            → IsPassed rules l clock tick b) }
        ensures passed { IfOk result (λ b. (rules : TheRules) (l : Ledger) (u : Unfinished)
            → StandsFor self.old rules l u
            → StandsFor self.new rules (behind_barrier rules l clock tick (split_of b)
            (left_of b)) nothing_unfinished) }
        ensures paid { IfOk result (λ b. (rules : TheRules) (l : Ledger) (u : Unfinished) → StandsFor self.old rules l u
            → RoseBy (marks_of b - u.refused) (H.faults shelf.old) (H.faults shelf.new)) }
        ensures holds { IfOk result (λ b. (rules : TheRules) (l : Ledger) (u : Unfinished)
            → StandsFor self.old rules l u → H.tells shelf.old ≡ true
            → Holds rules (H.contents shelf.old) l → HoldsBits rules (H.contents shelf.old) l.account u
            → ArePageBits rules l.account u
            → Holds rules (H.contents shelf.new) (behind_barrier rules l clock tick (split_of b) (left_of b))) }
        ensures others { OnOk result ((rules : TheRules) (l : Ledger) (u : Unfinished) → StandsFor self.old rules l u
            → H.tells shelf.old ≡ true → KeepsOthers l.account.router (H.contents shelf.old) (H.contents shelf.new)) }
        ensures untouched { IfOk result (λ b. (rules : TheRules) (l : Ledger) (u : Unfinished)
            → StandsFor self.old rules l u → H.tells shelf.old ≡ true
            → ChangesOnly (IsPassedName rules l (behind_barrier rules l clock tick (split_of b) (left_of b)) (split_of b))
            (H.contents shelf.old) (H.contents shelf.new)) }
        ensures recorded { OnErr result ((rules : TheRules) (l : Ledger) (u : Unfinished) → StandsFor self.old rules l u
            → StandsForSame self.new rules l clock) }
    {
        self.collect_quiet(alloc, plane)?;
        self.pass(alloc, plane, shelf, clock, tick)
    }
}
