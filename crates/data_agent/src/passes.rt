// Passes of the agent's plane are dealt and gathered.
ghost use Rattle.std.specs.Prelude.{◌≡◌, ◌≤◌, ◌-◌, ◌^◌, ◌⊎◌, ◌++◌, ℕ, All, IfOk, OnOk, OnErr, replicate, vec_len, flat_map, true, false};
ghost use Rattle.spie_base.specs.declared.Rules.{Rules as TheRules};
ghost use Rattle.spie_base.specs.declared.Sig.{Sig as TheSig};
ghost use Rattle.gate_core.specs.declared.limits.TheConstants.{MOST_PASSES};
ghost use Rattle.page_catalogue.specs.Pages.{open_page};
ghost use Rattle.page_gate.specs.Held.{PassHeld};
ghost use Rattle.router_account.specs.Ledger.{Ledger, Unfinished};
ghost use Rattle.router_account.specs.Records.{ArePageBits};
ghost use Rattle.router_account.specs.Watches.{shows};
ghost use Rattle.data_agent.specs.Beside.{Away, StandsBeside, AreBelow, AreClosedBits, AreFrom, IsGathered, AreRead, fresh_pass, out_of};
ghost use Rattle.data_agent.specs.Planes.{IsOwnPlane, entries_of};
ghost use Rattle.data_agent.specs.Standing.{StandsFor};

use crate::Agent;
use crate::slots::{deal_passes, gather_passes};
use page_gate::{Pass, Plane};
use spie_base::{NoMemory, PageNo};
use std::alloc::Global;

// Whether a pass recorded in this page or a later one. The pages of its entries never fall, so the last one tells.
fn has_recorded(pass: &Pass, page: PageNo) -> bool
    ensures { (result ≡ false) → AreBelow page.number pass.now.entries }
{
    pass.rises();
    match pass.last() {
        Some(entry) => entry.page.number >= page.number,
        None => false,
    }
}

// At least as many bits as are set in the open page once these passes are taken in, by what it was before. It is the
// greatest number where a pass recorded in the page, since how many entries a pass has is known to proofs alone.
fn most_marked(passes: &[Pass], page: PageNo, marked: u32) -> u32
    ensures { (result ≡ 2 ^ 32 - 1)
        ⊎ ((result ≡ marked) × All (λ (p : PassHeld). AreBelow page.number p.entries) passes.now) }
{
    for pass in passes {
        if has_recorded(pass, page) {
            return u32::MAX;
        }
    }
    marked
}

impl Agent {
    /// How many passes are out, 0 to `MOST_PASSES`.
    pub fn out(&self) -> u32
        ensures out { result ≡ out_of self.now }
        ensures beside { (rules : TheRules) (l : Ledger) (u : Unfinished) (away : Away)
            → StandsBeside self.now rules l u away → result ≡ away.out }
        ensures alone { (rules : TheRules) (l : Ledger) (u : Unfinished) → StandsFor self.now rules l u → result ≡ 0 }
    {
        self.keeper.out()
    }

    /// Deals so many passes, 1 to `MOST_PASSES`, through which threads record in the plane while the agent is used beside
    /// them. The open page is their floor. Takes memory for the list alone; `NoMemory` where there is none, and then nothing
    /// is dealt. Costs a load for each.
    pub fn deal(&mut self, alloc: Global, plane: &Plane, passes: u32) -> Result<Vec<Pass>, NoMemory>
        requires own { IsOwnPlane plane.now self.old }
        requires stands { (rules : TheRules) × (l : Ledger) × (u : Unfinished) × StandsFor self.old rules l u }
        requires least { 1 ≤ passes }
        requires most { passes ≤ MOST_PASSES }
        ensures own { IsOwnPlane plane.now self.new }
        ensures entries { entries_of self.new ≡ entries_of self.old }
        ensures passes { IfOk result (λ v. v.items ≡ replicate passes (fresh_pass plane.now self.old)) }
        ensures floor { (rules : TheRules) (l : Ledger) (u : Unfinished) → StandsFor self.old rules l u
            → (fresh_pass plane.now self.old).floor ≡ open_page l.account.closings }
        ensures beside { OnOk result ((rules : TheRules) (l : Ledger) (u : Unfinished) → StandsFor self.old rules l u
            → AreClosedBits rules l u
            → StandsBeside self.new rules l u (record { out = passes; since = open_page l.account.closings })) }
        ensures same { OnErr result ((rules : TheRules) (l : Ledger) (u : Unfinished) → StandsFor self.old rules l u
            → StandsFor self.new rules l u) }
    {
        deal_passes(alloc, plane, &mut self.keeper, passes)
    }

    /// Takes in all passes that are out. The agent then stands for the ledger that has their entries too; the bits records that
    /// were put meanwhile have their pages' bits, and where all marks of a signature were read as set in a page, the entries
    /// show it there. Where a pass recorded in the open page the next tick counts its bits. Takes no memory. Costs a load for
    /// each pass.
    pub fn gather(&mut self, plane: &Plane, passes: Vec<Pass>)
        requires own { IsOwnPlane plane.now self.old }
        requires passes { All (λ p. p.table ≡ plane.now.table) passes.items }
        requires away { (rules : TheRules) × (l : Ledger) × (u : Unfinished) × (away : Away)
            × StandsBeside self.old rules l u away
            × (vec_len passes ≡ away.out) × AreFrom away.since passes.items }
        ensures own { IsOwnPlane plane.now self.new }
        ensures entries { entries_of self.new ≡ entries_of self.old ++ flat_map (λ p. p.entries) passes.items }
        ensures stands { (rules : TheRules) (l : Ledger) (u : Unfinished) (away : Away)
            → StandsBeside self.old rules l u away → AreFrom away.since passes.items
            → (after : Ledger) → IsGathered l (flat_map (λ p. p.entries) passes.items) after
            → StandsFor self.new rules after u }
        ensures bits { (rules : TheRules) (l : Ledger) (u : Unfinished) (away : Away)
            → StandsBeside self.old rules l u away → AreFrom away.since passes.items
            → (after : Ledger) → IsGathered l (flat_map (λ p. p.entries) passes.items) after
            → ArePageBits rules after.account u }
        ensures shown { (rules : TheRules) (l : Ledger) (u : Unfinished) (away : Away)
            → StandsBeside self.old rules l u away → AreFrom away.since passes.items
            → (after : Ledger) → IsGathered l (flat_map (λ p. p.entries) passes.items) after → (page : ℕ) (sig : TheSig)
            → AreRead self.old page sig
            → shows rules after.account sig page ≡ true }
    {
        self.marked = most_marked(&passes, self.page, self.marked);
        gather_passes(plane, &mut self.keeper, passes);
        self.copied = None;
    }
}
