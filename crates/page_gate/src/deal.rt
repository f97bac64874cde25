// Passes are dealt and gathered, all at once.
ghost use Rattle.std.specs.Prelude.{◌≡◌, ◌<◌, ◌≤◌, ◌++◌, All, IfOk, OnOk, OnErr, replicate, vec_len, flat_map};
ghost use Rattle.gate_core.specs.Invariant.{IsWhole};
ghost use Rattle.gate_core.specs.declared.limits.TheConstants.{MOST_PASSES};
ghost use Rattle.page_gate.specs.Steps.{IsMet};
ghost use Rattle.page_gate.specs.Held.{dealt_held, dealer_held, gathered_all, WasAlone};
ghost use Rattle.page_gate.specs.Slots.{StaysOpen};

use crate::keeper::Keeper;
use crate::pass::Pass;
use crate::plane::Plane;
use spie_base::NoMemory;
use std::alloc::Global;

impl Plane {
    /// Deals so many passes, 1 to `MOST_PASSES`. Their lists are empty, and their floor is the page of the slot at
    /// which the keeper last pointed. Takes memory for the list alone; `NoMemory` where there is none, and then nothing
    /// is dealt. Costs a load for each.
    pub fn deal(
        &self,
        alloc: Global,
        keeper: &mut Keeper,
        passes: u32,
    ) -> Result<Vec<Pass>, NoMemory>
        requires plane { keeper.old.table ≡ self.now.table }
        requires none_out { keeper.old.view.duties.out ≡ 0 }
        requires least { 1 ≤ passes }
        requires most { passes ≤ MOST_PASSES }
        ensures passes { IfOk result (λ v. v.items ≡ replicate passes (dealt_held keeper.old)) }
        ensures keeper { OnOk result (keeper.new ≡ dealer_held keeper.old passes) }
        ensures unchanged { OnErr result (keeper.new ≡ keeper.old) }
    {
        let mut dealt = Vec::with_capacity(alloc, passes as usize)?;
        for _ in 0..passes {
            dealt.push_reserved(self.deal_one(keeper));
        }
        Ok(dealt)
    }

    /// Takes in all passes that are out, in their order. Then nobody is inside, and the bits of every page are exactly
    /// the marks of the keeper's entries of it. Takes no memory: entries are known to proofs alone. Costs a load for
    /// each.
    pub fn gather(&self, keeper: &mut Keeper, passes: Vec<Pass>)
        requires plane { keeper.old.table ≡ self.now.table }
        requires passes { All (λ p. p.table ≡ self.now.table) passes.items }
        requires all { vec_len passes ≡ keeper.old.view.duties.out }
        ensures gathered { keeper.new ≡ gathered_all keeper.old passes.items }
        ensures none_out { keeper.new.view.duties.out ≡ 0 }
        ensures entries { keeper.new.view.entries ≡ keeper.old.view.entries ++ flat_map (λ p. p.entries) passes.items }
        ensures slots { keeper.new.view.duties.slots ≡ keeper.old.view.duties.slots }
        ensures open { StaysOpen keeper.old.view.duties keeper.new.view.duties }
        ensures whole { IsWhole self.now.shape keeper.new.view }
        ensures alone { WasAlone self.now.shape keeper.new.view }
        ensures met { IsMet self.now.shape keeper.new.view }
    {
        self.gather_each(keeper, passes);
        self.attest(keeper);
    }

    fn gather_each(&self, keeper: &mut Keeper, passes: Vec<Pass>)
        requires plane { keeper.old.table ≡ self.now.table }
        requires passes { All (λ p. p.table ≡ self.now.table) passes.items }
        requires all { vec_len passes ≡ keeper.old.view.duties.out }
        ensures { keeper.new ≡ gathered_all keeper.old passes.items }
    {
        for pass in passes {
            self.gather_one(keeper, pass);
        }
    }
}
