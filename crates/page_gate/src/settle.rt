// The keeper looks whether a closed page is quiet.
ghost use Rattle.std.specs.Prelude.{◌≡◌, ◌<◌};
ghost use Rattle.gate_core.specs.declared.limits.TheConstants.{SLOTS};
ghost use Rattle.gate_core.specs.declared.states.SlotPhase.TheVariants.{Sealed};
ghost use Rattle.gate_core.specs.declared.steps.Act.TheVariants.{Settle};
ghost use Rattle.gate_core.specs.Acts.{IsQuiet};
ghost use Rattle.page_gate.specs.Pages.{slot_with, phase_with};
ghost use Rattle.page_gate.specs.Settled.{SettledNow};
ghost use Rattle.page_gate.specs.Slots.{IsWaiting, StaysOpen};
ghost use Rattle.page_gate.specs.Steps.{Ready, Acted, IsMet};

use crate::keeper::Keeper;
use crate::plane::Plane;
use crate::slots::slot_with;
use crate::told::{Does, Told};
use crate::words::Words;
use atomic_table::Seat;
use gate_core::SlotPhase;
use gate_core::gate_word::{gate_at, inside};
use gate_core::view::View;
use spie_base::PageNo;
use std::marker::Brand;

/// What a settle answers.
#[derive(Clone, Copy, PartialEq, Eq, Debug)]
pub enum Settled {
    /// No record is inside the page, and none can be any more. Visitors may come and go.
    Quiet,
    /// The gate counted so many, visitors too: 1 to as many as passes are out.
    Pending { inside: u16 },
}

impl Words {
    fn settle_as<W: Told>(&self, seat: &mut Seat<(), View>, slot: u8) -> u64
        requires told { (W.shape ≡ self.now.table.shared.key) × (W.act ≡ Settle slot) }
        requires seat { (seat.old.table_id ≡ self.now.table.shared.table_id) × Ready W.shape W.act seat.old }
        requires slot { slot < SLOTS }
        ensures { Acted W.shape W.act seat.old seat.new result }
    {
        self.table.shared.load::<Does<W>>(seat, gate_at(slot))
    }

    fn settle(&self, seat: &mut Seat<(), View>, slot: u8) -> u64
        requires table { seat.old.table_id ≡ self.now.table.shared.table_id }
        requires seat { Ready self.now.shape (Settle slot) seat.old }
        requires slot { slot < SLOTS }
        ensures { Acted self.now.shape (Settle slot) seat.old seat.new result }
    {
        self.settle_as::<Brand>(seat, slot)
    }
}

impl Plane {
    // Reads the gate of a page that no settle has found quiet.
    fn settle_sealed(&self, keeper: &mut Keeper, page: PageNo, slot: u8) -> Settled
        requires plane { keeper.old.table ≡ self.now.table }
        requires slot { slot ≡ slot_with keeper.old.view.duties page.number }
        requires phase { phase_with keeper.old.view.duties page.number ≡ Sealed }
        ensures settled { SettledNow keeper.old keeper.new page.number result }
        ensures open { StaysOpen keeper.old.view.duties keeper.new.view.duties }
        ensures met { IsMet self.now.shape keeper.new.view }
    {
        let _page = page;
        let gate = self.words.settle(&mut keeper.seat, slot);
        let inside = inside(gate);
        if inside == 0 {
            keeper.slots[usize::from(slot)].phase = SlotPhase::Quiet { next: 0 };
            Settled::Quiet
        } else {
            Settled::Pending { inside }
        }
    }

    /// Looks whether a closed page is quiet, and waits for nobody. A page that was quiet once stays so, and is not
    /// looked at again. With no pass out it is always quiet. Takes no memory. Costs one load, and none where the page
    /// was quiet before.
    pub fn settle(&self, keeper: &mut Keeper, page: PageNo) -> Settled
        requires plane { keeper.old.table ≡ self.now.table }
        requires waiting { IsWaiting keeper.old.view.duties page.number }
        ensures before { IsQuiet (phase_with keeper.old.view.duties page.number)
            → (result ≡ Settled.Quiet) × (keeper.new ≡ keeper.old) }
        ensures now { (phase_with keeper.old.view.duties page.number ≡ Sealed)
            → SettledNow keeper.old keeper.new page.number result × IsMet self.now.shape keeper.new.view }
        ensures quiet { (result ≡ Settled.Quiet) → IsQuiet (phase_with keeper.new.view.duties page.number) }
        ensures alone { (keeper.old.view.duties.out ≡ 0) → result ≡ Settled.Quiet }
        ensures open { StaysOpen keeper.old.view.duties keeper.new.view.duties }
    {
        let slot = slot_with(&keeper.slots, page.number);
        match keeper.slots[usize::from(slot)].phase {
            SlotPhase::Sealed => self.settle_sealed(keeper, page, slot),
            _ => Settled::Quiet,
        }
    }
}
