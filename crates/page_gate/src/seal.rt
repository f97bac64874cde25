// The keeper seals the open page.
ghost use Rattle.std.specs.Prelude.{◌≡◌, ◌<◌};
ghost use Rattle.gate_core.specs.declared.limits.TheConstants.{SLOTS};
ghost use Rattle.gate_core.specs.declared.steps.Act.TheVariants.{Seal};
ghost use Rattle.gate_core.specs.Acts.{open_slot};
ghost use Rattle.page_gate.specs.Held.{sealed_held};
ghost use Rattle.page_gate.specs.Slots.{HasOpen, open_page};
ghost use Rattle.page_gate.specs.Steps.{Ready, Acted};

use crate::keeper::Keeper;
use crate::plane::Plane;
use crate::told::{Does, Told};
use crate::words::Words;
use atomic_table::Seat;
use gate_core::gate_word::{SEAL, gate_at};
use gate_core::view::View;
use gate_core::{SlotPhase, open_slot};
use spie_base::PageNo;
use std::marker::Brand;

impl Words {
    fn seal_as<W: Told>(&self, seat: &mut Seat<(), View>, slot: u8) -> u64
        requires told { (W.shape ≡ self.now.table.shared.key) × (W.act ≡ Seal) }
        requires seat { (seat.old.table_id ≡ self.now.table.shared.table_id) × Ready W.shape W.act seat.old }
        requires slot { (slot < SLOTS) × (slot ≡ open_slot seat.old.me.0.duties) }
        ensures { Acted W.shape W.act seat.old seat.new result }
    {
        self.table
            .shared
            .fetch_or::<Does<W>>(seat, gate_at(slot), SEAL)
    }

    pub(crate) fn seal(&self, seat: &mut Seat<(), View>, slot: u8)
        requires table { seat.old.table_id ≡ self.now.table.shared.table_id }
        requires seat { Ready self.now.shape Seal seat.old }
        requires slot { (slot < SLOTS) × (slot ≡ open_slot seat.old.me.0.duties) }
        ensures { Acted self.now.shape Seal seat.old seat.new 0 }
    {
        self.seal_as::<Brand>(seat, slot);
    }
}

impl Plane {
    /// Seals the open page, and gives it. Records that are inside it finish there; no other enters it from now on.
    /// Takes no memory. Costs one fetch-or.
    pub(crate) fn seal(&self, keeper: &mut Keeper) -> PageNo
        requires plane { keeper.old.table ≡ self.now.table }
        requires open { HasOpen keeper.old.view.duties }
        ensures page { result.number ≡ open_page keeper.old.view.duties }
        ensures sealed { keeper.new ≡ sealed_held keeper.old }
    {
        let slot = open_slot(&keeper.slots);
        let page = keeper.slots[usize::from(slot)].page;
        self.words.seal(&mut keeper.seat, slot);
        keeper.slots[usize::from(slot)].phase = SlotPhase::Sealed;
        PageNo { number: page }
    }
}
