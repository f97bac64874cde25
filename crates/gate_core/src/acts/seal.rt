// `seal`: seals the gate of the open slot.
ghost use Rattle.std.specs.Prelude.{◌≡◌, ◌<◌, ◌≤◌, length, bit_or, slice_set};
ghost use Rattle.gate_core.specs.Acts.{gate_place, numbered, page_of};
ghost use Rattle.gate_core.specs.Kept.{Holds, DoesAct};
ghost use Rattle.gate_core.specs.declared.limits.TheConstants.{SLOTS};
ghost use Rattle.gate_core.specs.declared.steps.Act.TheVariants.{Seal};
ghost use Rattle.gate_core.specs.Desks.{phased, moved_on, gate_in};

use crate::acts::parts::open_slot;
use crate::core_data::CoreData;
use crate::gate_word::{gate_at, page, sealed};
use crate::{NO_SLOT, SlotPhase, StepAnswer};

impl CoreData {
    /// Seals the gate of the open slot.
    pub(crate) fn seal(&mut self) -> StepAnswer
        requires holds { Holds self.old }
        requires room { 1 ≤ self.old.room }
        ensures { DoesAct self.old self.new 0 Seal result }
    {
        let slot = open_slot(&self.desk.slots);
        if slot < NO_SLOT {
            self.seal_slot(slot)
        } else {
            self.decline()
        }
    }

    /// Seals the gate of the open slot.
    pub(crate) fn seal_slot(&mut self, slot: u8) -> StepAnswer
        requires near { slot < SLOTS }
        requires words { 5 ≤ length self.old.words.items }
        requires room { 1 ≤ self.old.room }
        ensures answer { result ≡ StepAnswer.Sealed (numbered (page_of (gate_in self.old slot))) }
        ensures words { self.new.words.items
            ≡ slice_set self.old.words.items (gate_place slot) (bit_or (gate_in self.old slot) 65536) }
        ensures others { self.new ≡ moved_on self.old self.new.words (phased self.old.desk slot SlotPhase.Sealed) }
    {
        let at = gate_at(slot);
        let gate = self.words[at];
        self.words[at] = sealed(gate);
        self.desk.set_phase(slot, SlotPhase::Sealed);
        self.room -= 1;
        StepAnswer::Sealed(page(gate))
    }
}
