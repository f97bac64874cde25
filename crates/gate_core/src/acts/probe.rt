// `probe`: loads the bit word of a position.
ghost use Rattle.std.specs.Prelude.{◌≡◌, ◌+◌, ◌<◌, ◌≤◌, [], ◌∷◌, length, vec_len, vec_capacity, ◌↔◌, IsTrue, ◌/◌, ◌==◌, ◌++◌};
ghost use Rattle.gate_core.specs.Kept.{Holds, DoesAct};
ghost use Rattle.gate_core.specs.declared.limits.TheConstants.{SLOTS};
ghost use Rattle.gate_core.specs.Acts.{CanProbe, bit_place};
ghost use Rattle.gate_core.specs.Marks.{size};
ghost use Rattle.gate_core.specs.declared.steps.Act.TheVariants.{Probe};
ghost use Rattle.gate_core.specs.Desks.{moved_on, bit_in_slot, probed};
ghost use Rattle.spie_base.specs.Shapes.{IsShape};

use crate::core_data::CoreData;
use crate::gate_word::{bits_at, is_set};
use crate::view::Probed;
use crate::{SlotPhase, StepAnswer};

// Whether none of the slot's words is collected, and it has a page.
fn can_probe(phase: SlotPhase) -> bool
    ensures { IsTrue result ↔ CanProbe phase }
{
    match phase {
        SlotPhase::Free => false,
        SlotPhase::Open | SlotPhase::Sealed => true,
        SlotPhase::Quiet { next } => next == 0,
    }
}

impl CoreData {
    /// Loads the word of a slot's bit at a position.
    pub(crate) fn probe(&mut self, slot: u8, at: u32) -> StepAnswer
        requires holds { Holds self.old }
        requires near { slot < SLOTS }
        requires within { at < size self.old.shape }
        requires room { 1 ≤ self.old.room }
        ensures { DoesAct self.old self.new 0 (Probe slot at) result }
    {
        if can_probe(self.desk.slot(slot).phase) {
            self.probe_bit(slot, at)
        } else {
            self.decline()
        }
    }

    /// Reads a bit of a slot.
    pub(crate) fn probe_bit(&mut self, slot: u8, at: u32) -> StepAnswer
        requires near { slot < SLOTS }
        requires shape { IsShape self.old.shape }
        requires words { bit_place self.old.shape slot (at / 64) < length self.old.words.items }
        requires probes { vec_len self.old.desk.probes < vec_capacity self.old.desk.probes }
        requires room { 1 ≤ self.old.room }
        ensures answer { result ≡ StepAnswer.Bit (bit_in_slot self.old slot at == 1) }
        ensures noted { self.new.desk.probes.items ≡ self.old.desk.probes.items ++ probed self.old slot at ∷ [] }
        ensures probe_room { vec_capacity self.new.desk.probes ≡ vec_capacity self.old.desk.probes }
        ensures others { self.new
            ≡ moved_on self.old self.old.words (record self.old.desk { probes = self.new.desk.probes }) }
    {
        let word = self.words[bits_at(&self.shape, slot, at / 64)];
        let bit = is_set(word, at);
        let page = self.desk.slot(slot).page;
        self.desk.probes.push_reserved(Probed {
            page,
            at,
            bit,
            known: self.entries.own,
        });
        self.room -= 1;
        StepAnswer::Bit(bit)
    }
}
