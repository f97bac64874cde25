// `point`: makes the open slot the current one.
ghost use Rattle.std.specs.Prelude.{◌≡◌, ◌≤◌, length, slice_set};
ghost use Rattle.gate_core.specs.Kept.{Holds, DoesAct};
ghost use Rattle.gate_core.specs.declared.steps.Act.TheVariants.{Point};
ghost use Rattle.gate_core.specs.Desks.{moved_on};

use crate::acts::parts::open_slot;
use crate::core_data::CoreData;
use crate::{NO_SLOT, StepAnswer};

impl CoreData {
    /// Makes the open slot the current one.
    pub(crate) fn point(&mut self) -> StepAnswer
        requires holds { Holds self.old }
        requires room { 1 ≤ self.old.room }
        ensures { DoesAct self.old self.new 0 Point result }
    {
        let slot = open_slot(&self.desk.slots);
        if slot < NO_SLOT {
            self.point_at(slot)
        } else {
            self.decline()
        }
    }

    /// Makes a slot the current one.
    pub(crate) fn point_at(&mut self, slot: u8) -> StepAnswer
        requires words { 5 ≤ length self.old.words.items }
        requires room { 1 ≤ self.old.room }
        ensures answer { result ≡ StepAnswer.Pointed slot }
        ensures words { self.new.words.items ≡ slice_set self.old.words.items 0 slot }
        ensures others { self.new ≡ moved_on self.old self.new.words (record self.old.desk { pointed = slot }) }
    {
        self.words[0] = u64::from(slot);
        self.desk.pointed = slot;
        self.room -= 1;
        StepAnswer::Pointed(slot)
    }
}
