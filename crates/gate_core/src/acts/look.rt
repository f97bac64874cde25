// `look`: loads the current slot.
ghost use Rattle.std.specs.Prelude.{◌<◌, ◌≤◌, length};
ghost use Rattle.gate_core.specs.Kept.{Holds, DoesAct};
ghost use Rattle.gate_core.specs.declared.steps.Act.TheVariants.{Look};

use crate::core_data::CoreData;
use crate::{PassState, StepAnswer};

impl CoreData {
    // Loads the current slot.
    pub(crate) fn look(&mut self, place: usize) -> StepAnswer
        requires holds { Holds self.old }
        requires seat { place < length self.old.seats.items }
        requires room { 1 ≤ self.old.room }
        ensures { DoesAct self.old self.new place Look result }
    {
        let state = self.state_at(place);
        match state {
            PassState::Idle | PassState::Looked { .. } => {
                let slot = self.word_at(0) as u8;
                self.turn(place, PassState::Looked { slot });
                StepAnswer::Slot(slot)
            }
            _ => self.refuse(state),
        }
    }
}
