// `set`: sets the bit of the record's next mark.
ghost use Rattle.std.specs.Prelude.{◌<◌, ◌≤◌, length};
ghost use Rattle.gate_core.specs.Kept.{Holds, DoesAct};
ghost use Rattle.gate_core.specs.declared.steps.Act.TheVariants.{Set};

use crate::core_data::CoreData;
use crate::gate_word::{bit_of, bits_at};
use crate::{PassState, StepAnswer};

impl CoreData {
    // Sets the bit of the record's next mark.
    pub(crate) fn set(&mut self, place: usize) -> StepAnswer
        requires holds { Holds self.old }
        requires seat { place < length self.old.seats.items }
        requires room { 1 ≤ self.old.room }
        ensures { DoesAct self.old self.new place Set result }
    {
        let state = self.state_at(place);
        let PassState::Inside {
            slot,
            page,
            sig,
            set,
        } = state
        else {
            return self.refuse(state);
        };
        if set >= self.shape.k {
            return self.refuse(state);
        }
        let mark = self.seats[place].marks.at[usize::from(set)];
        let at = bits_at(&self.shape, slot, mark / 64);
        let word = self.word_at(at) | bit_of(mark);
        let next = PassState::Inside {
            slot,
            page,
            sig,
            set: set + 1,
        };
        self.write(at, word, place, next);
        StepAnswer::Set
    }
}
