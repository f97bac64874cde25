// `leave`: takes one from the gate.
ghost use Rattle.std.specs.Prelude.{◌≡◌, ◌+◌, ◌-◌, ◌%◌, ◌^◌, ◌<◌, ◌≤◌, [], ◌∷◌, length, slice_index};
ghost use Rattle.gate_core.specs.Acts.{gate_place};
ghost use Rattle.gate_core.specs.Kept.{Holds, DoesAct, HasLogRoom};
ghost use Rattle.gate_core.specs.Writes.{Grows, Writes, seat_in};
ghost use Rattle.gate_core.specs.declared.steps.Act.TheVariants.{Leave};

use crate::core_data::CoreData;
use crate::gate_word::gate_at;
use crate::{PassState, StepAnswer};
use spie_base::Entry;

impl CoreData {
    // Takes one from the gate. The record is finished, or the visit over.
    pub(crate) fn leave(&mut self, place: usize) -> StepAnswer
        requires holds { Holds self.old }
        requires seat { place < length self.old.seats.items }
        requires room { 1 ≤ self.old.room }
        ensures { DoesAct self.old self.new place Leave result }
    {
        let state = self.state_at(place);
        match state {
            PassState::Inside {
                slot,
                page,
                sig,
                set,
            } => {
                if set == self.shape.k {
                    self.finish(place, slot, Entry { page, sig })
                } else {
                    self.refuse(state)
                }
            }
            PassState::Visiting { slot, .. } => self.go_out(place, slot),
            _ => self.refuse(state),
        }
    }

    // The record has all its marks: it leaves the gate, and is noted.
    fn finish(&mut self, place: usize, slot: u8, entry: Entry) -> StepAnswer
        requires seat { place < length self.old.seats.items }
        requires few { place < 256 }
        requires word { gate_place slot < length self.old.words.items }
        requires entries { HasLogRoom self.old.entries self.old.room }
        requires room { 1 ≤ self.old.room }
        ensures seat { let gate = slice_index self.old.words.items (gate_place slot) in
            Writes self.old self.new (gate_place slot) ((gate + (2 ^ 64 - 1)) % 2 ^ 64) place (seat_in self.old place PassState.Idle) }
        ensures entries { Grows self.old.entries self.new.entries place (entry ∷ []) }
        ensures visits { self.new.visits ≡ self.old.visits }
        ensures left { result ≡ StepAnswer.Left }
    {
        let answer = self.go_out(place, slot);
        self.entries.note(entry, place as u8);
        answer
    }

    // One less is inside the gate, and the actor is idle.
    fn go_out(&mut self, place: usize, slot: u8) -> StepAnswer
        requires seat { place < length self.old.seats.items }
        requires word { gate_place slot < length self.old.words.items }
        requires room { 1 ≤ self.old.room }
        ensures seat { let gate = slice_index self.old.words.items (gate_place slot) in
            Writes self.old self.new (gate_place slot) ((gate + (2 ^ 64 - 1)) % 2 ^ 64) place (seat_in self.old place PassState.Idle) }
        ensures entries { self.new.entries ≡ self.old.entries }
        ensures visits { self.new.visits ≡ self.old.visits }
        ensures left { result ≡ StepAnswer.Left }
    {
        let at = gate_at(slot);
        let word = self.word_at(at).wrapping_sub(1);
        self.write(at, word, place, PassState::Idle);
        StepAnswer::Left
    }
}
