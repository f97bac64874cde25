// `enter`: adds one to the gate of the slot that was looked up.
ghost use Rattle.std.specs.Prelude.{◌≡◌, ◌+◌, ◌%◌, ◌^◌, ◌<◌, ◌≤◌, [], ◌∷◌, length, slice_get, Some};
ghost use Rattle.hash_family.specs.Positions.{Drawn, placed_by};
ghost use Rattle.gate_core.specs.Acts.{gate_place, numbered, page_of};
ghost use Rattle.gate_core.specs.Kept.{Holds, DoesAct, HasLogRoom};
ghost use Rattle.gate_core.specs.Writes.{Grows, Writes, seat_in};
ghost use Rattle.gate_core.specs.declared.steps.Act.TheVariants.{Enter};
ghost use Rattle.gate_core.specs.declared.limits.TheConstants.{SLOTS};

use crate::core_data::{CoreData, Seat};
use crate::gate_word::{gate_at, is_sealed, page};
use crate::view::Visit;
use crate::{PassState, StepAnswer};
use spie_base::Sig;

impl CoreData {
    // Adds one to the gate of the slot that was looked up, and is inside unless it is sealed.
    pub(crate) fn enter(&mut self, place: usize, sig: &Sig) -> StepAnswer
        requires holds { Holds self.old }
        requires seat { place < length self.old.seats.items }
        requires room { 1 ≤ self.old.room }
        ensures { DoesAct self.old self.new place (Enter sig.now) result }
    {
        let state = self.state_at(place);
        let PassState::Looked { slot } = state else {
            return self.refuse(state);
        };
        let gate = self.word_at(gate_at(slot));
        if is_sealed(gate) {
            self.visit(place, slot, gate);
            StepAnswer::Visiting { gate }
        } else {
            self.go_inside(place, slot, gate, sig);
            StepAnswer::Entered(page(gate))
        }
    }

    // The gate was not sealed: the actor is inside, and has the marks of its signature.
    fn go_inside(&mut self, place: usize, slot: u8, gate: u64, sig: &Sig)
        requires seat { place < length self.old.seats.items }
        requires slot { slot < SLOTS }
        requires word { gate_place slot < length self.old.words.items }
        requires room { 1 ≤ self.old.room }
        ensures seat { (family : Drawn) → slice_get self.old.desk.families slot ≡ Some family
            → Writes self.old self.new (gate_place slot) ((gate + 1) % 2 ^ 64) place
            record { state = PassState.Inside slot (numbered (page_of gate)) sig.now 0; marks = placed_by family sig.now } }
        ensures entries { self.new.entries ≡ self.old.entries }
        ensures visits { self.new.visits ≡ self.old.visits }
    {
        let marks = self.desk.families[usize::from(slot)].positions(sig);
        let state = PassState::Inside {
            slot,
            page: page(gate),
            sig: *sig,
            set: 0,
        };
        self.words[gate_at(slot)] = gate.wrapping_add(1);
        self.seats[place] = Seat { state, marks };
        self.room -= 1;
    }

    // The gate was sealed: the actor is on a visit, and the visit is noted.
    fn visit(&mut self, place: usize, slot: u8, gate: u64)
        requires seat { place < length self.old.seats.items }
        requires few { place < 256 }
        requires word { gate_place slot < length self.old.words.items }
        requires visits { HasLogRoom self.old.visits self.old.room }
        requires room { 1 ≤ self.old.room }
        ensures seat { Writes self.old self.new (gate_place slot) ((gate + 1) % 2 ^ 64) place
            (seat_in self.old place (PassState.Visiting slot gate)) }
        ensures entries { self.new.entries ≡ self.old.entries }
        ensures visits { Grows self.old.visits self.new.visits place (record { slot = slot; gate = gate } ∷ []) }
    {
        let state = PassState::Visiting { slot, gate };
        self.write(gate_at(slot), gate.wrapping_add(1), place, state);
        self.visits.note(Visit { slot, gate }, place as u8);
    }
}
