// `settle`: loads the gate of a sealed slot, to learn whether nobody is inside.
ghost use Rattle.std.specs.Prelude.{◌≡◌, ◌+◌, ◌<◌, ◌≤◌, length, ◌==◌, if◌then◌else◌};
ghost use Rattle.gate_core.specs.Kept.{Holds, DoesAct};
ghost use Rattle.gate_core.specs.declared.limits.TheConstants.{SLOTS, MOST_PASSES};
ghost use Rattle.gate_core.specs.declared.steps.Act.TheVariants.{Settle};
ghost use Rattle.gate_core.specs.Acts.{inside_of, busy};
ghost use Rattle.gate_core.specs.Desks.{settled, counted_out, moved_on, gate_in};

use crate::core_data::{CoreData, Desk, Seat};
use crate::gate_word::{gate_at, inside};
use crate::{PassState, SlotPhase, StepAnswer};

// Whether the actor is in the middle of a record, as a number.
fn busy(state: PassState) -> u32
    ensures { result ≡ busy state }
{
    match state {
        PassState::Idle => 0,
        _ => 1,
    }
}

fn counted_out(seats: &[Seat]) -> u32
    requires some { 1 ≤ length seats.now }
    requires few { length seats.now ≤ MOST_PASSES + 1 }
    ensures { result ≡ counted_out seats.now }
{
    (seats.len() - 1) as u32 + busy(seats[0].state)
}

impl CoreData {
    /// Loads the gate of a sealed slot, to learn whether nobody is inside.
    pub(crate) fn settle(&mut self, slot: u8) -> StepAnswer
        requires holds { Holds self.old }
        requires near { slot < SLOTS }
        requires room { 1 ≤ self.old.room }
        ensures { DoesAct self.old self.new 0 (Settle slot) result }
    {
        match self.desk.slot(slot).phase {
            SlotPhase::Sealed => self.settle_slot(slot),
            _ => self.decline(),
        }
    }

    /// Reads the gate of a sealed slot.
    pub(crate) fn settle_slot(&mut self, slot: u8) -> StepAnswer
        requires near { slot < SLOTS }
        requires words { 5 ≤ length self.old.words.items }
        requires some_seat { 1 ≤ length self.old.seats.items }
        requires few_seats { length self.old.seats.items ≤ MOST_PASSES + 1 }
        requires room { 1 ≤ self.old.room }
        ensures answer { let n = inside_of (gate_in self.old slot) in
            result ≡ (if n == 0 then StepAnswer.Quiet else StepAnswer.Pending n) }
        ensures others { self.new
            ≡ moved_on self.old self.old.words (settled self.old.desk slot (gate_in self.old slot) (counted_out self.old.seats.items)) }
    {
        let gate = self.words[gate_at(slot)];
        self.desk.settle(slot, gate, counted_out(&self.seats));
        self.room -= 1;
        match inside(gate) {
            0 => StepAnswer::Quiet,
            inside => StepAnswer::Pending { inside },
        }
    }
}

impl Desk {
    /// Notes a slot's gate, and with how many out it was read. With nobody inside the slot is quiet.
    pub(crate) fn settle(&mut self, slot: u8, gate: u64, out: u32)
        requires { slot < SLOTS }
        ensures { self.new ≡ settled self.old slot gate out }
    {
        self.noted = gate;
        self.noted_with = out;
        if inside(gate) == 0 {
            self.set_phase(slot, SlotPhase::Quiet { next: 0 });
        }
    }
}
