// What several acts do: reading, refusing, and writing a word.
ghost use Rattle.std.specs.Prelude.{◌≡◌, ◌-◌, ◌<◌, ◌≤◌, length, slice_index, ◌↔◌, IsTrue, map};
ghost use Rattle.gate_core.specs.Writes.{Writes, seat_at, seat_in};
ghost use Rattle.gate_core.specs.declared.limits.TheConstants.{SLOTS};
ghost use Rattle.gate_core.specs.Desks.{slot_in, phased};
ghost use Rattle.spie_base.specs.Shapes.{IsShape};
ghost use Rattle.gate_core.specs.Views.{Slot};
ghost use Rattle.hash_family.specs.Positions.{family_of};
ghost use Rattle.gate_core.specs.Acts.{open_among};

use crate::core_data::{CoreData, Desk};
use crate::view::Slot;
use crate::{ActorState, NO_SLOT, PassState, SlotPhase, StepAnswer};
use hash_family::{Family, page_seed};
use spie_base::{PageNo, PageShape};

fn is_open(slot: &Slot) -> bool
    ensures { IsTrue result ↔ (slot.now.phase ≡ SlotPhase.Open) }
{
    matches!(slot.phase, SlotPhase::Open)
}

/// The slot that is open, or `NO_SLOT`. Costs a look at four phases.
pub fn open_slot(slots: &[Slot; 4]) -> u8
    ensures { result ≡ open_among slots.now 0 }
{
    for (s, slot) in slots.iter().enumerate() {
        if is_open(slot) {
            return s as u8;
        }
    }
    NO_SLOT
}

/// The hash functions of a page. Costs 8·k words of the generator.
pub fn family_of(shape: &PageShape, page: PageNo) -> Family
    requires { IsShape shape.now }
    ensures { result ≡ family_of shape.now page.number }
{
    Family::of(page_seed(shape.base, shape.router, page), shape.k, shape.n)
}

pub(crate) fn phases(slots: &[Slot; 4]) -> [SlotPhase; 4]
    ensures { result ≡ map (λ (x : Slot). x.phase) slots.now }
{
    [
        slots[0].phase,
        slots[1].phase,
        slots[2].phase,
        slots[3].phase,
    ]
}

impl CoreData {
    pub(crate) fn state_at(&self, place: usize) -> PassState
        requires { place < length self.now.seats.items }
        ensures { result ≡ (seat_at self.now place).state }
    {
        self.seats[place].state
    }

    pub(crate) fn word_at(&self, at: usize) -> u64
        requires { at < length self.now.words.items }
        ensures { result ≡ slice_index self.now.words.items at }
    {
        self.words[at]
    }

    // A step that changes nothing but the room.
    pub(crate) fn refuse(&mut self, state: PassState) -> StepAnswer
        requires room { 1 ≤ self.old.room }
        ensures kept { self.new ≡ record self.old { room = self.old.room - 1 } }
        ensures answer { result ≡ StepAnswer.NotEnabled (ActorState.Pass state) }
    {
        self.room -= 1;
        StepAnswer::NotEnabled(ActorState::Pass(state))
    }

    /// A step that changes nothing but the room.
    pub(crate) fn decline(&mut self) -> StepAnswer
        requires room { 1 ≤ self.old.room }
        ensures kept { self.new ≡ record self.old { room = self.old.room - 1 } }
        ensures answer { result
            ≡ StepAnswer.NotEnabled (ActorState.Keeper (map (λ (x : Slot). x.phase) self.old.desk.slots)) }
    {
        self.room -= 1;
        StepAnswer::NotEnabled(ActorState::Keeper(phases(&self.desk.slots)))
    }

    // The actor goes to a state, and no word is written: word 0 stays what it is.
    pub(crate) fn turn(&mut self, place: usize, state: PassState)
        requires seat { place < length self.old.seats.items }
        requires room { 1 ≤ self.old.room }
        ensures seat { Writes self.old self.new 0 (slice_index self.old.words.items 0) place
            (seat_in self.old place state) }
        ensures entries { self.new.entries ≡ self.old.entries }
        ensures visits { self.new.visits ≡ self.old.visits }
    {
        self.seats[place].state = state;
        self.room -= 1;
    }

    // A word is written, and the actor goes to a state.
    pub(crate) fn write(&mut self, at: usize, word: u64, place: usize, state: PassState)
        requires seat { place < length self.old.seats.items }
        requires word { at < length self.old.words.items }
        requires room { 1 ≤ self.old.room }
        ensures seat { Writes self.old self.new at word place (seat_in self.old place state) }
        ensures entries { self.new.entries ≡ self.old.entries }
        ensures visits { self.new.visits ≡ self.old.visits }
    {
        self.words[at] = word;
        self.seats[place].state = state;
        self.room -= 1;
    }
}

impl Desk {
    pub(crate) fn slot(&self, slot: u8) -> Slot
        requires { slot < SLOTS }
        ensures { result ≡ slot_in self.now slot }
    {
        self.slots[usize::from(slot)]
    }

    pub(crate) fn set_phase(&mut self, slot: u8, phase: SlotPhase)
        requires { slot < SLOTS }
        ensures { self.new ≡ phased self.old slot phase }
    {
        self.slots[usize::from(slot)].phase = phase;
    }
}
