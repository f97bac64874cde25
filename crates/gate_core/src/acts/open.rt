// `open`: opens the next page in a free slot.
ghost use Rattle.std.specs.Prelude.{◌≡◌, ◌+◌, ◌^◌, ◌<◌, ◌≤◌, length, vec_len, vec_capacity, ◌↔◌, IsTrue, slice_set};
ghost use Rattle.gate_core.specs.Acts.{gate_place, numbered, reopened, open_among};
ghost use Rattle.gate_core.specs.Kept.{Holds, DoesAct};
ghost use Rattle.gate_core.specs.declared.limits.TheConstants.{SLOTS, NO_SLOT};
ghost use Rattle.gate_core.specs.Desks.{slot_in, moved_on, gate_in, OpensPage, AddsList};
ghost use Rattle.spie_base.specs.Shapes.{IsShape};
ghost use Rattle.hash_family.specs.Positions.{family_of};
ghost use Rattle.gate_core.specs.declared.steps.Act.TheVariants as act;

use crate::acts::parts::{family_of, open_slot};
use crate::core_data::{CoreData, Desk};
use crate::gate_word::{gate_at, reopened};
use crate::view::Slot;
use crate::{NO_SLOT, SlotPhase, StepAnswer};
use hash_family::Family;
use spie_base::PageNo;

// A spare list becomes the last page's.
fn add_list(spare: &mut Vec<Vec<u64>>, lists: &mut Vec<Vec<u64>>)
    requires spare { 0 < vec_len spare.old }
    requires room { vec_len lists.old < vec_capacity lists.old }
    ensures { AddsList spare.old lists.old spare.new lists.new }
{
    lists.push_reserved(spare.take_last());
}

impl CoreData {
    /// Opens the next page in a free slot.
    pub(crate) fn open(&mut self, slot: u8) -> StepAnswer
        requires holds { Holds self.old }
        requires near { slot < SLOTS }
        requires fits { self.old.desk.next + 1 < 2 ^ 32 }
        requires room { 1 ≤ self.old.room }
        ensures { DoesAct self.old self.new 0 (act.Open slot) result }
    {
        if self.desk.can_open(slot) {
            self.open_next(slot)
        } else {
            self.decline()
        }
    }

    /// Opens the next page in a free slot.
    pub(crate) fn open_next(&mut self, slot: u8) -> StepAnswer
        requires near { slot < SLOTS }
        requires shape { IsShape self.old.shape }
        requires words { 5 ≤ length self.old.words.items }
        requires next { self.old.desk.next + 1 < 2 ^ 32 }
        requires spare { 0 < vec_len self.old.desk.spare }
        requires pages { vec_len self.old.desk.collected < vec_capacity self.old.desk.collected }
        requires room { 1 ≤ self.old.room }
        ensures answer { result ≡ StepAnswer.Opened (numbered self.old.desk.next) }
        ensures words { self.new.words.items ≡ slice_set self.old.words.items (gate_place slot)
            (reopened (gate_in self.old slot) (slot_in self.old.desk slot).page self.old.desk.next) }
        ensures opened { OpensPage self.old.desk self.new.desk slot (family_of self.old.shape self.old.desk.next) }
        ensures others { self.new ≡ moved_on self.old self.new.words self.new.desk }
    {
        let at = gate_at(slot);
        let next = PageNo {
            number: self.desk.next,
        };
        self.words[at] = reopened(self.words[at], self.desk.slot(slot).page, next.number);
        self.desk.open_page(slot, family_of(&self.shape, next));
        self.room -= 1;
        StepAnswer::Opened(next)
    }
}

impl Desk {
    /// Whether the slot is free, and none is open.
    pub(crate) fn can_open(&self, slot: u8) -> bool
        requires { slot < SLOTS }
        ensures { IsTrue result
            ↔ (((slot_in self.now slot).phase ≡ SlotPhase.Free) × (open_among self.now.slots 0 ≡ NO_SLOT)) }
    {
        matches!(self.slot(slot).phase, SlotPhase::Free) && open_slot(&self.slots) == NO_SLOT
    }

    /// Opens the next page in a slot.
    pub(crate) fn open_page(&mut self, slot: u8, family: Family)
        requires near { slot < SLOTS }
        requires next { self.old.next + 1 < 2 ^ 32 }
        requires spare { 0 < vec_len self.old.spare }
        requires room { vec_len self.old.collected < vec_capacity self.old.collected }
        ensures { OpensPage self.old self.new slot family }
    {
        self.slots[usize::from(slot)] = Slot {
            phase: SlotPhase::Open,
            page: self.next,
            used: true,
        };
        self.families[usize::from(slot)] = family;
        self.next += 1;
        add_list(&mut self.spare, &mut self.collected);
    }
}
