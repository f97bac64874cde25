// `drain`: takes the next word of a quiet slot, and leaves 0 there.
ghost use Rattle.std.specs.Prelude.{◌≡◌, ℕ, ◌+◌, ◌^◌, ◌<◌, ◌≤◌, length, slice_get, vec_len, vec_capacity, ◌==◌, if◌then◌else◌, slice_set, Some, Vec};
ghost use Rattle.gate_core.specs.Acts.{numbered, bit_place};
ghost use Rattle.gate_core.specs.Kept.{Holds, DoesAct};
ghost use Rattle.gate_core.specs.declared.limits.TheConstants.{SLOTS};
ghost use Rattle.gate_core.specs.declared.steps.Act.TheVariants.{Drain};
ghost use Rattle.std.specs.declared.alloc.Global.{Global};
ghost use Rattle.gate_core.specs.Desks.{slot_in, phased, after_word, moved_on, word_in, AddsWord};
ghost use Rattle.gate_core.specs.Marks.{width};
ghost use Rattle.spie_base.specs.Shapes.{IsShape};

use crate::core_data::{CoreData, Desk};
use crate::gate_word::{bits_at, width};
use crate::{SlotPhase, StepAnswer};
use spie_base::PageNo;

// What the keeper is told when it took word `next`.
fn drained(next: u32, wide: u32, page: u32) -> StepAnswer
    requires { next + 1 < 2 ^ 32 }
    ensures { result ≡ (if next + 1 == wide then StepAnswer.Collected (numbered page) else StepAnswer.Drained) }
{
    if next + 1 == wide {
        StepAnswer::Collected(PageNo { number: page })
    } else {
        StepAnswer::Drained
    }
}

/// The phase of a slot whose word `next` was taken.
pub(crate) fn after_word(next: u32, wide: u32) -> SlotPhase
    requires { next + 1 < 2 ^ 32 }
    ensures { result ≡ after_word next wide }
{
    if next + 1 == wide {
        SlotPhase::Free
    } else {
        SlotPhase::Quiet { next: next + 1 }
    }
}

// Adds a word to a page's.
fn add_word(lists: &mut Vec<Vec<u64>>, page: u32, word: u64)
    requires within { page < length lists.old.items }
    requires room { (v : Vec ℕ Global)
        → slice_get lists.old.items page ≡ Some v → vec_len v < vec_capacity v }
    ensures { AddsWord lists.old lists.new page word }
{
    lists[page as usize].push_reserved(word);
}

impl CoreData {
    /// Takes the next word of a quiet slot, and leaves 0 there.
    pub(crate) fn drain(&mut self, slot: u8) -> StepAnswer
        requires holds { Holds self.old }
        requires near { slot < SLOTS }
        requires room { 1 ≤ self.old.room }
        ensures { DoesAct self.old self.new 0 (Drain slot) result }
    {
        match self.desk.slot(slot).phase {
            SlotPhase::Quiet { next } => self.drain_slot(slot, next),
            _ => self.decline(),
        }
    }

    /// Takes a word of a quiet slot.
    pub(crate) fn drain_slot(&mut self, slot: u8, next: u32) -> StepAnswer
        requires near { slot < SLOTS }
        requires shape { IsShape self.old.shape }
        requires words { bit_place self.old.shape slot next < length self.old.words.items }
        requires next { next + 1 < 2 ^ 32 }
        requires page { (slot_in self.old.desk slot).page < length self.old.desk.collected.items }
        requires page_room { (v : Vec ℕ Global)
            → slice_get self.old.desk.collected.items (slot_in self.old.desk slot).page ≡ Some v → vec_len v < vec_capacity v }
        requires room { 1 ≤ self.old.room }
        ensures answer { result
            ≡ (if next + 1 == width self.old.shape then StepAnswer.Collected (numbered (slot_in self.old.desk slot).page) else StepAnswer.Drained) }
        ensures words { self.new.words.items ≡ slice_set self.old.words.items (bit_place self.old.shape slot next) 0 }
        ensures added { AddsWord self.old.desk.collected self.new.desk.collected
            (slot_in self.old.desk slot).page (word_in self.old slot next) }
        ensures others { self.new ≡ moved_on self.old self.new.words
            (record (phased self.old.desk slot (after_word next (width self.old.shape))) { collected = self.new.desk.collected }) }
    {
        let at = bits_at(&self.shape, slot, next);
        let word = self.words[at];
        self.words[at] = 0;
        let page = self.desk.slot(slot).page;
        self.desk.collect(page, word);
        let wide = width(&self.shape);
        self.desk.set_phase(slot, after_word(next, wide));
        self.room -= 1;
        drained(next, wide, page)
    }
}

impl Desk {
    /// Adds a word to those of a page.
    pub(crate) fn collect(&mut self, page: u32, word: u64)
        requires within { page < length self.old.collected.items }
        requires room { (v : Vec ℕ Global)
            → slice_get self.old.collected.items page ≡ Some v → vec_len v < vec_capacity v }
        ensures added { AddsWord self.old.collected self.new.collected page word }
        ensures others { self.new ≡ record self.old { collected = self.new.collected } }
    {
        add_word(&mut self.collected, page, word);
    }
}
