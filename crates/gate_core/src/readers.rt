// What can be read of the machine.
ghost use Rattle.std.specs.Prelude.{◌≡◌, ◌≤◌, ◌<◌, ◌+◌, ◌*◌, ◌^◌, ◌↔◌, ℕ, IsSome, IfSome, position, length, slice_index};
ghost use Rattle.std.specs.Option.{ForSome};
ghost use Rattle.spie_base.specs.Shapes.{most_words};
ghost use Rattle.bloom_page.specs.Bits.{members_of};
ghost use Rattle.gate_core.specs.Marks.{width};
ghost use Rattle.gate_core.specs.Views.{slot_at, collected_of};
ghost use Rattle.gate_core.specs.Acts.{page_of, numbered, gate_place};
ghost use Rattle.gate_core.specs.Invariant.{IsCollected};
ghost use Rattle.gate_core.specs.Core.{duties_of};
ghost use Rattle.gate_core.specs.Kept.{core_of};
ghost use Rattle.gate_core.specs.Sound.{IsSound};
ghost use Rattle.gate_core.specs.PageWords.{stands_with, live_from, page_words, phase_with};
ghost use Rattle.gate_core.specs.declared.limits.TheConstants.{SLOTS};

use crate::SlotPhase;
use crate::core_data::CoreData;
use crate::gate_word::{FIRST_BITS, gate_at, page, width};
use crate::view::Slot;
use bloom_page::ones_in;
use spie_base::PageNo;

// The page stands in the slot.
fn stands_with(slot: &Slot, page: u32) -> bool
    ensures { result ≡ stands_with page slot.now }
{
    match slot.phase {
        SlotPhase::Free => false,
        _ => slot.page == page,
    }
}

impl CoreData {
    /// The page in the slot's gate.
    pub(crate) fn gate_page(&self, slot: u8) -> PageNo
        requires sound { IsSound self.now }
        requires near { slot < SLOTS }
        ensures gate { result
            ≡ numbered (page_of (slice_index self.now.words.items (gate_place slot))) }
        ensures last { result ≡ numbered (slot_at (duties_of (core_of self.now)) slot).page }
    {
        page(self.word_at(gate_at(slot)))
    }

    // The words of the page that are collected.
    fn taken_of(&self, page: PageNo) -> &[u64]
        requires { IsSound self.now }
        ensures words { result.now ≡ collected_of (duties_of (core_of self.now)) page.number }
        ensures most { length result.now ≤ width self.now.shape }
    {
        match self.desk.collected.get(page.number as usize) {
            Some(words) => words.as_slice(),
            None => &[],
        }
    }

    /// The words of the page, if all are collected.
    pub(crate) fn collected(&self, page: PageNo) -> Option<&[u64]>
        requires { IsSound self.now }
        ensures whole { IsSome result
            ↔ IsCollected self.now.shape (duties_of (core_of self.now)) page.number }
        ensures words { IfSome result
            (λ words. words.now ≡ collected_of (duties_of (core_of self.now)) page.number) }
    {
        let words = self.taken_of(page);
        if words.len() == width(&self.shape) as usize {
            Some(words)
        } else {
            None
        }
    }

    // The slot in which the page stands.
    fn slot_with(&self, page: PageNo) -> Option<usize>
        ensures { result ≡ position (stands_with page.number) self.now.desk.slots }
    {
        self.desk
            .slots
            .iter()
            .position(|slot| stands_with(slot, page.number))
    }

    /// The phase of the slot in which the page stands.
    pub(crate) fn phase_of(&self, page: PageNo) -> Option<SlotPhase>
        requires { IsSound self.now }
        ensures { result ≡ phase_with (core_of self.now) page.number }
    {
        match self.slot_with(page) {
            Some(slot) => Some(self.desk.slots[slot].phase),
            None => None,
        }
    }

    // The live words of a slot from one on.
    fn live_from(&self, slot: Option<usize>, from: usize) -> &[u64]
        requires sound { IsSound self.now }
        requires near { ForSome slot (λ s. s < SLOTS) }
        requires within { from ≤ width self.now.shape }
        ensures words { result.now ≡ live_from (core_of self.now) slot from }
        ensures few { length result.now ≤ most_words }
    {
        let Some(slot) = slot else {
            return &[];
        };
        let width = width(&self.shape) as usize;
        let first = FIRST_BITS + slot * width;
        &self.words[first + from..first + width]
    }

    /// How many positions of the page are set.
    pub(crate) fn bits_of(&self, page: PageNo) -> u32
        requires { IsSound self.now }
        ensures { result ≡ length (members_of (page_words (core_of self.now) page.number)) }
    {
        let taken = self.taken_of(page);
        let live = self.live_from(self.slot_with(page), taken.len());
        ones_in(taken) + ones_in(live)
    }
}
