// The keeper takes the words of a quiet page, and frees its slot.
ghost use Rattle.std.specs.Prelude.{◌≡◌, ◌<◌, IfOk, OnOk, OnErr, vec_len};
ghost use Rattle.gate_core.specs.declared.limits.TheConstants.{SLOTS};
ghost use Rattle.gate_core.specs.declared.steps.Act.TheVariants.{Drain};
ghost use Rattle.gate_core.specs.declared.states.SlotPhase.TheVariants.{Free, Quiet};
ghost use Rattle.gate_core.specs.declared.view.Role.TheVariants.{Keeper as keeping};
ghost use Rattle.gate_core.specs.Acts.{IsQuiet, drained_to};
ghost use Rattle.gate_core.specs.Invariant.{IsCollected};
ghost use Rattle.gate_core.specs.Marks.{width};
ghost use Rattle.gate_core.specs.Views.{slot_at, collected_of};
ghost use Rattle.page_gate.specs.Pages.{slot_with, phase_with, collected_held, collected_page, AreAllMarks, IsUntaken};
ghost use Rattle.page_gate.specs.Probes.{marked_set};
ghost use Rattle.page_gate.specs.Slots.{StaysOpen};
ghost use Rattle.page_gate.specs.Steps.{Ready, Acted, IsMet, place_of};
ghost use Rattle.page_gate.specs.Tried.{StaysWith};

use crate::keeper::Keeper;
use crate::plane::Plane;
use crate::slots::slot_with;
use crate::told::{Does, Told};
use crate::words::Words;
use atomic_table::Seat;
use bloom_page::Page;
use gate_core::SlotPhase;
use gate_core::gate_word::{bits_at, width};
use gate_core::view::View;
use spie_base::{NoMemory, PageNo};
use std::alloc::Global;
use std::marker::Brand;

impl Words {
    fn drain_as<W: Told>(&self, seat: &mut Seat<(), View>, slot: u8, word: usize) -> u64
        requires told { (W.shape ≡ self.now.table.shared.key) × (W.act ≡ Drain slot) }
        requires seat { (seat.old.table_id ≡ self.now.table.shared.table_id) × Ready W.shape W.act seat.old }
        requires word { (word ≡ place_of W.shape W.act seat.old) × (word < self.now.table.shared.table_id.words) }
        ensures { Acted W.shape W.act seat.old seat.new result }
    {
        let _slot = slot;
        self.table.shared.swap::<Does<W>>(seat, word, 0)
    }

    // Takes word `next`, and leaves 0 there.
    fn drain(&self, seat: &mut Seat<(), View>, slot: u8, next: u32) -> u64
        requires table { seat.old.table_id ≡ self.now.table.shared.table_id }
        requires quiet { (slot < SLOTS) × (seat.old.me.0.role ≡ keeping)
            × ((slot_at seat.old.me.0.duties slot).phase ≡ Quiet next) × (next < width self.now.shape) }
        ensures { Acted self.now.shape (Drain slot) seat.old seat.new result }
    {
        self.drain_as::<Brand>(seat, slot, bits_at(&self.shape, slot, next))
    }

    // Takes each word of the slot, in order. Takes its memory first.
    fn drain_all(
        &self,
        alloc: Global,
        seat: &mut Seat<(), View>,
        slot: u8,
    ) -> Result<Vec<u64>, NoMemory>
        requires table { seat.old.table_id ≡ self.now.table.shared.table_id }
        requires quiet { IsUntaken seat.old.me.0 slot }
        ensures drained { IfOk result (λ words.
            StaysWith seat.old seat.new (drained_to seat.old.me.0 slot Free words.items)) }
        ensures many { IfOk result (λ words. vec_len words ≡ width self.now.shape) }
        ensures met { OnOk result (IsMet self.now.shape seat.new.me.0) }
        ensures unchanged { OnErr result (seat.new ≡ seat.old) }
    {
        let width = width(&self.shape);
        let mut words = Vec::with_capacity(alloc, width as usize)?;
        for next in 0..width {
            let word = self.drain(seat, slot, next);
            words.push_reserved(word);
        }
        Ok(words)
    }
}

impl Plane {
    // Of the slot in which the page stands.
    fn collect_slot(
        &self,
        alloc: Global,
        keeper: &mut Keeper,
        page: PageNo,
        slot: u8,
    ) -> Result<Vec<u64>, NoMemory>
        requires plane { keeper.old.table ≡ self.now.table }
        requires quiet { IsQuiet (phase_with keeper.old.view.duties page.number) }
        requires slot { slot ≡ slot_with keeper.old.view.duties page.number }
        ensures keeper { IfOk result (λ words. keeper.new ≡ collected_held keeper.old page.number words.items) }
        ensures many { IfOk result (λ words. vec_len words ≡ width self.now.shape) }
        ensures open { OnOk result (StaysOpen keeper.old.view.duties keeper.new.view.duties) }
        ensures met { OnOk result (IsMet self.now.shape keeper.new.view) }
        ensures unchanged { OnErr result (keeper.new ≡ keeper.old) }
    {
        let _page = page;
        let words = self.words.drain_all(alloc, &mut keeper.seat, slot)?;
        keeper.slots[usize::from(slot)].phase = SlotPhase::Free;
        Ok(words)
    }

    /// Takes the bits of a page that was settled as quiet, and frees its slot. They are exactly the marks of its
    /// entries: of the keeper's and of those that passes have and the keeper will gather. Takes the memory for 2^(n-6)
    /// words before it takes the first; `NoMemory` where there is none, and then nothing is changed. Costs 2^(n-6)
    /// swaps, and copies nothing.
    pub fn collect(
        &self,
        alloc: Global,
        keeper: &mut Keeper,
        page: PageNo,
    ) -> Result<Page, NoMemory>
        requires plane { keeper.old.table ≡ self.now.table }
        requires quiet { IsQuiet (phase_with keeper.old.view.duties page.number) }
        ensures page { IfOk result (λ p. p ≡ collected_page self.now.shape keeper.new.view.duties page.number) }
        ensures keeper { OnOk result (keeper.new
            ≡ collected_held keeper.old page.number (collected_of keeper.new.view.duties page.number)) }
        ensures whole { OnOk result (IsCollected self.now.shape keeper.new.view.duties page.number) }
        ensures marks { IfOk result (λ p. AreAllMarks self.now.shape keeper.new.view page.number p.members) }
        ensures alone { IfOk result (λ p. keeper.new.view.duties.out ≡ 0
            → p ≡ marked_set self.now.shape keeper.new.view.entries page.number) }
        ensures open { OnOk result (StaysOpen keeper.old.view.duties keeper.new.view.duties) }
        ensures met { OnOk result (IsMet self.now.shape keeper.new.view) }
        ensures unchanged { OnErr result (keeper.new ≡ keeper.old) }
    {
        let slot = slot_with(&keeper.slots, page.number);
        let words = self.collect_slot(alloc, keeper, page, slot)?;
        Ok(Page::from_words(words, self.words.shape.n))
    }
}
