// The keeper reads all bits of a page that stands in a slot.
ghost use Rattle.std.specs.Prelude.{◌≡◌, ◌<◌, IfOk, OnOk, OnErr, length, vec_len};
ghost use Rattle.bloom_page.specs.Bits.{members_of};
ghost use Rattle.gate_core.specs.Invariant.{HasPage};
ghost use Rattle.gate_core.specs.Marks.{width};
ghost use Rattle.page_gate.specs.Pages.{slot_with, phase_with, CanRead};
ghost use Rattle.page_gate.specs.Probes.{IsWordOf, OnlyNotes, OnlyProbes, marked_set};
ghost use Rattle.page_gate.specs.Steps.{IsMet};

use crate::keeper::Keeper;
use crate::plane::Plane;
use crate::slots::slot_with;
use crate::words::Words;
use atomic_table::Seat;
use bloom_page::Page;
use gate_core::gate_word::width;
use gate_core::view::View;
use spie_base::{NoMemory, PageNo};
use std::alloc::Global;

impl Words {
    // Word `j` of the page in the slot.
    fn word(&self, seat: &mut Seat<(), View>, page: PageNo, slot: u8, j: u32) -> u64
        requires table { seat.old.table_id ≡ self.now.table.shared.table_id }
        requires slot { CanRead seat.old.me.0 page.number slot }
        requires alone { seat.old.me.0.duties.out ≡ 0 }
        requires j { j < width self.now.shape }
        ensures notes { OnlyNotes seat.old seat.new }
        ensures word { IsWordOf self.now.shape seat.old.me.0.entries page.number j result }
        ensures met { IsMet self.now.shape seat.new.me.0 }
    {
        let _page = page;
        self.probe(seat, slot, 64 * j)
    }

    // How many bits of the page are set.
    fn ones(&self, seat: &mut Seat<(), View>, page: PageNo, slot: u8) -> u32
        requires table { seat.old.table_id ≡ self.now.table.shared.table_id }
        requires slot { CanRead seat.old.me.0 page.number slot }
        requires alone { seat.old.me.0.duties.out ≡ 0 }
        ensures notes { OnlyNotes seat.old seat.new }
        ensures ones { result ≡ length (marked_set self.now.shape seat.old.me.0.entries page.number).members }
        ensures met { IsMet self.now.shape seat.new.me.0 }
    {
        let mut ones = 0;
        for j in 0..width(&self.shape) {
            ones += self.word(seat, page, slot, j).count_ones();
        }
        ones
    }

    // All words of the page.
    fn copy(
        &self,
        alloc: Global,
        seat: &mut Seat<(), View>,
        page: PageNo,
        slot: u8,
    ) -> Result<Vec<u64>, NoMemory>
        requires table { seat.old.table_id ≡ self.now.table.shared.table_id }
        requires slot { CanRead seat.old.me.0 page.number slot }
        requires alone { seat.old.me.0.duties.out ≡ 0 }
        ensures notes { OnOk result (OnlyNotes seat.old seat.new) }
        ensures many { IfOk result (λ words. vec_len words ≡ width self.now.shape) }
        ensures set { IfOk result (λ words. record { n = self.now.shape.n; members = members_of words.items }
            ≡ marked_set self.now.shape seat.old.me.0.entries page.number) }
        ensures met { OnOk result (IsMet self.now.shape seat.new.me.0) }
        ensures unchanged { OnErr result (seat.new ≡ seat.old) }
    {
        let width = width(&self.shape);
        let mut words = Vec::with_capacity(alloc, width as usize)?;
        for j in 0..width {
            words.push_reserved(self.word(seat, page, slot, j));
        }
        Ok(words)
    }
}

impl Plane {
    /// How many bits are set of a page that is open, or closed and not collected, where no pass is out: as many as its
    /// entries have different marks. Takes no memory. Costs 2^(n-6) loads, and a count of bits for each.
    pub fn fill(&self, keeper: &mut Keeper, page: PageNo) -> u32
        requires plane { keeper.old.table ≡ self.now.table }
        requires alone { keeper.old.view.duties.out ≡ 0 }
        requires stands { HasPage (phase_with keeper.old.view.duties page.number) }
        ensures exact { result
            ≡ length (marked_set self.now.shape keeper.old.view.entries page.number).members }
        ensures probes { OnlyProbes keeper.old keeper.new }
        ensures met { IsMet self.now.shape keeper.new.view }
    {
        let slot = slot_with(&keeper.slots, page.number);
        self.words.ones(&mut keeper.seat, page, slot)
    }

    /// A copy of a page that is open, or closed and not collected, where no pass is out: exactly the marks of its
    /// entries. Takes memory for 2^(n-6) words before the first load; `NoMemory` where there is none, and then nothing
    /// is changed. Costs 2^(n-6) loads.
    pub fn snapshot(
        &self,
        alloc: Global,
        keeper: &mut Keeper,
        page: PageNo,
    ) -> Result<Page, NoMemory>
        requires plane { keeper.old.table ≡ self.now.table }
        requires alone { keeper.old.view.duties.out ≡ 0 }
        requires stands { HasPage (phase_with keeper.old.view.duties page.number) }
        ensures exact { IfOk result (λ p. p ≡ marked_set self.now.shape keeper.old.view.entries page.number) }
        ensures probes { OnOk result (OnlyProbes keeper.old keeper.new) }
        ensures met { OnOk result (IsMet self.now.shape keeper.new.view) }
        ensures unchanged { OnErr result (keeper.new ≡ keeper.old) }
    {
        let slot = slot_with(&keeper.slots, page.number);
        let words = self.words.copy(alloc, &mut keeper.seat, page, slot)?;
        Ok(Page::from_words(words, self.words.shape.n))
    }
}
