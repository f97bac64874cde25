// The keeper reads bits of a page that stands in a slot.
ghost use Rattle.std.specs.Prelude.{◌≡◌, ◌↔◌, ◌<◌, ℕ, IsTrue, Bool, false, ◌==◌, length, List};
ghost use Rattle.std.specs.Int.{bit_at};
ghost use Rattle.gate_core.specs.declared.limits.TheConstants.{SLOTS};
ghost use Rattle.gate_core.specs.declared.steps.Act.TheVariants.{Probe};
ghost use Rattle.gate_core.specs.declared.view.Role.TheVariants.{Spent};
ghost use Rattle.gate_core.specs.declared.view.Probed.{Probed};
ghost use Rattle.gate_core.specs.Acts.{Enabled};
ghost use Rattle.gate_core.specs.Invariant.{HasPage};
ghost use Rattle.gate_core.specs.Views.{slot_at};
ghost use Rattle.page_gate.specs.Pages.{slot_with, phase_with, CanRead};
ghost use Rattle.page_gate.specs.Placed.{AreMarks};
ghost use Rattle.page_gate.specs.Probes.{Probes, ReadsTell, HaveAllMarks, noting_more};
ghost use Rattle.page_gate.specs.Steps.{Ready, Acted, Found, IsMet, place_of};
ghost use Rattle.page_gate.specs.Tried.{StaysWith};

use crate::hashes::marks_in;
use crate::keeper::Keeper;
use crate::plane::Plane;
use crate::slots::slot_with;
use crate::told::{Does, Told};
use crate::words::Words;
use atomic_table::Seat;
use gate_core::gate_word::{bits_at, is_set};
use gate_core::view::View;
use spie_base::{Marks, PageNo, Sig};
use std::marker::Brand;

impl Words {
    fn probe_as<W: Told>(&self, seat: &mut Seat<(), View>, slot: u8, at: u32, word: usize) -> u64
        requires told { (W.shape ≡ self.now.table.shared.key) × (W.act ≡ Probe slot at) }
        requires seat { (seat.old.table_id ≡ self.now.table.shared.table_id) × Ready W.shape W.act seat.old }
        requires word { (word ≡ place_of W.shape W.act seat.old) × (word < self.now.table.shared.table_id.words) }
        ensures acted { Acted W.shape W.act seat.old seat.new result }
        ensures found { Found W.shape W.act seat.old.me.0 result }
    {
        let (_slot, _at) = (slot, at);
        self.table.shared.load::<Does<W>>(seat, word)
    }

    // Loads the bit word of a position.
    pub(crate) fn probe(&self, seat: &mut Seat<(), View>, slot: u8, at: u32) -> u64
        requires table { seat.old.table_id ≡ self.now.table.shared.table_id }
        requires seat { Ready self.now.shape (Probe slot at) seat.old }
        ensures acted { Acted self.now.shape (Probe slot at) seat.old seat.new result }
        ensures found { Found self.now.shape (Probe slot at) seat.old.me.0 result }
    {
        self.probe_as::<Brand>(seat, slot, at, bits_at(&self.shape, slot, at / 64))
    }

    // Whether each of the marks is set, read one after another up to the first that is not.
    fn are_set(
        &self,
        seat: &mut Seat<(), View>,
        slot: u8,
        page: PageNo,
        sig: &Sig,
        marks: &Marks,
    ) -> bool
        requires table { seat.old.table_id ≡ self.now.table.shared.table_id }
        requires slot { CanRead seat.old.me.0 page.number slot }
        requires marks { AreMarks self.now.shape page.number sig.now marks.now }
        ensures reads { (more : List Probed)
            × StaysWith seat.old seat.new (noting_more seat.old.me.0 more)
            × ReadsTell self.now.shape page.number sig.now (length seat.old.me.0.entries) more result }
        ensures met { IsMet self.now.shape seat.new.me.0 }
    {
        let _sig = sig;
        let _page = page;
        for i in 0..self.shape.k {
            let at = marks.at[usize::from(i)];
            if !is_set(self.probe(seat, slot, at), at) {
                return false;
            }
        }
        true
    }
}

impl Plane {
    /// Whether all marks of a signature are set in a page that is open, or closed and not collected. Reads the marks
    /// one after another, and stops at the first that is not set; nothing is copied. With no pass out the answer is
    /// exact. Beside passes each read was true when it was made: a false tells that the keeper's entries don't have all
    /// marks, and a true may be of records that are under way. Takes no memory. Costs k positions and at most k loads;
    /// 8·k words of the generator more, where the keeper's last record or probe in this slot was in another page.
    pub fn probe(&self, keeper: &mut Keeper, page: PageNo, sig: &Sig) -> bool
        requires plane { keeper.old.table ≡ self.now.table }
        requires stands { HasPage (phase_with keeper.old.view.duties page.number) }
        ensures reads { Probes self.now.shape page.number sig.now keeper.old keeper.new result }
        ensures alone { (keeper.old.view.duties.out ≡ 0)
            → IsTrue result ↔ HaveAllMarks self.now.shape keeper.old.view.entries page.number sig.now }
        ensures missing { (result ≡ false)
            → HaveAllMarks self.now.shape keeper.old.view.entries page.number sig.now → ⊥ }
        ensures met { IsMet self.now.shape keeper.new.view }
    {
        let slot = slot_with(&keeper.slots, page.number);
        let marks = marks_in(
            &mut keeper.hashes[usize::from(slot)],
            &self.words.shape,
            page,
            sig,
        );
        self.words
            .are_set(&mut keeper.seat, slot, page, sig, &marks)
    }
}
