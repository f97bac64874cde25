// A record whose marks are all set already, where no pass is out. It would change no word, so one load is the whole record.
ghost use Rattle.std.specs.Prelude.{◌≡◌, IsTrue};
ghost use Rattle.gate_core.specs.declared.states.SlotPhase.TheVariants.{Open};
ghost use Rattle.gate_core.specs.Views.{slot_at};
ghost use Rattle.page_gate.specs.Pages.{CanRead};
ghost use Rattle.page_gate.specs.Placed.{AreMarks};
ghost use Rattle.page_gate.specs.Probes.{HaveAllMarks};
ghost use Rattle.page_gate.specs.Repeats.{CanRepeat};
ghost use Rattle.page_gate.specs.Tried.{RecordedIn, StaysWith};

use crate::told::{Names, Repeats};
use crate::words::Words;
use atomic_table::Seat;
use gate_core::gate_word::{bits_at, is_set};
use gate_core::view::View;
use spie_base::{Marks, PageNo, Sig};
use std::marker::Brand;

impl Words {
    fn repeat_as<W: Names>(&self, seat: &mut Seat<(), View>, page: PageNo, sig: &Sig)
        requires told { W.entry ≡ record { page = page; sig = sig.now } }
        requires table { seat.old.table_id ≡ self.now.table.shared.table_id }
        requires known { CanRepeat self.now.shape seat.old.me.0 W.entry.page W.entry.sig }
        ensures { RecordedIn W.entry.page W.entry.sig seat.old seat.new }
    {
        let (_page, _sig) = (page, sig);
        self.table.shared.load::<Repeats<W>>(seat, 0);
    }

    // The record of a signature whose marks are all marks of the keeper's entries.
    fn repeat(&self, seat: &mut Seat<(), View>, page: PageNo, sig: &Sig)
        requires table { seat.old.table_id ≡ self.now.table.shared.table_id }
        requires known { CanRepeat self.now.shape seat.old.me.0 page sig.now }
        ensures { RecordedIn page sig.now seat.old seat.new }
    {
        self.repeat_as::<Brand>(seat, page, sig)
    }

    // Whether each of the marks is set, read one after another up to the first that is not. Nothing changes. With no pass
    // out the set bits of a page are the marks of the keeper's own entries, which it keeps.
    fn are_known(
        &self,
        seat: &mut Seat<(), View>,
        slot: u8,
        page: PageNo,
        sig: &Sig,
        marks: &Marks,
    ) -> bool
        requires table { seat.old.table_id ≡ self.now.table.shared.table_id }
        requires slot { CanRead seat.old.me.0 page.number slot }
        requires alone { seat.old.me.0.duties.out ≡ 0 }
        requires marks { AreMarks self.now.shape page.number sig.now marks.now }
        ensures same { StaysWith seat.old seat.new seat.old.me.0 }
        ensures known { IsTrue result → HaveAllMarks self.now.shape seat.old.me.0.entries page.number sig.now }
    {
        let (_page, _sig) = (page, sig);
        for i in 0..self.shape.k {
            let at = marks.at[usize::from(i)];
            if !is_set(self.attest(seat, bits_at(&self.shape, slot, at / 64)), at) {
                return false;
            }
        }
        true
    }

    // The keeper's own record in the open page, which stands in the slot.
    pub(crate) fn record_or_repeat(
        &self,
        seat: &mut Seat<(), View>,
        slot: u8,
        page: PageNo,
        sig: &Sig,
        marks: &Marks,
    )
        requires table { seat.old.table_id ≡ self.now.table.shared.table_id }
        requires alone { seat.old.me.0.duties.out ≡ 0 }
        requires open { CanRead seat.old.me.0 page.number slot
            × (seat.old.me.0.duties.pointed ≡ slot) × ((slot_at seat.old.me.0.duties slot).phase ≡ Open) }
        requires marks { AreMarks self.now.shape page.number sig.now marks.now }
        ensures { RecordedIn page sig.now seat.old seat.new }
    {
        if self.are_known(seat, slot, page, sig, marks) {
            self.repeat(seat, page, sig);
        } else {
            self.record_in_open(seat, page, sig, marks);
        }
    }
}
