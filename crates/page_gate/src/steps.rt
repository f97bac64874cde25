// The acts of a record, each one atomic operation.
ghost use Rattle.std.specs.Prelude.{◌≡◌, ◌<◌};
ghost use Rattle.gate_core.specs.declared.steps.Act.TheVariants.{Look, Enter, Set, Leave};
ghost use Rattle.gate_core.specs.declared.limits.TheConstants.{SLOTS};
ghost use Rattle.gate_core.specs.Acts.{slot_of, mask_of};
ghost use Rattle.page_gate.specs.Steps.{Ready, Acted, Found, place_of};

use crate::told::{Does, Told};
use crate::words::Words;
use atomic_table::Seat;
use gate_core::gate_word::gate_at;
use gate_core::view::View;
use spie_base::Sig;

impl Words {
    pub(crate) fn look_as<W: Told>(&self, seat: &mut Seat<(), View>) -> u64
        requires told { (W.shape ≡ self.now.table.shared.key) × (W.act ≡ Look) }
        requires seat { (seat.old.table_id ≡ self.now.table.shared.table_id) × Ready W.shape W.act seat.old }
        ensures acted { Acted W.shape W.act seat.old seat.new result }
        ensures found { Found W.shape W.act seat.old.me.0 result }
    {
        self.table.shared.load::<Does<W>>(seat, 0)
    }

    pub(crate) fn enter_as<W: Told>(&self, seat: &mut Seat<(), View>, slot: u8, sig: &Sig) -> u64
        requires told { (W.shape ≡ self.now.table.shared.key) × (W.act ≡ Enter sig.now) }
        requires seat { (seat.old.table_id ≡ self.now.table.shared.table_id) × Ready W.shape W.act seat.old }
        requires slot { (slot < SLOTS) × (slot ≡ slot_of seat.old.me.0.state) }
        ensures acted { Acted W.shape W.act seat.old seat.new result }
        ensures found { Found W.shape W.act seat.old.me.0 result }
    {
        let _sig = sig;
        self.table
            .shared
            .fetch_add::<Does<W>>(seat, gate_at(slot), 1)
    }

    pub(crate) fn set_as<W: Told>(&self, seat: &mut Seat<(), View>, word: usize, mask: u64) -> u64
        requires told { (W.shape ≡ self.now.table.shared.key) × (W.act ≡ Set) }
        requires seat { (seat.old.table_id ≡ self.now.table.shared.table_id) × Ready W.shape W.act seat.old }
        requires word { (word ≡ place_of W.shape W.act seat.old) × (word < self.now.table.shared.table_id.words) }
        requires mask { mask ≡ mask_of W.shape seat.old.me.0.state }
        ensures { Acted W.shape W.act seat.old seat.new result }
    {
        self.table.shared.fetch_or::<Does<W>>(seat, word, mask)
    }

    pub(crate) fn leave_as<W: Told>(&self, seat: &mut Seat<(), View>, slot: u8) -> u64
        requires told { (W.shape ≡ self.now.table.shared.key) × (W.act ≡ Leave) }
        requires seat { (seat.old.table_id ≡ self.now.table.shared.table_id) × Ready W.shape W.act seat.old }
        requires slot { (slot < SLOTS) × (slot ≡ slot_of seat.old.me.0.state) }
        ensures { Acted W.shape W.act seat.old seat.new result }
    {
        self.table
            .shared
            .fetch_sub::<Does<W>>(seat, gate_at(slot), 1)
    }
}
