// A record: look, enter, set each mark, leave.
ghost use Rattle.std.specs.Prelude.{◌≡◌, ◌<◌};
ghost use Rattle.hash_family.specs.Positions.{position};
ghost use Rattle.gate_core.specs.declared.limits.TheConstants.{SLOTS};
ghost use Rattle.gate_core.specs.declared.steps.Act.TheVariants.{Look, Enter, Set, Leave};
ghost use Rattle.gate_core.specs.declared.states.PassState.TheVariants.{Idle, Inside};
ghost use Rattle.gate_core.specs.declared.states.SlotPhase.TheVariants.{Open};
ghost use Rattle.gate_core.specs.declared.view.Role.TheVariants.{Spent, Keeper as keeping};
ghost use Rattle.gate_core.specs.Views.{slot_at};
ghost use Rattle.gate_core.specs.Acts.{slot_of, moved_to};
ghost use Rattle.page_gate.specs.Placed.{AreMarks};
ghost use Rattle.page_gate.specs.Steps.{Ready, Acted, Found, IsMet};
ghost use Rattle.page_gate.specs.Tried.{Tells, RecordedIn, StaysWith};

use crate::hashes::{PageHashes, marks_in};
use crate::words::Words;
use atomic_table::Seat;
use gate_core::gate_word::{bit_of, bits_at, is_sealed, page};
use gate_core::view::View;
use spie_base::{Marks, PageNo, Sig};
use std::marker::Brand;

/// What a try to record answers.
#[derive(Clone, Copy, PartialEq, Eq, Debug)]
pub enum Tried {
    /// The record is finished, in this page.
    Entered(PageNo),
    /// The gate was sealed; this is the word that was read.
    Sealed { gate: u64 },
}

impl Words {
    fn look(&self, seat: &mut Seat<(), View>) -> u8
        requires { (seat.old.table_id ≡ self.now.table.shared.table_id) × Ready self.now.shape Look seat.old }
        ensures acted { Acted self.now.shape Look seat.old seat.new result }
        ensures found { Found self.now.shape Look seat.old.me.0 result }
        ensures slot { result < SLOTS }
    {
        self.look_as::<Brand>(seat) as u8
    }

    fn enter(&self, seat: &mut Seat<(), View>, slot: u8, sig: &Sig) -> u64
        requires { (seat.old.table_id ≡ self.now.table.shared.table_id) × Ready self.now.shape (Enter sig.now) seat.old
            × (slot < SLOTS) × (slot ≡ slot_of seat.old.me.0.state) }
        ensures acted { Acted self.now.shape (Enter sig.now) seat.old seat.new result }
        ensures found { Found self.now.shape (Enter sig.now) seat.old.me.0 result }
    {
        self.enter_as::<Brand>(seat, slot, sig)
    }

    fn leave(&self, seat: &mut Seat<(), View>, slot: u8)
        requires { (seat.old.table_id ≡ self.now.table.shared.table_id) × Ready self.now.shape Leave seat.old
            × (slot < SLOTS) × (slot ≡ slot_of seat.old.me.0.state) }
        ensures { Acted self.now.shape Leave seat.old seat.new 0 }
    {
        self.leave_as::<Brand>(seat, slot);
    }

    // Sets the mark number `i`, which is `mark`.
    fn set(&self, seat: &mut Seat<(), View>, slot: u8, page: PageNo, sig: &Sig, i: u8, mark: u32)
        requires table { seat.old.table_id ≡ self.now.table.shared.table_id }
        requires inside { (seat.old.me.0.state ≡ Inside slot page sig.now i) × (i < self.now.shape.k)
            × (slot < SLOTS) × ¬ (seat.old.me.0.role ≡ Spent) }
        requires mark { mark ≡ position self.now.shape page.number sig.now i }
        ensures { Acted self.now.shape Set seat.old seat.new 0 }
    {
        let (_page, _i) = (page, i);
        let _sig = sig;
        self.set_as::<Brand>(seat, bits_at(&self.shape, slot, mark / 64), bit_of(mark));
    }

    fn set_all(&self, seat: &mut Seat<(), View>, slot: u8, page: PageNo, sig: &Sig, marks: &Marks)
        requires table { seat.old.table_id ≡ self.now.table.shared.table_id }
        requires inside { (seat.old.me.0.state ≡ Inside slot page sig.now 0)
            × (slot < SLOTS) × ¬ (seat.old.me.0.role ≡ Spent) }
        requires marks { AreMarks self.now.shape page.number sig.now marks.now }
        ensures { StaysWith seat.old seat.new (moved_to seat.old.me.0 (Inside slot page sig.now self.now.shape.k)) }
    {
        for i in 0..self.shape.k {
            self.set(seat, slot, page, sig, i, marks.at[usize::from(i)]);
        }
    }

    // Sets all marks of a record that is inside, and leaves.
    fn finish(&self, seat: &mut Seat<(), View>, slot: u8, page: PageNo, sig: &Sig, marks: &Marks)
        requires table { seat.old.table_id ≡ self.now.table.shared.table_id }
        requires inside { (seat.old.me.0.state ≡ Inside slot page sig.now 0)
            × (slot < SLOTS) × ¬ (seat.old.me.0.role ≡ Spent) }
        requires marks { AreMarks self.now.shape page.number sig.now marks.now }
        ensures recorded { RecordedIn page sig.now seat.old seat.new }
        ensures met { IsMet self.now.shape seat.new.me.0 }
    {
        self.set_all(seat, slot, page, sig, marks);
        self.leave(seat, slot);
    }

    // The seat is idle before and after.
    pub(crate) fn record_by(
        &self,
        seat: &mut Seat<(), View>,
        kept: &mut Option<PageHashes>,
        sig: &Sig,
    ) -> Tried
        requires table { seat.old.table_id ≡ self.now.table.shared.table_id }
        requires idle { (seat.old.me.0.state ≡ Idle) × ¬ (seat.old.me.0.role ≡ Spent) }
        ensures tells { Tells self.now.shape sig.now seat.old seat.new result }
        ensures met { IsMet self.now.shape seat.new.me.0 }
    {
        let slot = self.look(seat);
        let gate = self.enter(seat, slot, sig);
        if is_sealed(gate) {
            self.leave(seat, slot);
            Tried::Sealed { gate }
        } else {
            let page = page(gate);
            let marks = marks_in(kept, &self.shape, page, sig);
            self.finish(seat, slot, page, sig, &marks);
            Tried::Entered(page)
        }
    }

    // The same of the keeper, where the slot at which it pointed is open: then the gate is not sealed, and the page is known.
    pub(crate) fn record_in_open(
        &self,
        seat: &mut Seat<(), View>,
        page: PageNo,
        sig: &Sig,
        marks: &Marks,
    )
        requires table { seat.old.table_id ≡ self.now.table.shared.table_id }
        requires keeper { (seat.old.me.0.state ≡ Idle)
            × (seat.old.me.0.role ≡ keeping) × ¬ (seat.old.me.0.role ≡ Spent) }
        requires open { (slot_at seat.old.me.0.duties seat.old.me.0.duties.pointed).phase ≡ Open }
        requires page { page.number ≡ (slot_at seat.old.me.0.duties seat.old.me.0.duties.pointed).page }
        requires marks { AreMarks self.now.shape page.number sig.now marks.now }
        ensures { RecordedIn page sig.now seat.old seat.new }
    {
        let slot = self.look(seat);
        self.enter(seat, slot, sig);
        self.finish(seat, slot, page, sig, marks);
    }
}
