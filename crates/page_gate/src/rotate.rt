// The keeper closes the open page and opens the next one.
ghost use Rattle.std.specs.Prelude.{◌≡◌, ◌+◌, ◌^◌, ◌<◌, ◌≤◌};
ghost use Rattle.gate_core.specs.declared.limits.TheConstants.{SLOTS};
ghost use Rattle.gate_core.specs.declared.states.SlotPhase.TheVariants.{Free};
ghost use Rattle.gate_core.specs.declared.steps.Act.TheVariants.{Point};
ghost use Rattle.gate_core.specs.declared.steps.Act.TheVariants as act;
ghost use Rattle.gate_core.specs.declared.view.Role.TheVariants.{Keeper as keeping};
ghost use Rattle.gate_core.specs.Acts.{open_slot, reopening};
ghost use Rattle.gate_core.specs.Views.{slot_at};
ghost use Rattle.page_gate.specs.Rotated.{rotated_to, rotated_held};
ghost use Rattle.page_gate.specs.Slots.{HasOpen, IsWaiting, open_page, free_count};
ghost use Rattle.page_gate.specs.Steps.{Ready, Acted, IsMet};
ghost use Rattle.page_gate.specs.Tried.{StaysWith};

use crate::keeper::Keeper;
use crate::plane::Plane;
use crate::slots::free_slot;
use crate::told::{Does, Told};
use crate::words::Words;
use atomic_table::Seat;
use gate_core::gate_word::{gate_at, reopening};
use gate_core::view::{Slot, View};
use gate_core::{SlotPhase, open_slot};
use spie_base::PageNo;
use std::marker::Brand;

impl Words {
    fn open_as<W: Told>(&self, seat: &mut Seat<(), View>, slot: u8, by: u64) -> u64
        requires told { (W.shape ≡ self.now.table.shared.key) × (W.act ≡ act.Open slot) }
        requires seat { (seat.old.table_id ≡ self.now.table.shared.table_id) × Ready W.shape W.act seat.old }
        requires slot { slot < SLOTS }
        requires by { by ≡ reopening (slot_at seat.old.me.0.duties slot).page seat.old.me.0.duties.next }
        ensures { Acted W.shape W.act seat.old seat.new result }
    {
        self.table
            .shared
            .fetch_add::<Does<W>>(seat, gate_at(slot), by)
    }

    // Opens the page `next` in a slot whose last page was `old`.
    fn open_next(&self, seat: &mut Seat<(), View>, slot: u8, old: u32, next: u32)
        requires table { seat.old.table_id ≡ self.now.table.shared.table_id }
        requires seat { Ready self.now.shape (act.Open slot) seat.old }
        requires pages { (old ≡ (slot_at seat.old.me.0.duties slot).page) × (next ≡ seat.old.me.0.duties.next) }
        ensures { Acted self.now.shape (act.Open slot) seat.old seat.new 0 }
    {
        self.open_as::<Brand>(seat, slot, reopening(old, next));
    }

    fn point_as<W: Told>(&self, seat: &mut Seat<(), View>, slot: u8)
        requires told { (W.shape ≡ self.now.table.shared.key) × (W.act ≡ Point) }
        requires seat { (seat.old.table_id ≡ self.now.table.shared.table_id) × Ready W.shape W.act seat.old }
        requires slot { slot ≡ open_slot seat.old.me.0.duties }
        ensures { Acted W.shape W.act seat.old seat.new slot }
    {
        self.table.shared.store::<Does<W>>(seat, 0, u64::from(slot))
    }

    fn point(&self, seat: &mut Seat<(), View>, slot: u8)
        requires table { seat.old.table_id ≡ self.now.table.shared.table_id }
        requires seat { Ready self.now.shape Point seat.old }
        requires slot { slot ≡ open_slot seat.old.me.0.duties }
        ensures { Acted self.now.shape Point seat.old seat.new 0 }
    {
        self.point_as::<Brand>(seat, slot);
    }

    // Seals the slot `from`, opens the page `next` in the slot `to`, and points there.
    fn rotate(&self, seat: &mut Seat<(), View>, from: u8, to: u8, old: u32, next: u32)
        requires table { seat.old.table_id ≡ self.now.table.shared.table_id }
        requires keeper { seat.old.me.0.role ≡ keeping }
        requires from { (from ≡ open_slot seat.old.me.0.duties) × (from < SLOTS) }
        requires to { (to < SLOTS) × ((slot_at seat.old.me.0.duties to).phase ≡ Free) }
        requires pages { (old ≡ (slot_at seat.old.me.0.duties to).page)
            × (next ≡ seat.old.me.0.duties.next) × (next + 1 < 2 ^ 32) }
        ensures rotated { StaysWith seat.old seat.new (rotated_to seat.old.me.0 to) }
        ensures met { IsMet self.now.shape seat.new.me.0 }
    {
        self.seal(seat, from);
        self.open_next(seat, to, old, next);
        self.point(seat, to);
    }
}

impl Plane {
    /// Closes the open page, and opens the next one in a free slot; records enter it from now on. Records that are
    /// inside the closed page finish there. Waits for nobody, takes no lock and no memory. Costs a fetch-or, a
    /// fetch-add and a store.
    pub fn rotate_alone(&self, keeper: &mut Keeper) -> PageNo
        requires plane { keeper.old.table ≡ self.now.table }
        requires open { HasOpen keeper.old.view.duties }
        requires free { 1 ≤ free_count keeper.old.view.duties }
        requires fits { keeper.old.view.duties.next + 1 < 2 ^ 32 }
        ensures page { result.number ≡ keeper.old.view.duties.next }
        ensures rotated { keeper.new ≡ rotated_held keeper.old }
        ensures open { HasOpen keeper.new.view.duties }
        ensures current { open_page keeper.new.view.duties ≡ result.number }
        ensures met { IsMet self.now.shape keeper.new.view }
    {
        let from = open_slot(&keeper.slots);
        let to = free_slot(&keeper.slots);
        let next = keeper.slots[usize::from(from)].page + 1;
        let old = keeper.slots[usize::from(to)].page;
        self.words.rotate(&mut keeper.seat, from, to, old, next);
        keeper.slots[usize::from(from)].phase = SlotPhase::Sealed;
        keeper.slots[usize::from(to)] = Slot {
            phase: SlotPhase::Open,
            page: next,
            used: true,
        };
        PageNo { number: next }
    }
}
