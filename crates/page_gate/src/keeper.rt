// Who deals and gathers, and turns the pages.
ghost use Rattle.std.specs.Prelude.{◌≡◌, ◌+◌, ◌<◌, ◌≤◌, ◌↔◌, ℕ, true, IsTrue, IsNone, IfSome};
ghost use Rattle.page_gate.specs.Slots.{HasOpen, IsWaiting, is_waiting, open_page, free_count};
ghost use Rattle.gate_core.specs.Acts.{open_slot};
ghost use Rattle.gate_core.specs.Invariant.{HasPage};
ghost use Rattle.page_gate.specs.Pages.{phase_with};

use crate::hashes::PageHashes;
use crate::slots::{free, oldest, phase_at, slot_with};
use atomic_table::Seat;
use gate_core::view::{Slot, View};
use gate_core::{SLOTS, SlotPhase, open_slot};
use spie_base::PageNo;
use std::marker::Model;

/// The keeper of a plane. It has the entries of the passes that it gathered, and its own.
#[derive(Drop)]
pub struct Keeper {
    pub(crate) seat: Seat<(), View>,
    pub(crate) slots: [Slot; 4],
    pub(crate) out: u32,
    // Of each slot the hash functions of the page that was recorded or probed there last.
    pub(crate) hashes: [Option<PageHashes>; 4],
}

impl Model for Keeper {
    ghost use Rattle.std.specs.Prelude.{◌≡◌, ◌<◌, [], length};
    ghost use Rattle.gate_core.specs.declared.limits.TheConstants.{SLOTS};
    ghost use Rattle.gate_core.specs.Acts.{open_slot};
    ghost use Rattle.gate_core.specs.declared.view.Role.TheVariants.{Keeper as keeping};
    ghost use Rattle.gate_core.specs.declared.states.PassState.TheVariants.{Idle};
    ghost use Rattle.page_gate.specs.Held.{Held};
    ghost use Rattle.page_gate.specs.Slots.{HasOpen};
    ghost use Rattle.page_gate.specs.Pages.{AreKept};

    ghost Value = { Held };

    ghost view = { λ k. record { table = k.seat.table_id; view = k.seat.me.0 } };

    ghost invariant = { λ k. (k.out ≡ k.seat.me.0.duties.out)
        × (k.seat.me.0.state ≡ Idle) × (k.seat.me.0.role ≡ keeping) × (k.seat.me.1 ≡ [])
        × (k.slots ≡ k.seat.me.0.duties.slots) × (length k.seat.me.0.duties.slots ≡ SLOTS)
        × (HasOpen k.seat.me.0.duties → k.seat.me.0.duties.pointed ≡ open_slot k.seat.me.0.duties)
        × AreKept k.seat.me.0.duties };
}

impl Keeper {
    /// How many passes are out, 0 to `MOST_PASSES`.
    pub fn out(&self) -> u32
        ensures { result ≡ self.now.view.duties.out }
    {
        self.out
    }

    /// How many slots are free, 0 to `SLOTS`: so many pages can be opened before a closed one is collected.
    pub fn free(&self) -> u32
        ensures { result ≡ free_count self.now.view.duties }
    {
        free(&self.slots)
    }

    /// Whether a page is open.
    pub fn has_open(&self) -> bool
        ensures { IsTrue result ↔ HasOpen self.now.view.duties }
    {
        open_slot(&self.slots) < SLOTS
    }

    /// The page that is open. The next one has the number behind it.
    pub fn open_page(&self) -> PageNo
        requires open { HasOpen self.now.view.duties }
        ensures page { result.number ≡ open_page self.now.view.duties }
        ensures next { result.number + 1 ≡ self.now.view.duties.next }
    {
        PageNo {
            number: self.slots[usize::from(open_slot(&self.slots))].page,
        }
    }

    /// Where a page is open, the keeper last pointed at its slot. So passes that are dealt then have it as their floor.
    pub fn points(&self)
        requires open { HasOpen self.now.view.duties }
        ensures { self.now.view.duties.pointed ≡ open_slot self.now.view.duties }
    {
        let _ = &self.seat;
    }

    /// Where a page is in its life: open, sealed or quiet; free where it stands in no slot.
    pub fn phase(&self, page: PageNo) -> SlotPhase
        ensures phase { result ≡ phase_with self.now.view.duties page.number }
        ensures stands { (result ≡ SlotPhase.Free → ⊥) → HasPage (phase_with self.now.view.duties page.number) }
        ensures waiting { (is_waiting result ≡ true) → IsWaiting self.now.view.duties page.number }
    {
        phase_at(&self.slots, slot_with(&self.slots, page.number))
    }

    /// The least page that is closed and not collected.
    pub fn oldest(&self) -> Option<PageNo>
        ensures waiting { IfSome result (λ page. IsWaiting self.now.view.duties page.number) }
        ensures least { IfSome result (λ page. (other : ℕ)
            → IsWaiting self.now.view.duties other → page.number ≤ other) }
        ensures none { IsNone result → (page : ℕ) → IsWaiting self.now.view.duties page → ⊥ }
    {
        match oldest(&self.slots) {
            Some(number) => Some(PageNo { number }),
            None => None,
        }
    }
}
