// The slots as the keeper keeps them.
ghost use Rattle.std.specs.Prelude.{◌≡◌, count_by, position, slice_index_or, if◌then◌else◌};
ghost use Rattle.std.specs.List.{position_or_len};
ghost use Rattle.gate_core.specs.PageWords as words;
ghost use Rattle.page_gate.specs.Rotated.{is_free_slot};
ghost use Rattle.page_gate.specs.Slots as shown;
ghost use Rattle.page_gate.specs.Slots.{oldest_among};
ghost use Rattle.gate_core.specs.declared.view.Slot.{Slot};
ghost use Rattle.gate_core.specs.Views.{no_slot};

use gate_core::view::Slot;
use gate_core::{SLOTS, SlotPhase};

fn is_waiting(phase: SlotPhase) -> bool
    ensures { result ≡ shown.is_waiting phase }
{
    matches!(phase, SlotPhase::Sealed | SlotPhase::Quiet { .. })
}

fn is_free(phase: SlotPhase) -> bool
    ensures { result ≡ shown.is_free phase }
{
    matches!(phase, SlotPhase::Free)
}

fn least_with(page: u32, least: Option<u32>) -> u32
    ensures { result ≡ shown.least_with page least }
{
    match least {
        None => page,
        Some(other) => { if other < page { other } else { page } }
    }
}

fn older(slot: &Slot, least: Option<u32>) -> Option<u32>
    ensures { result ≡ shown.older slot.now least }
{
    if is_waiting(slot.phase) {
        Some(least_with(slot.page, least))
    } else {
        least
    }
}

/// The least page that is closed and not collected.
#[tactic(auto, using(crate::proofs::FourSlots::four_are))]
pub(crate) fn oldest(slots: &[Slot; 4]) -> Option<u32>
    ensures { result ≡ oldest_among slots.now }
{
    let least = older(&slots[3], None);
    let least = older(&slots[2], least);
    let least = older(&slots[1], least);
    older(&slots[0], least)
}

fn free_one(slot: &Slot) -> u32
    ensures { result ≡ (if shown.is_free slot.now.phase then 1 else 0) }
{
    u32::from(is_free(slot.phase))
}

/// How many slots are free.
#[tactic(auto, using(crate::proofs::FourSlots::four_are))]
pub(crate) fn free(slots: &[Slot; 4]) -> u32
    ensures { result ≡ count_by (λ (x : Slot). shown.is_free x.phase) slots.now }
{
    free_one(&slots[0]) + free_one(&slots[1]) + free_one(&slots[2]) + free_one(&slots[3])
}

fn stands_with(slot: &Slot, page: u32) -> bool
    ensures { result ≡ words.stands_with page slot.now }
{
    !is_free(slot.phase) && slot.page == page
}

fn place_with(slots: &[Slot; 4], page: u32) -> Option<usize>
    ensures { result ≡ position (words.stands_with page) slots.now }
{
    slots.iter().position(|slot| stands_with(slot, page))
}

/// The slot in which a page stands, or `SLOTS`.
pub(crate) fn slot_with(slots: &[Slot; 4], page: u32) -> u8
    ensures { result ≡ position_or_len (words.stands_with page) slots.now }
{
    match place_with(slots, page) {
        Some(slot) => slot as u8,
        None => SLOTS,
    }
}

fn free_place(slots: &[Slot; 4]) -> Option<usize>
    ensures { result ≡ position is_free_slot slots.now }
{
    slots.iter().position(|slot| is_free(slot.phase))
}

/// The first slot that is free, or `SLOTS`.
pub(crate) fn free_slot(slots: &[Slot; 4]) -> u8
    ensures { result ≡ position_or_len is_free_slot slots.now }
{
    match free_place(slots) {
        Some(slot) => slot as u8,
        None => SLOTS,
    }
}

/// The phase of a slot, free where there is no such slot.
pub(crate) fn phase_at(slots: &[Slot; 4], slot: u8) -> SlotPhase
    ensures { result ≡ (slice_index_or slots.now slot no_slot).phase }
{
    match slots.get(usize::from(slot)) {
        Some(slot) => slot.phase,
        None => SlotPhase::Free,
    }
}
