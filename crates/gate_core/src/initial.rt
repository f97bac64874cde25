// What the machine keeps at the start.
ghost use Rattle.std.specs.Prelude.{◌≡◌, ◌≤◌, ◌<◌, ◌+◌, ◌*◌, [], ◌∷◌, IfOk, replicate, slice_get, Some, vec_len, ℕ};
ghost use Rattle.hash_family.specs.Positions.{family_of};
ghost use Rattle.gate_core.specs.Marks.{width};
ghost use Rattle.spie_base.specs.Shapes.{IsShape};
ghost use Rattle.gate_core.specs.Invariant.{IsFresh};
ghost use Rattle.gate_core.specs.Kept.{core_of, duties_of, HasLogRoom, HasDeskRoom};
ghost use Rattle.gate_core.specs.Sound.{IsSound, HasLists};
ghost use Rattle.gate_core.specs.Start.{first_words, keeper_view, start_of};
ghost use Rattle.gate_core.specs.declared.limits.TheConstants.{MOST_PASSES, SLOTS};

use crate::acts::family_of;
use crate::core_data::{CoreData, Desk, Log, Seat};
use crate::gate_word::{FIRST_BITS, SEAL, width};
use crate::view::Slot;
use crate::{PassState, SlotPhase};
use spie_base::{Marks, NoMemory, PageNo, PageShape};
use std::alloc::Global;

/// An actor that is in no record.
const IDLE: Seat = Seat {
    state: PassState::Idle,
    marks: Marks {
        at: [0; 8],
        count: 0,
    },
};

const FIRST_PAGE: PageNo = PageNo { number: 0 };

const FREE_SLOT: Slot = Slot {
    phase: SlotPhase::Free,
    page: 0,
    used: false,
};

const FIRST_SLOT: Slot = Slot {
    phase: SlotPhase::Open,
    page: 0,
    used: true,
};

/// The words of a new plane: slot 0 is current and open with page 0, and the other three are free.
#[tactic(auto, using(crate::proofs::FreshWords::fresh))]
pub fn first_words(alloc: Global, shape: &PageShape) -> Result<Vec<u64>, NoMemory>
    requires { IsShape shape.now }
    ensures exact { IfOk result (λ words. words.items ≡ first_words shape.now) }
    ensures fresh { IfOk result (λ words. IsFresh shape.now words.items) }
{
    let mut words = vec![in alloc; 0; FIRST_BITS + 4 * width(shape) as usize]?;
    words[2] = SEAL;
    words[3] = SEAL;
    words[4] = SEAL;
    Ok(words)
}

// The seats of the keeper and the passes.
fn seats(alloc: Global, passes: u32) -> Result<Vec<Seat>, NoMemory>
    ensures { IfOk result (λ seats. seats.items ≡ replicate (passes + 1) IDLE) }
{
    Ok(vec![in alloc; IDLE; passes as usize + 1]?)
}

// A desk with no words for pages to come.
fn bare_desk(alloc: Global, shape: &PageShape) -> Result<Desk, NoMemory>
    requires { IsShape shape.now }
    ensures duties { IfOk result (λ desk. duties_of desk 0 ≡ (keeper_view 0).duties) }
    ensures families { IfOk result (λ desk. (s : ℕ) → s < SLOTS
        → slice_get desk.families s ≡ Some (family_of shape.now 0)) }
    ensures lists { IfOk result (λ desk. HasLists (width shape.now) desk) }
{
    let mut collected = Vec::new(alloc);
    collected.push(Vec::with_capacity(alloc, width(shape) as usize)?)?;
    Ok(Desk {
        slots: [FIRST_SLOT, FREE_SLOT, FREE_SLOT, FREE_SLOT],
        families: [
            family_of(shape, FIRST_PAGE),
            family_of(shape, FIRST_PAGE),
            family_of(shape, FIRST_PAGE),
            family_of(shape, FIRST_PAGE),
        ],
        next: 1,
        pointed: 0,
        collected,
        spare: Vec::new(alloc),
        probes: Vec::new(alloc),
        noted: 0,
        noted_with: 0,
    })
}

// The desk at the start.
fn desk(alloc: Global, shape: &PageShape) -> Result<Desk, NoMemory>
    requires { IsShape shape.now }
    ensures duties { IfOk result (λ desk. duties_of desk 0 ≡ (keeper_view 0).duties) }
    ensures families { IfOk result (λ desk. (s : ℕ) → s < SLOTS
        → slice_get desk.families s ≡ Some (family_of shape.now 0)) }
    ensures room { IfOk result (λ desk. HasDeskRoom (width shape.now) desk 0) }
{
    let mut desk = bare_desk(alloc, shape)?;
    desk.reserve(alloc, width(shape) as usize, 0)?;
    Ok(desk)
}

// Nothing is logged.
fn no_log<T>(alloc: Global) -> Log<T>
    ensures items { result.items.items ≡ [] }
    ensures places { result.places.items ≡ [] }
    ensures room { HasLogRoom result 0 }
{
    Log {
        items: Vec::new(alloc),
        places: Vec::new(alloc),
        own: 0,
    }
}

/// The keeper and so many passes, all idle. Page 0 is open.
pub(crate) fn first_data(alloc: Global, shape: PageShape, passes: u32) -> Result<CoreData, NoMemory>
    requires shape { IsShape shape }
    requires few_passes { passes ≤ MOST_PASSES }
    ensures start { IfOk result (λ m. core_of m ≡ start_of shape passes) }
    ensures sound { IfOk result (λ m. IsSound m) }
{
    Ok(CoreData {
        words: first_words(alloc, &shape)?,
        seats: seats(alloc, passes)?,
        desk: desk(alloc, &shape)?,
        entries: no_log(alloc),
        visits: no_log(alloc),
        room: 0,
        shape,
    })
}
