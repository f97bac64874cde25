// Shapes, signatures and bits that the tests share.
ghost use Rattle.std.specs.Prelude.{◌≡◌};
ghost use Rattle.gate_core.specs.Acts.{IsQuiet};
ghost use Rattle.page_gate.specs.Pages.{phase_with};
ghost use Rattle.page_gate.specs.Slots.{IsWaiting};
ghost use Rattle.spie_base.specs.Shapes.{IsShape};

use gate_core::SlotPhase;
use hash_family::{Family, page_seed};
use page_gate::{Keeper, Plane, Settled};
use spie_base::{PageNo, PageShape, RouterId, Sig};

/// Of one bit word, and two marks a record.
pub const SMALL: PageShape = PageShape {
    k: 2,
    n: 6,
    base: 0,
    router: RouterId { number: 0 },
};

pub const ZERO: Sig = Sig { bytes: [0; 28] };

pub const P0: PageNo = PageNo { number: 0 };

pub const P1: PageNo = PageNo { number: 1 };

/// A signature of its own for each number of each worker.
pub fn sig_of(worker: u8, number: u32) -> Sig {
    let mut bytes = [0; 28];
    bytes[0] = worker;
    bytes[1] = (number % 256) as u8;
    bytes[2] = (number / 256 % 256) as u8;
    Sig { bytes }
}

/// The hash functions of a page, as `hash_family` has them.
pub fn family(shape: &PageShape, page: PageNo) -> Family
    requires { IsShape shape.now }
{
    Family::of(page_seed(shape.base, shape.router, page), shape.k, shape.n)
}

/// Sets the marks of a signature.
pub fn mark(words: &mut [u64], family: &Family, sig: &Sig) {
    let marks = family.positions(sig);
    for at in marks.at.iter().take(usize::from(marks.count)) {
        if let Some(word) = words.get_mut((*at / 64) as usize) {
            *word |= 1 << (*at % 64);
        }
    }
}

/// Opens the next page, where a slot is free.
pub fn turned(plane: &Plane, keeper: &mut Keeper) -> Option<PageNo>
    requires { keeper.old.table ≡ plane.now.table }
    ensures { keeper.new.table ≡ plane.now.table }
{
    if !keeper.has_open() || keeper.free() == 0 || 1000 < keeper.open_page().number {
        return None;
    }
    Some(plane.rotate_alone(keeper))
}

/// A settle of a closed page, behind which the keeper still belongs to the plane.
pub fn settled(plane: &Plane, keeper: &mut Keeper, page: PageNo) -> Settled
    requires plane { keeper.old.table ≡ plane.now.table }
    requires waiting { IsWaiting keeper.old.view.duties page.number }
    ensures plane { keeper.new.table ≡ plane.now.table }
    ensures quiet { (result ≡ Settled.Quiet) → IsQuiet (phase_with keeper.new.view.duties page.number) }
{
    match keeper.phase(page) {
        SlotPhase::Sealed => plane.settle(keeper, page),
        SlotPhase::Quiet { .. } => Settled::Quiet,
        _ => Settled::Pending { inside: 0 },
    }
}
