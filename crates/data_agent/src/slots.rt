// What an agent's keeper does on the plane, also while passes are out.
ghost use Rattle.std.specs.Prelude.{◌≡◌, ◌≤◌, ◌<◌, ◌+◌, ◌++◌, ◌^◌, [], ℕ, false, All, IfOk, OnOk, OnErr, List, length, replicate, vec_len, flat_map};
ghost use Rattle.std.specs.List.{Contains};
ghost use Rattle.spie_base.specs.declared.Entry.{Entry};
ghost use Rattle.bloom_page.specs.Sets.{are_in};
ghost use Rattle.hash_family.specs.Entries.{IsMarked};
ghost use Rattle.hash_family.specs.Positions.{marks_of};
ghost use Rattle.gate_core.specs.declared.limits.TheConstants.{MOST_PASSES};
ghost use Rattle.gate_core.specs.Acts.{IsQuiet, inside_of};
ghost use Rattle.gate_core.specs.Invariant.{HasPage, IsCollected, IsRising};
ghost use Rattle.gate_core.specs.Marks.{size};
ghost use Rattle.page_gate.specs.Held.{PassHeld, WasAlone, dealer_held, gathered_all};
ghost use Rattle.page_gate.specs.Pages.{collected_page, phase_with};
ghost use Rattle.page_gate.specs.Probes.{HaveAllMarks, Probes, marked_set};
ghost use Rattle.page_gate.specs.Slots.{HasOpen, free_count, open_page};
ghost use Rattle.page_gate.specs.declared.settle.Settled.TheVariants as settled;
ghost use Rattle.data_agent.specs.Beside.{IsMinding, KeepsWords};
ghost use Rattle.data_agent.specs.Standing.{IsKeeping};

use bloom_page::Page;
use page_gate::{Keeper, Pass, Plane, Settled};
use spie_base::{NoMemory, PageNo, Sig};
use std::alloc::Global;
use std::sync::Wait;

/// Deals so many passes, whose floor is the open page.
pub(crate) fn deal_passes(
    alloc: Global,
    plane: &Plane,
    keeper: &mut Keeper,
    passes: u32,
) -> Result<Vec<Pass>, NoMemory>
    requires plane { keeper.old.table ≡ plane.now.table }
    requires none_out { keeper.old.view.duties.out ≡ 0 }
    requires open { HasOpen keeper.old.view.duties }
    requires least { 1 ≤ passes }
    requires most { passes ≤ MOST_PASSES }
    ensures passes { IfOk result (λ v. v.items
        ≡ replicate passes (record {
          table = plane.now.table;
          floor = open_page keeper.old.view.duties;
          entries = [];
          visits = [];
        })) }
    ensures keeper { OnOk result (keeper.new ≡ dealer_held keeper.old passes) }
    ensures unchanged { OnErr result (keeper.new ≡ keeper.old) }
{
    keeper.points();
    plane.deal(alloc, keeper, passes)
}

// The pages of each pass never fall, and none is below its floor.
fn rise(passes: &[Pass])
    ensures { All (λ (p : PassHeld). IsRising p.floor p.entries) passes.now }
{
    for pass in passes {
        pass.rises();
    }
}

/// Takes in all passes that are out. No entry of a pass is below its floor.
pub(crate) fn gather_passes(plane: &Plane, keeper: &mut Keeper, passes: Vec<Pass>)
    requires plane { keeper.old.table ≡ plane.now.table }
    requires passes { All (λ p. p.table ≡ plane.now.table) passes.items }
    requires all { vec_len passes ≡ keeper.old.view.duties.out }
    ensures gathered { keeper.new ≡ gathered_all keeper.old passes.items }
    ensures none_out { keeper.new.view.duties.out ≡ 0 }
    ensures entries { keeper.new.view.entries ≡ keeper.old.view.entries ++ flat_map (λ p. p.entries) passes.items }
    ensures rise { All (λ (p : PassHeld). IsRising p.floor p.entries) passes.items }
    ensures alone { WasAlone plane.now.shape keeper.new.view }
{
    rise(&passes);
    plane.gather(keeper, passes);
}

/// Looks once whether a closed page is quiet.
pub(crate) fn settle_page(plane: &Plane, keeper: &mut Keeper, page: PageNo) -> Settled
    requires plane { keeper.old.table ≡ plane.now.table }
    requires stands { (first : ℕ) × (last : ℕ) × IsMinding plane.now.shape keeper.old first last × (first ≤ page.number)
        × (page.number < last) }
    ensures same { KeepsWords plane.now.shape keeper.old keeper.new }
    ensures quiet { (result ≡ settled.Quiet) → IsQuiet (phase_with keeper.new.view.duties page.number) }
    ensures inside { (result ≡ settled.Quiet → ⊥) → 1 ≤ inside_of keeper.new.view.duties.noted }
    ensures alone { (keeper.old.view.duties.out ≡ 0) → result ≡ settled.Quiet }
    ensures minding { (first last : ℕ) → IsMinding plane.now.shape keeper.old first last
        → IsMinding plane.now.shape keeper.new first last }
{
    plane.settle(keeper, page)
}

/// Waits until a closed page is quiet. Somebody is inside only in the middle of a record, which waits for nobody.
pub(crate) fn settle_until_quiet<R: Wait>(rt: &R, plane: &Plane, keeper: &mut Keeper, page: PageNo)
    requires plane { keeper.old.table ≡ plane.now.table }
    requires stands { (first : ℕ) × (last : ℕ) × IsMinding plane.now.shape keeper.old first last × (first ≤ page.number)
        × (page.number < last) }
    ensures same { KeepsWords plane.now.shape keeper.old keeper.new }
    ensures quiet { IsQuiet (phase_with keeper.new.view.duties page.number) }
    ensures minding { (first last : ℕ) → IsMinding plane.now.shape keeper.old first last
        → IsMinding plane.now.shape keeper.new first last }
{
    'looks: for _ in rt.forever() {
        if settle_page(plane, keeper, page) == Settled::Quiet {
            return;
        }
    }
    unreachable!()
}

/// Collects the page that stands in a slot longest. It must be quiet.
pub(crate) fn collect_page(
    alloc: Global,
    plane: &Plane,
    keeper: &mut Keeper,
    page: PageNo,
) -> Result<Page, NoMemory>
    requires plane { keeper.old.table ≡ plane.now.table }
    requires quiet { IsQuiet (phase_with keeper.old.view.duties page.number) }
    requires stands { (last : ℕ) × IsMinding plane.now.shape keeper.old page.number last }
    ensures same { KeepsWords plane.now.shape keeper.old keeper.new }
    ensures bits { IfOk result (λ bits. bits ≡ collected_page plane.now.shape keeper.new.view.duties page.number) }
    ensures collected { OnOk result (IsCollected plane.now.shape keeper.new.view.duties page.number) }
    ensures gathered { IfOk result (λ bits. (at : ℕ) → at < size plane.now.shape
        → IsMarked plane.now.shape keeper.old.view.entries page.number at → Contains bits.members at) }
    ensures alone { IfOk result (λ bits. (keeper.old.view.duties.out ≡ 0)
        → bits ≡ marked_set plane.now.shape keeper.old.view.entries page.number) }
    ensures free { OnOk result (1 ≤ free_count keeper.new.view.duties) }
    ensures taken { OnOk result ((last : ℕ) → IsMinding plane.now.shape keeper.old page.number last
        → IsMinding plane.now.shape keeper.new (page.number + 1) last) }
    ensures unchanged { OnErr result (keeper.new ≡ keeper.old) }
{
    plane.collect(alloc, keeper, page)
}

/// Closes the open page, and opens the next.
pub(crate) fn turn_page<R: Wait>(rt: &R, plane: &Plane, keeper: &mut Keeper)
    requires plane { keeper.old.table ≡ plane.now.table }
    requires stands { (first : ℕ) × (last : ℕ) × IsMinding plane.now.shape keeper.old first last × (last + 2 < 2 ^ 32) }
    requires free { 1 ≤ free_count keeper.old.view.duties }
    ensures same { KeepsWords plane.now.shape keeper.old keeper.new }
    ensures turned { (first last : ℕ) → IsMinding plane.now.shape keeper.old first last
        → IsMinding plane.now.shape keeper.new first (last + 1) }
{
    plane.rotate(rt, keeper);
}

/// Closes the open page, and opens the next, where no pass is out.
pub(crate) fn turn_page_alone(plane: &Plane, keeper: &mut Keeper)
    requires plane { keeper.old.table ≡ plane.now.table }
    requires stands { (first : ℕ) × (last : ℕ) × IsMinding plane.now.shape keeper.old first last × (last + 2 < 2 ^ 32) }
    requires free { 1 ≤ free_count keeper.old.view.duties }
    ensures same { KeepsWords plane.now.shape keeper.old keeper.new }
    ensures turned { (first last : ℕ) → IsMinding plane.now.shape keeper.old first last
        → IsMinding plane.now.shape keeper.new first (last + 1) }
{
    plane.rotate_alone(keeper);
}

/// Whether a page that stands in a slot shows a signature. Probes its marks in the plane. Beside passes a false tells that
/// the keeper's entries don't have all marks, and each mark that was read as set is one.
pub(crate) fn probe_page(plane: &Plane, keeper: &mut Keeper, page: PageNo, sig: &Sig) -> bool
    requires plane { keeper.old.table ≡ plane.now.table }
    requires stands { HasPage (phase_with keeper.old.view.duties page.number) }
    ensures plane { keeper.new.table ≡ keeper.old.table }
    ensures reads { Probes plane.now.shape page.number sig.now keeper.old keeper.new result }
    ensures missing { (result ≡ false) → HaveAllMarks plane.now.shape keeper.old.view.entries page.number sig.now → ⊥ }
    ensures found { (entries : List Entry) (first last : ℕ) → IsKeeping plane.now.shape keeper.old entries first last
        → result ≡ are_in (marked_set plane.now.shape entries page.number).members
        (marks_of plane.now.shape page.number sig.now) }
    ensures same { (entries : List Entry) (first last : ℕ) → IsKeeping plane.now.shape keeper.old entries first last
        → IsKeeping plane.now.shape keeper.new entries first last }
{
    plane.probe(keeper, page, sig)
}

/// How many bits of the open page are set.
pub(crate) fn fill_page(plane: &Plane, keeper: &mut Keeper, page: PageNo) -> u32
    requires plane { keeper.old.table ≡ plane.now.table }
    requires stands { (entries : List Entry) × (first : ℕ)
        × IsKeeping plane.now.shape keeper.old entries first page.number }
    ensures plane { keeper.new.table ≡ keeper.old.table }
    ensures entries { keeper.new.view.entries ≡ keeper.old.view.entries }
    ensures count { (entries : List Entry) (first last : ℕ) → IsKeeping plane.now.shape keeper.old entries first last
        → result ≡ length (marked_set plane.now.shape entries page.number).members }
    ensures same { (entries : List Entry) (first last : ℕ) → IsKeeping plane.now.shape keeper.old entries first last
        → IsKeeping plane.now.shape keeper.new entries first last }
{
    plane.fill(keeper, page)
}

/// A copy of the open page.
pub(crate) fn copy_page(
    alloc: Global,
    plane: &Plane,
    keeper: &mut Keeper,
    page: PageNo,
) -> Result<Page, NoMemory>
    requires plane { keeper.old.table ≡ plane.now.table }
    requires stands { (entries : List Entry) × (first : ℕ)
        × IsKeeping plane.now.shape keeper.old entries first page.number }
    ensures plane { keeper.new.table ≡ keeper.old.table }
    ensures entries { keeper.new.view.entries ≡ keeper.old.view.entries }
    ensures size { IfOk result (λ bits. bits.n ≡ plane.now.shape.n) }
    ensures bits { IfOk result (λ bits. (entries : List Entry) (first last : ℕ)
        → IsKeeping plane.now.shape keeper.old entries first last
        → bits ≡ marked_set plane.now.shape entries page.number) }
    ensures same { (entries : List Entry) (first last : ℕ) → IsKeeping plane.now.shape keeper.old entries first last
        → IsKeeping plane.now.shape keeper.new entries first last }
{
    plane.snapshot(alloc, keeper, page)
}
