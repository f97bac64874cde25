// Records through passes, and by the keeper alone.
ghost use Rattle.std.specs.Prelude.{◌≡◌};
ghost use Rattle.page_gate.specs.Held.{recorded_held};
ghost use Rattle.page_gate.specs.Slots.{HasOpen, open_page};
ghost use Rattle.page_gate.specs.Tried.{PassTells};

use crate::hashes::marks_in;
use crate::keeper::Keeper;
use crate::pass::Pass;
use crate::plane::Plane;
use crate::record::Tried;
use gate_core::open_slot;
use spie_base::{Entry, PageNo, Sig};

impl Plane {
    /// One try, which waits for nobody and takes no memory. `Entered(page)`: the entry (page, sig) stands last in the
    /// pass's list. `Sealed`: the gate was sealed, and the list is as before; it never comes while the page that was
    /// open at the `deal` is open. Costs k positions, a load, a fetch-add, k fetch-ors and a fetch-sub; the first
    /// record of a pass in a page 8·k words of the generator more.
    pub fn try_record(&self, pass: &mut Pass, sig: &Sig) -> Tried
        requires plane { pass.old.table ≡ self.now.table }
        ensures plane { pass.new.table ≡ pass.old.table }
        ensures tells { PassTells self.now.shape sig.now pass.old pass.new result }
    {
        let tried = self.words.record_by(&mut pass.seat, &mut pass.hashes, sig);
        if let Tried::Entered(page) = &tried {
            pass.last = Some(Entry {
                page: *page,
                sig: *sig,
            });
        }
        tried
    }

    /// The keeper's own record, in the open page, where no pass is out. Takes no memory. Costs k positions and k + 1 loads
    /// where all marks are set already, as they are of a signature that the page has; else k positions, at most k loads up
    /// to the first mark that is not set, and then a load, a fetch-add, k fetch-ors and a fetch-sub. 8·k words of the
    /// generator more, where the keeper's last record or probe in this slot was in another page.
    pub fn record_alone(&self, keeper: &mut Keeper, sig: &Sig) -> PageNo
        requires plane { keeper.old.table ≡ self.now.table }
        requires alone { keeper.old.view.duties.out ≡ 0 }
        requires open { HasOpen keeper.old.view.duties }
        ensures page { result.number ≡ open_page keeper.old.view.duties }
        ensures recorded { keeper.new ≡ recorded_held keeper.old result sig.now }
    {
        let slot = open_slot(&keeper.slots);
        let page = PageNo {
            number: keeper.slots[usize::from(slot)].page,
        };
        let marks = marks_in(
            &mut keeper.hashes[usize::from(slot)],
            &self.words.shape,
            page,
            sig,
        );
        self.words
            .record_or_repeat(&mut keeper.seat, slot, page, sig, &marks);
        page
    }
}
