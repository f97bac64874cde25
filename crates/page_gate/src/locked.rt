// Records that end in an entry, and rotations beside them: what takes the rotation lock.
ghost use Rattle.std.specs.Prelude.{◌≡◌, ◌+◌, ◌^◌, ◌<◌, ◌≤◌, ◌++◌, ◌∷◌, []};
ghost use Rattle.page_gate.specs.Rotated.{rotated_held};
ghost use Rattle.page_gate.specs.Slots.{HasOpen, open_page, free_count};
ghost use Rattle.page_gate.specs.Steps.{IsMet};
ghost use Rattle.page_gate.specs.Tried.{PassRecorded};

use crate::keeper::Keeper;
use crate::pass::Pass;
use crate::plane::Plane;
use crate::record::Tried;
use spie_base::{PageNo, Sig};
use std::sync::Wait;

impl Plane {
    /// A record that ends in an entry, and gives its page. Tries once; where the gate was sealed, takes the rotation
    /// lock and tries again until it has entered. May wait for a rotation and for other slow records. Takes no memory.
    /// Costs what `try_record` does, and no lock where the first try entered.
    pub fn record<R: Wait>(&self, rt: &R, pass: &mut Pass, sig: &Sig) -> PageNo
        requires plane { pass.old.table ≡ self.now.table }
        ensures plane { pass.new.table ≡ pass.old.table }
        ensures entry { pass.new.entries ≡ pass.old.entries ++ record { page = result; sig = sig.now } ∷ [] }
        ensures recorded { PassRecorded self.now.shape sig.now pass.old pass.new result }
    {
        match self.try_record(pass, sig) {
            Tried::Entered(page) => page,
            Tried::Sealed { .. } => self.record_slowly(rt, pass, sig),
        }
    }

    // Under the lock no rotation stands between its seal and its point.
    fn record_slowly<R: Wait>(&self, rt: &R, pass: &mut Pass, sig: &Sig) -> PageNo
        requires plane { pass.old.table ≡ self.now.table }
        ensures recorded { PassRecorded self.now.shape sig.now pass.old pass.new result }
    {
        let _held = self.lock.lock(rt);
        'tries: for _ in rt.forever() {
            if let Tried::Entered(page) = self.try_record(pass, sig) {
                return page;
            }
        }
        unreachable!()
    }

    /// What `rotate_alone` does, beside records: holds the rotation lock meanwhile, so that a slow record waits until
    /// the next page is open. May wait for slow records, and for no other. Takes no memory.
    pub fn rotate<R: Wait>(&self, rt: &R, keeper: &mut Keeper) -> PageNo
        requires plane { keeper.old.table ≡ self.now.table }
        requires open { HasOpen keeper.old.view.duties }
        requires free { 1 ≤ free_count keeper.old.view.duties }
        requires fits { keeper.old.view.duties.next + 1 < 2 ^ 32 }
        ensures page { result.number ≡ keeper.old.view.duties.next }
        ensures rotated { keeper.new ≡ rotated_held keeper.old }
        ensures open { HasOpen keeper.new.view.duties }
        ensures current { open_page keeper.new.view.duties ≡ result.number }
        ensures met { IsMet self.now.shape keeper.new.view }
    {
        let _held = self.lock.lock(rt);
        self.rotate_alone(keeper)
    }
}
