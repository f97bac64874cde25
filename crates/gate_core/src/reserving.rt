// Memory for steps to come, taken before them.
ghost use Rattle.std.specs.Prelude.{◌≡◌, ◌≤◌, ◌<◌, ◌+◌, ◌*◌, ℕ, max, length, OnOk, OnErr, IfSome, vec_len};
ghost use Rattle.gate_core.specs.Kept.{core_of, paid_by, HasLogRoom, HasDeskRoom};
ghost use Rattle.gate_core.specs.Sound.{IsSound, IsSameDesk, AreSpare, HasLists};

use crate::core_data::{CoreData, Desk, Log};
use crate::gate_word::width;
use spie_base::NoMemory;
use std::alloc::Global;

impl<T> Log<T> {
    /// Room for so many more items.
    pub(crate) fn reserve(&mut self, steps: usize) -> Result<(), NoMemory>
        ensures items { self.new.items.items ≡ self.old.items.items }
        ensures places { self.new.places.items ≡ self.old.places.items }
        ensures kept { (room : ℕ) → HasLogRoom self.old room → HasLogRoom self.new room }
        ensures ok { OnOk result ((room : ℕ) → HasLogRoom self.old room → HasLogRoom self.new steps) }
    {
        self.items.reserve(steps)?;
        self.places.reserve(steps)?;
        Ok(())
    }
}

// So many lists of words are enough for the pages that these steps may open, whatever the four slots' phases.
fn lists_for(wide: usize, steps: usize) -> Option<usize>
    requires { 1 ≤ wide }
    ensures { IfSome result (λ lists. steps + 4 * wide ≤ wide * lists) }
{
    (steps / wide).checked_add(5)
}

// At least so many lists, each with the memory of a page.
fn more_lists(
    lists: &mut Vec<Vec<u64>>,
    alloc: Global,
    wide: usize,
    count: usize,
) -> Result<(), NoMemory>
    ensures kept { AreSpare wide lists.old.items → AreSpare wide lists.new.items }
    ensures more { vec_len lists.old ≤ vec_len lists.new }
    ensures most { vec_len lists.new ≤ max (vec_len lists.old) count }
    ensures ok { OnOk result (count ≤ vec_len lists.new) }
{
    'missing: while lists.len() < count {
        let words = Vec::with_capacity(alloc, wide)?;
        lists.push(words)?;
    }
    Ok(())
}

impl Desk {
    // At least so many lists for the words of pages to come, and a place for each among the collected ones.
    fn stock(&mut self, alloc: Global, wide: usize, count: usize) -> Result<(), NoMemory>
        ensures same { IsSameDesk self.old self.new }
        ensures probes { self.new.probes ≡ self.old.probes }
        ensures kept { HasLists wide self.old → HasLists wide self.new }
        ensures more { vec_len self.old.spare ≤ vec_len self.new.spare }
        ensures ok { OnOk result (count ≤ vec_len self.new.spare) }
    {
        self.collected.reserve(count)?;
        more_lists(&mut self.spare, alloc, wide, count)
    }

    /// Room for so many more steps.
    pub(crate) fn reserve(
        &mut self,
        alloc: Global,
        wide: usize,
        steps: usize,
    ) -> Result<(), NoMemory>
        requires some { 1 ≤ wide }
        requires most { paid_by wide self.old.slots ≤ 4 * wide }
        ensures same { IsSameDesk self.old self.new }
        ensures kept { (room : ℕ) → HasDeskRoom wide self.old room → HasDeskRoom wide self.new room }
        ensures ok { OnOk result (HasLists wide self.old → HasDeskRoom wide self.new steps) }
    {
        let Some(lists) = lists_for(wide, steps) else {
            return Err(NoMemory);
        };
        self.probes.reserve(steps)?;
        self.stock(alloc, wide, lists)
    }
}

impl CoreData {
    /// Room for so many more steps, if there is less.
    pub(crate) fn reserve(&mut self, alloc: Global, steps: usize) -> Result<(), NoMemory>
        requires { IsSound self.old }
        ensures sound { IsSound self.new }
        ensures ok { OnOk result (core_of self.new ≡ record (core_of self.old) { room = max self.old.room steps }) }
        ensures err { OnErr result (core_of self.new ≡ core_of self.old) }
    {
        if steps <= self.room {
            return Ok(());
        }
        self.entries.reserve(steps)?;
        self.visits.reserve(steps)?;
        self.desk
            .reserve(alloc, width(&self.shape) as usize, steps)?;
        self.room = steps;
        Ok(())
    }
}
