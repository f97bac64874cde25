// Sets that grow by whole lists, or not at all.
ghost use Rattle.std.specs.Prelude.{◌≡◌, true, OnOk, OnErr};
ghost use Rattle.agent_wire.specs.Sets.{AreOutside, HasLess, HasMore, HasSame, HasSome};

use spie_base::NoMemory;
use std::collections::BTreeSet;

// Takes items out of a set.
fn forget<T: Ord + Copy + Drop>(known: &mut BTreeSet<T>, items: &[T])
    requires exact { (x y : T) → T.eq x y ≡ true → x ≡ y }
    ensures { HasLess known.old known.new items.now }
{
    for item in items {
        known.remove(item);
    }
}

// Puts items into a set, until memory is refused.
fn put_all<T: Ord + Copy + Drop>(known: &mut BTreeSet<T>, items: &[T]) -> Result<(), NoMemory>
    requires exact { (x y : T) → T.eq x y ≡ true → x ≡ y }
    ensures all { OnOk result (HasMore known.old known.new items.now) }
    ensures some { OnErr result (HasSome known.old known.new items.now) }
{
    for item in items {
        known.insert(*item)?;
    }
    Ok(())
}

/// Puts items into a set that has none of them. Where memory is refused the set has what it had.
pub(crate) fn learn<T: Ord + Copy + Drop>(
    known: &mut BTreeSet<T>,
    items: &[T],
) -> Result<(), NoMemory>
    requires exact { (x y : T) → T.eq x y ≡ true → x ≡ y }
    requires outside { AreOutside known.old items.now }
    ensures all { OnOk result (HasMore known.old known.new items.now) }
    ensures same { OnErr result (HasSame known.old known.new) }
{
    match put_all(known, items) {
        Ok(()) => Ok(()),
        Err(refused) => {
            forget(known, items);
            Err(refused)
        }
    }
}
