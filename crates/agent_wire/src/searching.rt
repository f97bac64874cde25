// Items of a list that ascends.
ghost use Rattle.std.specs.Prelude.{◌≡◌, true};
ghost use Rattle.std.specs.List.{list_any};
ghost use Rattle.std.specs.List.Sorted.{IsStrictlySortedBy};

/// Whether an item is among some that ascend. Costs a binary search.
pub(crate) fn is_among<T: Ord>(items: &[T], item: &T) -> bool
    requires exact { (x y : T) → T.eq x y ≡ true → x ≡ y }
    requires ascending { IsStrictlySortedBy T.cmp items.now }
    ensures { result ≡ list_any (T.eq item.now) items.now }
{
    items.binary_search(item).is_ok()
}
