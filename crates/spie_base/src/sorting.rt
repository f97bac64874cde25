ghost use Rattle.std.specs.Prelude.{◌≡◌, true, ◌↔◌};
ghost use Rattle.std.specs.List.{Contains};
ghost use Rattle.std.specs.List.Sorted.{IsStrictlySortedBy};
ghost use Rattle.spie_base.specs.Ascending.{in_order};

use crate::List;

/// The items in ascending order, each once. Takes no memory; costs a sort.
pub fn ascending<T: Ord + Drop>(mut items: Vec<T>) -> List<T>
    requires { (x y : T) → T.eq x y ≡ true → x ≡ y }
    ensures exact { result ≡ in_order T.cmp items.items }
    ensures ordered { IsStrictlySortedBy T.cmp result }
    ensures same { (x : T) → Contains result x ↔ Contains items.items x }
{
    items.sort_unstable();
    items.dedup();
    List::of(items)
}
