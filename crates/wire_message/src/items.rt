// Lists of items, which are ascending, each item once.
ghost use Rattle.std.specs.Prelude.{◌≡◌, ◌++◌, None, OnOk};
ghost use Rattle.std.specs.List.{flat_map};
ghost use Rattle.wire_message.specs.Spelling.{spelled_list};
ghost use Rattle.wire_message.specs.Reading.{Gives, is_above, next_in, items_in, list_in};

use crate::fields::{Item, u64_in};
use crate::stop::Stop;
use spie_base::List;
use std::alloc::{AllocError, Global};

// Whether an item may stand behind the one before it.
fn is_above<T: Item>(before: Option<T>, item: &T) -> bool
    ensures { result ≡ is_above T.cmp before item.now }
{
    match before {
        None => true,
        Some(before) => before.cmp(item).is_lt(),
    }
}

fn next_in<T: Item>(before: Option<T>, bytes: &[u8]) -> Result<(T, &[u8]), Stop>
    ensures { Gives (λ x. (x.0, x.1.now)) result (next_in T.form T.cmp before bytes.now) }
{
    let (item, rest) = T::item_in(bytes)?;
    if !is_above(before, &item) {
        return Err(Stop::At(bytes.len()));
    }
    Ok((item, rest))
}

// So many items, one after the other. Takes memory only for those that are there.
fn items_in<T: Item>(alloc: Global, count: u64, bytes: &[u8]) -> Result<(Vec<T>, &[u8]), Stop>
    ensures { Gives (λ x. (x.0.items, x.1.now)) result (items_in T.form T.cmp count None bytes.now) }
{
    let mut items = Vec::new(alloc);
    let mut before = None;
    let mut rest = bytes;
    for _ in 0..count {
        let (item, after) = next_in(before, rest)?;
        items.push(item)?;
        before = Some(item);
        rest = after;
    }
    Ok((items, rest))
}

/// A list: how many items it has, and the items.
#[tactic(auto, unfolding(crate::specs::Reading::list_in))]
pub fn list_in<T: Item>(alloc: Global, bytes: &[u8]) -> Result<(List<T>, &[u8]), Stop>
    ensures { Gives (λ x. (x.0, x.1.now)) result (list_in T.form T.cmp bytes.now) }
{
    let (count, rest) = u64_in(bytes)?;
    let (items, rest) = items_in(alloc, count, rest)?;
    Ok((List::of(items), rest))
}

// Puts items one behind the other.
fn put_items<T: Item>(out: &mut Vec<u8>, items: &[T]) -> Result<(), AllocError>
    ensures { OnOk result (out.new.items ≡ out.old.items ++ flat_map T.form.spelled items.now) }
{
    for item in items {
        item.put(out)?;
    }
    Ok(())
}

/// Puts a list behind the bytes.
pub fn put_list<T: Item>(out: &mut Vec<u8>, items: &List<T>) -> Result<(), AllocError>
    ensures { OnOk result (out.new.items ≡ out.old.items ++ spelled_list T.form.spelled items.now) }
{
    out.extend_from_slice(&(items.items().len() as u64).to_be_bytes())?;
    put_items(out, items.items())
}
