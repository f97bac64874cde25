// A row as it is shown, over the store of old signatures.
ghost use Rattle.std.specs.Prelude.{◌≡◌, ◌≢◌, ◌+◌, ◌-◌, ℕ, true, false, IfOk, IsSome, OnOk, OnErr};
ghost use Rattle.slab.specs.Slab.{get};
ghost use Rattle.index_rings.specs.Walk.{places_left};
ghost use Rattle.indirect_store.specs.Held.{held_at, sig_at, uses_at};
ghost use Rattle.transform_table.specs.Rows.{data_of, is_id, keyed, one_if, pair_at, rows_shown, AreHeld};

use crate::line::{Kept, Line};
use index_rings::Places;
use indirect_store::Store;
use packet_signature::{Row, RowData};
use slab::Slab;
use spie_base::{NoMemory, PageNo};
use std::alloc::Global;

/// What a row keeps of an old signature, after one use more of it in the store where it is kept whole.
pub fn keep(olds: &mut Store, alloc: Global, old: &RowData) -> Result<Kept, NoMemory>
    ensures shown { IfOk result (λ kept. data_of olds.new kept ≡ old.now) }
    ensures uses { IfOk result (λ kept. (id : ℕ) → uses_at olds.new id ≡ uses_at olds.old id + one_if (is_id id kept)) }
    ensures others { OnOk result ((id : ℕ) → uses_at olds.old id ≢ 0 → sig_at olds.new id ≡ sig_at olds.old id) }
    ensures unchanged { OnErr result (olds.new ≡ olds.old) }
{
    match old {
        RowData::Direct(bytes) => Ok(Kept::Bytes(*bytes)),
        RowData::Indirect(sig) => Ok(Kept::Id(olds.put(alloc, sig)?)),
    }
}

/// Takes the use of an old signature away that a row has.
pub fn give_up(olds: &mut Store, kept: Kept)
    requires { (id : ℕ) → is_id id kept ≡ true → IsSome (held_at olds.old id) }
    ensures uses { (id : ℕ) → uses_at olds.new id ≡ uses_at olds.old id - one_if (is_id id kept) }
    ensures others { (id : ℕ) → uses_at olds.new id ≢ 0 → sig_at olds.new id ≡ sig_at olds.old id }
{
    match kept {
        Kept::Bytes(_) => (),
        Kept::Id(id) => olds.release(id),
    }
}

// What a row tells of its old signature.
fn shown(olds: &Store, kept: Kept) -> RowData
    requires { (id : ℕ) → is_id id kept ≡ true → IsSome (held_at olds.now id) }
    ensures { result ≡ data_of olds.now kept }
{
    match kept {
        Kept::Bytes(bytes) => RowData::Direct(bytes),
        Kept::Id(id) => RowData::Indirect(*olds.get(id)),
    }
}

/// The row at a place, with its page.
pub fn row_at(rows: &Slab<Line>, olds: &Store, place: usize) -> Option<(PageNo, Row)>
    requires { AreHeld rows.now olds.now }
    ensures { result ≡ pair_at rows.now olds.now place }
{
    let line = *rows.get(place)?;
    let old = shown(olds, line.kept);
    Some((
        line.page,
        Row {
            key: line.key,
            kind: line.kind,
            old,
        },
    ))
}

/// The row at a place, with its page, where it has the key.
pub fn row_with(rows: &Slab<Line>, olds: &Store, place: usize, key: u64) -> Option<(PageNo, Row)>
    requires { AreHeld rows.now olds.now }
    ensures { result ≡ keyed key (pair_at rows.now olds.now place) }
{
    if rows.get(place)?.key == key {
        row_at(rows, olds, place)
    } else {
        None
    }
}

/// The rows at these places.
pub fn rows_at(
    alloc: Global,
    rows: &Slab<Line>,
    olds: &Store,
    places: Places,
) -> Result<Vec<Row>, NoMemory>
    requires { AreHeld rows.now olds.now }
    ensures { IfOk result (λ found. found.items ≡ rows_shown rows.now olds.now (places_left places.entry)) }
{
    let mut found = Vec::new(alloc);
    let mut places = places;
    while let Some(place) = places.next() {
        if let Some((_, row)) = row_at(rows, olds, place) {
            found.push(row)?;
        }
    }
    Ok(found)
}
