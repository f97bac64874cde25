// One search made of several, each of which asked the routers of a region of its own.
ghost use Rattle.std.specs.Prelude.{◌≡◌, ◌<◌, ◌≤◌, ◌+◌, ◌^◌, ◌++◌, ℕ, List, Some, false, cond, length, IfOk, OnOk};
ghost use Rattle.std.specs.List.{Contains};
ghost use Rattle.std.specs.List.Sorted.{IsStrictlySortedBy};
ghost use Rattle.spie_base.specs.Order.{sig_cmp};
ghost use Rattle.spie_base.specs.declared.Sig.{Sig};
ghost use Rattle.reverse_flood.specs.Rows.{node_eq, AreRows};
ghost use Rattle.reverse_flood.specs.Search.{cell_at, is_named, rows_in, IsFine};
ghost use Rattle.reverse_flood.specs.Unions.{behind, has_line, has_sig, is_here, IsAt, Moves, TakesUp};
ghost use Rattle.reverse_flood.specs.declared.cells.Cell.TheVariants.{Changed};
ghost use Rattle.reverse_flood.specs.declared.graphs.Node.{Node};

use crate::Node;
use crate::cells::{Cell, Search, put_cell, read_cell, row_of};
use crate::tells::lines_of;
use spie_base::{List, NoMemory, RouterId, Sig};
use std::alloc::Global;
use topology::{ROUTERS_MOST, Topology, topology_is_sound};

// A cell of a search whose kept origins come to stand behind others.
fn moved(cell: Cell, by: u32) -> Cell
    requires { (place : ℕ) → cell ≡ Changed place → place + by < 2 ^ 32 }
    ensures { result ≡ behind by cell }
{
    match cell {
        Cell::Changed(place) => Cell::Changed(place + by),
        Cell::Alone => Cell::Alone,
        Cell::Unseen => Cell::Unseen,
        Cell::Waiting => Cell::Waiting,
        Cell::Free => Cell::Free,
    }
}

// Takes up the cell of a pair.
fn take_cell(search: &mut Search, row: usize, other: &Search, from: usize, by: u32, node: &Node)
    requires rows { AreRows (rows_in search.old) (length search.old.cells.items) }
    requires row { rows_in search.old node.now.sig ≡ Some row }
    requires other { AreRows (rows_in other.now) (length other.now.cells.items) }
    requires from { rows_in other.now node.now.sig ≡ Some from }
    requires few { node.now.router.number < ROUTERS_MOST }
    requires places { (place : ℕ) → cell_at other.now node.now ≡ Changed place → place + by < 2 ^ 32 }
    ensures rows { search.new.rows ≡ search.old.rows }
    ensures changed { search.new.changed ≡ search.old.changed }
    ensures size { length search.new.cells.items ≡ length search.old.cells.items }
    ensures cells { (n : Node) → n.router.number < ROUTERS_MOST → cell_at search.new n ≡ cond (node_eq node.now n)
        (behind by (cell_at other.now node.now)) (cell_at search.old n) }
{
    let cell = moved(read_cell(other, from, node), by);
    put_cell(search, row, node, cell);
}

// Takes up the cell of a pair, if its router lies in a region.
fn take_here(
    search: &mut Search,
    topology: &Topology,
    region: u32,
    row: usize,
    other: &Search,
    from: usize,
    by: u32,
    node: &Node,
)
    requires few { length topology.now.names ≤ ROUTERS_MOST }
    requires fine { IsFine search.old }
    requires exists { node.now.router.number < length topology.now.names }
    requires row { rows_in search.old node.now.sig ≡ Some row }
    requires other { AreRows (rows_in other.now) (length other.now.cells.items) }
    requires from { rows_in other.now node.now.sig ≡ Some from }
    requires places { (n : Node) (place : ℕ) → n.router.number < ROUTERS_MOST → cell_at other.now n ≡ Changed place
        → place + by < length search.old.changed.items }
    requires small { length search.old.changed.items < 2 ^ 32 }
    ensures rows { search.new.rows ≡ search.old.rows }
    ensures moves { Moves by (is_here topology.now region node.now) topology.now region other.now search.old
        search.new }
{
    if topology.region(node.router) != region {
        return;
    }
    take_cell(search, row, other, from, by, node);
}

// Takes up the cells of one signature at the routers of a region.
fn take_row(
    search: &mut Search,
    topology: &Topology,
    region: u32,
    other: &Search,
    by: u32,
    sig: &Sig,
    from: usize,
) -> Result<(), NoMemory>
    requires few { length topology.now.names ≤ ROUTERS_MOST }
    requires fine { IsFine search.old }
    requires other { AreRows (rows_in other.now) (length other.now.cells.items) }
    requires from { rows_in other.now sig.now ≡ Some from }
    requires places { (n : Node) (place : ℕ) → n.router.number < ROUTERS_MOST → cell_at other.now n ≡ Changed place
        → place + by < length search.old.changed.items }
    requires small { length search.old.changed.items < 2 ^ 32 }
    ensures { OnOk result (Moves by (has_sig topology.now region sig.now) topology.now region other.now search.old
        search.new) }
{
    let row = row_of(search, sig)?;
    for number in 0..topology.routers() {
        let node = Node {
            router: RouterId { number },
            sig: *sig,
        };
        take_here(search, topology, region, row, other, from, by, &node);
    }
    Ok(())
}

// Takes up the cells of some signatures at the routers of a region.
fn take_rows(
    search: &mut Search,
    topology: &Topology,
    region: u32,
    other: &Search,
    by: u32,
    lines: &[(Sig, usize)],
) -> Result<(), NoMemory>
    requires few { length topology.now.names ≤ ROUTERS_MOST }
    requires fine { IsFine search.old }
    requires other { AreRows (rows_in other.now) (length other.now.cells.items) }
    requires lines { (l : Sig × ℕ) → Contains lines.now l → rows_in other.now l.0 ≡ Some l.1 }
    requires places { (n : Node) (place : ℕ) → n.router.number < ROUTERS_MOST → cell_at other.now n ≡ Changed place
        → place + by < length search.old.changed.items }
    requires small { length search.old.changed.items < 2 ^ 32 }
    ensures { OnOk result (Moves by (has_line topology.now region lines.now) topology.now region other.now search.old
        search.new) }
{
    for line in lines {
        take_row(search, topology, region, other, by, &line.0, line.1)?;
    }
    Ok(())
}

// Keeps origins behind those that are kept. How many were kept before.
fn keep_all(search: &mut Search, origins: Vec<List<Sig>>) -> Result<u32, NoMemory>
    requires fine { IsFine search.old }
    requires ascend { (list : List Sig) → Contains origins.items list → IsStrictlySortedBy sig_cmp list }
    ensures rows { OnOk result (search.new.rows ≡ search.old.rows) }
    ensures cells { OnOk result (search.new.cells ≡ search.old.cells) }
    ensures changed { OnOk result (search.new.changed.items ≡ search.old.changed.items ++ origins.items) }
    ensures before { IfOk result (λ by. by ≡ length search.old.changed.items) }
    ensures small { OnOk result (length search.new.changed.items < 2 ^ 32) }
    ensures fine { OnOk result (IsFine search.new) }
{
    let Ok(by) = u32::try_from(search.changed.len()) else {
        return Err(NoMemory);
    };
    let mut origins = origins;
    search.changed.append(&mut origins)?;
    let Ok(_all) = u32::try_from(search.changed.len()) else {
        return Err(NoMemory);
    };
    Ok(by)
}

/// Takes up all that another search tells of the pairs of a region, of which this one names none yet. Costs a look-up in
/// an ordered map for each signature of the other, and a read and a write for each of these at each router of the region.
pub fn take_up(
    alloc: Global,
    search: &mut Search,
    topology: &Topology,
    region: u32,
    other: Search,
) -> Result<(), NoMemory>
    requires fine { IsFine search.old }
    requires other { IsFine other }
    requires blank { (n : Node) → IsAt topology.now region n → is_named search.old n ≡ false }
    ensures fine { OnOk result (IsFine search.new) }
    ensures taken { OnOk result (TakesUp topology.now region other search.old search.new) }
{
    topology_is_sound(topology);
    let lines = lines_of(alloc, &other.rows)?;
    let mut other = other;
    let mut origins = Vec::new(alloc);
    std::mem::swap(&mut origins, &mut other.changed);
    let by = keep_all(search, origins)?;
    take_rows(search, topology, region, &other, by, &lines)?;
    Ok(())
}
