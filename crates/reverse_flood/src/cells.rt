// What a search keeps of pairs of a router and a signature.
ghost use Rattle.std.specs.Prelude.{◌≡◌, ◌<◌, ◌⊎◌, ◌++◌, Some, None, [], ◌∷◌, cond, not, true, false, length, IsTrue, IfOk, OnOk};
ghost use Rattle.std.specs.List.Sorted.{IsStrictlySortedBy};
ghost use Rattle.spie_base.specs.Order.{sig_cmp};
ghost use Rattle.reverse_flood.specs.Leads.{Settles};
ghost use Rattle.reverse_flood.specs.Rows.{node_eq, AreRows, KeepsRows};
ghost use Rattle.reverse_flood.specs.Search.{cell_at, is_known, is_named, rows_in, IsFine};
ghost use Rattle.reverse_flood.specs.declared.cells.Cell.TheVariants.{Changed};
ghost use Rattle.reverse_flood.specs.declared.graphs.Node.{Node};

use crate::Node;
use spie_base::{List, NoMemory, Sig};
use std::alloc::Global;
use std::collections::BTreeMap;
use topology::ROUTERS_MOST;

/// What is known of a pair.
#[derive(Clone, Copy, Drop)]
pub(crate) enum Cell {
    /// It is not named.
    Free,
    /// It is named and was not asked yet.
    Waiting,
    /// It was asked and is no hit.
    Unseen,
    /// It is a hit, and its own signature is its only origin.
    Alone,
    /// It is a hit, and its origins have this place among those that are kept.
    Changed(u32),
}

/// How far a search over pairs has come: which pairs are named, which were asked, and which are hits.
#[derive(Drop)]
pub struct Search {
    // where the row of a signature begins: a row has a cell for each of `ROUTERS_MOST` routers
    pub(crate) rows: BTreeMap<Sig, usize>,
    pub(crate) cells: Vec<Cell>,
    pub(crate) changed: Vec<List<Sig>>,
}

/// A search in which no pair is named.
pub fn no_names(alloc: Global) -> Search
    ensures fine { IsFine result }
    ensures none { (n : Node) → is_named result n ≡ false }
{
    Search {
        rows: BTreeMap::new(alloc),
        cells: Vec::new(alloc),
        changed: Vec::new(alloc),
    }
}

/// Where the row of a signature begins. A signature that is new gets an empty one.
pub(crate) fn row_of(search: &mut Search, sig: &Sig) -> Result<usize, NoMemory>
    requires { IsFine search.old }
    ensures fine { OnOk result (IsFine search.new) }
    ensures same { OnOk result ((n : Node) → n.router.number < ROUTERS_MOST → cell_at search.new n ≡ cell_at
        search.old n) }
    ensures changed { search.new.changed ≡ search.old.changed }
    ensures row { IfOk result (λ row. rows_in search.new sig.now ≡ Some row) }
    ensures kept { OnOk result (KeepsRows (rows_in search.old) (rows_in search.new)) }
{
    if let Some(row) = search.rows.get(sig) {
        return Ok(*row);
    }
    let row = search.cells.len();
    search.cells.extend_from_slice(&[Cell::Free; ROUTERS_MOST])?;
    search.rows.insert(*sig, row)?;
    Ok(row)
}

/// The cell of a pair, by the row of its signature.
pub(crate) fn read_cell(search: &Search, row: usize, node: &Node) -> Cell
    requires rows { AreRows (rows_in search.now) (length search.now.cells.items) }
    requires row { rows_in search.now node.now.sig ≡ Some row }
    requires few { node.now.router.number < ROUTERS_MOST }
    ensures { result ≡ cell_at search.now node.now }
{
    search.cells[row + node.router.number as usize]
}

/// Whether a pair was found, by the row of its signature if it has one.
pub(crate) fn is_found(search: &Search, row: Option<usize>, node: &Node) -> bool
    requires rows { AreRows (rows_in search.now) (length search.now.cells.items) }
    requires row { rows_in search.now node.now.sig ≡ row }
    requires few { node.now.router.number < ROUTERS_MOST }
    ensures { result ≡ is_known search.now node.now }
{
    match row {
        Some(row) => match read_cell(search, row, node) {
            Cell::Alone => true,
            Cell::Changed(_) => true,
            Cell::Free => false,
            Cell::Waiting => false,
            Cell::Unseen => false,
        },
        None => false,
    }
}

// Writes the cell of a pair.
pub(crate) fn put_cell(search: &mut Search, row: usize, node: &Node, cell: Cell)
    requires rows { AreRows (rows_in search.old) (length search.old.cells.items) }
    requires row { rows_in search.old node.now.sig ≡ Some row }
    requires few { node.now.router.number < ROUTERS_MOST }
    ensures rows { search.new.rows ≡ search.old.rows }
    ensures changed { search.new.changed ≡ search.old.changed }
    ensures size { length search.new.cells.items ≡ length search.old.cells.items }
    ensures cells { (n : Node) → n.router.number < ROUTERS_MOST → cell_at search.new n ≡ cond (node_eq node.now n)
        cell (cell_at search.old n) }
{
    search.cells[row + node.router.number as usize] = cell;
}

/// Whether a pair is named, by the row of its signature.
pub(crate) fn is_there(search: &Search, row: usize, node: &Node) -> bool
    requires rows { AreRows (rows_in search.now) (length search.now.cells.items) }
    requires row { rows_in search.now node.now.sig ≡ Some row }
    requires few { node.now.router.number < ROUTERS_MOST }
    ensures { result ≡ is_named search.now node.now }
{
    match read_cell(search, row, node) {
        Cell::Free => false,
        Cell::Waiting => true,
        Cell::Unseen => true,
        Cell::Alone => true,
        Cell::Changed(_) => true,
    }
}

/// Names a pair, by the row of its signature. Whether it was not named before.
pub(crate) fn name(search: &mut Search, row: usize, node: &Node) -> bool
    requires fine { IsFine search.old }
    requires row { rows_in search.old node.now.sig ≡ Some row }
    requires few { node.now.router.number < ROUTERS_MOST }
    ensures new { result ≡ not (is_named search.old node.now) }
    ensures fine { IsFine search.new }
    ensures rows { search.new.rows ≡ search.old.rows }
    ensures changed { search.new.changed ≡ search.old.changed }
    ensures named { is_named search.new node.now ≡ true }
    ensures kept { (n : Node) → n.router.number < ROUTERS_MOST → is_named search.old n ≡ true → cell_at search.new n
        ≡ cell_at search.old n }
    ensures only { (n : Node) → n.router.number < ROUTERS_MOST → is_named search.new n ≡ true → (is_named search.old
        n ≡ true) ⊎ (node.now ≡ n) }
{
    if is_there(search, row, node) {
        return false;
    }
    put_cell(search, row, node, Cell::Waiting);
    true
}

/// Notes of a pair that it was asked and is no hit.
pub(crate) fn note_unseen(search: &mut Search, row: usize, node: &Node)
    requires fine { IsFine search.old }
    requires row { rows_in search.old node.now.sig ≡ Some row }
    requires few { node.now.router.number < ROUTERS_MOST }
    ensures { Settles node.now false None search.old search.new }
{
    put_cell(search, row, node, Cell::Unseen);
}

// Keeps the origins of a pair. What a pair's cell is with them.
fn keep_origins(search: &mut Search, origins: Vec<Sig>) -> Result<Cell, NoMemory>
    requires fine { IsFine search.old }
    requires ascend { IsStrictlySortedBy sig_cmp origins.items }
    ensures rows { search.new.rows ≡ search.old.rows }
    ensures cells { search.new.cells ≡ search.old.cells }
    ensures changed { OnOk result (search.new.changed.items ≡ search.old.changed.items ++ origins.items ∷ []) }
    ensures cell { IfOk result (λ cell. cell ≡ Changed (length search.old.changed.items)) }
{
    let Ok(place) = u32::try_from(search.changed.len()) else {
        return Err(NoMemory);
    };
    search.changed.push(List::of(origins))?;
    Ok(Cell::Changed(place))
}

// Whether a signature is the only one of a list.
fn is_alone(sig: &Sig, origins: &[Sig]) -> bool
    ensures { IsTrue result → origins.now ≡ sig.now ∷ [] }
{
    match origins {
        [only] => only == sig,
        _ => false,
    }
}

/// Notes of a pair that it is a hit with these origins.
pub(crate) fn note_found(
    search: &mut Search,
    row: usize,
    node: &Node,
    origins: Vec<Sig>,
) -> Result<(), NoMemory>
    requires fine { IsFine search.old }
    requires row { rows_in search.old node.now.sig ≡ Some row }
    requires few { node.now.router.number < ROUTERS_MOST }
    requires ascend { IsStrictlySortedBy sig_cmp origins.items }
    ensures { OnOk result (Settles node.now true (Some origins.items) search.old search.new) }
{
    if is_alone(&node.sig, &origins) {
        put_cell(search, row, node, Cell::Alone);
        return Ok(());
    }
    let cell = keep_origins(search, origins)?;
    put_cell(search, row, node, cell);
    Ok(())
}
