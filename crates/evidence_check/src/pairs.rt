// What is known of pairs of a router and a signature while the lines of an answer are judged.
ghost use Rattle.std.specs.Prelude.{◌≡◌, ◌<◌, Some, IfOk, OnOk, cond, length};
ghost use Rattle.reverse_flood.specs.Rows.{node_eq, AreRows, KeepsRows};
ghost use Rattle.reverse_flood.specs.declared.graphs.Node.{Node};
ghost use Rattle.evidence_check.specs.Pairs.{cell_at, is_asked, is_free, is_listed, is_node, rows_in, IsFine};
ghost use Rattle.evidence_check.specs.declared.pairs.Cell.TheVariants.{Free};

use reverse_flood::Node;
use spie_base::{NoMemory, Sig};
use std::alloc::Global;
use std::collections::BTreeMap;
use topology::ROUTERS_MOST;

/// What is known of a pair.
#[derive(Clone, Copy, PartialEq, Eq, Debug, Drop)]
pub(crate) enum Cell {
    /// Nothing.
    Free,
    /// A line names it as a node.
    Node,
    /// It is the start or one step back from a node, and was not told.
    Asked,
    /// It is so too, and a line tells it as unknown or clear.
    Told,
}

/// A row of cells for each signature, and in it one for each router that there can be.
#[derive(Drop)]
pub(crate) struct Pairs {
    pub(crate) rows: BTreeMap<Sig, usize>,
    pub(crate) cells: Vec<Cell>,
}

impl Pairs {
    /// Nothing is known.
    pub(crate) fn new(alloc: Global) -> Pairs
        ensures fine { IsFine result }
        ensures none { (n : Node) → cell_at result n ≡ Free }
    {
        Pairs {
            rows: BTreeMap::new(alloc),
            cells: Vec::new(alloc),
        }
    }

    /// Where the row of a signature begins. A signature that is new gets an empty one.
    fn row_of(&mut self, sig: &Sig) -> Result<usize, NoMemory>
        requires { IsFine self.old }
        ensures fine { OnOk result (IsFine self.new) }
        ensures same { OnOk result ((n : Node) → n.router.number < ROUTERS_MOST → cell_at self.new n ≡ cell_at
            self.old n) }
        ensures row { IfOk result (λ row. rows_in self.new sig.now ≡ Some row) }
    {
        if let Some(row) = self.rows.get(sig) {
            return Ok(*row);
        }
        let row = self.cells.len();
        self.cells.extend_from_slice(&[Cell::Free; ROUTERS_MOST])?;
        self.rows.insert(*sig, row)?;
        Ok(row)
    }

    // Reads the cell of a pair, by the row of its signature.
    fn read(&self, row: usize, node: &Node) -> Cell
        requires fine { IsFine self.now }
        requires row { rows_in self.now node.now.sig ≡ Some row }
        requires few { node.now.router.number < ROUTERS_MOST }
        ensures { result ≡ cell_at self.now node.now }
    {
        self.cells[row + node.router.number as usize]
    }

    /// What is known of a pair.
    pub(crate) fn get(&self, node: &Node) -> Cell
        requires fine { IsFine self.now }
        requires few { node.now.router.number < ROUTERS_MOST }
        ensures { result ≡ cell_at self.now node.now }
    {
        match self.rows.get(&node.sig) {
            Some(row) => self.read(*row, node),
            None => Cell::Free,
        }
    }

    /// Whether a line names a pair as a node.
    pub(crate) fn is_node(&self, node: &Node) -> bool
        requires fine { IsFine self.now }
        requires few { node.now.router.number < ROUTERS_MOST }
        ensures { result ≡ is_node self.now node.now }
    {
        match self.get(node) {
            Cell::Node => true,
            Cell::Free => false,
            Cell::Asked => false,
            Cell::Told => false,
        }
    }

    /// Whether a pair is known to be the start, or one step back from a node. Of nodes it says no.
    pub(crate) fn is_asked(&self, node: &Node) -> bool
        requires fine { IsFine self.now }
        requires few { node.now.router.number < ROUTERS_MOST }
        ensures { result ≡ is_asked self.now node.now }
    {
        match self.get(node) {
            Cell::Asked => true,
            Cell::Told => true,
            Cell::Free => false,
            Cell::Node => false,
        }
    }

    /// Whether nothing is known of a pair.
    pub(crate) fn is_free(&self, node: &Node) -> bool
        requires fine { IsFine self.now }
        requires few { node.now.router.number < ROUTERS_MOST }
        ensures { result ≡ is_free self.now node.now }
    {
        match self.get(node) {
            Cell::Free => true,
            Cell::Node => false,
            Cell::Asked => false,
            Cell::Told => false,
        }
    }

    /// Whether a line names a pair as a node, or tells it as unknown or clear.
    pub(crate) fn is_listed(&self, node: &Node) -> bool
        requires fine { IsFine self.now }
        requires few { node.now.router.number < ROUTERS_MOST }
        ensures { result ≡ is_listed self.now node.now }
    {
        match self.get(node) {
            Cell::Node => true,
            Cell::Told => true,
            Cell::Free => false,
            Cell::Asked => false,
        }
    }

    // Writes the cell of a pair, by the row of its signature.
    fn put(&mut self, row: usize, node: &Node, cell: Cell)
        requires fine { IsFine self.old }
        requires row { rows_in self.old node.now.sig ≡ Some row }
        requires few { node.now.router.number < ROUTERS_MOST }
        ensures fine { IsFine self.new }
        ensures cells { (n : Node) → n.router.number < ROUTERS_MOST → cell_at self.new n ≡ cond (node_eq node.now n)
            cell (cell_at self.old n) }
    {
        self.cells[row + node.router.number as usize] = cell;
    }

    /// Notes what is known of a pair.
    pub(crate) fn note(&mut self, node: &Node, cell: Cell) -> Result<(), NoMemory>
        requires fine { IsFine self.old }
        requires few { node.now.router.number < ROUTERS_MOST }
        ensures fine { OnOk result (IsFine self.new) }
        ensures cells { OnOk result ((n : Node) → n.router.number < ROUTERS_MOST → cell_at self.new n
            ≡ cond (node_eq node.now n) cell (cell_at self.old n)) }
    {
        let row = self.row_of(&node.sig)?;
        self.put(row, node, cell);
        Ok(())
    }
}
