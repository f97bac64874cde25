ghost use Rattle.std.specs.Prelude.{◌≡◌, ◌+◌, [], ◌∷◌, ◌++◌, length, IfOk, OnOk, OnErr};
ghost use Rattle.std.specs.Bool.{OnTrue, OnFalse};
ghost use Rattle.std.specs.List.{list_any};
ghost use Rattle.transform_table.specs.Tables.{has_key, with_key, rows_of_page, without_page, different_olds};

use crate::Found;
use crate::filing::{BUCKETS, Filing, empty, first_of, insert, make_room, remove};
use crate::line::Line;
use crate::rows::{give_up, keep, rows_at};
use indirect_store::Store;
use packet_signature::Row;
use spie_base::{NoMemory, PageNo};
use std::alloc::Global;
use std::marker::Model;

/// The rows of a router's transforms, each with the page in which the new signature was recorded.
#[derive(Drop)]
pub struct Table {
    filing: Filing,
    olds: Store,
}

impl Model for Table {
    ghost use Rattle.std.specs.Prelude.{List};
    ghost use Rattle.spie_base.specs.declared.types.PageNo.{PageNo};
    ghost use Rattle.packet_signature.specs.declared.rows.Row.{Row};
    ghost use Rattle.transform_table.specs.Rows.{pairs_in};
    ghost use Rattle.transform_table.specs.Chained.{IsTable};

    ghost Value = { List (PageNo × Row) };

    ghost view = { λ t. pairs_in t.filing.rows t.filing.all t.olds };

    ghost invariant = { λ t. IsTable t.filing.rows t.filing.all t.filing.buckets t.filing.pages t.olds };
}

impl Table {
    /// No rows. Allocates the chains of 2,048 buckets, 16 bytes each.
    pub fn new(alloc: Global) -> Result<Table, NoMemory>
        ensures { IfOk result (λ table. table ≡ []) }
    {
        Ok(Table {
            filing: empty(alloc)?,
            olds: Store::new(alloc)?,
        })
    }

    /// Adds a row behind all others. Costs three links; and where the row keeps a whole signature, one SHA-256 and a
    /// look at each old signature of one bucket of 1,024.
    ///
    /// Takes 16 bytes for each page up to the greatest one that had a row, and never gives these back.
    pub fn add(&mut self, alloc: Global, page: PageNo, row: &Row) -> Result<(), NoMemory>
        ensures added { OnOk result (self.new ≡ self.old ++ (page, row.now) ∷ []) }
        ensures unchanged { OnErr result (self.new ≡ self.old) }
    {
        make_room(&mut self.filing, page)?;
        let kept = keep(&mut self.olds, alloc, &row.old)?;
        let line = Line {
            page,
            key: row.key,
            kind: row.kind,
            kept,
        };
        insert(&mut self.filing, line);
        Ok(())
    }

    /// The rows with this key, in the order of adding. Takes no memory, here and at each step; costs a look at each row
    /// of one bucket of 1,024 in all.
    pub fn find(&self, key: u64) -> Found<'_>
        ensures { result ≡ with_key key self.now }
    {
        let bucket = (key % BUCKETS as u64) as usize;
        Found {
            places: self.filing.buckets.places(bucket, self.filing.rows.len()),
            rows: &self.filing.rows,
            olds: &self.olds,
            key,
        }
    }

    /// Whether a row has this key. Costs what `find` costs up to the first such row.
    pub fn has(&self, key: u64) -> bool
        ensures { result ≡ list_any (has_key key) self.now }
    {
        self.find(key).next().is_some()
    }

    /// Leaves out the rows of a page. Takes no memory; costs three links a row of that page, and one SHA-256 for each old
    /// signature that no other row keeps.
    pub fn drop_page(&mut self, page: PageNo)
        ensures { self.new ≡ without_page page.number self.old }
    {
        while self.drop_first(page) {}
    }

    /// The rows of a page, in the order of adding.
    pub fn rows_of(&self, alloc: Global, page: PageNo) -> Result<Vec<Row>, NoMemory>
        ensures { IfOk result (λ rows. rows.items ≡ rows_of_page page.number self.now) }
    {
        let chain = page.number as usize;
        if chain >= self.filing.pages.len() {
            return Ok(Vec::new(alloc));
        }
        let places = self.filing.pages.places(chain, self.filing.rows.len());
        rows_at(alloc, &self.filing.rows, &self.olds, places)
    }

    /// How many different old signatures the rows keep whole.
    pub fn olds(&self) -> usize
        ensures { result ≡ different_olds self.now }
    {
        self.olds.len()
    }

    // Takes out the first row of a page, where it has one.
    fn drop_first(&mut self, page: PageNo) -> bool
        ensures others { without_page page.number self.new ≡ without_page page.number self.old }
        ensures fewer { OnTrue result (length self.new + 1 ≡ length self.old) }
        ensures none { OnFalse result (self.new ≡ without_page page.number self.old) }
    {
        let Some(place) = first_of(&self.filing, page) else {
            return false;
        };
        let line = remove(&mut self.filing, place);
        give_up(&mut self.olds, line.kept);
        true
    }
}
