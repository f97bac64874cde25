// The rows with their three chains.
ghost use Rattle.std.specs.Prelude.{◌≡◌, ◌≢◌, ℕ, ◌<◌, ◌≤◌, List, [], ◌∷◌, ◌++◌, length, Option, Some, None, IfOk, OnOk};
ghost use Rattle.slab.specs.Slab.{get, slab_len, HasRoomFor, Updates};
ghost use Rattle.index_rings.specs.Rings.{Lacks, without};
ghost use Rattle.index_rings.specs.Orders.{chains_in, places_in, first_in, Holds};
ghost use Rattle.transform_table.specs.Chained.{AreChained, HasRoom};

use crate::line::Line;
use index_rings::Chains;
use slab::Slab;
use spie_base::{NoMemory, PageNo};
use std::alloc::Global;

/// Rows, and the three chains in which each stands.
#[derive(Drop)]
pub struct Filing {
    pub(crate) rows: Slab<Line>,
    pub(crate) all: Chains,
    pub(crate) buckets: Chains,
    pub(crate) pages: Chains,
}

/// How many buckets there are.
pub const BUCKETS: usize = 1_024;

/// No rows.
pub fn empty(alloc: Global) -> Result<Filing, NoMemory>
    ensures { IfOk result (λ f. AreChained f.rows f.all f.buckets f.pages []) }
{
    Ok(Filing {
        rows: Slab::new(alloc),
        all: Chains::with_chains(alloc, 1)?,
        buckets: Chains::with_chains(alloc, BUCKETS)?,
        pages: Chains::new(alloc),
    })
}

/// Makes room for a row more of a page. Nothing else changes, also where it fails.
pub fn make_room(filing: &mut Filing, page: PageNo) -> Result<(), NoMemory>
    ensures room { OnOk result
        (HasRoom filing.new.rows filing.new.all filing.new.buckets filing.new.pages page.number) }
    ensures slots { filing.new.rows ≡ record filing.old.rows { capacity = filing.new.rows.capacity } }
    ensures stands { (order : List ℕ) → AreChained filing.old.rows filing.old.all filing.old.buckets filing.old.pages order
        → AreChained filing.new.rows filing.new.all filing.new.buckets filing.new.pages order }
{
    filing.rows.reserve(1)?;
    let place = filing.rows.vacant_key();
    filing.all.cover_place(place)?;
    filing.buckets.cover_place(place)?;
    cover_page(&mut filing.pages, page, place)?;
    Ok(())
}

// Makes room for a place in a page's chain.
fn cover_page(pages: &mut Chains, page: PageNo, place: usize) -> Result<(), NoMemory>
    ensures place { OnOk result (place < places_in pages.new) }
    ensures chain { OnOk result (page.number < chains_in pages.new) }
    ensures more { chains_in pages.old ≤ chains_in pages.new }
    ensures kept { (label : ℕ → ℕ) → (order : List ℕ) → Holds pages.old label order → Holds pages.new label order }
{
    pages.cover_place(place)?;
    pages.cover_chain(page.number as usize)?;
    Ok(())
}

/// The first place of a page's chain.
pub fn first_of(filing: &Filing, page: PageNo) -> Option<usize>
    ensures { result ≡ first_in filing.now.pages page.number }
{
    let chain = page.number as usize;
    if chain < filing.pages.len() {
        filing.pages.first(chain)
    } else {
        None
    }
}

/// Puts a row at the end of its three chains.
pub fn insert(filing: &mut Filing, line: Line) -> usize
    requires room { HasRoom filing.old.rows filing.old.all filing.old.buckets filing.old.pages line.page.number }
    requires stands { (order : List ℕ)
        × AreChained filing.old.rows filing.old.all filing.old.buckets filing.old.pages order }
    ensures row { Updates filing.old.rows filing.new.rows result (Some line) }
    ensures vacant { get filing.old.rows result ≡ None }
    ensures stands { (order : List ℕ) → AreChained filing.old.rows filing.old.all filing.old.buckets filing.old.pages order
        → AreChained filing.new.rows filing.new.all filing.new.buckets filing.new.pages (order ++ result ∷ []) }
{
    let place = filing.rows.insert_reserved(line);
    let bucket = (line.key % BUCKETS as u64) as usize;
    let page = line.page.number as usize;
    filing.all.append(0, place);
    filing.buckets.append(bucket, place);
    filing.pages.append(page, place);
    place
}

/// Takes a row out of its three chains.
pub fn remove(filing: &mut Filing, place: usize) -> Line
    requires stands { (order : List ℕ) × AreChained filing.old.rows filing.old.all filing.old.buckets filing.old.pages order
        × (Lacks order place → ⊥) }
    ensures row { get filing.old.rows place ≡ Some result }
    ensures rows { Updates filing.old.rows filing.new.rows place None }
    ensures stands { (order : List ℕ) → AreChained filing.old.rows filing.old.all filing.old.buckets filing.old.pages order
        → AreChained filing.new.rows filing.new.all filing.new.buckets filing.new.pages (without place order) }
{
    let line = filing.rows.remove(place);
    let bucket = (line.key % BUCKETS as u64) as usize;
    let page = line.page.number as usize;
    filing.all.take_out(0, place);
    filing.buckets.take_out(bucket, place);
    filing.pages.take_out(page, place);
    line
}
