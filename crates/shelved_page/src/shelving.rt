// The records of a closed page, put on a shelf and discarded.
ghost use Rattle.std.specs.Prelude.{◌≡◌, ◌≤◌, not, IfOk};
ghost use Rattle.archive_record.specs.Spelling.{AreBits, AreRows, bits_record, rows_record, spelled_bits, spelled_rows};
ghost use Rattle.page_shelf.specs.declared.ShelfPart.TheVariants.{Bits, Rows};
ghost use Rattle.router_account.specs.Records.{name_of};
ghost use Rattle.router_account.specs.Shelves.{ShelfView, view_of};
ghost use Rattle.shelved_page.specs.Shelving.{IsPut, IsDiscard, Clears};

use archive_record::{BitsHead, encode_bits, encode_rows};
use bloom_page::Page;
use packet_signature::Row;
use page_shelf::{Shelf, ShelfName, ShelfPart, ShelfRefused};
use sha2::{Digest, Sha256};
use spie_base::{NoMemory, PageNo, RouterId};
use std::alloc::Global;

/// The SHA-256 of the two records of a page.
#[derive(Clone, Copy, PartialEq, Eq, Debug)]
pub struct Digests {
    pub bits: [u8; 32],
    pub rows: [u8; 32],
}

// Puts a record, and gives its digest where the put did not fail.
fn put_record<H: Shelf>(
    alloc: Global,
    shelf: &mut H,
    name: &ShelfName,
    bytes: &[u8],
) -> Result<Option<[u8; 32]>, NoMemory>
    ensures later { H.faults shelf.old ≤ H.faults shelf.new }
    ensures still { H.tells shelf.new ≡ H.tells shelf.old }
    ensures put { let before = view_of H.tells H.contents H.faults shelf.old in
        let after = view_of H.tells H.contents H.faults shelf.new in
        IfOk result (λ digest. IsPut name.now bytes.now before after digest) }
{
    match shelf.put(alloc, name, bytes) {
        Ok(()) => Ok(Some(Sha256::digest(bytes))),
        Err(ShelfRefused::Failed) => Ok(None),
        Err(ShelfRefused::NoMemory) => Err(NoMemory),
    }
}

/// Puts the bits record of a page.
pub fn put_bits<H: Shelf>(
    alloc: Global,
    shelf: &mut H,
    head: &BitsHead,
    bits: &Page,
) -> Result<Option<[u8; 32]>, NoMemory>
    requires { AreBits (bits_record head.now bits.now) }
    ensures later { H.faults shelf.old ≤ H.faults shelf.new }
    ensures still { H.tells shelf.new ≡ H.tells shelf.old }
    ensures put { let before = view_of H.tells H.contents H.faults shelf.old in
        let after = view_of H.tells H.contents H.faults shelf.new in
        IfOk result (λ digest. IsPut (name_of head.now.router.number head.now.page.number Bits)
        (spelled_bits (bits_record head.now bits.now)) before after digest) }
{
    let name = ShelfName {
        router: head.router,
        page: head.page,
        part: ShelfPart::Bits,
    };
    let bytes = encode_bits(alloc, head, bits)?;
    put_record(alloc, shelf, &name, &bytes)
}

/// Puts the rows record of a page.
pub fn put_rows<H: Shelf>(
    alloc: Global,
    shelf: &mut H,
    router: RouterId,
    page: PageNo,
    rows: &[Row],
) -> Result<Option<[u8; 32]>, NoMemory>
    requires { AreRows (rows_record router page rows.now) }
    ensures later { H.faults shelf.old ≤ H.faults shelf.new }
    ensures still { H.tells shelf.new ≡ H.tells shelf.old }
    ensures put { let before = view_of H.tells H.contents H.faults shelf.old in
        let after = view_of H.tells H.contents H.faults shelf.new in
        IfOk result (λ digest. IsPut (name_of router.number page.number Rows)
        (spelled_rows (rows_record router page rows.now)) before after digest) }
{
    let name = ShelfName {
        router,
        page,
        part: ShelfPart::Rows,
    };
    let bytes = encode_rows(alloc, router, page, rows)?;
    put_record(alloc, shelf, &name, &bytes)
}

// Leaves nothing under a name. Says whether that did not fail.
fn discard_one<H: Shelf>(alloc: Global, shelf: &mut H, name: &ShelfName) -> Result<bool, NoMemory>
    ensures later { H.faults shelf.old ≤ H.faults shelf.new }
    ensures still { H.tells shelf.new ≡ H.tells shelf.old }
    ensures discarded { let before = view_of H.tells H.contents H.faults shelf.old in
        let after = view_of H.tells H.contents H.faults shelf.new in
        IfOk result (λ done. IsDiscard name.now before after done) }
{
    match shelf.discard(alloc, name) {
        Ok(()) => Ok(true),
        Err(ShelfRefused::Failed) => Ok(false),
        Err(ShelfRefused::NoMemory) => Err(NoMemory),
    }
}

/// Leaves nothing under both names of a page, of the bits first. Says whether neither call failed; the second is made
/// in any case.
pub fn discard_both<H: Shelf>(
    alloc: Global,
    shelf: &mut H,
    router: RouterId,
    page: PageNo,
) -> Result<bool, NoMemory>
    ensures later { H.faults shelf.old ≤ H.faults shelf.new }
    ensures still { H.tells shelf.new ≡ H.tells shelf.old }
    ensures cleared { let before = view_of H.tells H.contents H.faults shelf.old in
        let after = view_of H.tells H.contents H.faults shelf.new in
        IfOk result (λ cleared. Clears router.number page.number (not cleared) before after) }
{
    let mut name = ShelfName {
        router,
        page,
        part: ShelfPart::Bits,
    };
    let bits = discard_one(alloc, shelf, &name)?;
    name.part = ShelfPart::Rows;
    let rows = discard_one(alloc, shelf, &name)?;
    Ok(bits && rows)
}
