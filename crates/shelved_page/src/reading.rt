// A closed page, read back from a shelf: what was got is compared with the digests that were kept.
ghost use Rattle.std.specs.Prelude.{◌≡◌, ◌≤◌, ◌^◌, true, false, IfOk, length, List, ℕ};
ghost use Rattle.sha2.specs.Sha256.{sha256};
ghost use Rattle.spie_base.specs.declared.Rules.{Rules as TheRules};
ghost use Rattle.archive_record.specs.declared.Record.{Record as TheRecord};
ghost use Rattle.archive_record.specs.Spelling.{AreBits, Fits, IsPlain, spelled};
ghost use Rattle.page_shelf.specs.declared.ShelfPart.TheVariants.{Bits, Rows};
ghost use Rattle.router_account.specs.Account.{Account};
ghost use Rattle.router_account.specs.Records.{name_of, head_of, true_text};
ghost use Rattle.router_account.specs.Shelves.{ShelfView, view_of};
ghost use Rattle.shelved_page.specs.declared.reading.Fetched.TheVariants.{Found};
ghost use Rattle.shelved_page.specs.Reading.{Gets, IsFetched, IsJudged, IsHead, IsBitsBack, IsRowsBack, IsBack, IsTrueBits, IsTrueRows, true_bits, true_rows, as_bits, as_rows, failed_get, failed_bits, failed_rows, failed_back};

use crate::shelving::Digests;
use archive_record::{BitsHead, BitsRecord, DecodeRefused, Record, RowsRecord, decode};
use bloom_page::Page;
use packet_signature::Row;
use page_shelf::{Shelf, ShelfName, ShelfPart, ShelfRefused};
use router_account::Cause;
use sha2::{Digest, Sha256};
use spie_base::{List, N_LEAST, N_MOST, NoMemory, PageNo, RouterId};
use std::alloc::Global;

// The greatest records: 40 bytes and the words of the greatest page; 16 bytes and a million rows.
const MOST_BITS: usize = 40 + 8 * (1 << (N_MOST - N_LEAST));

const MOST_ROWS: usize = 38_000_016;

/// What came of getting a record.
#[derive(Drop)]
pub enum Fetched {
    Found(Record),
    Lost(Cause),
}

/// What came of getting a bits record.
#[derive(Drop)]
pub enum BitsBack {
    GotBits(Page),
    LostBits(Cause),
}

/// What came of getting a rows record.
#[derive(Drop)]
pub enum RowsBack {
    GotRows(List<Row>),
    LostRows(Cause),
}

/// What was read of a page.
#[derive(Drop)]
pub struct Content {
    pub bits: Page,
    pub rows: List<Row>,
}

/// What came of reading a page back.
#[derive(Drop)]
pub enum Back {
    Got(Content),
    Bad(Cause),
}

// Compares what was got with the digest that was kept, and reads it.
fn judge(alloc: Global, bytes: &[u8], digest: &[u8; 32]) -> Result<Fetched, NoMemory>
    ensures { IfOk result (λ got. (value : TheRecord) → Fits value → IsPlain value
        → digest.now ≡ sha256 (spelled value) → IsJudged value bytes.now got) }
{
    let found = Sha256::digest(bytes);
    if found != *digest {
        return Ok(Fetched::Lost(Cause::Other {
            kept: *digest,
            found,
        }));
    }
    match decode(alloc, bytes) {
        Ok(value) => Ok(Fetched::Found(value)),
        Err(DecodeRefused::Refused { .. }) => Ok(Fetched::Lost(Cause::Broken)),
        Err(DecodeRefused::NoMemory) => Err(NoMemory),
    }
}

// Gets a record, and compares its digest with the one that was kept.
fn fetch<H: Shelf>(
    alloc: Global,
    shelf: &mut H,
    name: &ShelfName,
    most: usize,
    digest: &[u8; 32],
) -> Result<Fetched, NoMemory>
    ensures gets { let before = view_of H.tells H.contents H.faults shelf.old in
        let after = view_of H.tells H.contents H.faults shelf.new in
        Gets before after }
    ensures got { let before = view_of H.tells H.contents H.faults shelf.old in
        let after = view_of H.tells H.contents H.faults shelf.new in
        IfOk result (λ got. (value : TheRecord) → Fits value → IsPlain value
        → digest.now ≡ sha256 (spelled value) → length (spelled value) ≤ most
        → IsFetched name.now value before after got) }
    ensures kept { IfOk result (λ got. failed_get got ≡ false → H.faults shelf.new ≡ H.faults shelf.old) }
{
    let bytes = match shelf.get(alloc, name, most) {
        Ok(Some(bytes)) => bytes,
        Ok(None) => return Ok(Fetched::Lost(Cause::Absent)),
        Err(ShelfRefused::Failed) => return Ok(Fetched::Lost(Cause::Failed)),
        Err(ShelfRefused::NoMemory) => return Err(NoMemory),
    };
    judge(alloc, &bytes, digest)
}

// Whether a bits record is of this page.
fn is_of(head: &BitsHead, n: u8, r: &BitsRecord) -> bool
    ensures { (rules : TheRules) (a : Account) (page : ℕ)
        → head.now ≡ head_of rules a page → n ≡ rules.n → IsHead rules a page r.now result }
{
    if r.router.number != head.router.number {
        return false;
    }
    if r.page.number != head.page.number {
        return false;
    }
    if r.k != head.k {
        return false;
    }
    if r.seed != head.seed {
        return false;
    }
    if r.opened != head.opened {
        return false;
    }
    if r.closed != head.closed {
        return false;
    }
    r.bits.n() == n
}

// A bits record that was got, by its head.
fn by_head(head: &BitsHead, n: u8, r: BitsRecord) -> BitsBack
    ensures got { (rules : TheRules) (a : Account) (page : ℕ) (before after : ShelfView)
        → head.now ≡ head_of rules a page → n ≡ rules.n
        → IsFetched (name_of a.router page Bits) (as_bits (true_bits rules a page)) before after (Found (as_bits r))
        → IsBitsBack rules a page before after result }
    ensures kept { failed_bits result ≡ false }
{
    if is_of(head, n, &r) {
        BitsBack::GotBits(r.bits)
    } else {
        BitsBack::LostBits(Cause::Broken)
    }
}

// What was got in place of a page's bits record.
fn bits_back(head: &BitsHead, n: u8, got: Fetched) -> BitsBack
    ensures got { (rules : TheRules) (a : Account) (page : ℕ) (before after : ShelfView)
        → head.now ≡ head_of rules a page → n ≡ rules.n
        → IsFetched (name_of a.router page Bits) (as_bits (true_bits rules a page)) before after got
        → IsBitsBack rules a page before after result }
    ensures kept { failed_bits result ≡ failed_get got }
{
    match got {
        Fetched::Found(Record::Bits(r)) => by_head(head, n, r),
        Fetched::Found(Record::Rows(_)) => BitsBack::LostBits(Cause::Broken),
        Fetched::Lost(cause) => BitsBack::LostBits(cause),
    }
}

// A rows record that was got, by its head.
fn by_rows_head(router: RouterId, page: PageNo, r: RowsRecord) -> RowsBack
    ensures got { (a : Account) (before after : ShelfView) → router.number ≡ a.router
        → IsFetched (name_of a.router page.number Rows) (as_rows (true_rows a page.number))
        before after (Found (as_rows r))
        → IsRowsBack a page.number before after result }
    ensures kept { failed_rows result ≡ false }
{
    if r.router.number != router.number {
        return RowsBack::LostRows(Cause::Broken);
    }
    if r.page.number != page.number {
        return RowsBack::LostRows(Cause::Broken);
    }
    RowsBack::GotRows(r.rows)
}

// What was got in place of a page's rows record.
fn rows_back(router: RouterId, page: PageNo, got: Fetched) -> RowsBack
    ensures got { (a : Account) (before after : ShelfView) → router.number ≡ a.router
        → IsFetched (name_of a.router page.number Rows) (as_rows (true_rows a page.number)) before after got
        → IsRowsBack a page.number before after result }
    ensures kept { failed_rows result ≡ failed_get got }
{
    match got {
        Fetched::Found(Record::Rows(r)) => by_rows_head(router, page, r),
        Fetched::Found(Record::Bits(_)) => RowsBack::LostRows(Cause::Broken),
        Fetched::Lost(cause) => RowsBack::LostRows(cause),
    }
}

// Gets the bits record of a page.
fn fetch_bits<H: Shelf>(
    alloc: Global,
    shelf: &mut H,
    head: &BitsHead,
    n: u8,
    digest: &[u8; 32],
) -> Result<BitsBack, NoMemory>
    ensures gets { let before = view_of H.tells H.contents H.faults shelf.old in
        let after = view_of H.tells H.contents H.faults shelf.new in
        Gets before after }
    ensures got { let before = view_of H.tells H.contents H.faults shelf.old in
        let after = view_of H.tells H.contents H.faults shelf.new in
        IfOk result (λ got. (rules : TheRules) (a : Account) (page : ℕ)
        → head.now ≡ head_of rules a page → n ≡ rules.n → IsTrueBits rules a page
        → digest.now ≡ sha256 (true_text rules a page Bits) → IsBitsBack rules a page before after got) }
    ensures kept { IfOk result (λ got. failed_bits got ≡ false → H.faults shelf.new ≡ H.faults shelf.old) }
{
    let name = ShelfName {
        router: head.router,
        page: head.page,
        part: ShelfPart::Bits,
    };
    let got = fetch(alloc, shelf, &name, MOST_BITS, digest)?;
    Ok(bits_back(head, n, got))
}

// Gets the rows record of a page.
fn fetch_rows<H: Shelf>(
    alloc: Global,
    shelf: &mut H,
    router: RouterId,
    page: PageNo,
    digest: &[u8; 32],
) -> Result<RowsBack, NoMemory>
    ensures gets { let before = view_of H.tells H.contents H.faults shelf.old in
        let after = view_of H.tells H.contents H.faults shelf.new in
        Gets before after }
    ensures got { let before = view_of H.tells H.contents H.faults shelf.old in
        let after = view_of H.tells H.contents H.faults shelf.new in
        IfOk result (λ got. (rules : TheRules) (a : Account)
        → router.number ≡ a.router → IsTrueRows a page.number
        → digest.now ≡ sha256 (true_text rules a page.number Rows) → IsRowsBack a page.number before after got) }
    ensures kept { IfOk result (λ got. failed_rows got ≡ false → H.faults shelf.new ≡ H.faults shelf.old) }
{
    let name = ShelfName {
        router,
        page,
        part: ShelfPart::Rows,
    };
    let got = fetch(alloc, shelf, &name, MOST_ROWS, digest)?;
    Ok(rows_back(router, page, got))
}

/// Reads a page back: its bits record first, and its rows record only where that was got.
pub fn read_back<H: Shelf>(
    alloc: Global,
    shelf: &mut H,
    head: &BitsHead,
    n: u8,
    digests: &Digests,
) -> Result<Back, NoMemory>
    ensures gets { let before = view_of H.tells H.contents H.faults shelf.old in
        let after = view_of H.tells H.contents H.faults shelf.new in
        Gets before after }
    ensures got { let before = view_of H.tells H.contents H.faults shelf.old in
        let after = view_of H.tells H.contents H.faults shelf.new in
        IfOk result (λ got. (rules : TheRules) (a : Account) (page : ℕ)
        → head.now ≡ head_of rules a page → n ≡ rules.n → IsTrueBits rules a page → IsTrueRows a page
        → digests.now.bits ≡ sha256 (true_text rules a page Bits)
        → digests.now.rows ≡ sha256 (true_text rules a page Rows) → IsBack rules a page before after got) }
    ensures kept { IfOk result (λ got. failed_back got ≡ false → H.faults shelf.new ≡ H.faults shelf.old) }
{
    let bits = match fetch_bits(alloc, shelf, head, n, &digests.bits)? {
        BitsBack::GotBits(bits) => bits,
        BitsBack::LostBits(cause) => return Ok(Back::Bad(cause)),
    };
    let rows = match fetch_rows(alloc, shelf, head.router, head.page, &digests.rows)? {
        RowsBack::GotRows(rows) => rows,
        RowsBack::LostRows(cause) => return Ok(Back::Bad(cause)),
    };
    Ok(Back::Got(Content { bits, rows }))
}
