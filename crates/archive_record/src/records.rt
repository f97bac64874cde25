// Records, and why bytes are no record.
ghost use Rattle.std.specs.Prelude.{◌≡◌};
ghost use Rattle.archive_record.specs.Spelling.{bits_record};

use bloom_page::Page;
use packet_signature::Row;
use spie_base::{List, PageNo, RouterId};

/// The greatest number of bits of a position in a record with the magic `SPB1`. Records of larger pages have `SPB2`.
pub const SPB1_N_MOST: u8 = 16;

/// What a bits record says of its page besides the bits.
#[derive(Clone, Copy, PartialEq, Eq, Debug)]
pub struct BitsHead {
    /// Below 64.
    pub router: RouterId,
    pub page: PageNo,
    /// Marks of a signature, 1 to 8.
    pub k: u8,
    /// The seed of the page.
    pub seed: u64,
    /// When the page opened, below 2^48, in the trace's unit of time.
    pub opened: u64,
    /// When it closed, not before it opened, below 2^48.
    pub closed: u64,
}

/// The bits of a closed page, with the fields of a `BitsHead`. A position has `N_LEAST` to `N_MOST` bits.
#[derive(Drop)]
pub struct BitsRecord {
    pub router: RouterId,
    pub page: PageNo,
    pub k: u8,
    pub seed: u64,
    pub opened: u64,
    pub closed: u64,
    pub bits: Page,
}

impl BitsRecord {
    /// All but the bits.
    pub fn head(&self) -> BitsHead
        ensures { bits_record result self.now.bits ≡ self.now }
    {
        BitsHead {
            router: self.router,
            page: self.page,
            k: self.k,
            seed: self.seed,
            opened: self.opened,
            closed: self.closed,
        }
    }
}

/// The transforms of a closed page, at most 1,000,000, in the order in which they were made. The router is below 64.
#[derive(Drop)]
pub struct RowsRecord {
    pub router: RouterId,
    pub page: PageNo,
    pub rows: List<Row>,
}

/// One of the two records of a closed page.
#[derive(Drop)]
pub enum Record {
    Bits(BitsRecord),
    Rows(RowsRecord),
}

/// Why bytes were not decoded: the place of the first fault.
#[derive(Clone, Copy, PartialEq, Eq, Debug)]
pub enum DecodeRefused {
    NoMemory,
    Refused { place: usize },
}
