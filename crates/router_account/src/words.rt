// What a watch and a read of the shelf may be answered.
use spie_base::PageNo;

/// Whether a signature was recorded in the pages of a window.
#[derive(Clone, Copy, PartialEq, Eq, Debug)]
pub enum Watch {
    Seen,
    NotSeen,
    /// It was seen in no page that is in memory, and a page of the window is not there.
    Unknown,
}

/// Why a page on the shelf could not be read. What a clause says of each cause is `IsCause`: none but `Failed` comes
/// where the shelf tells both true records of the page.
#[derive(Clone, Copy, PartialEq, Eq, Debug)]
pub enum Cause {
    /// A call to the shelf failed.
    Failed,
    /// What was got has another SHA-256 (`found`) than the true record (`kept`).
    Other { kept: [u8; 32], found: [u8; 32] },
    /// Nothing was got. Where the shelf tells its map, nothing is there.
    Absent,
    /// What was got has the right SHA-256, and is no record of this page. Then other bytes with that SHA-256 are known.
    Broken,
}

/// A page that could not be read.
#[derive(Clone, Copy, PartialEq, Eq, Debug)]
pub struct Unreadable {
    pub page: PageNo,
    pub cause: Cause,
}
