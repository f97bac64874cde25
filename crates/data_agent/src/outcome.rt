// What a barrier did at a router.
use spie_base::{List, PageNo};

/// What became of the pages that a segment's archival covers. Both lists ascend.
#[derive(PartialEq, Eq, Debug, Drop)]
pub struct Archived {
    /// Both records were put. One that expires at the same barrier was discarded there.
    pub put: List<PageNo>,
    /// Still in memory, since a put failed.
    pub kept: List<PageNo>,
}

/// The page that a tick closed, and how many of its bits are set.
#[derive(Clone, Copy, PartialEq, Eq, Debug)]
pub struct Closed {
    pub page: PageNo,
    pub bits: u32,
}

/// What a barrier did at a router.
#[derive(PartialEq, Eq, Debug, Drop)]
pub struct Barrier {
    /// What became of the pages of the segment's archival, where one came.
    pub archived: Option<Archived>,
    pub closed: Option<Closed>,
    /// Pages that expired, ascending, whose records the shelf failed to discard.
    pub left: List<PageNo>,
}
