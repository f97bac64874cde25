// What the lines of a report say.

use reverse_flood::{Edge, Node};
use spie_base::{List, PageNo, PageRange, RouterId};

/// Why a shelved page could not be read.
#[derive(Clone, Copy, PartialEq, Eq, Debug)]
pub enum CauseWord {
    /// The shelf failed.
    Failed,
    /// The bytes have another digest than was kept.
    Other,
    /// Nothing was there.
    Absent,
    /// The bytes have the digest that was kept and are not the page's record.
    Broken,
}

/// An unreadable page.
#[derive(Clone, Copy, PartialEq, Eq, Debug)]
pub struct Bad {
    pub page: PageNo,
    pub cause: CauseWord,
}

/// What one line of a report says. `line` is the number of the trace's line that it answers.
#[derive(PartialEq, Eq, Debug, Drop)]
pub enum Item {
    /// The first line of a report.
    Head,
    /// The page that a record entered.
    Entered {
        line: u64,
        page: PageNo,
    },
    /// The page that a rotation opened.
    Opened {
        line: u64,
        page: PageNo,
    },
    /// The pages that an archival put on the shelf, and those that it kept in memory. Both ascend.
    Archived {
        line: u64,
        router: RouterId,
        put: List<PageNo>,
        kept: List<PageNo>,
    },
    /// A watch saw its signature.
    Seen {
        line: u64,
    },
    /// A watch did not see its signature.
    NotSeen {
        line: u64,
    },
    /// A watch did not see its signature, and a page of its window was not at hand.
    Unknown {
        line: u64,
    },
    /// The clock was set.
    Tick {
        line: u64,
        time: u64,
    },
    /// The page that a tick closed, and how many of its bits are set.
    Closed {
        line: u64,
        router: RouterId,
        page: PageNo,
        bits: u32,
    },
    /// An expired page that could not be discarded from the shelf.
    Left {
        line: u64,
        router: RouterId,
        page: PageNo,
    },
    /// A query's answer begins.
    Query {
        line: u64,
    },
    /// A router's pages of a query's window: the first and the last expired one, if there is one, and the
    /// unreadable and the used ones, both ascending.
    Pages {
        line: u64,
        router: RouterId,
        expired: Option<PageRange>,
        unreadable: List<Bad>,
        used: List<PageNo>,
    },
    /// A node of a query's graph.
    NodeLine {
        line: u64,
        node: Node,
    },
    /// An edge of a query's graph.
    EdgeLine {
        line: u64,
        edge: Edge,
    },
    /// An asked pair that was not hit, at a router with missing pages.
    UnknownLine {
        line: u64,
        node: Node,
    },
    /// How many nodes, edges, unknown and clear pairs an answer has.
    Answer {
        line: u64,
        nodes: u64,
        edges: u64,
        unknown: u64,
        clear: u64,
    },
    /// The trace's last line.
    End {
        line: u64,
    },
}
