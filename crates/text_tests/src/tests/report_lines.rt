// The lines of a report, and the parts of which other texts make such lines.
ghost use Rattle.std.specs.Prelude.{◌<◌, length};

use line_text::{push, push_count, push_counted, push_field, push_number, push_word};
use report_text::{Bad, CauseWord, Item, push_entered, push_item};
use reverse_flood::{Edge, Node};
use spie_base::{List, PageNo, PageRange, RouterId, Sig};
use std::alloc::{AllocError, Global};
use std::rt::HostRuntime;
use std::test::Fail;
use topology::Topology;

const FIRST: RouterId = RouterId { number: 0 };

const PAGE: PageNo = PageNo { number: 12 };

const ZERO: Node = Node {
    router: FIRST,
    sig: Sig { bytes: [0; 28] },
};

const RANGE: PageRange = PageRange {
    first: PageNo { number: 1 },
    last: PageNo { number: 2 },
};

const CAUSES: [(u32, CauseWord); 4] = [
    (3, CauseWord::Failed),
    (4, CauseWord::Other),
    (5, CauseWord::Absent),
    (16, CauseWord::Broken),
];

const ENTERED: &[u8] = b"10 in 12\n";

const PLAIN: &[u8] = b"\
spie-report 1\n\
10 in 12\n\
7 opened 12\n\
1 seen\n\
2 not-seen\n\
3 unknown\n\
4 tick 281474976710655\n\
5 query\n\
6 answer nodes 1 edges 2 unknown 3 clear 40\n\
1000000 end\n\
";

const NAMED: &[u8] = b"\
9 archived gw-2.x put 1,2,30 kept -\n\
9 closed gw-2.x 12 77\n\
9 left gw-2.x 12\n\
9 pages gw-2.x expired 1-2 unreadable 3:failed,4:other,5:absent,16:broken used 17\n\
9 pages gw-2.x expired - unreadable - used -\n\
5 node gw-2.x 00000000000000000000000000000000000000000000000000000000\n\
5 unknown gw-2.x 00000000000000000000000000000000000000000000000000000000\n\
5 edge gw-2.x 00000000000000000000000000000000000000000000000000000000 gw-2.x 00000000000000000000000000000000000000000000000000000000\n\
";

const PARTS: &[u8] = b"\
7 word\n\
18446744073709551615 a-word-that-is-longer-than-others 0\n\
0 in 18446744073709551615\n\
12 x 34\n\
";

fn pages(alloc: Global, numbers: &[u32]) -> Result<List<PageNo>, AllocError> {
    let mut pages = Vec::new(alloc);
    for number in numbers {
        pages.push(PageNo { number: *number })?;
    }
    Ok(List::of(pages))
}

fn unreadable(alloc: Global) -> Result<List<Bad>, AllocError> {
    let mut bads = Vec::new(alloc);
    for (number, cause) in &CAUSES {
        bads.push(Bad {
            page: PageNo { number: *number },
            cause: *cause,
        })?;
    }
    Ok(List::of(bads))
}

#[test]
fn items_without_routers(rt: HostRuntime) -> Result<(), Fail> {
    let alloc = rt.alloc();
    let topology = Topology::new(alloc)?;
    let mut out = Vec::new(alloc);
    push_item(&mut out, &topology, &Item::Head)?;
    push_item(
        &mut out,
        &topology,
        &Item::Entered {
            line: 10,
            page: PAGE,
        },
    )?;
    push_item(
        &mut out,
        &topology,
        &Item::Opened {
            line: 7,
            page: PAGE,
        },
    )?;
    push_item(&mut out, &topology, &Item::Seen { line: 1 })?;
    push_item(&mut out, &topology, &Item::NotSeen { line: 2 })?;
    push_item(&mut out, &topology, &Item::Unknown { line: 3 })?;
    let time = 281_474_976_710_655;
    push_item(&mut out, &topology, &Item::Tick { line: 4, time })?;
    push_item(&mut out, &topology, &Item::Query { line: 5 })?;
    let answer = Item::Answer {
        line: 6,
        nodes: 1,
        edges: 2,
        unknown: 3,
        clear: 40,
    };
    push_item(&mut out, &topology, &answer)?;
    push_item(&mut out, &topology, &Item::End { line: 1_000_000 })?;
    assert_eq!(rt; out.as_slice(), PLAIN);
    Ok(())
}

#[test]
fn record_without_an_item(rt: HostRuntime) -> Result<(), Fail> {
    let mut out = Vec::new(rt.alloc());
    push_entered(&mut out, 10, PAGE)?;
    assert_eq!(rt; out.as_slice(), ENTERED);
    Ok(())
}

// A router's pages.
fn push_pages(alloc: Global, out: &mut Vec<u8>, topology: &Topology) -> Result<(), Fail>
    requires { 0 < length topology.now.names }
{
    let archived = Item::Archived {
        line: 9,
        router: FIRST,
        put: pages(alloc, &[1, 2, 30])?,
        kept: pages(alloc, &[])?,
    };
    push_item(out, topology, &archived)?;
    let closed = Item::Closed {
        line: 9,
        router: FIRST,
        page: PAGE,
        bits: 77,
    };
    push_item(out, topology, &closed)?;
    let left = Item::Left {
        line: 9,
        router: FIRST,
        page: PAGE,
    };
    push_item(out, topology, &left)?;
    Ok(())
}

// The pages of a query's window.
fn push_windows(alloc: Global, out: &mut Vec<u8>, topology: &Topology) -> Result<(), Fail>
    requires { 0 < length topology.now.names }
{
    let full = Item::Pages {
        line: 9,
        router: FIRST,
        expired: Some(RANGE),
        unreadable: unreadable(alloc)?,
        used: pages(alloc, &[17])?,
    };
    push_item(out, topology, &full)?;
    let empty = Item::Pages {
        line: 9,
        router: FIRST,
        expired: None,
        unreadable: List::of(Vec::new(alloc)),
        used: pages(alloc, &[])?,
    };
    push_item(out, topology, &empty)?;
    Ok(())
}

// A query's graph.
fn push_graph(out: &mut Vec<u8>, topology: &Topology) -> Result<(), Fail>
    requires { 0 < length topology.now.names }
{
    let (line, node) = (5, ZERO);
    let edge = Edge {
        down: ZERO,
        up: ZERO,
    };
    push_item(out, topology, &Item::NodeLine { line, node })?;
    push_item(out, topology, &Item::UnknownLine { line, node })?;
    push_item(out, topology, &Item::EdgeLine { line, edge })?;
    Ok(())
}

#[test]
fn items_of_a_router(rt: HostRuntime) -> Result<(), Fail> {
    let alloc = rt.alloc();
    let mut topology = Topology::new(alloc)?;
    if topology.add_router(alloc, b"gw-2.x", b"east").is_err() {
        return Err(Fail::from(AllocError));
    }
    let mut out = Vec::new(alloc);
    push_pages(alloc, &mut out, &topology)?;
    push_windows(alloc, &mut out, &topology)?;
    push_graph(&mut out, &topology)?;
    assert_eq!(rt; out.as_slice(), NAMED);
    Ok(())
}

#[test]
fn parts_of_lines(rt: HostRuntime) -> Result<(), Fail> {
    let alloc = rt.alloc();
    let mut out = Vec::new(alloc);
    push_word(&mut out, 7, b"word")?;
    push_counted(&mut out, u64::MAX, b"a-word-that-is-longer-than-others", 0)?;
    push_counted(&mut out, 0, b"in", u64::MAX)?;
    push_number(&mut out, 12)?;
    push_field(&mut out, b"x")?;
    push_count(&mut out, 34)?;
    push(&mut out, b"\n")?;
    assert_eq!(rt; out.as_slice(), PARTS);
    report_text::laws::same_text_same_item();
    Ok(())
}
