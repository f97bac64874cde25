// Replays by one worker, and lines that are held among several. Reports, also those of several workers, are rows of
// `run_rows`.
mod held_lines;

use page_shelf::MemShelf;
use spie_base::PageNo;
use std::rt::HostRuntime;
use std::test::Fail;
use trace_format::read_trace;
use trace_replay::{Yard, has_query, replay_alone, sights_alone};

// One packet along three routers in a line, and a query behind it.
const THREE_IN_A_LINE: &[u8] =
    b"spie-trace 1\nshape 3 16 60000 1000 8 5000 100 0123456789abcdef\nrouter a east\nrouter b east\nrouter c west\nlink a b\nlink b c\nbegin\npacket 4500001c00010000401166ce0a0000010a0000020102030405060708\nfwd a 0\nfwd b 0\nfwd c 0\nquery c 0 0\nend\n";

const PAGE_0: PageNo = PageNo { number: 0 };

#[test]
fn sights_of_three_in_a_line(rt: HostRuntime) -> Result<(), Fail> {
    let alloc = rt.alloc();
    let Ok(trace) = read_trace(alloc, THREE_IN_A_LINE) else {
        return Err(Fail::from("refused"));
    };
    let mut shelf = MemShelf::new(alloc, &[])?;
    let mut yard = Yard::new(alloc)?;
    if !has_query(&trace, 13) {
        return Err(Fail::from("no query"));
    }
    let sights = sights_alone(alloc, &trace, &mut shelf, 13, &mut yard)?;
    assert_eq!(rt; sights.len(), 3);
    for sight in &sights {
        assert_eq!(rt; sight.used(), [PAGE_0].as_slice());
        assert_eq!(rt; sight.expired(), None);
        assert!(rt; sight.unreadable().is_empty());
    }
    Ok(())
}

// A yard is empty until a trace is replayed, and then has a router for each of the trace's.
#[test]
fn routers_of_three_in_a_line(rt: HostRuntime) -> Result<(), Fail> {
    let alloc = rt.alloc();
    let Ok(trace) = read_trace(alloc, THREE_IN_A_LINE) else {
        return Err(Fail::from("refused"));
    };
    let mut shelf = MemShelf::new(alloc, &[])?;
    let mut yard = Yard::new(alloc)?;
    assert_eq!(rt; yard.routers(), 0);
    let replayed = replay_alone(alloc, &trace, &mut shelf, &mut yard, Vec::new(alloc))?;
    assert_eq!(rt; yard.routers(), 3);
    assert_eq!(rt; replayed.totals.nodes, 3);
    Ok(())
}

#[test]
fn lines_of_queries(rt: HostRuntime) -> Result<(), Fail> {
    let Ok(trace) = read_trace(rt.alloc(), THREE_IN_A_LINE) else {
        return Err(Fail::from("refused"));
    };
    assert_eq!(rt; has_query(&trace, 12), false);
    assert_eq!(rt; has_query(&trace, 13), true);
    assert_eq!(rt; has_query(&trace, 14), false);
    Ok(())
}
