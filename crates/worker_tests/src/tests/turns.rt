// Whose turn each record line is.
use crate::tests::hold::Hold;
use crate::tests::setting::{P0, TRACE, four_pages, last_passes, set_up};
use spie_base::Entry;
use std::test::Fail;
use trace_format::read_trace;
use trace_workers::{Free, deal_out, work_all};

#[test]
fn dealt_in_turn(rt: HostRuntime) -> Result<(), Fail> {
    let alloc = rt.alloc();
    let Ok(trace) = read_trace(alloc, TRACE) else {
        return Err(Fail::from("refused"));
    };
    if trace.lines.items().len() != 10 || trace.topology.routers() != 2 {
        return Err(Fail::from("another trace"));
    }
    let mut set = set_up(alloc, &trace, 0, 6)?;
    assert_eq!(rt; set.jobs[0].places.as_slice(), [0, 3].as_slice());
    assert_eq!(rt; set.jobs[1].places.as_slice(), [1, 5].as_slice());
    deal_out(&trace, 7, 10, &mut set.jobs)?;
    assert_eq!(rt; set.jobs[0].places.as_slice(), [7].as_slice());
    assert_eq!(rt; set.jobs[1].places.as_slice(), [8].as_slice());
    Ok(())
}

// Worker 0 has both lines of router a, and worker 1 those of b. The last of them puts packet 0 in place of packet 1.
#[test]
fn recorded_by_two(rt: HostRuntime) -> Result<(), Fail> {
    let alloc = rt.alloc();
    let Ok(trace) = read_trace(alloc, TRACE) else {
        return Err(Fail::from("refused"));
    };
    let [first, second] = trace.sigs.items() else {
        return Err(Fail::from("another trace"));
    };
    if trace.lines.items().len() != 10 || trace.topology.routers() != 2 {
        return Err(Fail::from("another trace"));
    }
    let mut set = set_up(alloc, &trace, 0, 6)?;
    work_all(&rt, &trace, &set.planes, &Free, &mut set.jobs);
    assert_eq!(rt; four_pages(&set.jobs), Some([P0; 4]));
    let column = last_passes(alloc, &mut set.jobs)?;
    let [one, other] = column.as_slice() else {
        return Err(Fail::from("no two passes"));
    };
    assert_eq!(rt; one.last(), None);
    assert_eq!(rt;
        other.last(),
        Some(Entry {
            page: P0,
            sig: *first
        })
    );
    let column = last_passes(alloc, &mut set.jobs)?;
    let [one, other] = column.as_slice() else {
        return Err(Fail::from("no two passes"));
    };
    assert_eq!(rt;
        one.last(),
        Some(Entry {
            page: P0,
            sig: *second
        })
    );
    assert_eq!(rt; other.last(), None);
    Ok(())
}

// The first record line waits for the second, which is another worker's.
#[test]
fn workers_overlap(rt: HostRuntime) -> Result<(), Fail> {
    let alloc = rt.alloc();
    let Ok(trace) = read_trace(alloc, TRACE) else {
        return Err(Fail::from("refused"));
    };
    let lines = trace.lines.items();
    if lines.len() != 10 || trace.topology.routers() != 2 {
        return Err(Fail::from("another trace"));
    }
    let hold = Hold::new(lines[1].number, lines[0].number, 0);
    let mut set = set_up(alloc, &trace, 0, 6)?;
    work_all(&rt, &trace, &set.planes, &hold, &mut set.jobs);
    assert!(rt; !hold.gave_up());
    assert_eq!(rt; hold.told(), 40);
    assert_eq!(rt; four_pages(&set.jobs), Some([P0; 4]));
    Ok(())
}
