// Two workers beside an operator who turns a page.
ghost use Rattle.std.specs.Prelude.{◌≡◌, ◌<◌, List};
ghost use Rattle.page_gate.specs.Held.{PlaneId};
ghost use Rattle.trace_workers.specs.Jobs.{AreReady, HaveWorked, planes_tables};
ghost use Rattle.worker_tests.specs.Settings.{keepers_tables};

use crate::tests::hold::Hold;
use crate::tests::setting::{P0, P1, TRACE, four_pages, set_up};
use page_gate::{Keeper, Plane};
use std::sync::Wait;
use std::test::Fail;
use std::thread::{Threads, join_mut};
use trace_format::{Line, Trace, What, read_trace};
use trace_workers::{Job, Turnstile, work_all};

fn turn<R: Wait>(rt: &R, plane: &Plane, keeper: &mut Keeper)
    requires { keeper.old.table ≡ plane.now.table }
    ensures { keeper.new.table ≡ keeper.old.table }
{
    if keeper.has_open() && keeper.free() != 0 && keeper.open_page().number < 1000 {
        plane.rotate(rt, keeper);
    }
}

fn turn_at<R: Wait>(rt: &R, planes: &[Plane], at: usize, keepers: &mut [Keeper])
    requires { keepers_tables keepers.old ≡ planes_tables planes.now }
    ensures { keepers_tables keepers.new ≡ keepers_tables keepers.old }
{
    if at < planes.len() && at < keepers.len() {
        turn(rt, &planes[at], &mut keepers[at]);
    }
}

fn operate<R: Threads + Wait + Sync, T: Turnstile>(
    rt: &R,
    lines: &[Line],
    planes: &[Plane],
    turnstile: &T,
    keepers: &mut [Keeper],
)
    requires { keepers_tables keepers.old ≡ planes_tables planes.now }
    ensures { keepers_tables keepers.new ≡ planes_tables planes.now }
{
    'lines: for line in lines {
        if let What::Rotate { router } = line.what {
            turnstile.before(rt, line.number);
            turn_at(rt, planes, router.number as usize, keepers);
            turnstile.after(rt, line.number, None);
        }
    }
}

fn beside<R: Threads + Wait + Sync, T: Turnstile>(
    rt: &R,
    trace: &Trace,
    planes: &[Plane],
    turnstile: &T,
    jobs: &mut [Job],
    keepers: &mut [Keeper],
)
    requires workers { AreReady trace.now planes.now jobs.old }
    requires operator { keepers_tables keepers.old ≡ planes_tables planes.now }
    ensures workers { HaveWorked trace.now planes.now jobs.old jobs.new }
    ensures operator { keepers_tables keepers.new ≡ planes_tables planes.now }
{
    let mut crew = ||
        requires { AreReady trace.now planes.now jobs.now }
        ensures { HaveWorked trace.entry.now planes.entry.now jobs.entry.now jobs.exit.now }
    { work_all(rt, trace, planes, turnstile, jobs) };
    let mut operator = ||
        requires { keepers_tables keepers.now ≡ planes_tables planes.now }
        ensures { keepers_tables keepers.exit.now ≡ planes_tables planes.entry.now }
    { operate(rt, trace.lines.items(), planes, turnstile, keepers) };
    join_mut(rt, &mut crew, &mut operator);
}

// The page is turned behind the first line and before the third record line, and only router a's.
#[test]
fn workers_beside_operator(rt: HostRuntime) -> Result<(), Fail> {
    let alloc = rt.alloc();
    let Ok(trace) = read_trace(alloc, TRACE) else {
        return Err(Fail::from("refused"));
    };
    let lines = trace.lines.items();
    if lines.len() != 10 || trace.topology.routers() != 2 {
        return Err(Fail::from("another trace"));
    }
    let hold = Hold::new(lines[0].number, lines[2].number, lines[3].number);
    let mut set = set_up(alloc, &trace, 0, 6)?;
    beside(
        &rt,
        &trace,
        &set.planes,
        &hold,
        &mut set.jobs,
        &mut set.keepers,
    );
    assert!(rt; !hold.gave_up());
    assert_eq!(rt; hold.told(), 41);
    assert_eq!(rt; four_pages(&set.jobs), Some([P0, P0, P1, P0]));
    Ok(())
}
