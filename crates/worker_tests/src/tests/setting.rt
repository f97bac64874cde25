// A trace of two routers, with a plane of each and two jobs.
ghost use Rattle.std.specs.Prelude.{◌≡◌, ◌+◌, ◌<◌, ◌≤◌, ℕ, [], true, IfOk, OnOk, length, vec_len};
ghost use Rattle.spie_base.specs.Shapes.{IsShape};
ghost use Rattle.trace_format.specs.Sound.{IsSound};
ghost use Rattle.trace_format.specs.declared.Trace.{Trace as TraceView};
ghost use Rattle.trace_history.specs.Routers.{count};
ghost use Rattle.trace_workers.specs.Jobs.{AreFresh, AreReady, AreShares, planes_tables};
ghost use Rattle.trace_workers.specs.Columns.{HavePasses};
ghost use Rattle.worker_tests.specs.Settings.{AreSet, keepers_tables};

use page_gate::{Keeper, Pass, Plane};
use spie_base::{NoMemory, PageNo, PageShape, RouterId};
use std::alloc::Global;
use trace_format::Trace;
use trace_workers::{Job, deal_out, draw, open_jobs, page_of, spread};

/// Two segments: record lines stand at places 0, 1, 3, 5 and 7, 8.
pub const TRACE: &[u8] =
    b"spie-trace 1\nshape 3 16 60000 1000 8 5000 100 0123456789abcdef\nrouter a east\nrouter b east\nlink a b\nbegin\npacket 4500001c00010000401166ce0a0000010a0000020102030405060708\npacket 4500001c00010000401166ce0a0000010a0000020102030405060709\nfwd a 0\nfwd b 1\nrotate a\nfwd a 1\nwatch a 0\nxf b nat 1 0\ntick 1\nfwd b 1\nfwd a 1\nend\n";

pub const P0: PageNo = PageNo { number: 0 };

pub const P1: PageNo = PageNo { number: 1 };

/// Planes with their keepers, and jobs that have a pass of each.
#[derive(Drop)]
pub struct Setting {
    pub planes: Vec<Plane>,
    pub keepers: Vec<Keeper>,
    pub jobs: Vec<Job>,
}

fn shape(router: u32) -> PageShape
    ensures { IsShape result }
{
    PageShape {
        k: 3,
        n: 16,
        base: 0x0123_4567_89ab_cdef,
        router: RouterId { number: router },
    }
}

// A plane more, with its keeper and a pass for each job.
fn add_plane(
    alloc: Global,
    router: u32,
    planes: &mut Vec<Plane>,
    keepers: &mut Vec<Keeper>,
    jobs: &mut [Job],
) -> Result<(), NoMemory>
    requires set { AreSet planes.old.items keepers.old.items jobs.old }
    requires few { length planes.old.items < 2 }
    ensures set { OnOk result (AreSet planes.new.items keepers.new.items jobs.new) }
    ensures planes { OnOk result (length planes.new.items ≡ length planes.old.items + 1) }
    ensures shares { OnOk result ((t : TraceView) (from to : ℕ)
        → AreShares t from to jobs.old → AreShares t from to jobs.new) }
{
    let (plane, mut keeper) = Plane::open(alloc, shape(router))?;
    let mut column = plane.deal(alloc, &mut keeper, 2)?;
    spread(jobs, &mut column);
    planes.push(plane)?;
    keepers.push(keeper)?;
    Ok(())
}

// The record lines from one place to before another, dealt to jobs that get a pass of two planes.
fn fill(
    alloc: Global,
    trace: &Trace,
    from: usize,
    to: usize,
    planes: &mut Vec<Plane>,
    keepers: &mut Vec<Keeper>,
    jobs: &mut [Job],
) -> Result<(), NoMemory>
    requires sound { IsSound trace.now }
    requires routers { count trace.now ≡ 2 }
    requires begins { from ≤ to }
    requires ends { to ≤ length trace.now.lines }
    requires none { (planes.old.items ≡ []) × (keepers.old.items ≡ []) }
    requires fresh { AreFresh 2 2 jobs.old }
    ensures ready { OnOk result (AreReady trace.now planes.new.items jobs.new) }
    ensures keepers { OnOk result (keepers_tables keepers.new.items ≡ planes_tables planes.new.items) }
{
    deal_out(trace, from, to, jobs)?;
    add_plane(alloc, 0, planes, keepers, jobs)?;
    add_plane(alloc, 1, planes, keepers, jobs)?;
    Ok(())
}

/// A plane of each of two routers, and the record lines from one place to before another, dealt to two jobs.
pub fn set_up(alloc: Global, trace: &Trace, from: usize, to: usize) -> Result<Setting, NoMemory>
    requires sound { IsSound trace.now }
    requires routers { count trace.now ≡ 2 }
    requires begins { from ≤ to }
    requires ends { to ≤ length trace.now.lines }
    ensures ready { IfOk result (λ set. AreReady trace.now set.planes.items set.jobs.items) }
    ensures keepers { IfOk result (λ set. keepers_tables set.keepers.items ≡ planes_tables set.planes.items) }
    ensures workers { IfOk result (λ set. vec_len set.jobs ≡ 2) }
{
    let mut jobs = open_jobs(alloc, 2, 2)?;
    let mut planes = Vec::new(alloc);
    let mut keepers = Vec::new(alloc);
    fill(alloc, trace, from, to, &mut planes, &mut keepers, &mut jobs)?;
    Ok(Setting {
        planes,
        keepers,
        jobs,
    })
}

/// The pages of four record lines that two jobs have recorded.
pub fn four_pages(jobs: &[Job]) -> Option<[PageNo; 4]> {
    if jobs.len() != 2 || jobs[0].pages.len() != 2 || jobs[1].pages.len() != 2 {
        return None;
    }
    Some([
        page_of(jobs, 0),
        page_of(jobs, 1),
        page_of(jobs, 2),
        page_of(jobs, 3),
    ])
}

fn have_passes(jobs: &[Job]) -> bool
    ensures { (result ≡ true) → HavePasses jobs.now }
{
    jobs.len() == 2 && !jobs[0].passes.is_empty() && !jobs[1].passes.is_empty()
}

/// The last pass of each job, in their order.
pub fn last_passes(alloc: Global, jobs: &mut [Job]) -> Result<Vec<Pass>, NoMemory> {
    let mut column = Vec::with_capacity(alloc, jobs.len())?;
    if have_passes(jobs) {
        draw(jobs, &mut column);
    }
    Ok(column)
}
