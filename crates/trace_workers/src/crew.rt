// All workers at once.
ghost use Rattle.trace_workers.specs.Jobs.{IsReady, HasWorked, AreReady, HaveWorked};

use crate::jobs::Job;
use crate::turnstile::Turnstile;
use crate::work::record_share;
use page_gate::Plane;
use std::sync::Wait;
use std::thread;
use std::thread::Threads;
use trace_format::Trace;

/// Lets each worker record its lines, in a thread of its own. Where a thread can't be started, its worker's lines are
/// recorded all the same.
pub fn work_all<R: Threads + Wait + Sync, T: Turnstile>(
    rt: &R,
    trace: &Trace,
    planes: &[Plane],
    turnstile: &T,
    jobs: &mut [Job],
)
    requires { AreReady trace.now planes.now jobs.old }
    ensures { HaveWorked trace.now planes.now jobs.old jobs.new }
{
    if jobs.is_empty() {
        return;
    }
    let threads = jobs.len();
    thread::for_each_mut(
        rt,
        jobs,
        threads,
        &|_: usize, job: &mut Job|
            requires { IsReady trace.now planes.now job.old }
            ensures { HasWorked trace.entry.now planes.entry.now job.old job.new }
        { record_share(rt, trace, planes, turnstile, job) },
    );
}
