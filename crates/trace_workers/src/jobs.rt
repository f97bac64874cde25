// What each worker is given and gives back.
ghost use Rattle.std.specs.Prelude.{◌≡◌, ◌<◌, ◌≤◌, [], IfOk, length, vec_capacity};
ghost use Rattle.trace_workers.specs.Jobs.{AreFresh, HasPageAt, page_at, pages_of};

use page_gate::Pass;
use spie_base::{NoMemory, PageNo};
use std::alloc::Global;

/// A worker's lines of a segment, its passes, and the pages that its records entered.
#[derive(Drop)]
pub struct Job {
    /// The places of its record lines in the trace's lines, ascending.
    pub places: Vec<u32>,
    /// A pass for each router, by its number.
    pub passes: Vec<Pass>,
    /// The pages of its record lines so far, in their order.
    pub pages: Vec<PageNo>,
}

fn open_job(alloc: Global, routers: usize) -> Result<Job, NoMemory>
    ensures none { IfOk result (λ job. job.passes.items ≡ []) }
    ensures room { IfOk result (λ job. routers ≤ vec_capacity job.passes) }
{
    let passes = Vec::with_capacity(alloc, routers)?;
    Ok(Job {
        places: Vec::new(alloc),
        passes,
        pages: Vec::new(alloc),
    })
}

/// So many jobs, each with memory for a pass of each router. They serve for all segments of a replay.
pub fn open_jobs(alloc: Global, workers: usize, routers: usize) -> Result<Vec<Job>, NoMemory>
    ensures { IfOk result (λ jobs. AreFresh workers routers jobs.items) }
{
    let mut jobs = Vec::with_capacity(alloc, workers)?;
    for _ in 0..workers {
        jobs.push_reserved(open_job(alloc, routers)?);
    }
    Ok(jobs)
}

/// The page that a segment's record line number `j` entered, counted from 0: the page of line j / W of worker j % W.
pub fn page_of(jobs: &[Job], j: usize) -> PageNo
    requires some { 0 < length jobs.now }
    requires read { HasPageAt (pages_of jobs.now) j }
    ensures { result ≡ page_at (pages_of jobs.now) j }
{
    jobs[j % jobs.len()].pages[j / jobs.len()]
}
