// A segment's record lines are dealt to the workers in turn.
ghost use Rattle.std.specs.Prelude.{◌≡◌, ◌+◌, ◌^◌, ◌<◌, ◌≤◌, ◌∷◌, [], IfOk, OnOk, length, vec_len, vec_capacity};
ghost use Rattle.trace_format.specs.Sound.{IsSound, is_recording};
ghost use Rattle.trace_workers.specs.Dealing.{AreCleared, IsCleared, AreRoomy, IsRoomy, HaveMore, HaveTurns, place_by};
ghost use Rattle.trace_workers.specs.Jobs.{AreShares, KeepPasses};

use crate::jobs::Job;
use spie_base::NoMemory;
use trace_format::{Line, Trace, What};

/// Whether a line records a packet: `fwd` and `xf`.
pub fn is_record(what: &What) -> bool
    ensures { result ≡ is_recording what.now }
{
    matches!(what, What::Fwd { .. } | What::Xf { .. })
}

fn clear(job: &mut Job)
    ensures { IsCleared job.old job.new }
{
    job.places.clear();
    job.pages.clear();
}

fn clear_all(jobs: &mut [Job])
    ensures { AreCleared jobs.old jobs.new }
{
    for i in 0..jobs.len() {
        clear(&mut jobs[i]);
    }
}

fn deal_one(number: usize, place: usize, jobs: &mut [Job]) -> Result<(), NoMemory>
    requires some { 0 < length jobs.old }
    requires few { place < 2 ^ 32 }
    ensures dealt { OnOk result (HaveMore number (place ∷ []) jobs.old jobs.new) }
    ensures passes { KeepPasses jobs.old jobs.new }
{
    let worker = number % jobs.len();
    jobs[worker].places.push(place as u32)?;
    Ok(())
}

// The line at a place, where so many record lines came before it. Gives how many came then.
fn deal_line(
    lines: &[Line],
    place: usize,
    number: usize,
    jobs: &mut [Job],
) -> Result<usize, NoMemory>
    requires some { 0 < length jobs.old }
    requires few { length lines.now < 2 ^ 32 }
    requires within { place < length lines.now }
    requires number { number ≤ place }
    ensures dealt { OnOk result (HaveMore number (place_by lines.now place) jobs.old jobs.new) }
    ensures number { IfOk result (λ n. n ≡ number + length (place_by lines.now place)) }
    ensures small { IfOk result (λ n. n ≤ place + 1) }
    ensures passes { KeepPasses jobs.old jobs.new }
{
    if is_record(&lines[place].what) {
        deal_one(number, place, jobs)?;
        Ok(number + 1)
    } else {
        Ok(number)
    }
}

fn deal_lines(lines: &[Line], from: usize, to: usize, jobs: &mut [Job]) -> Result<(), NoMemory>
    requires few { length lines.now < 2 ^ 32 }
    requires begins { from ≤ to }
    requires ends { to ≤ length lines.now }
    requires some { 0 < length jobs.old }
    requires none { HaveTurns lines.now from from jobs.old }
    ensures turns { OnOk result (HaveTurns lines.now from to jobs.new) }
    ensures passes { KeepPasses jobs.old jobs.new }
{
    let mut number = 0;
    for place in from..to {
        number = deal_line(lines, place, number, jobs)?;
    }
    Ok(())
}

fn reserve(job: &mut Job) -> Result<(), NoMemory>
    ensures room { OnOk result (IsRoomy job.old job.new) }
    ensures passes { job.new.passes ≡ job.old.passes }
{
    job.pages.reserve(job.places.len())?;
    Ok(())
}

fn reserve_all(jobs: &mut [Job]) -> Result<(), NoMemory>
    ensures room { OnOk result (AreRoomy jobs.old jobs.new) }
    ensures passes { KeepPasses jobs.old jobs.new }
{
    for i in 0..jobs.len() {
        reserve(&mut jobs[i])?;
    }
    Ok(())
}

/// Deals the record lines of a segment to the jobs in turn, which forget those they had: record line number j, counted
/// from 0, goes to job j modulo their number. `from` is the place of the segment's first line in the trace's lines, `to`
/// that behind its last. Reserves what the workers' pages take. On `NoMemory` the jobs have some of the lines. Costs a
/// step for each line.
pub fn deal_out(trace: &Trace, from: usize, to: usize, jobs: &mut [Job]) -> Result<(), NoMemory>
    requires sound { IsSound trace.now }
    requires begins { from ≤ to }
    requires ends { to ≤ length trace.now.lines }
    requires some { 0 < length jobs.old }
    ensures shares { OnOk result (AreShares trace.now from to jobs.new) }
    ensures passes { KeepPasses jobs.old jobs.new }
{
    clear_all(jobs);
    deal_lines(trace.lines.items(), from, to, jobs)?;
    reserve_all(jobs)?;
    Ok(())
}
