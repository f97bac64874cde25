// A segment, by several workers and an operator.
//
// # Who does what
//
// Record lines are dealt to the workers in turn, and each worker gets a pass of each router's plane. The operator, which
// is the calling thread, rotates, archives and watches in line order. They meet in the planes alone: a record enters the
// page that is open as it is made, and a watch may see records of later lines.
//
// # What is known while passes are out
//
// An agent stands for the ledger of the operator's moments alone (`specs/Operating`). What a watch saw in a page beyond
// that, the agent has read there, and once the passes are back it is one of their entries.
//
// # Afterwards
//
// Each agent takes in its passes in the order of the workers. Then the rows of changed packets are added in line order,
// and the answers of all lines stand in line order, as the barrier prints them. The moments of the lines are put together
// from both parts (`specs/Merging`), and the ledgers of both parts make up that of the whole (`proofs/Apart`).
ghost use Rattle.std.specs.Prelude.{◌≡◌, ◌≤◌, [], IfOk, OnOk, length};
ghost use Rattle.gate_core.specs.declared.limits.TheConstants.{MOST_PASSES};
ghost use Rattle.trace_format.specs.Sound.{IsSound};
ghost use Rattle.data_agent.specs.Planes.{entries_of};
ghost use Rattle.data_agent.specs.Standing.{StandsFor};
ghost use Rattle.router_account.specs.Shelves.{view_of};
ghost use Rattle.trace_history.specs.Routers.{count};
ghost use Rattle.trace_workers.specs.Jobs.{AreFresh, AreReady, HaveWorked};
ghost use Rattle.trace_workers.specs.Records.{lines_between};
ghost use Rattle.trace_replay.specs.Aways.{besides, reads};
ghost use Rattle.trace_replay.specs.Operating.{IsAtLine, KeepEntries, OperatesFrom};
ghost use Rattle.trace_replay.specs.Segmenting.{IsSegment, IsAtSegment, DoesSegment, IsCrewOf};
ghost use Rattle.trace_replay.specs.Yards.{AreBeside, by_workers};

use crate::conclude::{add_rows, answer_all};
use crate::operator::operate;
use crate::passes::{deal_all, gather_all};
use crate::state::{Answer, State};
use data_agent::{Agent, entries_exist};
use page_gate::{Pass, Plane};
use page_shelf::Shelf;
use spie_base::NoMemory;
use std::alloc::Global;
use std::sync::Wait;
use std::thread::{Threads, join_mut};
use trace_format::{Line, Trace};
use trace_workers::{Job, Turnstile, deal_out, open_jobs, work_all};

/// What the workers of a replay keep from one segment to the next: memory, and nothing else.
#[derive(Drop)]
pub struct Crew {
    /// A job for each worker.
    pub(crate) jobs: Vec<Job>,
    /// An empty list for each router while its passes are out.
    pub(crate) columns: Vec<Vec<Pass>>,
    /// The operator's answers in a segment.
    pub(crate) given: Vec<Answer>,
}

/// The crew of so many workers, for a trace of so many routers.
pub fn crew_of(alloc: Global, workers: u32, routers: u32) -> Result<Crew, NoMemory>
    requires some { 2 ≤ workers }
    requires few { workers ≤ MOST_PASSES }
    ensures { IfOk result (λ crew. IsCrewOf workers routers crew) }
{
    let jobs = open_jobs(alloc, workers as usize, routers as usize)?;
    Ok(Crew {
        jobs,
        columns: Vec::new(alloc),
        given: Vec::new(alloc),
    })
}

// The workers and the operator at once. The operator is the calling thread.
fn beside<R: Threads + Wait + Sync, T: Turnstile, H: Shelf + Send>(
    rt: &R,
    alloc: Global,
    trace: &Trace,
    lines: &[Line],
    clock: u64,
    turnstile: &T,
    planes: &[Plane],
    shelf: &mut H,
    agents: &mut [Agent],
    jobs: &mut [Job],
    given: &mut Vec<Answer>,
) -> Result<(), NoMemory>
    requires workers { AreReady trace.now planes.now jobs.old }
    requires own { AreBeside planes.now agents.old }
    requires ready { IsAtLine besides reads trace.now lines.now 0 agents.old clock given.old.items
        (view_of H.tells H.contents H.faults shelf.old) }
    ensures workers { HaveWorked trace.now planes.now jobs.old jobs.new }
    ensures own { OnOk result (AreBeside planes.now agents.new) }
    ensures entries { OnOk result (KeepEntries entries_of agents.old agents.new) }
    ensures operates { OnOk result (OperatesFrom besides reads trace.now lines.now 0 (length lines.now)
        agents.old agents.new clock given.old.items given.new.items
        (view_of H.tells H.contents H.faults shelf.old) (view_of H.tells H.contents H.faults shelf.new)) }
{
    let mut crew = ||
        requires { AreReady trace.now planes.now jobs.now }
        ensures { HaveWorked trace.entry.now planes.entry.now jobs.entry.now jobs.exit.now }
    { work_all(rt, trace, planes, turnstile, jobs) };
    let mut operator = || -> Result<(), NoMemory>
        requires { AreBeside planes.now agents.now
            × IsAtLine besides reads trace.now lines.now 0 agents.now clock given.now.items
            (view_of H.tells H.contents H.faults shelf.now) }
        ensures { OnOk result (AreBeside planes.entry.now agents.exit.now
            × KeepEntries entries_of agents.entry.now agents.exit.now
            × OperatesFrom besides reads trace.entry.now lines.entry.now 0 (length lines.entry.now) agents.entry.now agents.exit.now clock
            given.entry.now.items given.exit.now.items
            (view_of H.tells H.contents H.faults shelf.entry.now) (view_of H.tells H.contents H.faults shelf.exit.now)) }
    {
        operate(
            rt, alloc, trace, lines, clock, turnstile, shelf, planes, agents, given,
        )
    };
    let (_, told) = join_mut(rt, &mut crew, &mut operator);
    told
}

// The lines of a segment, by jobs that are ready for it.
fn do_lines<R: Threads + Wait + Sync, T: Turnstile, H: Shelf + Send>(
    rt: &R,
    alloc: Global,
    trace: &Trace,
    from: usize,
    to: usize,
    lines: &[Line],
    turnstile: &T,
    planes: &[Plane],
    workers: u32,
    shelf: &mut H,
    agents: &mut [Agent],
    jobs: &mut [Job],
    columns: &mut Vec<Vec<Pass>>,
    given: &mut Vec<Answer>,
    state: &mut State,
) -> Result<(), NoMemory>
    requires sound { IsSound trace.now }
    requires is { IsSegment trace.now from to }
    requires lines { lines.now ≡ lines_between trace.now.lines from to }
    requires some { 2 ≤ workers }
    requires few { workers ≤ MOST_PASSES }
    requires jobs { AreFresh workers (length planes.now) jobs.old }
    requires columns { columns.old.items ≡ [] }
    requires given { given.old.items ≡ [] }
    requires beside { AreBeside planes.now agents.old }
    requires ready { IsAtSegment (by_workers workers) StandsFor trace.now from to agents.old state.old
        (view_of H.tells H.contents H.faults shelf.old) }
    ensures jobs { OnOk result (AreFresh workers (length planes.now) jobs.new) }
    ensures beside { OnOk result (AreBeside planes.now agents.new) }
    ensures does { OnOk result (DoesSegment (by_workers workers) StandsFor trace.now from to
        agents.old agents.new state.old state.new
        (view_of H.tells H.contents H.faults shelf.old) (view_of H.tells H.contents H.faults shelf.new)) }
{
    entries_exist();
    deal_out(trace, from, to, jobs)?;
    deal_all(alloc, planes, workers, agents, jobs, columns)?;
    let clock = state.clock;
    beside(
        rt, alloc, trace, lines, clock, turnstile, planes, shelf, agents, jobs, given,
    )?;
    gather_all(planes, agents, jobs, columns);
    add_rows(alloc, trace, lines, jobs, agents)?;
    answer_all(lines, jobs, given, &mut state.answers)?;
    Ok(())
}

/// The lines of a segment, which are those from one place on and before another. Takes 8 bytes for each record line, a list
/// of passes for each router, and memory for the answers, beside what the agents take. After `NoMemory` passes may be lost
/// with what they recorded, so nothing is known of the agents.
pub fn segment<R: Threads + Wait + Sync, T: Turnstile, H: Shelf + Send>(
    rt: &R,
    alloc: Global,
    trace: &Trace,
    from: usize,
    to: usize,
    shelf: &mut H,
    planes: &[Plane],
    agents: &mut [Agent],
    workers: u32,
    crew: &mut Crew,
    turnstile: &T,
    state: &mut State,
) -> Result<(), NoMemory>
    requires sound { IsSound trace.now }
    requires is { IsSegment trace.now from to }
    requires some { 2 ≤ workers }
    requires few { workers ≤ MOST_PASSES }
    requires crew { IsCrewOf workers (count trace.now) crew.old }
    requires beside { AreBeside planes.now agents.old }
    requires ready { IsAtSegment (by_workers workers) StandsFor trace.now from to agents.old state.old
        (view_of H.tells H.contents H.faults shelf.old) }
    ensures crew { OnOk result (IsCrewOf workers (count trace.now) crew.new) }
    ensures beside { OnOk result (AreBeside planes.now agents.new) }
    ensures does { OnOk result (DoesSegment (by_workers workers) StandsFor trace.now from to
        agents.old agents.new state.old state.new
        (view_of H.tells H.contents H.faults shelf.old) (view_of H.tells H.contents H.faults shelf.new)) }
{
    let lines = &trace.lines.items()[from..to];
    crew.columns.clear();
    crew.given.clear();
    do_lines(
        rt,
        alloc,
        trace,
        from,
        to,
        lines,
        turnstile,
        planes,
        workers,
        shelf,
        agents,
        &mut crew.jobs,
        &mut crew.columns,
        &mut crew.given,
        state,
    )
}
