// The passes of a segment: each worker gets one of each router's plane, and they come back.
ghost use Rattle.std.specs.Prelude.{◌≡◌, ◌≤◌, ◌++◌, ◌∷◌, [], OnOk, All, length, vec_len, Vec};
ghost use Rattle.std.specs.declared.alloc.Global.{Global as TheGlobal};
ghost use Rattle.gate_core.specs.declared.limits.TheConstants.{MOST_PASSES};
ghost use Rattle.page_gate.specs.Held.{PassHeld};
ghost use Rattle.data_agent.specs.Planes.{IsOwnPlane, entries_of};
ghost use Rattle.data_agent.specs.Standing.{StandsFor};
ghost use Rattle.trace_workers.specs.Columns.{HaveRoom, HaveGot, HaveGiven};
ghost use Rattle.trace_workers.specs.Jobs.{AreFresh};
ghost use Rattle.trace_replay.specs.Dealt.{AreColumns, HaveBack, HaveDealt, HaveFresh, HaveGathered};
ghost use Rattle.trace_replay.specs.Dealt.{IsColumn, IsDealer, IsGatherer, MayGather, MayGatherAll};
ghost use Rattle.trace_replay.specs.Operating.{KeepEntries};
ghost use Rattle.data_agent.specs.Beside.{fresh_pass};
ghost use Rattle.trace_replay.specs.Yards.{AreBeside, IsStanding};

use data_agent::Agent;
use page_gate::{Pass, Plane};
use spie_base::NoMemory;
use std::alloc::Global;
use trace_workers::{Job, draw, spread};

// One router's passes go to the jobs, and the list that brought them stays behind, empty.
fn deal_one(
    alloc: Global,
    plane: &Plane,
    workers: u32,
    agent: &mut Agent,
    jobs: &mut [Job],
    columns: &mut Vec<Vec<Pass>>,
) -> Result<(), NoMemory>
    requires some { 1 ≤ workers }
    requires few { workers ≤ MOST_PASSES }
    requires jobs { length jobs.old ≡ workers }
    requires room { HaveRoom jobs.old }
    requires own { IsOwnPlane plane.now agent.old }
    requires stands { IsStanding StandsFor agent.old }
    ensures own { OnOk result (IsOwnPlane plane.now agent.new) }
    ensures entries { OnOk result (entries_of agent.new ≡ entries_of agent.old) }
    ensures dealt { OnOk result (IsDealer workers agent.old agent.new) }
    ensures got { OnOk result (HaveGot jobs.old jobs.new (fresh_pass plane.now agent.old)) }
    ensures column { OnOk result ((column : Vec PassHeld TheGlobal)
        × (columns.new.items ≡ columns.old.items ++ column ∷ []) × IsColumn workers column) }
{
    let mut column = agent.deal(alloc, plane, workers)?;
    spread(jobs, &mut column);
    columns.push(column)?;
    Ok(())
}

// One router's passes come back from the jobs, each job's last one, and its agent takes them in.
fn gather_one(plane: &Plane, agent: &mut Agent, jobs: &mut [Job], columns: &mut Vec<Vec<Pass>>)
    requires own { IsOwnPlane plane.now agent.old }
    requires ready { MayGather plane.now agent.old jobs.old }
    requires column { (front : _) × (column : Vec PassHeld TheGlobal)
        × (columns.old.items ≡ front ++ column ∷ []) × IsColumn (length jobs.old) column }
    ensures own { IsOwnPlane plane.now agent.new }
    ensures gathered { (column : _) × HaveGiven jobs.old jobs.new column × IsGatherer agent.old agent.new column }
    ensures columns { (column : Vec PassHeld TheGlobal) × (columns.old.items ≡ columns.new.items ++ column ∷ []) }
{
    let mut column = columns.take_last();
    draw(jobs, &mut column);
    agent.gather(plane, column);
}

/// Deals a pass of each router's plane to each worker, through which they record beside the agents.
pub fn deal_all(
    alloc: Global,
    planes: &[Plane],
    workers: u32,
    agents: &mut [Agent],
    jobs: &mut [Job],
    columns: &mut Vec<Vec<Pass>>,
) -> Result<(), NoMemory>
    requires some { 1 ≤ workers }
    requires few { workers ≤ MOST_PASSES }
    requires jobs { AreFresh workers (length planes.now) jobs.old }
    requires beside { AreBeside planes.now agents.old }
    requires stands { All (IsStanding StandsFor) agents.old }
    requires none { columns.old.items ≡ [] }
    ensures beside { OnOk result (AreBeside planes.now agents.new) }
    ensures entries { OnOk result (KeepEntries entries_of agents.old agents.new) }
    ensures dealt { OnOk result (HaveDealt workers (length planes.now) agents.old agents.new) }
    ensures passes { OnOk result (HaveFresh (length planes.now) planes.now agents.old jobs.old jobs.new) }
    ensures columns { OnOk result (AreColumns workers (length planes.now) columns.new.items) }
{
    for router in 0..planes.len() {
        deal_one(
            alloc,
            &planes[router],
            workers,
            &mut agents[router],
            jobs,
            columns,
        )?;
    }
    Ok(())
}

/// Takes the passes of all routers back from the workers. The last router's come first, since each job has its pass last.
pub fn gather_all(
    planes: &[Plane],
    agents: &mut [Agent],
    jobs: &mut [Job],
    columns: &mut Vec<Vec<Pass>>,
)
    requires beside { AreBeside planes.now agents.old }
    requires ready { MayGatherAll planes.now agents.old jobs.old }
    requires columns { AreColumns (length jobs.old) (length planes.now) columns.old.items }
    ensures beside { AreBeside planes.now agents.new }
    ensures gathered { HaveGathered jobs.old agents.old agents.new }
    ensures jobs { HaveBack jobs.old jobs.new }
{
    for done in 0..planes.len() {
        let router = planes.len() - 1 - done;
        gather_one(&planes[router], &mut agents[router], jobs, columns);
    }
}
