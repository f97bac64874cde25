// What is done with the agents of all routers.
ghost use Rattle.std.specs.Prelude.{◌≤◌, IfOk, OnOk};
ghost use Rattle.std.specs.List.{All};
ghost use Rattle.topology.specs.declared.limits.TheConstants.{ROUTERS_MOST};
ghost use Rattle.spie_base.specs.Shapes.{AreInRange};
ghost use Rattle.data_agent.specs.Planes.{IsPrepared, entries_of};
ghost use Rattle.data_agent.specs.Seeing.{shown_by, told_by};
ghost use Rattle.data_agent.specs.Standing.{StandsFor};
ghost use Rattle.trace_replay.specs.Agents.{IsReady, PassesAll, IsPast, SeesAll};
ghost use Rattle.router_account.specs.Shelves.{view_of};
ghost use Rattle.trace_replay.specs.Yards.{AreBeside, AreOpened, IsStanding, AllKeepStanding, AllKeepEntries};

use data_agent::{Agent, Barrier, Sight};
use page_gate::Plane;
use page_shelf::Shelf;
use spie_base::{NoMemory, RouterId, Rules};
use std::alloc::Global;

/// A plane for each router, and the agent that works on it.
pub fn open_all(
    alloc: Global,
    rules: &Rules,
    routers: u32,
) -> Result<(Vec<Plane>, Vec<Agent>), NoMemory>
    requires rules { AreInRange rules.now.k rules.now.n }
    requires few { routers ≤ ROUTERS_MOST }
    ensures { IfOk result (λ r. AreOpened rules.now routers r.0.items r.1.items) }
{
    let mut planes = Vec::new(alloc);
    let mut agents = Vec::new(alloc);
    for router in 0..routers {
        let (plane, agent) = Agent::open(alloc, RouterId { number: router }, rules)?;
        planes.push(plane)?;
        agents.push(agent)?;
    }
    Ok((planes, agents))
}

/// The barrier of each router, in their order.
pub fn pass_all<H: Shelf>(
    alloc: Global,
    shelf: &mut H,
    clock: u64,
    tick: bool,
    planes: &[Plane],
    agents: &mut [Agent],
) -> Result<Vec<Barrier>, NoMemory>
    requires beside { AreBeside planes.now agents.old }
    requires ready { All (IsReady StandsFor clock tick) agents.old }
    ensures beside { OnOk result (AreBeside planes.now agents.new) }
    ensures entries { OnOk result (AllKeepEntries entries_of agents.old agents.new) }
    ensures passed { IfOk result (λ barriers. PassesAll StandsFor clock tick agents.old agents.new barriers.items
        (view_of H.tells H.contents H.faults shelf.old) (view_of H.tells H.contents H.faults shelf.new)) }
{
    let mut barriers = Vec::new(alloc);
    for (router, agent) in agents.iter_mut().enumerate() {
        let barrier = agent.barrier(alloc, &planes[router], shelf, clock, tick)?;
        barriers.push(barrier)?;
    }
    Ok(barriers)
}

/// Makes the agent of each router ready for a query.
pub fn prepare_all(alloc: Global, planes: &[Plane], agents: &mut [Agent]) -> Result<(), NoMemory>
    requires beside { AreBeside planes.now agents.old }
    requires stands { All (IsStanding StandsFor) agents.old }
    ensures beside { OnOk result (AreBeside planes.now agents.new) }
    ensures prepared { OnOk result (All IsPrepared agents.new) }
    ensures same { OnOk result (AllKeepStanding StandsFor agents.old agents.new) }
    ensures entries { OnOk result (AllKeepEntries entries_of agents.old agents.new) }
{
    for (router, agent) in agents.iter_mut().enumerate() {
        agent.prepare(alloc, &planes[router])?;
    }
    Ok(())
}

/// What a query sees of each router, in their order, where their agents are ready for it.
pub fn see_all<'a, H: Shelf>(
    alloc: Global,
    shelf: &mut H,
    time: u64,
    agents: &'a [Agent],
) -> Result<Vec<Sight<'a>>, NoMemory>
    requires prepared { All IsPrepared agents.now }
    requires past { All (IsPast StandsFor time) agents.now }
    ensures { IfOk result (λ sights. SeesAll StandsFor shown_by told_by time agents.now sights.items
        (view_of H.tells H.contents H.faults shelf.old) (view_of H.tells H.contents H.faults shelf.new)) }
{
    let mut sights = Vec::new(alloc);
    for agent in agents {
        let sight = agent.sight(alloc, shelf, time)?;
        sights.push(sight)?;
    }
    Ok(sights)
}
