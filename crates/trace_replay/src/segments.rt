// The replay of a trace by several workers, segment by segment.
ghost use Rattle.std.specs.Prelude.{◌≡◌, ◌≤◌, ◌<◌, [], IfOk, OnOk, OnErr, length};
ghost use Rattle.gate_core.specs.declared.limits.TheConstants.{MOST_PASSES};
ghost use Rattle.trace_format.specs.Sound.{IsSound};
ghost use Rattle.trace_history.specs.Routers.{count};
ghost use Rattle.trace_history.specs.Workers.{IsReplayedBy};
ghost use Rattle.data_agent.specs.Standing.{StandsFor};
ghost use Rattle.router_account.specs.Shelves.{ShelfView, view_of};
ghost use Rattle.trace_replay.specs.Agents.{views_of};
ghost use Rattle.trace_replay.specs.Loop.{HasDone};
ghost use Rattle.trace_replay.specs.Segmenting.{IsSegment, HasEnded, Ends, HasCut, Cuts, IsCrewOf};
ghost use Rattle.trace_replay.specs.Yards.{AreBeside, by_workers};

use crate::agents::open_all;
use crate::alone::{Replayed, begun, is_barrier, replay_alone};
use crate::closing::line_closing;
use crate::finder::AtOnce;
use crate::segment::{Crew, crew_of, segment};
use crate::state::State;
use crate::yard::Yard;
use data_agent::Agent;
use page_gate::Plane;
use page_shelf::Shelf;
use spie_base::{List, NoMemory};
use std::alloc::Global;
use std::sync::Wait;
use std::thread::Threads;
use trace_format::Trace;
use trace_workers::Turnstile;

// A segment, and the barrier behind it.
fn segment_and_barrier<R: Threads + Wait + Sync, T: Turnstile, H: Shelf + Send>(
    rt: &R,
    alloc: Global,
    trace: &Trace,
    from: usize,
    to: usize,
    shelf: &mut H,
    planes: &[Plane],
    agents: &mut [Agent],
    workers: u32,
    crew: &mut Crew,
    turnstile: &T,
    state: &mut State,
) -> Result<(), NoMemory>
    requires sound { IsSound trace.now }
    requires is { IsSegment trace.now from to }
    requires some { 2 ≤ workers }
    requires few { workers ≤ MOST_PASSES }
    requires crew { IsCrewOf workers (count trace.now) crew.old }
    requires beside { AreBeside planes.now agents.old }
    requires ready { (start : ShelfView) × HasEnded (by_workers workers) StandsFor trace.now start from agents.old state.old
        (view_of H.tells H.contents H.faults shelf.old) }
    ensures crew { OnOk result (IsCrewOf workers (count trace.now) crew.new) }
    ensures beside { OnOk result (AreBeside planes.now agents.new) }
    ensures ends { OnOk result (Ends (by_workers workers) StandsFor trace.now from to agents.old agents.new state.old state.new
        (view_of H.tells H.contents H.faults shelf.old) (view_of H.tells H.contents H.faults shelf.new)) }
{
    segment(
        rt, alloc, trace, from, to, shelf, planes, agents, workers, crew, turnstile, state,
    )?;
    let line = &trace.lines.items()[to];
    line_closing(
        &AtOnce { rt },
        alloc,
        trace,
        line,
        shelf,
        planes,
        agents,
        state,
    )?;
    Ok(())
}

// Where a line is a barrier, its segment is done. Answers where the next one begins.
fn advance<R: Threads + Wait + Sync, T: Turnstile, H: Shelf + Send>(
    rt: &R,
    alloc: Global,
    trace: &Trace,
    from: usize,
    to: usize,
    shelf: &mut H,
    planes: &[Plane],
    agents: &mut [Agent],
    workers: u32,
    crew: &mut Crew,
    turnstile: &T,
    state: &mut State,
) -> Result<usize, NoMemory>
    requires sound { IsSound trace.now }
    requires there { to < length trace.now.lines }
    requires some { 2 ≤ workers }
    requires few { workers ≤ MOST_PASSES }
    requires crew { IsCrewOf workers (count trace.now) crew.old }
    requires beside { AreBeside planes.now agents.old }
    requires ready { (start : ShelfView) × HasCut (by_workers workers) StandsFor trace.now start from to agents.old state.old
        (view_of H.tells H.contents H.faults shelf.old) }
    ensures crew { OnOk result (IsCrewOf workers (count trace.now) crew.new) }
    ensures beside { OnOk result (AreBeside planes.now agents.new) }
    ensures cuts { IfOk result (λ next. Cuts (by_workers workers) StandsFor trace.now from to next agents.old agents.new
        state.old state.new (view_of H.tells H.contents H.faults shelf.old) (view_of H.tells H.contents H.faults shelf.new)) }
{
    if is_barrier(&trace.lines.items()[to].what) {
        segment_and_barrier(
            rt, alloc, trace, from, to, shelf, planes, agents, workers, crew, turnstile, state,
        )?;
        return Ok(to + 1);
    }
    Ok(from)
}

fn all_segments<R: Threads + Wait + Sync, T: Turnstile, H: Shelf + Send>(
    rt: &R,
    alloc: Global,
    trace: &Trace,
    shelf: &mut H,
    planes: &[Plane],
    agents: &mut [Agent],
    workers: u32,
    crew: &mut Crew,
    turnstile: &T,
    state: &mut State,
) -> Result<(), NoMemory>
    requires sound { IsSound trace.now }
    requires some { 2 ≤ workers }
    requires few { workers ≤ MOST_PASSES }
    requires crew { IsCrewOf workers (count trace.now) crew.old }
    requires beside { AreBeside planes.now agents.old }
    requires begins { HasDone (by_workers workers) StandsFor trace.now (view_of H.tells H.contents H.faults shelf.old) 0
        agents.old state.old (view_of H.tells H.contents H.faults shelf.old) }
    ensures beside { OnOk result (AreBeside planes.now agents.new) }
    ensures done { OnOk result (HasDone (by_workers workers) StandsFor trace.now (view_of H.tells H.contents H.faults shelf.old)
        (length trace.now.lines) agents.new state.new (view_of H.tells H.contents H.faults shelf.new)) }
{
    let mut from = 0;
    for to in 0..trace.lines.items().len() {
        from = advance(
            rt, alloc, trace, from, to, shelf, planes, agents, workers, crew, turnstile, state,
        )?;
    }
    Ok(())
}

fn replay_together<R: Threads + Wait + Sync, T: Turnstile, H: Shelf + Send>(
    rt: &R,
    alloc: Global,
    trace: &Trace,
    shelf: &mut H,
    yard: &mut Yard,
    workers: u32,
    turnstile: &T,
    room: Vec<u8>,
) -> Result<Replayed, NoMemory>
    requires sound { IsSound trace.now }
    requires empty { yard.old ≡ [] }
    requires some { 2 ≤ workers }
    requires few { workers ≤ MOST_PASSES }
    ensures replayed { IfOk result (λ r. IsReplayedBy workers trace.now r.report r.totals
        (views_of H.tells H.contents H.faults shelf.old shelf.new) yard.new) }
    ensures unopened { OnErr result (yard.new ≡ []) }
{
    let routers = trace.topology.routers();
    let (planes, mut agents) = open_all(alloc, &trace.rules, routers)?;
    let mut crew = crew_of(alloc, workers, routers)?;
    let mut state = begun(alloc, trace, room)?;
    all_segments(
        rt,
        alloc,
        trace,
        shelf,
        &planes,
        &mut agents,
        workers,
        &mut crew,
        turnstile,
        &mut state,
    )?;
    *yard = Yard { planes, agents };
    Ok(Replayed {
        report: List::of(state.report),
        totals: state.totals,
    })
}

/// Replays a trace with 1 to 16 workers over a shelf, segment by segment, on a plane for each router, and leaves these with their
/// agents in the yard. With one worker it is `replay_alone`. With several, the records of a segment are dealt to the workers in
/// turn, and the calling thread rotates, archives and watches beside them; the regions of a query are asked at once, each in a
/// thread of its own. The trace keeps to the rules on names, packets, numbers and times, as each trace that was read does. The
/// bytes in the room are dropped, and the report is written into its memory.
///
/// Costs what `replay_alone` does, with the records of a segment shared among the workers. Takes beside its memory a pass for each
/// worker at each router, for each line of a segment 8 bytes, for each record of it its place and its page, and during a query
/// a search for each region.
pub fn replay<R: Threads + Wait + Sync, T: Turnstile, H: Shelf + Send>(
    rt: &R,
    alloc: Global,
    trace: &Trace,
    shelf: &mut H,
    yard: &mut Yard,
    workers: u32,
    turnstile: &T,
    room: Vec<u8>,
) -> Result<Replayed, NoMemory>
    requires sound { IsSound trace.now }
    requires empty { yard.old ≡ [] }
    requires some { 1 ≤ workers }
    requires few { workers ≤ MOST_PASSES }
    ensures replayed { IfOk result (λ r. IsReplayedBy workers trace.now r.report r.totals
        (views_of H.tells H.contents H.faults shelf.old shelf.new) yard.new) }
    ensures unopened { OnErr result (yard.new ≡ []) }
{
    if workers == 1 {
        return replay_alone(alloc, trace, shelf, yard, room);
    }
    replay_together(rt, alloc, trace, shelf, yard, workers, turnstile, room)
}
