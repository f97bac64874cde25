// The replay of a trace by one worker.
ghost use Rattle.std.specs.Prelude.{◌≡◌, [], IfOk, OnOk, OnErr, length, take};
ghost use Rattle.topology.specs.Layout.{IsSound as IsSoundLayout};
ghost use Rattle.trace_format.specs.Sound.{IsSound};
ghost use Rattle.trace_history.specs.Routers.{count};
ghost use Rattle.trace_history.specs.Workers.{IsReplayedBy};
ghost use Rattle.data_agent.specs.Standing.{StandsFor};
ghost use Rattle.router_account.specs.Shelves.{view_of};
ghost use Rattle.trace_replay.specs.Agents.{views_of};
ghost use Rattle.trace_replay.specs.Loop.{HasDone, Proceeds};
ghost use Rattle.trace_replay.specs.Segments.{is_barrier_line};
ghost use Rattle.trace_replay.specs.Standing.{IsBegun, IsNext};
ghost use Rattle.trace_replay.specs.Yards.{AreBeside, AreOpened, by_workers};

use crate::agents::open_all;
use crate::closing::line_closing;
use crate::finder::InTurn;
use crate::lines::line_within;
use crate::state::State;
use crate::yard::Yard;
use data_agent::Agent;
use page_gate::Plane;
use page_shelf::Shelf;
use report_text::{Item, push_item};
use spie_base::{List, NoMemory};
use std::alloc::Global;
use trace_format::{Line, Trace, What};
use trace_history::Totals;

const NO_TOTALS: Totals = Totals {
    nodes: 0,
    edges: 0,
    unknown: 0,
    clear: 0,
};

/// The report of a replay, and the sums over its answers.
#[derive(PartialEq, Eq, Debug, Drop)]
pub struct Replayed {
    pub report: List<u8>,
    pub totals: Totals,
}

pub fn is_barrier(what: &What) -> bool
    ensures { result ≡ is_barrier_line what.now }
{
    matches!(what, What::Tick { .. } | What::Query { .. } | What::End)
}

fn step<H: Shelf>(
    alloc: Global,
    trace: &Trace,
    line: &Line,
    shelf: &mut H,
    planes: &[Plane],
    agents: &mut [Agent],
    state: &mut State,
) -> Result<(), NoMemory>
    requires links { IsSoundLayout trace.now.topology }
    requires beside { AreBeside planes.now agents.old }
    requires ready { IsNext (by_workers 1) StandsFor trace.now line.now agents.old state.old
        (view_of H.tells H.contents H.faults shelf.old) }
    ensures beside { OnOk result (AreBeside planes.now agents.new) }
    ensures proceeds { OnOk result (Proceeds (by_workers 1) StandsFor trace.now line.now agents.old agents.new state.old state.new
        (view_of H.tells H.contents H.faults shelf.old) (view_of H.tells H.contents H.faults shelf.new)) }
{
    if is_barrier(&line.what) {
        line_closing(&InTurn, alloc, trace, line, shelf, planes, agents, state)?;
        return Ok(());
    }
    line_within(alloc, trace, line, shelf, planes, agents, state)?;
    Ok(())
}

fn all_lines<H: Shelf>(
    alloc: Global,
    trace: &Trace,
    lines: &[Line],
    shelf: &mut H,
    planes: &[Plane],
    agents: &mut [Agent],
    state: &mut State,
) -> Result<(), NoMemory>
    requires sound { IsSound trace.now }
    requires lines { lines.now ≡ take (length lines.now) trace.now.lines }
    requires beside { AreBeside planes.now agents.old }
    requires begins { HasDone (by_workers 1) StandsFor trace.now (view_of H.tells H.contents H.faults shelf.old) 0
        agents.old state.old (view_of H.tells H.contents H.faults shelf.old) }
    ensures beside { OnOk result (AreBeside planes.now agents.new) }
    ensures done { OnOk result (HasDone (by_workers 1) StandsFor trace.now (view_of H.tells H.contents H.faults shelf.old) (length lines.now)
        agents.new state.new (view_of H.tells H.contents H.faults shelf.new)) }
{
    for line in lines {
        step(alloc, trace, line, shelf, planes, agents, state)?;
    }
    Ok(())
}

pub fn begun(alloc: Global, trace: &Trace, room: Vec<u8>) -> Result<State, NoMemory>
    ensures { IfOk result (IsBegun trace.now) }
{
    let mut report = room;
    report.clear();
    push_item(&mut report, &trace.topology, &Item::Head)?;
    Ok(State {
        clock: 0,
        first: 0,
        answers: Vec::new(alloc),
        report,
        totals: NO_TOTALS,
    })
}

/// Replays the first lines of a trace, by agents that have recorded nothing. The state is that behind the last of these
/// lines. The report is written into the room, whose bytes are dropped.
pub fn replay_lines<H: Shelf>(
    alloc: Global,
    trace: &Trace,
    lines: &[Line],
    shelf: &mut H,
    planes: &[Plane],
    agents: &mut [Agent],
    room: Vec<u8>,
) -> Result<State, NoMemory>
    requires sound { IsSound trace.now }
    requires lines { lines.now ≡ take (length lines.now) trace.now.lines }
    requires opened { AreOpened trace.now.rules (count trace.now) planes.now agents.old }
    ensures beside { OnOk result (AreBeside planes.now agents.new) }
    ensures done { IfOk result (λ state. HasDone (by_workers 1) StandsFor trace.now (view_of H.tells H.contents H.faults shelf.old) (length lines.now)
        agents.new state (view_of H.tells H.contents H.faults shelf.new)) }
{
    let mut state = begun(alloc, trace, room)?;
    all_lines(alloc, trace, lines, shelf, planes, agents, &mut state)?;
    Ok(state)
}

/// Replays a trace with one worker over a shelf, segment by segment, on a plane for each router, and leaves these with their
/// agents in the yard. The trace keeps to the rules on names, packets, numbers and times, as each trace that was read
/// does. The bytes in the room are dropped, and the report is written into its memory.
///
/// Costs, for a record, 7·k multiplications, k bits that are set and its line; for a watch, as much for each page of its
/// window; for a barrier, what each router's does, and the lines that waited for it; for a query, its flood over the pages of
/// the window, and the lines of its answer. Takes a plane of four pages for each router, a page for each further page of a
/// router that is in memory, 8 bytes for each line of a segment from its first archival on, what the flood takes during a
/// query, and what the report is longer than the room.
pub fn replay_alone<H: Shelf>(
    alloc: Global,
    trace: &Trace,
    shelf: &mut H,
    yard: &mut Yard,
    room: Vec<u8>,
) -> Result<Replayed, NoMemory>
    requires sound { IsSound trace.now }
    requires empty { yard.old ≡ [] }
    ensures replayed { IfOk result (λ r. IsReplayedBy 1 trace.now r.report r.totals
        (views_of H.tells H.contents H.faults shelf.old shelf.new) yard.new) }
    ensures unopened { OnErr result (yard.new ≡ []) }
{
    let (planes, mut agents) = open_all(alloc, &trace.rules, trace.topology.routers())?;
    let state = replay_lines(
        alloc,
        trace,
        trace.lines.items(),
        shelf,
        &planes,
        &mut agents,
        room,
    )?;
    *yard = Yard { planes, agents };
    Ok(Replayed {
        report: List::of(state.report),
        totals: state.totals,
    })
}
