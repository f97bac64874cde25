// The lines that end a segment.
ghost use Rattle.std.specs.Prelude.{ℕ, ◌≡◌, ◌<◌, ◌+◌, true, OnOk, length};
ghost use Rattle.topology.specs.Layout.{IsSound as IsSoundLayout};
ghost use Rattle.std.specs.List.{All};
ghost use Rattle.trace_format.specs.declared.What.TheVariants.{Tick, Query, End};
ghost use Rattle.trace_replay.specs.Segments.{is_barrier_line};
ghost use Rattle.data_agent.specs.Standing.{StandsFor};
ghost use Rattle.router_account.specs.Shelves.{view_of};
ghost use Rattle.trace_replay.specs.Barriers.{PrintsPending, Prints, tick_items, end_items};
ghost use Rattle.trace_replay.specs.Printing.{IsAnswerNamed};
ghost use Rattle.trace_replay.specs.Standing.{IsNext, Closes};
ghost use Rattle.trace_replay.specs.Yards.{AreBeside, by_workers};

use crate::agents::{pass_all, prepare_all, see_all};
use crate::barriers::{push_answers, push_closed, push_left};
use crate::finder::Finder;
use crate::lines::sig_of;
use crate::queries::print_query;
use crate::state::State;
use data_agent::{Agent, Barrier};
use page_gate::Plane;
use page_shelf::Shelf;
use report_text::{Item, push_item};
use reverse_flood::Node;
use spie_base::{NoMemory, RouterId};
use std::alloc::Global;
use trace_format::{Line, Trace, What};

// The answers that waited for the barrier are printed, and the next segment begins behind the barrier's line.
fn print_answers(
    alloc: Global,
    trace: &Trace,
    barriers: &[Barrier],
    state: &mut State,
) -> Result<(), NoMemory>
    requires there { state.old.first + length state.old.answers.items < length trace.now.lines }
    requires count { length barriers.now ≡ length trace.now.topology.names }
    requires named { All (IsAnswerNamed (length trace.now.topology.names)) state.old.answers.items }
    ensures { OnOk result (PrintsPending trace.now barriers.now state.old state.new) }
{
    let first = state.first;
    push_answers(
        alloc,
        &mut state.report,
        &trace.topology,
        trace.lines.items(),
        first,
        &state.answers,
        barriers,
    )?;
    state.first = first + state.answers.len() + 1;
    state.answers.clear();
    Ok(())
}

fn print_tick(
    trace: &Trace,
    line: u64,
    time: u64,
    barriers: &[Barrier],
    state: &mut State,
) -> Result<(), NoMemory>
    requires { length barriers.now ≡ length trace.now.topology.names }
    ensures { OnOk result (Prints trace.now (tick_items trace.now barriers.now line time) time state.old state.new) }
{
    push_item(
        &mut state.report,
        &trace.topology,
        &Item::Tick { line, time },
    )?;
    push_closed(&mut state.report, &trace.topology, line, barriers)?;
    push_left(&mut state.report, &trace.topology, line, barriers)?;
    state.clock = time;
    Ok(())
}

fn print_end(
    trace: &Trace,
    line: u64,
    barriers: &[Barrier],
    state: &mut State,
) -> Result<(), NoMemory>
    requires { length barriers.now ≡ length trace.now.topology.names }
    ensures { OnOk result (Prints trace.now (end_items trace.now barriers.now line)
        state.old.clock state.old state.new) }
{
    push_item(&mut state.report, &trace.topology, &Item::End { line })?;
    push_left(&mut state.report, &trace.topology, line, barriers)?;
    Ok(())
}

fn tick<H: Shelf>(
    alloc: Global,
    trace: &Trace,
    line: &Line,
    time: u64,
    shelf: &mut H,
    planes: &[Plane],
    agents: &mut [Agent],
    state: &mut State,
) -> Result<(), NoMemory>
    requires is { line.now.what ≡ Tick time }
    requires beside { AreBeside planes.now agents.old }
    requires ready { (W : ℕ) × IsNext (by_workers W) StandsFor trace.now line.now agents.old state.old
        (view_of H.tells H.contents H.faults shelf.old) }
    ensures beside { OnOk result (AreBeside planes.now agents.new) }
    ensures closes { OnOk result ((W : ℕ) → Closes (by_workers W) StandsFor trace.now line.now agents.old agents.new
        state.old state.new (view_of H.tells H.contents H.faults shelf.old) (view_of H.tells H.contents H.faults shelf.new)) }
{
    let barriers = pass_all(alloc, shelf, time, true, planes, agents)?;
    print_answers(alloc, trace, &barriers, state)?;
    print_tick(trace, line.number, time, &barriers, state)?;
    Ok(())
}

fn end<H: Shelf>(
    alloc: Global,
    trace: &Trace,
    line: &Line,
    shelf: &mut H,
    planes: &[Plane],
    agents: &mut [Agent],
    state: &mut State,
) -> Result<(), NoMemory>
    requires is { line.now.what ≡ End }
    requires beside { AreBeside planes.now agents.old }
    requires ready { (W : ℕ) × IsNext (by_workers W) StandsFor trace.now line.now agents.old state.old
        (view_of H.tells H.contents H.faults shelf.old) }
    ensures beside { OnOk result (AreBeside planes.now agents.new) }
    ensures closes { OnOk result ((W : ℕ) → Closes (by_workers W) StandsFor trace.now line.now agents.old agents.new
        state.old state.new (view_of H.tells H.contents H.faults shelf.old) (view_of H.tells H.contents H.faults shelf.new)) }
{
    let barriers = pass_all(alloc, shelf, state.clock, false, planes, agents)?;
    print_answers(alloc, trace, &barriers, state)?;
    print_end(trace, line.number, &barriers, state)?;
    Ok(())
}

fn query<F: Finder, H: Shelf>(
    finder: &F,
    alloc: Global,
    trace: &Trace,
    line: &Line,
    router: RouterId,
    packet: u32,
    time: u64,
    shelf: &mut H,
    planes: &[Plane],
    agents: &mut [Agent],
    state: &mut State,
) -> Result<(), NoMemory>
    requires found { F.ready finder.now }
    requires is { line.now.what ≡ Query router packet time }
    requires links { IsSoundLayout trace.now.topology }
    requires beside { AreBeside planes.now agents.old }
    requires ready { (W : ℕ) × IsNext (by_workers W) StandsFor trace.now line.now agents.old state.old
        (view_of H.tells H.contents H.faults shelf.old) }
    ensures beside { OnOk result (AreBeside planes.now agents.new) }
    ensures closes { OnOk result ((W : ℕ) → Closes (by_workers W) StandsFor trace.now line.now agents.old agents.new
        state.old state.new (view_of H.tells H.contents H.faults shelf.old) (view_of H.tells H.contents H.faults shelf.new)) }
{
    let sig = sig_of(trace, packet);
    let barriers = pass_all(alloc, shelf, state.clock, false, planes, agents)?;
    prepare_all(alloc, planes, agents)?;
    let sights = see_all(alloc, shelf, time, agents)?;
    let graph = finder.find(alloc, &trace.topology, &sights, &Node { router, sig })?;
    print_answers(alloc, trace, &barriers, state)?;
    print_query(alloc, trace, line.number, &barriers, &sights, &graph, state)?;
    Ok(())
}

/// The line that ends a segment.
pub fn line_closing<F: Finder, H: Shelf>(
    finder: &F,
    alloc: Global,
    trace: &Trace,
    line: &Line,
    shelf: &mut H,
    planes: &[Plane],
    agents: &mut [Agent],
    state: &mut State,
) -> Result<(), NoMemory>
    requires found { F.ready finder.now }
    requires barrier { is_barrier_line line.now.what ≡ true }
    requires links { IsSoundLayout trace.now.topology }
    requires beside { AreBeside planes.now agents.old }
    requires ready { (W : ℕ) × IsNext (by_workers W) StandsFor trace.now line.now agents.old state.old
        (view_of H.tells H.contents H.faults shelf.old) }
    ensures beside { OnOk result (AreBeside planes.now agents.new) }
    ensures closes { OnOk result ((W : ℕ) → Closes (by_workers W) StandsFor trace.now line.now agents.old agents.new
        state.old state.new (view_of H.tells H.contents H.faults shelf.old) (view_of H.tells H.contents H.faults shelf.new)) }
{
    match line.what {
        What::Tick { time } => tick(alloc, trace, line, time, shelf, planes, agents, state),
        What::Query {
            router,
            packet,
            time,
        } => query(
            finder, alloc, trace, line, router, packet, time, shelf, planes, agents, state,
        ),
        What::End => end(alloc, trace, line, shelf, planes, agents, state),
        _ => unreachable!(),
    }
}
