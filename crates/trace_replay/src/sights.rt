// The sights of one query.
ghost use Rattle.std.specs.Prelude.{◌≡◌, ◌<◌, ◌↔◌, true, IfOk, Some, length, slice_index_or};
ghost use Rattle.trace_format.specs.Sound.{IsSound};
ghost use Rattle.data_agent.specs.Seeing.{shown_by, told_by};
ghost use Rattle.trace_replay.specs.Agents.{views_of};
ghost use Rattle.trace_replay.specs.Segments.{no_line};
ghost use Rattle.trace_replay.specs.Sights.{query_time, time_at, HasQuery, AreSights};

use crate::agents::{open_all, pass_all, prepare_all, see_all};
use crate::alone::replay_lines;
use crate::yard::Yard;
use data_agent::Sight;
use page_shelf::Shelf;
use spie_base::NoMemory;
use std::alloc::Global;
use trace_format::{Line, Trace, What};

fn asked_time(what: &What) -> Option<u64>
    ensures { result ≡ query_time what.now }
{
    match what {
        What::Query { time, .. } => Some(*time),
        _ => None,
    }
}

fn time_of(line: &Line, number: u64) -> Option<u64>
    ensures { result ≡ time_at number line.now }
{
    if line.number == number {
        return asked_time(&line.what);
    }
    None
}

/// Whether the line of this number is a query.
pub fn has_query(trace: &Trace, number: u64) -> bool
    ensures { (result ≡ true) ↔ HasQuery trace.now.lines number }
{
    for line in trace.lines.items() {
        if time_of(line, number).is_some() {
            return true;
        }
    }
    false
}

/// The place of the query of this number, and its time.
fn find_query(lines: &[Line], number: u64) -> (usize, u64)
    requires { HasQuery lines.now number }
    ensures there { result.0 < length lines.now }
    ensures time { time_at number (slice_index_or lines.now result.0 no_line) ≡ Some result.1 }
{
    for place in 0..lines.len() {
        if let Some(time) = time_of(&lines[place], number) {
            return (place, time);
        }
    }
    unreachable!()
}

/// Replays a trace with one worker up to the query at this line, and says what the query sees of each router, in their
/// order. Leaves in the yard the routers as they are behind the query's barrier: sights borrow their pages, so the caller
/// keeps it, and what was there before is dropped. The shelf is read for the queries before this one too.
///
/// Costs what `replay_alone` costs up to that line, without the flood and the lines of this query.
pub fn sights_alone<'a, H: Shelf>(
    alloc: Global,
    trace: &Trace,
    shelf: &mut H,
    line: u64,
    yard: &'a mut Yard,
) -> Result<Vec<Sight<'a>>, NoMemory>
    requires sound { IsSound trace.now }
    requires query { HasQuery trace.now.lines line }
    ensures { IfOk result (λ sights. AreSights shown_by told_by trace.now line sights.items
        (views_of H.tells H.contents H.faults shelf.old shelf.new)) }
{
    let lines = trace.lines.items();
    let (place, time) = find_query(lines, line);
    let (planes, mut agents) = open_all(alloc, &trace.rules, trace.topology.routers())?;
    let state = replay_lines(
        alloc,
        trace,
        &lines[..place],
        shelf,
        &planes,
        &mut agents,
        Vec::new(alloc),
    )?;
    let _barriers = pass_all(alloc, shelf, state.clock, false, &planes, &mut agents)?;
    prepare_all(alloc, &planes, &mut agents)?;
    yard.planes = planes;
    yard.agents = agents;
    see_all(alloc, shelf, time, &yard.agents)
}
