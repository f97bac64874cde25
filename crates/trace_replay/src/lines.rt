// The lines of a segment, one after another.
ghost use Rattle.std.specs.Prelude.{◌≡◌, ◌<◌, ◌^◌, true, false, OnOk, length, slice_get, Some};
ghost use Rattle.trace_format.specs.declared.What.TheVariants.{Fwd, Xf, Rotate, Archive, Watch as WatchLine};
ghost use Rattle.router_account.specs.Shelves.{ShelfView, view_of};
ghost use Rattle.data_agent.specs.Standing.{StandsFor};
ghost use Rattle.trace_replay.specs.Segments.{is_barrier_line};
ghost use Rattle.trace_replay.specs.Standing.{IsNext, Does, Adds};
ghost use Rattle.trace_replay.specs.Yards.{AreBeside, by_workers};

use crate::printing::push_plain;
use crate::state::{Answer, State};
use data_agent::Agent;
use packet_signature::{Kind, row};
use page_gate::Plane;
use page_shelf::Shelf;
use spie_base::{NoMemory, RouterId, Sig};
use std::alloc::Global;
use trace_format::{Line, Trace, What};

/// The signature of a packet.
pub fn sig_of(trace: &Trace, packet: u32) -> Sig
    requires { packet < length trace.now.sigs }
    ensures { slice_get trace.now.sigs packet ≡ Some result }
{
    trace.sigs.items()[packet as usize]
}

// An answer is printed at once, but for an archival, whose split is known at the barrier, and what stands behind one.
#[inline]
fn answered(trace: &Trace, line: &Line, state: &mut State, answer: Answer) -> Result<(), NoMemory>
    requires { state.old.first < 2 ^ 63 }
    ensures { OnOk result (Adds trace.now line.now.number state.old state.new answer) }
{
    if !state.answers.is_empty() || matches!(answer, Answer::Archived(_)) {
        state.answers.push(answer)?;
        return Ok(());
    }
    push_plain(&mut state.report, &trace.topology, line.number, answer)?;
    state.first += 1;
    Ok(())
}

fn forward(
    trace: &Trace,
    line: &Line,
    router: RouterId,
    packet: u32,
    planes: &[Plane],
    agents: &mut [Agent],
    state: &mut State,
) -> Result<(), NoMemory>
    requires is { line.now.what ≡ Fwd router packet }
    requires beside { AreBeside planes.now agents.old }
    requires ready { (now : ShelfView) × IsNext (by_workers 1) StandsFor trace.now line.now agents.old state.old now }
    ensures beside { OnOk result (AreBeside planes.now agents.new) }
    ensures does { OnOk result ((now : ShelfView) →
        Does (by_workers 1) StandsFor trace.now line.now agents.old agents.new state.old state.new now now) }
{
    let sig = sig_of(trace, packet);
    let at = router.number as usize;
    let page = agents[at].forward(&planes[at], &sig);
    answered(trace, line, state, Answer::Entered(page))?;
    Ok(())
}

// The new signature is recorded, and the row says what it was before.
fn transform(
    alloc: Global,
    trace: &Trace,
    line: &Line,
    router: RouterId,
    kind: Kind,
    old: u32,
    new: u32,
    planes: &[Plane],
    agents: &mut [Agent],
    state: &mut State,
) -> Result<(), NoMemory>
    requires is { line.now.what ≡ Xf router kind old new }
    requires beside { AreBeside planes.now agents.old }
    requires ready { (now : ShelfView) × IsNext (by_workers 1) StandsFor trace.now line.now agents.old state.old now }
    ensures beside { OnOk result (AreBeside planes.now agents.new) }
    ensures does { OnOk result ((now : ShelfView) →
        Does (by_workers 1) StandsFor trace.now line.now agents.old agents.new state.old state.new now now) }
{
    let before = sig_of(trace, old);
    let sig = sig_of(trace, new);
    let at = router.number as usize;
    let agent = &mut agents[at];
    let page = agent.forward(&planes[at], &sig);
    agent.transform(alloc, page, &row(kind, &before, &sig))?;
    answered(trace, line, state, Answer::Entered(page))?;
    Ok(())
}

fn rotate(
    alloc: Global,
    trace: &Trace,
    line: &Line,
    router: RouterId,
    planes: &[Plane],
    agents: &mut [Agent],
    state: &mut State,
) -> Result<(), NoMemory>
    requires is { line.now.what ≡ Rotate router }
    requires beside { AreBeside planes.now agents.old }
    requires ready { (now : ShelfView) × IsNext (by_workers 1) StandsFor trace.now line.now agents.old state.old now }
    ensures beside { OnOk result (AreBeside planes.now agents.new) }
    ensures does { OnOk result ((now : ShelfView) →
        Does (by_workers 1) StandsFor trace.now line.now agents.old agents.new state.old state.new now now) }
{
    let at = router.number as usize;
    let page = agents[at].rotate_alone(alloc, &planes[at], state.clock)?;
    answered(trace, line, state, Answer::Opened(page))?;
    Ok(())
}

fn watch(
    trace: &Trace,
    line: &Line,
    router: RouterId,
    packet: u32,
    planes: &[Plane],
    agents: &mut [Agent],
    state: &mut State,
) -> Result<(), NoMemory>
    requires is { line.now.what ≡ WatchLine router packet }
    requires beside { AreBeside planes.now agents.old }
    requires ready { (now : ShelfView) × IsNext (by_workers 1) StandsFor trace.now line.now agents.old state.old now }
    ensures beside { OnOk result (AreBeside planes.now agents.new) }
    ensures does { OnOk result ((now : ShelfView) →
        Does (by_workers 1) StandsFor trace.now line.now agents.old agents.new state.old state.new now now) }
{
    let sig = sig_of(trace, packet);
    let at = router.number as usize;
    let seen = agents[at].watch(&planes[at], state.clock, &sig);
    answered(trace, line, state, Answer::Watched(seen))?;
    Ok(())
}

// How the pages are split is known at the barrier, and so the line is printed there.
fn archive<H: Shelf>(
    alloc: Global,
    trace: &Trace,
    line: &Line,
    router: RouterId,
    shelf: &mut H,
    planes: &[Plane],
    agents: &mut [Agent],
    state: &mut State,
) -> Result<(), NoMemory>
    requires is { line.now.what ≡ Archive router }
    requires beside { AreBeside planes.now agents.old }
    requires ready { IsNext (by_workers 1) StandsFor trace.now line.now agents.old state.old
        (view_of H.tells H.contents H.faults shelf.old) }
    ensures beside { OnOk result (AreBeside planes.now agents.new) }
    ensures does { OnOk result (Does (by_workers 1) StandsFor trace.now line.now agents.old agents.new state.old state.new
        (view_of H.tells H.contents H.faults shelf.old) (view_of H.tells H.contents H.faults shelf.new)) }
{
    let at = router.number as usize;
    agents[at].archive(alloc, &planes[at], shelf)?;
    answered(trace, line, state, Answer::Archived(router))?;
    Ok(())
}

/// A line of a segment.
pub fn line_within<H: Shelf>(
    alloc: Global,
    trace: &Trace,
    line: &Line,
    shelf: &mut H,
    planes: &[Plane],
    agents: &mut [Agent],
    state: &mut State,
) -> Result<(), NoMemory>
    requires inner { is_barrier_line line.now.what ≡ false }
    requires beside { AreBeside planes.now agents.old }
    requires ready { IsNext (by_workers 1) StandsFor trace.now line.now agents.old state.old
        (view_of H.tells H.contents H.faults shelf.old) }
    ensures beside { OnOk result (AreBeside planes.now agents.new) }
    ensures does { OnOk result (Does (by_workers 1) StandsFor trace.now line.now agents.old agents.new state.old state.new
        (view_of H.tells H.contents H.faults shelf.old) (view_of H.tells H.contents H.faults shelf.new)) }
{
    match line.what {
        What::Fwd { router, packet } => forward(trace, line, router, packet, planes, agents, state),
        What::Xf {
            router,
            kind,
            old,
            new,
        } => transform(
            alloc, trace, line, router, kind, old, new, planes, agents, state,
        ),
        What::Rotate { router } => rotate(alloc, trace, line, router, planes, agents, state),
        What::Archive { router } => archive(
            alloc, trace, line, router, shelf, planes, agents, state,
        ),
        What::Watch { router, packet } => watch(trace, line, router, packet, planes, agents, state),
        _ => unreachable!(),
    }
}
