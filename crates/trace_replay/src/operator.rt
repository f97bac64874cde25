// The operator of a segment, who rotates, archives and watches while workers record.
ghost use Rattle.std.specs.Prelude.{ℕ, ◌≡◌, ◌∷◌, [], ◌++◌, ◌+◌, ◌<◌, true, false, OnOk, length};
ghost use Rattle.trace_format.specs.declared.What.TheVariants.{Rotate, Archive, Watch as WatchLine};
ghost use Rattle.trace_format.specs.Sound.{is_recording};
ghost use Rattle.router_account.specs.Shelves.{ShelfView, view_of};
ghost use Rattle.data_agent.specs.Planes.{entries_of};
ghost use Rattle.trace_replay.specs.Aways.{besides, reads};
ghost use Rattle.trace_replay.specs.Operating.{MayOperate, DoesBeside, OperatesFrom, IsAtLine, KeepEntries};
ghost use Rattle.trace_replay.specs.Segments.{is_barrier_line};
ghost use Rattle.trace_replay.specs.Yards.{AreBeside};

use crate::lines::sig_of;
use crate::state::Answer;
use data_agent::Agent;
use page_gate::Plane;
use page_shelf::Shelf;
use spie_base::{NoMemory, RouterId};
use std::alloc::Global;
use std::sync::Wait;
use std::thread::Threads;
use trace_format::{Line, Trace, What};
use trace_workers::{Turnstile, is_record};

// One answer more.
pub fn push_answer(answers: &mut Vec<Answer>, answer: Answer) -> Result<(), NoMemory>
    ensures { OnOk result (answers.new.items ≡ answers.old.items ++ answer ∷ []) }
{
    answers.push(answer)?;
    Ok(())
}

fn rotate<R: Wait>(
    rt: &R,
    alloc: Global,
    trace: &Trace,
    line: &Line,
    router: RouterId,
    clock: u64,
    planes: &[Plane],
    agents: &mut [Agent],
    answers: &mut Vec<Answer>,
) -> Result<(), NoMemory>
    requires is { line.now.what ≡ Rotate router }
    requires beside { AreBeside planes.now agents.old }
    requires ready { (now : ShelfView)
        × MayOperate besides reads trace.now line.now agents.old clock answers.old.items now }
    ensures beside { OnOk result (AreBeside planes.now agents.new) }
    ensures entries { OnOk result (KeepEntries entries_of agents.old agents.new) }
    ensures does { OnOk result ((now : ShelfView) →
        DoesBeside besides reads trace.now line.now agents.old agents.new clock
        answers.old.items answers.new.items now now) }
{
    let at = router.number as usize;
    let page = agents[at].rotate(rt, alloc, &planes[at], clock)?;
    push_answer(answers, Answer::Opened(page))?;
    Ok(())
}

fn watch(
    trace: &Trace,
    line: &Line,
    router: RouterId,
    packet: u32,
    clock: u64,
    planes: &[Plane],
    agents: &mut [Agent],
    answers: &mut Vec<Answer>,
) -> Result<(), NoMemory>
    requires is { line.now.what ≡ WatchLine router packet }
    requires beside { AreBeside planes.now agents.old }
    requires ready { (now : ShelfView)
        × MayOperate besides reads trace.now line.now agents.old clock answers.old.items now }
    ensures beside { OnOk result (AreBeside planes.now agents.new) }
    ensures entries { OnOk result (KeepEntries entries_of agents.old agents.new) }
    ensures does { OnOk result ((now : ShelfView) →
        DoesBeside besides reads trace.now line.now agents.old agents.new clock
        answers.old.items answers.new.items now now) }
{
    let sig = sig_of(trace, packet);
    let at = router.number as usize;
    let seen = agents[at].watch(&planes[at], clock, &sig);
    push_answer(answers, Answer::Watched(seen))?;
    Ok(())
}

// How the pages are split is known at the barrier, and so the line is printed there.
fn archive<H: Shelf>(
    alloc: Global,
    trace: &Trace,
    line: &Line,
    router: RouterId,
    shelf: &mut H,
    planes: &[Plane],
    agents: &mut [Agent],
    answers: &mut Vec<Answer>,
) -> Result<(), NoMemory>
    requires is { line.now.what ≡ Archive router }
    requires beside { AreBeside planes.now agents.old }
    requires ready { (clock : ℕ) × MayOperate besides reads trace.now line.now agents.old clock answers.old.items
        (view_of H.tells H.contents H.faults shelf.old) }
    ensures beside { OnOk result (AreBeside planes.now agents.new) }
    ensures entries { OnOk result (KeepEntries entries_of agents.old agents.new) }
    ensures does { OnOk result ((clock : ℕ) → DoesBeside besides reads trace.now line.now agents.old agents.new clock
        answers.old.items answers.new.items
        (view_of H.tells H.contents H.faults shelf.old) (view_of H.tells H.contents H.faults shelf.new)) }
{
    let at = router.number as usize;
    agents[at].archive(alloc, &planes[at], shelf)?;
    push_answer(answers, Answer::Archived(router))?;
    Ok(())
}

// A line that is no record.
fn operation<R: Wait, H: Shelf>(
    rt: &R,
    alloc: Global,
    trace: &Trace,
    line: &Line,
    clock: u64,
    shelf: &mut H,
    planes: &[Plane],
    agents: &mut [Agent],
    answers: &mut Vec<Answer>,
) -> Result<(), NoMemory>
    requires inner { is_barrier_line line.now.what ≡ false }
    requires other { is_recording line.now.what ≡ false }
    requires beside { AreBeside planes.now agents.old }
    requires ready { MayOperate besides reads trace.now line.now agents.old clock answers.old.items
        (view_of H.tells H.contents H.faults shelf.old) }
    ensures beside { OnOk result (AreBeside planes.now agents.new) }
    ensures entries { OnOk result (KeepEntries entries_of agents.old agents.new) }
    ensures does { OnOk result (DoesBeside besides reads trace.now line.now agents.old agents.new clock
        answers.old.items answers.new.items
        (view_of H.tells H.contents H.faults shelf.old) (view_of H.tells H.contents H.faults shelf.new)) }
{
    match line.what {
        What::Rotate { router } => rotate(
            rt, alloc, trace, line, router, clock, planes, agents, answers,
        ),
        What::Archive { router } => archive(
            alloc, trace, line, router, shelf, planes, agents, answers,
        ),
        What::Watch { router, packet } => watch(
            trace, line, router, packet, clock, planes, agents, answers,
        ),
        _ => unreachable!(),
    }
}

// The line at a place, where it is no record.
fn operate_at<R: Threads + Wait + Sync, H: Shelf, T: Turnstile>(
    rt: &R,
    alloc: Global,
    trace: &Trace,
    lines: &[Line],
    i: usize,
    clock: u64,
    turnstile: &T,
    shelf: &mut H,
    planes: &[Plane],
    agents: &mut [Agent],
    answers: &mut Vec<Answer>,
) -> Result<(), NoMemory>
    requires there { i < length lines.now }
    requires beside { AreBeside planes.now agents.old }
    requires ready { IsAtLine besides reads trace.now lines.now i agents.old clock answers.old.items
        (view_of H.tells H.contents H.faults shelf.old) }
    ensures beside { OnOk result (AreBeside planes.now agents.new) }
    ensures entries { OnOk result (KeepEntries entries_of agents.old agents.new) }
    ensures operates { OnOk result (OperatesFrom besides reads trace.now lines.now i (i + 1)
        agents.old agents.new clock answers.old.items answers.new.items
        (view_of H.tells H.contents H.faults shelf.old) (view_of H.tells H.contents H.faults shelf.new)) }
{
    let line = &lines[i];
    if is_record(&line.what) {
        return Ok(());
    }
    turnstile.before(rt, line.number);
    operation(
        rt, alloc, trace, line, clock, shelf, planes, agents, answers,
    )?;
    turnstile.after(rt, line.number, None);
    Ok(())
}

/// The operator's lines of a segment, which are those that are no records, in order. Their answers are added in order.
/// Takes memory for these, and as the agents do.
pub fn operate<R: Threads + Wait + Sync, H: Shelf, T: Turnstile>(
    rt: &R,
    alloc: Global,
    trace: &Trace,
    lines: &[Line],
    clock: u64,
    turnstile: &T,
    shelf: &mut H,
    planes: &[Plane],
    agents: &mut [Agent],
    answers: &mut Vec<Answer>,
) -> Result<(), NoMemory>
    requires beside { AreBeside planes.now agents.old }
    requires ready { IsAtLine besides reads trace.now lines.now 0 agents.old clock answers.old.items
        (view_of H.tells H.contents H.faults shelf.old) }
    ensures beside { OnOk result (AreBeside planes.now agents.new) }
    ensures entries { OnOk result (KeepEntries entries_of agents.old agents.new) }
    ensures operates { OnOk result (OperatesFrom besides reads trace.now lines.now 0 (length lines.now)
        agents.old agents.new clock answers.old.items answers.new.items
        (view_of H.tells H.contents H.faults shelf.old) (view_of H.tells H.contents H.faults shelf.new)) }
{
    for i in 0..lines.len() {
        operate_at(
            rt, alloc, trace, lines, i, clock, turnstile, shelf, planes, agents, answers,
        )?;
    }
    Ok(())
}
