// What is left to do of a segment once its passes are back: the rows of its records, and the answers to all its lines.
ghost use Rattle.std.specs.Prelude.{◌≡◌, ◌++◌, ◌∷◌, [], ◌<◌, ◌≤◌, ◌+◌, ◌-◌, ◌^◌, ℕ, true, false, if◌then◌else◌};
ghost use Rattle.std.specs.Prelude.{List, IfOk, OnOk, length, slice_index_or};
ghost use Rattle.trace_format.specs.declared.What.TheVariants.{Xf};
ghost use Rattle.trace_format.specs.Sound.{is_recording};
ghost use Rattle.page_gate.specs.Held.{PlaneId};
ghost use Rattle.data_agent.specs.Planes.{entries_of};
ghost use Rattle.data_agent.specs.Standing.{StandsFor};
ghost use Rattle.trace_replay.specs.Concluding.{AddsRow, AddsRows, AreWithin, HavePagesFor, MayAddRow, MayAddRows};
ghost use Rattle.trace_replay.specs.Concluding.{all_answers, receipts_for};
ghost use Rattle.trace_replay.specs.declared.state.Answer.{Answer as TheAnswer};
ghost use Rattle.trace_replay.specs.declared.state.Answer.TheVariants.{Entered};
ghost use Rattle.trace_replay.specs.Merging.{operations};
ghost use Rattle.trace_workers.specs.Jobs.{HasPageAt, page_at, pages_of};
ghost use Rattle.trace_history.specs.Routers.{RouterRules};
ghost use Rattle.router_account.specs.Ledger.{Ledger, Unfinished};
ghost use Rattle.trace_replay.specs.Operating.{KeepEntries};
ghost use Rattle.trace_replay.specs.Yards.{AreBeside};

use crate::lines::sig_of;
use crate::operator::push_answer;
use crate::state::Answer;
use data_agent::Agent;
use packet_signature::{Kind, row};
use spie_base::{NoMemory, PageNo, RouterId};
use std::alloc::Global;
use trace_format::{Line, Trace, What};
use trace_workers::{Job, is_record, page_of};

fn change_row(
    alloc: Global,
    trace: &Trace,
    line: &Line,
    router: RouterId,
    kind: Kind,
    old: u32,
    new: u32,
    page: PageNo,
    agents: &mut [Agent],
) -> Result<(), NoMemory>
    requires is { line.now.what ≡ Xf router kind old new }
    requires ready { MayAddRow StandsFor trace.now line.now page.number agents.old }
    ensures beside { OnOk result ((planes : List PlaneId) → AreBeside planes agents.old → AreBeside planes agents.new) }
    ensures entries { OnOk result (KeepEntries entries_of agents.old agents.new) }
    ensures row { OnOk result (AddsRow StandsFor trace.now line.now page.number agents.old agents.new) }
{
    let before = sig_of(trace, old);
    let sig = sig_of(trace, new);
    let at = router.number as usize;
    agents[at].transform(alloc, page, &row(kind, &before, &sig))?;
    Ok(())
}

// The row of a record whose packet was changed.
fn add_row(
    alloc: Global,
    trace: &Trace,
    line: &Line,
    page: PageNo,
    agents: &mut [Agent],
) -> Result<(), NoMemory>
    requires recording { is_recording line.now.what ≡ true }
    requires ready { MayAddRow StandsFor trace.now line.now page.number agents.old }
    ensures beside { OnOk result ((planes : List PlaneId) → AreBeside planes agents.old → AreBeside planes agents.new) }
    ensures entries { OnOk result (KeepEntries entries_of agents.old agents.new) }
    ensures row { OnOk result (AddsRow StandsFor trace.now line.now page.number agents.old agents.new) }
{
    match line.what {
        What::Xf {
            router,
            kind,
            old,
            new,
        } => change_row(alloc, trace, line, router, kind, old, new, page, agents),
        _ => Ok(()),
    }
}

// The same at any line. Answers which record comes next.
fn row_at(
    alloc: Global,
    trace: &Trace,
    line: &Line,
    j: usize,
    jobs: &[Job],
    agents: &mut [Agent],
) -> Result<usize, NoMemory>
    requires some { 0 < length jobs.now }
    requires few { j < 2 ^ 32 }
    requires page { is_recording line.now.what ≡ true → HasPageAt (pages_of jobs.now) j }
    requires ready { is_recording line.now.what ≡ true
        → MayAddRow StandsFor trace.now line.now (page_at (pages_of jobs.now) j).number agents.old }
    ensures next { IfOk result (λ next. next ≡ (if is_recording line.now.what then j + 1 else j)) }
    ensures beside { OnOk result ((planes : List PlaneId) → AreBeside planes agents.old → AreBeside planes agents.new) }
    ensures entries { OnOk result (KeepEntries entries_of agents.old agents.new) }
    ensures row { OnOk result (is_recording line.now.what ≡ true
        → AddsRow StandsFor trace.now line.now (page_at (pages_of jobs.now) j).number agents.old agents.new) }
    ensures same { OnOk result (is_recording line.now.what ≡ false → agents.new ≡ agents.old) }
{
    if !is_record(&line.what) {
        return Ok(j);
    }
    add_row(alloc, trace, line, page_of(jobs, j), agents)?;
    Ok(j + 1)
}

/// Adds the rows of a segment's records to the tables of their routers, in line order.
pub fn add_rows(
    alloc: Global,
    trace: &Trace,
    lines: &[Line],
    jobs: &[Job],
    agents: &mut [Agent],
) -> Result<(), NoMemory>
    requires some { 0 < length jobs.now }
    requires few { length lines.now < 2 ^ 32 }
    requires pages { HavePagesFor lines.now jobs.now }
    requires within { AreWithin (length agents.old) (length trace.now.sigs) lines.now }
    requires ready { (rules : RouterRules) × (ls : ℕ → Ledger) × (us : ℕ → Unfinished)
        × MayAddRows StandsFor rules ls us (receipts_for trace.now lines.now jobs.now) agents.old }
    ensures beside { OnOk result ((planes : List PlaneId) → AreBeside planes agents.old → AreBeside planes agents.new) }
    ensures entries { OnOk result (KeepEntries entries_of agents.old agents.new) }
    ensures rows { OnOk result (AddsRows StandsFor (receipts_for trace.now lines.now jobs.now) agents.old agents.new) }
{
    let mut j = 0;
    for i in 0..lines.len() {
        j = row_at(alloc, trace, &lines[i], j, jobs, agents)?;
    }
    Ok(())
}

// The answer to one line. Answers which record comes next.
fn answer_at(
    line: &Line,
    i: usize,
    j: usize,
    jobs: &[Job],
    given: &[Answer],
    answers: &mut Vec<Answer>,
) -> Result<usize, NoMemory>
    requires some { 0 < length jobs.now }
    requires few { i < 2 ^ 32 }
    requires order { j ≤ i }
    requires page { is_recording line.now.what ≡ true → HasPageAt (pages_of jobs.now) j }
    requires given { is_recording line.now.what ≡ false → i - j < length given.now }
    ensures next { IfOk result (λ next. next ≡ (if is_recording line.now.what then j + 1 else j)) }
    ensures answer { OnOk result ((d : TheAnswer) → answers.new.items ≡ answers.old.items
        ++ (if is_recording line.now.what then Entered (page_at (pages_of jobs.now) j)
        else slice_index_or given.now (i - j) d) ∷ []) }
{
    if is_record(&line.what) {
        push_answer(answers, Answer::Entered(page_of(jobs, j)))?;
        return Ok(j + 1);
    }
    push_answer(answers, given[i - j])?;
    Ok(j)
}

/// Adds the answers to a segment's lines in line order: of each record its page, and of each other line what the operator
/// answered.
pub fn answer_all(
    lines: &[Line],
    jobs: &[Job],
    given: &[Answer],
    answers: &mut Vec<Answer>,
) -> Result<(), NoMemory>
    requires some { 0 < length jobs.now }
    requires few { length lines.now < 2 ^ 32 }
    requires pages { HavePagesFor lines.now jobs.now }
    requires given { length given.now ≡ length (operations lines.now) }
    ensures { OnOk result (answers.new.items ≡ answers.old.items ++ all_answers lines.now jobs.now given.now) }
{
    let mut j = 0;
    for i in 0..lines.len() {
        j = answer_at(&lines[i], i, j, jobs, given, answers)?;
    }
    Ok(())
}
