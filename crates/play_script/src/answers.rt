// The answers to the steps, a line each.
ghost use Rattle.std.specs.Prelude.{◌≡◌, ◌++◌, ◌∷◌, [], ◌+◌, ◌<◌, ◌^◌, OnOk, decimal, length, codes};
ghost use Rattle.std.specs.List.{flat_map};
ghost use Rattle.line_text.specs.Writing.{spaced, line_text, listed};
ghost use Rattle.play_script.specs.Report as texts;

use gate_core::gate_word::page;
use gate_core::{ActorState, PassState, SlotPhase, StepAnswer};
use line_text::{push, push_counted, push_field, push_number, push_word};
use spie_base::NoMemory;

fn pass_text(state: PassState) -> &'static [u8]
    ensures { result.now ≡ texts.pass_text state }
{
    match state {
        PassState::Idle => b"idle",
        PassState::Looked { .. } => b"looked",
        PassState::Inside { .. } => b"inside",
        PassState::Visiting { .. } => b"visiting",
    }
}

/// The word of a slot's phase.
pub fn phase_text(phase: SlotPhase) -> &'static [u8]
    ensures { result.now ≡ texts.phase_text phase }
{
    match phase {
        SlotPhase::Free => b"free",
        SlotPhase::Open => b"open",
        SlotPhase::Sealed => b"sealed",
        SlotPhase::Quiet { .. } => b"quiet",
    }
}

// Appends phases, each behind a comma.
fn push_more_phases(out: &mut Vec<u8>, phases: &[SlotPhase]) -> Result<(), NoMemory>
    ensures { OnOk result (out.new.items ≡ out.old.items ++ flat_map (λ phase. 44 ∷ texts.phase_text phase) phases.now) }
{
    for phase in phases {
        push(out, b",")?;
        push(out, phase_text(*phase))?;
    }
    Ok(())
}

// Appends a field that lists phases.
fn push_phases(out: &mut Vec<u8>, phases: &[SlotPhase]) -> Result<(), NoMemory>
    ensures { OnOk result (out.new.items ≡ out.old.items ++ spaced (listed texts.phase_text phases.now)) }
{
    match phases {
        [] => push_field(out, b"-"),
        [first, more @ ..] => {
            push_field(out, phase_text(*first))?;
            push_more_phases(out, more)
        }
    }
}

fn push_state(out: &mut Vec<u8>, state: ActorState) -> Result<(), NoMemory>
    ensures { OnOk result (out.new.items ≡ out.old.items ++ spaced (texts.state_text state)) }
{
    match state {
        ActorState::Pass(state) => push_field(out, pass_text(state)),
        ActorState::Keeper(phases) => push_phases(out, &phases),
    }
}

fn push_refused(out: &mut Vec<u8>, line: u64, state: ActorState) -> Result<(), NoMemory>
    ensures { OnOk result (out.new.items ≡ out.old.items ++ line_text line (codes "not-enabled" ∷ texts.state_text state ∷ [])) }
{
    push_number(out, line)?;
    push_field(out, b"not-enabled")?;
    push_state(out, state)?;
    push(out, b"\n")
}

fn bit_of(set: bool) -> u64
    ensures { result ≡ texts.bit_of set }
{
    if set { 1 } else { 0 }
}

// Appends the answer of a step.
fn push_answer(out: &mut Vec<u8>, line: u64, answer: StepAnswer) -> Result<(), NoMemory>
    ensures { OnOk result (out.new.items ≡ out.old.items ++ line_text line (texts.answer_fields answer)) }
{
    match answer {
        StepAnswer::Slot(slot) => push_counted(out, line, b"slot", u64::from(slot)),
        StepAnswer::Entered(page) => push_counted(out, line, b"in", u64::from(page.number)),
        StepAnswer::Visiting { gate } => push_counted(
            out,
            line,
            b"visiting",
            u64::from(page(gate).number),
        ),
        StepAnswer::Set => push_word(out, line, b"set"),
        StepAnswer::Left => push_word(out, line, b"left"),
        StepAnswer::Sealed(page) => push_counted(out, line, b"sealed", u64::from(page.number)),
        StepAnswer::Pending { inside } => push_counted(out, line, b"pending", u64::from(inside)),
        StepAnswer::Quiet => push_word(out, line, b"quiet"),
        StepAnswer::Drained => push_word(out, line, b"drained"),
        StepAnswer::Collected(page) => push_counted(
            out,
            line,
            b"collected",
            u64::from(page.number),
        ),
        StepAnswer::Opened(page) => push_counted(out, line, b"opened", u64::from(page.number)),
        StepAnswer::Pointed(slot) => push_counted(out, line, b"pointed", u64::from(slot)),
        StepAnswer::Bit(set) => push_counted(out, line, b"bit", bit_of(set)),
        StepAnswer::NotEnabled(state) => push_refused(out, line, state),
    }
}

/// Appends the answers to the steps of a script, the first of which stands on line 3.
pub fn push_answers(out: &mut Vec<u8>, answers: &[StepAnswer]) -> Result<(), NoMemory>
    ensures { OnOk result (out.new.items ≡ out.old.items ++ texts.answers_text 3 answers.now) }
{
    let mut line = 3u64;
    for answer in answers {
        push_answer(out, line, *answer)?;
        line += 1;
    }
    Ok(())
}
