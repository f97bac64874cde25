// A list of steps, done from the start.
ghost use Rattle.std.specs.Prelude.{◌≡◌, ◌≤◌, ◌<◌, ◌+◌, ◌^◌, IsTrue, IfOk, length, count_by};
ghost use Rattle.std.specs.List.{list_all};
ghost use Rattle.spie_base.specs.Shapes.{IsShape};
ghost use Rattle.gate_core.specs.Start.{start_of};
ghost use Rattle.gate_core.specs.Play.{is_step, opens_page, IsPlayed};
ghost use Rattle.gate_core.specs.declared.limits.TheConstants.{MOST_PASSES};

use crate::{CoreState, Step, StepAnswer};
use spie_base::{List, NoMemory, PageShape};
use std::alloc::Global;

/// The machine after a list of steps, and what each step answered.
#[derive(Drop)]
pub struct Played {
    pub state: CoreState,
    pub answers: List<StepAnswer>,
}

/// Does the steps in order from the start. Takes all its memory before the first step.
pub fn play(
    alloc: Global,
    shape: PageShape,
    passes: u32,
    steps: &[Step],
) -> Result<Played, NoMemory>
    requires shape { IsShape shape }
    requires some_pass { 1 ≤ passes }
    requires few_passes { passes ≤ MOST_PASSES }
    requires steps { IsTrue (list_all (is_step shape passes) steps.now) }
    requires pages { count_by opens_page steps.now + 1 < 2 ^ 32 }
    ensures { IfOk result (λ played. let begin = record (start_of shape passes) { room = length steps.now } in
        IsPlayed begin steps.now played.state played.answers) }
{
    let mut state = CoreState::start(alloc, shape, passes)?;
    state.reserve(alloc, steps.len())?;
    let mut answers = Vec::with_capacity(alloc, steps.len())?;
    for step in steps {
        answers.push_reserved(state.step(step));
    }
    Ok(Played {
        state,
        answers: List::of(answers),
    })
}
