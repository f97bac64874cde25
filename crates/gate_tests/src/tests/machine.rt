// The machine, step by step, and a long run of it.
use super::pieces::{HEAD, text_of};
use gate_core::{Act, Actor, CoreState, Step, StepAnswer, play};
use play_script::read_play;
use spie_base::{NoMemory, PageNo, PageShape, RouterId};
use std::test::Fail;

// One mark a signature, and one word a slot.
const ONE_WORD: PageShape = PageShape {
    k: 1,
    n: 6,
    base: 0,
    router: RouterId { number: 0 },
};

const LOOK: Step = Step {
    actor: Actor::Pass(0),
    act: Act::Look,
};

#[test]
fn one_step(rt: std::rt::HostRuntime) -> Result<(), Fail> {
    let alloc = rt.alloc();
    let mut state = CoreState::start(alloc, ONE_WORD, 1)?;
    state.reserve(alloc, 1)?;
    assert_eq!(rt; state.reserve(alloc, usize::MAX), Err(NoMemory));
    assert_eq!(rt; state.step(&LOOK), StepAnswer::Slot(0));
    assert!(rt; state.entries().is_empty());
    Ok(())
}

// A record in the open page, and another page after it.
const ROUND: &[u8] = b"0 look
0 enter 00000000000000000000000000000000000000000000000000000000
0 set
0 leave
k seal
k settle 0
k drain 0
k open 0
k point
";

#[test]
fn a_hundred_thousand_steps(rt: std::rt::HostRuntime) -> Result<(), Fail> {
    let alloc = rt.alloc();
    let core = b"core 1 1 6 0000000000000000\n".as_slice();
    let text = text_of(
        alloc,
        &[(1, HEAD), (1, core), (11_111, ROUND), (1, b"end\n")],
    )?;
    let script = read_play(alloc, &text).ok().ok_or("refused")?;
    assert_eq!(rt; script.steps.items().len(), 99_999);
    let played = play(alloc, script.shape, script.passes, script.steps.items())?;
    assert_eq!(rt; played.state.entries().len(), 11_111);
    assert_eq!(rt; played.state.next_page(), PageNo { number: 11_112 });
    Ok(())
}
