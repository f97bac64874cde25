// Texts that are scripts, and what is read from them.
use super::pieces::{CORE, HEAD, text_of};
use gate_core::{Act, Actor, Step};
use play_script::read_play;
use spie_base::{PageShape, RouterId, Sig};
use std::test::Fail;

const KEEPER: Actor = Actor::Keeper;

const ZERO: Sig = Sig { bytes: [0; 28] };

const GREATEST: &[u8] =
    b"spie-play 1\ncore 16 8 16 FEdcba9876543210\n15 enter 000102030405060708090A0B0C0D0E0F101112131415161718191a1b\nk look\nk drain 3\nk probe 3 65535\nk probe 0 0\nend\n";

// The ends of each range, and digits of either case.
#[test]
fn greatest_numbers(rt: std::rt::HostRuntime) -> Result<(), Fail> {
    let alloc = rt.alloc();
    let script = read_play(alloc, GREATEST).ok().ok_or("refused")?;
    let shape = PageShape {
        k: 8,
        n: 16,
        base: 0xfedc_ba98_7654_3210,
        router: RouterId { number: 0 },
    };
    assert_eq!(rt; script.shape, shape);
    assert_eq!(rt; script.passes, 16);
    let mut sig = ZERO;
    for (at, byte) in sig.bytes.iter_mut().enumerate() {
        *byte = at as u8;
    }
    let want = [
        (Actor::Pass(15), Act::Enter(sig)),
        (KEEPER, Act::Look),
        (KEEPER, Act::Drain(3)),
        (KEEPER, Act::Probe(3, 65_535)),
        (KEEPER, Act::Probe(0, 0)),
    ]
    .map(|(actor, act)| Step { actor, act });
    assert_eq!(rt; script.steps.items(), want.as_slice());
    Ok(())
}

const COUNTS: [usize; 4] = [0, 1, 99_999, 100_000];

// No step, and as many as there may be.
#[test]
fn fewest_and_most_steps(rt: std::rt::HostRuntime) -> Result<(), Fail> {
    let alloc = rt.alloc();
    for count in COUNTS {
        let text = text_of(
            alloc,
            &[(1, HEAD), (1, CORE), (count, b"1 set\n"), (1, b"end\n")],
        )?;
        let script = read_play(alloc, &text).ok().ok_or("refused")?;
        assert_eq!(rt; script.steps.items().len(), count);
    }
    Ok(())
}
