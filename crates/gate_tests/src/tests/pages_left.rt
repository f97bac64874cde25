// What is left of pages behind the steps of a script.
use gate_core::{SlotPhase, play};
use play_script::read_play;
use spie_base::{Entry, PageNo, Sig};
use std::test::Fail;

const P0: PageNo = PageNo { number: 0 };

const P1: PageNo = PageNo { number: 1 };

const P2: PageNo = PageNo { number: 2 };

// A pass comes to a sealed gate, and the keeper finds it there. The signature's mark in page 0 is 41.
const VISITOR: &[u8] = b"spie-play 1
core 2 1 6 0000000000000000
0 look
0 enter 00000000000000000000000000000000000000000000000000000000
k seal
k settle 0
k drain 0
0 set
0 leave
k settle 0
1 look
1 enter 00000000000000000000000000000000000000000000000000000000
k drain 0
k open 0
k point
k seal
k settle 0
1 leave
k settle 0
end
";

// What can be read of the machine after the visitor's steps.
#[test]
fn pages_behind_a_visitor(rt: std::rt::HostRuntime) -> Result<(), Fail> {
    let alloc = rt.alloc();
    let script = read_play(alloc, VISITOR).ok().ok_or("refused")?;
    let played = play(alloc, script.shape, script.passes, script.steps.items())?;
    let state = played.state;
    let entry = Entry {
        page: P0,
        sig: Sig { bytes: [0; 28] },
    };
    assert_eq!(rt; state.entries(), [entry].as_slice());
    assert!(rt; state.collected(P0) == Some([1 << 41].as_slice()));
    assert_eq!(rt; state.bits_of(P0), 1);
    assert!(rt; state.phase_of(P0).is_none());
    assert!(rt; state.collected(P1).is_none());
    assert_eq!(rt; state.bits_of(P1), 0);
    assert_eq!(rt; state.phase_of(P1), Some(SlotPhase::Quiet { next: 0 }));
    assert_eq!(rt; state.phase(0), SlotPhase::Quiet { next: 0 });
    assert_eq!(rt; state.slot_page(0), P1);
    assert_eq!(rt; state.next_page(), P2);
    assert!(rt; state.collected(P2).is_none());
    assert_eq!(rt; state.bits_of(P2), 0);
    Ok(())
}
