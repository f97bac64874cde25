// Rotations, and the slots that they use.
ghost use Rattle.std.specs.Prelude.{◌≡◌};

use crate::tests::pieces::{P0, P1, SMALL, ZERO, settled, turned};
use page_gate::{Plane, Settled, Tried};
use spie_base::PageNo;
use std::test::Fail;

#[test]
fn the_keepers_own_record(rt: HostRuntime) -> Result<(), Fail> {
    let alloc = rt.alloc();
    let (plane, mut keeper) = Plane::open(alloc, SMALL)?;
    let passes = plane.deal(alloc, &mut keeper, 3)?;
    assert_eq!(rt; passes.len(), 3);
    plane.gather(&mut keeper, passes);
    assert_eq!(rt; plane.record_alone(&mut keeper, &ZERO), P0);
    assert_eq!(rt; keeper.oldest(), None);
    Ok(())
}

// A pass that was dealt in page 0 records in page 1, and nobody is inside page 0.
#[test]
fn after_rotation(rt: HostRuntime) -> Result<(), Fail> {
    let alloc = rt.alloc();
    let (plane, mut keeper) = Plane::open(alloc, SMALL)?;
    let mut passes = plane.deal(alloc, &mut keeper, 1)?;
    let Some(mut pass) = passes.pop() else {
        return Err(Fail::from("no pass"));
    };
    assert_eq!(rt; plane.rotate(&rt, &mut keeper), P1);
    let Some(oldest) = keeper.oldest() else {
        return Err(Fail::from("no page is closed"));
    };
    assert_eq!(rt; oldest, P0);
    assert_eq!(rt; plane.settle(&mut keeper, oldest), Settled::Quiet);
    assert_eq!(rt; plane.try_record(&mut pass, &ZERO), Tried::Entered(P1));
    Ok(())
}

// The fourth rotation needs the slot of page 0.
#[test]
fn slots_used_again(rt: HostRuntime) -> Result<(), Fail> {
    let alloc = rt.alloc();
    let (plane, mut keeper) = Plane::open(alloc, SMALL)?;
    assert_eq!(rt; turned(&plane, &mut keeper), Some(P1));
    assert_eq!(rt; turned(&plane, &mut keeper), Some(PageNo { number: 2 }));
    assert_eq!(rt; turned(&plane, &mut keeper), Some(PageNo { number: 3 }));
    assert_eq!(rt; keeper.free(), 0);
    let Some(oldest) = keeper.oldest() else {
        return Err(Fail::from("no page is closed"));
    };
    assert_eq!(rt; oldest, P0);
    let Settled::Quiet = settled(&plane, &mut keeper, oldest) else {
        return Err(Fail::from("page 0 is not quiet"));
    };
    plane.collect(alloc, &mut keeper, oldest)?;
    assert_eq!(rt; keeper.free(), 1);
    assert_eq!(rt; turned(&plane, &mut keeper), Some(PageNo { number: 4 }));
    assert_eq!(rt; keeper.oldest(), Some(P1));
    if keeper.out() != 0 {
        return Err(Fail::from("a pass is out"));
    }
    let mut passes = plane.deal(alloc, &mut keeper, 1)?;
    let Some(mut pass) = passes.pop() else {
        return Err(Fail::from("no pass"));
    };
    assert_eq!(rt;
        plane.try_record(&mut pass, &ZERO),
        Tried::Entered(PageNo { number: 4 })
    );
    Ok(())
}
