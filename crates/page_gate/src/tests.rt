// A record at a sealed gate, which no public call leaves behind.
use crate::{Plane, Tried};
use spie_base::{Entry, PageNo, PageShape, RouterId, Sig};
use std::test::Fail;

const SMALL: PageShape = PageShape {
    k: 2,
    n: 6,
    base: 0,
    router: RouterId { number: 0 },
};

const ZERO: Sig = Sig { bytes: [0; 28] };

const P0: PageNo = PageNo { number: 0 };

#[test]
fn two_passes_and_a_seal(rt: std::rt::HostRuntime) -> Result<(), Fail> {
    let alloc = rt.alloc();
    let (plane, mut keeper) = Plane::open(alloc, SMALL)?;
    let mut left = plane.deal_one(&mut keeper);
    let mut right = plane.deal_one(&mut keeper);
    assert_eq!(rt; plane.try_record(&mut left, &ZERO), Tried::Entered(P0));
    assert_eq!(rt; keeper.open_page(), P0);
    assert_eq!(rt; plane.seal(&mut keeper), P0);
    assert!(rt; !keeper.has_open());
    assert_eq!(rt;
        plane.try_record(&mut right, &ZERO),
        Tried::Sealed { gate: 65536 }
    );
    let entry = Entry {
        page: P0,
        sig: ZERO,
    };
    assert_eq!(rt; left.last(), Some(entry));
    assert_eq!(rt; right.last(), None);
    assert_eq!(rt; keeper.out(), 2);
    let mut passes = Vec::new(alloc);
    passes.push(left)?;
    passes.push(right)?;
    plane.gather(&mut keeper, passes);
    assert_eq!(rt; keeper.out(), 0);
    assert_eq!(rt; keeper.oldest(), Some(P0));
    assert_eq!(rt; keeper.free(), 3);
    Ok(())
}
