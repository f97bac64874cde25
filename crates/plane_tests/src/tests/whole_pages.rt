// A page's bits are the marks of the records of all passes, by positions that `hash_family` works out apart.
ghost use Rattle.std.specs.Prelude.{◌≡◌};

use crate::tests::pieces::{P0, P1, family, mark, settled, sig_of, turned};
use bloom_page::Page;
use gate_core::SlotPhase;
use page_gate::{Keeper, Pass, Plane, Settled, Tried};
use spie_base::{NoMemory, PageShape, RouterId, Sig};
use std::alloc::Global;
use std::test::Fail;

const SHAPE: PageShape = PageShape {
    k: 3,
    n: 8,
    base: 7,
    router: RouterId { number: 5 },
};

const RECORDS: u32 = 20;

// How many records entered page 0.
fn entered(plane: &Plane, pass: &mut Pass, worker: u8) -> u32
    requires { pass.old.table ≡ plane.now.table }
    ensures { pass.new.table ≡ plane.now.table }
{
    let mut entered = 0u32;
    'records: for record in 0..RECORDS {
        if plane.try_record(pass, &sig_of(worker, record)) == Tried::Entered(P0) {
            entered = entered.wrapping_add(1);
        }
    }
    entered
}

// Whether the keeper's own record is in page 0.
fn recorded_one(plane: &Plane, keeper: &mut Keeper, sig: &Sig) -> bool
    requires { keeper.old.table ≡ plane.now.table }
    ensures { keeper.new.table ≡ plane.now.table }
{
    if !keeper.has_open() || keeper.out() != 0 {
        return false;
    }
    plane.record_alone(keeper, sig) == P0
}

// How many of the keeper's own records are in page 0.
fn recorded(plane: &Plane, keeper: &mut Keeper) -> u32
    requires { keeper.old.table ≡ plane.now.table }
    ensures { keeper.new.table ≡ plane.now.table }
{
    let mut recorded = 0u32;
    'records: for record in 0..RECORDS {
        if recorded_one(plane, keeper, &sig_of(1, record)) {
            recorded = recorded.wrapping_add(1);
        }
    }
    recorded
}

// The bits of the open page 0, read where no pass is out.
fn read(alloc: Global, plane: &Plane, keeper: &mut Keeper) -> Result<Option<Page>, NoMemory>
    requires { keeper.old.table ≡ plane.now.table }
    ensures { keeper.new.table ≡ plane.now.table }
{
    let SlotPhase::Open = keeper.phase(P0) else {
        return Ok(None);
    };
    if keeper.out() != 0 {
        return Ok(None);
    }
    Ok(Some(plane.snapshot(alloc, keeper, P0)?))
}

#[test]
fn bits_after_a_gather(rt: HostRuntime) -> Result<(), Fail> {
    let alloc = rt.alloc();
    let (plane, mut keeper) = Plane::open(alloc, SHAPE)?;
    let mut passes = plane.deal(alloc, &mut keeper, 2)?;
    let (Some(mut right), Some(mut left)) = (passes.pop(), passes.pop()) else {
        return Err(Fail::from("no two passes"));
    };
    assert_eq!(rt; entered(&plane, &mut left, 1), RECORDS);
    assert_eq!(rt; entered(&plane, &mut right, 2), RECORDS);
    passes.push(left)?;
    passes.push(right)?;
    if passes.len() != keeper.out() as usize {
        return Err(Fail::from("a pass is missing"));
    }
    plane.gather(&mut keeper, passes);
    let family = family(&SHAPE, P0);
    let mut words = [0u64; 4];
    for record in 0..RECORDS {
        mark(&mut words, &family, &sig_of(1, record));
        mark(&mut words, &family, &sig_of(2, record));
    }
    let Some(page) = read(alloc, &plane, &mut keeper)? else {
        return Err(Fail::from("page 0 is not open"));
    };
    assert_eq!(rt; page.words(), words.as_slice());
    assert_eq!(rt; turned(&plane, &mut keeper), Some(P1));
    let Some(oldest) = keeper.oldest() else {
        return Err(Fail::from("no page is closed"));
    };
    assert_eq!(rt; oldest, P0);
    let Settled::Quiet = settled(&plane, &mut keeper, oldest) else {
        return Err(Fail::from("page 0 is not quiet"));
    };
    let page = plane.collect(alloc, &mut keeper, oldest)?;
    assert_eq!(rt; page.words(), words.as_slice());
    Ok(())
}

// The second time each mark is set already. The bits stay as they were, and nobody is inside afterwards.
#[test]
fn records_of_the_keeper_again(rt: HostRuntime) -> Result<(), Fail> {
    let alloc = rt.alloc();
    let (plane, mut keeper) = Plane::open(alloc, SHAPE)?;
    let family = family(&SHAPE, P0);
    let mut words = [0u64; 4];
    for record in 0..RECORDS {
        mark(&mut words, &family, &sig_of(1, record));
    }
    assert_eq!(rt; recorded(&plane, &mut keeper), RECORDS);
    let Some(page) = read(alloc, &plane, &mut keeper)? else {
        return Err(Fail::from("page 0 is not open"));
    };
    assert_eq!(rt; page.words(), words.as_slice());
    assert_eq!(rt; recorded(&plane, &mut keeper), RECORDS);
    let Some(page) = read(alloc, &plane, &mut keeper)? else {
        return Err(Fail::from("page 0 is not open"));
    };
    assert_eq!(rt; page.words(), words.as_slice());
    assert_eq!(rt; turned(&plane, &mut keeper), Some(P1));
    let Some(oldest) = keeper.oldest() else {
        return Err(Fail::from("no page is closed"));
    };
    assert_eq!(rt; oldest, P0);
    let Settled::Quiet = settled(&plane, &mut keeper, oldest) else {
        return Err(Fail::from("page 0 is not quiet"));
    };
    let page = plane.collect(alloc, &mut keeper, oldest)?;
    assert_eq!(rt; page.words(), words.as_slice());
    Ok(())
}
