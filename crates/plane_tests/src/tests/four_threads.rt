// Four threads on one plane, each through a pass of its own.
ghost use Rattle.std.specs.Prelude.{◌≡◌};

use crate::tests::pieces::{P0, family, mark, sig_of};
use gate_core::SlotPhase;
use page_gate::{Pass, Plane, Tried};
use spie_base::{NoMemory, PageShape, RouterId};
use std::alloc::Global;
use std::sync::Wait;
use std::test::Fail;
use std::thread::{Threads, join_mut};

const LARGE: PageShape = PageShape {
    k: 3,
    n: 16,
    base: 7,
    router: RouterId { number: 0 },
};

const RECORDS: u32 = 100_000;

// So many different signatures a thread records, over and over.
const DIFFERENT: u32 = 1_000;

#[derive(Drop)]
struct Job {
    pass: Pass,
    number: u8,
    entered: u32,
}

fn job_for(pass: Pass, number: u8) -> Job
    ensures { result.pass ≡ pass }
{
    Job {
        pass,
        number,
        entered: 0,
    }
}

fn work(plane: &Plane, job: &mut Job)
    requires { job.old.pass.table ≡ plane.now.table }
    ensures { job.new.pass.table ≡ plane.now.table }
{
    'records: for record in 0..RECORDS {
        let tried = plane.try_record(&mut job.pass, &sig_of(job.number, record % DIFFERENT));
        if let Tried::Entered(_) = tried {
            job.entered = job.entered.wrapping_add(1);
        }
    }
}

fn both<R: Threads + Wait + Sync>(rt: &R, plane: &Plane, left: &mut Job, right: &mut Job)
    requires left { left.old.pass.table ≡ plane.now.table }
    requires right { right.old.pass.table ≡ plane.now.table }
    ensures left { left.new.pass.table ≡ plane.now.table }
    ensures right { right.new.pass.table ≡ plane.now.table }
{
    let mut one = ||
        requires { left.now.pass.table ≡ plane.now.table }
        ensures { left.exit.now.pass.table ≡ plane.entry.now.table }
    { work(plane, left) };
    let mut other = ||
        requires { right.now.pass.table ≡ plane.now.table }
        ensures { right.exit.now.pass.table ≡ plane.entry.now.table }
    { work(plane, right) };
    join_mut(rt, &mut one, &mut other);
}

// All four at once.
fn all<R: Threads + Wait + Sync>(
    rt: &R,
    plane: &Plane,
    a: &mut Job,
    b: &mut Job,
    c: &mut Job,
    d: &mut Job,
)
    requires front { (a.old.pass.table ≡ plane.now.table) × (b.old.pass.table ≡ plane.now.table) }
    requires back { (c.old.pass.table ≡ plane.now.table) × (d.old.pass.table ≡ plane.now.table) }
    ensures front { (a.new.pass.table ≡ plane.now.table) × (b.new.pass.table ≡ plane.now.table) }
    ensures back { (c.new.pass.table ≡ plane.now.table) × (d.new.pass.table ≡ plane.now.table) }
{
    let mut front = ||
        requires { (a.now.pass.table ≡ plane.now.table) × (b.now.pass.table ≡ plane.now.table) }
        ensures { (a.exit.now.pass.table ≡ plane.entry.now.table) × (b.exit.now.pass.table ≡ plane.entry.now.table) }
    { both(rt, plane, a, b) };
    let mut back = ||
        requires { (c.now.pass.table ≡ plane.now.table) × (d.now.pass.table ≡ plane.now.table) }
        ensures { (c.exit.now.pass.table ≡ plane.entry.now.table) × (d.exit.now.pass.table ≡ plane.entry.now.table) }
    { both(rt, plane, c, d) };
    join_mut(rt, &mut front, &mut back);
}

// The bits of all records' marks, set one after another.
fn marked_apart(alloc: Global) -> Result<Vec<u64>, NoMemory> {
    let family = family(&LARGE, P0);
    let mut words = vec![in alloc; 0u64; 1024]?;
    for worker in 0..4u8 {
        for record in 0..DIFFERENT {
            mark(&mut words, &family, &sig_of(worker, record));
        }
    }
    Ok(words)
}

#[test]
fn four_threads_on_one_plane(rt: HostRuntime) -> Result<(), Fail> {
    let alloc = rt.alloc();
    let (plane, mut keeper) = Plane::open(alloc, LARGE)?;
    let mut passes = plane.deal(alloc, &mut keeper, 4)?;
    let (Some(d), Some(c), Some(b), Some(a)) = (
        passes.pop(),
        passes.pop(),
        passes.pop(),
        passes.pop(),
    ) else {
        return Err(Fail::from("no four passes"));
    };
    let (mut a, mut b, mut c, mut d) = (job_for(a, 0), job_for(b, 1), job_for(c, 2), job_for(d, 3));
    all(&rt, &plane, &mut a, &mut b, &mut c, &mut d);
    for entered in [a.entered, b.entered, c.entered, d.entered] {
        assert_eq!(rt; entered, RECORDS);
    }
    passes.push(a.pass)?;
    passes.push(b.pass)?;
    passes.push(c.pass)?;
    passes.push(d.pass)?;
    plane.gather(&mut keeper, passes);
    let SlotPhase::Open = keeper.phase(P0) else {
        return Err(Fail::from("page 0 is not open"));
    };
    let page = plane.snapshot(alloc, &mut keeper, P0)?;
    assert_eq!(rt; page.words(), marked_apart(alloc)?.as_slice());
    Ok(())
}
