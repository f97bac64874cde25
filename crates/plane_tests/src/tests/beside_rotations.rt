// Two threads record while the operator rotates the pages beside them, and collects those that are closed.
ghost use Rattle.std.specs.Prelude.{◌≡◌, ◌+◌, length};

use crate::tests::pieces::{family, mark, settled, sig_of, turned};
use bloom_page::Page;
use gate_core::SLOTS;
use page_gate::{Keeper, Pass, Plane, Settled};
use spie_base::{Entry, NoMemory, PageNo, PageShape, RouterId};
use std::alloc::Global;
use std::sync::Wait;
use std::sync::atomic::{AtomicU64, Ordering};
use std::test::Fail;
use std::thread::{Threads, join_mut, yield_now};

const SHAPE: PageShape = PageShape {
    k: 4,
    n: 10,
    base: 11,
    router: RouterId { number: 3 },
};

const RECORDS: usize = 2_000;

// So many pages are opened beside the records, so that each slot is used again.
const ROTATIONS: u64 = 12;

const PAGES: u32 = 13;

// A wait for another thread is given up after so many turns.
const TURNS: u64 = 100_000_000;

/// A thread's pass, and the page of each of its records.
#[derive(Drop)]
struct Job {
    pass: Pass,
    number: u8,
    receipts: [PageNo; 2_000],
}

fn job_for(pass: Pass, number: u8) -> Job
    ensures { result.pass ≡ pass }
{
    Job {
        pass,
        number,
        receipts: [PageNo { number: 0 }; 2_000],
    }
}

// Records in each thread, and counts them where the operator sees it.
fn work<R: Wait>(rt: &R, plane: &Plane, done: &AtomicU64, job: &mut Job)
    requires plane { job.old.pass.table ≡ plane.now.table }
    ensures plane { job.new.pass.table ≡ plane.now.table }
    ensures entries { length job.new.pass.entries ≡ length job.old.pass.entries + RECORDS }
{
    'records: for record in 0..RECORDS {
        job.receipts[record] = plane.record(rt, &mut job.pass, &sig_of(job.number, record as u32));
        done.fetch_add(1, Ordering::SeqCst);
    }
}

// The operator: opens a page each time that so many records more are done, and takes the oldest where no slot is free.
fn operate<R: Wait>(
    rt: &R,
    alloc: Global,
    plane: &Plane,
    done: &AtomicU64,
    keeper: &mut Keeper,
    pages: &mut Vec<Page>,
) -> Result<(), NoMemory>
    requires plane { keeper.old.table ≡ plane.now.table }
    ensures plane { keeper.new.table ≡ plane.now.table }
{
    'rotations: for rotation in 0..ROTATIONS {
        await_records(done, 300 * rotation);
        if keeper.free() == 0 {
            collect_oldest(alloc, plane, keeper, pages)?;
        }
        rotate(rt, plane, keeper);
    }
    Ok(())
}

fn await_records(done: &AtomicU64, records: u64) {
    for _ in 0..TURNS {
        if records <= done.load(Ordering::SeqCst) {
            return;
        }
        yield_now();
    }
}

fn rotate<R: Wait>(rt: &R, plane: &Plane, keeper: &mut Keeper)
    requires { keeper.old.table ≡ plane.now.table }
    ensures { keeper.new.table ≡ plane.now.table }
{
    if keeper.has_open() && keeper.free() != 0 && keeper.open_page().number < 1000 {
        plane.rotate(rt, keeper);
    }
}

// Waits until nobody is inside the oldest closed page, and takes its bits.
fn collect_oldest(
    alloc: Global,
    plane: &Plane,
    keeper: &mut Keeper,
    pages: &mut Vec<Page>,
) -> Result<(), NoMemory>
    requires { keeper.old.table ≡ plane.now.table }
    ensures { keeper.new.table ≡ plane.now.table }
{
    'turns: for _ in 0..TURNS {
        let Some(oldest) = keeper.oldest() else {
            return Ok(());
        };
        if let Settled::Quiet = settled(plane, keeper, oldest) {
            pages.push(plane.collect(alloc, keeper, oldest)?)?;
            return Ok(());
        }
        yield_now();
    }
    Ok(())
}

fn both<R: Threads + Wait + Sync>(
    rt: &R,
    plane: &Plane,
    done: &AtomicU64,
    left: &mut Job,
    right: &mut Job,
)
    requires left { left.old.pass.table ≡ plane.now.table }
    requires right { right.old.pass.table ≡ plane.now.table }
    ensures left { left.new.pass.table ≡ plane.now.table }
    ensures right { right.new.pass.table ≡ plane.now.table }
{
    let mut one = ||
        requires { left.now.pass.table ≡ plane.now.table }
        ensures { left.exit.now.pass.table ≡ plane.entry.now.table }
    { work(rt, plane, done, left) };
    let mut other = ||
        requires { right.now.pass.table ≡ plane.now.table }
        ensures { right.exit.now.pass.table ≡ plane.entry.now.table }
    { work(rt, plane, done, right) };
    join_mut(rt, &mut one, &mut other);
}

// The two threads and the operator at once.
fn beside<R: Threads + Wait + Sync>(
    rt: &R,
    alloc: Global,
    plane: &Plane,
    left: &mut Job,
    right: &mut Job,
    keeper: &mut Keeper,
    pages: &mut Vec<Page>,
) -> Result<(), NoMemory>
    requires passes { (left.old.pass.table ≡ plane.now.table) × (right.old.pass.table ≡ plane.now.table) }
    requires keeper { keeper.old.table ≡ plane.now.table }
    ensures passes { (left.new.pass.table ≡ plane.now.table) × (right.new.pass.table ≡ plane.now.table) }
    ensures keeper { keeper.new.table ≡ plane.now.table }
{
    let done = AtomicU64::new(0);
    let counter = &done;
    let mut crew = ||
        requires { (left.now.pass.table ≡ plane.now.table) × (right.now.pass.table ≡ plane.now.table) }
        ensures { (left.exit.now.pass.table ≡ plane.entry.now.table)
            × (right.exit.now.pass.table ≡ plane.entry.now.table) }
    { both(rt, plane, counter, left, right) };
    let mut operator = || -> Result<(), NoMemory>
        requires { keeper.now.table ≡ plane.now.table }
        ensures { keeper.exit.now.table ≡ plane.entry.now.table }
    { operate(rt, alloc, plane, counter, keeper, pages) };
    let (_, told) = join_mut(rt, &mut crew, &mut operator);
    told
}

// Whether the pages never fall, and were all opened.
fn rise(receipts: &[PageNo]) -> bool {
    let mut least = 0;
    for page in receipts {
        if page.number < least || PAGES <= page.number {
            return false;
        }
        least = page.number;
    }
    true
}

// The entry of a thread's last record.
fn last_of(job: &Job) -> Entry {
    Entry {
        page: job.receipts[RECORDS - 1],
        sig: sig_of(job.number, RECORDS as u32 - 1),
    }
}

// Closes the open page too, and takes all that are left.
fn close_all(
    alloc: Global,
    plane: &Plane,
    keeper: &mut Keeper,
    pages: &mut Vec<Page>,
) -> Result<(), NoMemory>
    requires { keeper.old.table ≡ plane.now.table }
    ensures { keeper.new.table ≡ plane.now.table }
{
    if keeper.free() == 0 {
        collect_oldest(alloc, plane, keeper, pages)?;
    }
    turned(plane, keeper);
    'closed: for _ in 0..SLOTS {
        collect_oldest(alloc, plane, keeper, pages)?;
    }
    Ok(())
}

// Sets the marks of a thread's records in the page.
fn mark_all(words: &mut [u64], job: &Job, page: PageNo) {
    let family = family(&SHAPE, page);
    for record in 0..RECORDS {
        if job.receipts[record] == page {
            mark(words, &family, &sig_of(job.number, record as u32));
        }
    }
}

#[test]
fn records_beside_rotations(rt: HostRuntime) -> Result<(), Fail> {
    let alloc = rt.alloc();
    let (plane, mut keeper) = Plane::open(alloc, SHAPE)?;
    let mut passes = plane.deal(alloc, &mut keeper, 2)?;
    let (Some(right), Some(left)) = (passes.pop(), passes.pop()) else {
        return Err(Fail::from("no two passes"));
    };
    let (mut left, mut right) = (job_for(left, 1), job_for(right, 2));
    let mut pages = Vec::new(alloc);
    beside(
        &rt,
        alloc,
        &plane,
        &mut left,
        &mut right,
        &mut keeper,
        &mut pages,
    )?;
    assert!(rt; rise(&left.receipts) && rise(&right.receipts));
    assert_eq!(rt; left.pass.last(), Some(last_of(&left)));
    assert_eq!(rt; right.pass.last(), Some(last_of(&right)));
    close_all(alloc, &plane, &mut keeper, &mut pages)?;
    for number in 0..PAGES {
        let Some(page) = pages.get(number as usize) else {
            return Err(Fail::from("a page is missing"));
        };
        let mut words = [0u64; 16];
        mark_all(&mut words, &left, PageNo { number });
        mark_all(&mut words, &right, PageNo { number });
        assert_eq!(rt; page.words(), words.as_slice(), "page {number}");
    }
    passes.push(left.pass)?;
    passes.push(right.pass)?;
    if passes.len() != keeper.out() as usize {
        return Err(Fail::from("a pass is missing"));
    }
    plane.gather(&mut keeper, passes);
    assert_eq!(rt; keeper.out(), 0);
    Ok(())
}
