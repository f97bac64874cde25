// Records through passes, in threads.
ghost use Rattle.std.specs.Prelude.{◌≡◌, ◌≤◌, All};
ghost use Rattle.spie_base.specs.Shapes.{IsShape};
ghost use Rattle.gate_core.specs.declared.limits.TheConstants.{MOST_PASSES};

use crate::signatures::{Course, at};
use page_gate::{Pass, Plane, Tried};
use spie_base::{NoMemory, PageShape};
use std::alloc::Global;
use std::sync::Wait;
use std::sync::atomic::Ordering;
use std::thread::{Threads, for_each_mut};

/// A plane, and a pass on it.
#[derive(Drop)]
struct Lane {
    plane: Plane,
    pass: Pass,
    ghost fits: { pass.table ≡ plane.table },
}

// The records of one thread. Those that entered are added up once, at the end.
fn record_all(plane: &Plane, pass: &mut Pass, course: &Course, worker: usize)
    requires { pass.old.table ≡ plane.now.table }
    ensures { pass.new.table ≡ plane.now.table }
{
    let begin = (worker % 16) as u32 * 16;
    let mut entered = 0u64;
    'records: for number in 0..course.records {
        let sig = at(&course.sigs, number.wrapping_add(begin));
        if let Tried::Entered(_) = plane.try_record(pass, sig) {
            entered = entered.wrapping_add(1);
        }
    }
    course.entered.fetch_add(entered, Ordering::SeqCst);
}

fn record_each<R: Threads + Sync>(rt: &R, plane: &Plane, passes: &mut [Pass], course: &Course)
    requires { All (λ pass. pass.table ≡ plane.now.table) passes.old }
{
    let threads = passes.len().max(1);
    for_each_mut(
        rt,
        passes,
        threads,
        &|worker, pass| record_all(plane, pass, course, worker),
    );
}

/// Each thread records through a pass of its own, all on one plane. Gives how many records entered.
pub fn shared<R: Threads + Sync>(
    rt: &R,
    alloc: Global,
    shape: PageShape,
    threads: u8,
    course: &Course,
) -> Result<u64, NoMemory>
    requires shape { IsShape shape }
    requires some { 1 ≤ threads }
    requires few { threads ≤ MOST_PASSES }
{
    let (plane, mut keeper) = Plane::open(alloc, shape)?;
    let mut passes = plane.deal(alloc, &mut keeper, u32::from(threads))?;
    record_each(rt, &plane, &mut passes, course);
    Ok(course.entered.load(Ordering::SeqCst))
}

// The same, each record by the call that ends in an entry.
fn enter_all<R: Wait>(rt: &R, plane: &Plane, pass: &mut Pass, course: &Course, worker: usize)
    requires { pass.old.table ≡ plane.now.table }
    ensures { pass.new.table ≡ plane.now.table }
{
    let begin = (worker % 16) as u32 * 16;
    let mut entered = 0u64;
    'records: for number in 0..course.records {
        plane.record(rt, pass, at(&course.sigs, number.wrapping_add(begin)));
        entered = entered.wrapping_add(1);
    }
    course.entered.fetch_add(entered, Ordering::SeqCst);
}

fn enter_each<R: Threads + Wait + Sync>(rt: &R, plane: &Plane, passes: &mut [Pass], course: &Course)
    requires { All (λ pass. pass.table ≡ plane.now.table) passes.old }
{
    let threads = passes.len().max(1);
    for_each_mut(
        rt,
        passes,
        threads,
        &|worker, pass| enter_all(rt, plane, pass, course, worker),
    );
}

/// The same as `shared`, by `record`.
pub fn record<R: Threads + Wait + Sync>(
    rt: &R,
    alloc: Global,
    shape: PageShape,
    threads: u8,
    course: &Course,
) -> Result<u64, NoMemory>
    requires shape { IsShape shape }
    requires some { 1 ≤ threads }
    requires few { threads ≤ MOST_PASSES }
{
    let (plane, mut keeper) = Plane::open(alloc, shape)?;
    let mut passes = plane.deal(alloc, &mut keeper, u32::from(threads))?;
    enter_each(rt, &plane, &mut passes, course);
    Ok(course.entered.load(Ordering::SeqCst))
}

impl Lane {
    fn new(alloc: Global, shape: PageShape) -> Result<Lane, NoMemory>
        requires { IsShape shape }
    {
        let (plane, mut keeper) = Plane::open(alloc, shape)?;
        let mut passes = plane.deal(alloc, &mut keeper, 1)?;
        match passes.pop() {
            Some(pass) => Ok(Lane { plane, pass }),
            None => Err(NoMemory),
        }
    }

    fn run(&mut self, course: &Course, worker: usize) {
        record_all(&self.plane, &mut self.pass, course, worker);
    }
}

/// The same with a plane for each thread.
pub fn own<R: Threads + Sync>(
    rt: &R,
    alloc: Global,
    shape: PageShape,
    threads: u8,
    course: &Course,
) -> Result<u64, NoMemory>
    requires { IsShape shape }
{
    let mut lanes = Vec::new(alloc);
    for _ in 0..threads {
        lanes.push(Lane::new(alloc, shape)?)?;
    }
    let threads = lanes.len().max(1);
    for_each_mut(
        rt,
        &mut lanes,
        threads,
        &|worker, lane: &mut Lane| lane.run(course, worker),
    );
    Ok(course.entered.load(Ordering::SeqCst))
}
