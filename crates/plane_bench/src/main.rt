//! plane_bench: records for a stopwatch that stands outside (`bench/plane.py`).
//!
//! `plane_bench WHAT K THREADS RECORDS` does so many records in each thread, of 256 signatures over and over, and prints one number
//! that does not depend on time. WHAT is `loop` (a byte of each signature), `page` (into one Bloom filter that no other
//! thread has), `shared` (each thread through a pass of its own, all on one plane), `record` (the same by `record`, which may wait)
//! or `own` (each thread on a plane of its own). K is 1 to 8 marks, THREADS 1 to 16, which the last three alone look at. It ends with
//! 0, with 2 for other words, 5 where it can't print, and 6 where there is no memory. Nothing is proved of it but that it is safe:
//! what records do is the contract of `page_gate`.
#![tactic(auto)]

mod plain;
mod planes;
mod signatures;
mod words;

use crate::signatures::course_of;
use crate::words::{What, Work, read_words};
use spie_base::NoMemory;
use std::alloc::Global;
use std::process::ExitCode;
use std::sync::Wait;
use std::thread::Threads;

// How many records entered, or what the plain loops came to.
fn done<R: Threads + Wait + Sync>(rt: &R, alloc: Global, work: &Work) -> Result<u64, NoMemory> {
    let course = course_of(work.records);
    match work.what {
        What::Loop => Ok(plain::read(&course)),
        What::Page => plain::page(alloc, &course, &work.shape),
        What::Shared => planes::shared(rt, alloc, work.shape, work.threads, &course),
        What::Record => planes::record(rt, alloc, work.shape, work.threads, &course),
        What::Own => planes::own(rt, alloc, work.shape, work.threads, &course),
    }
}

fn main(rt: HostRuntime) -> ExitCode {
    let alloc = rt.alloc();
    let work = match read_words(&rt, alloc) {
        Ok(Some(work)) => work,
        Ok(None) => return ExitCode::from(2),
        Err(_) => return ExitCode::from(6),
    };
    match done(&rt, alloc, &work) {
        Ok(number) => {
            if println!(rt; "{number}").is_ok() {
                ExitCode::from(0)
            } else {
                ExitCode::from(5)
            }
        }
        Err(_) => ExitCode::from(6),
    }
}
