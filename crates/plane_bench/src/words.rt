// The words behind the program's name.
ghost use Rattle.std.specs.Prelude.{◌≤◌};
ghost use Rattle.spie_base.specs.Shapes.{IsShape};
ghost use Rattle.gate_core.specs.declared.limits.TheConstants.{MOST_PASSES};

use gate_core::MOST_PASSES;
use spie_base::{K_MOST, NoMemory, PageShape, RouterId};
use std::alloc::Global;
use std::env;

// Positions of 16 bits, as in a trace of version 1.
const POSITION_BITS: u8 = 16;

#[derive(Clone, Copy)]
pub enum What {
    Loop,
    Page,
    Shared,
    Record,
    Own,
}

#[derive(Drop)]
pub struct Work {
    pub what: What,
    pub shape: PageShape,
    /// 1 to `MOST_PASSES`.
    pub threads: u8,
    pub records: u32,
    ghost in_range: { IsShape shape },
    ghost some: { 1 ≤ threads },
    ghost few: { threads ≤ MOST_PASSES },
}

fn what_is(word: &str) -> Option<What> {
    match word {
        "loop" => Some(What::Loop),
        "page" => Some(What::Page),
        "shared" => Some(What::Shared),
        "record" => Some(What::Record),
        "own" => Some(What::Own),
        _ => None,
    }
}

fn work_of(what: &str, k: &str, threads: &str, records: &str) -> Option<Work> {
    let what = what_is(what)?;
    let k = k.parse::<u8>().ok()?;
    let threads = threads.parse::<u8>().ok()?;
    let records = records.parse::<u32>().ok()?;
    if k < 1 || k > K_MOST || threads < 1 || u32::from(threads) > MOST_PASSES {
        return None;
    }
    let shape = PageShape {
        k,
        n: POSITION_BITS,
        base: 7,
        router: RouterId { number: 0 },
    };
    Some(Work {
        what,
        shape,
        threads,
        records,
    })
}

pub fn read_words(rt: &HostRuntime, alloc: Global) -> Result<Option<Work>, NoMemory> {
    let mut words = Vec::new(alloc);
    let Ok(args) = env::args(rt) else {
        return Ok(None);
    };
    for word in args.skip(1) {
        words.push(word)?;
    }
    match words.as_slice() {
        [what, k, threads, records] => Ok(work_of(what, k, threads, records)),
        _ => Ok(None),
    }
}
