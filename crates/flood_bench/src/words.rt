// The words behind the program's name.
use spie_base::NoMemory;
use std::alloc::Global;
use std::env;

#[derive(Clone, Copy)]
pub enum What {
    Flood,
    Trace,
    Joined,
}

#[derive(Clone, Copy)]
pub struct Work {
    pub what: What,
    /// With how many of the next routers each router is linked.
    pub reach: u8,
    pub signatures: u32,
    pub times: u32,
}

fn what_is(word: &str) -> Option<What> {
    match word {
        "flood" => Some(What::Flood),
        "trace" => Some(What::Trace),
        "joined" => Some(What::Joined),
        _ => None,
    }
}

fn work_of(what: &str, reach: &str, signatures: &str, times: &str) -> Option<Work> {
    Some(Work {
        what: what_is(what)?,
        reach: reach.parse::<u8>().ok()?,
        signatures: signatures.parse::<u32>().ok()?,
        times: times.parse::<u32>().ok()?,
    })
}

pub fn read_words(rt: &HostRuntime, alloc: Global) -> Result<Option<Work>, NoMemory> {
    let mut words = Vec::new(alloc);
    let Ok(args) = env::args(rt) else {
        return Ok(None);
    };
    for word in args.skip(1) {
        words.push(word)?;
    }
    match words.as_slice() {
        [what, reach, signatures, times] => Ok(work_of(what, reach, signatures, times)),
        _ => Ok(None),
    }
}
