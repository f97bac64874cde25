//! spie: replays a trace of a hash-based traceback system, makes lines of a trace from a capture of packets, plays a script
//! of steps of a router's gate, judges a certificate of an answer, or makes a trace of any size to try all that with, from
//! standard input to standard output.
//!
//! `spie replay W < trace > report`, `spie replay W FOLDER < trace > report`, `spie play < script > answers`,
//! `spie pcap NAME FIRST SKIP < capture > lines`, `spie pcap count < capture`, `spie make SEED PACKETS > trace`,
//! `spie load SEED PACKETS W`, `spie check < certificate`. W is the number of workers, 1 to 16. Pages that are archived go to
//! files in FOLDER, which has to be there, and without it to memory. It ends with the number of the run's status: 0 done,
//! 1 `check` says no, 2 unknown command or wrong arguments, 3 the input is refused, 4 the input can't be read, 5 the output
//! can't be written, 6 there is no memory. Where it is not 0, standard error says why in a sentence.
//!
//! What it does is the contract of `spie_run::run`; here stand only the edges: the arguments, standard input and
//! output, the shelf, the yard, and what is said on standard error (`messages`), for which `front_sink` remembers how the output
//! began.
#![tactic(auto)]

mod front_sink;
mod messages;

use crate::front_sink::FrontSink;
use crate::messages::explain;
use page_shelf::{FolderShelf, MemShelf, Shelf};
use spie_base::{IoSink, IoSource, NoMemory, Sink, Source, Status};
use spie_run::{Yard, run, shelf_word};
use std::alloc::Global;
use std::process::ExitCode;
use std::sync::Wait;
use std::thread::Threads;
use std::{env, io};

// The arguments. Where one of them is not UTF-8, one empty argument is passed in place of all, which is no command.
fn words(rt: &HostRuntime, alloc: Global) -> Result<Vec<String>, NoMemory> {
    let mut words = Vec::new(alloc);
    match env::args(rt) {
        Ok(args) => {
            for word in args.skip(1) {
                words.push(word)?;
            }
        }
        Err(error) if error.kind() == io::ErrorKind::OutOfMemory => return Err(NoMemory),
        Err(_) => words.push(String::new(alloc))?,
    }
    Ok(words)
}

// Runs over a shelf, where there was memory for it, with a yard of its own.
fn run_over<R: Threads + Wait + Sync, S: Source, K: Sink, H: Shelf + Send + Drop>(
    rt: &R,
    alloc: Global,
    words: &[String],
    source: &mut S,
    sink: &mut K,
    shelf: Result<H, NoMemory>,
) -> Status {
    let Ok(mut shelf) = shelf else {
        return Status::NoMemory;
    };
    let Ok(mut yard) = Yard::new(alloc) else {
        return Status::NoMemory;
    };
    run(rt, alloc, words, source, sink, &mut shelf, &mut yard)
}

// Whether the arguments are those of a capture.
fn is_capture(words: &[String]) -> bool {
    match words.first() {
        Some(word) => word.as_str() == "pcap",
        None => false,
    }
}

fn main(rt: HostRuntime) -> ExitCode {
    let alloc = rt.alloc();
    let Ok(words) = words(&rt, alloc) else {
        let _ = explain(&rt, Status::NoMemory, b"", false);
        return ExitCode::from(Status::NoMemory.code());
    };
    let mut source = IoSource::new(rt.reader());
    let mut sink = FrontSink::new(IoSink::new(io::writer(&rt)));
    let status = match shelf_word(&words) {
        Some(folder) => {
            let shelf = FolderShelf::new(alloc, &rt, folder);
            run_over(&rt, alloc, &words, &mut source, &mut sink, shelf)
        }
        None => {
            let shelf = MemShelf::new(alloc, &[]);
            run_over(&rt, alloc, &words, &mut source, &mut sink, shelf)
        }
    };
    let _ = explain(&rt, status, sink.front(), is_capture(&words));
    ExitCode::from(status.code())
}
