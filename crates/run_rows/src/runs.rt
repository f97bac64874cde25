// One run, over the shelf that its row asks for.
use crate::pieces::number_of;
use page_shelf::{Bend, BentShelf, FolderShelf, MemShelf, Shelf, ShelfName, ShelfPart};
use spie_base::{MemSink, MemSource, NoMemory, PageNo, RouterId};
use spie_run::{Yard, run, run_alone, shelf_word};
use std::alloc::{AllocError, Global};
use std::rt::HostRuntime;
use std::sync::Wait;
use std::thread::Threads;
use std::{fs, io};

// How many bytes source and sink move at a call, where a row says nothing else.
const STEP: usize = 1000;

// How many bytes a sink takes that does not fail.
const ROOM: usize = 10_000;

/// What a run is given, and what is looked at behind it.
#[derive(Drop)]
pub struct Row {
    pub words: Vec<String>,
    pub input: Vec<u8>,
    /// How many bytes source and sink move at a call.
    pub step: usize,
    /// The number of the source's call that fails.
    pub source: u64,
    /// The number of the sink's call that fails.
    pub write: u64,
    /// How many bytes the sink takes.
    pub room: usize,
    /// The numbers of the shelf's calls that fail.
    pub shelf: Vec<u64>,
    /// The number of the get that is bent, and how.
    pub bent: Option<(u64, Bend)>,
    pub looks: Vec<String>,
    /// Whether it is run by the call that waits for nobody.
    pub alone: bool,
}

impl Row {
    /// No words and no input, and nothing that fails.
    pub fn new(alloc: Global) -> Row {
        Row {
            words: Vec::new(alloc),
            input: Vec::new(alloc),
            step: STEP,
            source: u64::MAX,
            write: u64::MAX,
            room: ROOM,
            shelf: Vec::new(alloc),
            bent: None,
            looks: Vec::new(alloc),
            alone: false,
        }
    }

    /// Lets go of all but the words and the input.
    pub fn forget(&mut self, alloc: Global) {
        self.step = STEP;
        self.source = u64::MAX;
        self.write = u64::MAX;
        self.room = ROOM;
        self.shelf = Vec::new(alloc);
        self.bent = None;
        self.looks = Vec::new(alloc);
        self.alone = false;
    }
}

/// How a run ended: the number of its status, and what it wrote, with what was looked at behind it.
#[derive(Drop)]
pub struct Outcome {
    pub status: u8,
    pub text: Vec<u8>,
}

fn memory(_: NoMemory) -> io::Error {
    io::Error::from(io::ErrorKind::OutOfMemory)
}

// The name of a record: `ROUTER PAGE bits` or `ROUTER PAGE rows`.
fn name_of(look: &str) -> Option<ShelfName> {
    let (router, rest) = look.split_once(' ')?;
    let (page, part) = rest.split_once(' ')?;
    let (router, page) = (number_of(router, 63), number_of(page, 1000));
    let part = if part == "bits" {
        ShelfPart::Bits
    } else {
        ShelfPart::Rows
    };
    Some(ShelfName {
        router: RouterId {
            number: router as u32,
        },
        page: PageNo {
            number: page as u32,
        },
        part,
    })
}

// A line on how many bytes a file has.
fn file_line(files: &HostRuntime, alloc: Global, look: &str) -> io::Result<String> {
    let bytes = fs::read(files, look)?;
    Ok(format!(in alloc; "{look} {} bytes\n", bytes.len())?)
}

// A line on a record: its bytes in hex where they are few, how many there are, or that nothing stands there.
fn record_line<H: Shelf>(alloc: Global, shelf: &mut H, look: &str) -> Result<String, AllocError> {
    let Some(name) = name_of(look) else {
        return format!(in alloc; "{look} is no record\n");
    };
    match shelf.get(alloc, &name, 1_000_000) {
        Ok(Some(bytes)) if bytes.len() > 64 => format!(in alloc; "{look} {} bytes\n", bytes.len()),
        Ok(Some(bytes)) => format!(in alloc; "{look} {}\n", hex::encode(alloc, &bytes)?),
        Ok(None) => format!(in alloc; "{look} -\n"),
        Err(_) => format!(in alloc; "{look} failed\n"),
    }
}

fn run_over<R: Threads + Wait + Sync, H: Shelf + Send>(
    rt: &R,
    files: &HostRuntime,
    alloc: Global,
    row: &Row,
    shelf: &mut H,
) -> io::Result<Outcome> {
    let failing = [row.source];
    let failing_writes = [row.write];
    let step = if row.step == 0 { 1 } else { row.step };
    let mut source = MemSource::new(alloc, &row.input, step, &failing).map_err(memory)?;
    let mut sink = MemSink::new(alloc, step, row.room, &failing_writes).map_err(memory)?;
    let mut yard = Yard::new(alloc).map_err(memory)?;
    let words = row.words.as_slice();
    let status = if row.alone {
        run_alone(alloc, words, &mut source, &mut sink, shelf, &mut yard)
    } else {
        run(rt, alloc, words, &mut source, &mut sink, shelf, &mut yard)
    };
    let mut text = Vec::from_slice(alloc, sink.written())?;
    for look in &row.looks {
        let line = if look.as_str() == "routers" {
            format!(in alloc; "routers {}\n", yard.routers())?
        } else if look.contains('/') {
            file_line(files, alloc, look)?
        } else {
            record_line(alloc, shelf, look)?
        };
        text.extend_from_slice(line.as_bytes())?;
    }
    Ok(Outcome {
        status: status.code(),
        text,
    })
}

/// Runs a row: over the folder that its words name, else over a shelf in memory.
pub fn outcome_of<R: Threads + Wait + Sync>(
    rt: &R,
    files: &HostRuntime,
    alloc: Global,
    row: &Row,
) -> io::Result<Outcome> {
    if let Some(folder) = shelf_word(&row.words) {
        let mut shelf = FolderShelf::new(alloc, files, folder).map_err(memory)?;
        return run_over(rt, files, alloc, row, &mut shelf);
    }
    let mut shelf = MemShelf::new(alloc, &row.shelf).map_err(memory)?;
    match row.bent {
        Some((bent, bend)) => {
            let mut shelf = BentShelf::bending(shelf, bent, bend);
            run_over(rt, files, alloc, row, &mut shelf)
        }
        None => run_over(rt, files, alloc, row, &mut shelf),
    }
}
