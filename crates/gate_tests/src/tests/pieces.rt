// Texts of pieces, and their faults.
use play_script::read_play;
use std::alloc::{AllocError, Global};
use std::test::Fail;
use trace_format::{ReadTraceRefused, TraceRefused};

// The first line, and the second: two passes, and pages of 256 positions.
pub const HEAD: &[u8] = b"spie-play 1\n";

pub const CORE: &[u8] = b"core 2 3 8 0123456789abcdef\n";

// A piece of a text: so many times this text.
pub type Piece = (usize, &'static [u8]);

pub fn text_of(alloc: Global, pieces: &[Piece]) -> Result<Vec<u8>, AllocError> {
    let mut text = Vec::new(alloc);
    for (count, line) in pieces {
        for _ in 0..*count {
            text.extend_from_slice(line)?;
        }
    }
    Ok(text)
}

// The fault of a text, if it is refused.
pub fn fault_of(alloc: Global, pieces: &[Piece]) -> Result<Option<TraceRefused>, Fail> {
    let text = text_of(alloc, pieces)?;
    match read_play(alloc, &text) {
        Ok(_) => Ok(None),
        Err(ReadTraceRefused::Refused(fault)) => Ok(Some(fault)),
        Err(ReadTraceRefused::NoMemory) => Err("memory".into()),
    }
}
