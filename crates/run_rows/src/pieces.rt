// Texts that are written down in pieces.
ghost use Rattle.std.specs.Prelude.{◌≤◌};

use spie_base::decimal;
use std::alloc::{AllocError, Global};
use std::rt::HostRuntime;
use std::{fs, io};

/// A number of a row, up to the greatest that may stand there. What is none counts as 0.
pub fn number_of(field: &str, most: u64) -> u64
    ensures { result ≤ most }
{
    decimal(field.as_bytes(), most).unwrap_or(0)
}

// A text in which `~` stands for a line end.
fn plain_of(alloc: Global, piece: &str) -> Result<Vec<u8>, AllocError> {
    let mut plain = Vec::new(alloc);
    for byte in piece.as_bytes() {
        plain.push(if *byte == b'~' { b'\n' } else { *byte })?;
    }
    Ok(plain)
}

// `@FILE`, the bytes of a file, or a text.
fn part_of(files: &HostRuntime, alloc: Global, part: &str) -> io::Result<Vec<u8>> {
    match part.strip_prefix('@') {
        Some(file) => fs::read(files, file),
        None => Ok(plain_of(alloc, part)?),
    }
}

fn push_times(text: &mut Vec<u8>, count: u64, part: &[u8]) -> Result<(), AllocError> {
    for _ in 0..count {
        text.extend_from_slice(part)?;
    }
    Ok(())
}

/// The text of some pieces, between which `;` stands. `COUNT*PART` is a part so many times.
pub fn text_of(files: &HostRuntime, alloc: Global, pieces: &str) -> io::Result<Vec<u8>> {
    let mut text = Vec::new(alloc);
    for piece in pieces.split(';') {
        match piece.split_once('*') {
            Some((count, part)) => {
                push_times(
                    &mut text,
                    number_of(count, 2_000_000),
                    &part_of(files, alloc, part)?,
                )?;
            }
            None => text.extend_from_slice(&part_of(files, alloc, piece)?)?,
        }
    }
    Ok(text)
}
