// Texts are put together from pieces.
use std::alloc::{AllocError, Global};

mod faults;
mod worked;

// Two signatures: 56 digits `0` and 56 digits `f`.
const Z: &str = "00000000000000000000000000000000000000000000000000000000";

const Y: &str = "ffffffffffffffffffffffffffffffffffffffffffffffffffffffff";

// The pieces one after another.
fn joined(alloc: Global, pieces: &[&str]) -> Result<Vec<u8>, AllocError> {
    let mut text = Vec::new(alloc);
    for piece in pieces {
        text.extend_from_slice(piece.as_bytes())?;
    }
    Ok(text)
}
