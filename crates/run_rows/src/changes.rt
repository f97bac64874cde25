// Texts of which one line is changed.
use std::alloc::{AllocError, Global};

/// What is done to one line of a text.
#[derive(Clone, Copy, PartialEq, Eq, Debug)]
pub enum Change {
    /// It is left out.
    Without,
    /// It stands twice.
    Doubled,
    /// It stands behind the next line.
    Exchanged,
}

/// The change that a word of a row names.
pub fn change_of(word: &str) -> Option<Change> {
    if word == "without" {
        Some(Change::Without)
    } else if word == "doubled" {
        Some(Change::Doubled)
    } else if word == "exchanged" {
        Some(Change::Exchanged)
    } else {
        None
    }
}

fn push_line(text: &mut Vec<u8>, line: &[u8]) -> Result<(), AllocError> {
    text.extend_from_slice(line)?;
    text.push(b'\n')?;
    Ok(())
}

/// The lines of a text, none of which is empty, with the line of this number changed, counted from 1.
pub fn changed(
    alloc: Global,
    text: &[u8],
    change: Change,
    number: u64,
) -> Result<Vec<u8>, AllocError> {
    let mut lines = Vec::new(alloc);
    let mut held = None;
    for (at, line) in text.split(|byte| *byte == b'\n').enumerate() {
        if line.is_empty() {
            continue;
        }
        let here = (at as u64).saturating_add(1) == number;
        if !here || change == Change::Doubled {
            push_line(&mut lines, line)?;
        }
        if here && change == Change::Exchanged {
            held = Some(line);
        } else {
            if here && change == Change::Doubled {
                push_line(&mut lines, line)?;
            }
            if let Some(before) = held.take() {
                push_line(&mut lines, before)?;
            }
        }
    }
    Ok(lines)
}
