// Reports that are not compared whole: by the rule of receipts, for records of four workers between rotations, and by
// the lines that sum answers up.
use std::alloc::{AllocError, Global};

// The page at the end of a line of a report, where it is one digit.
fn page_at_end(line: &[u8]) -> Option<u8> {
    let last = *line.last()?;
    if last.is_ascii_digit() {
        Some(last - b'0')
    } else {
        None
    }
}

// Whether the lines of a report, from the first answer on, are legal receipts of four workers: the fifth, tenth,
// fifteenth and twentieth open pages 1 to 4, and each other line is a record in a page from 0 to 4, not below the page of
// the record before that its worker did.
fn are_legal(lines: &[&[u8]]) -> bool {
    let mut last = [0; 4];
    for (i, line) in lines.iter().enumerate() {
        let Some(page) = page_at_end(line) else {
            return false;
        };
        let group = i / 5;
        let worker = i % 5;
        if worker == 4 {
            if line.len() != 11
                || &line[3..9] != b"opened".as_slice()
                || usize::from(page) != group + 1
            {
                return false;
            }
        } else {
            if line.len() != 7
                || &line[3..5] != b"in".as_slice()
                || page > 4
                || page < last[worker]
            {
                return false;
            }
            last[worker] = page;
        }
    }
    true
}

/// Whether a report of twenty lines, with a head before them and an end behind them, has legal receipts.
pub fn has_legal_receipts(alloc: Global, report: &[u8]) -> Result<bool, AllocError> {
    let mut lines = Vec::new(alloc);
    for line in report.split(|byte| *byte == b'\n') {
        lines.push(line)?;
    }
    Ok(
        lines.len() == 23
            && lines[0] == b"spie-report 1".as_slice()
            && lines[21] == b"30 end".as_slice()
            && are_legal(&lines[1..21]),
    )
}

/// The lines of a report that sum an answer up.
pub fn sums_of(alloc: Global, report: &[u8]) -> Result<Vec<u8>, AllocError> {
    let mut sums = Vec::new(alloc);
    for line in report.split(|byte| *byte == b'\n') {
        if line.len() > 16 && &line[3..9] == b"answer".as_slice() {
            sums.extend_from_slice(line)?;
            sums.push(b'\n')?;
        }
    }
    Ok(sums)
}
