use pcap_intake::{CaptureLines, CaptureRefused, CaptureWhy, Counts, capture_lines};
use std::alloc::{AllocError, Global};
use std::test::Fail;
use trace_format::{MOST_BYTES, MOST_NUMBER, is_name};

mod broken;
mod frames;
mod worked;

// The lines of a router `a`, and none where the arguments are out of range.
fn lines_of(
    alloc: Global,
    bytes: &[u8],
    first: u32,
    skip: u32,
) -> Option<Result<CaptureLines, CaptureRefused>> {
    let name = b"a".as_slice();
    if bytes.len() > MOST_BYTES || u64::from(first) > MOST_NUMBER || !is_name(name) {
        return None;
    }
    Some(capture_lines(alloc, bytes, name, first, skip))
}

// Taken, skipped, left, other, refused, cut.
fn counts_of(counts: &[u32; 6]) -> Counts {
    Counts {
        taken: counts[0],
        skipped: counts[1],
        left: counts[2],
        other: counts[3],
        refused: counts[4],
        cut: counts[5] == 1,
    }
}

// Whether a capture has these lines and counts.
fn gives(
    alloc: Global,
    bytes: &[u8],
    first: u32,
    skip: u32,
    counts: &[u32; 6],
    text: &str,
) -> bool {
    match lines_of(alloc, bytes, first, skip) {
        Some(Ok(lines)) => {
            lines.counts() == counts_of(counts)
                && lines.text() == text.as_bytes()
                && lines.into_text().as_slice() == text.as_bytes()
        }
        _ => false,
    }
}

fn is_refused(alloc: Global, bytes: &[u8], place: u64, why: CaptureWhy) -> bool {
    match lines_of(alloc, bytes, 0, 0) {
        Some(Err(refused)) => refused == CaptureRefused::Refused { place, why },
        _ => false,
    }
}

// A capture of records, each a second and the hex digits of a frame, with the lowest byte of a number first.
fn capture_of(alloc: Global, head: &str, records: &[(u8, &str)]) -> Result<Vec<u8>, Fail> {
    let mut capture = hex::decode(alloc, head)?;
    for (second, frame) in records {
        let frame = hex::decode(alloc, *frame)?;
        push_record(&mut capture, *second, &frame)?;
    }
    Ok(capture)
}

fn push_record(capture: &mut Vec<u8>, second: u8, frame: &[u8]) -> Result<(), AllocError> {
    let count = (frame.len() % 256) as u8;
    capture.extend_from_slice(&[second, 0, 0, 0, 0, 0, 0, 0])?;
    capture.extend_from_slice(&[count, 0, 0, 0, count, 0, 0, 0])?;
    capture.extend_from_slice(frame)
}
