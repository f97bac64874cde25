// Certificates that are made to cost much: each router linked with each other, and many rows of one key.
use super::{is_worth, written};
use evidence_check::Verdict;
use std::alloc::{AllocError, Global};
use std::test::Fail;

const DIGITS: [u8; 16] = *b"0123456789abcdef";

// A number below 100.
fn push_number(text: &mut Vec<u8>, number: u8) -> Result<(), AllocError> {
    if number >= 10 {
        text.push(DIGITS[usize::from(number / 10 % 10)])?;
    }
    text.push(DIGITS[usize::from(number % 10)])?;
    Ok(())
}

// The links of one router with those above it.
fn push_links(text: &mut Vec<u8>, low: u8) -> Result<(), AllocError> {
    for high in 0..64 {
        if high > low {
            text.extend_from_slice(b"link ")?;
            push_number(text, low)?;
            text.push(b' ')?;
            push_number(text, high)?;
            text.push(b'\n')?;
        }
    }
    Ok(())
}

// A row of the key of Z, each with other bytes.
fn push_row(text: &mut Vec<u8>, changed: u32) -> Result<(), AllocError> {
    text.extend_from_slice(b"row K frag direct ")?;
    for byte in changed.to_be_bytes() {
        text.push(DIGITS[usize::from(byte >> 4)])?;
        text.push(DIGITS[usize::from(byte & 15)])?;
    }
    text.push(b'\n')?;
    Ok(())
}

// 64 routers, each linked with each other. The first has a page with all bits set and so many rows of one key.
fn mesh(alloc: Global, rows: u32) -> Result<Vec<u8>, AllocError> {
    let mut text = Vec::new(alloc);
    text.extend_from_slice(b"spie-certificate 1\nrouters 64\n")?;
    for low in 0..64 {
        push_links(&mut text, low)?;
    }
    text.extend_from_slice(
        b"start 0 Z\nrouter 0 1 6 0000000000000000 0\npage 0 ffffffffffffffff\n",
    )?;
    for changed in 0..rows {
        push_row(&mut text, changed + 1)?;
    }
    for router in 1..64 {
        text.extend_from_slice(b"router ")?;
        push_number(&mut text, router)?;
        text.extend_from_slice(b" 1 6 0000000000000000 0\n")?;
    }
    text.extend_from_slice(b"node 0 Z -\nend\n")?;
    written(alloc, &text)
}

// Two lines, 2,016 links, the start, the first router with its page and rows, 63 routers and a node stand before `end`.
#[test]
fn rows_of_one_key_are_not_multiplied_by_links(rt: HostRuntime) -> Result<(), Fail> {
    let text = mesh(rt.alloc(), 2000)?;
    assert!(rt; is_worth(rt.alloc(), &text, Verdict::No { line: 4086 }));
    Ok(())
}
