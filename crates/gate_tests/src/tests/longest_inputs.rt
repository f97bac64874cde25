// The longest inputs. They take too long for a program that is run as two compilers build it.
use super::pieces::{CORE, HEAD, Piece, fault_of};
use std::test::Fail;
use trace_format::{TraceRefused, WhyRefused};

const HEADED: Piece = (1, HEAD);

const CORED: Piece = (1, CORE);

const ENDED: Piece = (1, b"end\n");

// With the lines before them 67,108,864 bytes.
const MOST_BYTES: Piece = (16_777_205, b"aaaa");

// A text with too many bytes is refused for that alone.
#[test]
fn longest_inputs(rt: std::rt::HostRuntime) -> Result<(), Fail> {
    let alloc = rt.alloc();
    let fault = fault_of(alloc, &[HEADED, CORED, ENDED, MOST_BYTES])?;
    assert_eq!(rt;
        fault,
        Some(TraceRefused {
            line: 4,
            why: WhyRefused::After
        })
    );
    let fault = fault_of(alloc, &[HEADED, CORED, ENDED, MOST_BYTES, (1, b"a")])?;
    assert_eq!(rt;
        fault,
        Some(TraceRefused {
            line: 0,
            why: WhyRefused::TooLong
        })
    );
    Ok(())
}
