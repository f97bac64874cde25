// Packets, records and bytes of an input. They take too long for a program that is run as two compilers build it.
use std::alloc::Global;
use std::rt::HostRuntime;
use std::test::Fail;
use trace_format::{ReadTraceRefused, TraceRefused, WhyRefused, read_trace};

// A piece of a text: so many times these bytes.
type Piece = (usize, &'static [u8]);

const BEGUN: Piece = (
    1,
    b"spie-trace 1\nshape 3 16 60000 1000 8 5000 100 0123456789abcdef\nrouter a east\nrouter b east\nrouter c west\nlink a b\nlink b c\nbegin\n",
);

const ENDED: Piece = (1, b"end\n");

const PACKET: &[u8] = b"packet 4500001c00010000401166ce0a0000010a0000020102030405060708\n";

const ONE: Piece = (1, PACKET);

const MOST_PACKETS: Piece = (65_536, PACKET);

const MOST_RECORDS: Piece = (1_000_000, b"fwd a 0\n");

// More bytes than there may be.
const TOO_MANY_BYTES: Piece = (1_048_576, PACKET);

// 67,108,864 bytes.
const MOST_BYTES: Piece = (
    1_048_576,
    b"aaaaaaaaaaaaaaaaaaaaaaaaaaaaaaaaaaaaaaaaaaaaaaaaaaaaaaaaaaaaaaaa",
);

// The last piece of a text, behind a packet more than there may be or in place of it.
const PACKETS: [&[u8]; 6] = [
    PACKET,
    b"packet 00\n",
    b"packet 6500001c00010000401100000a0000010a000002\n",
    b"packet 4400001c00010000401100000a0000010a000002\n",
    b"packet 4500001300010000401100000a0000010a000002\n",
    b"packet 4500001c00010000401166cf0a0000010a000002\n",
];

// Texts, with the line and the rule of their first fault.
const TEXTS: [(&[Piece], u64, WhyRefused); 9] = [
    (
        &[BEGUN, MOST_PACKETS, (1_000_001, b"fwd a 65535\n")],
        1_065_545,
        WhyRefused::TooMany,
    ),
    (
        &[BEGUN, ONE, (1_000_001, b"xf a nat 0 0\n")],
        1_000_010,
        WhyRefused::TooMany,
    ),
    (
        &[BEGUN, ONE, MOST_RECORDS, (1, b"xf a icmp 0 0\n")],
        1_000_010,
        WhyRefused::TooMany,
    ),
    (
        &[BEGUN, ONE, MOST_RECORDS, (1, b"fwd a 1\n")],
        1_000_010,
        WhyRefused::TooMany,
    ),
    (
        &[BEGUN, ONE, MOST_RECORDS, (1, b"fwd d 0\n")],
        1_000_010,
        WhyRefused::NoName,
    ),
    (&[MOST_BYTES], 1, WhyRefused::Ending),
    (&[MOST_BYTES, (1, b"a")], 0, WhyRefused::TooLong),
    // Behind a faulty line, and behind `end`.
    (
        &[BEGUN, (1, b"quary\n"), TOO_MANY_BYTES],
        0,
        WhyRefused::TooLong,
    ),
    (&[BEGUN, ENDED, TOO_MANY_BYTES], 0, WhyRefused::TooLong),
];

// The fault of a text that is written down in pieces, if it is refused.
fn fault_of(alloc: Global, pieces: &[Piece]) -> Result<Option<TraceRefused>, Fail> {
    let mut text = Vec::new(alloc);
    for (count, piece) in pieces {
        for _ in 0..*count {
            text.extend_from_slice(piece)?;
        }
    }
    match read_trace(alloc, &text) {
        Ok(_) => Ok(None),
        Err(ReadTraceRefused::Refused(fault)) => Ok(Some(fault)),
        Err(ReadTraceRefused::NoMemory) => Err("memory".into()),
    }
}

#[test]
fn most_packets(rt: HostRuntime) -> Result<(), Fail> {
    let want = TraceRefused {
        line: 65_545,
        why: WhyRefused::TooMany,
    };
    for packet in &PACKETS {
        let fault = fault_of(rt.alloc(), &[BEGUN, MOST_PACKETS, (1, packet)])?;
        assert_eq!(rt; fault, Some(want), "at {packet:?}");
    }
    Ok(())
}

#[test]
fn most_records_and_bytes(rt: HostRuntime) -> Result<(), Fail> {
    for (pieces, line, why) in &TEXTS {
        let want = TraceRefused {
            line: *line,
            why: *why,
        };
        assert_eq!(rt; fault_of(rt.alloc(), pieces)?, Some(want), "at line {line}");
    }
    Ok(())
}
