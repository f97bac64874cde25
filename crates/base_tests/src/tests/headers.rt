ghost use Rattle.std.specs.Prelude.{◌≡◌, ◌≤◌, ◌+◌, ◌-◌, ◌%◌, drop, length, replicate, IfOk};

use ipv4_header::{Header, HeaderRefused, checksum, read, write};
use std::test::Fail;

// A packet of 28 bytes over UDP, with its checksum.
const PACKET: &str = "4500001c00010000401166ce0a0000010a0000020102030405060708";

const WORDS: [(HeaderRefused, &str); 5] = [
    (HeaderRefused::Short, "short"),
    (HeaderRefused::Version, "version"),
    (HeaderRefused::HeaderLength, "header-length"),
    (HeaderRefused::TotalLength, "total-length"),
    (HeaderRefused::Checksum, "checksum"),
];

// The bytes and their sum, 0xddf2, are those of RFC 1071, section 3.
const EXAMPLE: [u8; 8] = [0x00, 0x01, 0xf2, 0x03, 0xf4, 0xf5, 0xf6, 0xf7];

// Packets, and the first rule that each breaks.
const PACKETS: [(&str, Result<(), HeaderRefused>); 12] = [
    (PACKET, Ok(())),
    // 19 bytes, also where each later rule is broken.
    (
        "4500001c00010000401166ce0a0000010a0000",
        Err(HeaderRefused::Short),
    ),
    (
        "6400001300010000401166cf0a0000010a0000",
        Err(HeaderRefused::Short),
    ),
    // Version 6, with a length of 16 bytes.
    (
        "6400000f00010000401166cf0a0000010a000002",
        Err(HeaderRefused::Version),
    ),
    // A length of 16 bytes, and one of 24 where 20 are given.
    (
        "4400000f00010000401166cf0a0000010a000002",
        Err(HeaderRefused::HeaderLength),
    ),
    (
        "4600001300010000401166cf0a0000010a000002",
        Err(HeaderRefused::HeaderLength),
    ),
    // A packet of 19 bytes.
    (
        "4500001300010000401166cf0a0000010a000002",
        Err(HeaderRefused::TotalLength),
    ),
    // Another checksum, and none.
    (
        "4500001c00010000401166cf0a0000010a000002",
        Err(HeaderRefused::Checksum),
    ),
    ("4500001c00010000401100000a0000010a000002", Ok(())),
    // The other words sum to FFFF: a checksum of FFFF fits as 0 does, and 1 does not.
    ("450000140000000000000000baeb00000000ffff", Ok(())),
    ("45000014000000000000ffffbaeb00000000ffff", Ok(())),
    (
        "450000140000000000000001baeb00000000ffff",
        Err(HeaderRefused::Checksum),
    ),
];

// These have no clause of what is read or written, so that nothing of it is computed where the tests are proved.
fn sum_of(header: &[u8; 20]) -> u16 {
    checksum(header)
}

fn reread(bytes: &[u8]) -> Result<Header, HeaderRefused>
    ensures given { IfOk result (λ header. 20 + header.option_length ≤ length bytes.now) }
{
    read(bytes)
}

fn written(header: &Header) -> ([u8; 60], usize)
    requires whole_words { header.now.option_length % 4 ≡ 0 }
    requires most { header.now.option_length ≤ 40 }
    requires unused { drop header.now.option_length header.now.options ≡ replicate (40 - header.now.option_length) 0 }
    requires total { 20 + header.now.option_length ≤ header.now.total_length }
    ensures count { result.1 ≡ 20 + header.now.option_length }
{
    write(header)
}

#[test]
fn prints_its_words(rt: HostRuntime) -> Result<(), Fail> {
    for (refused, text) in WORDS {
        let printed = format!(in rt.alloc(); "{refused}")?;
        assert_eq!(rt; printed.as_str(), text);
    }
    Ok(())
}

// A header whose other words are 0: its sum is that of the example, and its checksum the complement.
#[test]
fn sums_the_example_of_rfc_1071(rt: HostRuntime) {
    let mut header = [0; 20];
    header[..8].copy_from_slice(&EXAMPLE);
    assert_eq!(rt; sum_of(&header), 0xffff - 0xddf2);
}

#[test]
fn refuses_by_the_first_broken_rule(rt: HostRuntime) -> Result<(), Fail> {
    for (packet, outcome) in PACKETS {
        let bytes = hex::decode(rt.alloc(), packet)?;
        assert_eq!(rt; reread(&bytes).map(|_| ()), outcome, "{packet}");
    }
    Ok(())
}

#[test]
fn reads_fields_and_writes_them(rt: HostRuntime) -> Result<(), Fail> {
    let bytes = hex::decode(rt.alloc(), PACKET)?;
    let header = Header {
        tos: 0,
        total_length: 28,
        identification: 1,
        flags_fragment: 0,
        ttl: 64,
        protocol: 17,
        checksum: 0x66ce,
        source: 0x0a000001,
        destination: 0x0a000002,
        options: [0; 40],
        option_length: 0,
    };
    assert_eq!(rt; reread(&bytes), Ok(header));
    assert_eq!(rt; checksum(&bytes[..20]), 0x66ce);
    let (back, count) = written(&Header {
        checksum: 0,
        ..header
    });
    assert_eq!(rt; &back[..count], &bytes[..20]);
    Ok(())
}

#[test]
fn keeps_options(rt: HostRuntime) -> Result<(), Fail> {
    let mut options = [0; 40];
    options[0] = 7;
    options[1] = 7;
    options[2] = 4;
    let header = Header {
        tos: 0xb8,
        total_length: 576,
        identification: 0xbeef,
        flags_fragment: 0x4000,
        ttl: 1,
        protocol: 1,
        checksum: 0,
        source: 0xc0000201,
        destination: 0xc6336401,
        options,
        option_length: 8,
    };
    let (bytes, count) = write(&header);
    assert_eq!(rt; count, 28);
    let right = Header {
        checksum: checksum(&bytes[..28]),
        ..header
    };
    assert_eq!(rt; read(&bytes[..28]), Ok(right));
    Ok(())
}
