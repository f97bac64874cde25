use ipv4_header::HeaderRefused;
use packet_signature::{Kind, Row, RowData, direct, inverse, key, row, signature};
use spie_base::Sig;
use std::test::Fail;

// Packets and their signatures.
const FIRST: (&str, &str) = (
    "4500001c00010000401166ce0a0000010a0000020102030405060708",
    "4500001c00010000001100000a0000010a0000020102030405060708",
);
// The same packet, with another Type of Service and one hop later.
const FIRST_CHANGED: (&str, &str) = (
    "4508001c000100003f1167c60a0000010a0000020102030405060708",
    "4500001c00010000001100000a0000010a0000020102030405060708",
);
// The same packet with two other sources.
const TRANSLATED: (&str, &str) = (
    "4500001c0001000040110000c00002010a0000020102030405060708",
    "4500001c0001000000110000c00002010a0000020102030405060708",
);

const TRANSLATED_AGAIN: (&str, &str) = (
    "4500001c0001000040110000c00002020a0000020102030405060708",
    "4500001c0001000000110000c00002020a0000020102030405060708",
);
// The first packet in a tunnel.
const TUNNELLED: (&str, &str) = (
    "450000300005000040040000c6336401c63364024500001c00010000",
    "450000300005000000040000c6336401c63364024500001c00010000",
);
// A large packet, and its first and last fragments.
const LARGE: (&str, &str) = (
    "450005dc00040000401100000a0000010a0000020102030405060708",
    "450005dc00040000001100000a0000010a0000020102030405060708",
);

const FRAGMENT: (&str, &str) = (
    "4500023c00042000401100000a0000010a0000020102030405060708",
    "4500023c00042000001100000a0000010a0000020102030405060708",
);

const LAST_FRAGMENT: (&str, &str) = (
    "4500023c00042045401100000a0000010a000002a1a2a3a4a5a6a7a8",
    "4500023c00042045001100000a0000010a000002a1a2a3a4a5a6a7a8",
);
// An error message.
const MESSAGE: (&str, &str) = (
    "4500003800060000400100000a0000090a0000010b00000000000000",
    "4500003800060000000100000a0000090a0000010b00000000000000",
);

const PACKETS: [(&str, &str); 9] = [
    FIRST,
    FIRST_CHANGED,
    TRANSLATED,
    TRANSLATED_AGAIN,
    TUNNELLED,
    LARGE,
    FRAGMENT,
    LAST_FRAGMENT,
    MESSAGE,
];

// A packet without payload, and the same with bytes behind its end.
const EMPTY: [&str; 2] = [
    "4500001400030000400100000a0000050a000006",
    "4500001400030000400100000a0000050a000006ffff",
];

// Transforms with their old and new packet, and whether the row keeps the fragment bytes alone.
const TRANSFORMS: [(Kind, (&str, &str), (&str, &str), bool); 6] = [
    (Kind::Frag, LARGE, FRAGMENT, true),
    (Kind::Frag, LARGE, LAST_FRAGMENT, false),
    (Kind::Nat, LARGE, FRAGMENT, false),
    (Kind::Nat, FIRST, TRANSLATED, false),
    (Kind::Ipip, FIRST, TUNNELLED, false),
    (Kind::Icmp, LARGE, MESSAGE, false),
];

// The signature of 28 bytes of hex.
fn sig(text: &str) -> Result<Sig, Fail> {
    let mut sig = Sig { bytes: [0; 28] };
    hex::decode_to_slice(text, &mut sig.bytes)?;
    Ok(sig)
}

#[test]
fn signs_packets(rt: HostRuntime) -> Result<(), Fail> {
    for (packet, text) in PACKETS {
        let bytes = hex::decode(rt.alloc(), packet)?;
        assert_eq!(rt; signature(&bytes), Ok(sig(text)?), "{packet}");
    }
    Ok(())
}

#[test]
fn signature_with_options(rt: HostRuntime) -> Result<(), Fail> {
    let alloc = rt.alloc();
    let mut packet = hex::decode(alloc, "4f00004400020000401100000a0000030a000004")?;
    packet.extend_from_slice(&[1; 40])?;
    packet.extend_from_slice(&hex::decode(alloc, "1112131415161718")?)?;
    let text = "4f00004400020000001100000a0000030a0000041112131415161718";
    assert_eq!(rt; signature(&packet), Ok(sig(text)?));
    Ok(())
}

#[test]
fn signature_padded(rt: HostRuntime) -> Result<(), Fail> {
    let text = "4500001400030000000100000a0000050a0000060000000000000000";
    for packet in EMPTY {
        let bytes = hex::decode(rt.alloc(), packet)?;
        assert_eq!(rt; signature(&bytes), Ok(sig(text)?), "{packet}");
    }
    Ok(())
}

#[test]
fn refuses_as_the_header_does(rt: HostRuntime) -> Result<(), Fail> {
    let packet = "4500001c00010000401166cf0a0000010a0000020102030405060708";
    let bytes = hex::decode(rt.alloc(), packet)?;
    assert_eq!(rt; signature(&bytes), Err(HeaderRefused::Checksum));
    Ok(())
}

#[test]
fn makes_rows_and_inverts_them(rt: HostRuntime) -> Result<(), Fail> {
    for (kind, before, after, is_direct) in TRANSFORMS {
        let (old, new) = (sig(before.1)?, sig(after.1)?);
        let kept = if is_direct {
            RowData::Direct([0x05, 0xdc, 0, 0])
        } else {
            RowData::Indirect(old)
        };
        let made = row(kind, &old, &new);
        assert_eq!(rt; made.old, kept);
        assert_eq!(rt; made.key, key(&new));
        assert_eq!(rt; made.kind, kind);
        assert_eq!(rt; inverse(&made, &new), old);
    }
    Ok(())
}

#[test]
fn tells_what_fragments_keep(rt: HostRuntime) -> Result<(), Fail> {
    let (large, fragment, last) = (sig(LARGE.1)?, sig(FRAGMENT.1)?, sig(LAST_FRAGMENT.1)?);
    assert_eq!(rt; direct(&large, &fragment), Some([0x05, 0xdc, 0, 0]));
    assert_eq!(rt; direct(&large, &last), None);
    let kept = Row {
        key: key(&fragment),
        kind: Kind::Frag,
        old: RowData::Direct([0x05, 0xdc, 0, 0]),
    };
    assert_eq!(rt; inverse(&kept, &fragment), large);
    Ok(())
}

// The first eight bytes of the SHA-256 of 28 zero bytes, and of a packet's signature.
#[test]
fn keys_by_sha_256(rt: HostRuntime) -> Result<(), Fail> {
    assert_eq!(rt; key(&Sig { bytes: [0; 28] }), 0x3addfb141cd7c9c4);
    assert_eq!(rt; key(&sig(FIRST.1)?), 0x901def0d684e186d);
    Ok(())
}
