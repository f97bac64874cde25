// One packet, in both orders of bytes and with both link types.
use super::{gives, is_refused};
use pcap_intake::CaptureWhy;
use std::test::Fail;

const RAW_LITTLE: &str =
    "d4c3b2a1020004000000000000000000000004006500000005000000000000001c0000001c0000004500001c00010000401166ce0a0000010a0000020102030405060708";

const RAW_BIG: &str =
    "a1b2c3d4000200040000000000000000000400000000006500000005000000000000001c0000001c4500001c00010000401166ce0a0000010a0000020102030405060708";

const ETHERNET_LITTLE: &str =
    "d4c3b2a1020004000000000000000000000004000100000005000000000000002a0000002a00000002000000000202000000000108004500001c00010000401166ce0a0000010a0000020102030405060708";

const ETHERNET_BIG: &str =
    "a1b2c3d4000200040000000000000000000400000000000100000005000000000000002a0000002a02000000000202000000000108004500001c00010000401166ce0a0000010a0000020102030405060708";

const LINES: &str = "packet 4500001c00010000401100000a0000010a0000020102030405060708\nfwd a 0\n";

#[test]
fn one_packet_capture(rt: HostRuntime) -> Result<(), Fail> {
    let alloc = rt.alloc();
    for digits in [RAW_LITTLE, RAW_BIG, ETHERNET_LITTLE, ETHERNET_BIG] {
        let bytes = hex::decode(alloc, digits)?;
        assert!(rt;
            gives(alloc, &bytes, 0, 0, &[1, 0, 0, 0, 0, 0], LINES),
            "{digits}"
        );
        let short = &bytes[..bytes.len().saturating_sub(1)];
        assert!(rt;
            gives(alloc, short, 0, 0, &[0, 0, 0, 0, 0, 1], ""),
            "cut {digits}"
        );
    }
    Ok(())
}

#[test]
fn capture_refusals(rt: HostRuntime) -> Result<(), Fail> {
    let alloc = rt.alloc();
    assert!(rt; is_refused(alloc, b"", 0, CaptureWhy::Short));
    let other = "d4c3b2a10200040000000000000000000000040066000000";
    let bytes = hex::decode(alloc, other)?;
    assert!(rt; is_refused(alloc, &bytes, 20, CaptureWhy::LinkType));
    let alone = "d4c3b2a10200040000000000000000000000040065000000";
    let bytes = hex::decode(alloc, alone)?;
    assert!(rt; gives(alloc, &bytes, 0, 0, &[0, 0, 0, 0, 0, 0], ""));
    // pcapng, times in nanoseconds, and a stated FCS length
    for (head, place, why) in [
        (
            "0a0d0d0a1c0000004d3c2b1a01000000ffffffffffffffff",
            0,
            CaptureWhy::Magic,
        ),
        (
            "4d3cb2a10200040000000000000000000000040001000000",
            0,
            CaptureWhy::Magic,
        ),
        (
            "d4c3b2a10200040000000000000000000000040001000024",
            20,
            CaptureWhy::LinkType,
        ),
    ] {
        let bytes = hex::decode(alloc, head)?;
        assert!(rt; is_refused(alloc, &bytes, place, why), "{head}");
    }
    Ok(())
}
