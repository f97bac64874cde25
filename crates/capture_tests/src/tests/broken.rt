// Captures that are cut, and headers with one byte changed.
use super::{capture_of, gives, is_refused};
use pcap_intake::CaptureWhy;
use std::test::Fail;

const HEAD: &str = "d4c3b2a10200040000000000000000000000040065000000";

const PACKET: &str = "4500001c00010000401166ce0a0000010a0000020102030405060708";

// The lines of none, one and both packets, which are captured in two seconds.
const LINES: [&str; 3] = [
    "",
    "packet 4500001c00010000401100000a0000010a0000020102030405060708\nfwd a 0\n",
    "packet 4500001c00010000401100000a0000010a0000020102030405060708\nfwd a 0\ntick 1\npacket 4500001c00010000401100000a0000010a0000020102030405060708\nfwd a 1\n",
];

// A header of 24 bytes, and records of 44 bytes.
#[test]
fn a_capture_cut_at_each_byte(rt: HostRuntime) -> Result<(), Fail> {
    let alloc = rt.alloc();
    let capture = capture_of(alloc, HEAD, &[(5, PACKET), (6, PACKET)])?;
    assert_eq!(rt; capture.len(), 112);
    for count in 0..=112 {
        let bytes = &capture[..count.min(capture.len())];
        if count < 24 {
            assert!(rt;
                is_refused(alloc, bytes, count as u64, CaptureWhy::Short),
                "{count}"
            );
        } else {
            let whole = (count - 24) / 44;
            let cut = if (count - 24) % 44 == 0 { 0 } else { 1 };
            let counts = [whole as u32, 0, 0, 0, 0, cut];
            assert!(rt; gives(alloc, bytes, 0, 0, &counts, LINES[whole]), "{count}");
        }
    }
    Ok(())
}

#[test]
fn each_byte_of_a_header_changed(rt: HostRuntime) -> Result<(), Fail> {
    let alloc = rt.alloc();
    let mut capture = capture_of(alloc, HEAD, &[(5, PACKET)])?;
    for place in 0..24 {
        if place < capture.len() {
            capture[place] ^= 0xff;
            let same = if place < 4 {
                is_refused(alloc, &capture, 0, CaptureWhy::Magic)
            } else if place < 8 {
                is_refused(alloc, &capture, 4, CaptureWhy::Version)
            } else if place < 20 {
                gives(alloc, &capture, 0, 0, &[1, 0, 0, 0, 0, 0], LINES[1])
            } else {
                is_refused(alloc, &capture, 20, CaptureWhy::LinkType)
            };
            assert!(rt; same, "{place}");
            capture[place] ^= 0xff;
        }
    }
    Ok(())
}
