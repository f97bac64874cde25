// The records of a capture, one behind another.
ghost use Rattle.std.specs.Prelude.{◌≡◌, ◌<◌, length, MatchOption, false, IfSome};
ghost use Rattle.pcap_intake.specs.Capture.{IsFirst, has_record, microseconds_in};

use crate::kind::{CaptureKind, Resolution};

// Bytes of a record's header.
const HEAD: usize = 16;

/// A record at the front of some bytes: when the frame was captured, and what of it.
#[derive(Clone, Copy)]
pub struct FirstRecord<'a> {
    pub second: u32,
    /// Where the capture is sound, fewer than 1,000,000.
    pub microsecond: u32,
    pub frame: &'a [u8],
    /// What stands behind the record.
    pub after: &'a [u8],
}

impl Resolution {
    // A number of microseconds, rounded down.
    fn microseconds(self, fraction: u32) -> u32
        ensures { result ≡ microseconds_in self fraction }
    {
        match self {
            Resolution::Microseconds => fraction,
            Resolution::Nanoseconds => fraction / 1000,
        }
    }
}

/// The record in front of these bytes, and none where it is cut or nothing is left. Looks at 16 bytes.
pub fn next_record(kind: CaptureKind, bytes: &[u8]) -> Option<FirstRecord<'_>>
    ensures next { MatchOption result (has_record kind.order bytes.now ≡ false)
        (λ found. IsFirst kind bytes.now found.second found.microsecond found.frame.now found.after.now) }
    ensures shorter { IfSome result (λ found. length found.after.now < length bytes.now) }
{
    if bytes.len() < HEAD {
        return None;
    }
    let count = kind.order.number(bytes, 8) as usize;
    let behind = &bytes[HEAD..];
    if behind.len() < count {
        return None;
    }
    let fraction = kind.order.number(bytes, 4);
    Some(FirstRecord {
        second: kind.order.number(bytes, 0),
        microsecond: kind.resolution.microseconds(fraction),
        frame: &behind[..count],
        after: &behind[count..],
    })
}
