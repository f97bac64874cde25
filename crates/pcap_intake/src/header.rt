// The header of a capture's file.
ghost use Rattle.std.specs.Prelude.{◌≡◌, ◌≤◌, ◌+◌, length};
ghost use Rattle.pcap_intake.specs.Capture.{header_in, header_by_order, header_by_link, order_of, link_of, number_at};

use crate::kind::{CaptureKind, Endian, LinkLayer, Resolution};
use crate::refused::{CaptureRefused, CaptureWhy};
use byteorder::{BigEndian, ByteOrder, LittleEndian};

/// Bytes of the header.
pub const HEADER: usize = 24;

impl Endian {
    /// The number of four bytes at a place.
    #[inline]
    pub(crate) fn number(self, bytes: &[u8], place: usize) -> u32
        requires { place + 4 ≤ length bytes.now }
        ensures { result ≡ number_at self place 4 bytes.now }
    {
        match self {
            Endian::Big => BigEndian::read_u32(&bytes[place..]),
            Endian::Little => LittleEndian::read_u32(&bytes[place..]),
        }
    }

    /// The number of two bytes at a place.
    #[inline]
    fn short_number(self, bytes: &[u8], place: usize) -> u16
        requires { place + 2 ≤ length bytes.now }
        ensures { result ≡ number_at self place 2 bytes.now }
    {
        match self {
            Endian::Big => BigEndian::read_u16(&bytes[place..]),
            Endian::Little => LittleEndian::read_u16(&bytes[place..]),
        }
    }
}

fn refused(place: u64, why: CaptureWhy) -> CaptureRefused
    ensures { result ≡ CaptureRefused.Refused place why }
{
    CaptureRefused::Refused { place, why }
}

fn order_of(bytes: &[u8]) -> Option<Endian>
    requires { 24 ≤ length bytes.now }
    ensures { result ≡ order_of bytes.now }
{
    match BigEndian::read_u32(bytes) {
        0xa1b2_c3d4 => Some(Endian::Big),
        0xd4c3_b2a1 => Some(Endian::Little),
        _ => None,
    }
}

fn link_of(number: u32) -> Option<LinkLayer>
    ensures { result ≡ link_of number }
{
    match number {
        1 => Some(LinkLayer::Ethernet),
        101 => Some(LinkLayer::RawIp),
        _ => None,
    }
}

fn header_by_order(order: Endian, bytes: &[u8]) -> Result<CaptureKind, CaptureRefused>
    requires { 24 ≤ length bytes.now }
    ensures { result ≡ header_by_order (Some order) bytes.now }
{
    if order.short_number(bytes, 4) != 2 || order.short_number(bytes, 6) != 4 {
        return Err(refused(4, CaptureWhy::Version));
    }
    match link_of(order.number(bytes, 20)) {
        Some(link) => Ok(CaptureKind {
            order,
            resolution: Resolution::Microseconds,
            link,
        }),
        None => Err(refused(20, CaptureWhy::LinkType)),
    }
}

/// The kind of a capture by the 24 bytes of its file's header, or the first rule that they break. Bytes 8 to 19 are not
/// looked at.
#[tactic(auto, unfolding(crate::specs::Capture::header_in))]
pub fn file_header(bytes: &[u8]) -> Result<CaptureKind, CaptureRefused>
    ensures { result ≡ header_in bytes.now }
{
    if bytes.len() < HEADER {
        return Err(refused(bytes.len() as u64, CaptureWhy::Short));
    }
    match order_of(bytes) {
        Some(order) => header_by_order(order, bytes),
        None => Err(refused(0, CaptureWhy::Magic)),
    }
}
