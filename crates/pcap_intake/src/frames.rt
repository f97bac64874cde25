// What a frame holds.
ghost use Rattle.std.specs.Prelude.{◌≡◌, ◌≤◌, take, min, length, option_map};
ghost use Rattle.pcap_intake.specs.Frames.{IsJudged, packet_in, unset};

use crate::kind::LinkLayer;
use byteorder::{BigEndian, ByteOrder};
use ipv4_header::read;
use std::marker::Model;

// How many bytes of a packet are written: a header of at most 60, and 8 of payload.
const FRONT: usize = 68;

/// As much of a packet as its signature may look at, at most 68 bytes, with the checksum unset.
#[derive(Drop)]
pub struct PacketFront {
    bytes: [u8; 68],
    length: usize,
}

impl Model for PacketFront {
    ghost use Rattle.std.specs.Prelude.{List, ℕ, ◌≤◌, take};

    ghost Value = { List ℕ };

    ghost view = { λ f. take f.length f.bytes };

    ghost invariant = { λ f. f.length ≤ 68 };
}

impl PacketFront {
    /// The bytes.
    pub fn bytes(&self) -> &[u8]
        ensures value { result.now ≡ self.now }
        ensures most { length result.now ≤ 68 }
    {
        &self.bytes[..self.length]
    }
}

/// What a frame holds.
#[derive(Drop)]
pub enum FrameKind {
    /// No packet of IPv4.
    Other,
    /// A packet whose header is refused by `ipv4_header::read`.
    Refused,
    /// A packet.
    Good(PacketFront),
}

/// The packet of a frame that holds one of IPv4.
pub fn packet_in(link: LinkLayer, frame: &[u8]) -> Option<&[u8]>
    ensures { option_map (λ packet. packet.now) result ≡ packet_in link frame.now }
{
    match link {
        LinkLayer::Ethernet => {
            if frame.len() < 14 || BigEndian::read_u16(&frame[12..]) != 0x0800 {
                return None;
            }
            Some(&frame[14..])
        }
        LinkLayer::RawIp => {
            if frame.is_empty() || frame[0] >> 4 != 4 {
                return None;
            }
            Some(frame)
        }
    }
}

// The first bytes of a packet with its checksum unset, and zeros behind them.
fn unset_front(packet: &[u8]) -> [u8; 68]
    ensures { take (min (length packet.now) 68) result ≡ take 68 (unset packet.now) }
{
    let mut bytes = [0; FRONT];
    let count = packet.len().min(FRONT);
    bytes[..count].copy_from_slice(&packet[..count]);
    bytes[10] = 0;
    bytes[11] = 0;
    bytes
}

/// What a frame holds, where a packet's checksum is unset before it is judged. Copies 68 bytes at most.
pub fn judged(link: LinkLayer, frame: &[u8]) -> FrameKind
    ensures { IsJudged link frame.now result }
{
    let Some(packet) = packet_in(link, frame) else {
        return FrameKind::Other;
    };
    let bytes = unset_front(packet);
    let count = packet.len().min(FRONT);
    match read(&bytes[..count]) {
        Ok(header) => FrameKind::Good(PacketFront {
            bytes,
            length: count.min(usize::from(header.total_length)),
        }),
        Err(_) => FrameKind::Refused,
    }
}
