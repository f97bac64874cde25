ghost use Rattle.std.specs.Prelude.{◌≡◌, ◌≤◌, ◌+◌, ◌-◌, ◌++◌, length, replicate, Some, None, IfOk, IfErr, OnOk};
ghost use Rattle.ipv4_header.specs.Grammar.{header_in, header_length_of, refusal_of, total_length_of};

use crate::sums::header_sum;
use crate::{Header, HeaderRefused};
use byteorder::{BigEndian, ByteOrder};

// The length in bytes of a header that keeps every rule.
#[tactic(auto, unfolding(crate::specs::Grammar::refusal_of))]
fn checked_length(packet: &[u8]) -> Result<usize, HeaderRefused>
    ensures refused { IfErr result (λ reason. refusal_of packet.now ≡ Some reason) }
    ensures kept { OnOk result (refusal_of packet.now ≡ None) }
    ensures exact { IfOk result (λ n. n ≡ header_length_of packet.now) }
    ensures least { IfOk result (λ n. 20 ≤ n) }
    ensures given { IfOk result (λ n. n ≤ length packet.now) }
    ensures inside { IfOk result (λ n. n ≤ total_length_of packet.now) }
{
    if packet.len() < 20 {
        return Err(HeaderRefused::Short);
    }
    if packet[0] >> 4 != 4 {
        return Err(HeaderRefused::Version);
    }
    let length = usize::from(packet[0] & 0x0f) * 4;
    if length < 20 || packet.len() < length {
        return Err(HeaderRefused::HeaderLength);
    }
    if usize::from(BigEndian::read_u16(&packet[2..])) < length {
        return Err(HeaderRefused::TotalLength);
    }
    if BigEndian::read_u16(&packet[10..]) != 0 && header_sum(&packet[..length]) != 0xffff {
        return Err(HeaderRefused::Checksum);
    }
    Ok(length)
}

// The options, with zeros behind them.
fn padded(options: &[u8]) -> [u8; 40]
    requires { length options.now ≤ 40 }
    ensures { result ≡ options.now ++ replicate (40 - length options.now) 0 }
{
    let mut all = [0; 40];
    all[..options.len()].copy_from_slice(options);
    all
}

/// The header at the front of a packet, where it keeps RFC 791's rules. A refusal names the first rule
/// that is broken, in the order of `HeaderRefused`. A checksum of 0 is taken for one that is not set.
///
/// Takes no memory. Costs one addition for each 16-bit word of the header, and the copy of its fields.
#[tactic(auto, unfolding(crate::specs::Grammar::header_in))]
pub fn read(packet: &[u8]) -> Result<Header, HeaderRefused>
    ensures refused { IfErr result (λ reason. refusal_of packet.now ≡ Some reason) }
    ensures accepted { OnOk result (refusal_of packet.now ≡ None) }
    ensures fields { IfOk result (λ header. header ≡ header_in packet.now) }

    // Where the payload starts: within the bytes that are given, and within the packet.
    ensures length { IfOk result (λ header. 20 + header.option_length ≡ header_length_of packet.now) }
    ensures given { IfOk result (λ header. 20 + header.option_length ≤ length packet.now) }
    ensures inside { IfOk result (λ header. 20 + header.option_length ≤ header.total_length) }
{
    let length = checked_length(packet)?;
    Ok(Header {
        tos: packet[1],
        total_length: BigEndian::read_u16(&packet[2..]),
        identification: BigEndian::read_u16(&packet[4..]),
        flags_fragment: BigEndian::read_u16(&packet[6..]),
        ttl: packet[8],
        protocol: packet[9],
        checksum: BigEndian::read_u16(&packet[10..]),
        source: BigEndian::read_u32(&packet[12..]),
        destination: BigEndian::read_u32(&packet[16..]),
        options: padded(&packet[20..length]),
        option_length: (length - 20) as u8,
    })
}
