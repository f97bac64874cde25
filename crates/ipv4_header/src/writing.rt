ghost use Rattle.std.specs.Prelude.{◌≡◌, ◌≤◌, ◌<◌, ◌+◌, ◌-◌, ◌++◌, ◌%◌, ◌^◌, take, drop, replicate, None};
ghost use Rattle.byteorder.specs.Endian.{big_bytes};
ghost use Rattle.ipv4_header.specs.Grammar.{header_in, refusal_of};
ghost use Rattle.ipv4_header.specs.Spelling.{corrected, fields_of, right_checksum, spelled};

use crate::Header;
use crate::sums::checksum;
use byteorder::{BigEndian, ByteOrder};

// The addresses.
fn addresses(source: u32, destination: u32) -> [u8; 8]
    ensures exact { result ≡ big_bytes 4 source ++ big_bytes 4 destination }
    ensures source { source < 2 ^ 32 }
    ensures destination { destination < 2 ^ 32 }
{
    let mut bytes = [0; 8];
    BigEndian::write_u32(&mut bytes, source);
    BigEndian::write_u32(&mut bytes[4..], destination);
    bytes
}

// The fields, with no checksum.
fn front(header: &Header) -> [u8; 20]
    requires { header.now.option_length ≤ 40 }
    ensures exact { result ≡ fields_of header.now 0 }
    ensures source { header.now.source < 2 ^ 32 }
    ensures destination { header.now.destination < 2 ^ 32 }
{
    let mut bytes = [0; 20];
    bytes[0] = 0x45 + header.option_length / 4;
    bytes[1] = header.tos;
    BigEndian::write_u16(&mut bytes[2..], header.total_length);
    BigEndian::write_u16(&mut bytes[4..], header.identification);
    BigEndian::write_u16(&mut bytes[6..], header.flags_fragment);
    bytes[8] = header.ttl;
    bytes[9] = header.protocol;
    bytes[12..].copy_from_slice(&addresses(header.source, header.destination));
    bytes
}

// The fields with no checksum, and the options.
fn unsummed(header: &Header) -> [u8; 60]
    requires { header.now.option_length ≤ 40 }
    ensures exact { result ≡ fields_of header.now 0 ++ header.now.options }
    ensures source { header.now.source < 2 ^ 32 }
    ensures destination { header.now.destination < 2 ^ 32 }
{
    let mut bytes = [0; 60];
    bytes[..20].copy_from_slice(&front(header));
    bytes[20..].copy_from_slice(&header.options);
    bytes
}

// The fields with the right checksum, and the options.
fn summed(header: &Header, count: usize) -> [u8; 60]
    requires whole_words { header.now.option_length % 4 ≡ 0 }
    requires most { header.now.option_length ≤ 40 }
    requires counted { count ≡ 20 + header.now.option_length }
    ensures exact { result ≡ fields_of header.now (right_checksum header.now) ++ header.now.options }
    ensures source { header.now.source < 2 ^ 32 }
    ensures destination { header.now.destination < 2 ^ 32 }
{
    let mut bytes = unsummed(header);
    let sum = checksum(&bytes[..count]);
    BigEndian::write_u16(&mut bytes[10..12], sum);
    bytes
}

/// The bytes of a header with its right checksum, with zeros behind them, and how many they are, from 20
/// to 60. The field `checksum` is not used. `read` of the bytes gives the header with that checksum.
///
/// Takes no memory. Costs a copy of 60 bytes and one addition for each 16-bit word.
pub fn write(header: &Header) -> ([u8; 60], usize)
    requires whole_words { header.now.option_length % 4 ≡ 0 }
    requires most { header.now.option_length ≤ 40 }
    requires unused { drop header.now.option_length header.now.options ≡ replicate (40 - header.now.option_length) 0 }
    requires total { 20 + header.now.option_length ≤ header.now.total_length }

    ensures count { result.1 ≡ 20 + header.now.option_length }
    ensures bytes { take result.1 result.0 ≡ spelled header.now }
    ensures rest { drop result.1 result.0 ≡ replicate (60 - result.1) 0 }

    // What `read` makes of these bytes.
    ensures accepted { refusal_of (take result.1 result.0) ≡ None }
    ensures reads_back { header_in (take result.1 result.0) ≡ corrected header.now }
{
    let count = 20 + usize::from(header.option_length);
    (summed(header, count), count)
}
