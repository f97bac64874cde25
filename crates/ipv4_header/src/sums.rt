// The Internet checksum (RFC 1071).
ghost use Rattle.std.specs.Prelude.{◌≡◌, ◌≤◌, ◌<◌, ◌+◌, ◌*◌, ◌%◌, ◌^◌, length};
ghost use Rattle.ipv4_header.specs.Sums.{word_sum, ones_complement, ones_sum, checksum_of};

use byteorder::{BigEndian, ByteOrder};

// The sum of the 16-bit words, with its carries still above bit 15.
fn sum_of_words(bytes: &[u8]) -> u32
    requires even { length bytes.now % 2 ≡ 0 }
    requires most { length bytes.now ≤ 60 }
    ensures exact { result ≡ word_sum bytes.now }
    ensures small { result ≤ 30 * 65535 }
{
    let mut sum = 0;
    'words: for i in 0..bytes.len() / 2 {
        sum += u32::from(BigEndian::read_u16(&bytes[2 * i..]));
    }
    sum
}

// Each carry is added back at the low end. The second time takes in the one that the first may make.
fn folded(sum: u32) -> u16
    requires { sum < 2 ^ 30 }
    ensures { result ≡ ones_complement sum }
{
    let once = (sum & 0xffff) + (sum >> 16);
    let twice = (once & 0xffff) + (once >> 16);
    twice as u16
}

// The ones' complement sum of the words of a header.
pub(crate) fn header_sum(header: &[u8]) -> u16
    requires even { length header.now % 2 ≡ 0 }
    requires most { length header.now ≤ 60 }
    ensures { result ≡ ones_sum header.now }
{
    folded(sum_of_words(header))
}

/// The right checksum of a header, whatever stands in its checksum field. Costs one addition for each
/// 16-bit word.
pub fn checksum(header: &[u8]) -> u16
    requires even { length header.now % 2 ≡ 0 }
    requires least { 20 ≤ length header.now }
    requires most { length header.now ≤ 60 }
    ensures { result ≡ checksum_of header.now }
{
    let sum = sum_of_words(&header[..10]) + sum_of_words(&header[12..]);
    !folded(sum)
}
