// The fields of a header, and why bytes are no header.
use thiserror::Error;

/// The header of an IPv4 packet (RFC 791, section 3.1), without its version and its length, which
/// follow from `option_length`. Numbers have the host's order.
#[derive(Clone, Copy, PartialEq, Eq, Debug)]
pub struct Header {
    /// Type of Service.
    pub tos: u8,
    /// Bytes of the packet, with this header.
    pub total_length: u16,
    pub identification: u16,
    /// Three bits of flags, then the fragment's offset in units of eight bytes.
    pub flags_fragment: u16,
    /// Time to Live.
    pub ttl: u8,
    pub protocol: u8,
    /// The header checksum. 0 stands for one that is not set.
    pub checksum: u16,
    pub source: u32,
    pub destination: u32,
    /// The options, with zeros behind them.
    pub options: [u8; 40],
    /// Bytes of options, a multiple of 4 up to 40.
    pub option_length: u8,
}

/// Why the bytes of a packet are refused. Each is printed as one word.
#[derive(Clone, Copy, PartialEq, Eq, Debug, Error)]
pub enum HeaderRefused {
    /// There are fewer than 20 bytes.
    #[error("short")]
    Short,
    /// The version is not 4.
    #[error("version")]
    Version,
    /// The header's length is below 20 bytes, or fewer bytes are given.
    #[error("header-length")]
    HeaderLength,
    /// The total length is below the header's.
    #[error("total-length")]
    TotalLength,
    /// The checksum is set and does not fit the header.
    #[error("checksum")]
    Checksum,
}
