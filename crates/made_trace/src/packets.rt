// The lines of packets.
ghost use Rattle.std.specs.Prelude.{◌≡◌, ◌++◌, ◌<◌, OnOk, codes, take};
ghost use Rattle.std.specs.Int.{w64, to_be_bytes};
ghost use Rattle.hex.specs.Hex.{encode_lower};
ghost use Rattle.ipv4_header.specs.Spelling.{spelled};
ghost use Rattle.trace_format.specs.Said as said;
ghost use Rattle.made_trace.specs.Lines.{said_line};
ghost use Rattle.made_trace.specs.Made as made;

use crate::draws::Draw;
use ipv4_header::{Header, write};
use line_text::push;
use spie_base::NoMemory;

// The packet's header with its right checksum, and zeros behind it.
fn header_bytes(i: u32, source: u32, destination: u32) -> [u8; 60]
    ensures bytes { take 20 result ≡ spelled (made.made_header i source destination) }
{
    let header = Header {
        tos: 0,
        total_length: 28,
        identification: (i % 65_536) as u16,
        flags_fragment: 0,
        ttl: 64,
        protocol: 17,
        checksum: 0,
        source,
        destination,
        options: [0; 40],
        option_length: 0,
    };
    let (bytes, _count) = write(&header);
    bytes
}

// Appends 20 bytes as hex digits.
fn push_header(out: &mut Vec<u8>, bytes: &[u8; 60]) -> Result<(), NoMemory>
    ensures { OnOk result (out.new.items ≡ out.old.items ++ encode_lower (take 20 bytes.now)) }
{
    let mut digits = [0u8; 40];
    hex::encode_to_slice(&bytes[..20], &mut digits).unwrap();
    push(out, &digits)
}

/// Appends a number as 16 hex digits.
pub(crate) fn push_word(out: &mut Vec<u8>, word: u64) -> Result<(), NoMemory>
    ensures { OnOk result (out.new.items ≡ out.old.items ++ encode_lower (to_be_bytes w64 word)) }
{
    let bytes = word.to_be_bytes();
    let mut digits = [0u8; 16];
    hex::encode_to_slice(bytes.as_slice(), &mut digits).unwrap();
    push(out, &digits)
}

/// Appends the line of a packet from a source, with the destination and the payload that were drawn.
pub(crate) fn push_packet(
    out: &mut Vec<u8>,
    i: u32,
    source: u32,
    draw: &Draw,
) -> Result<(), NoMemory>
    ensures { OnOk result (out.new.items ≡ out.old.items ++ said_line (said.Packet (made.packet_of i source draw.now))) }
{
    let header = header_bytes(i, source, (draw.ends % 4_294_967_296) as u32);
    push(out, b"packet ")?;
    push_header(out, &header)?;
    push_word(out, draw.payload)?;
    push(out, b"\n")?;
    Ok(())
}
