ghost use Rattle.std.specs.Prelude.{◌≡◌, ◌≤◌, ◌++◌, length, map, slice_index, Some, None, IfOk, IfErr, OnOk};
ghost use Rattle.ipv4_header.specs.Grammar.{refusal_of};
ghost use Rattle.std.specs.List.{range_with_len};
ghost use Rattle.packet_signature.specs.Signature.{masked, signature_of};

use ipv4_header::{HeaderRefused, read};
use spie_base::Sig;

// Where the header bytes stand that routers change on the way (RFC 791, section 3.1).
const TYPE_OF_SERVICE: usize = 1;

const TIME_TO_LIVE: usize = 8;

const CHECKSUM: usize = 10;

// The signature from the first bytes of a packet and from what stands behind its header.
fn shown(header: &[u8], payload: &[u8]) -> Sig
    requires { 20 ≤ length header.now }
    ensures { result.bytes ≡ map (masked (slice_index header.now)) (range_with_len 0 20) ++ map (slice_index payload.now) (range_with_len 0 8) }
{
    let mut bytes = [0; 28];
    bytes[..20].copy_from_slice(&header[..20]);
    bytes[TYPE_OF_SERVICE] = 0;
    bytes[TIME_TO_LIVE] = 0;
    bytes[CHECKSUM] = 0;
    bytes[CHECKSUM + 1] = 0;
    let count = payload.len().min(8);
    bytes[20..20 + count].copy_from_slice(&payload[..count]);
    Sig { bytes }
}

/// The signature of a packet: its first 20 bytes with Type of Service, Time to Live and header checksum
/// set to 0, then the 8 bytes behind its header, with zeros where the packet ends earlier. A packet ends
/// at its total length or where its bytes end. Options are left out.
///
/// Takes no memory. Costs what `read` costs, which is one addition for each 16-bit word of the header and
/// a copy of its fields, and a copy of 28 bytes.
pub fn signature(packet: &[u8]) -> Result<Sig, HeaderRefused>
    ensures refused { IfErr result (λ reason. refusal_of packet.now ≡ Some reason) }
    ensures accepted { OnOk result (refusal_of packet.now ≡ None) }
    ensures masked { IfOk result (λ sig. sig ≡ signature_of packet.now) }
{
    let header = read(packet)?;
    let packet = &packet[..packet.len().min(usize::from(header.total_length))];
    let payload = &packet[20 + usize::from(header.option_length)..];
    Ok(shown(packet, payload))
}
