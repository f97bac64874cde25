ghost use Rattle.std.specs.Prelude.{◌≡◌, ◌↔◌, length, IsSome, IfSome};
ghost use Rattle.packet_signature.specs.Row.{agree, data_of, fragment_bytes, inverse_of, key_of, other_bytes, restored, row_of, with_fragment_bytes};

use crate::{Kind, Row, RowData};
use byteorder::{BigEndian, ByteOrder};
use sha2::{Digest, Sha256};
use spie_base::Sig;

// Whether the signatures agree in all bytes that fragmentation leaves.
fn agrees(old: &Sig, new: &Sig) -> bool
    ensures exact { result ≡ agree old.now new.now }
    ensures old_length { length old.now.bytes ≡ 28 }
    ensures new_length { length new.now.bytes ≡ 28 }
{
    let (a, b) = (&old.bytes, &new.bytes);
    a[..2] == b[..2] && a[4..6] == b[4..6] && a[8..] == b[8..]
}

// The bytes that fragmentation changes.
fn changed(sig: &Sig) -> [u8; 4]
    ensures { result ≡ fragment_bytes sig.now }
{
    [sig.bytes[2], sig.bytes[3], sig.bytes[6], sig.bytes[7]]
}

/// The old total length, flags and fragment offset (bytes 2, 3, 6 and 7), where the signatures agree in
/// all other bytes.
pub fn direct(old: &Sig, new: &Sig) -> Option<[u8; 4]>
    ensures agree { IsSome result ↔ (other_bytes old.now ≡ other_bytes new.now) }
    ensures bytes { IfSome result (λ bytes. bytes ≡ fragment_bytes old.now) }
{
    if !agrees(old, new) {
        return None;
    }
    Some(changed(old))
}

/// The key by which rows of a signature are found: the first eight bytes of its SHA-256 as a big-endian
/// number. Costs one block of SHA-256.
pub fn key(sig: &Sig) -> u64
    ensures { result ≡ key_of sig.now }
{
    BigEndian::read_u64(&Sha256::digest(&sig.bytes))
}

// What the row of a transform keeps of the old signature.
fn kept(kind: Kind, old: &Sig, new: &Sig) -> RowData
    ensures exact { result ≡ data_of kind old.now new.now }
    ensures restores { restored result new.now ≡ old.now }
{
    match kind {
        Kind::Frag if agrees(old, new) => RowData::Direct(changed(old)),
        _ => RowData::Indirect(*old),
    }
}

/// The row of a transform. A fragment that differs from the old signature in bytes 2, 3, 6 and 7 at most
/// is kept as these four, and any other transform with all of the old signature. Costs a `key`.
#[tactic(auto, unfolding(crate::specs::Row::row_of, crate::specs::Row::inverse_of))]
pub fn row(kind: Kind, old: &Sig, new: &Sig) -> Row
    ensures exact { result ≡ row_of kind old.now new.now }

    // The old signature is found again from the row and the new one.
    ensures inverse { inverse_of result new.now ≡ old.now }
{
    Row {
        key: key(new),
        kind,
        old: kept(kind, old, new),
    }
}

// The signature with other fragment bytes.
fn with_fragment_bytes(sig: &Sig, bytes: &[u8; 4]) -> Sig
    ensures { result ≡ with_fragment_bytes sig.now bytes.now }
{
    let mut old = *sig;
    old.bytes[2..4].copy_from_slice(&bytes[..2]);
    old.bytes[6..8].copy_from_slice(&bytes[2..]);
    old
}

/// The signature before a transform, from its row and the signature after it: of a row of `row`, the old
/// signature. Costs a copy of 28 bytes.
#[tactic(auto, unfolding(crate::specs::Row::inverse_of))]
pub fn inverse(row: &Row, sig: &Sig) -> Sig
    ensures { result ≡ inverse_of row.now sig.now }
{
    match row.old {
        RowData::Direct(bytes) => with_fragment_bytes(sig, &bytes),
        RowData::Indirect(old) => old,
    }
}
