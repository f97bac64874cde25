// The bucket of a signature, and the search in it.
ghost use Rattle.std.specs.Prelude.{◌≡◌, ◌≢◌, ◌↔◌, ◌<◌, All, IfSome, IfNone, IsTrue, Some};
ghost use Rattle.slab.specs.Slab.{get};
ghost use Rattle.index_rings.specs.Walk.{places_left};
ghost use Rattle.indirect_store.specs.Held.{sig_in};
ghost use Rattle.indirect_store.specs.Stores.{bucket_of};

use crate::Held;
use byteorder::{BigEndian, ByteOrder};
use index_rings::Places;
use sha2::{Digest, Sha256};
use slab::Slab;
use spie_base::Sig;

/// How many buckets there are.
pub const BUCKETS: usize = 1_024;

/// The bucket of a signature: its key, which is the first eight bytes of its SHA-256, modulo 1,024.
#[tactic(auto, unfolding(crate::specs::Stores::bucket_of))]
pub fn bucket_of(sig: &Sig) -> usize
    ensures exact { result ≡ bucket_of sig.now }
    ensures within { result < BUCKETS }
{
    (BigEndian::read_u64(&Sha256::digest(&sig.bytes)) % BUCKETS as u64) as usize
}

/// Which of these places holds the signature.
pub fn place_of(slots: &Slab<Held>, places: Places, sig: &Sig) -> Option<usize>
    ensures found { IfSome result (λ place. sig_in (get slots.now place) ≡ Some sig.now) }
    ensures none { IfNone result (All (λ place. sig_in (get slots.now place) ≢ Some sig.now) (places_left places.entry)) }
{
    let mut places = places;
    while let Some(place) = places.next() {
        if has_sig(slots, place, sig) {
            return Some(place);
        }
    }
    None
}

// Whether a place holds the signature.
fn has_sig(slots: &Slab<Held>, place: usize, sig: &Sig) -> bool
    ensures { IsTrue result ↔ (sig_in (get slots.now place) ≡ Some sig.now) }
{
    match slots.get(place) {
        None => false,
        Some(held) => held.sig == *sig,
    }
}
