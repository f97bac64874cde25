// Signatures in their slab and in the chains of their buckets.
ghost use Rattle.std.specs.Prelude.{◌≡◌, ◌<◌, ◌+◌, ℕ, List, [], ◌∷◌, ◌++◌, Some, None, OnOk};
ghost use Rattle.slab.specs.Slab.{get, slab_len, ContainsKey, HasRoomFor, Updates};
ghost use Rattle.index_rings.specs.Rings.{without};
ghost use Rattle.index_rings.specs.Orders.{chains_in, places_in, Holds};
ghost use Rattle.indirect_store.specs.Held.{uses_in};
ghost use Rattle.indirect_store.specs.Stores.{AreFiled, with_uses};
ghost use Rattle.indirect_store.specs.declared.held.Held.{Held};

use crate::Held;
use crate::buckets::bucket_of;
use index_rings::Chains;
use slab::Slab;
use spie_base::{NoMemory, Sig};

/// Makes room for one signature more. Nothing else changes, also where it fails.
pub fn make_room(slots: &mut Slab<Held>, buckets: &mut Chains) -> Result<(), NoMemory>
    ensures room { OnOk result (HasRoomFor slots.new 1) }
    ensures place { OnOk result (slots.new.vacant_key < places_in buckets.new) }
    ensures slots { slots.new ≡ record slots.old { capacity = slots.new.capacity } }
    ensures chains { chains_in buckets.new ≡ chains_in buckets.old }
    ensures kept { (label : ℕ → ℕ) → (order : List ℕ) → Holds buckets.old label order → Holds buckets.new label order }
{
    slots.reserve(1)?;
    buckets.cover_place(slots.vacant_key())?;
    Ok(())
}

/// Holds a signature with one use, at the end of its bucket's chain.
pub fn file(slots: &mut Slab<Held>, buckets: &mut Chains, sig: &Sig) -> usize
    requires room { HasRoomFor slots.old 1 }
    requires place { slots.old.vacant_key < places_in buckets.old }
    requires filed { (order : List ℕ) × AreFiled slots.old buckets.old order }
    ensures key { result ≡ slots.old.vacant_key }
    ensures vacant { get slots.old result ≡ None }
    ensures slots { Updates slots.old slots.new result (Some (record { sig = sig.now; uses = 1 })) }
    ensures filed { (order : List ℕ) → AreFiled slots.old buckets.old order
        → AreFiled slots.new buckets.new (order ++ result ∷ []) }
{
    let place = slots.insert_reserved(Held { sig: *sig, uses: 1 });
    buckets.append(bucket_of(sig), place);
    place
}

/// Gives a signature up.
pub fn unfile(slots: &mut Slab<Held>, buckets: &mut Chains, place: usize)
    requires held { ContainsKey slots.old place }
    requires filed { (order : List ℕ) × AreFiled slots.old buckets.old order }
    ensures slots { Updates slots.old slots.new place None }
    ensures filed { (order : List ℕ) → AreFiled slots.old buckets.old order
        → AreFiled slots.new buckets.new (without place order) }
{
    let held = slots.remove(place);
    buckets.take_out(bucket_of(&held.sig), place);
}

/// Writes how many uses a signature has.
pub fn set_uses(slots: &mut Slab<Held>, place: usize, uses: u64)
    requires { ContainsKey slots.old place }
    ensures slots { Updates slots.old slots.new place (with_uses (get slots.old place) uses) }
    ensures len { slab_len slots.new ≡ slab_len slots.old }
{
    slots[place].uses = uses;
}

/// How many uses a signature has.
pub fn uses_of(slots: &Slab<Held>, place: usize) -> u64
    requires { ContainsKey slots.now place }
    ensures { result ≡ uses_in (get slots.now place) }
{
    slots[place].uses
}
