ghost use Rattle.std.specs.Prelude.{◌≡◌, ◌≢◌, ◌<◌, ◌+◌, ◌^◌, ℕ, [], IfOk, IfSome, IfNone, IsSome, OnOk, OnErr, Some, None, count_by, is_some};
ghost use Rattle.spie_base.specs.declared.Sig.{Sig};
ghost use Rattle.indirect_store.specs.Held.{held_at, sig_at, one_more, one_fewer, ChangesOnly, AreDifferent, AreUsed};

use crate::Held;
use crate::buckets::{BUCKETS, bucket_of, place_of};
use crate::filing::{file, make_room, set_uses, unfile, uses_of};
use index_rings::Chains;
use slab::Slab;
use spie_base::{NoMemory, Sig};
use std::alloc::Global;
use std::marker::Model;

/// Different signatures, each under an id and with a count of its uses.
#[derive(Drop)]
pub struct Store {
    slots: Slab<Held>,
    buckets: Chains,
}

impl Model for Store {
    ghost use Rattle.std.specs.Prelude.{List, Option};
    ghost use Rattle.indirect_store.specs.declared.held.Held.{Held};
    ghost use Rattle.indirect_store.specs.Stores.{IsStore};

    ghost Value = { List (Option Held) };

    ghost view = { λ s. s.slots.slots };

    ghost invariant = { λ s. IsStore s.slots s.buckets };
}

impl Store {
    /// Nothing is held. Allocates the 1,024 chains of the buckets, 16 bytes each.
    pub fn new(alloc: Global) -> Result<Store, NoMemory>
        ensures { IfOk result (λ store. store ≡ []) }
    {
        Ok(Store {
            slots: Slab::new(alloc),
            buckets: Chains::with_chains(alloc, BUCKETS)?,
        })
    }

    /// Adds one use of a signature and gives its id, which is the same as long as the signature is held. Costs one
    /// SHA-256 and a look at each signature of one bucket of 1,024.
    ///
    /// Memory is refused also where 2^32 signatures are held already, or where the signature has 2^64 - 1 uses.
    pub fn put(&mut self, _alloc: Global, sig: &Sig) -> Result<u32, NoMemory>
        ensures more { IfOk result (λ id. ChangesOnly self.old self.new id (one_more (held_at self.old id) sig.now)) }
        ensures same { IfOk result (λ id. (held : ℕ) → sig_at self.old held ≡ Some sig.now → held ≡ id) }
        ensures own { IfOk result (λ id. IsSome (held_at self.old id) → sig_at self.old id ≡ Some sig.now) }
        ensures unchanged { OnErr result (self.new ≡ self.old) }
    {
        match self.find(sig) {
            Some(id) => self.use_again(id),
            None => self.hold(sig),
        }
    }

    /// The signature that is held under an id.
    pub fn get(&self, id: u32) -> &Sig
        requires { IsSome (held_at self.now id) }
        ensures { sig_at self.now id ≡ Some result.now }
    {
        &self.slots[id as usize].sig
    }

    /// Takes one use of the signature under an id away. The last one gives the signature up, and its id may be given
    /// to another. Costs one SHA-256 at the last use.
    pub fn release(&mut self, id: u32)
        requires { IsSome (held_at self.old id) }
        ensures { ChangesOnly self.old self.new id (one_fewer (held_at self.old id)) }
    {
        let place = id as usize;
        let uses = uses_of(&self.slots, place);
        if uses == 1 {
            unfile(&mut self.slots, &mut self.buckets, place);
        } else {
            set_uses(&mut self.slots, place, uses - 1);
        }
    }

    /// How many different signatures are held.
    pub fn len(&self) -> usize
        ensures count { result ≡ count_by is_some self.now }
        ensures different { AreDifferent self.now }
        ensures used { AreUsed self.now }
    {
        self.slots.len()
    }

    // The id under which a signature is held.
    fn find(&self, sig: &Sig) -> Option<usize>
        ensures found { IfSome result (λ id. sig_at self.now id ≡ Some sig.now) }
        ensures fits { IfSome result (λ id. id < 2 ^ 32) }
        ensures different { AreDifferent self.now }
        ensures none { IfNone result ((id : ℕ) → sig_at self.now id ≢ Some sig.now) }
    {
        let places = self.buckets.places(bucket_of(sig), self.slots.len());
        place_of(&self.slots, places, sig)
    }

    // One use more of what is held under an id.
    fn use_again(&mut self, id: usize) -> Result<u32, NoMemory>
        requires held { IsSome (held_at self.old id) }
        requires fits { id < 2 ^ 32 }
        ensures id { IfOk result (λ same. same ≡ id) }
        ensures more { OnOk result ((sig : Sig) → sig_at self.old id ≡ Some sig
            → ChangesOnly self.old self.new id (one_more (held_at self.old id) sig)) }
        ensures unchanged { OnErr result (self.new ≡ self.old) }
    {
        let uses = uses_of(&self.slots, id);
        if uses == u64::MAX {
            return Err(NoMemory);
        }
        set_uses(&mut self.slots, id, uses + 1);
        Ok(id as u32)
    }

    // Holds a signature that is not held yet.
    fn hold(&mut self, sig: &Sig) -> Result<u32, NoMemory>
        requires { (id : ℕ) → sig_at self.old id ≢ Some sig.now }
        ensures held { IfOk result (λ id. ChangesOnly self.old self.new id (one_more None sig.now)) }
        ensures vacant { IfOk result (λ id. held_at self.old id ≡ None) }
        ensures unchanged { OnErr result (self.new ≡ self.old) }
    {
        if self.slots.vacant_key() > u32::MAX as usize {
            return Err(NoMemory);
        }
        make_room(&mut self.slots, &mut self.buckets)?;
        let id = file(&mut self.slots, &mut self.buckets, sig);
        Ok(id as u32)
    }
}
