// A shelf that lies once, for tests.
ghost use Rattle.std.specs.Prelude.{true, ◌≡◌, ◌≤◌, ◌+◌, ◌↔◌, vec_len, IfOk, IfSome, OnErr, OnOk, IsErrOf, None, Some};
ghost use Rattle.page_shelf.specs.Bent.{bent_by, bent_of, bytes_of, flipped, handed_out, held_in, shelf_in};
ghost use Rattle.spie_base.specs.Memory.{counted};
ghost use Rattle.page_shelf.specs.declared.bent.Bend.TheVariants.{Flip};
ghost use Rattle.page_shelf.specs.declared.names.ShelfName.{ShelfName};
ghost use Rattle.page_shelf.specs.declared.names.ShelfRefused.TheVariants.{Failed};
ghost use Rattle.page_shelf.specs.Memory.{IsCounted, calls_of, fails_now};
ghost use Rattle.page_shelf.specs.Shelves.{IsCaused, IsSame, IsSet};

use crate::{MemShelf, Shelf, ShelfName, ShelfRefused};
use std::alloc::Global;

/// How a get is bent.
#[derive(Clone, Copy, PartialEq, Eq, Debug)]
pub enum Bend {
    /// The lowest bit of the last byte is the other one.
    Flip,
    /// The last byte is left out.
    Cut,
    /// Nothing is there.
    Gone,
}

/// A shelf in memory, of which one get is bent. It tells no map.
#[derive(Drop)]
pub struct BentShelf {
    inner: MemShelf,
    bent: u64,
    bend: Bend,
    gets: u64,
}

impl BentShelf {
    /// Flips a bit in what the get of number `bent` hands out. Gets are counted from 0, those that fail too.
    pub fn new(inner: MemShelf, bent: u64) -> BentShelf
        ensures faults { ⟦<BentShelf as Shelf>⟧.faults result ≡ ⟦<MemShelf as Shelf>⟧.faults inner }
        ensures bent { bent_of result ≡ record { number = bent; bend = Flip; gets = 0 } }
        ensures inner { shelf_in result ≡ inner }
    {
        BentShelf::bending(inner, bent, Bend::Flip)
    }

    /// Bends the get of number `bent`. Gets are counted from 0, those that fail too.
    pub fn bending(inner: MemShelf, bent: u64, bend: Bend) -> BentShelf
        ensures faults { ⟦<BentShelf as Shelf>⟧.faults result ≡ ⟦<MemShelf as Shelf>⟧.faults inner }
        ensures bent { bent_of result ≡ record { number = bent; bend = bend; gets = 0 } }
        ensures inner { shelf_in result ≡ inner }
    {
        BentShelf {
            inner,
            bent,
            bend,
            gets: 0,
        }
    }
}

// The lowest bit of the last byte is the other one.
fn flip_last(bytes: &mut [u8])
    ensures { bytes.new ≡ flipped bytes.old }
{
    let count = bytes.len();
    if count > 0 {
        bytes[count - 1] ^= 1;
    }
}

fn bend_bytes(mut bytes: Vec<u8>, bend: Bend) -> Option<Vec<u8>>
    ensures bent { bytes_of result ≡ bent_by bend bytes.items }
    ensures bound { IfSome result (λ v. vec_len v ≤ vec_len bytes) }
{
    match bend {
        Bend::Flip => {
            flip_last(&mut bytes);
            Some(bytes)
        }
        Bend::Cut => {
            let _ = bytes.pop();
            Some(bytes)
        }
        Bend::Gone => None,
    }
}

impl Shelf for BentShelf {
    ghost use Rattle.std.specs.Prelude.{false, None};

    ghost tells = { λ s. false };

    ghost contents = { λ s name. None };

    ghost faults = { λ s. s.inner.faults };

    fn put(&mut self, alloc: Global, name: &ShelfName, bytes: &[u8]) -> Result<(), ShelfRefused>
        ensures cause { IsCaused (calls_of (shelf_in self.old)).failed (calls_of (shelf_in self.new)).failed result }
        ensures set { OnOk result (IsSet name.now (Some bytes.now) (held_in self.old) (held_in self.new)) }
        ensures same { OnErr result (IsSame (held_in self.old) (held_in self.new)) }
        ensures failed { IsErrOf result Failed ↔ (fails_now (calls_of (shelf_in self.old)) ≡ true) }
        ensures counted { IsCounted (calls_of (shelf_in self.old)) (calls_of (shelf_in self.new)) }
        ensures bent { bent_of self.new ≡ bent_of self.old }
    {
        self.inner.put(alloc, name, bytes)
    }

    fn get(
        &mut self,
        alloc: Global,
        name: &ShelfName,
        most: usize,
    ) -> Result<Option<Vec<u8>>, ShelfRefused>
        ensures cause { IsCaused (calls_of (shelf_in self.old)).failed (calls_of (shelf_in self.new)).failed result }
        ensures bound { IfOk result (λ got. IfSome got (λ v. vec_len v ≤ most + 1)) }

        // Which get is bent, and how.
        ensures handed { IfOk result (λ got. bytes_of got ≡ handed_out self.old name.now most) }
        ensures same { IsSame (held_in self.old) (held_in self.new) }
        ensures failed { IsErrOf result Failed ↔ (fails_now (calls_of (shelf_in self.old)) ≡ true) }
        ensures counted { IsCounted (calls_of (shelf_in self.old)) (calls_of (shelf_in self.new)) }
        ensures bent { bent_of self.new ≡ record (bent_of self.old) { gets = counted self.old.gets } }
    {
        let number = self.gets;
        self.gets = number.saturating_add(1);
        match self.inner.get(alloc, name, most) {
            Ok(Some(bytes)) if number == self.bent => Ok(bend_bytes(bytes, self.bend)),
            other => other,
        }
    }

    fn discard(&mut self, alloc: Global, name: &ShelfName) -> Result<(), ShelfRefused>
        ensures cause { IsCaused (calls_of (shelf_in self.old)).failed (calls_of (shelf_in self.new)).failed result }
        ensures set { OnOk result (IsSet name.now None (held_in self.old) (held_in self.new)) }
        ensures same { OnErr result (IsSame (held_in self.old) (held_in self.new)) }
        ensures failed { IsErrOf result Failed ↔ (fails_now (calls_of (shelf_in self.old)) ≡ true) }
        ensures counted { IsCounted (calls_of (shelf_in self.old)) (calls_of (shelf_in self.new)) }
        ensures bent { bent_of self.new ≡ bent_of self.old }
    {
        self.inner.discard(alloc, name)
    }
}
