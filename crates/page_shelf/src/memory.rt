// A shelf in memory, some of whose calls fail.
ghost use Rattle.std.specs.Prelude.{◌≡◌, ◌≤◌, ◌+◌, ◌↔◌, None, Some, true, false, take, IfOk, IfSome, OnOk, OnErr, IsErrOf, vec_len, if◌then◌else◌};
ghost use Rattle.spie_base.specs.Memory.{counted, is_listed};
ghost use Rattle.page_shelf.specs.declared.names.ShelfName.{ShelfName};
ghost use Rattle.page_shelf.specs.declared.names.ShelfRefused.TheVariants.{Failed};
ghost use Rattle.page_shelf.specs.Memory.{IsCounted, calls_of, fails_now, held_by, key_of};
ghost use Rattle.page_shelf.specs.Shelves.{Finds, IsCaused, IsSame, IsSet};

use crate::{Shelf, ShelfName, ShelfPart, ShelfRefused};
use spie_base::NoMemory;
use std::alloc::{AllocError, Global};
use std::collections::BTreeMap;

/// Records in memory. A call costs a look-up among the names, and the bytes that it copies.
#[derive(Drop)]
pub struct MemShelf {
    kept: BTreeMap<(u32, u32, u8), Vec<u8>>,
    failing: Vec<u64>,
    calls: u64,
    faults: u64,
}

// The router, the page, and the place of the part.
fn key_of(name: &ShelfName) -> (u32, u32, u8)
    ensures { result ≡ key_of name.now }
{
    let part = match name.part {
        ShelfPart::Bits => 0,
        ShelfPart::Rows => 1,
    };
    (name.router.number, name.page.number, part)
}

// One byte more than asked for, or all where there are fewer.
fn front_of(alloc: Global, bytes: &[u8], most: usize) -> Result<Vec<u8>, AllocError>
    ensures { IfOk result (λ v. v.items ≡ take (most + 1) bytes.now) }
{
    let count = bytes.len().min(most.saturating_add(1));
    Vec::from_slice(alloc, &bytes[..count])
}

// Whether a call's number is among those listed.
fn is_listed(listed: &[u64], call: u64) -> bool
    ensures { result ≡ is_listed listed.now call }
{
    listed.iter().any(|other| *other == call)
}

// Counts a call, and fails it where its number is listed.
fn count(failing: &[u64], calls: &mut u64, faults: &mut u64) -> Result<(), ShelfRefused>
    ensures listed { OnErr result (is_listed failing.now calls.old ≡ true) }
    ensures unlisted { OnOk result (is_listed failing.now calls.old ≡ false) }
    ensures calls { calls.new ≡ counted calls.old }
    ensures faults { faults.new ≡ if is_listed failing.now calls.old then counted faults.old else faults.old }
    ensures cause { IsCaused faults.old faults.new result }
    ensures why { OnErr result (IsErrOf result Failed) }
{
    let call = *calls;
    *calls = call.saturating_add(1);
    if is_listed(failing, call) {
        *faults = faults.saturating_add(1);
        return Err(ShelfRefused::Failed);
    }
    Ok(())
}

impl MemShelf {
    /// An empty shelf. Calls are numbered from 0 over puts, gets and discards, and those listed fail.
    pub fn new(alloc: Global, failing: &[u64]) -> Result<MemShelf, NoMemory>
        ensures tells { IfOk result (λ shelf. ⟦<MemShelf as Shelf>⟧.tells shelf ≡ true) }
        ensures empty { IfOk result (λ shelf. (name : ShelfName) → ⟦<MemShelf as Shelf>⟧.contents shelf name ≡ None) }
        ensures faultless { IfOk result (λ shelf. ⟦<MemShelf as Shelf>⟧.faults shelf ≡ 0) }
        ensures calls { IfOk result (λ shelf. calls_of shelf ≡ record { failing = failing.now; made = 0; failed = 0 }) }
    {
        Ok(MemShelf {
            kept: BTreeMap::new(alloc),
            failing: Vec::from_slice(alloc, failing)?,
            calls: 0,
            faults: 0,
        })
    }
}

impl Shelf for MemShelf {
    ghost use Rattle.std.specs.Prelude.{true};
    ghost use Rattle.page_shelf.specs.Memory.{held_by};

    ghost tells = { λ s. true };

    ghost contents = { λ s. held_by s };

    ghost faults = { λ s. s.faults };

    fn put(&mut self, alloc: Global, name: &ShelfName, bytes: &[u8]) -> Result<(), ShelfRefused>
        ensures cause { IsCaused (calls_of self.old).failed (calls_of self.new).failed result }
        ensures set { OnOk result (IsSet name.now (Some bytes.now) (held_by self.old) (held_by self.new)) }
        ensures same { OnErr result (IsSame (held_by self.old) (held_by self.new)) }

        // Which calls fail, and how they are counted.
        ensures failed { IsErrOf result Failed ↔ (fails_now (calls_of self.old) ≡ true) }
        ensures counted { IsCounted (calls_of self.old) (calls_of self.new) }
    {
        count(&self.failing, &mut self.calls, &mut self.faults)?;
        let copy = Vec::from_slice(alloc, bytes)?;
        self.kept.insert(key_of(name), copy)?;
        Ok(())
    }

    fn get(
        &mut self,
        alloc: Global,
        name: &ShelfName,
        most: usize,
    ) -> Result<Option<Vec<u8>>, ShelfRefused>
        ensures cause { IsCaused (calls_of self.old).failed (calls_of self.new).failed result }
        ensures found { IfOk result (λ got. Finds (held_by self.old name.now) most got) }
        ensures bound { IfOk result (λ got. IfSome got (λ v. vec_len v ≤ most + 1)) }
        ensures same { IsSame (held_by self.old) (held_by self.new) }

        // Which calls fail, and how they are counted.
        ensures failed { IsErrOf result Failed ↔ (fails_now (calls_of self.old) ≡ true) }
        ensures counted { IsCounted (calls_of self.old) (calls_of self.new) }
    {
        count(&self.failing, &mut self.calls, &mut self.faults)?;
        match self.kept.get(&key_of(name)) {
            Some(bytes) => Ok(Some(front_of(alloc, bytes, most)?)),
            None => Ok(None),
        }
    }

    fn discard(&mut self, _alloc: Global, name: &ShelfName) -> Result<(), ShelfRefused>
        ensures cause { IsCaused (calls_of self.old).failed (calls_of self.new).failed result }
        ensures set { OnOk result (IsSet name.now None (held_by self.old) (held_by self.new)) }
        ensures same { OnErr result (IsSame (held_by self.old) (held_by self.new)) }

        // Which calls fail, and how they are counted.
        ensures failed { IsErrOf result Failed ↔ (fails_now (calls_of self.old) ≡ true) }
        ensures counted { IsCounted (calls_of self.old) (calls_of self.new) }
    {
        count(&self.failing, &mut self.calls, &mut self.faults)?;
        let _ = self.kept.remove(&key_of(name));
        Ok(())
    }
}
