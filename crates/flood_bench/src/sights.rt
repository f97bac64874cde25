// What the routers show.
ghost use Rattle.std.specs.Prelude.{◌≡◌, true, false, IfOk};
ghost use Rattle.std.specs.List.Sorted.{IsStrictlySortedBy};
ghost use Rattle.std.proofs.lemmas.Map.Keys.{IsStrictlySortedBy-prop};
ghost use Rattle.spie_base.specs.Order.{sig_cmp};
ghost use Rattle.flood_bench.specs.Sights.{begins, origins_by};

use spie_base::{List, NoMemory, Sig, Sighting, ascending};
use std::alloc::Global;

/// A router that is hit for each signature: for the first of its table a packet may have had any of them before.
#[derive(Drop)]
pub struct Recorder {
    table: List<Sig>,
    ghost ordered: { IsStrictlySortedBy sig_cmp table } by { IsStrictlySortedBy-prop sig_cmp table },
}

/// The signature with a number.
pub fn signature(number: u32) -> Sig {
    let low = number.to_be_bytes();
    let mut bytes = [7; 28];
    bytes[24] = low[0];
    bytes[25] = low[1];
    bytes[26] = low[2];
    bytes[27] = low[3];
    Sig { bytes }
}

/// Whether a table begins with a signature.
fn begins_with(table: &[Sig], sig: &Sig) -> bool
    ensures { result ≡ begins table.now sig.now }
{
    match table {
        [first, ..] => first == sig,
        [] => false,
    }
}

impl Sighting for Recorder {
    ghost shown = { λ s. record { hit = λ _. true; origins = origins_by s.table; missing = false } };

    fn hit(&self, _sig: &Sig) -> bool {
        true
    }

    fn origins(&self, alloc: Global, sig: &Sig) -> Result<Vec<Sig>, NoMemory> {
        if begins_with(self.table.items(), sig) {
            return Ok(Vec::from_slice(alloc, self.table.items())?);
        }
        let mut found = Vec::new(alloc);
        found.push(*sig)?;
        Ok(found)
    }

    fn has_missing(&self) -> bool {
        false
    }
}

fn table_of(alloc: Global, count: u32) -> Result<List<Sig>, NoMemory>
    ensures { IfOk result (λ table. IsStrictlySortedBy sig_cmp table) }
{
    let mut table = Vec::new(alloc);
    for number in 0..count {
        table.push(signature(number))?;
    }
    Ok(ascending(table))
}

/// The sights of all routers: the first of them changes the first of so many signatures, and the others none.
pub fn sights_of(alloc: Global, signatures: u32) -> Result<Vec<Recorder>, NoMemory> {
    let mut sights = Vec::new(alloc);
    for number in 0..64u32 {
        let table = table_of(alloc, if number == 0 { signatures } else { 0 })?;
        sights.push(Recorder { table })?;
    }
    Ok(sights)
}
