// What a signature may have been before a router.
ghost use Rattle.std.specs.Prelude.{◌≡◌, [], ◌∷◌, ◌++◌, IfOk, OnOk};
ghost use Rattle.spie_base.specs.Ascending.{in_order};
ghost use Rattle.spie_base.specs.Order.{sig_cmp};
ghost use Rattle.packet_signature.specs.Row.{key_of, inverse_of};
ghost use Rattle.used_pages.specs.UsedPages.{rows_undone};

use crate::KeyedRows;
use packet_signature::{Row, inverse, key};
use spie_base::{NoMemory, Sig, ascending};
use std::alloc::Global;
use std::marker::Model;

/// The signatures that one may have been before a router, while they are gathered from rows.
#[derive(Drop)]
pub struct Origins {
    sig: Sig,
    key: u64,
    olds: Vec<Sig>,
}

impl Model for Origins {
    ghost use Rattle.std.specs.Prelude.{◌≡◌};
    ghost use Rattle.packet_signature.specs.Row.{key_of};
    ghost use Rattle.used_pages.specs.Gathered.{Gathered};

    ghost Value = { Gathered };

    ghost view = { λ origins. record { sig = origins.sig; olds = origins.olds.items } };

    ghost invariant = { λ origins. origins.key ≡ key_of origins.sig };
}

impl Origins {
    /// A signature alone. Costs a `key`.
    pub fn of(alloc: Global, sig: &Sig) -> Result<Origins, NoMemory>
        ensures sig { IfOk result (λ origins. origins.sig ≡ sig.now) }
        ensures itself { IfOk result (λ origins. origins.olds ≡ sig.now ∷ []) }
    {
        Ok(Origins {
            sig: *sig,
            key: key(sig),
            olds: vec![in alloc; *sig]?,
        })
    }

    /// The key of the rows that tell what the signature was before.
    pub fn key(&self) -> u64
        ensures { result ≡ key_of self.now.sig }
    {
        self.key
    }

    /// Adds what a row with the signature's key says.
    pub fn add(&mut self, row: &Row) -> Result<(), NoMemory>
        ensures sig { self.new.sig ≡ self.old.sig }
        ensures more { OnOk result (self.new.olds ≡ self.old.olds ++ inverse_of row.now self.old.sig ∷ []) }
    {
        self.olds.push(inverse(row, &self.sig))?;
        Ok(())
    }

    /// Adds what those of some rows say that have the signature's key.
    pub fn add_rows(&mut self, rows: &KeyedRows) -> Result<(), NoMemory>
        ensures sig { self.new.sig ≡ self.old.sig }
        ensures more { OnOk result (self.new.olds ≡ self.old.olds ++ rows_undone self.old.sig rows.now) }
    {
        for row in rows.with_key(self.key) {
            self.add(row)?;
        }
        Ok(())
    }

    /// All of them in ascending order, each once. Costs a sort.
    pub fn into_ascending(self) -> Vec<Sig>
        ensures { result.items ≡ in_order sig_cmp self.olds }
    {
        ascending(self.olds).into_vec()
    }
}
