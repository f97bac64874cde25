// Who records.
ghost use Rattle.std.specs.Prelude.{◌≡◌};
ghost use Rattle.page_gate.specs.Lasts.{last_of};
ghost use Rattle.gate_core.specs.Invariant.{IsRising};

use crate::hashes::PageHashes;
use atomic_table::Seat;
use gate_core::view::View;
use spie_base::Entry;
use std::marker::Model;

/// A thread's right to record. Between calls it is in no slot.
#[derive(Drop)]
pub struct Pass {
    pub(crate) seat: Seat<(), View>,
    pub(crate) last: Option<Entry>,
    // Of the page in which it recorded last.
    pub(crate) hashes: Option<PageHashes>,
}

impl Model for Pass {
    ghost use Rattle.std.specs.Prelude.{◌≡◌, []};
    ghost use Rattle.page_gate.specs.Lasts.{last_of};
    ghost use Rattle.gate_core.specs.Invariant.{IsRising};
    ghost use Rattle.gate_core.specs.declared.view.Role.TheVariants.{Pass as passing};
    ghost use Rattle.gate_core.specs.declared.states.PassState.TheVariants.{Idle};
    ghost use Rattle.page_gate.specs.Held.{PassHeld};

    ghost Value = { PassHeld };

    ghost view = { λ p. record {
      table = p.seat.table_id;
      floor = p.seat.me.0.floor;
      entries = p.seat.me.0.entries;
      visits = p.seat.me.0.visits;
    } };

    ghost invariant = { λ p. (p.last ≡ last_of p.seat.me.0.entries)
        × (p.seat.me.0.state ≡ Idle) × (p.seat.me.0.role ≡ passing) × (p.seat.me.1 ≡ [])
        × IsRising p.seat.me.0.floor p.seat.me.0.entries };
}

impl Pass {
    /// The last entry of the pass.
    pub fn last(&self) -> Option<Entry>
        ensures { result ≡ last_of self.now.entries }
    {
        self.last
    }

    /// Its pages never fall, and none is below its floor.
    pub fn rises(&self)
        ensures { IsRising self.now.floor self.now.entries }
    {
        let _ = &self.seat;
    }
}
