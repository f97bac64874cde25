// A new plane.
ghost use Rattle.std.specs.Prelude.{◌≡◌, IfOk, []};
ghost use Rattle.gate_core.specs.Views.{first_keeper};
ghost use Rattle.spie_base.specs.Shapes.{IsShape};

use crate::keeper::Keeper;
use crate::plane::Plane;
use crate::words::Words;
use atomic_table::{Seat, Table};
use gate_core::view::{Slot, View};
use gate_core::{SlotPhase, first_words};
use spie_base::{NoMemory, PageShape};
use std::alloc::Global;
use std::sync::Mutex;

fn first_keeper(seat: Seat<(), View>) -> Keeper
    requires { seat.me ≡ (first_keeper, []) }
    ensures { result ≡ record { table = seat.table_id; view = first_keeper } }
{
    let free = Slot {
        phase: SlotPhase::Free,
        page: 0,
        used: false,
    };
    let open = Slot {
        phase: SlotPhase::Open,
        page: 0,
        used: true,
    };
    Keeper {
        seat,
        slots: [open, free, free, free],
        out: 0,
        hashes: [None, None, None, None],
    }
}

impl Plane {
    /// A new plane and its keeper. Page 0 is open, and three slots are free. Takes memory for 5 + 4·2^(n-6) words,
    /// once: a record takes none.
    pub fn open(alloc: Global, shape: PageShape) -> Result<(Plane, Keeper), NoMemory>
        requires { IsShape shape }
        ensures { IfOk result (λ r. (r.0.shape ≡ shape) × (r.1 ≡ record { table = r.0.table; view = first_keeper })) }
    {
        let words = first_words(alloc, &shape)?;
        let (table, seat) = Table::of_words(alloc, &words, &shape)?;
        let words = Words { table, shape };
        let lock = Mutex::new(());
        Ok((Plane { words, lock }, first_keeper(seat)))
    }
}
