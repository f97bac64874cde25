// Passes are dealt and gathered, one at a time.
ghost use Rattle.std.specs.Prelude.{◌≡◌, ◌<◌};
ghost use Rattle.gate_core.specs.Acts.{dealer_view};
ghost use Rattle.page_gate.specs.Held.{dealt_held, gathered_held, WasAlone};
ghost use Rattle.gate_core.specs.Invariant.{IsWhole, Met};
ghost use Rattle.page_gate.specs.Steps.{IsMet};
ghost use Rattle.page_gate.specs.Tried.{StaysWith};
ghost use Rattle.gate_core.specs.declared.limits.TheConstants.{MOST_PASSES};

use crate::keeper::Keeper;
use crate::pass::Pass;
use crate::plane::Plane;
use crate::told::{Attests, Deals, Gathers, Told};
use crate::words::Words;
use atomic_table::Seat;
use gate_core::view::View;
use std::marker::Brand;

impl Words {
    fn attest_as<W: Told>(&self, seat: &mut Seat<(), View>, word: usize) -> u64
        requires told { W.shape ≡ self.now.table.shared.key }
        requires plane { seat.old.table_id ≡ self.now.table.shared.table_id }
        requires word { word < self.now.table.shared.table_id.words }
        ensures same { StaysWith seat.old seat.new seat.old.me.0 }
        ensures met { Met W.shape seat.new.me.0 word result }
    {
        self.table.shared.load::<Attests<W>>(seat, word)
    }

    // Loads a word. Nothing changes.
    pub(crate) fn attest(&self, seat: &mut Seat<(), View>, word: usize) -> u64
        requires plane { seat.old.table_id ≡ self.now.table.shared.table_id }
        requires word { word < self.now.table.shared.table_id.words }
        ensures same { StaysWith seat.old seat.new seat.old.me.0 }
        ensures met { Met self.now.shape seat.new.me.0 word result }
    {
        self.attest_as::<Brand>(seat, word)
    }
}

impl Plane {
    pub(crate) fn deal_one(&self, keeper: &mut Keeper) -> Pass
        requires plane { keeper.old.table ≡ self.now.table }
        requires room { keeper.old.view.duties.out < MOST_PASSES }
        ensures keeper { keeper.new ≡ record { table = keeper.old.table; view = dealer_view keeper.old.view } }
        ensures pass { result ≡ dealt_held keeper.old }
    {
        let seat = self
            .words
            .table
            .shared
            .split_seat::<Deals>(&mut keeper.seat);
        keeper.out += 1;
        Pass {
            seat,
            last: None,
            hashes: None,
        }
    }

    pub(crate) fn gather_one(&self, keeper: &mut Keeper, pass: Pass)
        requires plane { keeper.old.table ≡ self.now.table }
        requires pass { pass.table ≡ self.now.table }
        requires out { 0 < keeper.old.view.duties.out }
        ensures { keeper.new ≡ gathered_held keeper.old pass.entries }
    {
        let Pass {
            seat,
            last: _,
            hashes: _,
        } = pass;
        self.words
            .table
            .shared
            .join_seat::<Gathers>(&mut keeper.seat, seat);
        keeper.out -= 1;
    }

    // Where no pass is out, the keeper has all entries.
    pub(crate) fn attest(&self, keeper: &mut Keeper)
        requires plane { keeper.old.table ≡ self.now.table }
        requires alone { keeper.old.view.duties.out ≡ 0 }
        ensures same { keeper.new ≡ keeper.old }
        ensures whole { IsWhole self.now.shape keeper.new.view }
        ensures alone { WasAlone self.now.shape keeper.new.view }
        ensures met { IsMet self.now.shape keeper.new.view }
    {
        self.words.attest(&mut keeper.seat, 0);
    }
}
