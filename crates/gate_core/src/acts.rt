// The ten acts, a module each, and a step, which is one of them. In each act the first function judges whether it is enabled.
ghost use Rattle.std.specs.Prelude.{◌≡◌, ◌≤◌, ◌<◌, length};
ghost use Rattle.gate_core.specs.Core.{place_of, CanStep};
ghost use Rattle.gate_core.specs.Kept.{core_of, views_of, Holds, DoesAct};

use crate::core_data::CoreData;
use crate::{Act, Actor, Step, StepAnswer};

mod drain;
mod enter;
mod leave;
mod look;
mod open;
mod parts;
mod point;
mod probe;
mod seal;
mod set;
mod settle;

pub use parts::{family_of, open_slot};

impl CoreData {
    // The seat of an actor: the keeper has the first.
    fn place_of(&self, actor: Actor) -> usize
        requires { place_of actor < length (views_of self.now) }
        ensures place { result ≡ place_of actor }
        ensures seat { result < length self.now.seats.items }
    {
        match actor {
            Actor::Keeper => 0,
            Actor::Pass(number) => number as usize + 1,
        }
    }

    /// Does one act, if it is enabled.
    pub(crate) fn act(&mut self, step: &Step) -> StepAnswer
        requires holds { Holds self.old }
        requires room { 1 ≤ self.old.room }
        requires able { CanStep (core_of self.old) step.now }
        ensures { DoesAct self.old self.new (place_of step.now.actor) step.now.act result }
    {
        let place = self.place_of(step.actor);
        match step.act {
            Act::Look => self.look(place),
            Act::Enter(sig) => self.enter(place, &sig),
            Act::Set => self.set(place),
            Act::Leave => self.leave(place),
            Act::Seal => self.seal(),
            Act::Settle(slot) => self.settle(slot),
            Act::Drain(slot) => self.drain(slot),
            Act::Open(slot) => self.open(slot),
            Act::Point => self.point(),
            Act::Probe(slot, at) => self.probe(slot, at),
        }
    }
}
