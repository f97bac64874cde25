// Who acts, and how.
ghost use Rattle.std.specs.Prelude.{◌≡◌};
ghost use Rattle.gate_core.specs.Core.{may_do};

use crate::ActorState;
use spie_base::{PageNo, Sig};

/// Who acts on a router's words: one of the passes, by its number from 0, or the keeper.
#[derive(Clone, Copy, PartialEq, Eq, Debug)]
pub enum Actor {
    Pass(u32),
    Keeper,
}

/// One atomic operation on one word. The first four are the steps of a record, and each actor may do
/// them; the other six are the keeper's.
#[derive(Clone, Copy, PartialEq, Eq, Debug)]
pub enum Act {
    /// Loads the current slot.
    Look,
    /// Adds one to the gate of the slot that was looked up, to record this signature.
    Enter(Sig),
    /// Sets the record's next mark in the slot.
    Set,
    /// Takes one from the gate. The record is finished, or the visit over.
    Leave,
    /// Seals the gate of the open slot.
    Seal,
    /// Loads the gate of a sealed slot, 0 to 3, to learn whether nobody is inside.
    Settle(u8),
    /// Takes the next word of a quiet slot, and leaves 0 there.
    Drain(u8),
    /// Opens the next page in a free slot.
    Open(u8),
    /// Makes the open slot the current one.
    Point,
    /// Loads the bit word of a slot, 0 to 3, with this position, below 2^n.
    Probe(u8, u32),
}

impl Actor {
    /// Whether this actor may do the act: the last six are the keeper's alone.
    pub fn may_do(self, act: Act) -> bool
        ensures { result ≡ may_do self act }
    {
        match self {
            Actor::Keeper => true,
            Actor::Pass(_) => matches!(act, Act::Look | Act::Enter(_) | Act::Set | Act::Leave),
        }
    }
}

/// An act and who does it.
#[derive(Clone, Copy, PartialEq, Eq, Debug)]
pub struct Step {
    pub actor: Actor,
    pub act: Act,
}

/// What a step answers.
#[derive(Clone, Copy, PartialEq, Eq, Debug)]
pub enum StepAnswer {
    /// The slot that was looked up.
    Slot(u8),
    /// The record is inside this page.
    Entered(PageNo),
    /// The gate was sealed; this is the word that was read.
    Visiting { gate: u64 },
    Set,
    Left,
    /// The page that is closed now.
    Sealed(PageNo),
    /// So many were inside the gate, visitors counted.
    Pending { inside: u16 },
    /// Nobody was inside the gate. No record can be inside the page any more; visitors may come.
    Quiet,
    Drained,
    /// The last word of the page was taken, and its slot is free.
    Collected(PageNo),
    Opened(PageNo),
    Pointed(u8),
    /// Whether the bit was set.
    Bit(bool),
    /// The act is not enabled, and nothing was done.
    NotEnabled(ActorState),
}
