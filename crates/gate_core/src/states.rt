// Where actors and slots are.
use spie_base::{PageNo, Sig};

/// Where an actor is in the middle of a record.
#[derive(Clone, Copy, PartialEq, Eq, Debug)]
pub enum PassState {
    Idle,
    /// It has read which slot is current.
    Looked {
        slot: u8,
    },
    /// It entered an unsealed gate, is in that page, and has set so many marks.
    Inside {
        slot: u8,
        page: PageNo,
        sig: Sig,
        set: u8,
    },
    /// It came to a sealed gate, and has yet to leave.
    Visiting {
        slot: u8,
        gate: u64,
    },
}

/// Where a slot is in its life.
#[derive(Clone, Copy, PartialEq, Eq, Debug)]
pub enum SlotPhase {
    /// It has no page, and its words are 0.
    Free,
    /// Records enter its page.
    Open,
    /// No record enters any more; some may still be inside.
    Sealed,
    /// No record is inside, and the words before `next` are collected. Visitors may come and go.
    Quiet { next: u32 },
}

/// What an act that is not enabled answers: for a step of a record the actor's state, for the keeper's acts
/// the phases of the four slots.
#[derive(Clone, Copy, PartialEq, Eq, Debug)]
pub enum ActorState {
    Pass(PassState),
    Keeper([SlotPhase; 4]),
}
