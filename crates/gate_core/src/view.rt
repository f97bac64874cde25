// What an actor knows of the words. Contracts speak of `View` and `Duties`; the machine keeps the same in seats,
// logs and a desk (`core_data`), and makes no value of these two.
use crate::{PassState, SlotPhase};
use spie_base::{Entry, List};

/// An entry into a sealed gate: the slot, and the gate word that was read.
#[derive(Clone, Copy, PartialEq, Eq, Debug)]
pub struct Visit {
    pub slot: u8,
    pub gate: u64,
}

/// A look at one bit: the page and the position, the bit read, and how many entries the keeper then had.
#[derive(Clone, Copy, PartialEq, Eq, Debug)]
pub struct Probed {
    pub page: u32,
    pub at: u32,
    pub bit: bool,
    pub known: u64,
}

/// One of the four slots, as the keeper knows it.
#[derive(Clone, Copy, PartialEq, Eq, Debug)]
pub struct Slot {
    pub phase: SlotPhase,
    /// The last page that was opened in it, or 0.
    pub page: u32,
    /// Whether a page was ever opened in it.
    pub used: bool,
}

/// What an actor is.
#[derive(Clone, Copy, PartialEq, Eq, Debug)]
pub enum Role {
    /// Its entries were gathered; nothing is left of it.
    Spent,
    Pass,
    Keeper,
}

/// What the keeper alone knows.
#[derive(Drop)]
pub struct Duties {
    pub slots: List<Slot>,
    /// The next page to be opened.
    pub next: u32,
    /// The slot at which the keeper last pointed.
    pub pointed: u8,
    /// The collected words of each page below `next`.
    pub collected: List<List<u64>>,
    pub probes: List<Probed>,
    /// The gate that the last settle read, and how many passes were then out, one more where the keeper had
    /// begun a record.
    pub noted: u64,
    pub noted_with: u32,
    /// How many passes were ever dealt, and how many are out.
    pub dealt: u32,
    pub out: u32,
}

/// What an actor knows.
#[derive(Drop)]
pub struct View {
    pub role: Role,
    /// A pass's number.
    pub number: u32,
    pub state: PassState,
    /// The records that it finished, in order.
    pub entries: List<Entry>,
    pub visits: List<Visit>,
    /// The page of the slot at which the keeper pointed when the pass was dealt, 0 for the keeper.
    pub floor: u32,
    /// Of the keeper alone.
    pub duties: Duties,
}
