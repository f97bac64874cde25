use gate_core::Step;
use spie_base::{List, PageShape};

/// The greatest number of bits of a position in a script. The least is `N_LEAST`.
pub const CORE_N_MOST: u8 = 16;

/// All that a script says.
#[derive(Debug, Drop)]
pub struct PlayScript {
    /// Of the router with number 0. Its n is at most `CORE_N_MOST`.
    pub shape: PageShape,
    /// How many passes there are, 1 to `MOST_PASSES`.
    pub passes: u32,
    /// What is done, in order.
    pub steps: List<Step>,
}
