// How many there may be.

/// A router's slots. They are numbered from 0.
pub const SLOTS: u8 = 4;

/// What stands for a slot where there is none.
pub const NO_SLOT: u8 = SLOTS;

/// The most passes that are out at a time.
pub const MOST_PASSES: u32 = 16;
