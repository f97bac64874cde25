//! Where the marks of a signature stand in a page: the family of hash functions that a page draws from its seed.
//!
//! The central contract is that of `Family::positions`: the marks are the numbers of the formula in
//! `specs/Positions.antt`, which sums a signature's words with coefficients that SplitMix64 gives. `position`
//! and `marks_of` there are the words in which everything above speaks of marks, and
//! `proofs/PositionFacts.antt` says that a position of n bits is below 2^n.
//! Read `specs/SplitMix.antt`, `specs/Positions.antt`, `seeds` and then `family`.
#![tactic(auto)]

mod family;
mod seeds;

pub use family::Family;
pub use seeds::page_seed;
