//! The trace that `make` writes: a network of twelve routers, and packets that cross it on routes which a generator draws.
//!
//! `make_trace` is its one call. Its contract gives the bytes: the lines of `specs/Made`, each spelled as `specs/Lines`
//! says. What `specs/Made` says of packet number i is said of three words of SplitMix64. `laws` says that the text is a
//! trace, and that its records stand apart from rotations and watches. Read `specs/Draws`, `specs/Made`, then `made`.
#![tactic(auto)]

mod body;
mod draws;
pub mod laws;
mod lines;
mod made;
mod packets;

pub use made::{MOST_MADE, make_trace};
