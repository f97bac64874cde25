//! Old signatures, each kept once however many rows need it.
//!
//! Its central contracts are those of `Store`, which clauses see as what it holds under each id: a signature and how
//! many uses it has, or nothing. `put` adds a use of a signature and gives its id, which stays the same as long as the
//! signature is held; `release` takes a use away, and the last one gives the signature up. Signatures stand in a slab
//! and, by the key of each, in one of 1,024 chains, so that `put` compares those of one chain. Read `specs/Held`
//! first, then `store`; `specs/Stores` says how a store is kept.
#![tactic(auto)]

mod buckets;
mod filing;
mod held;
mod store;

pub use held::Held;
pub use store::Store;
