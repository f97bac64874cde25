//! Chains by index: values that stand elsewhere under indices, as in a slab, are linked into numbered chains.
//!
//! `Chains` has a next and a previous place for each index. A chain is a ring of places with its first one, so that a
//! link has no end; a place in no chain is a ring of its own. Contracts speak of lists alone: `Holds chains label order`
//! says that the places of `order` stand in the chains that `label` names, in the list's order, and no other place
//! does. `append` adds a place to the list, `take_out` takes one out, `places` walks one chain. Read `specs/Orders`
//! first, then `chains`; `specs/Rings` says how chains are kept.
#![tactic(auto)]

mod chains;
mod link;
mod links;
mod places;
mod rings;

pub use chains::Chains;
pub use places::Places;
