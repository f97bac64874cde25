//! One page in memory: a set of positions below 2^n, kept as bits of 64-bit words.
//!
//! The central contracts are those of `Page`, which clauses see as a `PageSet`: n and the ascending list of the
//! members, so that equal sets are equal values. `insert` is the union, `has` is inclusion, `fill` is the size.
//! Position p is bit p mod 64 of word p/64. The lemmas that tie bits of words to the set are stated over plain
//! lists of words, for whoever keeps words of its own: `proofs/BitFacts.antt` (setting bits), `proofs/Counting.antt`
//! (set bits are members) and `proofs/WordFacts.antt` (words to a set and back).
//! Read `specs/Bits.antt`, `specs/Sets.antt` and then `page`.
#![tactic(auto)]

mod page;
mod words;

pub use page::Page;
pub use words::ones_in;
