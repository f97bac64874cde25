//! Certificates of an answer, judged line by line: whether the lists of the answer are those of the reverse flood over the
//! pages, rows and links that the certificate states, and else which line is the first that fails.
//!
//! Its central contract is that of `judge`: yes exactly where the answer is that flood, and otherwise the number of the first
//! line that doesn't hold. `laws` has what that rests on: all lines hold exactly where the lists are the flood's, whoever
//! floods the same pages finds the same lists, and a certificate has one verdict. Read `specs/Evidence` for what pages show,
//! `specs/Judging` for when a line holds, `specs/Answer` for what a yes says, and then `judging`.
//!
//! # No search
//!
//! A line is judged by the lines before it and by the pages: a node by the earlier node that it names, an edge by its two
//! ends and a step, a pair that is no hit by whether it was asked, and the end by a walk over the steps from the nodes.
//!
//! # Hostile certificates
//!
//! Pages are taken in the order of their lines and never by their numbers. Rows are found by their keys, by a binary search.
//! What is known of pairs is kept in one row for each signature, with a byte for each router that there can be; and the steps
//! from a node are walked one signature at a time and never listed as a whole. So memory is as the bytes of the text.
#![tactic(auto)]

mod edges;
mod ends;
mod failing;
mod judging;
mod last;
pub mod laws;
mod left;
mod lines;
mod near;
mod nodes;
mod pairs;
mod sights;
mod steps;
mod verdicts;
mod walk;
mod ways;

pub use judging::judge;
pub use verdicts::Verdict;
