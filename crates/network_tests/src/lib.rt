//! Tests of what `topology`, `reverse_flood` and the crates of regions hand out. They stand in a crate of their own, so that those crates
//! are proved once and not once more with their tests.
#![tactic(auto)]

#[cfg(test)]
mod tests;
