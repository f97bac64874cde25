//! Tests of what `index_rings`, `indirect_store` and `transform_table` hand out. They stand in a crate of their own, so
//! that these three are proved once and not once more with their tests.
#![tactic(auto)]

#[cfg(test)]
mod tests;
