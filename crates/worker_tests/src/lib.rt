//! Tests of what `trace_workers` hands out: whose turn each record line is, and records of two workers alone and beside
//! an operator. They stand in a crate of their own, so that it is proved once and not once more with its tests.
#![tactic(auto)]

#[cfg(test)]
mod tests;
