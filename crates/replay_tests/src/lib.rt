//! Tests of what `trace_replay` hands out. They stand in a crate of their own, so that it is proved once and not once
//! more with its tests.
#![tactic(auto)]

#[cfg(test)]
mod tests;
