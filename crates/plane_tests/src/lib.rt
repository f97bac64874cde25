//! Tests of what `page_gate` hands out, in one thread and in several. They stand in a crate of their own, so that it is
//! proved once and not once more with its tests.
#![tactic(auto)]

#[cfg(test)]
mod tests;
