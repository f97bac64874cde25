//! Tests of what `gate_core` and `play_script` hand out. They stand in a crate of their own, so that those two are proved
//! once and not once more with their tests.
#![tactic(auto)]

#[cfg(test)]
mod tests;
