//! A test of what `data_agent` does while passes are out. It stands in a crate of its own, so that it is proved once and not
//! once more with the agent.
#![tactic(auto)]

#[cfg(test)]
mod tests;
