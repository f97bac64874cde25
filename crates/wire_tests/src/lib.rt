//! Tests of what `wire_message` hands out: messages whose bytes were worked out by hand from the format.
#![tactic(auto)]

#[cfg(test)]
mod tests;
