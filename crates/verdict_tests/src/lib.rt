//! Tests of `evidence_check`: certificates with the verdict that each is worth. Each was worked out by hand: where a page has
//! all its bits set, each signature is a hit there, and none where no bit is set. They stand in a crate of their own, so that
//! `evidence_check` isn't proved once more with them.
#![tactic(auto)]

#[cfg(test)]
mod tests;
