//! Tests of `evidence_text`: certificates that are read and written again, byte for byte, and texts with the line and the
//! rule of their first fault. Each was worked out by hand from the form of the lines. They stand in a crate of their own,
//! so that `evidence_text` isn't proved once more with them.
#![tactic(auto)]

#[cfg(test)]
mod tests;
