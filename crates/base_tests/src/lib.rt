//! Tests of what the lowest crates hand out, from sources and sinks to headers, signatures, pages and their catalogue.
//! They stand in a crate of their own, so that those are proved once and not once more with them, and in one, since each
//! crate of tests costs some time by itself.
#![tactic(auto)]

#[cfg(test)]
mod tests;
