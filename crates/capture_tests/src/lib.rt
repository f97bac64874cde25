//! Tests of what `pcap_intake` makes of captures, whose bytes and lines were worked out by hand from the format.
#![tactic(auto)]

#[cfg(test)]
mod tests;
