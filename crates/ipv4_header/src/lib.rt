//! The header of an IPv4 packet: reading it by RFC 791's rules, writing it, and its checksum (RFC 791
//! and RFC 1071).
//!
//! Its central contract is that of `read`: a packet is refused exactly with the first rule that its
//! header breaks, and otherwise each field is what stands at its place. What `write` gives, `read`
//! accepts as that header. Read `fields` first, then `sums`, `reading` and `writing`.
#![tactic(auto)]

mod fields;
mod reading;
mod sums;
mod writing;

pub use fields::{Header, HeaderRefused};
pub use reading::read;
pub use sums::checksum;
pub use writing::write;
