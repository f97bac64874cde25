//! What is kept of a packet: its signature, and the row of a transform that a router made of it.
//!
//! Its central contract is that of `signature`: 28 bytes of one endless list, the packet and zeros behind
//! it, refused exactly where `ipv4_header::read` refuses. `inverse` finds the old signature again from
//! the row of a transform and the new one. Read `signatures` first, then `rows` and
//! `transforms`.
#![tactic(auto)]

mod laws;
mod rows;
mod signatures;
mod transforms;

pub use laws::inverse_gives_old;
pub use rows::{Kind, Row, RowData};
pub use signatures::signature;
pub use transforms::{direct, inverse, key, row};
