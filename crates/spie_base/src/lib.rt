//! What every crate of spie stands on: the plain values, the errors and statuses, where bytes come
//! from and go, numbers as text, and what a flood sees of a router.
//!
//! Its central contracts are those of the traits: a source, a sink and a sighting are seen by ghost
//! members alone (bytes, a count of faults, what a router shows), so that everything above is proved
//! once for all of them. Memory tells its bytes, failing calls included; a reader or a writer of std
//! hands through what std tells of it. Read `types`, `errors`, `source` and `sighting` first, then
//! `transfer`, which moves whole inputs and outputs.
#![tactic(auto)]

mod decimals;
mod errors;
mod list;
mod memory;
mod sighting;
mod sorting;
mod source;
mod standard;
mod status;
mod transfer;
mod types;

pub use decimals::decimal;
pub use errors::{NoMemory, ReadFailed, ReadRefused, WriteFailed};
pub use list::List;
pub use memory::{MemSink, MemSource};
pub use sighting::Sighting;
pub use sorting::ascending;
pub use source::{Sink, Source};
pub use standard::{IoSink, IoSource};
pub use status::Status;
pub use transfer::{read_all, write_all};
pub use types::{
    Entry, K_MOST, Marks, N_LEAST, N_MOST, PageNo, PageRange, PageShape, RouterId, Rules, Sig,
};
