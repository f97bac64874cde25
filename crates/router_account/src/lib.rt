//! What is known of one router, and what its agent stands for.
//!
//! There is nearly no code here. The definitions stand in `specs/`, to be read in this order: `Account` (entries, rows
//! and closings of one router, what its pages hold, hits and origins), `Ledger` (an account, and what barriers and
//! archivals made of its pages), `Barriers` (which pages an archival covers, a tick closes and a barrier may leave),
//! `Watches` and `Sights` (what is answered to watches and queries), `Records` (what a shelf holds of pages, and what was
//! read back). An agent, the histories of a trace and a
//! certificate cite one and the same definition, so that what an agent promises is what a report says.
#![tactic(auto)]

mod words;

pub use words::{Cause, Unreadable, Watch};
