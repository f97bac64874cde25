//! A manager and its agents over a link that loses, repeats and reorders messages.
//!
//! The manager makes numbered requests, each to one region with pairs that lie there. An agent answers a request with
//! its part, and the manager accepts one part for a request. What leads out of an accepted part and was not asked yet
//! becomes a new request. The central contract is the law of `laws`: whatever the link does, once a part was accepted
//! for each request the union of the parts is the flood. Read `specs/Requests`, `specs/Union`, then `laws`.
#![tactic(auto)]

mod agents;
mod following;
mod graphs;
mod known;
mod laws;
mod manager;
mod plain;
mod requests;
mod runs;
mod searching;
mod wire;

pub use agents::{Agent, NoAnswer};
pub use laws::{accepting_is_sound, any_history_is_trusted, first_is_sound, union_is_flood};
pub use manager::{Manager, NotYet, Taken};
pub use requests::Asked;
pub use runs::{TURNS_MOST, WireRun, wire_run};
pub use wire::{Event, WireAnswer, WireState, wire_step};
