//! The manager of a traceback: it asks regions for the floods within them, one after another or all at once.
//!
//! # Rounds
//!
//! `trace` asks in rounds. In the first it asks the region of the pair that is traced; in each later one every region into
//! which a step led, for the new pairs there alone, until no new pair comes. A region follows its leads among its own
//! routers and hands out the pairs of other regions, each once for the whole search: they are the leads of the next round.
//!
//! # What rounds cost
//!
//! All regions mark pairs in one search, which each is lent while it is asked. So a pair is asked once however many regions
//! lead to it, all rounds together ask what one flood over all routers asks, and the graph is told once, at the end, as
//! `flood` tells it. The contract says which graph is told, and not how often a pair is asked. Beside that a lead of a
//! round is looked at once for each region, to find its own.
//!
//! # All regions at once
//!
//! `trace_joined` asks the regions of a round at once, each in a thread of its own. Naming a pair writes to a search, so
//! each region keeps a search of its own through all rounds, in which it also names the pairs of other regions to which it
//! leads. What the regions hand out is the next round, in the order of the regions: in which order threads end changes
//! nothing. At the end what each knows of its own pairs goes into one search, and the graph is told from that.
//!
//! # Why the graph is that of the flood
//!
//! The order in which leads are followed changes nothing of a search (`IsUnderWay`), and a net has one flood from a pair:
//! so `trace` and `trace_joined` have the contract of `reverse_flood::flood`, and all three give the same graph. Read
//! `specs/Rounds`, `traces` and `rounds`; then `specs/Beside`, `joined` and `beside`.
#![tactic(auto)]

mod beside;
mod joined;
mod rounds;
mod traces;

pub use joined::trace_joined;
pub use traces::trace;
