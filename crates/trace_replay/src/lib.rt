//! Replays a trace and writes its report.
//!
//! # What is promised
//!
//! The central contract is that of `replay`: the report, the totals, what the shelf came to and what is left in the yard are those
//! of a history of the trace's lines as so many workers may have done them, by the definitions of `trace_history`. `replay_alone`
//! is that with one worker, without threads. `sights_alone` stops at a query, and says what it sees of each router, by such a
//! history. `laws` has what holds of every history.
//!
//! # The yard
//!
//! Each router has a plane, the shared words of its pages, and an agent, which keeps that plane. A replay opens them, and leaves
//! them in the `Yard` that it was lent: by its contract the entries of each agent are what its router recorded, in the order in which
//! workers gathered them. Planes and agents stand in two lists, since workers record in all planes at the same time, while
//! one thread changes the agents. Each step within keeps that each agent works on the plane beside it
//! (`specs/Yards`).
//!
//! # Segment by segment
//!
//! How an archival splits its pages into those that are put and those that are kept is known at the next barrier alone: a
//! tick, a query or the end. So its line waits for the barrier, and each line behind it waits with it. One worker prints
//! every other line as soon as it is done; several keep the answers of a whole segment for its barrier. Until then all is said
//! of every way in which the archivals may split, and at the barrier it is taken for the one that came.
//!
//! One worker does the lines one after another, and each is right as it is done (`lines`). Several do a segment at once
//! (`segment`): its receipts and watches are right as a whole, which `specs/Standing` says of the segment that has not ended, and
//! the barrier hands on to the history. So the barrier is the same with any number of workers.
//!
//! # The barrier
//!
//! There each router's agent, in their order, finishes its archival, closes its page where a tick is due, and lets expired
//! pages go. Then the lines that waited are printed, and the barrier's own. A query is answered behind that, once the agents
//! were made ready for it. One worker asks the regions of its flood one after another, several ask those of a round at once
//! (`finder`); the graph is the same.
//!
//! Read `yard` and `alone` first, then `state`, `lines` (within a segment), `agents` (all routers at a barrier), `closing`
//! (barriers), `finder`, `barriers`, `queries`, `printing` and `sights`; for several workers `segments` and `segment`.
#![tactic(auto)]

mod agents;
mod alone;
mod barriers;
mod closing;
mod conclude;
mod finder;
pub mod laws;
mod lines;
mod operator;
mod passes;
mod printing;
mod queries;
mod segment;
mod segments;
mod sights;
mod state;
mod summary;
mod yard;

pub use alone::{Replayed, replay_alone};
pub use segments::replay;
pub use sights::{has_query, sights_alone};
pub use summary::load_text;
pub use trace_history::Totals;
pub use trace_workers::{Free, Turnstile};
pub use yard::Yard;
