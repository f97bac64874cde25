//! One router's agent: what it recorded, in which page, and what a query sees of it.
//!
//! # The ledger
//!
//! An agent stands for one ledger (`router_account`): what was recorded and when pages closed, and what barriers and
//! archivals made of its pages. Each call says: whatever ledger the agent stood for, it stands for that ledger after this
//! event, and its answer is an equation over it; where the shelf decides (which pages of an archival were put, which are
//! left there, which could not be read) it is a relation. `StandsFor` says what standing for a ledger is, and no public
//! clause looks into it.
//!
//! # The plane
//!
//! An agent works on a plane of its own (`page_gate`), which it does not hold: threads may share planes while agents change.
//! `Agent::open` gives both, and each call that reads or writes bits takes the plane and requires that it is the agent's own. The
//! agent holds the plane's keeper, and the keeper's entries are those of the ledger, in any order: workers' entries are gathered in
//! another order than that of their lines. Each call says what becomes of the keeper's list.
//!
//! # The life of a page
//!
//! A page is open in a slot of the plane, then closed and still in its slot. It is collected at the next archival or barrier, or
//! when `rotate_alone` needs its slot, the oldest first: then it is a value in memory, with its hash functions. An archival
//! notes the closed pages that no earlier one put, and puts their bits on the shelf; while passes are out, up to the first
//! page in which somebody is inside. At the barrier behind it the other bits and all rows follow. A page of which both were put
//! leaves memory, and two digests stay in its place; another one is kept, for the next archival. When a page expires, its rows,
//! its place and its records go. Of an expired page nothing stays but that it was there.
//!
//! # Passes
//!
//! `deal` hands out passes, through which threads record in the plane, and `gather` takes them in again. Meanwhile the agent
//! stands beside them (`StandsBeside`): for a ledger that has the gathered entries alone. `rotate` may be called then, which
//! waits where somebody is inside the page whose slot it needs, and `archive`, which waits for nobody. What passes record shows in the words that the keeper collects
//! and reads, and `gather` tells that these were the marks of entries: a page that was collected beside passes has the bits of
//! the ledger behind `gather`, and so has each bits record that was put meanwhile.
//!
//! # What a query sees
//!
//! A sight borrows from the agent, and reading the plane takes its keeper. So `prepare` comes first: it collects the closed pages
//! and copies the open one, at the cost of a load for each of its 2^(n-6) words. A `Sight` borrows this copy and the pages of
//! the window that are in memory, copies none of them, and reads the others back from the shelf. A page that can't be read
//! back is named with its cause, and is missing, as an expired one is: so its router never says no.
//!
//! A `watch` needs none of this. It looks into the pages in memory and probes the others in their slots, also beside passes. Its
//! contract names the probes that it added (`specs/Probing.antt`): Seen and not seen rest on them, and on no copy.
//!
//! # What is in memory
//!
//! For each router a plane, which is 5 + 4·2^(n-6) words, 32 KiB at n 16; the keeper with the hash functions of a page for each slot,
//! about 2,400 bytes; for each page that was collected, has not expired and is not on the shelf 2^(n-6) words and 560 bytes of hash
//! functions; as much for the copy, from a `prepare` to the next barrier; for each page on the shelf 64 bytes; and the rows.
//!
//! Read `specs/Calls.antt`, `specs/Planes.antt`, `specs/Standing.antt`, `specs/Beside.antt`, `agent`, `slots`, `collecting`, `rotating`,
//! `passes`, `watch`, `archival`, `finishing`, `barrier`, `looking` and then `sight`.
#![tactic(auto)]

mod agent;
mod archival;
mod barrier;
mod closed_page;
mod collecting;
mod finishing;
mod laws;
mod looking;
mod outcome;
mod passes;
mod resident;
mod rotating;
mod sight;
mod slots;
mod watch;

pub use agent::Agent;
pub use laws::{entries_are, entries_exist, sight_is_shared, stands_beside_none};
pub use outcome::{Archived, Barrier, Closed};
pub use resident::Resident;
pub use sight::Sight;
