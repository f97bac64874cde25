//! What workers do in one segment of a replay: they record its `fwd` and `xf` lines on the routers' planes, each worker
//! in a thread of its own, beside an operator.
//!
//! `deal_out` deals a segment's record lines to the jobs in turn: line number j goes to worker j modulo their number.
//! `spread` gives each job a pass of a router's plane. `work_all` lets all workers record at once; its central contract
//! is that of `record_share`: each pass has grown by exactly the pairs of page and signature of the worker's lines at its
//! router, in line order. `draw` takes a router's passes back in the order of the workers, and `page_of` reads the page
//! of a record line. `laws` ties this to `trace_history`: what the passes have are the shares of which its yard is made,
//! and the pages are legal. Read `specs/Records`, `specs/Jobs` and `specs/Laws`, then `work`.
#![tactic(auto)]

mod columns;
mod crew;
mod dealing;
mod jobs;
pub mod laws;
mod turnstile;
mod work;

pub use columns::{draw, spread};
pub use crew::work_all;
pub use dealing::{deal_out, is_record};
pub use jobs::{Job, open_jobs, page_of};
pub use turnstile::{Free, Turnstile};
pub use work::record_share;
