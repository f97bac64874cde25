//! One region's side of a traceback: it floods among its own routers from pairs at which packets came in, and tells
//! what leads out of it.
//!
//! `follow_region` goes on with a search in the region, from leads that come from other regions, and gives those that
//! lead on to others; a manager in one process asks that. `flood_region` is the flood within a region on its own, and
//! `answer_region` gives it as a value with the region and the entries that were asked, so that an answer says by itself
//! what it answers, and can come in a message. `ask_desk` asks a region that is asked beside others, and keeps a search of
//! its own for that (`Desk`). `lie_in` tests whether entries can be asked of a region, as an agent must
//! that gets them in one. The central contracts are those of `follow_region` and `answer_region`. Read `specs/Answers`,
//! `regions`, `answers` and `follows`; then `specs/Desks` and `desks`.
#![tactic(auto)]

mod answers;
mod desks;
mod follows;
mod regions;

pub use answers::{RegionAnswer, answer_region};
pub use desks::{Desk, ask_desk, open_desk};
pub use follows::follow_region;
pub use regions::{flood_region, lie_in};
