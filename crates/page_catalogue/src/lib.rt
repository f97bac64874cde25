//! When the pages of one router open, close and expire, and which of them the window of a query has.
//!
//! # Pages by their times
//!
//! A page is what was recorded between two times. Pages are numbered from 0 in the order in which they open, and exactly one
//! is open. So a list of the times at which pages closed says all: page p closed at number p of them, the next one opened then,
//! and the page behind the last one is open. `specs/Pages` defines all of it over that list, and the agents and histories above
//! cite those definitions.
//!
//! # Closing
//!
//! At a tick the open page is due when it has been open for the span, or has as many set bits as the limit (a fuller Bloom filter has more
//! false positives). A rotation closes it at any time. `due` closes a page exactly where it is due.
//!
//! # Expiry
//!
//! At a barrier a closed page expires when `keep` later pages have closed, or when it closed `age` ago. Expired pages are a
//! prefix and stay expired, so one number says which they are. `expire` expires exactly those.
//!
//! # The window of a query
//!
//! A query for a time looks into the pages that had opened by then and closed no more than the width before. They are never none, and
//! stand side by side, so `window` finds them by two binary searches, and says exactly which pages they are, expired ones too:
//! whoever answers from them must say what is missing.
//!
//! Read `specs/Pages`, `states` and `catalogue` in this order; `laws` has what holds of every router's pages.
#![tactic(auto)]

mod catalogue;
pub mod laws;
mod states;

pub use catalogue::Catalogue;
pub use states::{PageRow, PageState, Why};
