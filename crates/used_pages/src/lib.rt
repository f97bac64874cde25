//! The pages of a router that a query uses, and what they show: whether a signature was recorded there, and what it may
//! have been before this router.
//!
//! The definitions stand in `specs/UsedPages`: a used page is a value, its number with its positions and its rows, and
//! hits and origins are said of a router's used pages by their shape. An agent, a replay and whoever checks an answer over
//! the pages cite the same words. The code is for origins: `KeyedRows` finds the rows with a key by a binary search, and
//! `Origins` gathers what rows say, beginning with the signature itself. Its central contracts are those of
//! `Origins::add_rows` and `Origins::into_ascending`. Read `specs/UsedPages`, `keyed_rows` and then `origins`.
#![tactic(auto)]

mod keyed_rows;
mod origins;

pub use keyed_rows::KeyedRows;
pub use origins::Origins;
