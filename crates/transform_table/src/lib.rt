//! The rows of the transforms that a router made, by index.
//!
//! Its central contracts are those of `Table`, which clauses see as the list of its rows, each with its page, in the
//! order of adding: `add` appends, `find` gives exactly those with a key, `drop_page` leaves out those of a page.
//! Rows stand in a slab, and each by index in three chains: that of all rows, that of its key's bucket (1,024 of them)
//! and that of its page; an old signature that is kept whole is an id in a store. Read `specs/Tables` first, then
//! `table`; `specs/Chained` says how a table is kept.
#![tactic(auto)]

mod filing;
mod found;
mod line;
mod rows;
mod table;

pub use found::Found;
pub use table::Table;
