//! The text of a report, line by line.
//!
//! An item is what one line says; `push_item` appends exactly its line. The text of an item is a
//! definition on its fields: the line's number, then each field behind one space, then a line feed.
//! Read `items` for what the lines say, `specs/Report.antt` for how they are spelled, `lines` for the
//! code, one function for each kind of line, and `laws` for what the text determines.
#![tactic(auto)]

mod fields;
mod items;
pub mod laws;
mod lines;

pub use items::{Bad, CauseWord, Item};
pub use lines::{push_entered, push_item};
