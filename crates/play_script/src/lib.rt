//! Reads the scripts of `play`: a router's passes and the shape of its pages, and steps of its gate, line by
//! line; and writes what the steps answered.
//!
//! Its central contract is that of `read_play`: a text is read exactly where it is a script (`specs/Script`),
//! and refused exactly with its first fault (`specs/Fault`). `script_or_fault` is the law that each text has
//! one of the two, and only one. `play_text` gives the text of `specs/Report`. Lines are those of `line_text`,
//! numbers and refusals those of `trace_format`. Read `specs/Spelling` for the form of each line and
//! `specs/Words` for where it may stand, then `reader` and `report`.
//!
//! # The order of rules
//!
//! A line is judged from the outside in: how many bytes it has, its word, the number of its fields, and then the
//! form of each field, to which belongs that an act is the actor's to do. A step that is well formed is refused
//! only where there are too many. The first line that breaks a rule is the fault, as in `line_text`.
#![tactic(auto)]

mod answers;
mod draft;
mod forms;
mod laws;
mod pages;
mod reader;
mod report;
mod script;
mod words;

pub use laws::{script_has_one_report, script_or_fault};
pub use reader::read_play;
pub use report::play_text;
pub use script::{CORE_N_MOST, PlayScript};
