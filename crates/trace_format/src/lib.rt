//! Reads the text of a trace: the rules and the routers that it declares, its packets, and what it asks
//! for, line by line.
//!
//! Its central contract is that of `read_trace`: a text is read exactly where it is a trace
//! (`specs/Trace`), and refused exactly with its first fault (`specs/Fault`). Each text has one of the two, and
//! only one, and each trace keeps to `specs/Sound`, which is all that the crates above may rest on (`laws`).
//! Read `specs/Spelling` for the form of each line, `specs/Table` for the rules on what it says and
//! `specs/Before` for what they look at, then `reader`.
//!
//! # The order of rules
//!
//! A line is judged from the outside in: how many bytes it has, its word, the number of its fields, the form of
//! each field, and only then what it says. Rules on what it says are tried in the order of `specs/Table`, and
//! the first that is broken names the fault. What stands on later lines never matters.
//!
//! # One pass over a `fwd` line
//!
//! Most lines of a trace are `fwd NAME NUMBER`. `forward` reads such a line in one pass over its bytes, with no
//! search for its end and no list of its fields. Whatever is not of that form is read by its fields, which also
//! finds out what is wrong with it, so that a fault is judged in one place.
//!
//! # What is kept of a packet
//!
//! Of a packet's hex digits all are tested, but only those of its first 68 bytes are decoded (`digits`): the
//! longest header has 60 bytes, and a signature takes eight bytes behind it.
#![tactic(auto)]

mod digits;
mod draft;
mod fields;
mod forward;
mod items;
pub mod laws;
mod limits;
mod reader;
mod refused;
mod steps;
mod text;
mod version;
mod words;

pub use items::{Line, Trace, What};
pub use limits::{
    MOST_NUMBER, MOST_PACKET_BYTES, MOST_PACKETS, MOST_QUERIES, MOST_RECORDS, MOST_ROTATES,
    MOST_TICKS, MOST_TIME, VERSION_1_N_MOST,
};
pub use reader::read_trace;
pub use refused::{ReadTraceRefused, TraceRefused, WhyRefused};

// For other texts of the same lines, fields and refusals.
pub use fields::{base_of, number};
pub use limits::{MOST_BYTES, MOST_LINE_BYTES};
pub use steps::Stop;
pub use text::is_name;
