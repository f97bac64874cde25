//! The laws that hold of every history, and so of each replay.
pub use trace_history::laws::{
    apart_is_sequential, apart_lines_are_apart, apart_watches_are_sequential, never_a_no,
    no_fault_no_mark, one_worker_gathers, pages_are_three, report_is_one, routes_are_found,
    sequential_is_legal, workers_report_the_same,
};
