//! The run of the program: its arguments, what it reads and what it writes.
//!
//! Its central contract is that of `run`, which carries the promise of the whole program. Where it answers `Done`, the
//! bytes that were read are a trace, a script or a capture, and those that were written are the report of a replay of it,
//! which leaves the trace's routers in the yard; what its steps answer; or its lines or counts: by the definitions of
//! `trace_format`, `trace_history`, `play_script` and `pcap_intake`. `make` and `load` read nothing: the trace is that of
//! `made_trace`, and what is written is its text, or one line that sums up a replay of it. `check` answers `Done` or `No`, by
//! whether the lines of a certificate hold (`evidence_check`). Each other status but `NoMemory` comes with its cause.
//! `run_alone` is the same for commands that wait for nobody, and so it returns. Read `Ran` in `specs/Run.antt` first, then
//! `top`.
#![tactic(auto)]

mod captures;
mod certificates;
mod made;
mod refusals;
mod replies;
mod top;
mod words;

pub use top::{run, run_alone};
pub use trace_replay::Yard;
pub use words::{Command, Making, capture_word, shelf_word};
