//! Certificates of an answer, as text: what they tell, how their lines are spelled and where they may stand, and the
//! reader. Whether a line of the answer holds is not judged here.
//!
//! Its central contract is that of `read_certificate`: a text is read exactly where it is a certificate
//! (`specs/Language`), and refused exactly with its first fault. `laws` has that each text has one of the two, and only
//! one, and what the form of a text gives to whoever judges it (`specs/Judgeable`). Read `specs/Spelling` for the form of
//! each line, `specs/Order` for where it may stand, and then `reader`.
//!
//! # The order of rules
//!
//! A line is judged from the outside in: its word, the number of its fields, the form of each field, and only then where
//! it stands. A bound that an earlier line gives is tested only where that line stands before: a line about routers that
//! comes before their number is known is of its form whatever its numbers are, and then stands nowhere (`early`).
//!
//! # Hostile texts
//!
//! Nothing is as large as a number in the text says: pages and routers are kept by their place, and room is made for as
//! many words as there are digits. A line costs time as its bytes do.
#![tactic(auto)]

mod certificates;
mod draft;
mod early;
mod fields;
pub mod laws;
mod marks;
mod reader;
mod refused;
mod rests;
mod stops;
mod words;
mod writer;

pub use certificates::{Certificate, Link, Named, PageEvidence, RouterPages};
pub use reader::{MOST_CERTIFICATE_BYTES, read_certificate};
pub use refused::{CheckFault, CheckRefused, CheckWhy};
pub use writer::{certificate_text, push_certificate};
