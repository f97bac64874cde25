//! The two records of one closed page on a shelf: put, read back and checked, and discarded.
//!
//! The central contract is that of `read_back`: by the SHA-256 that were kept of the two records, it gives contents of
//! this page whose records have these digests, or a cause why there are none (`IsCause` says what each cause means).
//! Where the shelf tells both true records, what was recorded is read back, or the shelf failed. Read
//! `specs/Shelving`, `shelving`, `specs/Reading` and `reading`.
#![tactic(auto)]

mod reading;
mod shelving;

pub use reading::{Back, BitsBack, Content, Fetched, RowsBack, read_back};
pub use shelving::{Digests, discard_both, put_bits, put_rows};
