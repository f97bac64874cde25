//! The two records of a closed page as bytes: its bits with its times, and its transforms.
//!
//! The central contract is that of the pair: `encode` gives the one spelling of a record, and `decode` answers the
//! record that the whole input spells, or the place of the first field that is not wholly there or not in its range.
//! `laws` has that each undoes the other. Read `specs/Spelling.antt`, which is the grammar, `specs/Reading.antt`, which
//! reads it from left to right and says where reading stops, and then `writing` and `reading`.
#![tactic(auto)]

mod fields;
mod laws;
mod reading;
mod records;
mod stop;
mod writing;

pub use laws::{has_one_spelling, reads_again, spells_one};
pub use reading::decode;
pub use records::{BitsHead, BitsRecord, DecodeRefused, Record, RowsRecord, SPB1_N_MOST};
pub use writing::{encode, encode_bits, encode_rows};
