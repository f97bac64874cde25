//! Texts of lines, and lines of fields: how they are cut, which of them belong to a language, and how they are
//! written.
//!
//! A line feed ends a line, and one space stands between two fields. `cut` takes a text at the first byte of a
//! kind, `split_into` a line into its fields, and the `push` functions append exactly their text. All that is
//! read or written line by line stands on this: traces, scripts, reports and answers. Read `specs/Text` and
//! `specs/Writing` first, then `specs/Language`.
//!
//! # The first faulty line
//!
//! A language says what a line may say behind the lines before it, which line is the last, and which rule a
//! line breaks first (`specs/Language`). A text of the language is such lines up to its last one, with nothing
//! behind it. Any other text has a first fault: the first line that breaks a rule, and the first rule that this
//! line breaks. A text that is longer than the language allows is refused before its first line.
//!
//! # Exactly one of a value and a fault
//!
//! A reader keeps what is known of the lines so far, and reads one line more (`specs/Reading`). Where it reads
//! each line as what the line says, and refuses each other line with the rule that it breaks first, each text is
//! read as its value or refused with its first fault, and has only one of the two. `proofs/Readings` shows this
//! once for all languages.
#![tactic(auto)]

mod hex_digits;
mod in_place;
mod text;
mod writing;

pub use hex_digits::lower_hex_into;
pub use text::{cut, split_into};
pub use writing::{push, push_count, push_counted, push_field, push_number, push_word};
