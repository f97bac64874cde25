//! The messages of a traceback over a network as bytes: what a manager asks a region's agent, and what the agent
//! answers.
//!
//! The central contract is that of the pair: `encode_message` gives the one spelling of a message, and `decode_message`
//! answers the message that the whole input spells, or the place of the first field that is not wholly there or breaks
//! a rule. `laws` has that each undoes the other. Read `specs/Spelling.antt`, which is the grammar, `specs/Reading.antt`,
//! which reads it from left to right and says where reading stops, and then `writing` and `reading`.
#![tactic(auto)]

mod fields;
mod items;
mod laws;
mod messages;
mod reading;
mod stop;
mod writing;

pub use laws::{has_one_spelling, reads_again, spells_one};
pub use messages::{Message, MessageRefused, Reply, Request};
pub use reading::decode_message;
pub use writing::encode_message;
