// Messages, and why bytes are no message.
use reverse_flood::{Node, Part};
use spie_base::List;

/// What a manager asks of a region: its part of a flood from these entries.
#[derive(PartialEq, Eq, Debug, Drop)]
pub struct Request {
    /// The request's number, from 0. Its reply has the same.
    pub number: u64,
    pub region: u32,
    /// Ascending, each once.
    pub entries: List<Node>,
}

/// What a region's agent answers to the request of the same number.
#[derive(PartialEq, Eq, Debug, Drop)]
pub struct Reply {
    pub number: u64,
    /// Its lists are ascending, each item once.
    pub part: Part,
}

/// A message between a manager and an agent.
#[derive(PartialEq, Eq, Debug, Drop)]
pub enum Message {
    Ask(Request),
    Answer(Reply),
}

/// Why bytes were not decoded: the place of the first fault.
#[derive(Clone, Copy, PartialEq, Eq, Debug)]
pub enum MessageRefused {
    NoMemory,
    Refused { place: usize },
}
