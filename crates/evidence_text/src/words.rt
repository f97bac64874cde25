// The words of a certificate, and how far it is.
ghost use Rattle.std.specs.Prelude.{◌≡◌};
ghost use Rattle.evidence_text.specs.Order as order;
ghost use Rattle.evidence_text.specs.Reading as reading;

/// How far a certificate is.
#[derive(Clone, Copy, PartialEq, Eq, Debug)]
pub enum Stage {
    /// Before the first line.
    Version,
    /// Before the second line.
    Routers,
    /// Among the links, or before them.
    Links,
    /// Behind the start, among the routers and their pages.
    Pages,
    Nodes,
    Edges,
    Unknown,
    Clear,
    /// Behind `end`.
    Over,
}

/// The word of a line.
#[derive(Clone, Copy, PartialEq, Eq, Debug)]
pub enum Word {
    Version,
    Routers,
    Link,
    Start,
    Router,
    Page,
    Row,
    Node,
    Edge,
    Unknown,
    Clear,
    End,
}

impl Stage {
    /// Whether the `end` line was read.
    pub fn is_over(self) -> bool
        ensures { result ≡ order.is_over self }
    {
        matches!(self, Stage::Over)
    }

    pub fn at_version(self) -> bool
        ensures { result ≡ order.at_version self }
    {
        matches!(self, Stage::Version)
    }

    pub fn at_routers(self) -> bool
        ensures { result ≡ order.at_routers self }
    {
        matches!(self, Stage::Routers)
    }

    pub fn at_links(self) -> bool
        ensures { result ≡ order.at_links self }
    {
        matches!(self, Stage::Links)
    }

    pub fn at_pages(self) -> bool
        ensures { result ≡ order.at_pages self }
    {
        matches!(self, Stage::Pages)
    }

    /// The place of a part of the answer among its parts.
    pub fn rank(self) -> u8
        ensures { result ≡ order.rank self }
    {
        match self {
            Stage::Pages => 1,
            Stage::Nodes => 2,
            Stage::Edges => 3,
            Stage::Unknown => 4,
            Stage::Clear => 5,
            _ => 7,
        }
    }
}

/// The word that a field is. The words that a certificate may have most of are looked for first.
#[tactic(auto, unfolding(crate::specs::Reading::word_of))]
pub fn word_of(field: &[u8]) -> Option<Word>
    ensures { result ≡ reading.word_of field.now }
{
    if field == b"edge".as_slice() {
        Some(Word::Edge)
    } else if field == b"row".as_slice() {
        Some(Word::Row)
    } else if field == b"node".as_slice() {
        Some(Word::Node)
    } else if field == b"clear".as_slice() {
        Some(Word::Clear)
    } else if field == b"unknown".as_slice() {
        Some(Word::Unknown)
    } else if field == b"page".as_slice() {
        Some(Word::Page)
    } else if field == b"link".as_slice() {
        Some(Word::Link)
    } else if field == b"router".as_slice() {
        Some(Word::Router)
    } else if field == b"start".as_slice() {
        Some(Word::Start)
    } else if field == b"end".as_slice() {
        Some(Word::End)
    } else if field == b"routers".as_slice() {
        Some(Word::Routers)
    } else if field == b"spie-certificate".as_slice() {
        Some(Word::Version)
    } else {
        None
    }
}
