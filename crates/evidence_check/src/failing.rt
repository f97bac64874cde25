// The first line of an answer that fails.

/// A line of an answer, by its part and its place there.
#[derive(Clone, Copy, PartialEq, Eq, Debug)]
pub(crate) enum Failing {
    Node(usize),
    Edge(usize),
    Unknown(usize),
    Clear(usize),
    End,
}
