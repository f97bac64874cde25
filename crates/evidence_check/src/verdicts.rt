// What a certificate is worth.

/// What a certificate is worth.
#[derive(Clone, Copy, PartialEq, Eq, Debug)]
pub enum Verdict {
    /// Its lists are those of the flood over its pages. They have so many nodes and edges, and so many unknown and clear
    /// pairs.
    Yes {
        nodes: u32,
        edges: u32,
        unknown: u32,
        clear: u32,
    },
    /// This line is the first that fails, counted from 1.
    No {
        line: u64,
    },
}
