// The requests of a manager, and what was accepted for each.
use reverse_flood::{Node, Part};
use spie_base::List;

/// A request that was made: what a region is asked, and what was accepted for it.
#[derive(PartialEq, Eq, Debug, Drop)]
pub struct Asked {
    /// The region's number.
    pub region: u32,
    /// The pairs from which the region floods. Ascending, each once.
    pub entries: List<Node>,
    /// The part that was accepted, once there is one.
    pub part: Option<Part>,
}
