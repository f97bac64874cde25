// A closed page that has not expired and has left its slot: in memory, or on the shelf.
use crate::Resident;
use shelved_page::Digests;

/// Where a closed page is that was collected.
#[derive(Drop)]
pub enum Whereabouts {
    InMemory(Resident),
    /// The SHA-256 of its two records are all that stays of it in memory.
    OnShelf(Digests),
}

/// A closed page that was collected and has not expired.
#[derive(Drop)]
pub struct ClosedPage {
    pub(crate) place: Whereabouts,
    // Whether an archival that is finished covered it, so that the shelf may have a record of it.
    pub(crate) covered: bool,
}
