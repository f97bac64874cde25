//! Where the records of closed pages are put, and got again: a map of names to bytes, in memory or in a folder.
//!
//! # What a shelf promises
//!
//! The central contract is the trait `Shelf`, which is seen by three ghost members: what stands under each name, whether
//! the shelf tells it, and a count of its faults. A call answers `Failed` exactly where that count rose, so no shelf can
//! hide a fault, and a contract above that tells a fault can tie it to that count.
//!
//! # Whom to trust
//!
//! A shelf in memory tells its map, failing calls included. A folder tells its count alone: files may be cut, replaced or
//! deleted by others, so whoever reads a record back compares its SHA-256 with the one that was kept.
//!
//! Read `names`, `specs/Shelves.antt` and `shelf` first.
#![tactic(auto)]

mod bent;
mod folder;
pub mod laws;
mod memory;
mod names;
mod shelf;

pub use bent::{Bend, BentShelf};
pub use folder::FolderShelf;
pub use memory::MemShelf;
pub use names::{ShelfName, ShelfPart, ShelfRefused};
pub use shelf::Shelf;
