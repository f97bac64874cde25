// What the machine keeps.
ghost use Rattle.std.specs.Prelude.{◌≡◌, ◌<◌, ◌≤◌, [], ◌∷◌, vec_len, vec_capacity};
ghost use Rattle.gate_core.specs.Writes.{Grows};

use crate::PassState;
use crate::view::{Probed, Slot, Visit};
use hash_family::Family;
use spie_base::{Entry, Marks, PageShape};

/// An actor: where it is in a record, and the signature's marks while it is inside.
#[derive(Clone, Copy)]
pub(crate) struct Seat {
    pub state: PassState,
    pub marks: Marks,
}

/// Items in the order in which they came, and the place of the actor of each.
#[derive(Drop)]
pub(crate) struct Log<T> {
    pub items: Vec<T>,
    pub places: Vec<u8>,
    /// How many of them are the keeper's.
    pub own: u64,
}

impl<T> Log<T> {
    // One item more, of the actor at the place.
    pub fn note(&mut self, item: T, place: u8)
        requires items { vec_len self.old.items < vec_capacity self.old.items }
        requires places { vec_len self.old.places < vec_capacity self.old.places }
        requires own { self.old.own ≤ vec_len self.old.items }
        ensures { Grows self.old self.new place (item ∷ []) }
    {
        self.items.push_reserved(item);
        self.places.push_reserved(place);
        if place == 0 {
            self.own += 1;
        }
    }
}

/// The keeper's: its slots with the hash functions of their pages, and what it collected and saw.
#[derive(Drop)]
pub(crate) struct Desk {
    pub slots: [Slot; 4],
    pub families: [Family; 4],
    pub next: u32,
    pub pointed: u8,
    /// Of each page that was opened, the words collected so far.
    pub collected: Vec<Vec<u64>>,
    /// Room for the words of pages to come.
    pub spare: Vec<Vec<u64>>,
    pub probes: Vec<Probed>,
    pub noted: u64,
    pub noted_with: u32,
}

/// All of it. The keeper has the first seat, and the passes have the others in their order.
#[derive(Drop)]
pub(crate) struct CoreData {
    pub shape: PageShape,
    pub words: Vec<u64>,
    pub seats: Vec<Seat>,
    pub desk: Desk,
    pub entries: Log<Entry>,
    pub visits: Log<Visit>,
    /// For so many steps there is room.
    pub room: usize,
}
