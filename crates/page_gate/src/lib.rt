//! A router's pages as words that threads share: the running form of `gate_core`.
//!
//! # The plane
//!
//! A `Plane` is the words of a router: the current slot, four gates, and the bit words of four slots, each slot a Bloom
//! filter for one page. Threads share it by reference. Its rule is `gate_core`'s plane invariant, which holds between
//! any two operations of any threads, and each operation that changes a word is one act of `gate_core` on that word.
//!
//! # Recording
//!
//! A thread records through a `Pass` of its own. `try_record` loads the current slot (look), adds one to its gate
//! (enter), and finds in what it read whether the gate was sealed and which page it is in. Unsealed, it sets the k bits
//! by fetch-or (set) and takes one from the gate (leave). Sealed, it leaves at once. It waits for nobody, takes no lock
//! and no memory, and works out its k positions once. A page's hash functions are worked out in a pass's first record
//! there; the pass keeps them for the next.
//!
//! # The gate as an epoch
//!
//! What a pin is to epoch-based reclamation, an enter is to a page: the gate counts who is inside. A seal retires the
//! page: who is inside finishes there, and nobody enters any more. Here the count, the seal and the page are one word,
//! so one fetch-add pins and tells in which page.
//!
//! # Dealing and gathering
//!
//! The `Keeper` deals passes and gathers them. What a pass recorded is known to proofs alone, as its list of entries;
//! no list is kept at run time. After `gather` the keeper has all entries, nobody is inside, and the bits of every page
//! are exactly the marks of its entries.
//!
//! # Turning pages
//!
//! `rotate_alone` seals the open page, opens the next one in a free slot, and points the current slot there. A closed
//! page is quiet once `settle` found nobody inside; then `collect` takes its words, and its slot is free again. `probe`
//! asks for the marks of one signature, and `fill` and `snapshot` for all bits of a page. None of these waits.
//!
//! # The rotation lock
//!
//! From the seal of a rotation to its point the current slot is sealed, and a try to record there is turned away. `record`
//! ends in an entry all the same: after such a try it takes the lock that `rotate` holds from its seal to its point, and
//! tries again until it has entered. So a slow record may wait for a rotation and for other slow records, and a rotation
//! for slow records. Where the first try entered, no lock is taken. No clause speaks of what the lock holds, since
//! `rotate_alone` turns the page without it: a record is what its last try tells, and a rotation what its three acts do.
//! With rotations by `rotate` alone, the first try under the lock finds the open page. That is so by design and is not
//! proved, and neither is that a call that waits returns.
//!
//! # What is proved
//!
//! `told` has the rule and what each operation tells; `proofs/Allowed` shows by `gate_core`'s one lemma that each act
//! is allowed; `proofs/Repeating` shows it of the keeper's record of marks that are all set, which changes no word and is one
//! load. The central contracts are `try_record` (an entry more, or a visit of a gate that was sealed then), `record`
//! (exactly one entry more), `gather`, and `record_alone`, which finds the open page unsealed; of the keeper's side
//! `rotate`, `settle`, `collect`, `probe` and `snapshot`. Read `specs/Held`, `specs/Tried`, `specs/Slots` and
//! `specs/Pages` first, then `record`, `seats`, `repeat` and `trying`, then `settle`, `collect`, `rotate` and `probe`, and
//! `locked` last.
#![tactic(auto)]

mod collect;
mod deal;
mod hashes;
mod keeper;
mod locked;
mod open;
mod pass;
mod plane;
mod probe;
mod reading;
mod record;
mod repeat;
mod rotate;
mod seal;
mod seats;
mod settle;
mod slots;
mod steps;
#[cfg(test)]
mod tests;
mod told;
mod trying;
mod words;

pub use keeper::Keeper;
pub use pass::Pass;
pub use plane::Plane;
pub use record::Tried;
pub use settle::Settled;
