//! The gate of a router's pages as plain data: what threads that share the pages may do, and what then always holds.
//!
//! # Pages, slots and gates
//!
//! A router records into one page at a time, a Bloom filter. Its words have room for four pages, one a slot, so that a closed page
//! can be read while the next one is open. Each slot has a gate: one word with the page, a seal, and how many are inside.
//! So one atomic operation can enter a page, learn which page it is, and learn whether it was sealed.
//!
//! # Actors and acts
//!
//! Passes record; the keeper seals, settles, drains and opens pages beside them, and may record too. Each act is one atomic
//! operation on one word, so nobody waits for another. An actor knows by its own acts alone: that is its view (`view`).
//!
//! # Why a drained page is complete
//!
//! It is the idea of epoch-based reclamation. To enter is to pin: the gate counts it. To seal is to retire: who enters later sees the
//! seal and sets no bit. Once the keeper reads a count of 0 behind its seal, nobody is inside and nobody sets a bit there any more,
//! so what it drains is exactly the marks of the records that finished there.
//!
//! # The plane invariant
//!
//! What holds between any two acts: how words and views fit together, in which slot a page stands, which bits may be set.
//! `runs_keep_the_invariant` says that every history of acts keeps it. It is proved act by act: for each kind of act one
//! lemma, over an arbitrary actor in an arbitrary state.
//!
//! # The machine
//!
//! `CoreState` holds the words and all views, and `CoreState::step` does exactly an act, or refuses it with its cause. `play`
//! steps it through a script. Threads run the same acts on shared words in `page_gate`, whose proof is this invariant.
//!
//! The other functions of `laws` say what follows for pages, floors, settles and probes. Read `docs/GATE.md`, then `specs/Views.antt`,
//! `Acts.antt`, `Invariant.antt` and `Moves.antt`, then `laws`, and for the machine `specs/Core.antt` and `core_state`.
#![tactic(auto)]

mod acts;
mod core_data;
mod core_state;
pub mod gate_word;
mod initial;
mod laws;
mod limits;
mod playing;
mod readers;
mod reserving;
mod states;
mod steps;
pub mod view;

pub use acts::{family_of, open_slot};
pub use core_state::CoreState;
pub use initial::first_words;
pub use laws::{
    entries_stay, floors_hold, keeper_alone_has_all, keeper_reads_its_own, one_play,
    pages_have_one_place, probes_tell_what_is_set, runs_keep_entries, runs_keep_the_invariant,
    settles_tell_who_is_inside, words_are_the_marks,
};
pub use limits::{MOST_PASSES, NO_SLOT, SLOTS};
pub use playing::{Played, play};
pub use states::{ActorState, PassState, SlotPhase};
pub use steps::{Act, Actor, Step, StepAnswer};
